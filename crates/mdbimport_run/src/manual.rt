//! The manual: what `mdbimport manual` prints. The man page is made of it (`tools/manual`).

/// What the program is.
pub const ABOUT: &str = "\
NAME
    mdbimport - rows of a recorded vending bus, from what recorders write

SYNOPSIS
        mdbimport sigrok [FILE] > ROWS
        mdbimport rows [FILE] > ROWS
        mdbimport saleae [FILE] > ROWS
        mdbimport edges [FILE] > ROWS
        mdbimport vcd [FILE] > ROWS
        mdbimport messages [FILE] > ROWS
        mdbimport manual [COMMAND]

DESCRIPTION
    mdbimport reads the export of a recorder from FILE, and writes the rows
    that mdbcheck(1) reads to standard output. Without FILE, or if it is -, it
    reads standard input. It opens no other file. It guesses nothing, and
    leaves nothing out without a word. What it can't be sure of is
    refused, with the number of the record and, if it can be read, its time.

    A pulse shorter than half a bit is passed over, and reported. The decoder
    of Saleae never shows one.

    Options stand after the command. Each may stand once, but for --decimal,
    --swap, --invert and --skip-damaged. --unit=ms, in one word, means the
    same as two words.

    If standard error is a terminal, a run that takes longer than a second
    shows there how many rows it has read.

";

/// `rows`.
pub const ROWS: &str = "\
ROWS
        mdbimport rows [--unit s|ms|us|ns] [--controller NAME]
            [--peripheral NAME] [--decimal] [--from T] [--until T]
            [FILE] > ROWS

    Imports rows in other forms: with comments and a header, semicolons or
    tabs, in seconds, milliseconds or nanoseconds, with a decimal comma, times
    of day, dates, 0x, lost zeros, a * for the mode bit, other names for the
    lines, in UTF-16. If the time of a refused record can be read, it also
    names the time to go on with --from.

    Times of day become microseconds since midnight. One that is more than 12
    hours before the time before it is of the next day. Dates with a time
    become microseconds since 1970-01-01T00:00:00Z: 2026-11-30 09:14:22.447,
    30.11.2026 09:14:22,447, 2026-11-30T09:14:22Z, 2026-11-30T10:14:22+01:00.
    Without an offset they are taken as UTC. All times of an export have the
    form of its first.

    --unit s|ms|us|ns
                     The unit of the times. Times of day and dates need none.
    --controller NAME, --peripheral NAME
                     What the export calls the two lines, besides M and S.
    --decimal        The words are decimal numbers, 0 to 511. Without this
                     option they are hexadecimal.
    --from T, --until T
                     A part of the export. T is a time in the microseconds of
                     the rows, a time of day, or a date with one, and both
                     ends belong to the part. A bad record whose own time is
                     outside the part is passed over, and counted.

";

/// `sigrok`.
pub const SIGROK: &str = "\
SIGROK
        mdbimport sigrok [--swap] [--skip-damaged] [--from T] [--until T]
            [FILE] > ROWS

    Imports the trace that sigrok-cli writes of its decoder uart.
    sigrok-trace.md has the command for it.

    --swap           The channel RX is the controller's line.
    --skip-damaged   Leaves out damaged words, and reports them: what has a
                     low stop bit, and is no break. Without this option such
                     a trace is refused.
    --from T, --until T
                     A part of the trace. T is a time in the microseconds of
                     the rows, and both ends belong to the part.

";

/// `saleae`.
pub const SALEAE: &str = "\
SALEAE
        mdbimport saleae [--controller NAME] [--peripheral NAME]
            [--break T] [--skip-damaged] [--from T] [--until T]
            [FILE] > ROWS

    Imports the table that Logic 2 exports of its analyser Async Serial, with
    nine bits a word. saleae.md has its form.

    --controller NAME, --peripheral NAME
                     What the table calls the two lines.
    --break T        How long each break was, in microseconds. The table
                     doesn't show it. Without this option a break is refused.
    --skip-damaged   As with sigrok.
    --from T, --until T
                     A part of the table. T is a time in the microseconds of
                     the rows, and both ends belong to the part.

";

/// `edges`.
pub const EDGES: &str = "\
EDGES
        mdbimport edges [--unit s|ms|us|ns] [--controller NAME]
            [--peripheral NAME] [--invert] [--invert-line NAME]
            [--skip-damaged] [--from T] [--until T] [FILE] > ROWS

    Decodes a table of the times at which each channel changed. edges.md has
    its form.

    --unit s|ms|us|ns
                     The unit of the times: seconds if none is given.
    --controller NAME, --peripheral NAME
                     What the table calls the two channels.
    --invert         The levels of the table are upside down.
    --invert-line NAME
                     Those of one line alone are: of M, of S, or of the one
                     with this name. Without both options, one line alone
                     that is low at rest, and gives words upside down and no
                     damaged ones, is read upside down, and that is reported.
    --skip-damaged   As with sigrok.
    --from T, --until T
                     A part of the table. T is a time in the microseconds of
                     the rows, and both ends belong to the part.

";

/// `vcd`.
pub const VCD: &str = "\
VCD
        mdbimport vcd [--controller NAME] [--peripheral NAME] [--invert]
            [--invert-line NAME] [--skip-damaged] [--from T] [--until T]
            [FILE] > ROWS

    Decodes a value change dump, which most logic analysers and sigrok-cli
    write. vcd.md has its form.

    --controller NAME, --peripheral NAME
                     The names or the paths of the two lines' variables.
    --invert         The levels of the dump are upside down.
    --invert-line NAME
                     As with edges.
    --skip-damaged   As with sigrok.
    --from T, --until T
                     A part of the dump. T is a time in the microseconds of
                     the rows, and both ends belong to the part.

";

/// `messages`.
pub const MESSAGES: &str = "\
MESSAGES
        mdbimport messages [--unit s|ms|us|ns] [--controller NAME]
            [--peripheral NAME] [--time-of first|last] [--decimal] [--from T]
            [--until T] [FILE] > ROWS

    Imports the text log of a sniffer, with one message a line: a time, who
    spoke, and the words, as bytes of two hexadecimal digits, perhaps with a *
    for the mode bit, or words of three. messages.md has its form. The times
    of the words in a message are made up, so rules about times say nothing
    about such a recording. Times of day and dates are read as with rows.

    --unit s|ms|us|ns
                     The unit of the times. Times of day and dates need none.
    --controller NAME, --peripheral NAME
                     What the log calls the two sides, besides M and S. A
                     name may have its arrow: --controller 'VMC ->'.
    --time-of first|last
                     Whether a line has the time of the message's first word
                     or of its last: of its first if this isn't given.
    --decimal        As with rows.
    --from T, --until T
                     A part of the log, as with rows.

";

/// `manual`.
pub const MANUAL: &str = "\
MANUAL
        mdbimport manual [COMMAND]

    Prints this manual, or the part on one command. It reads no input.

";

/// What is the same for all commands.
pub const REST: &str = "\
EXIT STATUS
    0                All rows of the export, or of the part that is asked for,
                     are on standard output, or the manual is. Lines on
                     standard error may say what was passed over, and what is
                     likely to be wrong with the recording.
    2                Not all rows are there, or there is none. A line on
                     standard error says why. If the export, the part or the
                     command line was refused, the last line on standard
                     output is \"mdbimport refused this export\". It is no
                     row, and mdbcheck refuses it. Only --help and --version
                     write nothing there. If another command reads what was
                     given, the line names it.
    141              Nobody reads the output any more, as with | head.
                     Nothing is said.

EXAMPLES
    Check a trace of sigrok-cli, with no file in between:

        mdbimport sigrok < reset-and-poll.json | mdbcheck check

    Rows in milliseconds, in which the lines have names of their own:

        mdbimport rows --unit ms --controller TX --peripheral RX \\
            < milliseconds.csv > bus.csv

    A tenth of a second of a table of edges:

        mdbimport edges --controller \"Channel 0\" --peripheral \"Channel 1\" \\
            --from 0 --until 100000 < edges.csv > bus.csv

SEE ALSO
    mdbcheck(1), sigrok-cli(1), and the pages importing.md and recording.md in
    share/doc/mdbcheck/docs/bench
";
