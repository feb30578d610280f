//! The manual: what `mdbcheck manual` prints. The man page is made of it (`tools/manual`).

/// What the program is.
pub const ABOUT: &str = "\
NAME
    mdbcheck - check the recorded bus traffic of a vending machine

SYNOPSIS
        mdbcheck check [FILE]
        mdbcheck survey [FILE]
        mdbcheck show [FILE]
        mdbcheck explain ACCOUNT SIDE BOUND [FILE]
        mdbcheck replay [FILE]
        mdbcheck manual [COMMAND]

DESCRIPTION
    The controller of a vending machine talks to its coin changer, bill
    validator and card readers over a serial bus, MDB/ICP 4.3. mdbcheck
    reads a recording of that bus, a transcript, from FILE. Without FILE, or
    if it is -, it reads standard input. It reports whether the recording is
    possible. If it is possible, mdbcheck prints how much money moved: the
    least and the most. If it isn't, mdbcheck names the first impossible row,
    the rule that the row breaks, and who sent it. Verdict and bounds are
    proved.

    A yes doesn't mean honest money. It means that an honest explanation of
    the recording exists. Blame is who sent the row, and not what to
    replace.

    Options stand after the command. --without=DEVICE, in one word, means
    the same as two words. mdbcheck opens no file but FILE. It reads no
    configuration and no environment variable.

    If standard error is a terminal, a run that takes longer than a second
    shows there how many rows it has read, until it writes its output.

";

/// `check`.
pub const CHECK: &str = "\
CHECK
        mdbcheck check [--joined] [--extended] [--setup 'DEVICE BYTES']..
            [--without DEVICE].. [--json] [FILE]

    Prints the verdict. The first line is \"verdict yes\" or \"verdict no\".

    --joined         The recording began while the machine was running.
                     Without this option the first row counts as power-on,
                     and the checker may blame the innocent.
    --extended       Also follows card readers of feature levels 2 and 3, and
                     bills that go to a recycler. Use it for each recording.
    --setup 'DEVICE BYTES'
                     With --joined: gives the device's answer to SETUP, from
                     an earlier recording: the line that \"mdbcheck show\"
                     prints of it, or what that line has after \"reply\". Give
                     it once for each device. A recording that contains no
                     such answer has sums of 0 without it.
                     With --extended a reader may have two more: the line of
                     the controller's SETUP (11 00), which gives its feature
                     level, and that of its ENABLE OPTIONS (17 04), which
                     says that no money of 32 bits is meant. To the reader at
                     60H they begin with 61 00 and 67 04.
    --setup 'DEVICE level 3'
                     With --joined and --extended: gives the feature level of
                     a reader and of the controller, 1, 2 or 3, in the place
                     of the controller's SETUP.
    --without DEVICE
                     Leaves a device out: all words to and from it are passed
                     over. Repeat it for more devices. DEVICE is changer,
                     bill, cashless (the reader at 10H) or cashless-2 (the
                     reader at 60H). Use it if the rule is Profile, also with
                     --extended, and you ask about another device.
    --json           Writes the report as JSON, for programs: one object on
                     one line. Statuses and standard error stay the same.

";

/// `survey`.
pub const SURVEY: &str = "\
SURVEY
        mdbcheck survey [--joined] [--extended] [--setup 'DEVICE BYTES']..
            [--without DEVICE].. [--json] [FILE]

    Goes on after an impossible row. check stops there; survey prints every
    such row as a fault, and the report on each stretch of rows between.

    stretch 2 rows 38-46
                     The second stretch, and its rows. The lines of its
                     report follow, as check --joined prints them.
    fault 47 Speaker changer
                     An impossible row, its rule and its blame. It belongs
                     to no stretch.
    total coins-in ..
                     The sums of the ranges of all stretches.
    faults 2 controller 1 changer 1 ..
                     How many faults there are, and how many of them each
                     side has. Those with the rule Profile are nobody's: they
                     count last, after \"profile\".

    The first stretch is taken as check takes the recording. The row after a
    fault begins a stretch that is taken with --joined. It is told the answers
    to SETUP of the stretches so far: its line \"setup\" names these devices. A
    reader that is blamed for Profile is left out from there on, unless the
    controller last gave it level 1: the line \"without\" names it. With
    --extended a stretch is also told the readers' levels and options. A
    reader is left out only where it is asked for money of 32 bits or for
    several currencies.

    Statuses: 0 no fault, 1 one fault or more, 2 no whole survey. If a row
    can't be read, the lines up to it stand, without totals.

    --joined, --extended, --setup, --without
                     As with check.
    --json           Writes one JSON object for each stretch, for each fault
                     and for the totals, each on one line.

";

/// `show`.
pub const SHOW: &str = "\
SHOW
        mdbcheck show [--extended [--joined [--setup 'DEVICE BYTES']..]]
            [--without DEVICE].. [--json] [FILE]

    Prints what was said: one line for each command, answer and
    acknowledgement, with its rows, its device and its bytes. It knows the
    rules of the link alone. If a row breaks one, the last line is \"fault ROW
    RULE BLAME\".

    --extended       Follows the extended profile, as with check.
    --joined, --setup
                     As with check, but with --extended alone: the feature
                     levels say how long a reader's message is. Without
                     --extended a recording of a running machine is shown in
                     the same way as any other.
    --without DEVICE
                     Leaves a device out, as with check.
    --json           Writes one JSON object on each line.

";

/// `explain`.
pub const EXPLAIN: &str = "\
EXPLAIN
        mdbcheck explain ACCOUNT SIDE BOUND [--extended]
            [--without DEVICE].. [FILE]

    Shows how a bound of check can have come about. It writes the fewest
    marks that lead to it, and after them the rows of the transcript. replay
    gives exactly that bound for them.

    ACCOUNT          coins-in, bills-in, paid-out, approved, sold, approved-2
                     or sold-2
    SIDE             device, controller or difference
    BOUND            least or greatest
    --extended       Follows the extended profile, as with check.
    --without DEVICE
                     Leaves a device out, as with check.

";

/// `replay`.
pub const REPLAY: &str = "\
REPLAY
        mdbcheck replay [--extended] [--without DEVICE].. [--json]
            [FILE]

    Prints the verdict on the one course of events that the marks before a
    transcript describe. In its report both ends of each range are the same.
    The marks stand in the order of their rows:

    35,L,-           The acknowledgement in row 35 was lost on its way.
    41,R,-           The answer that ends in row 41 reports a restart of its
                     device.
    89,C,-           In the answer that ends in row 89 a reader repeats its
                     approval, and gives no new one (--extended).

    Rows are counted from 1, without the marks.

    --extended       Follows the extended profile, as with check. Give it to
                     both explain and replay, or to neither.
    --without DEVICE
                     Leaves a device out, as with check. Give the same
                     devices to explain and replay.
    --json           Writes the report as JSON, as with check.

";

/// `manual`.
pub const MANUAL: &str = "\
MANUAL
        mdbcheck manual [COMMAND]

    Prints this manual, or the part on one command. It reads no input.

";

/// What is the same for all commands.
pub const REST: &str = "\
THE TRANSCRIPT
    Each word or break has one line, in the order in which they began, with
    commas and no header:

        28497,M,10B
        30000,S,100
        50000,B,100000

    The first field is the time in whole microseconds. The second is M for a
    word of the controller, S for a word of a device, or B if the controller
    held its line low. The third is the nine bits of the word as three
    hexadecimal digits, the mode bit first. For a break it is how long the
    line was low, in microseconds.

    mdbimport(1) makes such rows of what recorders write.

THE REPORT
    verdict, row, rule, blame
                     The verdict. With a no: the first row that can't follow
                     those before it, the rule that it breaks, and who sent
                     it: controller, changer, bill, cashless, cashless-2 or
                     other (a device, where none was asked). A no has no sums:
                     check the rows before it.
    rows             How many rows were read. An empty file is a yes with
                     \"rows 0\".
    decimals         Where the point goes in the sums of each device. A \"-\"
                     means that the device reported no values. Then its sums
                     are 0.
    coins-in, bills-in, paid-out, approved, sold, approved-2, sold-2
                     The least and the greatest that the sum may be: as the
                     device reported it, as the controller counted it, and the
                     device's less the controller's (difference). If a
                     difference doesn't contain 0, device and controller
                     counted differently, no matter what was lost on the way.
    silences         How often a device that was asked again and again didn't
                     answer for too long.
    untimely         With --extended: how many rows of each side came at other
                     times than the standard wants. They were read all the
                     same.
    unvalued         With --joined: how many reported amounts have no value,
                     and are in no sum.
    setup, without   Which devices have a --setup, and which devices are left
                     out.

RULES
    Order            The row doesn't start later than the row before it.
    Speaker          It comes from the side whose turn it isn't.
    Mode             A word of the controller has the wrong mode bit.
    Early, Late      A word comes too soon, or an answer too late.
    Spacing          A block has a hole.
    Break            A break is too short.
    Answer           What comes doesn't answer what was sent before.
    Same             What is repeated isn't what was sent first.
    Length, Sum, Message
                     A block has a wrong length, a wrong sum, or a message
                     that can't be read.
    Profile          The checker doesn't follow this row: nobody did wrong.
                     Try --extended.
    Changer, Bill, Cashless
                     The row is well formed, but no state of that device and
                     the controller allows it.

    In the first rows ask first: is the unit of time the microsecond? Seconds
    give Order, milliseconds Early, nanoseconds Spacing, and each blames
    somebody for nothing.

FILES
    share/doc/mdbcheck
                     The documents, below the folder of the installation, such
                     as /usr/local. Begin with README.md. In docs/bench are
                     recording.md (how to record), rules.md (each rule, and
                     where to look at the machine), report.md, sums.md and
                     others.
    share/doc/mdbcheck/mdbcheck.html
                     The page, which checks a recording in a browser.
    share/doc/mdbcheck/examples
                     Recordings to try it on.

EXIT STATUS
    0                Yes: all rows are possible. With show: no row breaks a
                     rule of the link. With manual: the text is written.
    1                No: a row breaks a rule. If the rule is Profile, nobody
                     did wrong. Nor did anybody if a line on standard error
                     says that the no isn't judged (check --joined), and
                     perhaps if it says that --extended goes on.
    2                There is no verdict. A line on standard error says why: a
                     row isn't a row, a mark stands where none may, the input
                     is too long, input or output failed, FILE can't be
                     opened, memory was refused, or the words aren't a
                     command.

    141              Nobody reads the output any more, as with | head.
                     Nothing is said.

    A signal isn't a verdict. A shell reports it as a status of 128 or more.

EXAMPLES
    Check a recording, and look at what was said before the row that is
    reported:

        mdbcheck check < sale-never-approved.csv
        mdbcheck show < sale-never-approved.csv | tail -n 12

    Check a machine that was running, with the changer's answer from an
    earlier recording:

        mdbcheck check --joined \\
            --setup '11-21 reply changer 02 00 01 05 02 00 07 01 02 05 19' \\
            < coin-in-mid-session.csv

    Explain how the controller can have counted 25 more than the changer
    reported:

        mdbcheck explain coins-in difference least \\
            < coin-told-twice.csv > why.csv
        mdbcheck replay < why.csv

DIAGNOSTICS
    row 107: cashless goes beyond feature level 1: add --extended
                     With the rule Profile, check says what it doesn't follow,
                     and which words to type.
    row 89: cashless answered 6.9 ms after the command; --extended counts ..
                     The row breaks a time that --extended doesn't keep, and
                     nothing else is wrong with it on the bus. With --extended
                     check goes on.
    row 7: BadValue: wanted TIME,LINE,VALUE, found \"1200,M,8\"
                     The row isn't a row. The word after its number says why:
                     FieldCount (not three fields, as with semicolons or
                     tabs), BadTime (a header, seconds, a decimal point),
                     BadLine (neither M, S nor B) or BadValue (8 for 008, or
                     0x108). Rows are counted from 1, without blank lines.
                     Marks count too, with replay.
    no such mark may stand at row 36
                     The row isn't an acknowledgement, and isn't the end of an
                     answer that can report a restart or, with --extended,
                     approves a sale. Or the marks aren't in rising order.

SEE ALSO
    mdbimport(1), sigrok-cli(1)

CAVEATS
    Record from before power-on, or use --joined. Alternative payout, file
    transfer, and of card readers revalue and money of 32 bits aren't
    followed: they end at the rule Profile. Without --extended so do reader
    levels 2 and 3, and recyclers. What a recycler pays out is in no sum. With
    --joined, reader levels are known only if the rows or --setup show them.
    Nobody can prove that the recorder heard every word.
";
