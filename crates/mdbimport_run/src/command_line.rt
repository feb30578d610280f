//! The program's commands, and what their words may be.

use super::manual;
use command_words::{CommandRow, FILE, Program};

/// The program's version.
pub(crate) const VERSION: &str = "0.14.0";

/// The option that tells the unit of the times.
pub(crate) const UNIT: &str = "unit";

/// The option that names the controller's line.
pub(crate) const CONTROLLER: &str = "controller";

/// The option that names the peripherals' line.
pub(crate) const PERIPHERAL: &str = "peripheral";

/// The option that tells the first microsecond of a part.
pub(crate) const FROM: &str = "from";

/// The option that tells the last microsecond of a part.
pub(crate) const UNTIL: &str = "until";

/// The option that takes the lines of a trace the other way.
pub(crate) const SWAP: &str = "swap";

/// The option that tells how long each break is.
pub(crate) const BREAK: &str = "break";

/// The option that tells of which word of a message its time is.
pub(crate) const TIME_OF: &str = "time-of";

/// The option that takes levels upside down.
pub(crate) const INVERT: &str = "invert";

/// The option that takes the levels of one line upside down.
pub(crate) const INVERT_LINE: &str = "invert-line";

/// The option that takes words as decimal numbers.
pub(crate) const DECIMAL: &str = "decimal";

/// The option that leaves damaged words out.
pub(crate) const SKIP_DAMAGED: &str = "skip-damaged";

/// The word that names the command whose part of the manual is asked for.
pub(crate) const COMMAND: &str = "COMMAND";

/// The program's commands, and what their words may be.
const PROGRAM: Program<'static> = Program {
    name: "mdbimport",
    version: VERSION,
    commands: &[
        CommandRow {
            name: "rows",
            options: &[UNIT, CONTROLLER, PERIPHERAL, FROM, UNTIL],
            flags: &[DECIMAL],
            words: &[],
            further: &[FILE],
            usage: "rows [--unit s|ms|us|ns] [--controller N] [--peripheral N] [--decimal] \
[--from T] [--until T] [FILE]",
            manual: manual::ROWS,
        },
        CommandRow {
            name: "sigrok",
            options: &[FROM, UNTIL],
            flags: &[SWAP, SKIP_DAMAGED],
            words: &[],
            further: &[FILE],
            usage: "sigrok [--swap] [--skip-damaged] [--from T] [--until T] [FILE]",
            manual: manual::SIGROK,
        },
        CommandRow {
            name: "saleae",
            options: &[CONTROLLER, PERIPHERAL, BREAK, FROM, UNTIL],
            flags: &[SKIP_DAMAGED],
            words: &[],
            further: &[FILE],
            usage: "saleae [--controller N] [--peripheral N] [--break T] [--skip-damaged] \
[--from|until T] [FILE]",
            manual: manual::SALEAE,
        },
        CommandRow {
            name: "edges",
            options: &[UNIT, CONTROLLER, PERIPHERAL, INVERT_LINE, FROM, UNTIL],
            flags: &[INVERT, SKIP_DAMAGED],
            words: &[],
            further: &[FILE],
            usage: "edges [--unit U] [--controller|--peripheral N] [--invert[-line N]] \
[--skip-damaged] [--from|until T] [FILE]",
            manual: manual::EDGES,
        },
        CommandRow {
            name: "vcd",
            options: &[CONTROLLER, PERIPHERAL, INVERT_LINE, FROM, UNTIL],
            flags: &[INVERT, SKIP_DAMAGED],
            words: &[],
            further: &[FILE],
            usage: "vcd [--controller N] [--peripheral N] [--invert[-line N]] [--skip-damaged] \
[--from T] [--until T] [FILE]",
            manual: manual::VCD,
        },
        CommandRow {
            name: "messages",
            options: &[UNIT, CONTROLLER, PERIPHERAL, TIME_OF, FROM, UNTIL],
            flags: &[DECIMAL],
            words: &[],
            further: &[FILE],
            usage: "messages [--unit U] [--controller N] [--peripheral N] [--time-of last] \
[--decimal] [--from|until T] [FILE]",
            manual: manual::MESSAGES,
        },
        CommandRow {
            name: "manual",
            options: &[],
            flags: &[],
            words: &[],
            further: &[COMMAND],
            usage: "manual [COMMAND]",
            manual: manual::MANUAL,
        },
    ],
    summary: "rows (CSV), sigrok (trace), saleae (table), edges (CSV), vcd (dump), messages (log); \
all: mdbimport manual",
    about: manual::ABOUT,
    rest: manual::REST,
};

/// The same, by reference: what names the table itself is proved with a copy of it.
pub(crate) fn program() -> &'static Program<'static> {
    &PROGRAM
}
