//! The numbers that a call returns.

ghost use Rattle.std.specs.Prelude.{◌≡◌};
ghost use Rattle.mdb_c.specs.Codes as spec;

use mdb_text::Outcome;
use mdb_verdict::RunFault;
use mdb_words::RowFault;

/// All rows are possible.
pub const YES: u32 = 0;

/// A row is impossible.
pub const NO: u32 = 1;

/// A record is no row.
pub const BAD_ROW: u32 = 2;

/// There are more rows than a recording may have.
pub const TOO_LONG: u32 = 3;

/// The text has more bytes than it may have.
pub const UNREAD: u32 = 4;

/// Memory was refused.
pub const NO_MEMORY: u32 = 5;

/// The report has no room in the caller's buffer.
pub const NO_ROOM: u32 = 6;

/// A bit is set that is no option.
pub const BAD_OPTIONS: u32 = 7;

/// The code of a verdict.
pub(crate) fn verdict_code(outcome: &Outcome) -> u32
    ensures { result ≡ spec.verdict_code outcome.now }
{
    match outcome {
        Outcome::Yes(_) => YES,
        Outcome::No(_) => NO,
    }
}

/// How many rows a yes has, or which row can't be.
pub(crate) fn verdict_row(outcome: &Outcome) -> u64
    ensures { result ≡ spec.verdict_row outcome.now }
{
    match outcome {
        Outcome::Yes(report) => report.rows,
        Outcome::No(offence) => offence.row,
    }
}

/// The code of why there is no verdict. The verdict is written to memory alone, so a write that
/// fails is want of memory.
pub(crate) fn fault_code(fault: RunFault) -> u32
    ensures { result ≡ spec.fault_code fault }
{
    match fault {
        RunFault::BadRow { .. } => BAD_ROW,
        RunFault::TooLong => TOO_LONG,
        RunFault::Read => UNREAD,
        _ => NO_MEMORY,
    }
}

/// The row that is none, from 1; 0 where that isn't why there is no verdict.
pub(crate) fn fault_row(fault: RunFault) -> u64
    ensures { result ≡ spec.fault_row fault }
{
    match fault {
        RunFault::BadRow { row, .. } => row,
        _ => 0,
    }
}

/// Why a row is none, from 1 in the order of `RowFault`; 0 where that isn't why there is no
/// verdict.
pub(crate) fn fault_number(fault: RunFault) -> u64
    ensures { result ≡ spec.fault_number fault }
{
    match fault {
        RunFault::BadRow { fault, .. } => match fault {
            RowFault::FieldCount => 1,
            RowFault::BadTime => 2,
            RowFault::BadLine => 3,
            RowFault::BadValue => 4,
        },
        _ => 0,
    }
}
