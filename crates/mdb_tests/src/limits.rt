//! Limits that a caller sets on rows and bytes.

use super::asserts::{same, same_at};
use super::checking::{counted, ended};
use super::streams::{ROWS, WRONG_SUM};
use mdb_bus::{Blame, Rule};
use mdb_check::{check, check_within};
use mdb_follow::{Offence, ROWS_MAX};
use mdb_text::Outcome;
use mdb_verdict::{BYTES_MAX, RunFault};
use mdb_words::RowFault;
use std::alloc::Global;

/// `ROWS` has so many bytes.
const ROWS_BYTES: u64 = 93;

/// The answer to a text of at most so many rows and bytes, which `check` allows too.
fn within(alloc: Global, text: &[u8], rows: u64, bytes: u64) -> Result<Outcome, RunFault> {
    let mut out = Vec::new(alloc);
    let (rows, bytes) = (rows.min(ROWS_MAX), bytes.min(BYTES_MAX));
    check_within(alloc, text, &mut out, rows, bytes)
}

/// Texts, limits on their rows and bytes, and the number of rows of the yes within these.
static YES: [(&[u8], u64, u64, u64); 8] = [
    (ROWS, 9, BYTES_MAX, 8),
    (ROWS, 8, BYTES_MAX, 8),
    // Blank lines are no records.
    (b"", 0, BYTES_MAX, 0),
    (b"\n\r\n\n", 0, BYTES_MAX, 0),
    (ROWS, ROWS_MAX, BYTES_MAX, 8),
    (ROWS, ROWS_MAX, ROWS_BYTES + 1, 8),
    (ROWS, ROWS_MAX, ROWS_BYTES, 8),
    (b"", ROWS_MAX, 0, 0),
];

#[test]
fn as_many_rows_and_bytes_as_are_allowed(rt: HostRuntime) {
    for (text, rows, bytes, wanted) in &YES {
        let answer = within(rt.alloc(), *text, *rows, *bytes);
        same_at(&rt, (*rows, *bytes), counted(answer), Ok(Some(*wanted)));
        same(
            &rt,
            answer,
            check(rt.alloc(), *text, &mut Vec::new(rt.alloc())),
        );
    }
}

/// A text whose last record is no row.
const BAD_ROW: &[u8] = b"1000,M,108\n2200,M,008\n12,M,200\n";

/// A text whose first row can't be.
const IMPOSSIBLE: &[u8] = b"1,S,100\n2,S,100\n";

/// A text whose first record is no row.
const NO_ROW: &[u8] = b"x\n2,S,100\n";

/// The offence of a reply whose sum is wrong.
const WRONG_SUM_ENDS: Offence = Offence {
    row: 7,
    rule: Rule::Sum,
    blame: Blame::Changer,
};

/// The offence of such a first row.
const IMPOSSIBLE_ENDS: Offence = Offence {
    row: 1,
    rule: Rule::Speaker,
    blame: Blame::Other,
};

/// The faults of the other two.
const BAD_ROW_ENDS: RunFault = RunFault::BadRow {
    row: 3,
    fault: RowFault::BadValue,
};

const NO_ROW_ENDS: RunFault = RunFault::BadRow {
    row: 1,
    fault: RowFault::FieldCount,
};

/// Texts, limits on their rows and bytes, and what ends the reading within these.
static ENDS: [(&[u8], u64, u64, Result<Offence, RunFault>); 16] = [
    (ROWS, 7, BYTES_MAX, Err(RunFault::TooLong)),
    (ROWS, 1, BYTES_MAX, Err(RunFault::TooLong)),
    // What the record past the last allowed one holds is of no matter.
    (b"x", 0, BYTES_MAX, Err(RunFault::TooLong)),
    (b"1,S,100\n", 0, BYTES_MAX, Err(RunFault::TooLong)),
    (b"1,M,108\n", 0, BYTES_MAX, Err(RunFault::TooLong)),
    (b"12,M,200\n", 0, BYTES_MAX, Err(RunFault::TooLong)),
    (b"\n\n,\n", 0, BYTES_MAX, Err(RunFault::TooLong)),
    // A record that ends the reading does so where it is allowed, and is one too many where it
    // isn't.
    (WRONG_SUM, 7, BYTES_MAX, Ok(WRONG_SUM_ENDS)),
    (WRONG_SUM, 6, BYTES_MAX, Err(RunFault::TooLong)),
    (BAD_ROW, 3, BYTES_MAX, Err(BAD_ROW_ENDS)),
    (BAD_ROW, 2, BYTES_MAX, Err(RunFault::TooLong)),
    // The answer comes first where it stands before the limit.
    (IMPOSSIBLE, ROWS_MAX, 8, Ok(IMPOSSIBLE_ENDS)),
    (IMPOSSIBLE, ROWS_MAX, 7, Err(RunFault::Read)),
    (NO_ROW, ROWS_MAX, 2, Err(NO_ROW_ENDS)),
    (NO_ROW, 0, 2, Err(RunFault::TooLong)),
    (NO_ROW, 0, 0, Err(RunFault::Read)),
];

#[test]
fn what_comes_first_ends_the_reading(rt: HostRuntime) {
    for (text, rows, bytes, end) in &ENDS {
        let answer = within(rt.alloc(), *text, *rows, *bytes);
        same_at(&rt, (*text, *rows, *bytes), answer, ended(end));
    }
}
