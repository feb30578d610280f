//! Readers that never end: how much is taken of them.

use super::asserts::{check_gives, same, same_at};
use super::records::count_rows;
use super::streams::{Pieces, Polling, WRONG_SUM};
use mdb_bus::{Blame, LinkFault, Rule};
use mdb_check::check_within;
use mdb_follow::{Offence, ROWS_MAX};
use mdb_records::{ReadFault, Records};
use mdb_show::show;
use mdb_text::Outcome;
use mdb_verdict::{BYTES_MAX, RunFault};
use std::alloc::Global;
use std::io::Read;
use std::process::Abort;

/// Texts without an end, by a front and what comes after it again and again: rows, a line without
/// an end, blank lines, a quoted field that isn't closed, and fields without an end.
static TEXTS: [(&[u8], &[u8]); 5] = [
    (b"", b"1,M,108\n"),
    (b"", b"1"),
    (b"1000,M,108\n", b"\n"),
    (b"\"", b"1,M,108\n"),
    (b"1,M,108", b","),
];

/// Ends the test where more bytes were taken of a reader than a limit and one after it.
fn takes_one_more(rt: &impl Abort, given: u64, limit: u64) {
    assert!(rt; given <= limit.saturating_add(1), "{limit} bytes: {given}");
}

/// Ends the test where a limit doesn't end a reader without an end by a fault. Answers how many
/// rows it has given.
fn rows_up_to<R: Read + Drop>(rt: &impl Abort, alloc: Global, reader: R, limit: u64) -> u64 {
    let (rows, end) = count_rows(&mut Records::new(alloc, reader, limit), limit);
    same_at(rt, limit, end, Err(ReadFault::Read));
    rows
}

/// Ends the test where a limit doesn't end a text without an end by a fault, or where more is taken
/// of it than one byte after the limit.
fn ends_a_text(rt: &impl Abort, alloc: Global, text: &(&[u8], &[u8]), limit: u64) {
    let (front, again) = *text;
    let mut reader = Pieces::endless(front, again);
    rows_up_to(rt, alloc, &mut reader, limit);
    takes_one_more(rt, reader.given, limit);
}

/// The same of polls without an end, of which about as many rows are given as the limit has.
fn ends_polls(rt: &impl Abort, alloc: Global, limit: u64) {
    let mut reader = Polling::new(alloc);
    let rows = rows_up_to(rt, alloc, &mut reader, limit);
    takes_one_more(rt, reader.given, limit);
    let is_about = limit / 15 <= rows && rows <= limit / 12;
    assert!(rt; is_about, "{limit} bytes: {rows} rows");
}

#[test]
fn a_limit_ends_an_endless_text(rt: HostRuntime) {
    for limit in [0, 1, 64, 9_999, 20_000] {
        for text in &TEXTS {
            ends_a_text(&rt, rt.alloc(), text, limit);
        }
        ends_polls(&rt, rt.alloc(), limit);
    }
}

/// The fault of a wrong sum, the offence, and the report on it.
const FAULT: LinkFault = LinkFault {
    rule: Rule::Sum,
    blame: Blame::Changer,
};

const OFFENCE: Offence = Offence {
    row: 7,
    rule: Rule::Sum,
    blame: Blame::Changer,
};

const REPORT: &[u8] = b"verdict no\nrow 7\nrule Sum\nblame changer\n";

/// What may come after it without an end.
static AGAIN: [&[u8]; 3] = [b"1,M,108\n", b"1", b"\n"];

/// A row that can't be ends the reading of a text without an end, and none of what comes after it
/// is taken.
#[test]
fn a_row_that_cannot_be_ends_an_endless_text(rt: HostRuntime) {
    for again in &AGAIN {
        let mut reader = Pieces::endless(WRONG_SUM, *again);
        let wanted = (Ok(Outcome::No(OFFENCE)), REPORT);
        check_gives(&rt, rt.alloc(), "endless", &mut reader, wanted);
        same(&rt, reader.given, WRONG_SUM.len() as u64);
    }
}

/// So does it for `show`, and little of what comes after it is taken.
#[test]
fn a_link_fault_ends_an_endless_text(rt: HostRuntime) {
    let mut reader = Pieces::endless(WRONG_SUM, b"1,M,108\n");
    let answer = show(rt.alloc(), &mut reader, &mut Vec::new(rt.alloc()));
    same(&rt, answer, Ok(Some(FAULT)));
    assert!(rt; reader.given < 1_000_000, "{}", reader.given);
}

/// Ends the test where limits on rows and bytes end a reader without an end otherwise than by a
/// fault, or something is written.
fn fails_within<R: Read + Drop>(
    rt: &impl Abort,
    alloc: Global,
    reader: R,
    (rows, bytes): (u64, u64),
    fault: RunFault,
) {
    let mut out = Vec::new(alloc);
    let most = bytes.min(BYTES_MAX);
    let answer = check_within(alloc, reader, &mut out, rows.min(ROWS_MAX), most);
    same_at(rt, (rows, bytes), (answer, out.len()), (Err(fault), 0));
}

/// Ends the test where more is taken of polls without an end than a byte after a limit.
fn bytes_end_polls(rt: &impl Abort, alloc: Global, limit: u64) {
    let mut polls = Polling::new(alloc);
    fails_within(rt, alloc, &mut polls, (100_000, limit), RunFault::Read);
    takes_one_more(rt, polls.given, limit);
}

/// The same of a row, and what comes after it again and again.
fn bytes_end_a_text(rt: &impl Abort, alloc: Global, again: &[u8], limit: u64) {
    let mut reader = Pieces::endless(b"1000,M,108\n", again);
    fails_within(rt, alloc, &mut reader, (100_000, limit), RunFault::Read);
    takes_one_more(rt, reader.given, limit);
}

/// Of a recording without an end no more than a byte after a limit on its bytes is taken.
#[test]
fn bytes_end_an_endless_recording(rt: HostRuntime) {
    for limit in [0, 1, 64, 9_999] {
        bytes_end_polls(&rt, rt.alloc(), limit);
        bytes_end_a_text(&rt, rt.alloc(), b"1", limit);
        bytes_end_a_text(&rt, rt.alloc(), b"\n", limit);
        bytes_end_a_text(&rt, rt.alloc(), b",", limit);
    }
}

/// Where a limit on its rows comes first, no more is taken than the record that is one too many.
#[test]
fn rows_end_an_endless_recording(rt: HostRuntime) {
    for rows in [0, 1, 128, 600] {
        let mut polls = Polling::new(rt.alloc());
        let limits = (rows, 1_000_000);
        fails_within(&rt, rt.alloc(), &mut polls, limits, RunFault::TooLong);
        let most = rows.saturating_add(3).saturating_mul(14);
        assert!(rt; polls.given <= most, "{rows} rows: {}", polls.given);
    }
}
