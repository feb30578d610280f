//! The records of a text under a limit on its bytes.

use super::asserts::same;
use super::streams::Pieces;
use mdb_records::{ReadCause, ReadFault, Records};
use std::alloc::Global;
use std::io::{ErrorKind, Read};
use std::process::Abort;

/// How many records are still given, up to so many, and how the reading ends.
pub(crate) fn count_rows<R: Read + Drop>(
    records: &mut Records<R>,
    most: u64,
) -> (u64, Result<bool, ReadFault>) {
    for number in 0..most {
        let found = records.advance();
        if found != Ok(true) {
            return (number, found);
        }
    }
    (most, records.advance())
}

/// More records than a text of these tests has.
const ROWS: u64 = 100;

/// Adds the second field of a record, or a hyphen where it has none.
fn add_second(rt: &impl Abort, fields: &mut Vec<u8>, records: &Records<&[u8]>) {
    let field = records.row().get(1).unwrap_or(b"-");
    fields.extend_from_slice(field).expect(rt, "memory");
}

/// Adds the second fields of the records that are still given, and answers how the reading ends.
fn add_seconds(
    rt: &impl Abort,
    fields: &mut Vec<u8>,
    records: &mut Records<&[u8]>,
) -> Result<bool, ReadFault> {
    for _ in 0..ROWS {
        let end = records.advance();
        if end != Ok(true) {
            return end;
        }
        add_second(rt, fields, records);
    }
    records.advance()
}

/// Texts with limits on their bytes, the second fields of the records that are given under these,
/// and how the reading ends.
static SECOND_FIELDS: [(&[u8], u64, &[u8], Result<bool, ReadFault>); 3] = [
    (b"1,M\n\n2,\"a,b\",c\r\n3", 99, b"Ma,b-", Ok(false)),
    // Eight bytes, and the last row ends with the text.
    (b"1,M\n2,NO", 8, b"MNO", Ok(false)),
    (b"1,M\n2,NO", 7, b"M", Err(ReadFault::Read)),
];

/// Ends the test where a text under a limit has other second fields, or ends otherwise.
fn gives_seconds(
    rt: &impl Abort,
    records: &mut Records<&[u8]>,
    alloc: Global,
    wanted: (&[u8], Result<bool, ReadFault>),
) {
    let mut fields = Vec::new(alloc);
    let end = add_seconds(rt, &mut fields, records);
    same(rt, (fields.as_slice(), end), wanted);
}

#[test]
fn gives_each_row_and_no_end_of_a_longer_text(rt: HostRuntime) {
    for (text, limit, wanted, end) in &SECOND_FIELDS {
        let records = &mut Records::new(rt.alloc(), *text, *limit);
        gives_seconds(&rt, records, rt.alloc(), (*wanted, *end));
    }
}

/// How a reading ends, why, and whether a further call says the same.
fn ending(records: &mut Records<Pieces>) -> (Result<bool, ReadFault>, ReadCause, bool) {
    let (_, end) = count_rows(records, ROWS);
    let cause = records.cause();
    let again = records.advance();
    (end, cause, again == end && records.cause() == cause)
}

/// A text of eight bytes, which is read in pieces of three.
const EIGHT_BYTES: &[u8] = b"1,M\n2,NO";

/// What a failed read is told as.
static CAUSES: [(ErrorKind, ReadCause); 3] = [
    (ErrorKind::Other, ReadCause::Failed),
    (ErrorKind::InvalidData, ReadCause::Failed),
    (ErrorKind::WouldBlock, ReadCause::WouldBlock),
];

/// The limits that the text is longer than.
static TOO_LOW: [u64; 2] = [7, 0];

/// Ends the test where the reading of the text under a limit ends otherwise than by a fault, for
/// another reason, or another time otherwise.
fn fails_by(rt: &impl Abort, alloc: Global, reader: Pieces, limit: u64, cause: ReadCause) {
    let found = ending(&mut Records::new(alloc, reader, limit));
    same(rt, found, (Err(ReadFault::Read), cause, true));
}

/// The same of a text of which this read fails, for each of the reasons.
fn fails_at(rt: &impl Abort, alloc: Global, read: u64) {
    for (kind, cause) in &CAUSES {
        let reader = Pieces::failing(EIGHT_BYTES, 3, read, *kind);
        fails_by(rt, alloc, reader, 8, *cause);
    }
}

#[test]
fn tells_why_a_reading_ended(rt: HostRuntime) {
    // The fault comes with each read in turn, before the text's end and at it.
    for read in 1..5 {
        fails_at(&rt, rt.alloc(), read);
    }
    for limit in &TOO_LOW {
        let reader = Pieces::new(EIGHT_BYTES, 3);
        fails_by(&rt, rt.alloc(), reader, *limit, ReadCause::OverLimit);
    }
}

#[test]
fn a_text_of_as_many_bytes_as_its_limit_ends(rt: HostRuntime) {
    let reader = Pieces::new(EIGHT_BYTES, 3);
    let (_, end) = count_rows(&mut Records::new(rt.alloc(), reader, 8), ROWS);
    same(&rt, end, Ok(false));
}
