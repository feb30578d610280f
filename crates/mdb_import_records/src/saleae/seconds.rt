//! The times of a table.

use super::fault::RowFault;
use mdb_import_shared::{Unit, parted, read_number, time_of};
use mdb_words::Time;

/// So many decimals of a time are read. No later one moves the nearest microsecond.
const DECIMALS: usize = 15;

/// The nearest microsecond to the seconds that a field writes.
pub(crate) fn read_seconds(field: &[u8]) -> Result<Time, RowFault> {
    if matches!(field, [b'-', ..]) {
        return Err(RowFault::NegativeTime);
    }
    if field.contains(&b',') {
        return Err(RowFault::BadTime);
    }
    let (short, rest) = shortened(field);
    if !are_digits(rest) {
        return Err(RowFault::BadTime);
    }
    let number = read_number(short).ok_or(RowFault::BadTime)?;
    Ok(time_of(number, Unit::Seconds)?)
}

/// A number up to its fifteenth decimal, and its decimals after that.
fn shortened(field: &[u8]) -> (&[u8], &[u8]) {
    match parted(field, b'.') {
        Some((before, _)) => field.split_at(field.len().min(before.len() + 1 + DECIMALS)),
        None => (field, b""),
    }
}

/// Whether a text has digits alone.
fn are_digits(text: &[u8]) -> bool {
    text.iter().all(u8::is_ascii_digit)
}
