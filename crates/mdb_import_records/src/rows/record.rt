//! One record: its text, and what its fields say.

use crate::named::{can_be_titles, line_named};
use mdb_import_shared::{
    Options, RecordFault, bare, is_letter, is_time_form, parted, read_length, read_word,
    separator_of, three_of,
};
use mdb_records::Record;
use mdb_words::{Event, Time};
use std::alloc::AllocError;

/// Writes the fields of a record, with commas between them, into a line.
pub(crate) fn join(fields: &Record<'_>, line: &mut Vec<u8>) -> Result<(), AllocError> {
    line.clear();
    for place in 0..fields.len() {
        if place > 0 {
            line.push(b',')?;
        }
        line.extend_from_slice(fields.get(place).unwrap_or(&[]))?;
    }
    Ok(())
}

/// The time field of a line: its first part.
pub(crate) fn time_field(line: &[u8]) -> &[u8] {
    match parted(line, separator_of(line)) {
        Some((first, _)) => bare(first),
        None => bare(line),
    }
}

/// The event of a line whose time this is, or what is wrong with it.
pub(crate) fn event_in(
    options: &Options,
    time: Result<Time, RecordFault>,
    line: &[u8],
) -> Result<Event, RecordFault> {
    match three_of(line) {
        Some((_, name, value, false)) => event_of(options, time?, name, value),
        _ => Err(RecordFault::FieldCount),
    }
}

/// The event at a time of two fields, or what is wrong with them.
fn event_of(options: &Options, at: Time, name: &[u8], value: &[u8]) -> Result<Event, RecordFault> {
    if let Some(line) = line_named(&options.controller, &options.peripheral, name) {
        let word = read_word(options.decimal, value)?;
        return Ok(Event::Word { at, line, word });
    }
    if !is_break(name) {
        return Err(RecordFault::BadLine);
    }
    match read_length(options.unit, value) {
        Some(length) => Ok(Event::Break { at, length }),
        None => Err(RecordFault::BadLength),
    }
}

/// Whether a field says that the row is of a break.
fn is_break(field: &[u8]) -> bool {
    is_letter(field, b'B', b'b')
}

/// Whether a line is that of a header: it has three fields or more, none of them empty or with the
/// form of a time, no digit in the first and in the last, and of three the second names neither a
/// line nor a break.
pub(crate) fn is_header(options: &Options, line: &[u8]) -> bool {
    if let Some((_, name, _, false)) = three_of(line) {
        let named = line_named(&options.controller, &options.peripheral, name);
        if named.is_some() || is_break(name) {
            return false;
        }
    }
    can_be_titles(time_field(line)) && are_titles(line, separator_of(line))
}

/// Whether a line has three fields or more that can be titles, and the last has no digit.
fn are_titles(line: &[u8], separator: u8) -> bool {
    let mut rest = line;
    let mut others = 0;
    for place in 1..=line.len() {
        let Some((title, after)) = parted(rest, separator) else {
            break;
        };
        if !is_title(bare(title)) {
            return false;
        }
        rest = after;
        others = place;
    }
    others >= 2 && is_title(bare(rest)) && can_be_titles(bare(rest))
}

/// Whether a field can be a title.
fn is_title(field: &[u8]) -> bool {
    !field.is_empty() && !is_time_form(field)
}
