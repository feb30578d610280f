//! What a header or record of a table of edges is likely to be refused for.

use mdb_import_levels::FormFault;
use mdb_import_shared::{Options, bare};
use mdb_records::Record;

/// How many fields the records of a table have at least: a time and two levels.
const FEWEST: usize = 3;

/// The likely cause of a misformed record, as it is reported after the fields; an empty text if no
/// cause is known. Semicolons or tabs part the fields, a column's name differs in the case of its
/// letters, or a decimal comma isn't in quotes.
pub(crate) fn hint_of(options: &Options, fault: FormFault, row: &Record<'_>) -> &'static str {
    if has(row, b';') {
        "; are its fields parted by semicolons, and not by commas?"
    } else if has(row, b'\t') {
        "; are its fields parted by tabs, and not by commas?"
    } else if fault == FormFault::Columns
        && (is_called(row, &options.controller) || is_called(row, &options.peripheral))
    {
        "; does a name differ by great and small letters alone?"
    } else if fault == FormFault::FieldCount
        && row.len() > FEWEST
        && has_digits_alone(row, 0)
        && has_digits_alone(row, 1)
    {
        "; is there a decimal comma that doesn't stand in quotes?"
    } else {
        ""
    }
}

/// Whether a byte stands in a field of a record.
fn has(row: &Record<'_>, byte: u8) -> bool {
    for place in 0..row.len() {
        if field_at(row, place).iter().any(|it| *it == byte) {
            return true;
        }
    }
    false
}

/// Whether a column after the first is called by a name but for the case of its letters, if one
/// was told and none is called by that itself.
fn is_called(row: &Record<'_>, name: &Option<String>) -> bool {
    let Some(name) = name else {
        return false;
    };
    let mut is_near = false;
    for place in 1..row.len() {
        let field = bare(field_at(row, place));
        if field == name.as_bytes() {
            return false;
        }
        is_near = is_near || field.eq_ignore_ascii_case(name.as_bytes());
    }
    is_near
}

/// Whether a field has digits, and nothing else.
fn has_digits_alone(row: &Record<'_>, place: usize) -> bool {
    let field = bare(field_at(row, place));
    !field.is_empty() && field.iter().all(|it| it.is_ascii_digit())
}

/// A field of a record; no bytes where it has so few.
fn field_at<'a>(row: &Record<'a>, place: usize) -> &'a [u8] {
    row.get(place).unwrap_or(&[])
}
