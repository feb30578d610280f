//! What a record says of its word.

use super::columns::{Columns, cell};
use super::fault::RowFault;
use mdb_import_shared::{behind_prefix, read_hex};
use mdb_records::Record;
use mdb_words::Word;

/// Whether a record is that of a word.
pub(crate) fn is_word_kind(columns: &Columns, fields: &Record<'_>) -> bool {
    columns.kind.is_none() || matches!(cell(fields, columns.kind), b"data")
}

/// Whether the stop bit of a record's word is missing, where nothing else is wrong with it.
pub(crate) fn is_framed(columns: &Columns, fields: &Record<'_>) -> Result<bool, RowFault> {
    if !cell(fields, columns.parity).is_empty() {
        return Err(RowFault::Parity);
    }
    match cell(fields, columns.error) {
        b"parity" => Err(RowFault::Parity),
        b"framing" => Ok(true),
        b"" => Ok(!cell(fields, columns.framing).is_empty()),
        _ => Err(RowFault::BadError),
    }
}

/// The word that a record tells.
pub(crate) fn read_value(columns: &Columns, fields: &Record<'_>) -> Result<Word, RowFault> {
    let (mark, most) = match (columns.address, cell(fields, columns.address)) {
        (None, _) => (0, 0x1FF),
        (_, b"true") => (0x100, 0xFF),
        (_, b"false" | b"") => (0, 0xFF),
        _ => return Err(RowFault::BadAddress),
    };
    let digits = behind_prefix(cell(fields, Some(columns.data)));
    let number = digits.and_then(read_hex).ok_or(RowFault::NoHex)?;
    if number > most {
        return Err(RowFault::LongData);
    }
    Word::new(number | mark).ok_or(RowFault::LongData)
}
