//! The header of a table, and where its columns are.

use super::fault::{HeaderFault, RowFault};
use super::seconds::read_seconds;
use mdb_import_shared::bare;
use mdb_records::Record;
use mdb_words::Time;
use std::fmt;

/// What a column of a table contains.
#[derive(Clone, Copy, PartialEq, Eq, Debug)]
pub enum Column {
    /// When a word's start bit began.
    Time,
    /// The name of the analyser.
    Name,
    /// The type of what was seen.
    Kind,
    /// The word.
    Data,
    /// The error of the word.
    Error,
    /// Whether its parity was wrong.
    Parity,
    /// Whether its stop bit was missing.
    Framing,
    /// The mode bit of the word, if the analyser reports it in a column of its own.
    Address,
}

impl Column {
    /// The names of the column in a header, as a fault tells them.
    fn names(self) -> &'static str {
        match self {
            Column::Time => "start_time (or Time [s])",
            Column::Name => "name (or Analyzer Name)",
            Column::Kind => "type",
            Column::Data => "data (or Value)",
            Column::Error => "error (or Parity Error and Framing Error)",
            Column::Parity => "Parity Error",
            Column::Framing => "Framing Error",
            Column::Address => "address",
        }
    }
}

/// Its names.
impl fmt::Display for Column {
    fn fmt<W: fmt::Write>(&self, f: &mut fmt::Formatter<W>) -> fmt::Result {
        f.write_str(self.names())
    }
}

/// Where the columns of a table are, counted from 0.
#[derive(Clone, Copy, PartialEq, Eq, Debug)]
pub struct Columns {
    // How many fields a record has.
    pub(crate) width: usize,
    pub(crate) time: usize,
    pub(crate) name: usize,
    pub(crate) kind: Option<usize>,
    pub(crate) data: usize,
    pub(crate) error: Option<usize>,
    pub(crate) parity: Option<usize>,
    pub(crate) framing: Option<usize>,
    pub(crate) address: Option<usize>,
}

/// The columns that a header names, or what is wrong with it.
pub(crate) fn read_columns(header: &Record<'_>) -> Result<Columns, HeaderFault> {
    let error = place_of(header, Column::Error)?;
    let parity = place_of(header, Column::Parity)?;
    let framing = place_of(header, Column::Framing)?;
    if error.is_none() && (parity.is_none() || framing.is_none()) {
        return Err(HeaderFault::Missing {
            column: Column::Error,
        });
    }
    Ok(Columns {
        width: header.len(),
        time: wanted_place(header, Column::Time)?,
        name: wanted_place(header, Column::Name)?,
        kind: place_of(header, Column::Kind)?,
        data: wanted_place(header, Column::Data)?,
        error,
        parity,
        framing,
        address: place_of(header, Column::Address)?,
    })
}

/// The place of a column that has to be there.
fn wanted_place(header: &Record<'_>, column: Column) -> Result<usize, HeaderFault> {
    place_of(header, column)?.ok_or(HeaderFault::Missing { column })
}

/// The place of a column, if it is there.
fn place_of(header: &Record<'_>, column: Column) -> Result<Option<usize>, HeaderFault> {
    let mut found = None;
    for place in 0..header.len() {
        if column_of(cell(header, Some(place))) == Some(column) {
            if found.is_some() {
                return Err(HeaderFault::Twice { column });
            }
            found = Some(place);
        }
    }
    Ok(found)
}

/// The column that a field of a header names.
fn column_of(field: &[u8]) -> Option<Column> {
    match field {
        b"start_time" | b"Time [s]" => Some(Column::Time),
        b"name" | b"Analyzer Name" => Some(Column::Name),
        b"type" => Some(Column::Kind),
        b"data" | b"Value" => Some(Column::Data),
        b"error" => Some(Column::Error),
        b"Parity Error" => Some(Column::Parity),
        b"Framing Error" => Some(Column::Framing),
        b"address" => Some(Column::Address),
        _ => None,
    }
}

/// The field of a column without the blanks and quotation marks around it; nothing where there is
/// none.
pub(crate) fn cell<'a>(fields: &Record<'a>, place: Option<usize>) -> &'a [u8] {
    match place {
        Some(place) => bare(fields.get(place).unwrap_or(&[])),
        None => &[],
    }
}

/// The time of a record that has all its fields.
pub(crate) fn read_start(columns: &Columns, fields: &Record<'_>) -> Result<Time, RowFault> {
    if fields.len() != columns.width {
        return Err(RowFault::FieldCount);
    }
    read_seconds(cell(fields, Some(columns.time)))
}
