//! The import of a table.

use super::columns::{Columns, cell, read_columns, read_start};
use super::fault::{RowFault, SaleaeFault};
use super::seconds::read_seconds;
use super::values::{is_framed, is_word_kind, read_value};
use crate::frame::{Format, Rows, import};
use crate::named::line_named;
use mdb_import_shared::{Imported, Options, Place, expect_after, is_comment};
use mdb_records::{Record, Records};
use mdb_words::{Event, Line, Time, Word};
use std::io::{Read, Write};

/// Imports the records that are still to come, the header first, and writes their rows as it reads.
///
/// Those of a table are what [`mdb_import_shared::records_of`] answers for its reader.
///
/// # Errors
///
/// `NoHeader` where there is no record, and `BadHeader` where the first one lacks a column or has
/// one twice. `BadRow`, or `BadRecord` where its time isn't known, for the first record after it
/// that is no row after the one before it, and isn't left out: then the rows of all records before
/// it were written. `Read` where the reader failed and `Memory` where memory was refused: then
/// those of some first records were. After these rows, or where there are none, comes a line that
/// is no row, so that no checker takes them for a whole recording. `Write` where the writer failed:
/// then it took a front of what is written where it doesn't fail.
pub fn import_table<R: Read + Drop, W: Write>(
    options: &Options,
    records: &mut Records<R>,
    writer: &mut W,
) -> Result<Imported, SaleaeFault> {
    let mut reading = TableReader {
        options,
        comments: 0,
        columns: None,
        last: None,
    };
    import(options.part, records, &mut reading, writer)
}

/// How far a table is read.
#[derive(Drop)]
struct TableReader<'a> {
    options: &'a Options,
    // How many comments stand before the header.
    comments: u64,
    // Where the columns are, once the header was read.
    columns: Option<Columns>,
    // When the last row started.
    last: Option<u64>,
}

/// What a record stands for.
#[derive(Clone, Copy)]
enum Found {
    /// A row.
    Row(Event),
    /// A damaged word, which is left out.
    Damaged(Place),
}

impl TableReader<'_> {
    /// Takes the record of a number before the first row: a comment, or the header.
    fn take_header(&mut self, number: u64, record: &Record<'_>) -> Result<(), SaleaeFault> {
        let columns = read_columns(record);
        if is_comment(record, columns.is_ok()) {
            self.comments = number;
            return Ok(());
        }
        match columns {
            Ok(columns) => {
                self.columns = Some(columns);
                Ok(())
            }
            Err(fault) => Err(SaleaeFault::BadHeader { number, fault }),
        }
    }

    /// What the record of a number stands for.
    fn found_in(
        &self,
        columns: &Columns,
        number: u64,
        fields: &Record<'_>,
    ) -> Result<Found, SaleaeFault> {
        let at = match read_start(columns, fields) {
            Ok(at) => at,
            Err(fault) => return Err(SaleaeFault::BadRecord { number, fault }),
        };
        match self.found_at(columns, at, fields) {
            Ok(found) => Ok(found),
            Err(fault) => Err(SaleaeFault::BadRow {
                number,
                at: at.value(),
                fault,
            }),
        }
    }

    /// What a record that is at this time stands for.
    fn found_at(
        &self,
        columns: &Columns,
        at: Time,
        fields: &Record<'_>,
    ) -> Result<Found, RowFault> {
        if !is_word_kind(columns, fields) {
            return Err(RowFault::BadKind);
        }
        let name = cell(fields, Some(columns.name));
        let named = line_named(&self.options.controller, &self.options.peripheral, name);
        let Some(line) = named else {
            return Err(RowFault::BadName);
        };
        let is_framed = is_framed(columns, fields)?;
        let word = read_value(columns, fields)?;
        let event = if !is_framed {
            Event::Word { at, line, word }
        } else if is_break(line, word) {
            let length = self.options.break_length.ok_or(RowFault::NoLength)?;
            Event::Break { at, length }
        } else {
            return self.damaged(Place { at, line });
        };
        expect_after(self.last, &event)?;
        Ok(Found::Row(event))
    }

    /// A damaged word, if such words are left out.
    fn damaged(&self, place: Place) -> Result<Found, RowFault> {
        if self.options.skip_damaged {
            return Ok(Found::Damaged(place));
        }
        match place.line {
            Line::Controller => Err(RowFault::Framing),
            Line::Peripheral => Err(RowFault::PeripheralFraming),
        }
    }
}

/// Whether a word without a stop bit is a break.
fn is_break(line: Line, word: Word) -> bool {
    line == Line::Controller && word.byte() == 0 && !word.marked()
}

impl<R: Read + Drop> Format<Records<R>> for TableReader<'_> {
    type Fault = SaleaeFault;

    fn take<W: Write>(
        &mut self,
        number: u64,
        records: &Records<R>,
        rows: &mut Rows,
        writer: &mut W,
    ) -> Result<(), SaleaeFault> {
        let fields = records.row();
        let Some(columns) = self.columns else {
            return self.take_header(number, &fields);
        };
        match self.found_in(&columns, number, &fields)? {
            Found::Row(event) => {
                self.last = Some(event.start().value());
                rows.add(&event, writer)?;
            }
            Found::Damaged(place) => rows.tally.damaged.note(place),
        }
        Ok(())
    }

    fn end(&self) -> Result<(), SaleaeFault> {
        match self.columns {
            Some(_) => Ok(()),
            None => Err(SaleaeFault::NoHeader {
                number: self.comments.saturating_add(1),
            }),
        }
    }
}
