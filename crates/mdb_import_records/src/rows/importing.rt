//! The import of rows.

use super::fault::ImportFault;
use super::record::{event_in, is_header, join, time_field};
use crate::frame::{Format, Rows, import};
use mdb_import_shared::{Imported, Options, RecordFault, Side, Times, expect_after, is_comment};
use mdb_records::Records;
use mdb_words::{Event, Time};
use std::alloc::Global;
use std::io::{Read, Write};

/// Imports the records that are still to come, and writes their rows as it reads.
///
/// Those of an export are what [`mdb_import_shared::records_of`] answers for its reader.
///
/// # Errors
///
/// `BadRecord` for the first record that is neither a row after the one before it nor, as the first
/// of all, a header: then the rows of all records before it were written. A record whose own time
/// is outside the part that is asked for is passed over in place of that. `Read` where the reader
/// failed and `Memory` where memory was refused: then those of some first records were. After these
/// rows comes a line that is no row, so that no checker takes them for a whole recording. `Write`
/// where the writer failed: then it took a front of what is written where it doesn't fail.
pub fn import_records<R: Read + Drop, W: Write>(
    alloc: Global,
    options: &Options,
    records: &mut Records<R>,
    writer: &mut W,
) -> Result<Imported, ImportFault> {
    let mut reading = RowsReader {
        options,
        comments: 0,
        has_begun: false,
        times: Times::new(options.unit),
        last: None,
        line: Vec::new(alloc),
    };
    let mut imported = import(options.part, records, &mut reading, writer)?;
    imported.midnights = reading.times.midnights();
    Ok(imported)
}

/// How far the records are read.
#[derive(Drop)]
struct RowsReader<'a> {
    options: &'a Options,
    // How many comments stand at the beginning.
    comments: u64,
    // Whether there was a record after them.
    has_begun: bool,
    // The times of all records.
    times: Times,
    // When the last row started that isn't after the part.
    last: Option<u64>,
    // The text of a record, whose memory the next one uses again.
    line: Vec<u8>,
}

impl RowsReader<'_> {
    /// The event of a record whose time this is, nothing where it is a header, or what is wrong
    /// with it. Only the first record after comments may be a header.
    fn event(
        &self,
        is_first: bool,
        time: Result<Time, RecordFault>,
    ) -> Result<Option<Event>, RecordFault> {
        let line = self.line.as_slice();
        match event_in(self.options, time, line) {
            Ok(event) => {
                expect_after(self.last, &event)?;
                Ok(Some(event))
            }
            Err(_) if is_first && is_header(self.options, line) => Ok(None),
            Err(fault) => Err(fault),
        }
    }

    /// Passes over the record of a number, if its own time is outside the part, else refuses it for
    /// this.
    fn pass(
        &self,
        number: u64,
        own: Option<u64>,
        fault: RecordFault,
        rows: &mut Rows,
    ) -> Result<(), ImportFault> {
        if own.is_some_and(|at| rows.part.side_of(at) != Side::Within) {
            rows.tally.passed = rows.tally.passed.saturating_add(1);
            return Ok(());
        }
        Err(ImportFault::BadRecord {
            number,
            own,
            last: self.last,
            fault,
        })
    }
}

impl<R: Read + Drop> Format<Records<R>> for RowsReader<'_> {
    type Fault = ImportFault;

    fn take<W: Write>(
        &mut self,
        number: u64,
        records: &Records<R>,
        rows: &mut Rows,
        writer: &mut W,
    ) -> Result<(), ImportFault> {
        let record = records.row();
        if !self.has_begun && is_comment(&record, false) {
            self.comments = number;
            return Ok(());
        }
        if join(&record, &mut self.line).is_err() {
            return Err(ImportFault::Memory);
        }
        let is_first = !self.has_begun;
        self.has_begun = true;
        let time = self.times.read(time_field(self.line.as_slice()));
        let own = match &time {
            Ok(at) => Some(at.value()),
            Err(_) => None,
        };
        match self.event(is_first, time) {
            Ok(Some(event)) => {
                let at = event.start().value();
                if rows.part.side_of(at) != Side::After {
                    self.last = Some(at);
                }
                rows.add(&event, writer)?;
                Ok(())
            }
            Ok(None) => {
                rows.tally.header = true;
                Ok(())
            }
            Err(fault) => self.pass(number, own, fault, rows),
        }
    }

    fn end(&self) -> Result<(), ImportFault> {
        if self.has_begun || self.comments == 0 {
            return Ok(());
        }
        Err(ImportFault::BadRecord {
            number: self.comments.saturating_add(1),
            own: None,
            last: None,
            fault: RecordFault::CommentsAlone,
        })
    }
}
