//! What all imports by records do: they read record by record, write the rows of the part that is
//! asked for, count the others, and end what was written of a refused export.

use mdb_import_shared::{Imported, Part, add_row, write_refusal};
use mdb_records::{ReadFault, Records};
use mdb_words::Event;
use mdb_writing::{Page, WriteFailed};
use std::io::{Read, Write};

/// So many bytes have a whole record, where it is written as recorders write it.
const RECORD: u64 = 512;

/// What gives the records of an export, one after the other.
pub(crate) trait Source {
    /// Reads the next record, and says whether there is one.
    fn read_next(&mut self) -> Result<bool, ReadFault>;

    /// How many bytes were read ahead, so that they are there without a wait.
    fn bytes_ahead(&self) -> u64;
}

impl<R: Read + Drop> Source for Records<R> {
    fn read_next(&mut self) -> Result<bool, ReadFault> {
        self.advance()
    }

    fn bytes_ahead(&self) -> u64 {
        Records::bytes_ahead(self)
    }
}

/// A form of exports whose records come from `S`.
pub(crate) trait Format<S> {
    /// Why an export isn't imported.
    type Fault: From<ReadFault> + From<WriteFailed> + PartialEq + Drop;

    /// Takes the record that was read last, the one of this number, and adds its rows.
    fn take<W: Write>(
        &mut self,
        number: u64,
        source: &S,
        rows: &mut Rows,
        writer: &mut W,
    ) -> Result<(), Self::Fault>;

    /// Takes the end of the export.
    fn end(&self) -> Result<(), Self::Fault>;
}

/// The rows of an export, as far as they were found.
#[derive(Drop)]
pub(crate) struct Rows {
    /// The part that is asked for.
    pub(crate) part: Part,
    /// What is reported.
    pub(crate) tally: Imported,
    page: Page,
}

impl Rows {
    /// None.
    fn new(part: Part) -> Rows {
        Rows {
            part,
            tally: Imported::new(),
            page: Page::new(),
        }
    }

    /// Adds the row of an event: writes it if it is in the part, and counts it.
    pub(crate) fn add<W: Write>(
        &mut self,
        event: &Event,
        writer: &mut W,
    ) -> Result<(), WriteFailed> {
        if self.tally.count(self.part, event) {
            add_row(&mut self.page, event, writer)?;
        }
        Ok(())
    }
}

/// Imports what a source gives, and writes its rows as it reads: where less of it was read ahead
/// than a record may have, no row waits for the next one.
///
/// # Errors
///
/// Why a record is refused, or that reading failed: then the rows before were written, and after
/// them a line that is no row. Or that the writer failed.
pub(crate) fn import<S: Source, F: Format<S>, W: Write>(
    part: Part,
    source: &mut S,
    format: &mut F,
    writer: &mut W,
) -> Result<Imported, F::Fault> {
    let mut rows = Rows::new(part);
    if let Err(fault) = take_all(source, format, &mut rows, writer) {
        if fault != F::Fault::from(WriteFailed) {
            rows.page.write_out(writer)?;
            write_refusal(writer)?;
        }
        return Err(fault);
    }
    rows.page.write_out(writer)?;
    Ok(rows.tally)
}

/// Takes all records, and the end.
fn take_all<S: Source, F: Format<S>, W: Write>(
    source: &mut S,
    format: &mut F,
    rows: &mut Rows,
    writer: &mut W,
) -> Result<(), F::Fault> {
    for number in 1..u64::MAX {
        if !source.read_next()? {
            return format.end();
        }
        format.take(number, source, rows, writer)?;
        if source.bytes_ahead() < RECORD {
            rows.page.write_out(writer)?;
        }
    }
    Err(F::Fault::from(ReadFault::Read))
}
