//! A trace from a reader, as rows to a writer.

use super::fault::SigrokFault;
use super::trace::read_trace;
use mdb_import_shared::{Imported, Options, merged, write_part, write_refusal};
use mdb_words::Event;
use std::alloc::Global;
use std::io::{BufReader, Read, Write};

/// How many bytes of a trace are asked for at once.
const READ_SIZE: usize = 65_536;

/// Reads the trace that sigrok-cli wrote of its decoder `uart`, and writes its rows, each with a
/// line feed: those of the part that is asked for. It answers what is told of the whole
/// trace.
///
/// Nothing is written before all is read. Where the trace is refused, one line is written that is
/// no row, and so it is where reading failed or memory was refused. It takes the memory of the rows
/// twice, and of the trace that of two lines and 64 KiB: a trace of 170 MB and 500,000 words takes
/// 25 MB.
///
/// # Errors
///
/// The first record of what is no trace, with its number, and in a record that was read its time in
/// microseconds; or that reading or writing failed, or that memory was refused. Where writing
/// failed the writer took a front of the rows, or of the line that ends a refused trace.
pub fn import_sigrok<R: Read + Drop, W: Write>(
    alloc: Global,
    options: &Options,
    reader: R,
    writer: &mut W,
) -> Result<Imported, SigrokFault> {
    match rows_of_trace(alloc, options, reader) {
        Ok((rows, mut told)) => {
            write_part(options.part, rows.as_slice(), &mut told, writer)?;
            Ok(told)
        }
        Err(fault) => {
            write_refusal(writer)?;
            Err(fault)
        }
    }
}

/// The rows of both lines of a trace, and what is told of it before its first row.
fn rows_of_trace<R: Read + Drop>(
    alloc: Global,
    options: &Options,
    reader: R,
) -> Result<(Vec<Event>, Imported), SigrokFault> {
    let Ok(mut reader) = BufReader::with_capacity(alloc, READ_SIZE, reader) else {
        return Err(SigrokFault::Memory);
    };
    let both = read_trace(alloc, options, &mut reader)?;
    let (sent, answered) = (
        both.controller.rows.as_slice(),
        both.devices.rows.as_slice(),
    );
    match merged(alloc, sent, answered) {
        Ok(rows) => Ok((rows, both.told)),
        Err(_) => Err(SigrokFault::Memory),
    }
}
