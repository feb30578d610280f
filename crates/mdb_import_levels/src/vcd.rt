//! A dump from a reader, and its rows to a writer.

mod dump;
mod fault;
mod head;
mod text;
mod values;

use crate::finish::finish;
pub use fault::{DumpFault, LevelFault, VcdFault};
use mdb_import_shared::{Imported, Options};
use std::alloc::Global;
use std::io::{Read, Write};
use text::lines_of;

/// Reads the value change dump that a reader has left, and writes the rows of its words and breaks,
/// each with a line feed: those of the part that is asked for. It answers what is told of all rows.
///
/// Nothing is written before all is read. Of the dump 64 KiB and a command of the header are kept,
/// and its rows twice.
///
/// # Errors
///
/// The first word of what is no dump of words and breaks, with the number of its line, and where
/// that is known with its time in microseconds and the line of the bus. Or that reading failed, or
/// that memory was refused. What was written then is a line that no checker takes. Or that writing
/// failed: the writer took a front of the rows, or of that line.
pub fn import_vcd<R: Read + Drop, W: Write>(
    alloc: Global,
    options: &Options,
    reader: R,
    writer: &mut W,
) -> Result<Imported, VcdFault> {
    let read = lines_of(alloc, options, reader);
    finish(alloc, options.part, read, writer)
}
