//! A table of edges from a reader, and its rows to a writer.

mod fault;
mod header;
mod record;

use crate::finish::finish;
use crate::lines::Lines;
pub use fault::{EdgesFault, FormFault, OrderFault};
use header::{Columns, columns_of};
use mdb_import_shared::{Imported, Options, is_comment};
use mdb_records::Records;
use record::read_record;
use std::alloc::Global;
use std::io::{Read, Write};

/// Reads the table of edges whose records are still to come, and writes the rows of its words and
/// breaks, each with a line feed. [`mdb_import_shared::records_of`] answers those of a reader.
///
/// No row is written before all is read, so where the table is refused none is. Then one line is
/// written, which is no row, so that no checker takes it. The table's text isn't kept, but its rows
/// are, twice.
///
/// # Errors
///
/// The first record of what is no table of words and breaks, with its number, and where that is
/// known with its time in microseconds and the line: the records stand at that one then. Or that
/// reading or writing failed, or that memory was refused. Where writing failed, the writer took a
/// front of the rows, or of the line that ends a refused table.
pub fn import_edge_records<R: Read + Drop, W: Write>(
    alloc: Global,
    options: &Options,
    records: &mut Records<R>,
    writer: &mut W,
) -> Result<Imported, EdgesFault> {
    let read = lines_of(alloc, options, records);
    finish(alloc, options.part, read, writer)
}

/// Both lines of the bus, whose levels are all those of the records that are still to come.
fn lines_of<R: Read + Drop>(
    alloc: Global,
    options: &Options,
    records: &mut Records<R>,
) -> Result<Lines, EdgesFault> {
    let (columns, first) = read_header(options, records)?;
    let mut lines = Lines::new(alloc, options.inverted, options.skip_damaged);
    let mut earliest = 0;
    for number in first..u64::MAX {
        if !records.advance()? {
            lines.end(number)?;
            return match lines.refusal() {
                Some(refusal) => Err(EdgesFault::Line(refusal)),
                None => Ok(lines),
            };
        }
        let moment = match read_record(options, &columns, number, earliest, &records.row()) {
            Ok(moment) => moment,
            Err(fault) => return Err(lines.refusal().map_or(fault, EdgesFault::Line)),
        };
        earliest = moment.at.parts() + 1;
        let (controller, peripheral) = (Some(moment.controller), Some(moment.peripheral));
        lines.take(number, moment.at, controller, peripheral)?;
    }
    Err(EdgesFault::Read)
}

/// Reads the header, and answers its columns and the number of the record that comes next.
fn read_header<R: Read + Drop>(
    options: &Options,
    records: &mut Records<R>,
) -> Result<(Columns, u64), EdgesFault> {
    for number in 1..u64::MAX {
        if !records.advance()? {
            let fault = FormFault::NoHeader;
            return Err(EdgesFault::Form { number, fault });
        }
        let row = records.row();
        let columns = columns_of(options, &row);
        if is_comment(&row, columns.is_ok()) {
            continue;
        }
        return match columns {
            Ok(columns) => Ok((columns, number.saturating_add(1))),
            Err(fault) => Err(EdgesFault::Form { number, fault }),
        };
    }
    Err(EdgesFault::Read)
}
