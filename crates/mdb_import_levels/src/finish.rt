//! The end of an import.

use crate::fault::Failure;
use crate::lines::Lines;
use mdb_import_shared::{Imported, Part, write_refusal};
use std::alloc::Global;
use std::io::Write;

/// Ends an import whose lines were read: writes the rows of the part that is asked for, each with a
/// line feed. Of a refused export it writes one line, which is no row, so that no checker takes it.
///
/// # Errors
///
/// Why the export is refused; or that memory was refused, and that line was written. Or that the
/// writer failed: it took a front of the rows, or of that line.
pub(crate) fn finish<W: Write, F: Copy + From<Failure>>(
    alloc: Global,
    part: Part,
    read: Result<Lines, F>,
    writer: &mut W,
) -> Result<Imported, F> {
    let fault = match read {
        Ok(lines) => match lines.write(alloc, part, writer) {
            Ok(told) => return Ok(told),
            Err(Failure::Write) => return Err(F::from(Failure::Write)),
            Err(Failure::Memory) => F::from(Failure::Memory),
        },
        Err(fault) => fault,
    };
    match write_refusal(writer) {
        Ok(()) => Err(fault),
        Err(_) => Err(F::from(Failure::Write)),
    }
}
