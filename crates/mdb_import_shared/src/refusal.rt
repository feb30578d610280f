//! The end of what was written of a refused export.

use mdb_writing::{WriteFailed, write_text};
use std::io::Write;

/// A line that is no row, so that no checker takes what was written of a refused export.
const REFUSAL: &str = "mdbimport refused this export\n";

/// Ends what was written of a refused export with a line that is no row.
///
/// # Errors
///
/// The writer failed. It took a front of the line.
pub fn write_refusal<W: Write>(writer: &mut W) -> Result<(), WriteFailed> {
    write_text(writer, REFUSAL.as_bytes())
}
