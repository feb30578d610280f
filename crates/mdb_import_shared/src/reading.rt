//! The records of a text.

use super::decoded::Decoded;
use mdb_records::Records;
use std::alloc::Global;
use std::io::Read;

/// The records of the text that a reader has left, however long it is.
pub fn records_of<R: Read + Drop>(alloc: Global, reader: R) -> Records<Decoded<R>> {
    // No export is too long.
    Records::new(alloc, Decoded::new(reader), u64::MAX)
}
