//! Why an import of rows fails.

use mdb_import_shared::RecordFault;
use mdb_records::ReadFault;
use mdb_writing::WriteFailed;
use thiserror::Error;

/// Why there is no import, or only that of the rows before.
#[derive(Clone, Copy, PartialEq, Eq, Debug, Error)]
pub enum ImportFault {
    /// A record is neither a row nor, as the first, a header.
    #[error("record {number}: {fault}")]
    BadRecord {
        /// The record's number, from 1.
        number: u64,
        /// The microsecond that its first field tells, if that tells one.
        own: Option<u64>,
        /// The microsecond of the last row before it that isn't after the part, if there is one.
        last: Option<u64>,
        /// What is wrong with it.
        fault: RecordFault,
    },
    /// The reader failed.
    #[error("the input can't be read")]
    Read,
    /// The writer failed.
    #[error("{0}")]
    Write(#[from] WriteFailed),
    /// Memory was refused.
    #[error("out of memory")]
    Memory,
}

impl From<ReadFault> for ImportFault {
    fn from(fault: ReadFault) -> ImportFault {
        match fault {
            ReadFault::Read => ImportFault::Read,
            ReadFault::Memory => ImportFault::Memory,
        }
    }
}
