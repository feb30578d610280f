//! Why a table of edges gives no rows.

use crate::fault::{Failure, LineRefusal};
use mdb_import_shared::letter_of;
use mdb_records::ReadFault;
use mdb_words::Line;
use std::alloc::AllocError;
use thiserror::Error;

/// Why a table of edges gives no rows: the first fault in the order of its records.
#[derive(Clone, Copy, PartialEq, Eq, Debug, Error)]
pub enum EdgesFault {
    /// A record that isn't what should stand there.
    #[error("record {number}: {fault}")]
    Form {
        /// Its number, counted from 1: the header is 1.
        number: u64,
        /// What is wrong with it.
        fault: FormFault,
    },
    /// A record that can't stand where it does.
    #[error("record {number} at {micros}: {fault}")]
    Order {
        /// Its number, counted from 1.
        number: u64,
        /// Its time in whole microseconds.
        micros: u64,
        /// What is wrong with it.
        fault: OrderFault,
    },
    /// A field that is no level.
    #[error("record {number} at {micros} on line {l}: \
         wanted a level, 0 or 1", l = letter_of(.line))]
    Level {
        /// The number of its record, counted from 1.
        number: u64,
        /// The time of that record in whole microseconds.
        micros: u64,
        /// Of which line.
        line: Line,
    },
    /// Levels of a line that are no words and breaks.
    #[error("record {0}")]
    Line(LineRefusal),
    /// The reader failed.
    #[error("the input can't be read")]
    Read,
    /// The writer failed.
    #[error("the output can't be written")]
    Write,
    /// Memory was refused.
    #[error("out of memory")]
    Memory,
}

impl From<ReadFault> for EdgesFault {
    fn from(fault: ReadFault) -> EdgesFault {
        match fault {
            ReadFault::Read => EdgesFault::Read,
            ReadFault::Memory => EdgesFault::Memory,
        }
    }
}

impl From<AllocError> for EdgesFault {
    fn from(_refused: AllocError) -> EdgesFault {
        EdgesFault::Memory
    }
}

impl From<Failure> for EdgesFault {
    fn from(failure: Failure) -> EdgesFault {
        match failure {
            Failure::Write => EdgesFault::Write,
            Failure::Memory => EdgesFault::Memory,
        }
    }
}

/// What is wrong with a record by itself.
#[derive(Clone, Copy, PartialEq, Eq, Debug, Error)]
pub enum FormFault {
    /// There is no header.
    #[error("wanted a header that names the columns")]
    NoHeader,
    /// The header hasn't one column of each line.
    #[error("wanted one column of each line: as --controller and --peripheral say, or M and S")]
    Columns,
    /// It hasn't as many fields as the header.
    #[error("wanted as many fields as the header has")]
    FieldCount,
    /// Its first field is no time.
    #[error("wanted a time: up to 21 digits, perhaps with decimals")]
    BadTime,
    /// The time has more than 18 digits of microseconds.
    #[error("wanted a time of at most 18 digits of microseconds")]
    LongTime,
}

/// What is wrong with the time of a record.
#[derive(Clone, Copy, PartialEq, Eq, Debug, Error)]
pub enum OrderFault {
    /// It is that of the record before it.
    #[error("wanted a time after that of the record before it, and it is the same")]
    SameTime,
    /// It is earlier than the record before it.
    #[error("wanted a time after that of the record before it, and it is earlier")]
    EarlierTime,
}
