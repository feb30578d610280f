//! Why a table isn't imported.

use super::columns::Column;
use mdb_import_shared::RecordFault;
use mdb_records::ReadFault;
use mdb_writing::WriteFailed;
use thiserror::Error;

/// What is told of a table without a header.
const EMPTY: &str = "wanted a header with the names of the columns, and the table is empty";

/// What is wrong with a header.
#[derive(Clone, Copy, PartialEq, Eq, Debug, Error)]
pub enum HeaderFault {
    /// A column that must be there is missing.
    #[error("wanted a column {column}")]
    Missing {
        /// The column.
        column: Column,
    },
    /// A column is there twice.
    #[error("wanted one column {column}, and there are more")]
    Twice {
        /// The column.
        column: Column,
    },
}

/// What is wrong with a record.
#[derive(Clone, Copy, PartialEq, Eq, Debug, Error)]
pub enum RowFault {
    /// It has more fields than the header, or fewer.
    #[error("wanted as many fields as the header has")]
    FieldCount,
    /// Its time is before the time zero.
    #[error("wanted no negative time: set the time zero to the start of the capture")]
    NegativeTime,
    /// Its time is no number.
    #[error("wanted a time in seconds: up to 21 digits, perhaps with decimals after a point")]
    BadTime,
    /// Its time has more than 18 digits of microseconds.
    #[error("wanted a time of at most 18 digits of microseconds")]
    LongTime,
    /// It is of another kind than `data`.
    #[error("wanted the type data, which a word has")]
    BadKind,
    /// Its analyser is none of the two.
    #[error("wanted M or S as the analyser, or a name given by --controller or --peripheral")]
    BadName,
    /// A parity is wrong, which nine bits don't have.
    #[error("wanted no parity error: set the analyser to nine bits with no parity bit")]
    Parity,
    /// Its error is unknown.
    #[error("wanted no error, or the error framing")]
    BadError,
    /// Its column for the mode bit shows neither that the bit is set nor that it isn't.
    #[error("wanted true or false as the address, or nothing")]
    BadAddress,
    /// Its data aren't hexadecimal digits.
    #[error("wanted data as 0x and 1 to 4 hexadecimal digits: export them as hexadecimal")]
    NoHex,
    /// Its data have more than nine bits, or more than eight where the mode bit stands elsewhere.
    #[error("wanted data of at most 0x1FF, and of at most 0xFF beside a column address")]
    LongData,
    /// A peripheral's word has no stop bit.
    #[error("wanted a stop bit: only the controller sends a break; \
         --skip-damaged leaves out what is damaged")]
    PeripheralFraming,
    /// A word has no stop bit, and isn't 0.
    #[error("wanted a stop bit: a word that isn't 0 is no break; \
         --skip-damaged leaves out what is damaged")]
    Framing,
    /// A break, and its length wasn't given.
    #[error("the table doesn't tell how long the break is: give --break MICROSECONDS")]
    NoLength,
    /// It is at the same microsecond as the row before it.
    #[error("wanted a time after that of the row before it, and it is the same")]
    SameTime,
    /// It is earlier than the row before it.
    #[error("wanted a later time than the row before it: sort the table by the start time")]
    EarlierTime,
}

impl From<RecordFault> for RowFault {
    fn from(fault: RecordFault) -> RowFault {
        match fault {
            RecordFault::LongTime => RowFault::LongTime,
            RecordFault::SameTime => RowFault::SameTime,
            RecordFault::EarlierTime => RowFault::EarlierTime,
            _ => RowFault::BadTime,
        }
    }
}

/// Why there is no import, or only that of the rows before.
#[derive(Clone, Copy, PartialEq, Eq, Debug, Error)]
pub enum SaleaeFault {
    /// There is no record, or none after comments.
    #[error("record {number}: {empty}", empty = EMPTY)]
    NoHeader {
        /// The number of the record that would come next.
        number: u64,
    },
    /// The first record that is no comment isn't a header of the expected form.
    #[error("record {number}: {fault}")]
    BadHeader {
        /// The record's number, from 1.
        number: u64,
        /// What is wrong with it.
        fault: HeaderFault,
    },
    /// A record is no row, and its time isn't known.
    #[error("record {number}: {fault}")]
    BadRecord {
        /// The record's number, from 1; the header is the first.
        number: u64,
        /// What is wrong with it.
        fault: RowFault,
    },
    /// A record with a time is no row, or can't come at this place.
    #[error("record {number} at {at}: {fault}")]
    BadRow {
        /// The record's number, from 1; the header is the first.
        number: u64,
        /// Its time in microseconds.
        at: u64,
        /// What is wrong with it.
        fault: RowFault,
    },
    /// The reader failed.
    #[error("the input can't be read")]
    Read,
    /// The writer failed.
    #[error("{0}")]
    Write(#[from] WriteFailed),
    /// Memory was refused.
    #[error("out of memory")]
    Memory,
}

impl From<ReadFault> for SaleaeFault {
    fn from(fault: ReadFault) -> SaleaeFault {
        match fault {
            ReadFault::Read => SaleaeFault::Read,
            ReadFault::Memory => SaleaeFault::Memory,
        }
    }
}
