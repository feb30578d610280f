//! Why there are no rows.

use mdb_writing::WriteFailed;
use thiserror::Error;

/// Why a trace gives no rows: the first fault in the order of its records.
#[derive(Clone, Copy, PartialEq, Eq, Debug, Error)]
pub enum SigrokFault {
    /// A line of another form than the one that should be there.
    #[error("record {number}: {fault}")]
    Form {
        /// The record that is there, or should be, counted from 1: the line above the first is 0.
        number: u64,
        /// What is wrong with it.
        fault: FormFault,
    },
    /// A record that can't come at this place.
    #[error("record {number} at {micros}{line}: {fault}")]
    Order {
        /// The record, counted from 1.
        number: u64,
        /// Its time in whole microseconds.
        micros: u64,
        /// The line that it is on.
        line: FaultLine,
        /// What is wrong with it.
        fault: OrderFault,
    },
    /// The reader failed.
    #[error("the input can't be read")]
    Read,
    /// The writer failed.
    #[error("{0}")]
    Write(#[from] WriteFailed),
    /// Memory was refused.
    #[error("out of memory")]
    Memory,
}

/// The line of the bus that has a fault.
#[derive(Clone, Copy, PartialEq, Eq, Debug, Error)]
pub enum FaultLine {
    /// That of the controller.
    #[error(" on M")]
    Controller,
    /// That of the devices.
    #[error(" on S")]
    Devices,
    /// It isn't known.
    #[error("")]
    Unknown,
}

/// What is wrong with a line of a trace.
#[derive(Clone, Copy, PartialEq, Eq, Debug, Error)]
pub enum FormFault {
    /// The first line is another one, or there is none.
    #[error("wanted a trace, whose first line is {{\"traceEvents\": [, and it is another one")]
    NoTrace,
    /// The line is no record as sigrok-cli writes it for the decoder `uart-1`.
    #[error("wanted a record as sigrok-cli writes it for its decoder uart-1")]
    NoRecord,
    /// A time of more than 18 digits, in whole microseconds.
    #[error("wanted a time of at most 18 digits of microseconds")]
    LongTime,
    /// After a record without a comma, something other than the end.
    #[error("wanted the last line of a trace, ]}}, after a record without a comma")]
    NoEnd,
    /// Something after the end.
    #[error("wanted nothing after the line ]}}, where the trace ends")]
    AfterEnd,
    /// The text ends before the trace.
    #[error("wanted more records, or the last line ]}}: the trace is cut")]
    Cut,
}

/// What is wrong with a record at its place.
#[derive(Clone, Copy, PartialEq, Eq, Debug, Error)]
pub enum OrderFault {
    /// The end of something, where the beginning of something should be.
    #[error("wanted the beginning of something (B), and it is an end (E)")]
    EndFirst,
    /// The beginning of something, and its end isn't the next record.
    #[error("wanted the end of what begins there as the next record")]
    NoSecond,
    /// Something that the decoder isn't asked for.
    #[error("wanted something of RX or TX that was asked for: see the annotations (-A)")]
    Kind,
    /// A word without a start bit right before it on its line.
    #[error("wanted a start bit right before the word")]
    NoStart,
    /// A word that isn't three hexadecimal digits.
    #[error("wanted a word of three hexadecimal digits: decode with nine data bits")]
    WordDigits,
    /// A word above 1FF.
    #[error("wanted a word of at most 1FF: decode with nine data bits")]
    LargeWord,
    /// A start bit, and another one before its word came.
    #[error("wanted the word of the start bit before the next start bit")]
    NoWord,
    /// A start, a pulse or a break that isn't after what comes before it on its line.
    #[error("wanted a time after that of the row before it on this line")]
    Early,
    /// A frame error of a word that is none of a break, or one in place of a word.
    #[error("wanted a stop bit after the word: a framing error that is no break; \
         --skip-damaged leaves out what is damaged")]
    NoBreak,
    /// A parity error, where no parity was asked for.
    #[error("wanted no parity: decode with parity=none")]
    Parity,
    /// A break without a word 000 and a frame error right before it on its line.
    #[error("wanted a word 000 and its framing error right before the break")]
    NoFrameError,
    /// A break on the line of the devices, where damaged words aren't left out.
    #[error("wanted no break on the line of the devices: are the lines exchanged (--swap)?; \
         --skip-damaged leaves out what is damaged")]
    DeviceBreak,
    /// A break that ends before it begins.
    #[error("wanted the end of the break after its beginning")]
    Backwards,
    /// A break of more than 999,999,999 microseconds, where damaged words aren't left out.
    #[error("wanted a break of at most 999999999 microseconds; \
         --skip-damaged leaves out what is damaged")]
    LongBreak,
}
