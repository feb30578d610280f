//! What is wrong with the levels of a line, and other reasons for which there are no rows.

use mdb_import_shared::{LowAtRest, letter_of};
use mdb_words::Line;
use mdb_writing::WriteFailed;
use std::alloc::{AllocError, AllocFailed};
use thiserror::Error;

/// What is wrong with the levels of a line, where nothing damaged is left out.
#[derive(Clone, Copy, PartialEq, Eq, Debug, Error)]
pub enum LineFault {
    /// The line is low at the middle of a stop bit, and it isn't low for 95 milliseconds from the
    /// start bit on.
    #[error("wanted a high stop bit, or a break of 95 ms or more, and the stop bit is low")]
    Framing,
    /// A break on the line of the peripherals.
    #[error("wanted words alone on the line of the peripherals, and it is low for a break")]
    DeviceBreak,
    /// A break of more than 999,999,999 microseconds.
    #[error("wanted a break of at most 999999999 microseconds, and it is longer")]
    LongBreak,
    /// The line is low at the end of the export.
    #[error("wanted a line that is high at the end of the export, and it is low")]
    Cut,
}

/// What helps where the levels of a line are refused.
#[derive(Clone, Copy, PartialEq, Eq, Debug, Error)]
pub enum Advice {
    /// Leaving out what is damaged.
    #[error("--skip-damaged leaves out what is damaged")]
    SkipDamaged,
    /// Reading the line the other way up.
    #[error("{0}")]
    LowAtRest(LowAtRest),
}

/// Where the levels of a line are no words and breaks, and what is wrong.
#[derive(Clone, Copy, PartialEq, Eq, Debug, Error)]
#[error("{number} at {micros} on line {l}: {fault}; {advice}", l = letter_of(.line))]
pub struct LineRefusal {
    /// The number of the record, or of the line of a dump, that shows the fault, counted from 1. At
    /// the end of the export it is that of the one that would come next.
    pub number: u64,
    /// When the faulty word or break began, in whole microseconds.
    pub micros: u64,
    /// On which line of the bus.
    pub line: Line,
    /// What is wrong.
    pub fault: LineFault,
    /// What helps.
    pub advice: Advice,
}

/// Why a line takes no more.
#[derive(Clone, Copy)]
pub(crate) enum WaveFault {
    /// Its levels are no words and breaks.
    Levels {
        /// When the faulty word or break began, in whole microseconds.
        micros: u64,
        /// What is wrong.
        fault: LineFault,
    },
    /// Memory was refused.
    Memory,
}

impl<T: Drop> From<AllocFailed<T>> for WaveFault {
    fn from(_failed: AllocFailed<T>) -> WaveFault {
        WaveFault::Memory
    }
}

/// Why rows can't be written.
#[derive(Clone, Copy)]
pub(crate) enum Failure {
    /// The writer failed.
    Write,
    /// Memory was refused.
    Memory,
}

impl From<AllocError> for Failure {
    fn from(_refused: AllocError) -> Failure {
        Failure::Memory
    }
}

impl From<WriteFailed> for Failure {
    fn from(_failed: WriteFailed) -> Failure {
        Failure::Write
    }
}
