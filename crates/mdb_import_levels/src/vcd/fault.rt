//! Why a dump gives no rows.

use crate::fault::{Failure, LineRefusal};
use mdb_import_shared::letter_of;
use mdb_words::Line;
use std::alloc::{AllocError, AllocFailed};
use thiserror::Error;

/// Why a dump gives no rows: the first fault in the order of its text.
#[derive(Clone, Copy, PartialEq, Eq, Debug, Error)]
pub enum VcdFault {
    /// A word that can't stand where it does; or the end of the dump, where it can't end.
    #[error("line {number}: {fault}")]
    Form {
        /// The line of the text, counted from 1. At the end it is that of the line that would come
        /// next.
        number: u64,
        /// What is wrong.
        fault: DumpFault,
    },
    /// A time that is before the one before it.
    #[error("line {number} at {micros}: wanted a time that isn't before the time before it")]
    Early {
        /// The line of the text, counted from 1.
        number: u64,
        /// The time in whole microseconds.
        micros: u64,
    },
    /// A value that is no level of a line.
    #[error("line {number} at {micros} on line {l}: {fault}", l = letter_of(.line))]
    Level {
        /// The line of the text, counted from 1.
        number: u64,
        /// Its time in whole microseconds.
        micros: u64,
        /// On which line of the bus.
        line: Line,
        /// What is wrong.
        fault: LevelFault,
    },
    /// Levels of a line that are no words and breaks. The number is that of the line of the text
    /// after the changes that show it: the next time stands there.
    #[error("line {0}")]
    Line(LineRefusal),
    /// The reader failed.
    #[error("the input can't be read")]
    Read,
    /// The writer failed.
    #[error("the output can't be written")]
    Write,
    /// Memory was refused.
    #[error("out of memory")]
    Memory,
}

/// What is wrong with a word, or with the end of the text.
#[derive(Clone, Copy, PartialEq, Eq, Debug, Error)]
pub enum DumpFault {
    /// A word of the header that begins no command.
    #[error("wanted a command of the header, up to $enddefinitions $end")]
    NoCommand,
    /// The timescale isn't 1, 10 or 100 of a unit.
    #[error("wanted a timescale of 1, 10 or 100 s, ms, us, ns, ps or fs")]
    BadTimescale,
    /// Another timescale.
    #[error("wanted one timescale, and this is another one")]
    SecondTimescale,
    /// A scope that isn't a type and a name.
    #[error("wanted a type and a name of the scope")]
    BadScope,
    /// The end of a scope, and none is open.
    #[error("wanted an open scope before $upscope")]
    NoScope,
    /// A variable that isn't a type, a size, a code and a name.
    #[error("wanted a type, a size, a code and a name of the variable")]
    BadVariable,
    /// A variable of a line that hasn't one bit.
    #[error("wanted a variable of one bit for the line")]
    WideVariable,
    /// Two variables of a line, with different codes.
    #[error("wanted one variable of each line: several are called so; give a path")]
    SecondVariable,
    /// The header has no timescale.
    #[error("wanted a timescale in the header")]
    NoTimescale,
    /// The header hasn't a variable of each line.
    #[error("wanted one variable of each line: as --controller and --peripheral say, or M and S")]
    NoVariable,
    /// Both lines are one variable.
    #[error("wanted another variable for each line, and it is the same")]
    SameCode,
    /// A time that isn't digits.
    #[error("wanted a time: digits after #")]
    BadTime,
    /// The time has more than 18 digits of microseconds.
    #[error("wanted a time of at most 18 digits of microseconds")]
    LongTime,
    /// A word that is no time, no change and no command of the body.
    #[error("wanted a time, a change of a value, or a command of the dump")]
    NoEntry,
    /// The dump ends within its header, a comment or a change.
    #[error("wanted more of the dump: it is cut")]
    Cut,
}

/// What is wrong with a value of a line.
#[derive(Clone, Copy, PartialEq, Eq, Debug, Error)]
pub enum LevelFault {
    /// The level isn't known any more.
    #[error("wanted a level, 0 or 1, after the first one, and it is x or z")]
    Lost,
    /// The value is no level.
    #[error("wanted a level, 0 or 1, and the value is none")]
    NoLevel,
}

impl From<Failure> for VcdFault {
    fn from(failure: Failure) -> VcdFault {
        match failure {
            Failure::Write => VcdFault::Write,
            Failure::Memory => VcdFault::Memory,
        }
    }
}

impl From<AllocError> for VcdFault {
    fn from(_refused: AllocError) -> VcdFault {
        VcdFault::Memory
    }
}

/// Why the reading of a dump stops at a word.
#[derive(Clone, Copy)]
pub(super) enum Stop {
    /// The word can't stand where it does.
    Form(DumpFault),
    /// It is a time, in whole microseconds, before the one before it.
    Early(u64),
    /// It is a value that is no level of a line, at a time in whole microseconds.
    Level(Line, u64, LevelFault),
    /// Memory was refused.
    Memory,
}

impl From<DumpFault> for Stop {
    fn from(fault: DumpFault) -> Stop {
        Stop::Form(fault)
    }
}

impl From<AllocError> for Stop {
    fn from(_refused: AllocError) -> Stop {
        Stop::Memory
    }
}

impl<T: Drop> From<AllocFailed<T>> for Stop {
    fn from(_failed: AllocFailed<T>) -> Stop {
        Stop::Memory
    }
}

impl Stop {
    /// What is told of it on the line of this number.
    pub(super) fn at(self, number: u64) -> VcdFault {
        match self {
            Stop::Form(fault) => VcdFault::Form { number, fault },
            Stop::Early(micros) => VcdFault::Early { number, micros },
            Stop::Level(line, micros, fault) => VcdFault::Level {
                number,
                micros,
                line,
                fault,
            },
            Stop::Memory => VcdFault::Memory,
        }
    }
}
