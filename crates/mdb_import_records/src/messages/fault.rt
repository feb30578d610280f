//! Why a log isn't imported.

use arrayvec::ArrayVec;
use mdb_import_shared::RecordFault;
use mdb_records::ReadFault;
use mdb_writing::{Excerpt, WriteFailed};
use std::fmt;
use thiserror::Error;

/// So many bytes of a line are more than an excerpt has.
const KEPT: usize = 64;

/// What is wrong with a line. If several things are, it is the first of these.
#[derive(Clone, Copy, PartialEq, Eq, Debug, Error)]
pub enum MessageFault {
    /// It has no time, or one that can't be. `LongTime` also if the message's last word has such a
    /// time, and nothing else is wrong.
    #[error("{0}")]
    Time(RecordFault),
    /// It doesn't say who spoke.
    #[error("wanted M or S before the bytes, or a name given by --controller or --peripheral")]
    NoSpeaker,
    /// It has no words, or something else among them.
    #[error("wanted bytes of two hexadecimal digits, or words of three, at most 1FF")]
    BadWords,
    /// The same, and they would be words in decimal digits.
    #[error("wanted bytes of two hexadecimal digits, or words of three, at most 1FF")]
    DecimalWords,
    /// It has no words in decimal digits, or something else among them.
    #[error("wanted words in decimal digits, at most 511")]
    BadDecimals,
    /// Its words have another number of digits than those before, or both numbers.
    #[error("wanted two digits in each word, or three in each, as before")]
    OtherDigits,
    /// It has digits that are bytes or words of three, and nothing says which.
    #[error("wanted blanks between the words: so many digits are bytes or words of three")]
    Unparted,
    /// It has more words than a block may have.
    #[error("wanted at most 36 words, which is the longest block")]
    TooMany,
    /// A mode bit is shown, and none was in the messages of its line before.
    #[error("wanted * in the messages of a line from the first on, or in none")]
    OtherMarks,
    /// It is too early for the message before it.
    #[error("wanted a message that begins after the one before it, or at most 50 ms too early")]
    TooEarly,
}

impl MessageFault {
    /// What may be the cause, as it stands after what was found; no text if none is known.
    fn hint(self) -> &'static str {
        match self {
            MessageFault::DecimalWords => "; are the words decimal (--decimal)?",
            _ => "",
        }
    }
}

/// The first bytes of a line that is refused. Their text is an excerpt of the line.
#[derive(PartialEq, Eq, Debug, Drop)]
pub struct Found {
    bytes: ArrayVec<u8, KEPT>,
}

impl Found {
    /// Those of a line.
    pub(crate) fn of(line: &[u8]) -> Found {
        let mut bytes = ArrayVec::new();
        let _ = bytes.try_extend_from_slice(&line[..line.len().min(KEPT)]);
        Found { bytes }
    }
}

impl fmt::Display for Found {
    fn fmt<W: fmt::Write>(&self, f: &mut fmt::Formatter<W>) -> fmt::Result {
        let mut excerpt = Excerpt::of_record();
        excerpt.add_field(self.bytes.as_slice());
        write!(f, "{excerpt}")
    }
}

/// Why there is no import, or only that of the lines before.
#[derive(PartialEq, Eq, Debug, Drop, Error)]
pub enum MessagesFault {
    /// A line is no message.
    #[error("line {number}: {fault}; found \"{found}\"{}", .fault.hint())]
    BadLine {
        /// The line's number, from 1: every line counts.
        number: u64,
        /// What is wrong with it.
        fault: MessageFault,
        /// What stands there.
        found: Found,
        /// Whether no message stands before it.
        is_first: bool,
    },
    /// The reader failed.
    #[error("the input can't be read")]
    Read,
    /// The writer failed.
    #[error("{0}")]
    Write(#[from] WriteFailed),
    /// Memory was refused.
    #[error("out of memory")]
    Memory,
}

impl From<ReadFault> for MessagesFault {
    fn from(fault: ReadFault) -> MessagesFault {
        match fault {
            ReadFault::Read => MessagesFault::Read,
            ReadFault::Memory => MessagesFault::Memory,
        }
    }
}
