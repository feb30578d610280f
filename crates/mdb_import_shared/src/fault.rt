//! What is wrong with a record.

use super::times::TimeForm;
use thiserror::Error;

/// What is wrong with a record.
#[derive(Clone, Copy, PartialEq, Eq, Debug, Error)]
pub enum RecordFault {
    /// It is none: comments alone stand before the end.
    #[error("wanted rows below the comments, and there are none")]
    CommentsAlone,
    /// It hasn't three fields.
    #[error("wanted three fields: TIME, LINE and VALUE")]
    FieldCount,
    /// The first field is no time.
    #[error("wanted a time: up to 21 digits, perhaps with decimals, or HH:MM:SS, perhaps after \
         2026-11-30 or 30.11.2026")]
    BadTime,
    /// The time is written otherwise than the first one: in this form.
    #[error("wanted a time in the form of the first, and this is {0}")]
    OtherForm(TimeForm),
    /// The first field is a number, and no unit was told.
    #[error("the unit of the times isn't known: give --unit s, ms, us or ns")]
    NoUnit,
    /// The calendar lacks the date, or it is before 1970.
    #[error("wanted a date that exists, from 1970 on")]
    BadDate,
    /// The time has more than 18 digits of microseconds.
    #[error("wanted a time of at most 18 digits of microseconds")]
    LongTime,
    /// The second field names neither line and is no `B`.
    #[error("wanted M, S or B, or a name given by --controller or --peripheral")]
    BadLine,
    /// The third field is no word.
    #[error("wanted a word in hexadecimal digits, at most 1FF")]
    BadWord,
    /// The third field is no word, but would be one in decimal digits.
    #[error("wanted a word in hexadecimal digits, at most 1FF")]
    DecimalWord,
    /// The third field is no word in decimal digits.
    #[error("wanted a word in decimal digits, at most 511")]
    BadDecimal,
    /// The third field is no length of a break.
    #[error("wanted the length of the break, below 1000 seconds")]
    BadLength,
    /// It is at the same microsecond as the row before it.
    #[error("wanted a time after that of the row before it, and it is the same")]
    SameTime,
    /// It is earlier than the row before it.
    #[error("wanted a time after that of the row before it, and it is earlier")]
    EarlierTime,
}
