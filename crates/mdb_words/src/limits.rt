//! The time limits of this profile, in microseconds. They count from the start of a word, or from
//! the end of a break, to the start of the next row.
//!
//! They are the limits of MDB/ICP 4.3 (bus format and timing: inter-byte 1.0 ms, response 5.0 ms,
//! break 100 ms, setup 200 ms). Added are the 1146 microseconds that a word of 11 bits lasts at
//! 9600 baud, and a tolerance of 150 microseconds.

/// The least time from the start of a word to the start of the next word or break.
pub const WORD_GAP_MIN: u64 = 996;

/// The greatest time between the starts of two neighbouring words of one block.
pub const BLOCK_GAP_MAX: u64 = 2_296;

/// The greatest time from the last word of a block to the first word of the answer to it.
pub const ANSWER_GAP_MAX: u64 = 6_296;

/// The least time before the controller starts a new block while an answer could still come.
pub const NEW_BLOCK_GAP_MIN: u64 = 5_996;

/// The least length of a break.
pub const BREAK_LENGTH_MIN: u64 = 100_000;

/// The least length of a break that receivers may take for one (this profile): the standard's
/// 100 ms, sent a little short.
pub const SHORT_BREAK_MIN: u64 = 95_000;

/// The least time from the end of a break to the next word.
pub const SETUP_GAP_MIN: u64 = 200_000;
