//! The rows of a recorded MDB/ICP payment bus, the words, times and breaks in them, and the blocks
//! that words make.
//!
//! A recorder writes one row for each word and each break on the bus: when it started, on which
//! line, and what it was. `28497,M,10B` is such a row. [`Event::read`] reads its three fields, and
//! [`Event::row_text`] writes it.
//!
//! - [`Time`] and [`Span`] are whole microseconds.
//! - [`Word`] has nine bits: eight data bits, and the mode bit as the ninth.
//! - [`Line`] is the sender's line: the controller's or that of all peripherals.
//! - [`whole_number`] reads other numbers, as that of a row.
//! - The constants are the time limits of MDB/ICP 4.3, with the tolerance of this profile.
//! - A [`Block`] has 2 to 36 bytes. The last is the sum of the others modulo 256. [`seal`] makes a
//!   block of the bytes that it carries, and [`unseal`] checks received bytes.
//! - An [`Answer`] is ACK, NAK or RET.
//!
//! This crate allocates nothing.
#![tactic(auto)]

mod answer;
mod block;
mod digits;
mod event;
pub mod laws;
mod limits;
mod row;
mod tables;
mod time;
mod word;

pub use answer::Answer;
pub use block::{Block, BlockFault, seal, sum_of, unseal};
pub use digits::whole_number;
pub use event::{Event, gap_of, is_at_least, is_at_most};
pub use limits::{
    ANSWER_GAP_MAX, BLOCK_GAP_MAX, BREAK_LENGTH_MIN, NEW_BLOCK_GAP_MIN, SETUP_GAP_MIN,
    SHORT_BREAK_MIN, WORD_GAP_MIN,
};
pub use row::RowFault;
pub use time::{Span, Time};
pub use word::{Line, Word};
