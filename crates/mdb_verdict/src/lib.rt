//! What an answer is: the verdict on a recording, its headline and its text, and how the rows of a
//! recording are read.
//!
//! An [`Outcome`] is a yes with its report or a no with its row. If there is no verdict,
//! [`RunFault`] is the reason. All commands read rows by [`read_rows`]. Money is in the smallest
//! unit of its device, and times are in microseconds.
#![tactic(auto)]

mod batch;
mod fault;
mod form;
pub mod laws;
mod printer;
mod reading;
mod row;
mod text;
mod verdict;

pub use batch::{Batch, Next};
pub use fault::RunFault;
pub use form::answer_in;
pub use mdb_text::Outcome;
pub use printer::Printer;
pub use reading::{TakeRows, read_rows};
pub use row::{FromRecord, field};
pub use text::{text_of, text_scoped};
pub use verdict::{BYTES_MAX, outcome_of, records_of};
