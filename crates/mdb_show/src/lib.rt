//! What was sent on the bus, line by line.
//!
//! A line is an act with its rows, the words of a block that was cut, or the first row that breaks
//! a rule of the link. [`show`] and [`show_scoped`] write the lines as text, for people.
//! [`show_records`] writes them in either form.
#![tactic(auto)]

mod form;
mod json_text;
pub mod laws;
mod show_text;
mod showing;

pub use showing::{show, show_records, show_scoped};
