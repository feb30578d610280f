//! The answer to a recording, and the text that `mdbcheck check` prints of it.
//!
//! An [`Outcome`] is a yes with its report, or a no with its offence. [`write_outcome`] writes the
//! text, and the other calls write parts of it. This crate allocates nothing.
#![tactic(auto)]

mod digits;
mod form;
mod known;
mod outcome;
mod text;

pub use digits::hex_digit;
pub use form::Form;
pub use known::known_devices;
pub use outcome::Outcome;
pub use text::{
    write_account, write_counts, write_devices, write_outcome, write_report_lines, write_untimely,
};
