//! Answers as JSON, for programs: [`json_of`] is one object on one line.
//!
//! - Verdicts, rules, devices, accounts and their sides have the same words as in the text.
//! - Money is in the smallest unit of its device. The decimal places of that unit stand next to it.
//! - No number is a float.
//! - The members of an object are in the order of their names.
#![tactic(auto)]

mod account;
mod device;
mod line;
mod outcome;
mod untimely;

pub use account::accounts_of;
pub use line::line_of;
pub use outcome::{VERSION, json_of, report_value, version_by};
pub use untimely::untimely_value;
