//! What the imports share, whatever form they read: the records of a text that may be in UTF-16,
//! numbers, times, names and words, the order of rows, and their writing. [`kind_of`] tells which
//! command reads a text.
//!
//! Times are in microseconds.
#![tactic(auto)]

mod clock;
mod comments;
mod dates;
mod decoded;
mod fault;
mod fields;
mod hex;
mod kinds;
mod merging;
mod names;
mod numbers;
mod options;
mod order;
mod part;
mod places;
mod reading;
mod refusal;
mod rest;
mod times;
mod told;
mod values;
mod writing;

pub use comments::is_comment;
pub use dates::time_length;
pub use decoded::Decoded;
pub use fault::RecordFault;
pub use fields::{bare, parted, separator_of, three_of};
pub use hex::{behind_prefix, read_hex};
pub use kinds::{FRONT, Kind, kind_of};
pub use merging::merged;
pub use names::{is_letter, is_named, letter_of};
pub use numbers::{Number, power, read_number};
pub use options::{Inverted, Options, TimeOf, Unit};
pub use order::expect_after;
pub use part::{Part, Side};
pub use places::{Place, Places};
pub use reading::records_of;
pub use refusal::write_refusal;
pub use rest::LowAtRest;
pub use times::{TimeForm, Times, is_time_form, read_end, read_length, time_of};
pub use told::Imported;
pub use values::{read_decimal, read_word};
pub use writing::{add_row, write_part};
