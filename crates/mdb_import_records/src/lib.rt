//! Imports by records: what a recorder or an analyser exports row by row.
//!
//! - [`import_records`]: our own rows, in the forms that people have them in
//! - [`import_table`]: the table of an asynchronous serial analyser, with nine bits a word
//! - [`import_messages`]: the text log of a sniffer, with one message a line
//!
//! Each record of an export is a row, a header, or refused. Nothing is guessed. What is passed over
//! is counted. The rows before a refused record are written, and after them a line that is no row.
//! Memory doesn't grow with the export, unless one record is long. Times are in microseconds.
#![tactic(auto)]

mod frame;
mod messages;
mod named;
mod rows;
mod saleae;

pub use messages::{Found, MessageFault, MessagesFault, import_messages};
pub use rows::{ImportFault, import_records};
pub use saleae::{Column, Columns, HeaderFault, RowFault, SaleaeFault, import_table};
