//! The survey of a recording: every row that cannot be, and the report on each stretch between.
//!
//! [`survey_records`] writes the lines of each stretch and each fault while it reads, as text or as
//! JSON, one object a line. It returns the [`Summary`]. To get each
//! [`Stretch`](mdb_surveyor::Stretch) and each fault as it ends, feed the rows to a
//! [`Surveyor`](mdb_surveyor::Surveyor).
//!
//! Money is in the smallest unit of its device, and times are in microseconds.
#![tactic(auto)]

mod form;
mod json_text;
pub mod laws;
mod surveying;

pub use mdb_surveyor::Summary;
pub use surveying::survey_records;
