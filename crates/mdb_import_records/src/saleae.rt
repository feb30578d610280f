//! The table of an asynchronous serial analyser.
//!
//! The first record is the header. Damaged words are left out where that is asked for, and are
//! reported.

mod columns;
mod fault;
mod importing;
mod seconds;
mod values;

pub use columns::{Column, Columns};
pub use fault::{HeaderFault, RowFault, SaleaeFault};
pub use importing::import_table;
