//! Imports by levels: [`import_edge_records`] reads a table of edges, and [`import_vcd`] a value
//! change dump (VCD, IEEE 1364), as logic analysers and simulators write them. Both write the rows
//! that `mdbcheck` reads.
//!
//! A table has a record for each change: its time, and the level of each channel from then on. A
//! dump has a header, which names variables and gives each a code, and times with the changes of
//! values since the one before. The words and breaks of both lines come from their levels, at 9600
//! baud and nine data bits. Nothing is guessed:
//!
//! - A line counts as low until it is high for the first time. That it is low until then is no row,
//!   and isn't reported.
//! - A pulse of at most half a bit is passed over and counted, and so is what is damaged, if that
//!   is asked for.
//! - Rows outside the part that is asked for are counted.
//! - One line alone that stands upside down is read so, and that is reported.
//! - Everything else that is no row is refused, and then no row is written.
//!
//! Times of rows are in microseconds.
#![tactic(auto)]

mod edges;
mod fault;
mod finish;
mod instant;
mod lines;
mod rest;
mod side;
mod vcd;
mod wave;

pub use edges::{EdgesFault, FormFault, OrderFault, import_edge_records};
pub use fault::{Advice, LineFault, LineRefusal};
pub use vcd::{DumpFault, LevelFault, VcdFault, import_vcd};
