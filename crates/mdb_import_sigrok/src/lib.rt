//! Reads the trace that sigrok-cli writes of its decoder `uart`, as the rows that `mdbcheck` reads.
//!
//! sigrok-cli reads what a logic analyser recorded. Its trace has two records for each thing that
//! the decoder saw on a line: where that begins, and where it ends. [`import_sigrok`] writes the
//! rows of both lines, and answers where pulses were passed over, which are no start bits. Damaged
//! words are left out only where that is asked for. A trace with any other record is refused as a
//! whole, with a [`SigrokFault`]. Times are in microseconds.
#![tactic(auto)]

mod fault;
mod import;
mod line;
mod moment;
mod pair;
mod record;
mod trace;

pub use fault::{FaultLine, FormFault, OrderFault, SigrokFault};
pub use import::import_sigrok;
