//! Why a bound of a sum has its value.
//!
//! [`explain`] writes the fewest lost ACKs and restarts that lead to the bound, as marks, and the
//! rows after them. [`replay`] reads such marks and rows, and follows them without any choice. Both
//! are for recordings from power-on. Each returns an [`Outcome`](mdb_text::Outcome). Where there is
//! none, [`RunFault`](mdb_verdict::RunFault) or [`MarkedFault`] is the reason.
#![tactic(auto)]

mod entry;
mod explaining;
mod fault;
mod keeping;
pub mod laws;
mod lines;
mod marked;
mod replaying;

pub use explaining::{explain, explain_records, explain_scoped};
pub use fault::MarkedFault;
pub use marked::{replay, replay_outcome, replay_records, replay_scoped};
