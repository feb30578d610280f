//! Marks: choices about acts that the recording leaves open. A [`Mark`] on a row states that its
//! ACK was lost, or that its reply reports a restart.
//!
//! With all its marks, a recording from power-on has only one run. [`explain_reached`] finds the
//! fewest marks that lead to a bound of a report. A [`Replay`] follows the run that has the marks.
#![tactic(auto)]

mod explain;
pub mod laws;
mod mark;
mod replay;
mod track;
mod tracks;

pub use explain::explain_reached;
pub use mark::Mark;
pub use replay::{Replay, ReplayFault};
