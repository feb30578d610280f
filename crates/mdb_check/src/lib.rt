//! `check`: whether a recording is possible, the bounds of the money if it is, and whether a no is
//! judged.
//!
//! [`check`] reads a recording from a reader, writes the text of the answer to a writer, and
//! returns the answer, an [`Outcome`]. [`check_joined`] does so for a recording that begins while
//! the machine was running, and [`check_scoped`] for any scope. If there is no verdict,
//! [`RunFault`](mdb_verdict::RunFault) is the reason.
//!
//! [`check_records`] is what all of them and the program call. It also says whether perhaps nobody
//! did wrong by a no. The base profile follows sessions of level 1. A recording that begins while
//! the machine was running may not show the level at which a reader and the controller speak. Then
//! a row that is impossible at level 1 may be right at a higher one. And a row may be out of the
//! base profile's times alone, which the extended profile doesn't keep. [`Checked`] names the
//! reader whose level isn't known, if the no rests on that, and the row's time, if the no rests on
//! that.
//!
//! Money is in the smallest unit of its device, and times are in microseconds.
#![tactic(auto)]

mod beside;
mod checking;
mod heeding;
mod json;
mod reported;
mod spared;
mod unjudged;

pub use beside::{Beside, Spared};
pub use checking::{
    Checked, answer_of, check, check_joined, check_records, check_scoped, check_within,
};
pub use mdb_text::Outcome;
