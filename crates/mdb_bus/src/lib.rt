//! The bus: which rows may follow which, and the acts that they form.
//!
//! Feed a [`Bus`] the rows of a recording one by one. If a row ends an [`Act`] of the controller or
//! of a peripheral, the bus returns that act. For the first impossible row it returns a
//! [`LinkFault`]: the [`Rule`] that the row breaks, and who is to blame.
//!
//! A [`Scope`] states where the recording begins, what is followed of it, which devices are left
//! out, and which feature levels were reported before. The rules are those of MDB/ICP 4.3,
//! bus format and timing, as this profile follows them. This crate allocates nothing.
#![tactic(auto)]

mod act;
mod begun;
mod bus;
mod counts;
mod effect;
mod effects;
mod fault;
mod features;
mod format;
mod gaps;
mod haste;
pub mod laws;
mod levels;
mod phase;
mod place;
mod scope;
mod spelled;
mod times;
mod untimely;

pub use act::Act;
pub use bus::Bus;
pub use fault::{Blame, LinkFault, Rule};
pub use features::{KnownFeatures, is_below_3};
pub use format::Format;
pub use levels::{Levels, ReaderLevels};
pub use scope::{Beginning, Profile, Scope};
pub use untimely::Untimely;
