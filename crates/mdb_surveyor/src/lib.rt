//! The stretches of a recording: what lies between the rows that cannot be.
//!
//! A follower stops at the first impossible row. A [`Surveyor`] goes on after it. Feed it the rows
//! one by one or in slices: at an impossible row it returns the [`Stretch`] that ends there, with
//! its report, and the fault. The row after the fault begins the next stretch. That is taken as a
//! recording that begins while the machine was running. It is told what the earlier stretches show
//! of how the devices are set up.
//!
//! [`write_stretch`] writes the lines of a stretch as text, [`write_fault`] the line of a fault,
//! and [`write_summary`] the last lines. Each writes to any writer.
//!
//! Sums are in the smallest unit of money of their device. This crate allocates nothing.
#![tactic(auto)]

mod counts;
mod features;
pub mod laws;
mod stretch;
mod summary;
mod surveyor;
mod text;
mod told;
mod totals;

pub use counts::FaultCounts;
pub use stretch::{Ended, Stretch};
pub use summary::Summary;
pub use surveyor::Surveyor;
pub use text::{write_fault, write_stretch, write_summary};
pub use told::{Told, setups_of};
pub use totals::Totals;
