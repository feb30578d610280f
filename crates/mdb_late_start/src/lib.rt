//! What is promised of the end of a recording that was cut at its front, and is checked as one that
//! begins while the machine was running.
//!
//! Nobody is blamed because the recording begins late, and the true sums lie within its bounds. By
//! the extended profile an end may instead have no act list, since it doesn't show feature levels:
//! then it ends at `Profile`. The laws are in [`laws`]. This crate has no code that runs.
#![tactic(auto)]

pub mod laws;
