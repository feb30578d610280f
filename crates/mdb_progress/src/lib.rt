//! The standard streams of a program: output that never waits for input, and a line on a terminal
//! that says how far a long run is, rewritten once a second.
//!
//! [`Input`] is what it reads, and [`Live`] its output.
//!
//! A [`Progress`] is made for a run. What the run reads goes through a [`Counted`] reader, and what
//! it writes through [`Clearing`] writers. They read and write what the reader and the writers
//! within them do, and answer as these do. Beside that they keep the line. Nothing here knows of
//! MDB, and nothing asks for memory.
#![tactic(auto)]

mod clearing;
mod counted;
mod figures;
mod input;
mod live;
mod progress;

pub use clearing::Clearing;
pub use counted::Counted;
pub use input::Input;
pub use live::{Awaited, Beside, Live};
pub use progress::Progress;
