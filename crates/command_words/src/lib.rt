//! The command line of a program with commands: what its words name, by a table of the commands.
//!
//! A [`Program`] has a [`CommandRow`] for each command: its name, and what its words may be.
//! [`read`] returns what the words of a command line name, or the error of `clap` that refuses
//! them. [`line_on_refused`] returns the [`Line`] that says why. What the values mean is the
//! program's business, and so is the line on one that it refuses. [`write_manual`] writes the
//! program's manual.
#![tactic(auto)]

mod build;
mod line;
mod manual;
mod named;
mod refused;
mod table;
mod told;

pub use line::Line;
pub use manual::{manual_asked, write_manual};
pub use named::{FILE, Named, read, read_accepted};
pub use refused::{line_on_refused, line_on_unopened, row_of};
pub use table::{CommandRow, Program};
