//! The program `mdbimport`, as a function of its words.
//!
//! [`run`] does the import that the words of a command line name, or prints the manual, writes its
//! remarks to standard error, and answers the exit status.
#![tactic(auto)]

mod command_line;
mod complaint;
mod front;
mod hint;
mod manual;
mod notes;
mod program;
mod refusal;
mod refused;
mod task;

pub use program::run;
pub use refused::refuse_file;
pub use task::file_named;
