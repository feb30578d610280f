//! The program `mdbcheck`, as a function of its words.
//!
//! [`run`] does a [`Task`], and writes to standard error why there is no answer, or why nobody did
//! wrong by a no. [`run_words`] does what the words of a command line ask. Which task they name is
//! tested, and not proved.
#![tactic(auto)]

mod apart;
mod aside;
mod command_line;
mod complaint;
mod goal_words;
mod manual;
mod program;
mod refusal;
mod setup_value;
mod task;

pub use command_line::{file_named, refuse_file};
pub use program::{run, run_words};
pub use task::Task;
