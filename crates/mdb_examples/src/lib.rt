//! How a program calls the library. Each function is the caller that the `CALLING.md` of a crate
//! shows, and its contract states what is promised.
#![tactic(auto)]

mod commands;
mod explaining;
mod live;
mod messages;
mod printing;
mod rows;
mod showing;
mod surveying;

pub use commands::next_command;
pub use explaining::explained;
pub use live::{Untaken, difference_of, take_word};
pub use messages::{Unread, command_in, sent_again};
pub use printing::printed;
pub use rows::tidied;
pub use showing::shown;
pub use surveying::log_row;
