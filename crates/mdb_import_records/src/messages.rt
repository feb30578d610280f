//! The text log of a sniffer, with one message a line.

mod fault;
mod head;
mod importing;
mod log;
mod words;

pub use fault::{Found, MessageFault, MessagesFault};
pub use importing::import_messages;
