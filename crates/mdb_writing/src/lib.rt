//! Writing to a writer that may fail.
//!
//! [`write_text`] writes a text. A [`Page`] gathers short texts and writes them together. If the
//! writer fails, it has taken a front of what it was given, and nothing else. An [`Excerpt`] tells
//! a reader where a text is refused. Nothing here asks for memory.
#![tactic(auto)]

mod excerpt;
mod failed;
mod page;
mod text;

pub use excerpt::Excerpt;
pub use failed::WriteFailed;
pub use page::{PAGE, Page};
pub use text::write_text;
