//! The form of what is written.

/// The form of what is written.
#[derive(Clone, Copy, PartialEq, Eq, Debug)]
pub enum Form {
    /// Text, for people.
    Text,
    /// JSON, for programs.
    Json,
}
