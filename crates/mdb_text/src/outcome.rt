//! The answer to a recording.

use mdb_follow::{Offence, Report};

/// The answer to a recording.
#[derive(Clone, Copy, PartialEq, Eq, Debug)]
pub enum Outcome {
    /// Yes: the recording is possible, with this report.
    Yes(Report),
    /// No: it is impossible, with the first impossible row.
    No(Offence),
}
