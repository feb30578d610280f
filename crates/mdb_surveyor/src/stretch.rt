//! The stretches of a recording.

use mdb_bus::Scope;
use mdb_follow::{Offence, Report};

/// A stretch of a recording: rows that can be, one after the other (this profile).
#[derive(PartialEq, Eq, Debug, Drop)]
pub struct Stretch {
    /// Its number: one more than the faults before it.
    pub number: u64,
    /// The number of its first row in the recording, from 1.
    pub first: u64,
    /// The number of its last row. A stretch between two faults in neighbouring rows has no row:
    /// then this is one less than `first`.
    pub last: u64,
    /// How its rows are taken. (What a later `Profile` leaves out rests on earlier rows too, so a
    /// survey can't be taken up again from here.)
    pub scope: Scope,
    /// The report on its rows.
    pub report: Report,
}

/// A stretch that a fault has ended.
#[derive(PartialEq, Eq, Debug, Drop)]
pub struct Ended {
    /// The stretch.
    pub stretch: Stretch,
    /// The row after it, which cannot be: its number in the recording, the rule that it breaks, and
    /// who is to blame. It belongs to no stretch.
    pub fault: Offence,
}
