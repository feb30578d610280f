//! The result of a survey.

use crate::counts::FaultCounts;
use crate::totals::Totals;
use mdb_msgs::DeviceSet;

/// The result of the survey of a recording.
#[derive(Clone, Copy, PartialEq, Eq, Debug)]
pub struct Summary {
    /// The sums of the stretches' ranges, and of their counts.
    pub totals: Totals,
    /// The devices that are left out at the end.
    pub without: DeviceSet,
    /// How many faults there are.
    pub faults: FaultCounts,
}
