//! The states of a reader by either profile.

use crate::approvals::state::{APPROVAL_STATES, ApprovalState};
use crate::reader::state::{READER_STATES, ReaderState};

/// How many states there are of a reader by either profile: first those of the base profile.
pub const STATES_BY_PROFILE: usize = READER_STATES + APPROVAL_STATES;

/// A state of a reader and the controller's dealings with it, by the one profile or the other.
#[derive(Clone, Copy, PartialEq, Eq, Debug)]
pub enum StateByProfile {
    /// By the base profile.
    Base(ReaderState),
    /// By the extended profile.
    Extended(ApprovalState),
}

impl Default for StateByProfile {
    /// The state at power-on by the base profile.
    fn default() -> StateByProfile {
        StateByProfile::Base(ReaderState::power_on())
    }
}
