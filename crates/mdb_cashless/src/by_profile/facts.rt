//! What is known of a reader by either profile.

use super::state::StateByProfile;
use crate::approvals::facts::ApprovalFacts;
use crate::approvals::state::ApprovalState;
use crate::reader::known::ReaderKnown;
use crate::reader::state::ReaderState;
use mdb_bus::Act;

/// What is known of a reader after the acts so far, by the one profile or the other: a running
/// value, which doesn't grow with them.
#[derive(Drop)]
pub enum KnownByProfile {
    /// By the base profile.
    Base(ReaderKnown),
    /// By the extended profile.
    Extended(ApprovalFacts),
}

impl KnownByProfile {
    ghost use Rattle.std.specs.Prelude.{◌≡◌, option_map};
    ghost use Rattle.mdb_cashless.specs.ByProfile.{strayed};
    ghost use Rattle.mdb_cashless.specs.ByProfileFacts.{config_of};
    ghost use Rattle.mdb_cashless.specs.ByProfileValues.{known_in};
    ghost use Rattle.mdb_cashless.specs.shared.ByProfileWays.{power_on_in};

    /// The decimal places of the reader's amounts: Z6 of its last config message, where one is
    /// known (MDB/ICP 4.3, cashless device).
    pub fn decimals(&self) -> Option<u8>
        ensures { result ≡ option_map (λ config. config.decimals) (config_of (known_in self.now)) }
    {
        match self {
            KnownByProfile::Base(known) => known.decimals(),
            KnownByProfile::Extended(facts) => facts.decimals(),
        }
    }

    /// The reader's response time, in seconds: Z7 of its last config message, where one is known
    /// (MDB/ICP 4.3, cashless device).
    pub fn response_time(&self) -> Option<u8>
        ensures { result ≡ option_map (λ config. config.response) (config_of (known_in self.now)) }
    {
        match self {
            KnownByProfile::Base(known) => known.response_time(),
            KnownByProfile::Extended(facts) => facts.response_time(),
        }
    }

    /// The state after an act of one that is no state by the profile.
    pub(crate) fn strayed(&self, act: &Act, before: StateByProfile) -> StateByProfile
        ensures { result ≡ strayed (power_on_in self.now) act.now before }
    {
        match (act, self) {
            (Act::Break(_), KnownByProfile::Base(_)) => {
                StateByProfile::Base(ReaderState::power_on())
            }
            (Act::Break(_), KnownByProfile::Extended(_)) => {
                StateByProfile::Extended(ApprovalState::power_on())
            }
            _ => before,
        }
    }
}
