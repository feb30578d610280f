//! How many faults a survey has.

ghost use Rattle.std.specs.Prelude.{◌≡◌, ◌+◌, ◌∷◌, ℕ, List};
ghost use Rattle.mdb_follow.specs.declared.offence.Offence.{Offence};
ghost use Rattle.mdb_follow.specs.declared.follower.TheConstants.{ROWS_MAX};
ghost use Rattle.mdb_surveyor.specs.Counts.{AreFew, counts_of_faults};

use mdb_bus::{Blame, Rule};
use mdb_follow::Offence;

/// How many faults a survey has, by whom they are blamed on.
///
/// A fault with the rule [`Rule::Profile`] is nobody's: it counts in `all` and in `profile` alone.
#[derive(Clone, Copy, PartialEq, Eq, Debug)]
pub struct FaultCounts {
    /// All faults.
    pub all: u64,
    /// Those that are blamed on the controller.
    pub controller: u64,
    /// On the changer.
    pub changer: u64,
    /// On the validator.
    pub bill: u64,
    /// On the reader at 10H.
    pub cashless: u64,
    /// On the reader at 60H.
    pub cashless_2: u64,
    /// On some peripheral, where the controller had asked no device.
    pub other: u64,
    /// Those that this profile doesn't follow.
    pub profile: u64,
}

impl FaultCounts {
    /// No fault.
    pub const NONE: FaultCounts = FaultCounts {
        all: 0,
        controller: 0,
        changer: 0,
        bill: 0,
        cashless: 0,
        cashless_2: 0,
        other: 0,
        profile: 0,
    };

    /// Counts a fault more.
    pub(crate) fn add(&mut self, fault: &Offence)
        requires { AreFew ROWS_MAX self.old }
        ensures counts { (faults : List Offence) → self.old ≡ counts_of_faults faults
            → self.new ≡ counts_of_faults (fault.now ∷ faults) }
        ensures few { (most : ℕ) → AreFew most self.old → AreFew (most + 1) self.new }
    {
        self.all += 1;
        if fault.rule == Rule::Profile {
            self.profile += 1;
            return;
        }
        match fault.blame {
            Blame::Controller => self.controller += 1,
            Blame::Changer => self.changer += 1,
            Blame::Bill => self.bill += 1,
            Blame::Cashless => self.cashless += 1,
            Blame::Cashless2 => self.cashless_2 += 1,
            Blame::Other => self.other += 1,
        }
    }
}
