//! The scope of a check.

ghost use Rattle.std.specs.Prelude.{◌≡◌, ◌<◌, ◌∷◌, [], length};
ghost use Rattle.mdb_bus.specs.Scopes.{from_power_on, leaves_features, leaving_out, levels_before, needed_by, needed_in, profile_of, told};
ghost use Rattle.mdb_bus.specs.JoinedScopes.{joined, joined_by};

use super::levels::Levels;
use mdb_msgs::{DeviceSet, Need, Setups, begins_options, need_of, need_without};

/// What is followed of the protocol.
#[derive(Clone, Copy, PartialEq, Eq, Debug)]
pub enum Profile {
    /// Changer, validator, and card readers of feature level 1. If a reader reports a feature level
    /// of 2 or more after the controller reported one to it, the reading ends there. ENABLE OPTIONS
    /// (17 04 and 67 04) is foreign traffic.
    Base,
    /// The same without the rule on levels: also card readers of feature levels 2 and 3, and bills
    /// that go to a recycler.
    Extended,
}

impl Profile {
    /// Whether ENABLE OPTIONS is foreign.
    fn leaves_features(self) -> bool
        ensures { result ≡ leaves_features self }
    {
        matches!(self, Profile::Base)
    }

    /// What a block needs that begins with these bytes, whoever it is to.
    #[inline(always)]
    pub(crate) fn need_of(self, prefix: &[u8]) -> Need
        requires { 0 < length prefix.now }
        ensures { result ≡ needed_by self prefix.now }
    {
        if self.leaves_features() && begins_options(prefix) {
            Need::Foreign
        } else {
            need_of(prefix)
        }
    }
}

/// Where a recording begins, and what is followed of it (this profile).
#[derive(PartialEq, Eq, Debug, Drop)]
pub enum Beginning {
    /// At power-on or at a break: nothing was sent before, and each device is in its power-on
    /// state.
    PowerOn(Profile),
    /// While the machine was running. Nothing is known of what was sent before, and each device may
    /// be in any state. These setup data are known from elsewhere. What they tell of a reader's
    /// levels and features counts by the extended profile alone.
    Joined(Setups, Profile),
}

impl Beginning {
    /// What is followed of the protocol.
    pub fn profile(&self) -> Profile
        ensures { result ≡ profile_of self.now }
    {
        match self {
            Beginning::PowerOn(profile) | Beginning::Joined(_, profile) => *profile,
        }
    }

    /// A copy.
    pub fn copy(&self) -> Beginning
        ensures { result ≡ self.now }
    {
        match self {
            Beginning::PowerOn(profile) => Beginning::PowerOn(*profile),
            Beginning::Joined(setups, profile) => Beginning::Joined(setups.copy(), *profile),
        }
    }
}

/// The scope of a check: where the recording begins, what is followed of it, which devices are left
/// out, and which feature levels were reported before (this profile).
///
/// A device that is left out isn't followed. All words to it and from it are foreign traffic.
#[derive(PartialEq, Eq, Debug, Drop)]
pub struct Scope {
    /// Where the recording begins, and what is followed of it.
    pub begins: Beginning,
    /// The devices that are left out.
    pub without: DeviceSet,
    /// The feature levels that controller and readers had reported to each other before the
    /// recording began, where they are known. In a joined recording by the extended profile those
    /// of its setup data count instead.
    pub levels: Levels,
}

impl Scope {
    /// A recording from power-on, with all devices followed, by the base profile.
    pub const POWER_ON: Scope = Scope {
        begins: Beginning::PowerOn(Profile::Base),
        without: DeviceSet::NONE,
        levels: Levels::NONE,
    };

    /// A recording from power-on that is followed by a profile, with these devices left out.
    pub fn from_power_on(profile: Profile, devices: DeviceSet) -> Scope
        ensures { result ≡ from_power_on profile devices }
    {
        Scope {
            begins: Beginning::PowerOn(profile),
            without: devices,
            levels: Levels::NONE,
        }
    }

    /// A recording from power-on, by the base profile, with these devices left out.
    pub fn leaving_out(devices: DeviceSet) -> Scope
        ensures { result ≡ leaving_out devices }
    {
        Scope::from_power_on(Profile::Base, devices)
    }

    /// A recording of a machine that was running, followed by a profile, with these setup data
    /// known and these devices left out.
    pub fn joined_by(profile: Profile, setups: Setups, without: DeviceSet) -> Scope
        ensures { result ≡ joined_by profile setups without }
    {
        Scope {
            begins: Beginning::Joined(setups, profile),
            without,
            levels: Levels::NONE,
        }
    }

    /// The same by the base profile.
    pub fn joined(setups: Setups, without: DeviceSet) -> Scope
        ensures { result ≡ joined setups without }
    {
        Scope::joined_by(Profile::Base, setups, without)
    }

    /// The feature levels that are known as the recording begins: `levels`, or in a joined
    /// recording by the extended profile those of the setup data.
    pub fn levels_before(&self) -> Levels
        ensures { result ≡ levels_before self.now }
    {
        match &self.begins {
            Beginning::Joined(setups, Profile::Extended) => Levels::known(setups),
            _ => self.levels,
        }
    }

    /// What a block needs that begins with this byte.
    #[inline(always)]
    pub(crate) fn first_need(&self, first: u8) -> Need
        ensures { result ≡ needed_in self.now (first ∷ []) }
    {
        need_without(self.without, &[first])
    }

    /// The same scope, with these feature levels reported before the recording began.
    pub fn told(self, levels: Levels) -> Scope
        ensures { result ≡ told levels self }
    {
        Scope {
            begins: self.begins,
            without: self.without,
            levels,
        }
    }

    /// A copy.
    pub fn copy(&self) -> Scope
        ensures { result ≡ self.now }
    {
        Scope {
            begins: self.begins.copy(),
            without: self.without,
            levels: self.levels,
        }
    }
}
