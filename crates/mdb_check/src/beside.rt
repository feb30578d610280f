//! What may be said beside a no.

ghost use Rattle.std.specs.Prelude.{◌≡◌};
ghost use Rattle.mdb_check.specs.Unfollowed as spec;

use mdb_bus::{Blame, Rule};
use mdb_follow::Offence;
use mdb_msgs::{Device, ReaderUnit};

/// What may be said beside a no by which perhaps nobody did wrong. Beside any other no, and beside
/// a yes, all is `None`.
#[derive(Clone, Copy, PartialEq, Eq, Debug)]
pub struct Beside {
    /// With a no that isn't judged, the reader whose feature level the rows don't show.
    pub unjudged: Option<ReaderUnit>,
    /// With a no by the base profile's times that the extended profile's spare, the row's time.
    /// Machines aren't asked, and replies are read as by the base profile. So the extended profile
    /// may refuse the row all the same.
    pub spared: Option<Spared>,
    /// With a no by the rule `Profile`, the device that isn't followed: the one that sent the row,
    /// or the one that the controller's block is to.
    pub unfollowed: Option<Device>,
}

impl Beside {
    /// Nothing.
    pub const NONE: Beside = Beside {
        unjudged: None,
        spared: None,
        unfollowed: None,
    };
}

/// The time of a row that the extended profile's times spare.
#[derive(Clone, Copy, PartialEq, Eq, Debug)]
pub struct Spared {
    /// How many microseconds the row takes: a break that is too short lasts so long, and any other
    /// row starts so long after the row before it.
    pub micros: u64,
    /// Whether the row before it is RET, by which the controller asked again.
    pub after_ret: bool,
}

/// The device that isn't followed, where the last block of the controller begins with this byte.
/// `None` for any other rule.
pub(crate) fn unfollowed(offence: Offence, begun: Option<u8>) -> Option<Device>
    ensures { result ≡ spec.unfollowed offence.rule offence.blame begun }
{
    if !matches!(offence.rule, Rule::Profile) {
        return None;
    }
    match offence.blame {
        Blame::Controller => device_begun(begun),
        Blame::Changer => Some(Device::Changer),
        Blame::Bill => Some(Device::Bill),
        Blame::Cashless => Some(Device::Reader(ReaderUnit::First)),
        Blame::Cashless2 => Some(Device::Reader(ReaderUnit::Second)),
        Blame::Other => None,
    }
}

/// The device to which a block is that begins with this byte.
fn device_begun(begun: Option<u8>) -> Option<Device>
    ensures { result ≡ spec.device_begun begun }
{
    match begun? / 8 {
        1 => Some(Device::Changer),
        2 => Some(Device::Reader(ReaderUnit::First)),
        6 => Some(Device::Bill),
        12 => Some(Device::Reader(ReaderUnit::Second)),
        _ => None,
    }
}
