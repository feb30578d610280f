//! The bounds of an account's sums.

ghost use Rattle.std.specs.Prelude.{◌≡◌, ◌<◌, ◌^◌};
ghost use Rattle.mdb_follow.specs.Cells.{joined_account, moved_account};
ghost use Rattle.mdb_follow.specs.Limits.{IsAccountWithin};

use crate::Range;

/// The bounds of an account's sums, in the smallest unit of money. For example, the device counted
/// 25 to 50, and the controller 50 to 50.
#[derive(Clone, Copy, PartialEq, Eq, Debug, Default)]
pub struct Account {
    /// The device's sum.
    pub device: Range,
    /// The controller's sum.
    pub controller: Range,
    /// The device's sum less the controller's.
    pub difference: Range,
}

impl Account {
    /// No money moved: all bounds are 0.
    pub const NOTHING: Account = Account {
        device: Range::NOTHING,
        controller: Range::NOTHING,
        difference: Range::NOTHING,
    };

    /// The ranges with so much added to the two sums.
    pub(crate) fn moved(&self, device: u64, controller: u64) -> Account
        requires within { IsAccountWithin (2 ^ 62) self.now }
        requires device { device < 2 ^ 32 }
        requires controller { controller < 2 ^ 32 }
        ensures { result ≡ moved_account self.now device controller }
    {
        let by_device = device as i64;
        let by_controller = controller as i64;
        Account {
            device: self.device.moved(by_device),
            controller: self.controller.moved(by_controller),
            difference: self.difference.moved(by_device - by_controller),
        }
    }

    /// The ranges of sums that are in one of two.
    pub(crate) fn joined(&self, other: &Account) -> Account
        ensures { result ≡ joined_account self.now other.now }
    {
        Account {
            device: self.device.joined(other.device),
            controller: self.controller.joined(other.controller),
            difference: self.difference.joined(other.difference),
        }
    }
}
