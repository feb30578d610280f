//! What the entries of both lists have: their rows and their device.

ghost use Rattle.std.specs.Prelude.{◌≡◌, ◌<◌};
ghost use Rattle.mdb_follow.specs.declared.follower.TheConstants.{ROWS_MAX};
ghost use Rattle.mdb_page.specs.Acts.{device_number};
ghost use Rattle.mdb_page.specs.inner.Listing.{HasAdded};

use mdb_msgs::{Device, ReaderUnit};
use mdb_words::Time;

/// The rows of an act, or of one that isn't ended.
#[derive(Drop)]
pub(crate) struct Rows {
    /// The first row.
    pub(crate) first: u64,
    /// The last row. It is less than the first where the act has no row yet.
    pub(crate) last: u64,
    /// When the first row started, in microseconds.
    pub(crate) start: u64,
    /// When the last row started.
    pub(crate) end: u64,
}

impl Rows {
    /// One row more, which started at a time.
    #[inline(always)]
    pub(crate) fn add(&mut self, at: Time)
        requires { self.old.last < ROWS_MAX }
        ensures { HasAdded self.old at self.new }
    {
        self.last += 1;
        if self.first == self.last {
            self.start = at.value();
        }
        self.end = at.value();
    }
}

/// The number of a device.
pub(crate) fn device_number(device: Device) -> u8
    ensures { result ≡ device_number device }
{
    match device {
        Device::Changer => 1,
        Device::Bill => 2,
        Device::Reader(ReaderUnit::First) => 3,
        Device::Reader(ReaderUnit::Second) => 4,
    }
}
