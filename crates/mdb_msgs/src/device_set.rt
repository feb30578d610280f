//! Sets of devices.

ghost use Rattle.std.specs.Prelude.{◌≡◌, ◌≢◌, true};
ghost use Rattle.mdb_msgs.specs.DeviceSets.{has};
ghost use Rattle.mdb_msgs.specs.Settings.{with_device};
ghost use Rattle.mdb_msgs.specs.Needs.{is_to_one_of};
ghost use Rattle.mdb_msgs.specs.declared.command.Device.{Device};

use super::command::{Device, ReaderUnit};

/// A set of devices.
#[derive(Clone, Copy, PartialEq, Eq, Debug)]
pub struct DeviceSet {
    changer: bool,
    bill: bool,
    first_reader: bool,
    second_reader: bool,
}

impl DeviceSet {
    /// No device.
    pub const NONE: DeviceSet = DeviceSet {
        changer: false,
        bill: false,
        first_reader: false,
        second_reader: false,
    };

    /// The set with a device added.
    pub fn with(self, device: Device) -> DeviceSet
        ensures set { result ≡ with_device self device }
        ensures more { has result device ≡ true }
        ensures others { (other : Device) → other ≢ device → has result other ≡ has self other }
    {
        let mut set = self;
        match device {
            Device::Changer => set.changer = true,
            Device::Bill => set.bill = true,
            Device::Reader(ReaderUnit::First) => set.first_reader = true,
            Device::Reader(ReaderUnit::Second) => set.second_reader = true,
        }
        set
    }

    /// Whether the set contains a device.
    pub fn has(self, device: Device) -> bool
        ensures { result ≡ has self device }
    {
        match device {
            Device::Changer => self.changer,
            Device::Bill => self.bill,
            Device::Reader(ReaderUnit::First) => self.first_reader,
            Device::Reader(ReaderUnit::Second) => self.second_reader,
        }
    }

    /// Whether a controller's block that begins with this byte is for a device of the set: its
    /// upper five bits are those of the device's address (MDB/ICP 4.3, bus format).
    #[inline(always)]
    pub fn has_address(self, first: u8) -> bool
        ensures { result ≡ is_to_one_of self first }
    {
        match first {
            0x08..=0x0F => self.changer,
            0x10..=0x17 => self.first_reader,
            0x30..=0x37 => self.bill,
            0x60..=0x67 => self.second_reader,
            _ => false,
        }
    }
}
