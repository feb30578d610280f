//! The devices that are followed, by their places.

ghost use Rattle.std.specs.Prelude.{◌≡◌, ◌<◌};
ghost use Rattle.mdb_follow.specs.ReportedDevices as spec;

use mdb_msgs::{Device, ReaderUnit};

/// The place of a device in `Report::DEVICES`, from 0.
pub fn device_place(device: Device) -> usize
    ensures place { result ≡ spec.device_place device }
    ensures below { result < 4 }
{
    match device {
        Device::Changer => 0,
        Device::Bill => 1,
        Device::Reader(ReaderUnit::First) => 2,
        Device::Reader(ReaderUnit::Second) => 3,
    }
}
