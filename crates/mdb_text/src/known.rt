//! The devices of whose set-up something is known from elsewhere.

ghost use Rattle.std.specs.Prelude.{◌≡◌, if◌then◌else◌};
ghost use Rattle.mdb_msgs.specs.Settings.{with_device};
ghost use Rattle.mdb_text.specs.Known.{is_known, known_devices};

use mdb_msgs::{Device, DeviceSet, ReaderSetup, ReaderUnit, Setups};

/// The devices of which something is known.
pub fn known_devices(setups: &Setups) -> DeviceSet
    ensures { result ≡ known_devices setups.now }
{
    let first = with_if(DeviceSet::NONE, Device::Changer, setups.changer.is_some());
    let second = with_if(first, Device::Bill, setups.bill.is_some());
    let first_reader = Device::Reader(ReaderUnit::First);
    let third = with_if(second, first_reader, is_known(setups.first_reader));
    let second_reader = Device::Reader(ReaderUnit::Second);
    with_if(third, second_reader, is_known(setups.second_reader))
}

/// Whether anything is known of a reader.
fn is_known(reader: ReaderSetup) -> bool
    ensures { result ≡ is_known reader }
{
    reader.config.is_some() || reader.asked.is_some() || reader.told.is_some() || reader.features
}

/// A set, with a device more where it is known.
fn with_if(set: DeviceSet, device: Device, is_known: bool) -> DeviceSet
    ensures { result ≡ (if is_known then with_device set device else set) }
{
    if is_known { set.with(device) } else { set }
}
