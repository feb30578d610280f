//! The options of a check: a sum of these numbers.

ghost use Rattle.std.specs.Prelude.{◌≡◌, if◌then◌else◌};
ghost use Rattle.mdb_msgs.specs.Settings.{with_device};
ghost use Rattle.mdb_c.specs.Options as spec;

use mdb_bus::{Profile, Scope};
use mdb_msgs::{Device, DeviceSet, ReaderUnit, Setups};

/// The recording begins while the machine was running.
pub const JOINED: u32 = 1;

/// The changer is left out.
pub const WITHOUT_CHANGER: u32 = 2;

/// The bill validator is left out.
pub const WITHOUT_BILL: u32 = 4;

/// The cashless reader at 10H is left out.
pub const WITHOUT_CASHLESS: u32 = 8;

/// The cashless reader at 60H is left out.
pub const WITHOUT_CASHLESS_2: u32 = 16;

/// What card readers of feature levels 2 and 3 say is followed too, with the options that readers
/// have, and what a bill recycler reports.
pub const EXTENDED: u32 = 32;

/// The least number that is no sum of options.
const OPTIONS_END: u32 = 64;

/// The scope that options name. `None` where a bit is set that is no option.
pub(crate) fn scope_of(options: u32) -> Option<Scope>
    ensures { result ≡ spec.scope_of options }
{
    if options >= OPTIONS_END {
        return None;
    }
    let without = left_out(options);
    let profile = profile_of(options);
    if options & JOINED != 0 {
        Some(Scope::joined_by(profile, Setups::NONE, without))
    } else {
        Some(Scope::from_power_on(profile, without))
    }
}

/// What options say is followed.
fn profile_of(options: u32) -> Profile
    ensures { result ≡ spec.profile_of options }
{
    if options & EXTENDED != 0 {
        Profile::Extended
    } else {
        Profile::Base
    }
}

/// The devices that options leave out.
fn left_out(options: u32) -> DeviceSet
    ensures { result ≡ spec.left_out options }
{
    let first_reader = Device::Reader(ReaderUnit::First);
    let second_reader = Device::Reader(ReaderUnit::Second);
    let first = with_if(
        DeviceSet::NONE,
        Device::Changer,
        options & WITHOUT_CHANGER != 0,
    );
    let second = with_if(first, Device::Bill, options & WITHOUT_BILL != 0);
    let third = with_if(second, first_reader, options & WITHOUT_CASHLESS != 0);
    with_if(third, second_reader, options & WITHOUT_CASHLESS_2 != 0)
}

/// A set, with a device more where it is wanted.
fn with_if(set: DeviceSet, device: Device, is_wanted: bool) -> DeviceSet
    ensures { result ≡ (if is_wanted then with_device set device else set) }
{
    if is_wanted { set.with(device) } else { set }
}
