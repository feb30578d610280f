//! Devices.

ghost use Rattle.std.specs.Prelude.{◌≡◌, IfOk};
ghost use Rattle.serde_json.specs.View.{view};
ghost use Rattle.mdb_json.specs.Reports.{device_data, devices_data, known_in, places_data};

use super::account::accounts_of;
use mdb_bus::{Beginning, Scope};
use mdb_follow::Report;
use mdb_msgs::{Device, DeviceSet};
use mdb_text::known_devices;
use serde_json::{Map, Value, json, put};
use std::alloc::{AllocError, Global};

/// What a yes tells of each device, by its word.
pub(crate) fn devices(alloc: Global, scope: &Scope, report: &Report) -> Result<Value, AllocError>
    ensures { IfOk result (λ value. view value ≡ devices_data scope.now report.now) }
{
    let mut devices = Map::new(alloc);
    for device in Report::DEVICES {
        let value = device_value(alloc, scope, report, device)?;
        put(&mut devices, alloc, device.word(), value)?;
    }
    Ok(Value::Object(devices))
}

/// What a yes tells of a device.
fn device_value(
    alloc: Global,
    scope: &Scope,
    report: &Report,
    device: Device,
) -> Result<Value, AllocError>
    ensures { IfOk result (λ value. view value ≡ device_data scope.now report.now device) }
{
    json!(in alloc; {
        "accounts": accounts_of(alloc, &report.accounts, device)?,
        "decimals": places(report.device_decimals(device)),
        "silences": report.device_silences(device),
        "unvalued": report.device_unvalued(device),
        "setup": known(&scope.begins).has(device),
        "without": scope.without.has(device)
    })
}

/// How many decimal places there are; null where there are none.
fn places(places: Option<u8>) -> Value
    ensures { view result ≡ places_data places }
{
    match places {
        Some(places) => Value::from(places),
        None => Value::Null,
    }
}

/// The devices of whose set-up something is known from elsewhere.
fn known(begins: &Beginning) -> DeviceSet
    ensures { result ≡ known_in begins.now }
{
    match begins {
        Beginning::PowerOn(_) => DeviceSet::NONE,
        Beginning::Joined(setups, _) => known_devices(setups),
    }
}
