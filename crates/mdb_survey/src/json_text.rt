//! The lines of a survey, as JSON.

ghost use Rattle.std.specs.Prelude.{◌≡◌, ◌++◌, IfOk, OnOk, false};
ghost use Rattle.serde_json.specs.Data.{Data};
ghost use Rattle.serde_json.specs.View.{view};
ghost use Rattle.serde_json.specs.Written.{compact_text, has_float};
ghost use Rattle.mdb_survey.specs.SurveyJson.{device_total, devices_total, fault_data, faults_data, offence_data, some_total, stretch_data, stretch_json, summary_data, total_data};
ghost use Rattle.mdb_text.specs.Text.{line};

use mdb_bus::Profile;
use mdb_follow::{Offence, Report};
use mdb_json::{accounts_of, report_value, untimely_value, version_by};
use mdb_msgs::Device;
use mdb_surveyor::{FaultCounts, Stretch, Summary};
use serde_json::{Map, Value, json, put};
use std::alloc::{AllocError, Global};

/// Appends the line of a stretch: none where it has no row.
#[tactic(auto, using(crate::proofs::Floats::of_stretch))]
pub(crate) fn push_stretch(text: &mut Vec<u8>, stretch: &Stretch) -> Result<(), AllocError>
    ensures { OnOk result (text.new.items ≡ text.old.items ++ stretch_json stretch.now) }
{
    if stretch.report.rows == 0 {
        return Ok(());
    }
    let value = stretch_value(*text.allocator(), stretch)?;
    push_line(text, &value)
}

/// Appends the line of a fault.
pub(crate) fn push_fault(
    text: &mut Vec<u8>,
    profile: Profile,
    fault: &Offence,
) -> Result<(), AllocError>
    ensures { OnOk result
        (text.new.items ≡ text.old.items ++ line (compact_text (fault_data profile fault.now))) }
{
    let value = fault_value(*text.allocator(), profile, fault)?;
    push_line(text, &value)
}

/// Appends the line of the whole.
pub(crate) fn push_summary(
    text: &mut Vec<u8>,
    profile: Profile,
    summary: &Summary,
) -> Result<(), AllocError>
    ensures { OnOk result (text.new.items
        ≡ text.old.items ++ line (compact_text (summary_data profile summary.now))) }
{
    let value = summary_value(*text.allocator(), profile, summary)?;
    push_line(text, &value)
}

/// Appends a value as a line.
fn push_line(text: &mut Vec<u8>, value: &Value) -> Result<(), AllocError>
    requires { has_float (view value.now) ≡ false }
    ensures { OnOk result
        (text.new.items ≡ text.old.items ++ line (compact_text (view value.now))) }
{
    let written = value.to_string(*text.allocator())?;
    text.extend_from_slice(written.as_bytes())?;
    text.extend_from_slice(b"\n")
}

/// A stretch as a value.
fn stretch_value(alloc: Global, stretch: &Stretch) -> Result<Value, AllocError>
    ensures { IfOk result (λ value. view value ≡ stretch_data stretch.now) }
{
    let report = report_value(alloc, &stretch.scope, &stretch.report)?;
    json!(in alloc; {
        "version": version_by(stretch.scope.begins.profile()),
        "stretch": stretch.number,
        "first": stretch.first,
        "last": stretch.last,
        "report": report
    })
}

/// A fault as a value.
fn fault_value(alloc: Global, profile: Profile, fault: &Offence) -> Result<Value, AllocError>
    ensures { IfOk result (λ value. view value ≡ fault_data profile fault.now) }
{
    let offence = json!(in alloc; {
        "row": fault.row,
        "rule": fault.rule.word(),
        "blame": fault.blame.word()
    })?;
    json!(in alloc; {"version": version_by(profile), "fault": offence})
}

/// The whole as a value.
fn summary_value(alloc: Global, profile: Profile, summary: &Summary) -> Result<Value, AllocError>
    ensures { IfOk result (λ value. view value ≡ summary_data profile summary.now) }
{
    let faults = faults_value(alloc, &summary.faults)?;
    let total = total_value(alloc, profile, summary)?;
    json!(in alloc; {"version": version_by(profile), "total": total, "faults": faults})
}

/// How many faults there are, as a value.
fn faults_value(alloc: Global, faults: &FaultCounts) -> Result<Value, AllocError>
    ensures { IfOk result (λ value. view value ≡ faults_data faults.now) }
{
    json!(in alloc; {
        "all": faults.all,
        "controller": faults.controller,
        "changer": faults.changer,
        "bill": faults.bill,
        "cashless": faults.cashless,
        "cashless-2": faults.cashless_2,
        "other": faults.other,
        "profile": faults.profile
    })
}

/// The totals as a value; null where no stretch has a row.
fn total_value(alloc: Global, profile: Profile, summary: &Summary) -> Result<Value, AllocError>
    ensures { IfOk result (λ value. view value ≡ total_data profile summary.now) }
{
    if summary.totals.rows == 0 {
        return Ok(Value::Null);
    }
    some_total(alloc, profile, summary)
}

/// The totals of stretches that have rows, as a value.
fn some_total(alloc: Global, profile: Profile, summary: &Summary) -> Result<Value, AllocError>
    ensures { IfOk result (λ value. view value ≡ some_total profile summary.now) }
{
    let devices = devices_value(alloc, summary)?;
    match profile {
        Profile::Base => json!(in alloc; {"devices": devices}),
        Profile::Extended => {
            let untimely = untimely_value(alloc, &summary.totals.untimely)?;
            json!(in alloc; {"devices": devices, "untimely": untimely})
        }
    }
}

/// What all stretches have of each device, by its word.
fn devices_value(alloc: Global, summary: &Summary) -> Result<Value, AllocError>
    ensures { IfOk result (λ value. view value ≡ devices_total summary.now) }
{
    let mut devices = Map::new(alloc);
    for device in Report::DEVICES {
        let value = device_value(alloc, summary, device)?;
        put(&mut devices, alloc, device.word(), value)?;
    }
    Ok(Value::Object(devices))
}

/// What all stretches have of a device.
fn device_value(alloc: Global, summary: &Summary, device: Device) -> Result<Value, AllocError>
    ensures { IfOk result (λ value. view value ≡ device_total summary.now device) }
{
    let accounts = accounts_of(alloc, &summary.totals.accounts, device)?;
    let is_left_out = summary.without.has(device);
    json!(in alloc; {
        "accounts": accounts,
        "silences": summary.totals.device_silences(device),
        "unvalued": summary.totals.device_unvalued(device),
        "without": is_left_out
    })
}
