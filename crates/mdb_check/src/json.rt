//! A no as JSON, with what may be said beside it.

ghost use Rattle.std.specs.Prelude.{◌≡◌, IfOk, IfSome};
ghost use Rattle.serde_json.specs.View.{view};
ghost use Rattle.serde_json.specs.Written.{compact_text};
ghost use Rattle.mdb_text.specs.Text.{line};
ghost use Rattle.mdb_check.specs.Json as spec;
ghost use Rattle.mdb_check.specs.Json.{checked_text, no_data};

use super::beside::{Beside, Spared};
use super::checking::Checked;
use mdb_bus::{Profile, Scope};
use mdb_follow::Offence;
use mdb_msgs::{Device, ReaderUnit};
use mdb_text::{Form, Outcome};
use mdb_verdict::answer_in;
use serde_json::{Value, json};
use std::alloc::{AllocError, Global};

/// The version of the form of a no, by the base profile: it rises with any change of it.
const NO_VERSION: u64 = 4;

/// The same by the extended profile.
const EXTENDED_NO_VERSION: u64 = 5;

/// What is written in this form of what was checked of a recording that is taken so, or nothing
/// where memory was refused.
pub(crate) fn checked_in(
    alloc: Global,
    form: Form,
    scope: &Scope,
    checked: &Checked,
) -> Option<Vec<u8>>
    ensures { IfSome result (λ written. written.items
        ≡ checked_text form scope.now checked.now.beside checked.now.outcome) }
{
    match (form, &checked.outcome) {
        (Form::Json, Outcome::No(offence)) => {
            no_line(alloc, scope.begins.profile(), offence, checked.beside).ok()
        }
        _ => answer_in(alloc, form, scope, &checked.outcome),
    }
}

/// The line of a no.
fn no_line(
    alloc: Global,
    profile: Profile,
    offence: &Offence,
    beside: Beside,
) -> Result<Vec<u8>, AllocError>
    ensures { IfOk result (λ written. written.items
        ≡ line (compact_text (no_data profile offence.now beside))) }
{
    let value = no_value(alloc, profile, offence, beside)?;
    let mut written = value.to_string(alloc)?;
    written.push_str("\n")?;
    Ok(written.into_bytes())
}

/// A no as a value.
fn no_value(
    alloc: Global,
    profile: Profile,
    offence: &Offence,
    beside: Beside,
) -> Result<Value, AllocError>
    ensures { IfOk result (λ value. view value ≡ no_data profile offence.now beside) }
{
    json!(in alloc; {
        "version": no_version(profile),
        "verdict": "no",
        "row": offence.row,
        "rule": offence.rule.word(),
        "blame": offence.blame.word(),
        "unjudged": reader_value(alloc, beside.unjudged)?,
        "spared": spared_value(alloc, beside.spared)?,
        "unfollowed": word_value(alloc, beside.unfollowed)?
    })
}

/// The version of the form of a no by a profile.
fn no_version(profile: Profile) -> u64
    ensures { result ≡ spec.no_version profile }
{
    match profile {
        Profile::Base => NO_VERSION,
        Profile::Extended => EXTENDED_NO_VERSION,
    }
}

/// A reader by its word; null where there is none.
fn reader_value(alloc: Global, unit: Option<ReaderUnit>) -> Result<Value, AllocError>
    ensures { IfOk result (λ value. view value ≡ spec.reader_data unit) }
{
    match unit {
        Some(unit) => json!(in alloc; Device::Reader(unit).word()),
        None => Ok(Value::Null),
    }
}

/// A device by its word; null where there is none.
fn word_value(alloc: Global, device: Option<Device>) -> Result<Value, AllocError>
    ensures { IfOk result (λ value. view value ≡ spec.word_data device) }
{
    match device {
        Some(device) => json!(in alloc; device.word()),
        None => Ok(Value::Null),
    }
}

/// The time of a row; null where there is none.
fn spared_value(alloc: Global, spared: Option<Spared>) -> Result<Value, AllocError>
    ensures { IfOk result (λ value. view value ≡ spec.spared_data spared) }
{
    match spared {
        Some(it) => json!(in alloc; { "micros": it.micros, "after-ret": it.after_ret }),
        None => Ok(Value::Null),
    }
}
