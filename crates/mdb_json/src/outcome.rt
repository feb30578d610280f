//! The answer to a transcript.

ghost use Rattle.std.specs.Prelude.{◌≡◌, IfOk, Some, string_bytes};
ghost use Rattle.serde_json.specs.Read.{read};
ghost use Rattle.serde_json.specs.View.{view};
ghost use Rattle.mdb_bus.specs.declared.scope.Profile.TheVariants.{Base, Extended};
ghost use Rattle.mdb_json.specs.Json.{json_text};
ghost use Rattle.mdb_json.specs.Reports.{is_joined, offence_data, outcome_data};
ghost use Rattle.mdb_json.specs.Reports.{version_of, yes_by, yes_data};

use super::device::devices;
use super::untimely::untimely_value;
use mdb_bus::{Beginning, Profile, Scope};
use mdb_follow::{Offence, Report};
use mdb_text::Outcome;
use serde_json::{Value, json};
use std::alloc::{AllocError, Global};

/// The version of the form by the base profile: it rises with any change of it, a new member too,
/// as the schema in docs/ takes no other.
pub const VERSION: u64 = 1;

/// The version of the form by the extended profile.
const EXTENDED_VERSION: u64 = 3;

/// The answer to a recording that is taken as `scope` says, as JSON on one line, without the line
/// feed. It is the text of one value, and reads as that value again.
///
/// # Errors
///
/// Memory was refused.
#[tactic(auto, using(crate::proofs::Depths::of_outcome, crate::proofs::Floats::of_outcome))]
pub fn json_of(alloc: Global, scope: &Scope, outcome: &Outcome) -> Result<String, AllocError>
    ensures text { IfOk result (λ text. string_bytes text ≡ json_text scope.now outcome.now) }
    ensures reads_back { IfOk result (λ text.
        read (string_bytes text) ≡ Some (outcome_data scope.now outcome.now)) }
{
    let value = value_of(alloc, scope, outcome)?;
    value.to_string(alloc)
}

/// The answer as a value.
fn value_of(alloc: Global, scope: &Scope, outcome: &Outcome) -> Result<Value, AllocError>
    ensures { IfOk result (λ value. view value ≡ outcome_data scope.now outcome.now) }
{
    match outcome {
        Outcome::Yes(report) => report_value(alloc, scope, report),
        Outcome::No(offence) => no(alloc, scope.begins.profile(), offence),
    }
}

/// A yes as a value: the object that [`json_of`] has as text.
///
/// # Errors
///
/// Memory was refused.
pub fn report_value(alloc: Global, scope: &Scope, report: &Report) -> Result<Value, AllocError>
    ensures { IfOk result (λ value. view value ≡ yes_data scope.now report.now) }
{
    match scope.begins.profile() {
        Profile::Base => base_value(alloc, scope, report),
        Profile::Extended => extended_value(alloc, scope, report),
    }
}

/// A yes by the base profile as a value.
fn base_value(alloc: Global, scope: &Scope, report: &Report) -> Result<Value, AllocError>
    ensures { IfOk result (λ value. view value ≡ yes_by Base scope.now report.now) }
{
    json!(in alloc; {
        "version": VERSION,
        "verdict": "yes",
        "rows": report.rows,
        "joined": joins(&scope.begins),
        "devices": devices(alloc, scope, report)?
    })
}

/// A yes by the extended profile as a value.
fn extended_value(alloc: Global, scope: &Scope, report: &Report) -> Result<Value, AllocError>
    ensures { IfOk result (λ value. view value ≡ yes_by Extended scope.now report.now) }
{
    json!(in alloc; {
        "version": EXTENDED_VERSION,
        "verdict": "yes",
        "extended": true,
        "rows": report.rows,
        "joined": joins(&scope.begins),
        "untimely": untimely_value(alloc, &report.untimely)?,
        "devices": devices(alloc, scope, report)?
    })
}

/// The version of the form by a profile.
pub fn version_by(profile: Profile) -> u64
    ensures { result ≡ version_of profile }
{
    match profile {
        Profile::Base => VERSION,
        Profile::Extended => EXTENDED_VERSION,
    }
}

/// Whether a recording begins in mid-session.
fn joins(begins: &Beginning) -> bool
    ensures { result ≡ is_joined begins.now }
{
    matches!(begins, Beginning::Joined(_, _))
}

/// A no by a profile.
fn no(alloc: Global, profile: Profile, offence: &Offence) -> Result<Value, AllocError>
    ensures { IfOk result (λ value. view value ≡ offence_data profile offence.now) }
{
    json!(in alloc; {
        "version": version_by(profile),
        "verdict": "no",
        "row": offence.row,
        "rule": offence.rule.word(),
        "blame": offence.blame.word()
    })
}
