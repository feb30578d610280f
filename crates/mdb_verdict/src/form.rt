//! What is written of an outcome, as text or as JSON.

ghost use Rattle.std.specs.Prelude.{◌≡◌, IfSome};
ghost use Rattle.mdb_verdict.specs.Forms.{answer_text};

use super::text::text_scoped;
use mdb_bus::Scope;
use mdb_json::line_of;
use mdb_text::{Form, Outcome};
use std::alloc::Global;

/// What is written in this form of the outcome of a recording that is taken so, or nothing where
/// memory was refused.
pub fn answer_in(alloc: Global, form: Form, scope: &Scope, outcome: &Outcome) -> Option<Vec<u8>>
    ensures { IfSome result (λ written.
        written.items ≡ answer_text form scope.now outcome.now) }
{
    match form {
        Form::Text => text_scoped(alloc, scope, outcome).ok(),
        Form::Json => line_of(alloc, scope, outcome).ok(),
    }
}
