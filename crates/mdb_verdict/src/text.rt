//! The text of an outcome, in memory.

ghost use Rattle.std.specs.Prelude.{◌≡◌, IfOk};
ghost use Rattle.mdb_bus.specs.Scopes.{power_on};
ghost use Rattle.mdb_text.specs.Text.{report_text};

use mdb_bus::Scope;
use mdb_text::{Outcome, write_outcome};
use std::alloc::Global;
use std::io;

/// The text of an outcome as bytes: what `check` writes of it. Only want of memory is an error
/// here.
pub fn text_of(alloc: Global, outcome: &Outcome) -> io::Result<Vec<u8>>
    ensures { IfOk result (λ text. text.items ≡ report_text power_on outcome.now) }
{
    text_scoped(alloc, &Scope::POWER_ON, outcome)
}

/// The text of an outcome of a recording that is taken so: what `check_scoped` writes of it. Only
/// want of memory is an error here.
pub fn text_scoped(alloc: Global, scope: &Scope, outcome: &Outcome) -> io::Result<Vec<u8>>
    ensures { IfOk result (λ text. text.items ≡ report_text scope.now outcome.now) }
{
    let mut text = Vec::new(alloc);
    write_outcome(&mut text, scope, outcome)?;
    Ok(text)
}
