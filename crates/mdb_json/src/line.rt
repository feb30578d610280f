//! An answer as a line of JSON.

ghost use Rattle.std.specs.Prelude.{◌≡◌, IfOk};
ghost use Rattle.mdb_json.specs.Json.{json_line};

use super::outcome::json_of;
use mdb_bus::Scope;
use mdb_text::Outcome;
use std::alloc::{AllocError, Global};

/// What the program writes of an answer with `--json`: its JSON and a line feed.
///
/// # Errors
///
/// Memory was refused.
pub fn line_of(alloc: Global, scope: &Scope, outcome: &Outcome) -> Result<Vec<u8>, AllocError>
    ensures { IfOk result (λ line. line.items ≡ json_line scope.now outcome.now) }
{
    let mut line = json_of(alloc, scope, outcome)?;
    line.push_str("\n")?;
    Ok(line.into_bytes())
}
