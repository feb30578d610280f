//! The acts of a recording that lies in memory as text.

ghost use Rattle.std.specs.Prelude.{IfOk, Ok};
ghost use Rattle.csv.specs.Reading.{default_config, records, strip_bom};
ghost use Rattle.mdb_show.specs.Show.{IsShowingIn};
ghost use Rattle.mdb_show.specs.ShowText.{text_lines};

use mdb_bus::{LinkFault, Scope};
use mdb_show::show_scoped;
use mdb_verdict::RunFault;
use std::alloc::Global;

/// The lines that `mdbcheck show` prints of a recording that is taken so, and the fault of the last
/// row, if it breaks a rule of the link.
///
/// # Errors
///
/// Why the lines end before the recording.
pub fn shown(
    alloc: Global,
    scope: &Scope,
    text: &[u8],
) -> Result<(Vec<u8>, Option<LinkFault>), RunFault>
    ensures shown { IfOk result (λ shown. IsShowingIn text_lines scope.now
        (records default_config (strip_bom text.now)) (Ok shown.1) shown.0.items) }
{
    let mut lines = Vec::new(alloc);
    let fault = show_scoped(alloc, scope, text, &mut lines)?;
    Ok((lines, fault))
}
