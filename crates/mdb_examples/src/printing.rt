//! The verdict on a recording that lies in memory as text.

ghost use Rattle.std.specs.Prelude.{◌≡◌, Err, IfErr, IfOk, Ok};
ghost use Rattle.csv.specs.Reading.{default_config, records, strip_bom};
ghost use Rattle.mdb_follow.specs.declared.follower.TheConstants.{ROWS_MAX};
ghost use Rattle.mdb_text.specs.Text.{report_text};
ghost use Rattle.mdb_text.specs.declared.outcome.Outcome.{Outcome};
ghost use Rattle.mdb_verdict.specs.Headline.{Headline};
ghost use Rattle.mdb_verdict.specs.Verdict.{IsAnswer};

use mdb_bus::Scope;
use mdb_check::check_scoped;
use mdb_verdict::RunFault;
use std::alloc::Global;

/// The text that `mdbcheck check` prints of a recording that is taken so.
///
/// # Errors
///
/// Why there is no verdict.
pub fn printed(alloc: Global, scope: &Scope, text: &[u8]) -> Result<Vec<u8>, RunFault>
    ensures printed { IfOk result (λ printed. (outcome : Outcome)
        × IsAnswer scope.now ROWS_MAX (records default_config (strip_bom text.now)) (Ok outcome)
        × Headline scope.now ROWS_MAX (records default_config (strip_bom text.now)) outcome
        × (printed.items ≡ report_text scope.now outcome)) }
    ensures fault { IfErr result (λ fault.
        IsAnswer scope.now ROWS_MAX (records default_config (strip_bom text.now)) (Err fault)) }
{
    let mut printed = Vec::new(alloc);
    check_scoped(alloc, scope, text, &mut printed)?;
    Ok(printed)
}
