//! Why a sum of a recording that lies in memory as text has its bound.

ghost use Rattle.std.specs.Prelude.{IfErr, IfOk, Err, Ok};
ghost use Rattle.csv.specs.Reading.{default_config, records, strip_bom};
ghost use Rattle.mdb_bus.specs.Scopes.{power_on};
ghost use Rattle.mdb_explain.specs.Explain.{IsExplainText};
ghost use Rattle.mdb_follow.specs.declared.follower.TheConstants.{ROWS_MAX};
ghost use Rattle.mdb_text.specs.declared.outcome.Outcome.{Outcome};
ghost use Rattle.mdb_verdict.specs.Verdict.{IsAnswer};

use mdb_explain::explain;
use mdb_follow::Goal;
use mdb_verdict::RunFault;
use std::alloc::Global;

/// The text that `mdbcheck explain` prints: of a possible recording the marks that lead to a bound,
/// and then its rows.
///
/// # Errors
///
/// Why there is no verdict.
pub fn explained(alloc: Global, text: &[u8], goal: &Goal) -> Result<Vec<u8>, RunFault>
    ensures explained { IfOk result (λ explained. (outcome : Outcome)
        × IsAnswer power_on ROWS_MAX (records default_config (strip_bom text.now)) (Ok outcome)
        × IsExplainText power_on goal.now (records default_config (strip_bom text.now)) outcome
        explained.items) }
    ensures fault { IfErr result (λ fault.
        IsAnswer power_on ROWS_MAX (records default_config (strip_bom text.now)) (Err fault)) }
{
    let mut explained = Vec::new(alloc);
    explain(alloc, text, &mut explained, goal)?;
    Ok(explained)
}
