//! A device and the controller, as a follower follows them.

ghost use Rattle.std.specs.Prelude.{◌≡◌, ◌^◌, ℕ, List, [], IfOk, IfErr, OnErr};
ghost use Rattle.mdb_bus.specs.declared.act.Act.{Act};
ghost use Rattle.mdb_bus.specs.declared.scope.Beginning.{Beginning};
ghost use Rattle.mdb_follow.specs.Arrivals.{Arrives};
ghost use Rattle.mdb_follow.specs.Limits.{IsCellWithin};
ghost use Rattle.mdb_follow.specs.Offences.{HasNoStep};
ghost use Rattle.mdb_follow.specs.Cells.{IsCell};
ghost use Rattle.mdb_follow.specs.Sides.{IsSide};
ghost use Rattle.mdb_follow.specs.inner.SidesLed.{Follows, IsSideWithin};
ghost use Rattle.mdb_follow.specs.Tables.{ArrivesAnywhere};

use crate::{Cell, Table};
use mdb_bus::{Act, Beginning, Rule};
use mdb_machine::Pair;

/// A device and the controller, as a follower follows them: what is known after the acts so far,
/// the states that are possible now, and how many amounts without a value were told.
#[derive(Drop)]
pub(crate) struct Side<F: Drop, const N: usize> {
    pub(crate) facts: F,
    table: Table<N>,
    pub(crate) unvalued: u64,
}

/// The side after no act, of a recording that begins so.
pub(crate) fn start<P: Pair, const N: usize>(begins: &Beginning) -> Side<P::Facts, N>
    requires size { N ≡ P.CODES }
    requires none { P.unvalued begins.now [] ≡ 0 }
    ensures stands { IsSide (P.stands_for begins.now) P.code_of (P.machine begins.now)
        (P.unvalued begins.now) result [] }
    ensures within { IsSideWithin 0 result }
{
    Side {
        facts: P::facts_start(begins),
        table: Table::start::<P>(begins),
        unvalued: 0,
    }
}

/// Leads a side over an act.
///
/// # Errors
///
/// The rule of the device, where no way leads over the act. Then nothing changes.
// Not inlined: a caller that holds the four sides is too large to be inlined itself.
#[inline(never)]
pub(crate) fn lead<P: Pair, const N: usize>(
    side: &mut Side<P::Facts, N>,
    act: &Act,
    rule: Rule,
) -> Result<(), Rule>
    requires size { N ≡ P.CODES }
    requires within { IsSideWithin (2 ^ 62) side.old }
    ensures followed { IfOk result (λ _.
        Follows P.stands_for P.code_of P.machine P.unvalued side.old act.now side.new) }
    ensures none { OnErr result ((begins : Beginning) (acts : List Act)
        → IsSide (P.stands_for begins) P.code_of (P.machine begins) (P.unvalued begins) side.old
        acts → HasNoStep (P.machine begins) act.now acts) }
    ensures its { IfErr result (λ broken. broken ≡ rule) }
    ensures same { OnErr result (side.new ≡ side.old) }
{
    if !side.table.advance::<P>(&side.facts, act) {
        return Err(rule);
    }
    side.unvalued += P::unvalued_by(&side.facts, act);
    P::learn(&mut side.facts, act);
    Ok(())
}

/// What the sums of a side may be, whatever the state is.
pub(crate) fn ranges<P: Pair, const N: usize>(side: &Side<P::Facts, N>) -> Cell
    ensures exact { (begins : Beginning) (acts : List Act)
        → IsSide (P.stands_for begins) P.code_of (P.machine begins) (P.unvalued begins) side.now
        acts → IsCell (ArrivesAnywhere (Arrives (P.machine begins) acts)) result }
    ensures within { (limit : ℕ) → IsSideWithin limit side.now → IsCellWithin limit result }
{
    side.table.ranges::<P>()
}
