//! What steps make of entries: each leads a cell to the code that it goes to.

ghost use Rattle.std.specs.Prelude.{◌≡◌, ◌<◌, ◌^◌, [], ◌∷◌, ◌↔◌, ℕ, List, IsTrue, None, IfSome};
ghost use Rattle.std.specs.Prelude.{All, length};
ghost use Rattle.std.specs.Bool.{OnFalse, OnTrue};
ghost use Rattle.mdb_machine.specs.SmallGains.{IsSmall};
ghost use Rattle.mdb_machine.specs.declared.gains.Gains.{Gains};
ghost use Rattle.mdb_follow.specs.declared.cell.Cell.{Cell};
ghost use Rattle.mdb_follow.specs.Cells.{moved_cell};
ghost use Rattle.mdb_follow.specs.inner.Entries.{AreMoves, HasAt, IsKeyed, IsPlaced, LeadTo};
ghost use Rattle.mdb_follow.specs.inner.Entries.{moves_of, with_cell, with_moves};
ghost use Rattle.mdb_follow.specs.Limits.{IsCellWithin, IsTableWithin};

use super::Entries;
use crate::Cell;
use mdb_machine::Gains;

/// Whether the entry at a place has a code.
fn has_at(entries: &[(usize, Cell)], place: usize, code: usize) -> bool
    ensures { IsTrue result ↔ HasAt entries.now place code }
{
    place < entries.len() && entries[place].0 == code
}

/// Takes in one cell more, which is a cell with the gains of a step: joined to that of its code,
/// else as an entry of its own. The places of the entries are noted under their codes; what is
/// noted under other codes may be anything.
// The gains are added where the sums are written, and not beforehand.
fn add_cell<const N: usize>(
    entries: &mut Entries<N>,
    places: &mut [usize; N],
    code: usize,
    cell: &Cell,
    gains: &Gains,
)
    requires below { code < N }
    requires within { IsCellWithin (2 ^ 62) cell.now }
    requires small { IsSmall gains.now }
    requires keyed { IsKeyed N entries.old }
    requires placed { IsPlaced entries.old places.old }
    ensures entries { entries.new
        ≡ with_cell entries.old code (moved_cell cell.now gains.now) }
    ensures keyed { IsKeyed N entries.new }
    ensures placed { IsPlaced entries.new places.new }
{
    let place = places[code];
    if has_at(entries.as_slice(), place, code) {
        let joined = entries.as_slice()[place].1.joined(&cell.moved(gains));
        entries.set(place, code, joined);
    } else {
        places[code] = entries.len();
        entries.push(code, cell.moved(gains));
    }
}

/// Takes in the cell that a step from a cell leads to; `None` is no step.
// Inlined, like the next one, so that a step isn't copied to be looked at.
#[inline(always)]
fn add_step<const N: usize>(
    entries: &mut Entries<N>,
    places: &mut [usize; N],
    cell: &Cell,
    step: &Option<(usize, Gains)>,
)
    requires within { IsCellWithin (2 ^ 62) cell.now }
    requires step { IfSome step.now (λ move. (move.0 < N) × IsSmall move.1) }
    requires keyed { IsKeyed N entries.old }
    requires placed { IsPlaced entries.old places.old }
    ensures entries { entries.new
        ≡ with_moves entries.old cell.now (moves_of step.now) }
    ensures keyed { IsKeyed N entries.new }
    ensures placed { IsPlaced entries.new places.new }
{
    if let Some((next, gains)) = step {
        add_cell(entries, places, *next, cell, gains);
    }
}

/// Takes in the cells that two steps from a cell lead to, which may be the same step.
#[inline(always)]
pub(crate) fn add_steps<const N: usize>(
    entries: &mut Entries<N>,
    places: &mut [usize; N],
    cell: &Cell,
    one: &Option<(usize, Gains)>,
    other: &Option<(usize, Gains)>,
)
    requires within { IsCellWithin (2 ^ 62) cell.now }
    requires one { IfSome one.now (λ move. (move.0 < N) × IsSmall move.1) }
    requires other { IfSome other.now (λ move. (move.0 < N) × IsSmall move.1) }
    requires keyed { IsKeyed N entries.old }
    requires placed { IsPlaced entries.old places.old }
    ensures entries { (moves : List (ℕ × Gains)) × AreMoves moves one.now other.now
        × (entries.new ≡ with_moves entries.old cell.now moves) }
    ensures keyed { IsKeyed N entries.new }
    ensures placed { IsPlaced entries.new places.new }
{
    add_step(entries, places, cell, one);
    if one != other {
        add_step(entries, places, cell, other);
    }
}

/// Takes in the cells that steps from a cell lead to, of which several may be the same.
pub(crate) fn add_all<const N: usize>(
    entries: &mut Entries<N>,
    places: &mut [usize; N],
    cell: &Cell,
    steps: &[(usize, Gains)],
)
    requires within { IsCellWithin (2 ^ 62) cell.now }
    requires below { All (λ step. step.0 < N) steps.now }
    requires small { All (λ step. IsSmall step.1) steps.now }
    requires keyed { IsKeyed N entries.old }
    requires placed { IsPlaced entries.old places.old }
    ensures entries { entries.new ≡ with_moves entries.old cell.now steps.now }
    ensures keyed { IsKeyed N entries.new }
    ensures placed { IsPlaced entries.new places.new }
{
    for (code, gains) in steps {
        add_cell(entries, places, *code, cell, gains);
    }
}

/// Puts those that two steps from the only entry lead to in its place; the steps may be the same.
/// Where neither is a step it answers `false`, and the entry stays.
#[inline(always)]
pub(crate) fn lead_only<const N: usize>(
    entries: &mut Entries<N>,
    one: &Option<(usize, Gains)>,
    other: &Option<(usize, Gains)>,
) -> bool
    requires only { length entries.old ≡ 1 }
    requires within { IsTableWithin (2 ^ 62) entries.old }
    requires one { IfSome one.now (λ move. (move.0 < N) × IsSmall move.1) }
    requires other { IfSome other.now (λ move. (move.0 < N) × IsSmall move.1) }
    ensures led { OnTrue result ((entry : ℕ × Cell) → entries.old ≡ entry ∷ []
        → LeadTo entry.1 one.now other.now entries.new) }
    ensures some { OnTrue result (0 < length entries.new) }
    ensures none { OnFalse result ((one.now ≡ None) × (other.now ≡ None)) }
    ensures same { OnFalse result (entries.new ≡ entries.old) }
{
    match one {
        None => match other {
            None => return false,
            Some(step) => move_only(entries, step),
        },
        Some(step) => match other {
            Some(second) if step != second => branch_only(entries, *step, *second),
            _ => move_only(entries, step),
        },
    }
    true
}

/// Moves the only entry by a step from it.
#[inline(always)]
fn move_only<const N: usize>(entries: &mut Entries<N>, step: &(usize, Gains))
    requires only { length entries.old ≡ 1 }
    requires within { IsTableWithin (2 ^ 62) entries.old }
    requires small { IsSmall step.now.1 }
    ensures moved { (entry : ℕ × Cell) → entries.old ≡ entry ∷ []
        → entries.new ≡ with_moves [] entry.1 (step.now ∷ []) }
    ensures only { length entries.new ≡ 1 }
{
    let (code, gains) = step;
    let moved = entries.as_slice()[0].1.moved(gains);
    entries.set(0, *code, moved);
}

/// Puts the two that two steps from the only entry lead to in its place, or the one that both do.
// It takes the steps by value, so that its caller needn't lay them down where it doesn't call.
#[inline(never)]
fn branch_only<const N: usize>(entries: &mut Entries<N>, one: (usize, Gains), other: (usize, Gains))
    requires only { length entries.old ≡ 1 }
    requires within { IsTableWithin (2 ^ 62) entries.old }
    requires one { (one.0 < N) × IsSmall one.1 }
    requires other { (other.0 < N) × IsSmall other.1 }
    ensures moved { (entry : ℕ × Cell) → entries.old ≡ entry ∷ []
        → entries.new ≡ with_moves [] entry.1 (one ∷ other ∷ []) }
    ensures some { 0 < length entries.new }
{
    let second = entries.as_slice()[0].1.moved(&other.1);
    move_only(entries, &one);
    if one.0 == other.0 {
        let joined = entries.as_slice()[0].1.joined(&second);
        entries.set(0, one.0, joined);
    } else {
        entries.push(other.0, second);
    }
}
