//! The states that are possible now, with what the sums may be.

ghost use Rattle.std.specs.Prelude.{◌≡◌, ◌<◌, ◌+◌, ◌^◌, ◌↔◌, ◌⊎◌, ℕ, List, [], ◌∷◌, None};
ghost use Rattle.std.specs.Prelude.{Contains, Some, IfSome, length, true};
ghost use Rattle.std.specs.Bool.{OnFalse, OnTrue};
ghost use Rattle.mdb_bus.specs.declared.act.Act.{Act};
ghost use Rattle.mdb_bus.specs.declared.scope.Beginning.{Beginning};
ghost use Rattle.mdb_machine.specs.declared.choice.Choice.TheVariants.{Plain};
ghost use Rattle.mdb_machine.specs.declared.gains.Gains.{Gains};
ghost use Rattle.mdb_machine.specs.SmallGains.{IsSmall};
ghost use Rattle.mdb_machine.specs.Pair.{IsMove, IsStep};
ghost use Rattle.mdb_follow.specs.Arrivals.{Arrives};
ghost use Rattle.mdb_follow.specs.Limits.{IsCellWithin, IsTableWithin};
ghost use Rattle.mdb_follow.specs.Cells.{IsCell};
ghost use Rattle.mdb_follow.specs.Sums.{Sums};
ghost use Rattle.mdb_follow.specs.Tables.{ArrivesAnywhere, ArrivesAt, Bounds, IsTable};
ghost use Rattle.mdb_follow.specs.declared.cell.Cell.{Cell};
ghost use Rattle.mdb_follow.specs.inner.Entries.{AllRest, AreBelow, IsKeyed, IsPlaced, LeadBy};

use crate::Cell;
use crate::entries::steps::{add_all, add_steps, lead_only};
use crate::entries::{Entries, join_all};
use mdb_bus::{Act, Beginning};
use mdb_machine::{Choice, Gains, Pair, other_choice};
use std::marker::Model;

/// The states of a pair that are possible now, by their codes, each with what the sums may be.
///
/// `N` is the number of the pair's states. A clause sees the codes with their cells as a list.
#[derive(Drop)]
pub struct Table<const N: usize> {
    /// The entries, or room for the next ones.
    one: Entries<N>,
    /// Room for the next entries, or the entries.
    other: Entries<N>,
    /// Whether the entries are in `other`.
    turned: bool,
    /// Where the entry of each code stands, while entries are made.
    places: [usize; N],
}

impl<const N: usize> Model for Table<N> {
    ghost use Rattle.std.specs.Prelude.{ℕ, List, if◌then◌else◌};
    ghost use Rattle.mdb_follow.specs.declared.cell.Cell.{Cell};
    ghost use Rattle.mdb_follow.specs.inner.Entries.{AreBelow};

    ghost Value = { List (ℕ × Cell) };

    ghost view = { λ t. if t.turned then t.other else t.one };

    ghost invariant = { λ t. AreBelow N (if t.turned then t.other else t.one) };
}

impl<const N: usize> Table<N> {
    /// The table after no act, of a recording that begins so: the states in which the pair may
    /// start, with all sums 0.
    pub fn start<P: Pair>(begins: &Beginning) -> Table<N>
        requires { N ≡ P.CODES }
        ensures table { IsTable P.code_of (P.machine begins.now) [] result }
        ensures within { IsTableWithin 0 result }
    {
        let mut one = Entries::new();
        add_starts::<P, N>(begins, &mut one);
        Table {
            one,
            other: Entries::new(),
            turned: false,
            places: [0; N],
        }
    }

    /// Leads the table over an act, with the facts after the acts before it. Where no way through
    /// the acts leads over this one too, it answers `false`, and the table stays as it was.
    // Inlined, so that an act that is no matter of the pair costs little more than the look at it.
    #[inline(always)]
    pub fn advance<P: Pair>(&mut self, facts: &P::Facts, act: &Act) -> bool
        requires size { N ≡ P.CODES }
        requires within { IsTableWithin (2 ^ 62) self.old }
        ensures table { OnTrue result ((begins : Beginning) (acts : List Act)
            → P.stands_for begins facts.now acts
            → IsTable P.code_of (P.machine begins) acts self.old
            → IsTable P.code_of (P.machine begins) (act.now ∷ acts) self.new) }
        ensures none { OnFalse result ((begins : Beginning) (acts : List Act)
            → P.stands_for begins facts.now acts
            → IsTable P.code_of (P.machine begins) acts self.old
            → (state : P.State) (sums : Sums)
            → Arrives (P.machine begins) (act.now ∷ acts) state sums → ⊥) }
        ensures same { OnFalse result (self.new ≡ self.old) }
        ensures within { (limit : ℕ) → IsTableWithin limit self.old
            → IsTableWithin (limit + 2 ^ 32) self.new }
    {
        if !P::concerns(act) {
            return true;
        }
        if self.rests::<P>(act) {
            return true;
        }
        if P::settles(facts, act) {
            self.replace_by_steps::<P>(facts, act)
        } else {
            self.replace_by_all_steps::<P>(facts, act)
        }
    }

    /// Replaces the entries by those after an act that the facts settle, as `advance` does.
    #[inline(never)]
    fn replace_by_steps<P: Pair>(&mut self, facts: &P::Facts, act: &Act) -> bool
        requires size { N ≡ P.CODES }
        requires settled { P.settled facts.now act.now ≡ true }
        requires within { IsTableWithin (2 ^ 62) self.old }
        ensures table { OnTrue result ((begins : Beginning) (acts : List Act)
            → P.stands_for begins facts.now acts
            → IsTable P.code_of (P.machine begins) acts self.old
            → IsTable P.code_of (P.machine begins) (act.now ∷ acts) self.new) }
        ensures none { OnFalse result ((begins : Beginning) (acts : List Act)
            → P.stands_for begins facts.now acts
            → IsTable P.code_of (P.machine begins) acts self.old
            → (state : P.State) (sums : Sums)
            → Arrives (P.machine begins) (act.now ∷ acts) state sums → ⊥) }
        ensures same { OnFalse result (self.new ≡ self.old) }
        ensures within { (limit : ℕ) → IsTableWithin limit self.old
            → IsTableWithin (limit + 2 ^ 32) self.new }
    {
        if self.turned {
            if self.other.len() == 1 {
                return lead_alone::<P, N>(facts, act, &mut self.other);
            }
            fill::<P, N>(
                facts,
                act,
                self.other.as_slice(),
                &mut self.one,
                &mut self.places,
            );
            if self.one.is_empty() {
                return false;
            }
            self.turned = false;
        } else {
            if self.one.len() == 1 {
                return lead_alone::<P, N>(facts, act, &mut self.one);
            }
            fill::<P, N>(
                facts,
                act,
                self.one.as_slice(),
                &mut self.other,
                &mut self.places,
            );
            if self.other.is_empty() {
                return false;
            }
            self.turned = true;
        }
        true
    }

    /// Replaces the entries by those after an act, settled or not, as `advance` does.
    #[inline(never)]
    fn replace_by_all_steps<P: Pair>(&mut self, facts: &P::Facts, act: &Act) -> bool
        requires size { N ≡ P.CODES }
        requires within { IsTableWithin (2 ^ 62) self.old }
        ensures table { OnTrue result ((begins : Beginning) (acts : List Act)
            → P.stands_for begins facts.now acts
            → IsTable P.code_of (P.machine begins) acts self.old
            → IsTable P.code_of (P.machine begins) (act.now ∷ acts) self.new) }
        ensures none { OnFalse result ((begins : Beginning) (acts : List Act)
            → P.stands_for begins facts.now acts
            → IsTable P.code_of (P.machine begins) acts self.old
            → (state : P.State) (sums : Sums)
            → Arrives (P.machine begins) (act.now ∷ acts) state sums → ⊥) }
        ensures same { OnFalse result (self.new ≡ self.old) }
        ensures within { (limit : ℕ) → IsTableWithin limit self.old
            → IsTableWithin (limit + 2 ^ 32) self.new }
    {
        if self.turned {
            fill_all::<P, N>(
                facts,
                act,
                self.other.as_slice(),
                &mut self.one,
                &mut self.places,
            );
            if self.one.is_empty() {
                return false;
            }
            self.turned = false;
        } else {
            fill_all::<P, N>(
                facts,
                act,
                self.one.as_slice(),
                &mut self.other,
                &mut self.places,
            );
            if self.other.is_empty() {
                return false;
            }
            self.turned = true;
        }
        true
    }

    /// Whether an act leaves all states that are possible now, and the sums.
    fn rests<P: Pair>(&self, act: &Act) -> bool
        requires { N ≡ P.CODES }
        ensures { OnTrue result ((begins : Beginning)
            → AllRest P.code_of (P.machine begins) act.now self.now) }
    {
        // Chosen without a branch, and one loop for both: which of the two it is can't be foreseen.
        let entries = if self.turned { &self.other } else { &self.one };
        all_rest::<P>(act, entries.as_slice())
    }

    /// What the sums may be, whatever the state is.
    pub fn ranges<P: Pair>(&self) -> Cell
        ensures exact { (begins : Beginning) (acts : List Act)
            → IsTable P.code_of (P.machine begins) acts self.now
            → IsCell (ArrivesAnywhere (Arrives (P.machine begins) acts)) result }
        ensures within { (limit : ℕ) → IsTableWithin limit self.now → IsCellWithin limit result }
    {
        if self.turned {
            join_all(self.other.as_slice())
        } else {
            join_all(self.one.as_slice())
        }
    }
}

/// Whether an act leaves the states of all entries, and the sums.
fn all_rest<P: Pair>(act: &Act, entries: &[(usize, Cell)]) -> bool
    requires { AreBelow P.CODES entries.now }
    ensures { OnTrue result ((begins : Beginning)
        → AllRest P.code_of (P.machine begins) act.now entries.now) }
{
    for (code, _) in entries {
        if !P::rests(act, P::state(*code)) {
            return false;
        }
    }
    true
}

/// Puts the entries after an act that the facts settle in place of the only one before it. Where
/// there is none it answers `false`, and the entry stays.
fn lead_alone<P: Pair, const N: usize>(
    facts: &P::Facts,
    act: &Act,
    entries: &mut Entries<N>,
) -> bool
    requires size { N ≡ P.CODES }
    requires settled { P.settled facts.now act.now ≡ true }
    requires only { length entries.old ≡ 1 }
    requires below { AreBelow N entries.old }
    requires within { IsTableWithin (2 ^ 62) entries.old }
    ensures table { OnTrue result ((begins : Beginning) (acts : List Act)
        → P.stands_for begins facts.now acts
        → IsTable P.code_of (P.machine begins) acts entries.old
        → IsTable P.code_of (P.machine begins) (act.now ∷ acts) entries.new) }
    ensures none { OnFalse result ((begins : Beginning) (acts : List Act)
        → P.stands_for begins facts.now acts
        → IsTable P.code_of (P.machine begins) acts entries.old
        → (state : P.State) (sums : Sums)
        → Arrives (P.machine begins) (act.now ∷ acts) state sums → ⊥) }
    ensures same { OnFalse result (entries.new ≡ entries.old) }
    ensures below { AreBelow N entries.new }
    ensures within { (limit : ℕ) → IsTableWithin limit entries.old
        → IsTableWithin (limit + 2 ^ 32) entries.new }
{
    let code = entries.as_slice()[0].0;
    let plain = P::step(facts, act, code, Choice::Plain);
    let second = second_step::<P>(facts, act, code);
    lead_only(entries, &plain, &second)
}

/// Makes the entries after an act that the facts settle from those before it. What the places hold
/// at first is no matter.
fn fill<P: Pair, const N: usize>(
    facts: &P::Facts,
    act: &Act,
    from: &[(usize, Cell)],
    into: &mut Entries<N>,
    places: &mut [usize; N],
)
    requires size { N ≡ P.CODES }
    requires settled { P.settled facts.now act.now ≡ true }
    requires below { AreBelow N from.now }
    requires within { IsTableWithin (2 ^ 62) from.now }
    ensures table { (begins : Beginning) (acts : List Act)
        → P.stands_for begins facts.now acts
        → IsTable P.code_of (P.machine begins) acts from.now
        → Bounds (ArrivesAt P.code_of (Arrives (P.machine begins) (act.now ∷ acts)))
        into.new }
    ensures below { AreBelow N into.new }
    ensures within { (limit : ℕ) → IsTableWithin limit from.now
        → IsTableWithin (limit + 2 ^ 32) into.new }
{
    into.clear();
    for (code, cell) in from {
        // Its moves, without a list of them.
        let plain = P::step(facts, act, *code, Choice::Plain);
        let second = second_step::<P>(facts, act, *code);
        add_steps(into, places, cell, &plain, &second);
    }
}

/// Makes the entries after an act, settled or not, from those before it. What the places hold at
/// first is no matter.
fn fill_all<P: Pair, const N: usize>(
    facts: &P::Facts,
    act: &Act,
    from: &[(usize, Cell)],
    into: &mut Entries<N>,
    places: &mut [usize; N],
)
    requires size { N ≡ P.CODES }
    requires below { AreBelow N from.now }
    requires within { IsTableWithin (2 ^ 62) from.now }
    ensures table { (begins : Beginning) (acts : List Act)
        → P.stands_for begins facts.now acts
        → IsTable P.code_of (P.machine begins) acts from.now
        → Bounds (ArrivesAt P.code_of (Arrives (P.machine begins) (act.now ∷ acts)))
        into.new }
    ensures below { AreBelow N into.new }
    ensures within { (limit : ℕ) → IsTableWithin limit from.now
        → IsTableWithin (limit + 2 ^ 32) into.new }
{
    into.clear();
    for (code, cell) in from {
        add_all_steps::<P, N>(facts, act, *code, cell, into, places);
    }
}

/// Takes in the cells that all steps by an act, settled or not, lead to from a code with its cell.
fn add_all_steps<P: Pair, const N: usize>(
    facts: &P::Facts,
    act: &Act,
    code: usize,
    cell: &Cell,
    into: &mut Entries<N>,
    places: &mut [usize; N],
)
    requires size { N ≡ P.CODES }
    requires code { code < P.CODES }
    requires within { IsCellWithin (2 ^ 62) cell.now }
    requires keyed { IsKeyed N into.old }
    requires placed { IsPlaced into.old places.old }
    ensures entries { LeadBy N (λ moves. (begins : Beginning) (acts : List Act)
        → P.stands_for begins facts.now acts → (next : ℕ) (gains : Gains)
        → Contains moves (next, gains)
        ↔ IsMove act.now P.code_of ((P.machine begins).Step acts act.now) code next gains)
        into.old cell.now into.new }
    ensures keyed { IsKeyed N into.new }
    ensures placed { IsPlaced into.new places.new }
{
    let plain = P::steps(facts, act, code, Choice::Plain);
    add_all(into, places, cell, plain.as_slice());
    if let Some(choice) = other_choice(act) {
        let other = P::steps(facts, act, code, choice);
        add_all(into, places, cell, other.as_slice());
    }
}

/// Takes in an entry with all sums 0 for each state in which a pair may start.
fn add_starts<P: Pair, const N: usize>(begins: &Beginning, entries: &mut Entries<N>)
    requires size { N ≡ P.CODES }
    requires none { entries.old ≡ [] }
    ensures table { IsTable P.code_of (P.machine begins.now) [] entries.new }
    ensures below { AreBelow N entries.new }
    ensures within { IsTableWithin 0 entries.new }
{
    let nothing = Cell::NOTHING;
    for code in 0..N {
        if P::may_start(begins, P::state(code)) {
            entries.push(code, nothing);
        }
    }
}

/// The step that a settled act is by its other choice than the plain one, from the state of a code.
/// `None` where there is no such step, and it may be where the choice is irrelevant for the act.
// Not inlined, so that the step is made where it is looked at, and not moved there.
#[inline(never)]
fn second_step<P: Pair>(facts: &P::Facts, act: &Act, code: usize) -> Option<(usize, Gains)>
    requires code { code < P.CODES }
    requires settled { P.settled facts.now act.now ≡ true }
    ensures sound { (begins : Beginning) (acts : List Act)
        → P.stands_for begins facts.now acts → (next : ℕ) (gains : Gains)
        → result ≡ Some (next, gains)
        → IsMove act.now P.code_of ((P.machine begins).Step acts act.now) code next gains }
    ensures whole { (begins : Beginning) (acts : List Act)
        → P.stands_for begins facts.now acts → (next : ℕ) (gains : Gains)
        → IsMove act.now P.code_of ((P.machine begins).Step acts act.now) code next gains
        → (result ≡ Some (next, gains))
        ⊎ IsStep P.code_of ((P.machine begins).Step acts act.now Plain) code next gains }
    ensures below { IfSome result (λ move. (move.0 < P.CODES) × IsSmall move.1) }
{
    if P::heeds_choice(act, P::state(code)) {
        P::other_step(facts, act, code)
    } else {
        None
    }
}
