//! The best ways of one device and the controller to each state that is possible now.

ghost use Rattle.std.specs.Prelude.{◌≡◌, ◌<◌, ◌+◌, ◌^◌, ℕ, List, [], ◌∷◌, ◌++◌, true};
ghost use Rattle.std.specs.Prelude.{Contains, IfOk, IfSome, length};
ghost use Rattle.std.specs.Bool.{OnFalse, OnTrue};
ghost use Rattle.mdb_bus.specs.declared.act.Act.{Act};
ghost use Rattle.mdb_bus.specs.declared.scope.Beginning.TheVariants.{PowerOn};
ghost use Rattle.mdb_bus.specs.declared.scope.Profile.{Profile};
ghost use Rattle.mdb_bus.specs.ActLists.{Piece, Whole, acts_of, events_of};
ghost use Rattle.mdb_machine.specs.Choices.{CanStand};
ghost use Rattle.mdb_machine.specs.Pair.{IsActOf};
ghost use Rattle.mdb_words.specs.declared.event.Event.{Event};
ghost use Rattle.mdb_follow.specs.Choosing.{Choices, Follows};
ghost use Rattle.mdb_run_search.specs.Marks.{marks_at};
ghost use Rattle.mdb_follow.specs.Sums.{Sums};
ghost use Rattle.mdb_run_search.specs.declared.explain.best.Best.{Best};
ghost use Rattle.mdb_run_search.specs.declared.explain.chains.Link.{Link};
ghost use Rattle.mdb_run_search.specs.inner.Chains.{IsChain, KeepChains};
ghost use Rattle.mdb_run_search.specs.inner.Paths.{AllRest, AreBelow, AreEntriesWithin, AreLed};
ghost use Rattle.mdb_run_search.specs.inner.Paths.{ArePaths, AreStarts};
ghost use Rattle.mdb_run_search.specs.inner.Paths.{LinksGoOnFrom, HasAsGood, HasCodeAt, IsBestOf};
ghost use Rattle.mdb_run_search.specs.inner.Paths.{IsEntryWithin, TakesIn, TakesSteps};
ghost use Rattle.mdb_run_search.specs.declared.explain.best.Weight.{Weight};

use super::best::{Best, Weight, marks_of};
use super::chains::Chains;
use mdb_bus::{Act, Beginning, Profile};
use mdb_machine::{Choice, Pair, other_choice};
use std::alloc::{AllocError, Global};
use std::mem;

/// The best ways of one device and the controller, in a recording that begins at power-on.
///
/// `N` is the number of the pair's states.
#[derive(Drop)]
pub(crate) struct Paths<F: Drop, const N: usize> {
    /// What is known after the acts so far.
    facts: F,
    /// The states that are possible now, by their codes, each with the best way there.
    entries: Vec<(usize, Best)>,
    /// Room for those after the next act.
    next: Room<N>,
}

/// Room for entries while they are made.
#[derive(Drop)]
struct Room<const N: usize> {
    entries: Vec<(usize, Best)>,
    /// Where the entry of each code stands. Under a code that has none there may be anything.
    places: [usize; N],
}

/// The paths through no act, by a profile.
///
/// # Errors
///
/// Memory was refused.
pub(crate) fn start<P: Pair, const N: usize>(
    alloc: Global,
    profile: Profile,
) -> Result<Paths<P::Facts, N>, AllocError>
    requires { N ≡ P.CODES }
    ensures stands { IfOk result (λ paths. (weight : Weight) (links : List Link)
        → ArePaths (P.stands_for (PowerOn profile)) P.code_of P.device (P.machine (PowerOn profile))
        weight links [] paths) }
    ensures within { IfOk result (λ paths. (links : List Link)
        → AreEntriesWithin P.CODES 0 links paths.entries.items) }
{
    let entries = starts::<P>(alloc, profile)?;
    let facts = P::facts_start(&Beginning::PowerOn(profile));
    Ok(Paths {
        facts,
        entries,
        next: Room {
            entries: Vec::new(alloc),
            places: [0; N],
        },
    })
}

/// The entries of the states in which the pair may start, by a profile.
///
/// # Errors
///
/// Memory was refused.
fn starts<P: Pair>(alloc: Global, profile: Profile) -> Result<Vec<(usize, Best)>, AllocError>
    ensures { IfOk result (λ entries. AreStarts P.CODES P.code_of (P.machine (PowerOn profile))
        P.CODES entries.items) }
{
    let mut entries = Vec::new(alloc);
    for code in 0..P::CODES {
        if P::may_start(&Beginning::PowerOn(profile), P::state(code)) {
            entries.push((code, Best::NOTHING))?;
        }
    }
    Ok(entries)
}

/// Leads paths over an act that ends at a row. Where no way leads over it, it answers `false`; the
/// caller has met the offence before.
///
/// # Errors
///
/// Memory was refused.
pub(crate) fn lead<P: Pair, const N: usize>(
    paths: &mut Paths<P::Facts, N>,
    chains: &mut Chains,
    weight: &Weight,
    act: &Act,
    row: u64,
) -> Result<bool, AllocError>
    requires size { N ≡ P.CODES }
    requires stands { (profile : Profile) × (acts : List Act)
        × P.stands_for (PowerOn profile) paths.old.facts acts }
    requires within { AreEntriesWithin P.CODES (2 ^ 62) chains.old.links.items
        paths.old.entries.items }
    ensures led { IfOk result (λ goes. OnTrue goes ((profile : Profile) (pieces : List Piece)
        (events : List Event) → row ≡ length (events_of pieces ++ events)
        → ArePaths (P.stands_for (PowerOn profile)) P.code_of P.device (P.machine (PowerOn profile))
        weight.now chains.old.links.items pieces paths.old
        → ArePaths (P.stands_for (PowerOn profile)) P.code_of P.device (P.machine (PowerOn profile))
        weight.now chains.new.links.items (Whole act.now events ∷ pieces) paths.new)) }
    ensures none { IfOk result (λ goes. OnFalse goes ((profile : Profile) (pieces : List Piece)
        → ArePaths (P.stands_for (PowerOn profile)) P.code_of P.device (P.machine (PowerOn profile))
        weight.now chains.old.links.items pieces paths.old
        → (choices : Choices (act.now ∷ acts_of pieces)) (state : P.State) (sums : Sums)
        → Follows (P.machine (PowerOn profile)) (act.now ∷ acts_of pieces) choices state sums
        → ⊥)) }
    ensures within { IfOk result (λ _. (limit : ℕ)
        → AreEntriesWithin P.CODES limit chains.old.links.items paths.old.entries.items
        → AreEntriesWithin P.CODES (limit + 2 ^ 32) chains.new.links.items
        paths.new.entries.items) }
    ensures kept { KeepChains chains.old.links.items chains.new.links.items }
{
    if matters::<P, N>(act, paths) {
        fill::<P, N>(
            &paths.facts,
            act,
            row,
            weight,
            &paths.entries,
            &mut paths.next,
            chains,
        )?;
        if paths.next.entries.is_empty() {
            return Ok(false);
        }
        mem::swap(&mut paths.entries, &mut paths.next.entries);
    }
    P::learn(&mut paths.facts, act);
    Ok(true)
}

/// Whether an act may matter to paths: where it doesn't, it leaves the state of each entry, and the
/// sums.
#[inline(always)]
fn matters<P: Pair, const N: usize>(act: &Act, paths: &Paths<P::Facts, N>) -> bool
    requires { AreBelow P.CODES paths.now.entries.items }
    ensures own { OnTrue result (IsActOf P.device act.now) }
    ensures still { OnFalse result ((profile : Profile)
        → AllRest P.code_of (P.machine (PowerOn profile)) act.now paths.now.entries.items) }
{
    if !P::concerns(act) {
        return false;
    }
    if all_rest::<P>(act, &paths.entries) {
        return false;
    }
    true
}

/// Whether an act leaves the states of all entries, and the sums.
fn all_rest<P: Pair>(act: &Act, entries: &[(usize, Best)]) -> bool
    requires { AreBelow P.CODES entries.now }
    ensures { OnTrue result ((profile : Profile)
        → AllRest P.code_of (P.machine (PowerOn profile)) act.now entries.now) }
{
    for (code, _) in entries {
        if !P::rests(act, P::state(*code)) {
            return false;
        }
    }
    true
}

/// The best of all entries; the one of no act where there is none.
pub(crate) fn best_of<F: Drop, const N: usize>(paths: &Paths<F, N>) -> Best
    ensures { (entry : ℕ × Best) → Contains paths.now.entries.items entry
        → IsBestOf paths.now.entries.items result }
{
    let Some(((_, first), rest)) = paths.entries.split_first() else {
        return Best::NOTHING;
    };
    let mut best = *first;
    for (_, other) in rest {
        if best.is_worse_than(other) {
            best = *other;
        }
    }
    best
}

/// Makes the entries after an act that ends at a row from those before it.
///
/// # Errors
///
/// Memory was refused.
fn fill<P: Pair, const N: usize>(
    facts: &P::Facts,
    act: &Act,
    row: u64,
    weight: &Weight,
    from: &[(usize, Best)],
    room: &mut Room<N>,
    chains: &mut Chains,
) -> Result<(), AllocError>
    requires size { N ≡ P.CODES }
    requires settled { P.settled facts.now act.now ≡ true }
    requires within { AreEntriesWithin P.CODES (2 ^ 62) chains.old.links.items from.now }
    ensures led { IfOk result (λ _. (profile : Profile) (acts : List Act)
        → P.stands_for (PowerOn profile) facts.now acts
        → AreLed P.CODES (CanStand act.now) P.code_of
        ((P.machine (PowerOn profile)).Step acts act.now) weight.now row
        chains.old.links.items chains.new.links.items from.now
        room.new.entries.items) }
    ensures kept { KeepChains chains.old.links.items chains.new.links.items }
{
    room.entries.clear();
    for entry in from {
        take_steps::<P, N>(facts, act, row, weight, entry, room, chains)?;
    }
    Ok(())
}

/// Takes in what the steps by an act lead to from an entry, under each choice that can stand on it.
///
/// # Errors
///
/// Memory was refused.
fn take_steps<P: Pair, const N: usize>(
    facts: &P::Facts,
    act: &Act,
    row: u64,
    weight: &Weight,
    entry: &(usize, Best),
    room: &mut Room<N>,
    chains: &mut Chains,
) -> Result<(), AllocError>
    requires size { N ≡ P.CODES }
    requires settled { P.settled facts.now act.now ≡ true }
    requires within { IsEntryWithin P.CODES (2 ^ 62) chains.old.links.items entry.now }
    ensures takes { IfOk result (λ _. (profile : Profile) (acts : List Act)
        → P.stands_for (PowerOn profile) facts.now acts
        → TakesSteps P.CODES (CanStand act.now) P.code_of
        ((P.machine (PowerOn profile)).Step acts act.now) weight.now row chains.old.links.items
        chains.new.links.items entry.now room.old.entries.items room.new.entries.items) }
    ensures kept { KeepChains chains.old.links.items chains.new.links.items }
{
    take_step::<P, N>(facts, act, row, weight, Choice::Plain, entry, room, chains)?;
    // Where the choice is irrelevant, another choice leads nowhere else, by a mark more.
    if !P::heeds_choice(act, P::state(entry.0)) {
        return Ok(());
    }
    if let Some(choice) = other_choice(act) {
        take_step::<P, N>(facts, act, row, weight, choice, entry, room, chains)?;
    }
    Ok(())
}

/// Takes in what the step by an act, if there is one, leads to from an entry, under a choice.
///
/// # Errors
///
/// Memory was refused.
fn take_step<P: Pair, const N: usize>(
    facts: &P::Facts,
    act: &Act,
    row: u64,
    weight: &Weight,
    choice: Choice,
    entry: &(usize, Best),
    room: &mut Room<N>,
    chains: &mut Chains,
) -> Result<(), AllocError>
    requires size { N ≡ P.CODES }
    requires settled { P.settled facts.now act.now ≡ true }
    requires can { CanStand act.now choice }
    requires within { IsEntryWithin P.CODES (2 ^ 62) chains.old.links.items entry.now }
    ensures takes { IfOk result (λ _. (profile : Profile) (acts : List Act)
        → P.stands_for (PowerOn profile) facts.now acts
        → TakesSteps P.CODES (λ one. one ≡ choice) P.code_of
        ((P.machine (PowerOn profile)).Step acts act.now) weight.now row chains.old.links.items
        chains.new.links.items entry.now room.old.entries.items room.new.entries.items) }
    ensures kept { KeepChains chains.old.links.items chains.new.links.items }
{
    let Some((next, gains)) = P::step(facts, act, entry.0, choice) else {
        return Ok(());
    };
    let value = entry.1.value + weight.of(&gains);
    take_in(room, chains, &entry.1, row, choice, next, value)?;
    Ok(())
}

/// Takes in a way that goes on from a best one with a choice at a row: as the entry of its code, or
/// in place of one that is worse. A link is made only where it is taken in.
///
/// # Errors
///
/// Memory was refused.
fn take_in<const N: usize>(
    room: &mut Room<N>,
    chains: &mut Chains,
    before: &Best,
    row: u64,
    choice: Choice,
    code: usize,
    value: i64,
) -> Result<(), AllocError>
    requires code { code < N }
    requires few { before.now.marks < 2 ^ 63 }
    requires chain { IsChain chains.old.links.items before.now.chain }
    ensures takes { IfOk result (λ _. TakesIn
        (LinksGoOnFrom chains.old.links.items chains.new.links.items before.now row choice code
        value)
        room.old.entries.items room.new.entries.items) }
    ensures has { IfOk result (λ _. HasAsGood room.new.entries.items code value
        (before.now.marks + length (marks_at row choice))) }
    ensures kept { KeepChains chains.old.links.items chains.new.links.items }
{
    let marks = before.marks + marks_of(choice);
    match room.place_of(code) {
        Some(place) => {
            if !room.entries[place].1.is_beaten_by(value, marks) {
                return Ok(());
            }
            let chain = chains.extend(before.chain, row, choice)?;
            room.entries[place] = (
                code,
                Best {
                    value,
                    marks,
                    chain,
                },
            );
        }
        None => {
            let chain = chains.extend(before.chain, row, choice)?;
            room.places[code] = room.entries.len();
            room.entries.push((
                code,
                Best {
                    value,
                    marks,
                    chain,
                },
            ))?;
        }
    }
    Ok(())
}

impl<const N: usize> Room<N> {
    /// Where the entry of a code stands; `None` where there is none.
    fn place_of(&self, code: usize) -> Option<usize>
        requires { code < N }
        ensures { IfSome result (HasCodeAt self.now.entries.items code) }
    {
        let place = self.places[code];
        if place < self.entries.len() && self.entries[place].0 == code {
            Some(place)
        } else {
            None
        }
    }
}
