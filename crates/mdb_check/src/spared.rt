//! Whether a no rests on the base profile's times alone.

ghost use Rattle.std.specs.Prelude.{◌≡◌, ◌↔◌, ◌∷◌, [], ◌++◌, IsTrue, List, Some, true};
ghost use Rattle.mdb_words.specs.declared.event.Event.{Event};
ghost use Rattle.mdb_bus.specs.ActLists.{Piece, events_of, last_of};
ghost use Rattle.mdb_bus.specs.Bus as links;
ghost use Rattle.mdb_bus.specs.Times as times;
ghost use Rattle.mdb_follow.specs.Follower.{HasAccepted, is_late, offence_of, scope_of};
ghost use Rattle.mdb_check.specs.Spared as spec;
ghost use Rattle.mdb_check.specs.Spared.{CouldBe, IsSpared, before_last};
ghost use Rattle.mdb_bus.specs.Pieces.{HasActList};

use super::beside::Spared;
use super::heeding::Met;
use mdb_bus::{Bus, Profile, Rule, Scope};
use mdb_follow::Follower;
use mdb_words::{Event, Line, SHORT_BREAK_MIN, Time, WORD_GAP_MIN, gap_of};

/// How long the row that was met takes, if the extended profile's times spare it. The follower has
/// met it.
pub(crate) fn spared(scope: &Scope, met: &Met, follower: Follower) -> Option<Spared>
    requires { scope_of follower ≡ scope.now }
    ensures { (rows : List Event) → HasAccepted follower rows
        → offence_of follower ≡ Some met.now.offence → met.now.last ≡ last_of rows
        → met.now.earlier ≡ before_last rows
        → IsSpared scope.now rows met.now.row met.now.offence.rule result }
{
    match scope.begins.profile() {
        Profile::Extended => None,
        Profile::Base => {
            let micros = time_of(met.offence.rule, &met.last, &met.row)?;
            if could_be(scope, met, follower.into_bus()) {
                Some(Spared {
                    micros,
                    after_ret: is_ret(&met.earlier, &met.last),
                })
            } else {
                None
            }
        }
    }
}

/// Whether the second of two rows is RET, where an answer is due after it.
fn is_ret(earlier: &Option<Event>, last: &Option<Event>) -> bool
    ensures { result ≡ spec.is_ret earlier.now last.now }
{
    match (earlier, last) {
        (Some(Event::Word { line: from, .. }), Some(Event::Word { line: to, .. })) => {
            matches!((from, to), (Line::Peripheral, Line::Controller))
        }
        _ => false,
    }
}

/// How long a row takes that breaks a rule, where the extended profile has no limit against it.
fn time_of(rule: Rule, last: &Option<Event>, row: &Event) -> Option<u64>
    ensures { result ≡ spec.time_of rule last.now row.now }
{
    if let (Rule::Break, Event::Break { length, .. }) = (rule, row) {
        if length.value() < SHORT_BREAK_MIN {
            return None;
        }
        return Some(length.value());
    }
    let Some(from) = last else {
        return None;
    };
    let gap = gap_of(from, row)?;
    if gap < rest_after(from) {
        None
    } else {
        Some(gap)
    }
}

/// How long a row rests after this one: after a break not at all.
fn rest_after(from: &Event) -> u64
    ensures { result ≡ times.rest_after (Some from.now) }
{
    match from {
        Event::Break { .. } => 0,
        Event::Word { .. } => WORD_GAP_MIN,
    }
}

/// Whether a row that breaks a rule of time could be at another time, where the bus is the one
/// before it, if it came too late.
fn could_be(scope: &Scope, met: &Met, before: Bus) -> bool
    ensures { (rows : List Event) (pieces : List Piece) → events_of pieces ≡ rows
        → links.scope_of before ≡ scope.now → met.now.last ≡ last_of rows
        → (is_late met.now.offence.rule ≡ true → links.StandsFor before pieces)
        → (IsTrue result ↔ CouldBe scope.now rows met.now.row met.now.offence.rule) }
{
    match met.offence.rule {
        Rule::Early => takes(Bus::scoped(scope), met.row),
        Rule::Late | Rule::Spacing => takes(before, sooner(&met.last, met.row)),
        Rule::Break => true,
        _ => false,
    }
}

/// Whether a bus takes a row.
fn takes(bus: Bus, row: Event) -> bool
    ensures { (pieces : List Piece) → links.StandsFor bus pieces
        → (IsTrue result ↔ HasActList (links.scope_of bus) (events_of pieces ++ row ∷ [])) }
{
    let mut bus = bus;
    bus.feed(row).is_ok()
}

/// The same word as soon as any word may come.
fn sooner(last: &Option<Event>, row: Event) -> Event
    ensures { result ≡ spec.sooner last.now row }
{
    match (last, row) {
        (Some(from), Event::Word { line, word, .. }) => Event::Word {
            at: soonest(from, &row),
            line,
            word,
        },
        _ => row,
    }
}

/// When a row starts, or before that, as soon as any word may come.
fn soonest(from: &Event, row: &Event) -> Time
    ensures { result ≡ spec.soonest from.now row.now }
{
    let at = row.start();
    match gap_of(from, row) {
        Some(gap) if gap > WORD_GAP_MIN => {
            let Some(sooner) = Time::new(at.value() - (gap - WORD_GAP_MIN)) else {
                unreachable!()
            };
            sooner
        }
        _ => at,
    }
}
