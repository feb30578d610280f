//! A controller that doesn't wait for an answer.

ghost use Rattle.std.specs.Prelude.{◌≡◌, ◌⊎◌};
ghost use Rattle.mdb_bus.specs.ExtendedHaste as spec;

use super::fault::{Blame, LinkFault, Rule};
use super::gaps::is_sooner_than;
use mdb_words::{Answer, Event, Line, NEW_BLOCK_GAP_MIN};

/// Whether an answer may still come after a row, where it was so before.
#[inline(always)]
pub(crate) fn awaited_after(row: &Event, before: bool) -> bool
    ensures { result ≡ spec.awaited_after row.now before }
{
    match *row {
        Event::Word { line, word, .. } => match line {
            Line::Controller => word.marked() || before || word.byte() == Answer::Ret.byte(),
            Line::Peripheral => false,
        },
        Event::Break { .. } => false,
    }
}

/// Whether the controller is in haste after a row, where it was so before.
#[inline(always)]
pub(crate) fn haste_after(awaited: bool, last: &Option<Event>, row: &Event, before: bool) -> bool
    ensures { result ≡ spec.haste_after awaited last.now row.now before }
{
    match *row {
        Event::Word { line, word, .. } if line == Line::Controller && word.marked() => {
            awaited && is_sooner_than(last, row, NEW_BLOCK_GAP_MIN)
        }
        Event::Word { .. } => before,
        Event::Break { .. } => false,
    }
}

/// Whether haste of the controller excuses a row that breaks a rule.
fn is_excused(row: &Event, rule: Rule) -> bool
    ensures { result ≡ spec.is_excused row.now rule }
{
    match *row {
        Event::Word { line, .. } => match line {
            Line::Controller => matches!(rule, Rule::Spacing),
            Line::Peripheral => !matches!(rule, Rule::Order | Rule::Profile),
        },
        Event::Break { .. } => false,
    }
}

/// The fault that counts for a fault of a row: in haste that the controller was early.
pub(crate) fn counted_in(haste: bool, row: &Event, fault: LinkFault) -> LinkFault
    ensures counted { result ≡ spec.counted_in haste row.now fault }
    ensures either { (result ≡ fault) ⊎ (result.rule ≡ Rule.Early) }
{
    if haste && is_excused(row, fault.rule) {
        LinkFault {
            rule: Rule::Early,
            blame: Blame::Controller,
        }
    } else {
        fault
    }
}
