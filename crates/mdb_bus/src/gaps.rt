//! The time between neighbouring rows.

ghost use Rattle.std.specs.Prelude.{◌≡◌, ◌<◌, ◌^◌, ◌↔◌, IsTrue, IfErr, IfSome, OnOk, false};
ghost use Rattle.mdb_bus.specs.declared.fault.Rule.TheVariants as rules;
ghost use Rattle.mdb_bus.specs.ActLists as lists;
ghost use Rattle.mdb_bus.specs.LinkFaults.{IsBefore, IsAfter, IsPast, OutOfOrder};
ghost use Rattle.mdb_bus.specs.Times.{answer_most, block_most};
ghost use Rattle.mdb_bus.specs.ExtendedTimes as spec;
ghost use Rattle.mdb_bus.specs.shared.Leads.{IsUntimely};

use super::fault::Rule;
use super::scope::Profile;
use mdb_words::{Event, Line, Time, WORD_GAP_MIN, Word, is_at_least, is_at_most};

/// The row of a word.
pub(crate) fn word_row(at: Time, line: Line, word: Word) -> Event
    ensures { result ≡ Event.Word at line word }
{
    Event::Word { at, line, word }
}

/// Whether a row doesn't start after the row before it.
pub(crate) fn is_out_of_order(last: &Option<Event>, row: &Event) -> bool
    ensures { IsTrue result ↔ OutOfOrder last.now row.now }
{
    match last {
        None => false,
        Some(before) => row.start() <= before.start(),
    }
}

/// Whether a row starts less than `least` after the row before it.
pub(crate) fn is_sooner_than(last: &Option<Event>, row: &Event, least: u64) -> bool
    requires { least < 2 ^ 32 }
    ensures { IsTrue result ↔ IsBefore least last.now row.now }
{
    match last {
        None => false,
        Some(before) => !is_at_least(before, row, least),
    }
}

/// Whether a row starts more than `most` after the row before it.
pub(crate) fn is_later_than(last: &Option<Event>, row: &Event, most: u64) -> bool
    requires { most < 2 ^ 32 }
    ensures { IsTrue result ↔ IsAfter most last.now row.now }
{
    match last {
        None => false,
        Some(before) => !is_at_most(before, row, most),
    }
}

/// Whether a row starts more than `most` after the row before it, where there is such a limit.
#[inline(always)]
fn is_past(last: &Option<Event>, row: &Event, most: Option<u64>) -> bool
    requires { IfSome most (λ most. most < 2 ^ 32) }
    ensures past { IsTrue result ↔ IsPast most last.now row.now }
    ensures same { result ≡ spec.is_past most last.now row.now }
{
    match most {
        None => false,
        Some(most) => is_later_than(last, row, most),
    }
}

/// Refuses a row that is no answer in its time: it comes too soon, or too late.
#[inline(always)]
pub(crate) fn in_answer_time(times: Profile, last: &Option<Event>, row: &Event) -> Result<(), Rule>
    ensures timely { OnOk result (lists.InAnswerTime times last.now row.now) }
    ensures near { OnOk result (spec.is_past (answer_most times) last.now row.now ≡ false) }
    ensures untimely { IfErr result
        (IsUntimely rules.Late (answer_most times) last.now row.now) }
{
    if is_sooner_than(last, row, WORD_GAP_MIN) {
        return Err(Rule::Early);
    }
    if is_past(last, row, times.answer_most()) {
        return Err(Rule::Late);
    }
    Ok(())
}

/// Refuses a row that doesn't go on with a block in its time: it comes too soon, or too far from
/// the word before it.
#[inline(always)]
pub(crate) fn in_block_time(times: Profile, last: &Option<Event>, row: &Event) -> Result<(), Rule>
    ensures timely { OnOk result (lists.InBlockTime times last.now row.now) }
    ensures near { OnOk result (spec.is_past (block_most times) last.now row.now ≡ false) }
    ensures untimely { IfErr result
        (IsUntimely rules.Spacing (block_most times) last.now row.now) }
{
    if is_sooner_than(last, row, WORD_GAP_MIN) {
        return Err(Rule::Early);
    }
    if is_past(last, row, times.block_most()) {
        return Err(Rule::Spacing);
    }
    Ok(())
}
