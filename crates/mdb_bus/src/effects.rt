//! What is made of a row: one small function for each place of the bus and each side.

ghost use Rattle.std.specs.Prelude.{◌≡◌, ℕ, List, IfOk};
ghost use Rattle.mdb_words.specs.declared.event.Event.{Event};
ghost use Rattle.mdb_bus.specs.declared.levels.Levels.{Levels};
ghost use Rattle.mdb_bus.specs.declared.phase.Phase.{Phase};
ghost use Rattle.mdb_bus.specs.Acts.{IsForeignWord};
ghost use Rattle.mdb_bus.specs.ActLists as lists;
ghost use Rattle.mdb_bus.specs.Bus.{position_at};
ghost use Rattle.mdb_bus.specs.LinkFaults.{OutOfOrder};
ghost use Rattle.mdb_bus.specs.declared.scope.Profile.{Profile as Prof};
ghost use Rattle.mdb_bus.specs.declared.scope.Scope.{Scope};
ghost use Rattle.mdb_bus.specs.shared.Leads.{Belongs, HasEffectBy, IsSound};

mod answering;
mod asking;
mod repeating;
mod replying;

use super::effect::Effect;
use super::fault::Rule;
use super::gaps::{is_out_of_order, is_sooner_than, word_row};
use super::phase::Phase;
use super::place::Place;
use super::scope::{Profile, Scope};
use super::times::rest_after;
use answering::{answer, answer_reply};
use asking::{begin_block, go_on_asking};
use mdb_msgs::laws;
use mdb_words::{Event, Line, Span, Time, Word};
use repeating::{begin_repeat, go_on_repeating};
use replying::{cut_in, go_on_replying};

/// What is made of a row, which comes after `last`, by the times of a profile.
#[inline(always)]
pub(crate) fn effect_of(
    times: Profile,
    scope: &Scope,
    place: &Place,
    last: &Option<Event>,
    row: &Event,
) -> Result<Effect, Rule>
    ensures effect { (levels : Levels) → IsSound scope.now (position_at place.now)
        → HasEffectBy times (record {
          scope = scope.now;
          position = position_at place.now;
          last = last.now;
          levels = levels;
        }) row.now result }
    ensures belongs { IfOk result (Belongs place.now.phase place.now.bytes row.now) }
{
    if is_out_of_order(last, row) {
        return Err(Rule::Order);
    }
    match *row {
        Event::Break { at, length } => break_effect(times, last, at, length),
        Event::Word { at, line, word } => match line {
            Line::Controller => controller_effect(times, scope, place, last, at, word),
            Line::Peripheral => peripheral_effect(times, place, last, at, word),
        },
    }
}

/// A break: it may come everywhere.
fn break_effect(
    times: Profile,
    last: &Option<Event>,
    at: Time,
    length: Span,
) -> Result<Effect, Rule>
    requires { OutOfOrder last.now (Event.Break at length) → ⊥ }
    ensures effect { (scope : Scope) (position : lists.Position) (levels : Levels)
        → HasEffectBy times (record {
          scope = scope;
          position = position;
          last = last.now;
          levels = levels;
        }) (Event.Break at length) result }
    ensures belongs { (here : Phase) (bytes : List ℕ)
        → IfOk result (Belongs here bytes (Event.Break at length)) }
{
    let row = Event::Break { at, length };
    if is_sooner_than(last, &row, rest_after(last)) {
        return Err(Rule::Early);
    }
    if length.value() < times.break_least() {
        return Err(Rule::Break);
    }
    Ok(Effect::Break)
}

/// A word of the controller.
#[inline(always)]
fn controller_effect(
    times: Profile,
    scope: &Scope,
    place: &Place,
    last: &Option<Event>,
    at: Time,
    word: Word,
) -> Result<Effect, Rule>
    requires { OutOfOrder last.now (Event.Word at Line.Controller word) → ⊥ }
    ensures effect { (levels : Levels) → IsSound scope.now (position_at place.now)
        → HasEffectBy times (record {
          scope = scope.now;
          position = position_at place.now;
          last = last.now;
          levels = levels;
        })
        (Event.Word at Line.Controller word) result }
    ensures belongs { IfOk result (Belongs place.now.phase place.now.bytes
        (Event.Word at Line.Controller word)) }
{
    laws::first_byte_tells_the_device();
    laws::first_two_bytes_tell_enable_options();
    match place.phase {
        Phase::Quiet => begin_block(scope, last, at, word, times.block_rest(place.phase, last)),
        Phase::InAsk => go_on_asking(times, scope, &place.bytes, last, at, word),
        Phase::Asked => begin_block(scope, last, at, word, times.block_rest(place.phase, last)),
        Phase::InReply => cut_in(last, at, word),
        Phase::Replied if word.marked() => {
            begin_block(scope, last, at, word, times.block_rest(place.phase, last))
        }
        Phase::Replied => answer_reply(times, last, at, word),
        Phase::Returned => begin_block(scope, last, at, word, times.block_rest(place.phase, last)),
        Phase::InRepeat(..) => cut_in(last, at, word),
        Phase::InForeign if word.marked() => {
            begin_block(scope, last, at, word, times.block_rest(place.phase, last))
        }
        Phase::InForeign => go_on_foreign(last, at, Line::Controller, word),
    }
}

/// A word of a peripheral.
#[inline(always)]
fn peripheral_effect(
    times: Profile,
    place: &Place,
    last: &Option<Event>,
    at: Time,
    word: Word,
) -> Result<Effect, Rule>
    requires { OutOfOrder last.now (Event.Word at Line.Peripheral word) → ⊥ }
    ensures effect { (scope : Scope) (levels : Levels)
        → HasEffectBy times (record {
          scope = scope;
          position = position_at place.now;
          last = last.now;
          levels = levels;
        })
        (Event.Word at Line.Peripheral word) result }
    ensures belongs { IfOk result (Belongs place.now.phase place.now.bytes
        (Event.Word at Line.Peripheral word)) }
{
    match place.phase {
        Phase::Quiet | Phase::InAsk | Phase::Replied => Err(Rule::Speaker),
        Phase::Asked => answer(times, &place.command, last, at, word),
        Phase::InReply => go_on_replying(times, &place.command, &place.bytes, last, at, word),
        Phase::Returned => begin_repeat(times, &place.last_reply, last, at, word),
        Phase::InRepeat(said) => go_on_repeating(times, &place.last_reply, said, last, at, word),
        Phase::InForeign => go_on_foreign(last, at, Line::Peripheral, word),
    }
}

/// A further word of foreign traffic.
fn go_on_foreign(last: &Option<Event>, at: Time, line: Line, word: Word) -> Result<Effect, Rule>
    requires in_order { OutOfOrder last.now (Event.Word at line word) → ⊥ }
    requires further { IsForeignWord (Event.Word at line word) }
    ensures effect { (times : Prof) (scope : Scope) (levels : Levels)
        → HasEffectBy times (record {
          scope = scope;
          position = lists.InForeign;
          last = last.now;
          levels = levels;
        })
        (Event.Word at line word) result }
    ensures belongs { (here : Phase) (bytes : List ℕ) (row : Event)
        → IfOk result (Belongs here bytes row) }
{
    let row = word_row(at, line, word);
    if is_sooner_than(last, &row, rest_after(last)) {
        Err(Rule::Early)
    } else {
        Ok(Effect::Foreign)
    }
}
