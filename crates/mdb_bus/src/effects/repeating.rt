//! Words of a peripheral that sends its reply again.

ghost use Rattle.std.specs.Prelude.{◌<◌, ℕ, List, IfOk, take};
ghost use Rattle.mdb_words.specs.declared.event.Event.{Event};
ghost use Rattle.mdb_msgs.specs.declared.command.Command.{Command};
ghost use Rattle.mdb_bus.specs.declared.levels.Levels.{Levels};
ghost use Rattle.mdb_bus.specs.declared.scope.Scope.{Scope};
ghost use Rattle.mdb_bus.specs.Acts.{reply_words};
ghost use Rattle.mdb_bus.specs.ActLists as lists;
ghost use Rattle.mdb_bus.specs.LinkFaults.{OutOfOrder};
ghost use Rattle.mdb_bus.specs.shared.Leads.{Belongs, HasEffectBy};

use crate::effect::Effect;
use crate::fault::Rule;
use crate::gaps::{in_answer_time, in_block_time, word_row};
use crate::phase::Phase;
use crate::scope::Profile;
use crate::spelled::Spelled;
use mdb_words::{Event, Line, Time, Word};

/// The first word of a repeat.
pub(crate) fn begin_repeat(
    times: Profile,
    last_reply: &Spelled,
    last: &Option<Event>,
    at: Time,
    word: Word,
) -> Result<Effect, Rule>
    requires { OutOfOrder last.now (Event.Word at Line.Peripheral word) → ⊥ }
    ensures effect { (scope : Scope) (levels : Levels) (command : Command)
        → HasEffectBy times (record {
          scope = scope;
          position = lists.Returned command last_reply.now.reply;
          last = last.now;
          levels = levels;
        })
        (Event.Word at Line.Peripheral word) result }
    ensures belongs { (bytes : List ℕ) (row : Event)
        → IfOk result (Belongs Phase.Returned bytes row) }
{
    let row = word_row(at, Line::Peripheral, word);
    in_answer_time(times, last, &row)?;
    if last_reply.word(0) == Some(word) {
        Ok(Effect::RepeatWord)
    } else {
        Err(Rule::Same)
    }
}

/// A further word of a repeat, of which so many were said.
pub(crate) fn go_on_repeating(
    times: Profile,
    last_reply: &Spelled,
    said: u8,
    last: &Option<Event>,
    at: Time,
    word: Word,
) -> Result<Effect, Rule>
    requires { OutOfOrder last.now (Event.Word at Line.Peripheral word) → ⊥ }
    ensures effect { (scope : Scope) (levels : Levels) (command : Command)
        → HasEffectBy times
        (record {
          scope = scope;
          position = lists.InRepeat command last_reply.now.reply
              (take said (reply_words last_reply.now.reply));
          last = last.now;
          levels = levels;
        })
        (Event.Word at Line.Peripheral word) result }
    ensures belongs { (bytes : List ℕ) (row : Event)
        → IfOk result (Belongs (Phase.InRepeat said) bytes row) }
{
    let row = word_row(at, Line::Peripheral, word);
    in_block_time(times, last, &row)?;
    if last_reply.word(usize::from(said)) != Some(word) {
        return Err(Rule::Same);
    }
    if usize::from(said) < last_reply.bytes.as_slice().len() {
        Ok(Effect::RepeatWord)
    } else {
        Ok(Effect::Repeat)
    }
}
