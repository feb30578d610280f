//! Words that answer a command, or a reply.

ghost use Rattle.std.specs.Prelude.{◌<◌, ℕ, List, IfOk};
ghost use Rattle.mdb_words.specs.declared.event.Event.{Event};
ghost use Rattle.mdb_msgs.specs.declared.command.Command.{Command};
ghost use Rattle.mdb_msgs.specs.declared.reply.Reply.{Reply};
ghost use Rattle.mdb_bus.specs.declared.levels.Levels.{Levels};
ghost use Rattle.mdb_bus.specs.declared.scope.Scope.{Scope};
ghost use Rattle.mdb_bus.specs.ActLists as lists;
ghost use Rattle.mdb_bus.specs.LinkFaults.{OutOfOrder};
ghost use Rattle.mdb_bus.specs.shared.Leads.{Belongs, HasEffectBy};

use crate::effect::Effect;
use crate::fault::Rule;
use crate::gaps::{in_answer_time, word_row};
use crate::phase::Phase;
use crate::scope::Profile;
use mdb_msgs::Command;
use mdb_words::{Answer, Event, Line, Time, Word};

/// A peripheral's first word in answer to a command.
pub(crate) fn answer(
    times: Profile,
    command: &Command,
    last: &Option<Event>,
    at: Time,
    word: Word,
) -> Result<Effect, Rule>
    requires { OutOfOrder last.now (Event.Word at Line.Peripheral word) → ⊥ }
    ensures effect { (scope : Scope) (levels : Levels)
        → HasEffectBy times (record {
          scope = scope;
          position = lists.Asked command.now;
          last = last.now;
          levels = levels;
        })
        (Event.Word at Line.Peripheral word) result }
    ensures belongs { (bytes : List ℕ)
        → IfOk result (Belongs Phase.Asked bytes (Event.Word at Line.Peripheral word)) }
{
    let row = word_row(at, Line::Peripheral, word);
    in_answer_time(times, last, &row)?;
    if word.marked() {
        match Answer::of(word.byte()) {
            Some(Answer::Ack) => Ok(Effect::Ack),
            Some(Answer::Nak) => Ok(Effect::Nak),
            Some(Answer::Ret) => Err(Rule::Answer),
            None => Err(Rule::Answer),
        }
    } else if command.may_have_data() {
        Ok(Effect::ReplyByte)
    } else {
        Err(Rule::Answer)
    }
}

/// An unmarked word of the controller in answer to a reply.
pub(crate) fn answer_reply(
    times: Profile,
    last: &Option<Event>,
    at: Time,
    word: Word,
) -> Result<Effect, Rule>
    requires in_order { OutOfOrder last.now (Event.Word at Line.Controller word) → ⊥ }
    requires unmarked { word < 256 }
    ensures effect { (scope : Scope) (levels : Levels) (command : Command) (reply : Reply)
        → HasEffectBy times (record {
          scope = scope;
          position = lists.Replied command reply;
          last = last.now;
          levels = levels;
        })
        (Event.Word at Line.Controller word) result }
    ensures belongs { (bytes : List ℕ) (row : Event)
        → IfOk result (Belongs Phase.Replied bytes row) }
{
    let row = word_row(at, Line::Controller, word);
    in_answer_time(times, last, &row)?;
    match Answer::of(word.byte()) {
        Some(Answer::Ack) => Ok(Effect::VmcAck),
        Some(Answer::Nak) => Ok(Effect::VmcNak),
        Some(Answer::Ret) => Ok(Effect::VmcRet),
        None => Err(Rule::Answer),
    }
}
