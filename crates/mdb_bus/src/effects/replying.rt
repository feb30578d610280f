//! Words inside a peripheral's block.

ghost use Rattle.std.specs.Prelude.{◌<◌, ◌≤◌, ℕ, List, IfOk, IsErr};
ghost use Rattle.mdb_words.specs.declared.event.Event.{Event};
ghost use Rattle.mdb_msgs.specs.declared.command.Command.{Command};
ghost use Rattle.mdb_msgs.specs.declared.reply.Reply.{Reply};
ghost use Rattle.mdb_bus.specs.declared.levels.Levels.{Levels};
ghost use Rattle.mdb_bus.specs.declared.scope.Profile.{Profile as Prof};
ghost use Rattle.mdb_bus.specs.declared.scope.Scope.{Scope};
ghost use Rattle.mdb_bus.specs.ActLists as lists;
ghost use Rattle.mdb_bus.specs.LinkFaults.{OutOfOrder};
ghost use Rattle.mdb_bus.specs.shared.Leads.{Belongs, HasEffectBy, IsReplyEnd};

use crate::begun::Begun;
use crate::effect::Effect;
use crate::fault::Rule;
use crate::gaps::{in_block_time, is_later_than, word_row};
use crate::phase::Phase;
use crate::scope::Profile;
use mdb_msgs::{Command, laws};
use mdb_words::{BLOCK_GAP_MAX, Event, Line, Time, Word, sum_of};

/// A peripheral's word inside its reply.
#[inline(always)]
pub(crate) fn go_on_replying(
    times: Profile,
    command: &Command,
    bytes: &Begun,
    last: &Option<Event>,
    at: Time,
    word: Word,
) -> Result<Effect, Rule>
    requires { OutOfOrder last.now (Event.Word at Line.Peripheral word) → ⊥ }
    ensures effect { (scope : Scope) (levels : Levels)
        → HasEffectBy times (record {
          scope = scope;
          position = lists.InReply command.now bytes.now;
          last = last.now;
          levels = levels;
        })
        (Event.Word at Line.Peripheral word) result }
    ensures belongs { IfOk result
        (Belongs Phase.InReply bytes.now (Event.Word at Line.Peripheral word)) }
{
    let row = word_row(at, Line::Peripheral, word);
    in_block_time(times, last, &row)?;
    laws::bytes_have_one_fault();
    laws::reply_has_no_fault();
    if word.marked() {
        end_of_reply_effect(command, bytes, word)
    } else if bytes.as_slice().len() < 35 {
        Ok(Effect::ReplyByte)
    } else {
        Err(Rule::Length)
    }
}

/// The marked word of a reply: its length and its sum.
fn end_of_reply_effect(command: &Command, bytes: &Begun, word: Word) -> Result<Effect, Rule>
    requires { 256 ≤ word }
    ensures ended { IsReplyEnd command.now bytes.now word result }
    ensures belongs { (row : Event) → IfOk result (Belongs Phase.InReply bytes.now row) }
{
    if !command.has_data_answer(bytes.as_slice().len()) {
        return Err(Rule::Length);
    }
    if word.byte() != sum_of(bytes.as_slice()) {
        return Err(Rule::Sum);
    }
    Ok(Effect::Reply)
}

/// A word of the controller inside a peripheral's block.
pub(crate) fn cut_in(last: &Option<Event>, at: Time, word: Word) -> Result<Effect, Rule>
    requires { OutOfOrder last.now (Event.Word at Line.Controller word) → ⊥ }
    ensures reply { (times : Prof) (scope : Scope) (levels : Levels) (command : Command)
        (bytes : List ℕ)
        → HasEffectBy times (record {
          scope = scope;
          position = lists.InReply command bytes;
          last = last.now;
          levels = levels;
        })
        (Event.Word at Line.Controller word) result }
    ensures repeat { (times : Prof) (scope : Scope) (levels : Levels) (command : Command)
        (reply : Reply) (words : List ℕ)
        → HasEffectBy times (record {
          scope = scope;
          position = lists.InRepeat command reply words;
          last = last.now;
          levels = levels;
        })
        (Event.Word at Line.Controller word) result }
    ensures refused { IsErr result }
{
    let row = word_row(at, Line::Controller, word);
    if is_later_than(last, &row, BLOCK_GAP_MAX) {
        Err(Rule::Spacing)
    } else {
        Err(Rule::Speaker)
    }
}
