//! The state of the bus, and its changes.

ghost use Rattle.std.specs.Prelude.{◌≡◌, ◌≢◌, ◌%◌, ℕ, false, true, Some, None, IfOk, IfErr, OnErr, Ok, Err};
ghost use Rattle.mdb_bus.specs.inner.PlaceBytes.{HasBegun, HasBegun-prop};
ghost use Rattle.mdb_bus.specs.shared.Step.{word_in};
ghost use Rattle.mdb_bus.specs.shared.Leads.{IsWord, rule_of as rule_of_lem};

use super::act::Act;
use super::begun::Begun;
use super::effect::Effect;
use super::fault::Rule;
use super::format::read_as;
use super::levels::Levels;
use super::phase::Phase;
use super::scope::Beginning;
use super::spelled::Spelled;
use mdb_msgs::{Command, MsgFault, Reply, command_of, laws, polled};
use mdb_words::Event;
use std::mem;

/// The state of the bus.
///
/// Bytes, command and reply stay in place until the next ones, so that a step writes only what it
/// changes.
#[derive(Drop)]
pub struct Place {
    /// The phase.
    pub phase: Phase,
    /// The bytes so far of the block that was begun last: the controller's or the peripheral's.
    pub bytes: Begun,
    /// The command that was asked last.
    pub command: Command,
    /// The last reply.
    pub last_reply: Spelled,
    ghost begun: { HasBegun phase bytes } by { HasBegun-prop phase bytes },
}

impl Place {
    ghost use Rattle.mdb_words.specs.Block.{block_of};
    ghost use Rattle.mdb_msgs.specs.Commands.{Spells};
    ghost use Rattle.mdb_bus.specs.ActLists as lists;
    ghost use Rattle.mdb_bus.specs.declared.act.Act.TheVariants as acts;
    ghost use Rattle.mdb_bus.specs.Bus.{ended_act, position_at};
    ghost use Rattle.mdb_bus.specs.shared.Step as step;
    ghost use Rattle.mdb_bus.specs.shared.Step.{EachStep};
    ghost use Rattle.mdb_bus.specs.shared.Leads.{Belongs, HasAdvanced, IsAt, IsBreak, IsTaken, MayAsk, MayRepeat, MayReply};

    /// Goes a step, and answers whether it ends an act, which it then puts into `act`. What a reply
    /// that has ended says decides of its step, so `end_reply` goes it.
    #[inline(always)]
    pub(crate) fn advance(&mut self, effect: Effect, row: &Event, act: &mut Act) -> bool
        requires belongs { Belongs self.old.phase self.old.bytes row.now effect }
        requires other { effect ≢ Effect.Reply }
        ensures advanced { EachStep effect row.now (λ next. IsAt (position_at self.old) next
            → HasAdvanced (position_at self.old) next (position_at self.new)
            (ended_act result act.new)) }
        ensures none { result ≡ false → act.new ≡ act.old }
    {
        match effect {
            Effect::AskByte => {
                self.add_to_ask(byte_in(row));
                false
            }
            Effect::Ask => self.end_ask(act),
            Effect::Foreign => self.open_foreign(act),
            Effect::Ack => self.end_by_ack(act),
            Effect::Nak => self.end_by_nak(act),
            Effect::ReplyByte => {
                self.add_to_reply(byte_in(row));
                false
            }
            Effect::Reply => unreachable!(),
            Effect::VmcAck => self.acknowledge(act),
            Effect::VmcNak => self.refuse(act),
            Effect::VmcRet => self.return_reply(act),
            Effect::RepeatWord => {
                self.add_to_repeat();
                false
            }
            Effect::Repeat => self.end_repeat(act),
            Effect::Break => self.end_by_break(row, act),
        }
    }

    /// A foreign block is opened, or goes on.
    // Not inlined, like its siblings below that few rows need: an act is large to make.
    #[inline(never)]
    fn open_foreign(&mut self, act: &mut Act) -> bool
        ensures advanced { HasAdvanced (position_at self.old) step.Foreign (position_at self.new)
            (ended_act result act.new) }
        ensures none { result ≡ false → act.new ≡ act.old }
    {
        self.phase = Phase::InForeign;
        act.note(Act::Foreign)
    }

    /// A break has ended what was open.
    #[inline(never)]
    fn end_by_break(&mut self, row: &Event, act: &mut Act) -> bool
        requires { IsBreak row.now }
        ensures advanced { (at length : ℕ) → row.now ≡ Event.Break at length
            → HasAdvanced (position_at self.old) (step.Break length) (position_at self.new)
            (ended_act result act.new) }
        ensures none { result ≡ false → act.new ≡ act.old }
    {
        let Event::Break { length, .. } = *row else {
            unreachable!();
        };
        self.phase = Phase::Quiet;
        act.note(Act::Break(length.value()))
    }

    /// Adds a byte to the controller's block, or begins one with it.
    fn add_to_ask(&mut self, byte: u8)
        requires { MayAsk self.old.phase self.old.bytes byte }
        ensures { HasAdvanced (position_at self.old) (step.AskByte byte)
            (position_at self.new) None }
    {
        match self.phase {
            Phase::InAsk => self.bytes.push(byte),
            _ => {
                self.phase = Phase::InAsk;
                self.bytes.restart(byte);
            }
        }
    }

    /// The controller's block has ended.
    #[inline(always)]
    fn end_ask(&mut self, act: &mut Act) -> bool
        requires asking { self.old.phase ≡ Phase.InAsk }
        requires spelled { (command : Command) × Spells command (block_of self.old.bytes) }
        ensures advanced { (command : Command) → IsAt (position_at self.old) (step.Ask command)
            → HasAdvanced (position_at self.old) (step.Ask command) (position_at self.new)
            (ended_act result act.new) }
        ensures none { result ≡ false → act.new ≡ act.old }
    {
        laws::block_has_one_command();
        // A POLL, which most asks are, is known without a call.
        if let Some(device) = polled(self.bytes.as_slice()) {
            return self.ask(device.poll(), act);
        }
        let command = command_of(self.bytes.as_slice()).unwrap();
        self.ask(command, act)
    }

    /// The controller has asked a command.
    #[inline(always)]
    fn ask(&mut self, command: Command, act: &mut Act) -> bool
        ensures asked { position_at self.new ≡ lists.Asked command }
        ensures ended { ended_act result act.new ≡ Some (acts.Ask command) }
        ensures ends { result ≡ true }
    {
        self.phase = Phase::Asked;
        self.command = command;
        act.note(Act::Ask(command))
    }

    /// Adds a byte to the reply, or begins one with it.
    fn add_to_reply(&mut self, byte: u8)
        requires { MayReply self.old.phase self.old.bytes }
        ensures { HasAdvanced (position_at self.old) (step.ReplyByte byte)
            (position_at self.new) None }
    {
        match self.phase {
            Phase::InReply => self.bytes.push(byte),
            _ => {
                self.phase = Phase::InReply;
                self.bytes.restart(byte);
            }
        }
    }

    /// The peripheral acknowledges the command.
    #[inline(always)]
    fn end_by_ack(&mut self, act: &mut Act) -> bool
        requires { self.old.phase ≡ Phase.Asked }
        ensures advanced { HasAdvanced (position_at self.old) step.Ack (position_at self.new)
            (ended_act result act.new) }
        ensures none { result ≡ false → act.new ≡ act.old }
    {
        self.phase = Phase::Quiet;
        act.note(Act::Ack(self.command))
    }

    /// The peripheral refuses the command.
    #[inline(never)]
    fn end_by_nak(&mut self, act: &mut Act) -> bool
        requires { self.old.phase ≡ Phase.Asked }
        ensures advanced { HasAdvanced (position_at self.old) step.Nak (position_at self.new)
            (ended_act result act.new) }
        ensures none { result ≡ false → act.new ≡ act.old }
    {
        self.phase = Phase::Quiet;
        act.note(Act::Nak(self.command))
    }

    /// The reply has ended, with the right length and sum: takes it, if it can be read and what it
    /// says is followed, and puts the act into `act`. Else both are as they were.
    // Inlined, like what it calls, so that a reply is moved less often.
    #[inline(always)]
    pub(crate) fn end_reply(
        &mut self,
        begins: &Beginning,
        levels: Levels,
        act: &mut Act,
    ) -> Result<(), Rule>
        requires { self.old.phase ≡ Phase.InReply }
        ensures taken { IfOk result (λ _.
            IsTaken begins.now (position_at self.old) levels (position_at self.new) (Ok act.new)) }
        ensures rule { IfErr result (λ rule.
            IsTaken begins.now (position_at self.old) levels (position_at self.new) (Err rule)) }
        ensures unchanged { OnErr result (self.new ≡ self.old) }
        ensures untouched { OnErr result (act.new ≡ act.old) }
    {
        let format = levels.format(begins, self.command);
        let reply = match read_as(format, &self.command, self.bytes.as_slice()) {
            Ok(reply) => reply,
            Err(fault) => return Err(rule_of(fault)),
        };
        if !levels.fit(begins.profile(), self.command, &reply) {
            return Err(Rule::Profile);
        }
        *act = Act::Reply(self.command, reply.copy());
        self.phase = Phase::Replied;
        self.last_reply = Spelled {
            reply,
            bytes: self.bytes.copy(),
        };
        Ok(())
    }

    /// The controller acknowledges the reply.
    #[inline(never)]
    fn acknowledge(&mut self, act: &mut Act) -> bool
        requires { self.old.phase ≡ Phase.Replied }
        ensures advanced { HasAdvanced (position_at self.old) step.VmcAck (position_at self.new)
            (ended_act result act.new) }
        ensures none { result ≡ false → act.new ≡ act.old }
    {
        self.phase = Phase::Quiet;
        act.note(Act::VmcAck(self.command, self.settled()))
    }

    /// The controller didn't receive the reply well.
    #[inline(never)]
    fn refuse(&mut self, act: &mut Act) -> bool
        requires { self.old.phase ≡ Phase.Replied }
        ensures advanced { HasAdvanced (position_at self.old) step.VmcNak (position_at self.new)
            (ended_act result act.new) }
        ensures none { result ≡ false → act.new ≡ act.old }
    {
        self.phase = Phase::Quiet;
        act.note(Act::VmcNak(self.command, self.settled()))
    }

    /// The last reply, which is moved out: no phase asks for it once it was answered.
    #[inline(always)]
    fn settled(&mut self) -> Reply
        ensures reply { result ≡ self.old.last_reply.reply }
        ensures phase { self.new.phase ≡ self.old.phase }
        ensures command { self.new.command ≡ self.old.command }
    {
        let Spelled { reply, .. } = mem::replace(&mut self.last_reply, Spelled::placeholder());
        reply
    }

    /// The controller asks for the reply again.
    #[inline(never)]
    fn return_reply(&mut self, act: &mut Act) -> bool
        requires { self.old.phase ≡ Phase.Replied }
        ensures advanced { HasAdvanced (position_at self.old) step.VmcRet (position_at self.new)
            (ended_act result act.new) }
        ensures none { result ≡ false → act.new ≡ act.old }
    {
        self.phase = Phase::Returned;
        act.note(Act::VmcRet(self.command, self.last_reply.reply.copy()))
    }

    /// A word of the repeat, which has more to come.
    fn add_to_repeat(&mut self)
        requires { MayRepeat self.old.phase }
        ensures { (word : ℕ) → IsAt (position_at self.old) (step.RepeatWord word)
            → HasAdvanced (position_at self.old) (step.RepeatWord word)
            (position_at self.new) None }
    {
        match self.phase {
            Phase::InRepeat(said) => self.phase = Phase::InRepeat(said + 1),
            _ => self.phase = Phase::InRepeat(1),
        }
    }

    /// The repeat has ended.
    #[inline(never)]
    fn end_repeat(&mut self, act: &mut Act) -> bool
        requires { (said : ℕ) × (self.old.phase ≡ Phase.InRepeat said) }
        ensures advanced { HasAdvanced (position_at self.old) step.Repeat (position_at self.new)
            (ended_act result act.new) }
        ensures none { result ≡ false → act.new ≡ act.old }
    {
        self.phase = Phase::Replied;
        act.note(Act::Repeat(self.command, self.last_reply.reply.copy()))
    }
}

/// The eight data bits of a row's word.
#[inline(always)]
fn byte_in(row: &Event) -> u8
    requires { IsWord row.now }
    ensures { result ≡ word_in row.now % 256 }
{
    let Event::Word { word, .. } = *row else {
        unreachable!();
    };
    word.byte()
}

/// The rule that a block breaks whose content can't be read.
fn rule_of(fault: MsgFault) -> Rule
    ensures { result ≡ rule_of_lem fault }
{
    match fault {
        MsgFault::Length => Rule::Length,
        MsgFault::Message => Rule::Message,
        MsgFault::Profile => Rule::Profile,
        MsgFault::Answer => Rule::Answer,
    }
}
