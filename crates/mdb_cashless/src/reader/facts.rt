//! What counts of the acts so far for a reader.

ghost use Rattle.std.specs.Prelude.{◌≡◌, ◌≤◌, length, List, Some};
ghost use Rattle.mdb_cashless.specs.ReaderFacts.{effect_of_own};

use super::messages::{ReaderActivity, Said, messages_of};
use super::transaction::{Transaction, transaction_of};
use super::unit::own;
use arrayvec::ArrayVec;
use mdb_bus::{Act, Beginning};
use mdb_machine::past::{Effect, Past};
use mdb_msgs::{Command, ReaderCommand, ReaderConfig, ReaderUnit, Reply};

/// What counts of the acts so far for a reader (this profile): a running value, which doesn't grow
/// with them.
#[derive(Drop)]
pub struct ReaderFacts {
    /// The last config message.
    pub(crate) config: Option<ReaderConfig>,
    /// The last transaction command that the controller sent.
    pub(crate) asked: Option<Transaction>,
    /// The last transaction that the reader took.
    pub(crate) taken: Option<Transaction>,
    /// The amount of the last approval, in units of the scale factor, where there was one.
    pub(crate) amount: Option<u16>,
    /// The reset message, and the last kept list.
    pub(crate) past: Past<ReaderActivity, 35>,
}

impl ReaderFacts {
    ghost use Rattle.std.specs.Prelude.{◌≤◌, None, length};
    ghost use Rattle.mdb_msgs.specs.Setups.{config_known};
    ghost use Rattle.mdb_bus.specs.declared.act.Act.TheVariants as acts;
    ghost use Rattle.mdb_machine.specs.Known.{known_before};
    ghost use Rattle.mdb_machine.specs.PastValues.{first_past, past_in};
    ghost use Rattle.mdb_cashless.specs.Reader.{taken as answered};
    ghost use Rattle.mdb_cashless.specs.ReaderMessages.{messages_of};
    ghost use Rattle.mdb_machine.specs.Past.{or_else};
    ghost use Rattle.mdb_msgs.specs.declared.reply.reader.ReaderMsg.{ReaderMsg};
    ghost use Rattle.mdb_cashless.specs.inner.ReaderSaid.{IsSaid};
    ghost use Rattle.mdb_cashless.specs.ReaderValues.{facts_in, powered, taken, told, told_in, told_with};
    ghost use Rattle.mdb_cashless.specs.inner.Guesses.{keeping};
    ghost use Rattle.mdb_cashless.specs.Transactions.{transaction_of as transaction};

    /// The facts after no act, or what is known of them, where a recording begins so. Unknown facts
    /// are irrelevant.
    pub(crate) fn start(begins: &Beginning, unit: ReaderUnit) -> ReaderFacts
        ensures config { result.config
            ≡ known_before (λ setups. config_known setups unit) begins.now }
        ensures asked { result.asked ≡ None }
        ensures taken { result.taken ≡ None }
        ensures amount { result.amount ≡ None }
        ensures past { past_in result.past ≡ first_past begins.now }
    {
        match begins {
            Beginning::PowerOn(_) => ReaderFacts {
                config: None,
                asked: None,
                taken: None,
                amount: None,
                past: Past::start(),
            },
            Beginning::Joined(setups, _) => ReaderFacts {
                config: setups.config(unit),
                asked: None,
                taken: None,
                amount: None,
                past: Past::running(),
            },
        }
    }

    /// The same facts again.
    pub fn copy(&self) -> ReaderFacts
        ensures { result ≡ self.now }
    {
        ReaderFacts {
            config: self.config,
            asked: self.asked,
            taken: self.taken,
            amount: self.amount,
            past: self.past.copy(),
        }
    }

    /// The same facts, with another guess of the last transaction command that was sent.
    pub(crate) fn asking(&self, asked: Option<Transaction>) -> ReaderFacts
        ensures { facts_in result ≡ record (facts_in self.now) { asked = asked } }
    {
        let mut facts = self.copy();
        facts.asked = asked;
        facts
    }

    /// The same facts, with another guess of the last transaction that the reader took.
    pub(crate) fn taking(&self, taken: Option<Transaction>) -> ReaderFacts
        ensures { facts_in result ≡ record (facts_in self.now) { taken = taken } }
    {
        let mut facts = self.copy();
        facts.taken = taken;
        facts
    }

    /// The same facts, with another guess of the last kept list.
    pub(crate) fn keeping(&self, kept: &[ReaderActivity]) -> ReaderFacts
        requires { length kept.now ≤ 35 }
        ensures { facts_in result ≡ keeping (facts_in self.now) kept.now }
    {
        let mut facts = self.copy();
        facts.past.last_kept = list_of(kept);
        facts
    }

    /// Notes what an act tells.
    // Inlined, so that an act of another device costs little more than the look at whose it is.
    #[inline(always)]
    pub(crate) fn note(&mut self, unit: ReaderUnit, act: &Act)
        ensures { told_in self.new ≡ told_with unit act.now (told_in self.old) }
    {
        match act {
            Act::Ask(command) => self.ask(unit, command),
            Act::Ack(command) => self.acknowledge(unit, command),
            Act::Reply(command, reply) => self.reply(unit, command, reply),
            Act::Break(_) => self.power_on(),
            _ => {}
        }
    }

    /// The controller asks.
    #[inline(always)]
    fn ask(&mut self, unit: ReaderUnit, command: &Command)
        ensures { told_in self.new
            ≡ told_with unit (acts.Ask command.now) (told_in self.old) }
    {
        if let Some(command) = own(unit, command) {
            if let Some(transaction) = transaction_of(command) {
                self.asked = Some(transaction);
            }
        }
    }

    /// A device acknowledges.
    #[inline(always)]
    fn acknowledge(&mut self, unit: ReaderUnit, command: &Command)
        ensures { told_in self.new
            ≡ told_with unit (acts.Ack command.now) (told_in self.old) }
    {
        if let Some(command) = own(unit, command) {
            self.take(command);
        }
    }

    /// The reader takes a command.
    #[inline(always)]
    fn take(&mut self, command: ReaderCommand)
        ensures { told_in self.new ≡ taken (Some command) (told_in self.old) }
    {
        self.past.take(effect_of(command));
        match command {
            ReaderCommand::Reset => self.taken = None,
            _ => self.note_taken(command),
        }
    }

    /// The reader takes a command that isn't RESET.
    #[inline(always)]
    fn note_taken(&mut self, command: ReaderCommand)
        ensures { self.new
            ≡ record self.old { taken = or_else (transaction command) self.old.taken } }
    {
        if let Some(transaction) = transaction_of(command) {
            self.taken = Some(transaction);
        }
    }

    /// A break puts the reader into its power-on state.
    fn power_on(&mut self)
        ensures { told_in self.new ≡ powered (told_in self.old) }
    {
        self.past.power_on();
        self.taken = None;
    }

    /// A device replies.
    #[inline(always)]
    fn reply(&mut self, unit: ReaderUnit, command: &Command, reply: &Reply)
        ensures { told_in self.new
            ≡ told_with unit (acts.Reply command.now reply.now) (told_in self.old) }
    {
        if let Some(command) = own(unit, command) {
            self.answer(command, reply);
        }
    }

    /// The reader replies.
    #[inline(never)]
    fn answer(&mut self, command: ReaderCommand, reply: &Reply)
        ensures { told_in self.new
            ≡ told (messages_of reply.now)
            (taken (answered command reply.now) (told_in self.old)) }
    {
        let mut said = Said::nothing();
        said.read(messages_of(reply));
        if !said.refused {
            self.take(command);
        }
        self.note_said(said);
    }

    /// Notes what the messages of a reply say.
    #[inline(always)]
    fn note_said(&mut self, said: Said)
        ensures { (messages : List ReaderMsg) → IsSaid said messages
            → told_in self.new ≡ told messages (told_in self.old) }
    {
        self.config = said.config.or(self.config);
        self.amount = said.amount.or(self.amount);
        if said.begins {
            self.taken = None;
        }
        self.past.keep(said.summary);
    }
}

/// What a command is to the reader that takes it.
fn effect_of(command: ReaderCommand) -> Effect
    ensures { result ≡ effect_of_own (Some command) }
{
    match command {
        ReaderCommand::Reset => Effect::Reset,
        _ => Effect::Other,
    }
}

/// A list of so few messages.
fn list_of(kept: &[ReaderActivity]) -> ArrayVec<ReaderActivity, 35>
    requires { length kept.now ≤ 35 }
    ensures { result.items ≡ kept.now }
{
    let mut list = ArrayVec::new();
    let _ = list.try_extend_from_slice(kept);
    list
}
