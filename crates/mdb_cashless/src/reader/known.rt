//! What is known of a reader after the acts so far.

ghost use Rattle.std.specs.Prelude.{◌≡◌};
ghost use Rattle.std.specs.Option.{is_some};
ghost use Rattle.mdb_machine.specs.Kept.{kept_of};
ghost use Rattle.mdb_machine.specs.Past.{unless_empty};
ghost use Rattle.mdb_machine.specs.PastValues.{from_power_on};
ghost use Rattle.mdb_cashless.specs.ReaderFacts as spec;
ghost use Rattle.mdb_cashless.specs.ReaderMessages.{parts_of};
ghost use Rattle.mdb_cashless.specs.ReaderValues as values;
ghost use Rattle.mdb_cashless.specs.Units as units;

use super::facts::ReaderFacts;
use super::messages::{Said, messages_of};
use super::taking::drops;
use super::transaction::{Transaction, transaction_of};
use super::unit::own;
use mdb_bus::{Act, Beginning};
use mdb_msgs::{Command, ReaderCommand, ReaderUnit, Reply};

/// What is known of a reader after the acts so far (this profile): a running value, which doesn't
/// grow with them. In a recording that begins in mid-session it may be less than all.
#[derive(Drop)]
pub struct ReaderKnown {
    /// The facts. Unknown facts are irrelevant.
    pub(crate) facts: ReaderFacts,
    /// Whether the last transaction command that the controller sent is known.
    pub(crate) knows_asked: bool,
    /// Whether the last transaction that the reader took is known.
    pub(crate) knows_taken: bool,
    /// Whether the last kept list is known.
    pub(crate) knows_kept: bool,
}

impl ReaderKnown {
    ghost use Rattle.std.specs.Prelude.{◌||◌, option_map, List, [], ◌∷◌};
    ghost use Rattle.mdb_bus.specs.declared.act.Act.{Act};
    ghost use Rattle.mdb_bus.specs.declared.scope.Beginning.{Beginning};
    ghost use Rattle.mdb_cashless.specs.ReaderFacts.{asked_by, known_of, parts_by, taken_told};
    ghost use Rattle.mdb_cashless.specs.ReaderValues.{known_in, known_with, settled};

    /// What is known after no act, where a recording begins so.
    pub(crate) fn start(begins: &Beginning, unit: ReaderUnit) -> ReaderKnown
        ensures { known_in result ≡ known_of begins.now unit [] }
    {
        let knows = is_power_on(begins);
        ReaderKnown {
            facts: ReaderFacts::start(begins, unit),
            knows_asked: knows,
            knows_taken: knows,
            knows_kept: knows,
        }
    }

    /// The decimal places of the reader's amounts: Z6 of its last config message, where one is
    /// known (MDB/ICP 4.3, cashless device).
    pub fn decimals(&self) -> Option<u8>
        ensures { result ≡ option_map (λ config. config.decimals) (known_in self.now).config }
    {
        self.facts.config.map(|config| config.decimals)
    }

    /// The reader's response time, in seconds: Z7 of its last config message, where one is known
    /// (MDB/ICP 4.3, cashless device).
    pub fn response_time(&self) -> Option<u8>
        ensures { result ≡ option_map (λ config. config.response) (known_in self.now).config }
    {
        self.facts.config.map(|config| config.response)
    }

    /// Takes one act more.
    // Inlined, so that an act of another device costs little more than the look at whose it is.
    #[inline(always)]
    pub(crate) fn learn(&mut self, unit: ReaderUnit, act: &Act)
        ensures { (begins : Beginning) (acts : List Act)
            → known_in self.old ≡ known_of begins unit acts
            → known_in self.new ≡ known_of begins unit (act.now ∷ acts) }
    {
        self.note(unit, act);
    }

    /// Notes what an act tells.
    #[inline(always)]
    fn note(&mut self, unit: ReaderUnit, act: &Act)
        ensures { known_in self.new ≡ known_with unit act.now (known_in self.old) }
    {
        self.note_known(unit, act);
        self.facts.note(unit, act);
    }

    /// Notes what an act makes known.
    #[inline(always)]
    fn note_known(&mut self, unit: ReaderUnit, act: &Act)
        ensures asked { self.new.knows_asked
            ≡ (self.old.knows_asked || is_some (asked_by unit act.now)) }
        ensures taken { self.new.knows_taken
            ≡ (self.old.knows_taken || is_some (taken_told unit act.now)) }
        ensures kept { self.new.knows_kept
            ≡ (self.old.knows_kept || is_some (unless_empty (kept_of (parts_by unit act.now)))) }
        ensures facts { self.new.facts ≡ self.old.facts }
    {
        if !(self.knows_asked & self.knows_taken & self.knows_kept) {
            self.note_more(unit, act);
        }
    }

    /// Notes what an act makes known, where not all is known.
    // Not inlined: from power-on it is never called.
    #[inline(never)]
    fn note_more(&mut self, unit: ReaderUnit, act: &Act)
        ensures asked { self.new.knows_asked
            ≡ (self.old.knows_asked || is_some (asked_by unit act.now)) }
        ensures taken { self.new.knows_taken
            ≡ (self.old.knows_taken || is_some (taken_told unit act.now)) }
        ensures kept { self.new.knows_kept
            ≡ (self.old.knows_kept || is_some (unless_empty (kept_of (parts_by unit act.now)))) }
        ensures facts { self.new.facts ≡ self.old.facts }
    {
        self.knows_asked |= asks(unit, act);
        self.knows_taken |= tells_taken(unit, act);
        self.knows_kept |= tells_kept(unit, act);
    }

    /// Whether a step by an act doesn't depend on what isn't known.
    #[inline(always)]
    pub(crate) fn settles(&self, unit: ReaderUnit, act: &Act) -> bool
        ensures { result ≡ settled unit self.now act.now }
    {
        match act {
            Act::Ask(command) => self.knows_asked || own_transaction(unit, command).is_none(),
            Act::Ack(command) => self.knows_taken || own_transaction(unit, command).is_none(),
            Act::Reply(command, _) => {
                (self.knows_taken && self.knows_kept) || own(unit, command).is_none()
            }
            _ => true,
        }
    }
}

/// Whether all is known of no act.
fn is_power_on(begins: &Beginning) -> bool
    ensures { result ≡ from_power_on begins.now }
{
    matches!(begins, Beginning::PowerOn(_))
}

/// The transaction command to this reader that a command is.
fn own_transaction(unit: ReaderUnit, command: &Command) -> Option<Transaction>
    ensures { result ≡ spec.own_transaction (units.own unit command.now) }
{
    match own(unit, command) {
        Some(command) => transaction_of(command),
        None => None,
    }
}

/// Whether the controller sends a transaction command by an act.
fn asks(unit: ReaderUnit, act: &Act) -> bool
    ensures { result ≡ is_some (spec.asked_by unit act.now) }
{
    match act {
        Act::Ask(command) => own_transaction(unit, command).is_some(),
        _ => false,
    }
}

/// Whether an act tells something of the last transaction that the reader took.
fn tells_taken(unit: ReaderUnit, act: &Act) -> bool
    ensures { result ≡ is_some (spec.taken_told unit act.now) }
{
    match act {
        Act::Ack(command) => match own(unit, command) {
            Some(command) => drops(command),
            None => false,
        },
        Act::Reply(command, reply) => match own(unit, command) {
            Some(command) => answer_tells_taken(command, reply),
            None => false,
        },
        Act::Break(_) => true,
        _ => false,
    }
}

/// Whether a reply of the reader does.
fn answer_tells_taken(command: ReaderCommand, reply: &Reply) -> bool
    ensures { result ≡ values.tells_taken command reply.now }
{
    let mut said = Said::nothing();
    said.read(messages_of(reply));
    said.begins | (!said.refused & drops(command))
}

/// Whether the reader tells kept messages by an act.
fn tells_kept(unit: ReaderUnit, act: &Act) -> bool
    ensures { result ≡ is_some (unless_empty (kept_of (spec.parts_by unit act.now))) }
{
    match act {
        Act::Reply(command, reply) => match own(unit, command) {
            Some(_) => answer_tells_kept(reply),
            None => false,
        },
        _ => false,
    }
}

/// Whether a reply of the reader has kept messages.
fn answer_tells_kept(reply: &Reply) -> bool
    ensures { result ≡ is_some (unless_empty (kept_of (parts_of reply.now))) }
{
    let mut said = Said::nothing();
    said.read(messages_of(reply));
    !said.summary.kept.is_empty()
}
