//! What is known of a reader after the acts so far.

ghost use Rattle.std.specs.Prelude.{◌≡◌, ◌≤◌, length};
ghost use Rattle.mdb_cashless.specs.ExtendedFacts as spec;

use super::sale::Sale;
use crate::reader::messages::{Said, messages_of};
use crate::reader::transaction::{is_request, transaction_of};
use crate::reader::unit::own;
use arrayvec::ArrayVec;
use mdb_bus::{Act, Beginning};
use mdb_msgs::{Command, ReaderCommand, ReaderConfig, ReaderIter, ReaderMsg, ReaderUnit, Reply};

/// What is known of a reader after the acts so far, by the extended profile: a running value, which
/// doesn't grow with them.
#[derive(Drop)]
pub struct ApprovalFacts {
    /// The last config message.
    pub(crate) config: Option<ReaderConfig>,
    /// The amount of the last approval, in units of the scale factor, where there was one.
    pub(crate) amount: Option<u16>,
    /// The amounts of all approvals of that reply.
    pub(crate) told: ArrayVec<u16, 35>,
    /// Whether these are known: else there was none, and the recording begins in mid-session.
    pub(crate) knows_told: bool,
    /// The sale under way.
    pub(crate) sale: Sale,
    /// Whether it may have been requested before the recording.
    pub(crate) earlier: bool,
}

impl ApprovalFacts {
    ghost use Rattle.std.specs.Prelude.{option_map, List, ◌∷◌, Some};
    ghost use Rattle.mdb_bus.specs.declared.act.Act.{Act};
    ghost use Rattle.mdb_bus.specs.declared.scope.Beginning.{Beginning};
    ghost use Rattle.mdb_cashless.specs.ReaderMessages.{messages_of};
    ghost use Rattle.mdb_cashless.specs.inner.Approvals.{facts_in};

    /// What is known after no act, where a recording begins so.
    pub(crate) fn start(begins: &Beginning, unit: ReaderUnit) -> ApprovalFacts
        ensures { facts_in result ≡ spec.first_facts begins.now unit }
    {
        let (config, sale) = match begins {
            Beginning::PowerOn(_) => (None, Sale::Nothing),
            Beginning::Joined(setups, _) => (setups.config(unit), Sale::Unknown),
        };
        let joined = matches!(begins, Beginning::Joined(..));
        ApprovalFacts {
            config,
            amount: None,
            told: ArrayVec::new(),
            knows_told: !joined,
            sale,
            earlier: joined,
        }
    }

    /// The decimal places of the reader's amounts: Z6 of its last config message, where one is
    /// known (MDB/ICP 4.3, cashless device).
    pub fn decimals(&self) -> Option<u8>
        ensures { result ≡ option_map (λ config. config.decimals) (facts_in self.now).config }
    {
        self.config.map(|config| config.decimals)
    }

    /// The reader's response time, in seconds: Z7 of its last config message, where one is known
    /// (MDB/ICP 4.3, cashless device).
    pub fn response_time(&self) -> Option<u8>
        ensures { result ≡ option_map (λ config. config.response) (facts_in self.now).config }
    {
        self.config.map(|config| config.response)
    }

    /// Takes one act more.
    // Inlined, so that an act of another device costs little more than the look at whose it is.
    #[inline(always)]
    pub(crate) fn learn(&mut self, unit: ReaderUnit, act: &Act)
        ensures { facts_in self.new ≡ spec.facts_after unit act.now (facts_in self.old) }
    {
        match act {
            Act::Ask(command) => {
                if let Some(command) = own(unit, command) {
                    self.ask(command);
                }
            }
            Act::Reply(command, reply) => {
                if own(unit, command).is_some() {
                    self.tell(reply);
                }
            }
            Act::VmcAck(command, reply) => {
                if own(unit, command).is_some() {
                    self.hear(reply);
                }
            }
            Act::Break(_) => self.sale = Sale::Nothing,
            _ => {}
        }
    }

    /// The controller asks the reader a command.
    #[inline(always)]
    fn ask(&mut self, command: ReaderCommand)
        ensures { facts_in self.new ≡ spec.facts_asked (Some command) (facts_in self.old) }
    {
        self.sale = self.sale.asked(command);
        if is_request(transaction_of(command)) {
            self.earlier = false;
        }
    }

    /// The reader replies.
    #[inline(never)]
    fn tell(&mut self, reply: &Reply)
        ensures { facts_in self.new ≡ spec.facts_told (messages_of reply.now) (facts_in self.old) }
    {
        let mut said = Said::nothing();
        said.read(messages_of(reply));
        self.config = said.config.or(self.config);
        self.amount = said.amount.or(self.amount);
        let told = approvals(messages_of(reply));
        if !told.is_empty() {
            self.told = told;
            self.knows_told = true;
        }
    }

    /// The controller acknowledges a reply of the reader.
    #[inline(never)]
    fn hear(&mut self, reply: &Reply)
        ensures { facts_in self.new ≡ record (facts_in self.old) {
          sale = spec.sale_all_heard (messages_of reply.now) self.old.sale;
        } }
    {
        self.sale = self.sale.all_heard(messages_of(reply));
    }
}

/// The amounts of the approvals among messages.
// Not inlined, so that the facts and the steps of both readers share it.
#[inline(never)]
pub(crate) fn approvals(messages: ReaderIter<'_>) -> ArrayVec<u16, 35>
    requires { length messages ≤ 35 }
    ensures { result.items ≡ spec.approvals_in messages.entry }
{
    let mut list = ArrayVec::new();
    for message in messages {
        if let ReaderMsg::VendApproved { amount } = message {
            list.push(amount);
        }
    }
    list
}

/// The amounts as a list.
pub(crate) fn list_of(told: &[u16]) -> ArrayVec<u16, 35>
    requires { length told.now ≤ 35 }
    ensures { result.items ≡ told.now }
{
    let mut list = ArrayVec::new();
    let _ = list.try_extend_from_slice(told);
    list
}
