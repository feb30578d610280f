//! Amounts without a value: nothing tells yet how the reader is set up.

ghost use Rattle.std.specs.Prelude.{◌≡◌, ◌≤◌, Some, length, sum_by};
ghost use Rattle.mdb_machine.specs.Choices.{is_approval};
ghost use Rattle.mdb_machine.specs.Past.{or_else};
ghost use Rattle.mdb_machine.specs.Unvalued as amounts;
ghost use Rattle.mdb_machine.specs.Unvalued.{one_if};
ghost use Rattle.mdb_cashless.specs.ReaderAmounts as spec;
ghost use Rattle.mdb_cashless.specs.ReaderMessages.{config_in, last_said, messages_of};
ghost use Rattle.mdb_cashless.specs.ReaderValues.{known_in};

use super::known::ReaderKnown;
use super::messages::{Said, messages_of};
use super::transaction::transaction_of;
use super::unit::own;
use mdb_bus::Act;
use mdb_msgs::{ReaderCommand, ReaderConfig, ReaderIter, ReaderMsg, ReaderUnit, Reply};

/// How many amounts without a value an act tells, after the acts before it.
#[inline(always)]
pub(crate) fn unvalued_by(unit: ReaderUnit, known: &ReaderKnown, act: &Act) -> u64
    ensures count { result ≡ spec.unvalued_by unit (known_in known.now) act.now }
    ensures small { result ≤ 35 }
{
    match act {
        Act::Ask(command) => match own(unit, command) {
            Some(command) if asks_sale(command) => u64::from(is_unpriced(known)),
            _ => 0,
        },
        Act::Reply(command, reply) => match own(unit, command) {
            Some(_) => unvalued_in(known.facts.config, reply),
            None => 0,
        },
        _ => 0,
    }
}

/// Whether the controller tells of an amount by a command to the reader.
pub(crate) fn asks_sale(command: ReaderCommand) -> bool
    ensures { result ≡ spec.asks_sale (Some command) }
{
    match transaction_of(command) {
        Some(transaction) => transaction.ends_sale(),
        None => false,
    }
}

/// Whether the value of a sale isn't known.
fn is_unpriced(known: &ReaderKnown) -> bool
    ensures { result ≡ spec.is_unpriced (known_in known.now) }
{
    known.facts.config.is_none() || known.facts.amount.is_none()
}

/// How many amounts without a value a reply of the reader tells, where this is the last config
/// message before it.
pub(crate) fn unvalued_in(config: Option<ReaderConfig>, reply: &Reply) -> u64
    ensures count { result
        ≡ amounts.unvalued_by (or_else (last_said config_in (messages_of reply.now)) config)
        (sum_by (λ message. one_if (is_approval message)) (messages_of reply.now)) }
    ensures small { result ≤ 35 }
{
    if config.is_some() {
        return 0;
    }
    let mut said = Said::nothing();
    said.read(messages_of(reply));
    match said.config {
        Some(_) => 0,
        None => approvals(messages_of(reply)),
    }
}

/// How many of a reader's messages are 05.
fn approvals(messages: ReaderIter<'_>) -> u64
    requires { length messages ≤ 35 }
    ensures count { result
        ≡ sum_by (λ message. one_if (is_approval message)) messages.entry }
    ensures small { result ≤ 35 }
{
    let mut count = 0;
    for message in messages {
        if matches!(message, ReaderMsg::VendApproved { .. }) {
            count += 1;
        }
    }
    count
}
