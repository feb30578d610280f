//! The steps of a reader that follows approvals, and of the controller.

ghost use Rattle.std.specs.Prelude.{◌≡◌, ◌↔◌, ◌||◌, ◌<◌, ◌≤◌, ◌^◌, ℕ, not, true, IsTrue, IfNone, IfSome, None, Some};
ghost use Rattle.mdb_machine.specs.SmallGains.{IsSmall};
ghost use Rattle.mdb_machine.specs.Pair.{IsOnly, IsOnlyStep};
ghost use Rattle.mdb_cashless.specs.ExtendedFacts.{approvals_in};
ghost use Rattle.mdb_cashless.specs.ExtendedReader as spec;
ghost use Rattle.mdb_cashless.specs.ReaderMessages.{messages_of};
ghost use Rattle.mdb_cashless.specs.inner.Approvals.{facts_in, is_awaiting_known, is_sale_known, is_success, settled};

use super::facts::{ApprovalFacts, approvals};
use super::sale::Sale;
use super::state::ApprovalState;
use crate::reader::messages::{Said, messages_of};
use crate::reader::unit::own;
use crate::reader::values::value;
use mdb_bus::Act;
use mdb_machine::past::tells_out_of_sequence;
use mdb_machine::{Choice, Gains};
use mdb_msgs::{ReaderCommand, ReaderUnit, Reply};

/// The step by a settled act under a choice, from a state: the state after it, and its gains.
/// `None` where there is no such step.
#[inline(always)]
pub(crate) fn step(
    unit: ReaderUnit,
    facts: &ApprovalFacts,
    act: &Act,
    choice: Choice,
    before: ApprovalState,
) -> Option<(ApprovalState, Gains)>
    requires { settled unit facts.now act.now ≡ true }
    ensures step { IsOnlyStep
        (spec.ReaderStep unit (facts_in facts.now) act.now choice before) result }
    ensures small { IfSome result (λ step. IsSmall step.1) }
{
    let stays = Some((before, Gains::none()));
    match act {
        Act::Ask(command) => match own(unit, command) {
            Some(command) => ask(facts, command, before),
            None => stays,
        },
        Act::Ack(command) => match own(unit, command) {
            Some(command) => Some(ack(facts, command, before)),
            None => stays,
        },
        Act::Reply(command, reply) => match own(unit, command) {
            Some(command) => answer(facts, command, reply, choice, before),
            None => stays,
        },
        Act::VmcAck(command, reply) => match own(unit, command) {
            Some(_) => Some(vmc_ack(facts, reply, choice, before)),
            None => stays,
        },
        Act::Break(_) => Some((ApprovalState::power_on(), Gains::none())),
        Act::Nak(_) | Act::VmcNak(..) | Act::VmcRet(..) | Act::Repeat(..) | Act::Foreign => stays,
    }
}

/// The value of the last approval; 0 where there was none.
fn last_value(facts: &ApprovalFacts) -> u64
    ensures value { result ≡ spec.last_value (facts_in facts.now) }
    ensures small { result ≤ 16711425 }
{
    value(facts.config, facts.amount.unwrap_or(0))
}

/// What VEND SUCCESS adds to the controller's sold; `None` where it may not be asked.
fn may_sell(facts: &ApprovalFacts, item: u16) -> Option<u64>
    requires { is_sale_known facts.now.sale ≡ true }
    ensures only { IsOnly (spec.MaySell (facts_in facts.now) item facts.now.sale) result }
    ensures small { IfSome result (λ worth. worth < 2 ^ 32) }
{
    match facts.sale {
        Sale::Approved { amount } => Some(value(facts.config, amount)),
        Sale::Sold { item: last } if last == item => Some(0),
        _ if facts.earlier => Some(last_value(facts)),
        _ => None,
    }
}

/// What a command adds to the controller's sold; `None` where it may not be asked.
fn may_ask(facts: &ApprovalFacts, command: ReaderCommand) -> Option<u64>
    requires { (is_sale_known facts.now.sale || not (is_success (Some command))) ≡ true }
    ensures only { IsOnly (spec.MayAsk (facts_in facts.now) command) result }
    ensures small { IfSome result (λ worth. worth < 2 ^ 32) }
{
    match command {
        ReaderCommand::VendSuccess { item } => may_sell(facts, item),
        _ => Some(0),
    }
}

/// The state after a command that the controller asks.
fn asked(command: ReaderCommand, before: ApprovalState) -> ApprovalState
    ensures { result ≡ spec.asked command before }
{
    let mut after = before;
    if let ReaderCommand::VendRequest { .. } = command {
        after.asked = true;
    }
    after
}

/// The controller asks.
fn ask(
    facts: &ApprovalFacts,
    command: ReaderCommand,
    before: ApprovalState,
) -> Option<(ApprovalState, Gains)>
    requires { (is_sale_known facts.now.sale || not (is_success (Some command))) ≡ true }
    ensures step { IsOnlyStep (spec.AskStep (facts_in facts.now) command before) result }
    ensures small { IfSome result (λ step. IsSmall step.1) }
{
    let worth = may_ask(facts, command)?;
    Some((asked(command, before), Gains::of_controller(&[0, worth])))
}

/// What a command makes of the reader that takes it.
fn effect(command: ReaderCommand, before: ApprovalState) -> ApprovalState
    ensures { result ≡ spec.effect command before }
{
    let mut after = before;
    match command {
        ReaderCommand::Reset => return ApprovalState::power_on(),
        ReaderCommand::VendSuccess { .. } => after.approved = false,
        _ => {}
    }
    after
}

/// What that adds to the reader's sold.
fn sold(facts: &ApprovalFacts, command: ReaderCommand, before: ApprovalState) -> u64
    ensures value { result ≡ spec.sold (facts_in facts.now) command before }
    ensures small { result < 2 ^ 32 }
{
    match command {
        ReaderCommand::VendSuccess { .. } if before.approved => last_value(facts),
        _ => 0,
    }
}

/// The state once the reader acknowledges a command.
fn acked(command: ReaderCommand, before: ApprovalState) -> ApprovalState
    ensures { result ≡ spec.acked command before }
{
    let mut after = effect(command, before);
    if let ReaderCommand::Poll = command {
        after.again = false;
    }
    after
}

/// The reader acknowledges.
#[inline(always)]
fn ack(
    facts: &ApprovalFacts,
    command: ReaderCommand,
    before: ApprovalState,
) -> (ApprovalState, Gains)
    ensures step { IsOnlyStep (spec.AckStep (facts_in facts.now) command before) (Some result) }
    ensures small { IsSmall result.1 }
{
    let sold = sold(facts, command, before);
    (acked(command, before), Gains::of_device(&[0, sold]))
}

/// Whether a reply can be read so, by its messages alone.
fn may_be_read(choice: Choice, reply: &Reply) -> bool
    ensures { IsTrue result ↔ spec.CanBeRead choice reply.now }
{
    if let Choice::Restart = choice {
        let mut said = Said::nothing();
        said.read(messages_of(reply));
        said.summary.may_be_read(Choice::Restart)
    } else {
        true
    }
}

/// The state once a reply is read.
fn read(choice: Choice, before: ApprovalState) -> ApprovalState
    ensures { result ≡ spec.read choice before }
{
    if let Choice::Restart = choice {
        ApprovalState::power_on()
    } else {
        before
    }
}

/// The state before the messages of a reply that is read so.
fn before_messages(command: ReaderCommand, reply: &Reply, start: ApprovalState) -> ApprovalState
    ensures { result ≡ spec.before_messages command reply.now start }
{
    if tells_out_of_sequence(reply) {
        start
    } else {
        effect(command, start)
    }
}

/// What a command that is taken by a reply adds to the reader's sold.
fn sold_by(
    facts: &ApprovalFacts,
    command: ReaderCommand,
    reply: &Reply,
    start: ApprovalState,
) -> u64
    ensures value { result ≡ spec.sold_by (facts_in facts.now) command reply.now start }
    ensures small { result < 2 ^ 32 }
{
    if tells_out_of_sequence(reply) {
        0
    } else {
        sold(facts, command, start)
    }
}

/// Whether approvals may be told again.
fn may_be_again(before: ApprovalState, last: &[u16], told: &[u16]) -> bool
    ensures { result ≡ spec.may_be_again before last.now told.now }
{
    before.again && told.starts_with(last)
}

/// Whether the one approval of a reply may be told again, or be new.
fn may_be_either(before: ApprovalState, last: &[u16], told: &[u16]) -> bool
    ensures { result ≡ spec.may_be_either before last.now told.now }
{
    last.len() == 1 && told.len() == 1 && before.asked && may_be_again(before, last, told)
}

/// The approvals of a reply that are new under a choice; `None` where the reader can't tell what it
/// tells.
fn news<'a>(
    choice: Choice,
    before: ApprovalState,
    last: &[u16],
    told: &'a [u16],
) -> Option<&'a [u16]>
    ensures some { IfSome result (λ new. spec.news choice before last.now told.now ≡ Some new.now) }
    ensures none { IfNone result (spec.news choice before last.now told.now ≡ None) }
{
    let either = may_be_either(before, last, told);
    if choice == Choice::Again {
        return if either { Some(&told[..0]) } else { None };
    }
    if may_be_again(before, last, told) && !either {
        Some(&told[last.len()..])
    } else {
        Some(told)
    }
}

/// The state after new approvals; `None` where these can't come.
fn approve(new: &[u16], before: ApprovalState) -> Option<ApprovalState>
    ensures { result ≡ spec.approve new.now before }
{
    match new {
        [] => Some(before),
        [_] if before.asked => Some(ApprovalState {
            asked: false,
            approved: true,
            again: true,
        }),
        _ => None,
    }
}

/// What a new approval adds to the reader's approved.
fn worth(facts: &ApprovalFacts, reply: &Reply, new: &[u16]) -> u64
    ensures value { result ≡ spec.worth (facts_in facts.now) reply.now new.now }
    ensures small { result < 2 ^ 32 }
{
    match new {
        [] => 0,
        [amount, ..] => {
            let mut said = Said::nothing();
            said.read(messages_of(reply));
            value(said.config.or(facts.config), *amount)
        }
    }
}

/// The reader replies.
#[inline(always)]
fn answer(
    facts: &ApprovalFacts,
    command: ReaderCommand,
    reply: &Reply,
    choice: Choice,
    before: ApprovalState,
) -> Option<(ApprovalState, Gains)>
    requires { facts.now.knows_told ≡ true }
    ensures step { IsOnlyStep
        (spec.ReplyStep (facts_in facts.now) command reply.now choice before) result }
    ensures small { IfSome result (λ step. IsSmall step.1) }
{
    if !may_be_read(choice, reply) {
        return None;
    }
    let start = read(choice, before);
    let middle = before_messages(command, reply, start);
    let told = approvals(messages_of(reply));
    let new = news(choice, middle, facts.told.as_slice(), told.as_slice())?;
    let after = approve(new, middle)?;
    let approved = worth(facts, reply, new);
    let sold = sold_by(facts, command, reply, start);
    Some((after, Gains::of_device(&[approved, sold])))
}

/// The state once the reader hears the ACK of its reply, or doesn't hear it.
fn heard(choice: Choice, reply: &Reply, before: ApprovalState) -> ApprovalState
    ensures { result ≡ spec.heard choice (approvals_in (messages_of reply.now)) before }
{
    let mut after = before;
    let told = approvals(messages_of(reply));
    if choice != Choice::Lost && !told.is_empty() {
        after.again = false;
    }
    after
}

/// The controller acknowledges a reply.
fn vmc_ack(
    facts: &ApprovalFacts,
    reply: &Reply,
    choice: Choice,
    before: ApprovalState,
) -> (ApprovalState, Gains)
    requires { is_awaiting_known facts.now.sale ≡ true }
    ensures step { IsOnlyStep
        (spec.VmcAckStep (facts_in facts.now) reply.now choice before) (Some result) }
    ensures small { IsSmall result.1 }
{
    let approved = facts.sale.approved(facts.config, messages_of(reply));
    let after = heard(choice, reply, before);
    (after, Gains::of_controller(&[approved, 0]))
}
