//! The steps of a reader and the controller.

ghost use Rattle.std.specs.Prelude.{◌≡◌, ◌↔◌, IfSome};
ghost use Rattle.std.specs.Bool.{OnFalse, OnTrue};
ghost use Rattle.mdb_msgs.specs.declared.command.Device.TheVariants as devices;
ghost use Rattle.mdb_msgs.specs.declared.command.ReaderUnit.{ReaderUnit};
ghost use Rattle.mdb_machine.specs.declared.choice.Choice.{Choice};
ghost use Rattle.mdb_machine.specs.declared.choice.Choice.TheVariants.{Plain};
ghost use Rattle.mdb_machine.specs.declared.gains.Gains.{Gains};
ghost use Rattle.mdb_machine.specs.Choices.{CanStand};
ghost use Rattle.mdb_machine.specs.Gains.{no_gains};
ghost use Rattle.mdb_machine.specs.SmallGains.{AreSmall, IsSmall};
ghost use Rattle.mdb_machine.specs.Pair.{IsActOf, IsOnlyStep};
ghost use Rattle.mdb_cashless.specs.declared.reader.state.ReaderState.{ReaderState};
ghost use Rattle.mdb_cashless.specs.ReaderFacts.{Facts};
ghost use Rattle.mdb_cashless.specs.Reader as spec;
ghost use Rattle.mdb_cashless.specs.ReaderValues.{changes_view, facts_in};
ghost use Rattle.mdb_cashless.specs.Transactions.{amounts};

use super::answers::{answer, vmc_ack};
use super::facts::ReaderFacts;
use super::messages::tells_of_reset;
use super::state::ReaderState;
use super::taking::{heeds_taking, is_poll, sold, take, view_heard};
use super::transaction::{Ended, ended_by, transaction_of};
use super::unit::own;
use super::values::value;
use super::view::View;
use mdb_bus::Act;
use mdb_machine::{Choice, Gains};
use mdb_msgs::{Command, ReaderCommand, ReaderUnit};

/// The step by an act under a choice, from a state: the state after it, and its gains. `None`
/// where there is no such step.
#[inline(always)]
pub(crate) fn step(
    unit: ReaderUnit,
    facts: &ReaderFacts,
    act: &Act,
    choice: Choice,
    before: ReaderState,
) -> Option<(ReaderState, Gains)>
    ensures step { IsOnlyStep
        (spec.ReaderStep unit (facts_in facts.now) act.now choice before) result }
    ensures small { IfSome result (λ step. IsSmall step.1) }
{
    let stays = (before, Gains::none());
    match act {
        Act::Ask(command) => match own(unit, command) {
            Some(command) => ask(facts, command, before),
            None => Some(stays),
        },
        Act::Ack(command) => match own(unit, command) {
            Some(command) => ack(facts, command, choice, before),
            None => Some(stays),
        },
        Act::Reply(command, reply) => match own(unit, command) {
            Some(command) => answer(facts, command, reply, choice, before),
            None => Some(stays),
        },
        Act::VmcAck(command, reply) => match own(unit, command) {
            Some(command) => Some(vmc_ack(facts, command, reply, choice, before)),
            None => Some(stays),
        },
        Act::Break(_) => Some((ReaderState::power_on(), Gains::none())),
        Act::Nak(_) | Act::VmcNak(..) | Act::VmcRet(..) | Act::Repeat(..) | Act::Foreign => {
            Some(stays)
        }
    }
}

/// The controller asks.
#[inline(always)]
pub(crate) fn ask(
    facts: &ReaderFacts,
    command: ReaderCommand,
    before: ReaderState,
) -> Option<(ReaderState, Gains)>
    ensures step { IsOnlyStep (spec.AskStep (facts_in facts.now) command before) result }
    ensures small { IfSome result (λ step. IsSmall step.1) }
{
    let view = asked(facts, command, before.view)?;
    let after = ReaderState {
        device: before.device,
        view,
        holds: before.holds,
    };
    let sold = sold_to(facts, command, before.view);
    Some((after, Gains::of_controller(&sold.amounts(0))))
}

/// The view after a command that the controller sends; `None` where it may not send it.
fn asked(facts: &ReaderFacts, command: ReaderCommand, view: View) -> Option<View>
    ensures { result ≡ spec.asked (facts_in facts.now) command view }
{
    match command {
        ReaderCommand::Reset => Some(View::NoSession),
        _ => match transaction_of(command) {
            Some(transaction) => view.sent(facts.asked, transaction),
            None => Some(view),
        },
    }
}

/// What that adds to the controller's accounts, if it ends a sale.
fn sold_to(facts: &ReaderFacts, command: ReaderCommand, view: View) -> Ended
    ensures value { result ≡ spec.sold_to (facts_in facts.now) command view }
    ensures small { AreSmall (amounts 0 result) }
{
    let value = value(facts.config, facts.amount.unwrap_or(0));
    ended_by(view.has_approved(), command, value)
}

/// The reader acknowledges.
#[inline(always)]
pub(crate) fn ack(
    facts: &ReaderFacts,
    command: ReaderCommand,
    choice: Choice,
    before: ReaderState,
) -> Option<(ReaderState, Gains)>
    ensures step { IsOnlyStep (spec.AckStep (facts_in facts.now) command choice before) result }
    ensures small { IfSome result (λ step. IsSmall step.1) }
{
    if is_poll(command) && before.holds {
        return None;
    }
    let taken = take(facts, command, before);
    let after = ReaderState {
        device: taken.device,
        view: view_heard(choice, command, before.view),
        holds: taken.holds,
    };
    let sold = sold(facts, command, before);
    Some((after, Gains::of_device(&sold.amounts(0))))
}

/// Whether an act may change a state or a sum of this reader.
#[inline(always)]
pub(crate) fn concerns(unit: ReaderUnit, act: &Act) -> bool
    ensures own { OnTrue result (IsActOf (devices.Reader unit) act.now) }
    ensures still { OnFalse result ((facts : Facts) (choice : Choice)
        (before after : ReaderState) (gains : Gains)
        → spec.ReaderStep unit facts act.now choice before after gains
        ↔ (after ≡ before) × (gains ≡ no_gains)) }
{
    match act {
        Act::Ask(command) => match own(unit, command) {
            Some(command) => changes_view(command),
            None => false,
        },
        Act::Ack(command) | Act::Reply(command, _) | Act::VmcAck(command, _) => {
            own(unit, command).is_some()
        }
        Act::Break(_) => true,
        Act::Nak(_) | Act::VmcNak(..) | Act::VmcRet(..) | Act::Repeat(..) | Act::Foreign => false,
    }
}

/// Whether an act leaves a state and the sums, whatever the choice: an ACK to POLL does, where
/// nothing is held.
pub(crate) fn rests(unit: ReaderUnit, act: &Act, state: ReaderState) -> bool
    ensures { OnTrue result ((facts : Facts) (choice : Choice) (after : ReaderState)
        (gains : Gains) → spec.ReaderStep unit facts act.now choice state after gains
        ↔ (after ≡ state) × (gains ≡ no_gains)) }
{
    match act {
        Act::Ack(command) => match own(unit, command) {
            Some(ReaderCommand::Poll) => !state.holds,
            _ => false,
        },
        _ => false,
    }
}

/// Whether it may matter, from a state, what is chosen of an act.
// It doesn't look at whose the act is: acts that are no matter of the pair aren't asked about.
#[inline(always)]
pub(crate) fn heeds_choice(act: &Act, state: ReaderState) -> bool
    ensures { OnFalse result ((unit : ReaderUnit) (facts : Facts) (choice : Choice)
        (after : ReaderState) (gains : Gains) → CanStand act.now choice
        → spec.ReaderStep unit facts act.now choice state after gains
        → spec.ReaderStep unit facts act.now Plain state after gains) }
{
    match act {
        Act::Ack(Command::Reader(_, command)) => heeds_taking(*command, state.view),
        Act::Reply(_, reply) => tells_of_reset(reply),
        Act::VmcAck(..) => state.holds,
        _ => false,
    }
}

/// Whether the controller's view may change after a command that it sends.
fn changes_view(command: ReaderCommand) -> bool
    ensures { result ≡ changes_view command }
{
    matches!(command, ReaderCommand::Reset) || transaction_of(command).is_some()
}
