//! Which acts matter to a reader that follows approvals, and what is chosen of them.

ghost use Rattle.std.specs.Prelude.{◌≡◌, ◌≤◌, ◌↔◌, ◌&&◌};
ghost use Rattle.std.specs.Bool.{OnFalse, OnTrue};
ghost use Rattle.mdb_msgs.specs.declared.command.Device.TheVariants as devices;
ghost use Rattle.mdb_msgs.specs.declared.command.ReaderUnit.{ReaderUnit};
ghost use Rattle.mdb_machine.specs.declared.choice.Choice.{Choice};
ghost use Rattle.mdb_machine.specs.declared.choice.Choice.TheVariants.{Plain};
ghost use Rattle.mdb_machine.specs.declared.gains.Gains.{Gains};
ghost use Rattle.mdb_machine.specs.Choices.{CanStand};
ghost use Rattle.mdb_machine.specs.Gains.{Stays};
ghost use Rattle.mdb_machine.specs.Pair.{IsActOf};
ghost use Rattle.mdb_cashless.specs.declared.approvals.state.ApprovalState.{ApprovalState};
ghost use Rattle.mdb_cashless.specs.ExtendedFacts.{Facts};
ghost use Rattle.mdb_cashless.specs.ExtendedReader as spec;
ghost use Rattle.mdb_cashless.specs.ExtendedAmounts as extended_amounts;
ghost use Rattle.mdb_cashless.specs.inner.Approvals.{changes, facts_in, takes};

use super::facts::ApprovalFacts;
use super::state::ApprovalState;
use crate::reader::messages::tells_of_reset;
use crate::reader::unit::own;
use crate::reader::unvalued::{asks_sale, unvalued_in};
use mdb_bus::Act;
use mdb_msgs::{ReaderCommand, ReaderUnit};

/// Whether an act may change a state or a sum of this reader.
#[inline(always)]
pub(crate) fn concerns(unit: ReaderUnit, act: &Act) -> bool
    ensures own { OnTrue result (IsActOf (devices.Reader unit) act.now) }
    ensures still { OnFalse result ((facts : Facts) (choice : Choice)
        (before after : ApprovalState) (gains : Gains)
        → spec.ReaderStep unit facts act.now choice before after gains
        ↔ Stays before after gains) }
{
    match act {
        Act::Ask(command) => match own(unit, command) {
            Some(command) => changes(command),
            None => false,
        },
        Act::Ack(command) => match own(unit, command) {
            Some(command) => takes(command),
            None => false,
        },
        Act::Reply(command, _) | Act::VmcAck(command, _) => own(unit, command).is_some(),
        Act::Break(_) => true,
        Act::Nak(_) | Act::VmcNak(..) | Act::VmcRet(..) | Act::Repeat(..) | Act::Foreign => false,
    }
}

/// Whether a command that is asked may change a state or a sum.
fn changes(command: ReaderCommand) -> bool
    ensures { result ≡ changes command }
{
    matches!(
        command,
        ReaderCommand::VendRequest { .. } | ReaderCommand::VendSuccess { .. }
    )
}

/// Whether a command that is acknowledged may.
fn takes(command: ReaderCommand) -> bool
    ensures { result ≡ takes command }
{
    matches!(
        command,
        ReaderCommand::Poll | ReaderCommand::Reset | ReaderCommand::VendSuccess { .. }
    )
}

/// Whether an act leaves a state and the sums, whatever the choice: an ACK to POLL does, where
/// nothing may be told again.
pub(crate) fn rests(unit: ReaderUnit, act: &Act, state: ApprovalState) -> bool
    ensures { OnTrue result ((facts : Facts) (choice : Choice) (after : ApprovalState)
        (gains : Gains) → spec.ReaderStep unit facts act.now choice state after gains
        ↔ Stays state after gains) }
{
    match act {
        Act::Ack(command) => match own(unit, command) {
            Some(ReaderCommand::Poll) => !state.again,
            _ => false,
        },
        _ => false,
    }
}

/// Whether it may matter, from a state, what is chosen of an act: a reply may tell of a restart, or
/// tell again what may be new, and the reader may hear the ACK of what it may tell again.
// It doesn't look at whose the act is: acts that are no matter of the pair aren't asked about.
#[inline(always)]
pub(crate) fn heeds_choice(act: &Act, state: ApprovalState) -> bool
    ensures { OnFalse result ((unit : ReaderUnit) (facts : Facts) (choice : Choice)
        (after : ApprovalState) (gains : Gains) → CanStand act.now choice
        → spec.ReaderStep unit facts act.now choice state after gains
        → spec.ReaderStep unit facts act.now Plain state after gains) }
{
    match act {
        Act::Reply(_, reply) => may_be_either(state) || tells_of_reset(reply),
        Act::VmcAck(..) => state.again,
        _ => false,
    }
}

/// Whether an approval may be told again, or be new.
fn may_be_either(state: ApprovalState) -> bool
    ensures { result ≡ (state.asked && state.again) }
{
    state.asked && state.again
}

/// How many amounts without a value an act tells, after the acts before it.
#[inline(always)]
pub(crate) fn unvalued_by(unit: ReaderUnit, facts: &ApprovalFacts, act: &Act) -> u64
    ensures count { result ≡ extended_amounts.unvalued_by unit (facts_in facts.now) act.now }
    ensures small { result ≤ 35 }
{
    match act {
        Act::Ask(command) => match own(unit, command) {
            Some(command) if asks_sale(command) => u64::from(is_unpriced(facts)),
            _ => 0,
        },
        Act::Reply(command, reply) => match own(unit, command) {
            Some(_) => unvalued_in(facts.config, reply),
            None => 0,
        },
        _ => 0,
    }
}

/// Whether the value of a sale isn't known.
fn is_unpriced(facts: &ApprovalFacts) -> bool
    ensures { result ≡ extended_amounts.is_unpriced (facts_in facts.now) }
{
    facts.config.is_none() || facts.amount.is_none() || facts.earlier
}
