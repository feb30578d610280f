//! Which acts matter to the validator, and whether it matters what is chosen of them.

ghost use Rattle.std.specs.Prelude.{◌↔◌};
ghost use Rattle.std.specs.Bool.{OnFalse, OnTrue};
ghost use Rattle.mdb_msgs.specs.declared.command.Device.TheVariants as devices;
ghost use Rattle.mdb_machine.specs.declared.choice.Choice.{Choice};
ghost use Rattle.mdb_machine.specs.declared.choice.Choice.TheVariants.{Plain};
ghost use Rattle.mdb_machine.specs.declared.gains.Gains.{Gains};
ghost use Rattle.mdb_cash.specs.BillValues.{BillStep};
ghost use Rattle.mdb_cash.specs.BillFacts.{Facts};
ghost use Rattle.mdb_machine.specs.Choices.{CanStand};
ghost use Rattle.mdb_machine.specs.Pair.{IsActOf};
ghost use Rattle.mdb_machine.specs.Gains.{Stays};
ghost use Rattle.mdb_cash.specs.declared.bill.state.BillState.{BillState};

use super::Bill;
use super::activity::BillActivity;
use super::state::BillState;
use mdb_bus::Act;
use mdb_machine::Choice;
use mdb_machine::keeper::Keeper;
use mdb_machine::kept::may_all_be_read;
use mdb_msgs::{BillCommand, Command};

/// Whether an act may change a state or a sum of the validator.
#[inline(always)]
pub(super) fn concerns(act: &Act) -> bool
    ensures own { OnTrue result (IsActOf devices.Bill act.now) }
    ensures still { OnFalse result ((facts : Facts) (choice : Choice) (before after : BillState)
        (gains : Gains) → BillStep facts act.now choice before after gains
        ↔ Stays before after gains) }
{
    match act {
        Act::Ack(Command::Bill(command)) => matches!(
            command,
            BillCommand::Reset | BillCommand::Escrow(_) | BillCommand::Poll
        ),
        Act::VmcAck(Command::Bill(_), reply) => !Bill::messages_in(reply).is_empty(),
        Act::Reply(Command::Bill(_), _) | Act::Break(_) => true,
        _ => false,
    }
}

/// Whether an act leaves a state and the sums, whatever the choice: an ACK to POLL does, where
/// nothing is held.
pub(super) fn rests(act: &Act, state: BillState) -> bool
    ensures { OnTrue result ((facts : Facts) (choice : Choice) (after : BillState)
        (gains : Gains) → BillStep facts act.now choice state after gains
        ↔ Stays state after gains) }
{
    matches!(act, Act::Ack(Command::Bill(BillCommand::Poll))) && !state.holds
}

/// Whether it may matter, from a state, what is chosen of an act.
#[inline(always)]
pub(super) fn heeds_choice(act: &Act, state: BillState) -> bool
    ensures { OnFalse result ((facts : Facts) (choice : Choice) (after : BillState)
        (gains : Gains) → CanStand act.now choice
        → BillStep facts act.now choice state after gains
        → BillStep facts act.now Plain state after gains) }
{
    match act {
        Act::Reply(Command::Bill(_), reply) => {
            may_all_be_read::<BillActivity>(Choice::Restart, Bill::messages_in(reply))
        }
        Act::VmcAck(Command::Bill(_), _) => state.holds,
        _ => false,
    }
}
