//! Which acts matter to the changer, and whether it matters what is chosen of them.

ghost use Rattle.std.specs.Prelude.{◌↔◌};
ghost use Rattle.std.specs.Bool.{OnFalse, OnTrue};
ghost use Rattle.mdb_msgs.specs.declared.command.Device.TheVariants as devices;
ghost use Rattle.mdb_machine.specs.declared.choice.Choice.{Choice};
ghost use Rattle.mdb_machine.specs.declared.choice.Choice.TheVariants.{Plain};
ghost use Rattle.mdb_machine.specs.declared.gains.Gains.{Gains};
ghost use Rattle.mdb_cash.specs.ChangerValues.{ChangerStep};
ghost use Rattle.mdb_cash.specs.ChangerFacts.{Facts};
ghost use Rattle.mdb_machine.specs.Choices.{CanStand};
ghost use Rattle.mdb_machine.specs.Pair.{IsActOf};
ghost use Rattle.mdb_machine.specs.Gains.{Stays};
ghost use Rattle.mdb_cash.specs.declared.changer.state.ChangerState.{ChangerState};

use super::Changer;
use super::activity::ChangerActivity;
use super::state::ChangerState;
use mdb_bus::Act;
use mdb_machine::Choice;
use mdb_machine::keeper::Keeper;
use mdb_machine::kept::may_all_be_read;
use mdb_msgs::{ChangerCommand, Command};

/// Whether an act may change a state or a sum of the changer.
#[inline(always)]
pub(super) fn concerns(act: &Act) -> bool
    ensures own { OnTrue result (IsActOf devices.Changer act.now) }
    ensures still { OnFalse result ((facts : Facts) (choice : Choice) (before after : ChangerState)
        (gains : Gains) → ChangerStep facts act.now choice before after gains
        ↔ Stays before after gains) }
{
    match act {
        Act::Ask(Command::Changer(command)) => matches!(
            command,
            ChangerCommand::Reset | ChangerCommand::Dispense(_)
        ),
        Act::Ack(Command::Changer(command)) => matches!(
            command,
            ChangerCommand::Dispense(_) | ChangerCommand::Reset | ChangerCommand::Poll
        ),
        Act::VmcAck(Command::Changer(_), reply) => !Changer::messages_in(reply).is_empty(),
        Act::Reply(Command::Changer(_), _) | Act::Break(_) => true,
        _ => false,
    }
}

/// Whether an act leaves a state and the sums, whatever the choice: an ACK to POLL does, where
/// nothing is held.
pub(super) fn rests(act: &Act, state: ChangerState) -> bool
    ensures { OnTrue result ((facts : Facts) (choice : Choice) (after : ChangerState)
        (gains : Gains) → ChangerStep facts act.now choice state after gains
        ↔ Stays state after gains) }
{
    matches!(act, Act::Ack(Command::Changer(ChangerCommand::Poll))) && !state.holds
}

/// Whether it may matter, from a state, what is chosen of an act.
#[inline(always)]
pub(super) fn heeds_choice(act: &Act, state: ChangerState) -> bool
    ensures { OnFalse result ((facts : Facts) (choice : Choice) (after : ChangerState)
        (gains : Gains) → CanStand act.now choice
        → ChangerStep facts act.now choice state after gains
        → ChangerStep facts act.now Plain state after gains) }
{
    match act {
        Act::Ack(Command::Changer(ChangerCommand::Dispense(_))) => state.dispense_owed,
        Act::Reply(Command::Changer(_), reply) => {
            may_all_be_read::<ChangerActivity>(Choice::Restart, Changer::messages_in(reply))
        }
        Act::VmcAck(Command::Changer(_), _) => state.holds,
        _ => false,
    }
}
