//! What the validator does of its own. The steps of devices that keep messages are in
//! `mdb_machine`.

ghost use Rattle.std.proofs.Common.{rules};
ghost use Rattle.mdb_cash.specs.declared.bill.activity.BillActivity.TheVariants.{Stacked};
ghost use Rattle.mdb_cash.specs.Bill as spec;
ghost use Rattle.mdb_cash.specs.shared.BillWays as ways;
ghost use Rattle.mdb_machine.specs.KeeperValues.{facts_in};
ghost use Rattle.mdb_machine.specs.Pair.{IsOnly};

use super::Bill;
use super::activity::BillActivity;
use super::state::{BillState, BillType, Escrow};
use super::tables::BillFacts;
use super::values::stacked;
use mdb_machine::conduct::Conduct;
use mdb_machine::{Choice, Gains, amount_at};
use mdb_msgs::BillCommand;

impl Conduct for Bill {
    type State = BillState;

    ghost conduct = { spec.conduct };

    ghost some_kept = { Stacked 0 };

    ghost overlooks = { ways.overlooks };

    ghost small_state = { Prim.search rules };

    fn power_on() -> BillState {
        BillState::power_on()
    }

    fn holds(state: BillState) -> bool {
        state.holds
    }

    fn with_holds(state: BillState, holds: bool) -> BillState {
        BillState { holds, ..state }
    }

    fn ask(_facts: &BillFacts, _command: BillCommand, before: BillState) -> (BillState, Gains) {
        (before, Gains::none())
    }

    fn ack(
        _facts: &BillFacts,
        command: BillCommand,
        _choice: Choice,
        before: BillState,
    ) -> (BillState, Gains) {
        let after = match command {
            BillCommand::Reset => BillState::power_on(),
            BillCommand::Escrow(order) => BillState {
                escrow: before.escrow.ordered(order),
                ..before
            },
            _ => before,
        };
        (after, Gains::none())
    }

    fn tell_news(
        facts: &BillFacts,
        choice: Choice,
        news: &[BillActivity],
        before: BillState,
    ) -> Option<BillState> {
        let escrow = move_bills(facts, news, before.escrow.read(choice))?;
        Some(BillState { escrow, ..before })
    }

    #[inline(always)]
    fn gain(facts: &BillFacts, slot: usize, message: BillActivity) -> u64 {
        amount_at(&[stacked(&facts.setup, message)], slot)
    }

    fn asks_amount(_command: BillCommand) -> bool {
        false
    }

    fn tells_amount(message: BillActivity) -> bool {
        matches!(
            message,
            BillActivity::Stacked(_) | BillActivity::Recycled(_)
        )
    }

    fn heard_reset(state: BillState) -> BillState {
        state
    }
}

/// What is in escrow after new messages. `None` where they can't be.
fn move_bills(facts: &BillFacts, messages: &[BillActivity], from: Escrow) -> Option<Escrow>
    ensures { IsOnly (spec.MovesBills (facts_in facts.now) messages.now from) result }
{
    let mut escrow = from;
    for message in messages {
        escrow = move_bill(facts, *message, escrow)?;
    }
    Some(escrow)
}

/// What is in escrow after one new message. `None` where it can't be.
fn move_bill(facts: &BillFacts, message: BillActivity, escrow: Escrow) -> Option<Escrow>
    ensures { IsOnly (spec.MovesBill (facts_in facts.now) message escrow) result }
{
    match message {
        BillActivity::Stacked(number) | BillActivity::Recycled(number) => {
            stack_bill(facts, number, escrow)
        }
        BillActivity::Escrow(number) => {
            let bill = BillType::new(number)?;
            if facts.is_enabled(number) && escrow.is_empty() {
                Some(Escrow::Waiting(bill))
            } else {
                None
            }
        }
        BillActivity::Returned(number) => {
            let bill = BillType::new(number)?;
            if escrow.may_return(bill) {
                Some(Escrow::Empty)
            } else {
                None
            }
        }
    }
}

/// What is in escrow after a new message that a bill was stacked, or went to the recycler. `None`
/// where it can't have.
fn stack_bill(facts: &BillFacts, number: u8, escrow: Escrow) -> Option<Escrow>
    ensures { IsOnly (spec.StacksBill (facts_in facts.now) number escrow) result }
{
    let bill = BillType::new(number)?;
    if facts.is_enabled(number) && escrow.may_stack(bill) {
        Some(Escrow::Empty)
    } else {
        None
    }
}
