//! What the changer does of its own. The steps of devices that keep messages are in `mdb_machine`.

ghost use Rattle.std.proofs.Common.{rules};
ghost use Rattle.std.specs.Prelude.{◌≡◌, ◌↔◌, IsTrue, Option, Some};
ghost use Rattle.std.specs.List.{AllByRecursion};
ghost use Rattle.mdb_cash.specs.declared.changer.activity.ChangerActivity.TheVariants.{CashBox};
ghost use Rattle.mdb_cash.specs.Changer as spec;
ghost use Rattle.mdb_cash.specs.shared.ChangerWays as ways;
ghost use Rattle.mdb_machine.specs.SmallGains.{IsSmall};
ghost use Rattle.mdb_machine.specs.KeeperValues.{facts_in};
ghost use Rattle.mdb_machine.specs.Pair.{IsOnlyStep};

use super::Changer;
use super::activity::ChangerActivity;
use super::state::ChangerState;
use super::tables::ChangerFacts;
use super::values::{deposited, dispensed_value, paid_by_hand};
use mdb_machine::conduct::Conduct;
use mdb_machine::{Choice, Gains, amount_at};
use mdb_msgs::ChangerCommand;

impl Conduct for Changer {
    type State = ChangerState;

    ghost conduct = { spec.conduct };

    ghost some_kept = { CashBox 0 };

    ghost overlooks = { ways.overlooks };

    ghost small_state = { Prim.search rules };

    fn power_on() -> ChangerState {
        ChangerState::power_on()
    }

    fn holds(state: ChangerState) -> bool {
        state.holds
    }

    fn with_holds(state: ChangerState, holds: bool) -> ChangerState {
        ChangerState { holds, ..state }
    }

    fn ask(
        facts: &ChangerFacts,
        command: ChangerCommand,
        before: ChangerState,
    ) -> (ChangerState, Gains) {
        match command {
            ChangerCommand::Dispense(coins) => ask_for_coins(facts, coins, before),
            ChangerCommand::Reset => {
                let after = ChangerState {
                    dispense_owed: false,
                    ..before
                };
                (after, Gains::none())
            }
            _ => (before, Gains::none()),
        }
    }

    fn ack(
        facts: &ChangerFacts,
        command: ChangerCommand,
        choice: Choice,
        before: ChangerState,
    ) -> (ChangerState, Gains) {
        match command {
            ChangerCommand::Reset => {
                let after = ChangerState {
                    holds: false,
                    ..before
                };
                (after, Gains::none())
            }
            ChangerCommand::Dispense(coins) => {
                let after = ChangerState {
                    dispense_owed: owed_acked(choice, before.dispense_owed),
                    ..before
                };
                let paid = dispensed_value(&facts.setup, coins);
                (after, Gains::of_device(&[0, paid]))
            }
            _ => (before, Gains::none()),
        }
    }

    fn tell_news(
        facts: &ChangerFacts,
        _choice: Choice,
        news: &[ChangerActivity],
        before: ChangerState,
    ) -> Option<ChangerState> {
        if may_all_be_new(facts, news) {
            Some(before)
        } else {
            None
        }
    }

    #[inline(always)]
    fn gain(facts: &ChangerFacts, slot: usize, message: ChangerActivity) -> u64 {
        let coins_in = deposited(&facts.setup, message);
        let paid_out = paid_by_hand(&facts.setup, message);
        amount_at(&[coins_in, paid_out], slot)
    }

    fn asks_amount(command: ChangerCommand) -> bool {
        matches!(command, ChangerCommand::Dispense(_))
    }

    fn tells_amount(_message: ChangerActivity) -> bool {
        true
    }

    fn heard_reset(state: ChangerState) -> ChangerState {
        ChangerState {
            dispense_owed: false,
            ..state
        }
    }
}

/// The controller asks for coins.
fn ask_for_coins(facts: &ChangerFacts, coins: u8, before: ChangerState) -> (ChangerState, Gains)
    ensures step { IsOnlyStep (spec.DispenseStep (facts_in facts.now) coins before)
        (Some result) }
    ensures small { IsSmall result.1 }
{
    let after = ChangerState {
        dispense_owed: true,
        ..before
    };
    if before.dispense_owed && is_last(facts.last_asked, coins) {
        (after, Gains::none())
    } else {
        let asked = dispensed_value(&facts.setup, coins);
        (after, Gains::of_controller(&[0, asked]))
    }
}

/// Whether this is Y1 of the last DISPENSE that was asked.
fn is_last(last_asked: Option<u8>, coins: u8) -> bool
    ensures { result ≡ spec.is_last last_asked coins }
{
    match last_asked {
        None => false,
        Some(last) => last == coins,
    }
}

/// Whether the controller owes a DISPENSE after the changer's ACK.
fn owed_acked(choice: Choice, owed: bool) -> bool
    ensures { result ≡ spec.owed_acked choice owed }
{
    match choice {
        Choice::Lost => owed,
        Choice::Plain | Choice::Restart | Choice::Again => false,
    }
}

/// Whether kept messages may be new.
fn may_all_be_new(facts: &ChangerFacts, news: &[ChangerActivity]) -> bool
    ensures { IsTrue result ↔ AllByRecursion (spec.MayBeNew (facts_in facts.now)) news.now }
{
    news.iter().all(|message| may_be_new(facts, *message))
}

/// Whether a kept message may be new.
fn may_be_new(facts: &ChangerFacts, message: ChangerActivity) -> bool
    ensures { IsTrue result ↔ spec.MayBeNew (facts_in facts.now) message }
{
    match message {
        ChangerActivity::CashBox(coin) | ChangerActivity::Tube(coin) => facts.is_enabled(coin),
        ChangerActivity::Dispensed { .. } => true,
    }
}
