//! The validator as a device that keeps messages: its tables.

ghost use Rattle.std.proofs.Common.{rules};
ghost use Rattle.mdb_cash.specs.BillFacts as spec;

use super::Bill;
use super::activity::BillActivity;
use mdb_machine::keeper::{Keeper, KeeperFacts, KeeperKnown};
use mdb_machine::past::Effect;
use mdb_msgs::{BillCommand, BillMsg, BillSetup, Command, Reply, Setups};
use std::convert::Infallible;

/// What counts of the acts so far for the validator (this profile): a running value, which doesn't
/// grow with them.
pub(crate) type BillFacts = KeeperFacts<Bill>;

/// What is known of it, where a recording may begin in mid-session.
pub type BillKnown = KeeperKnown<Bill>;

impl Keeper for Bill {
    type Own = BillCommand;

    type Setup = BillSetup;

    type Asked = Infallible;

    type Kept = BillActivity;

    ghost tables = { spec.tables };

    #[inline(always)]
    fn own(command: &Command) -> Option<BillCommand> {
        match *command {
            Command::Bill(command) => Some(command),
            _ => None,
        }
    }

    fn is_poll(command: BillCommand) -> bool {
        matches!(command, BillCommand::Poll)
    }

    fn effect_of(command: BillCommand) -> Effect {
        match command {
            BillCommand::Reset => Effect::Reset,
            BillCommand::BillType { enable, .. } => Effect::Enable(enable),
            _ => Effect::Other,
        }
    }

    #[inline(always)]
    fn asked_of(_command: BillCommand) -> Option<Infallible> {
        None
    }

    fn setup_of(reply: &Reply) -> Option<BillSetup> {
        match reply {
            Reply::BillSetup(setup) => Some(setup.copy()),
            _ => None,
        }
    }

    fn setup_known(setups: &Setups) -> Option<BillSetup> {
        setups.bill.as_ref().map(|setup| setup.copy())
    }

    fn setup_copy(setup: &BillSetup) -> BillSetup {
        setup.copy()
    }

    fn decimals_of(setup: &BillSetup) -> u8 {
        setup.decimals
    }

    fn messages_in(reply: &Reply) -> &[BillMsg] {
        match reply {
            Reply::BillPoll(list) => list.as_slice(),
            _ => &[],
        }
    }

    ghost few_bytes = { Prim.search rules };

    ghost small_setup = { Prim.search rules };

    ghost small_asked = { Prim.search rules };
}
