//! The changer as a device that keeps messages: its tables.

ghost use Rattle.std.proofs.Common.{rules};
ghost use Rattle.mdb_cash.specs.ChangerFacts as spec;

use super::Changer;
use super::activity::ChangerActivity;
use mdb_machine::keeper::{Keeper, KeeperFacts, KeeperKnown};
use mdb_machine::past::Effect;
use mdb_msgs::{ChangerCommand, ChangerMsg, ChangerSetup, Command, Reply, Setups};

/// What counts of the acts so far for the changer (this profile): a running value, which doesn't
/// grow with them.
pub(crate) type ChangerFacts = KeeperFacts<Changer>;

/// What is known of it, where a recording may begin in mid-session.
pub type ChangerKnown = KeeperKnown<Changer>;

impl Keeper for Changer {
    type Own = ChangerCommand;

    type Setup = ChangerSetup;

    type Asked = u8;

    type Kept = ChangerActivity;

    ghost tables = { spec.tables };

    #[inline(always)]
    fn own(command: &Command) -> Option<ChangerCommand> {
        match *command {
            Command::Changer(command) => Some(command),
            _ => None,
        }
    }

    fn is_poll(command: ChangerCommand) -> bool {
        matches!(command, ChangerCommand::Poll)
    }

    fn effect_of(command: ChangerCommand) -> Effect {
        match command {
            ChangerCommand::Reset => Effect::Reset,
            ChangerCommand::CoinType { enable, .. } => Effect::Enable(enable),
            _ => Effect::Other,
        }
    }

    #[inline(always)]
    fn asked_of(command: ChangerCommand) -> Option<u8> {
        match command {
            ChangerCommand::Dispense(coins) => Some(coins),
            _ => None,
        }
    }

    fn setup_of(reply: &Reply) -> Option<ChangerSetup> {
        match reply {
            Reply::ChangerSetup(setup) => Some(setup.copy()),
            _ => None,
        }
    }

    fn setup_known(setups: &Setups) -> Option<ChangerSetup> {
        setups.changer.as_ref().map(|setup| setup.copy())
    }

    fn setup_copy(setup: &ChangerSetup) -> ChangerSetup {
        setup.copy()
    }

    fn decimals_of(setup: &ChangerSetup) -> u8 {
        setup.decimals
    }

    fn messages_in(reply: &Reply) -> &[ChangerMsg] {
        match reply {
            Reply::ChangerPoll(list) => list.as_slice(),
            _ => &[],
        }
    }

    ghost few_bytes = { Prim.search rules };

    ghost small_setup = { Prim.search rules };

    ghost small_asked = { Prim.search rules };
}
