//! The coin changer and the controller.

ghost use Rattle.std.specs.Prelude.{◌≡◌, ◌<◌, List, [], ◌∷◌};
ghost use Rattle.mdb_msgs.specs.declared.command.Device.TheVariants as devices;
ghost use Rattle.mdb_bus.specs.declared.act.Act.{Act};
ghost use Rattle.mdb_cash.specs.declared.changer.state.TheConstants.{CHANGER_STATES};
ghost use Rattle.mdb_cash.specs.Changer as spec;
ghost use Rattle.mdb_cash.specs.ChangerAmounts as changer_amounts;
ghost use Rattle.mdb_cash.specs.shared.ChangerCodes as codes;
ghost use Rattle.mdb_cash.specs.ChangerFacts.{known_of, tables};
ghost use Rattle.mdb_machine.specs.KeeperValues as values;
ghost use Rattle.mdb_cash.specs.shared.ChangerWays as ways;

pub(crate) mod activity;
mod conduct;
mod matters;
pub(crate) mod state;
pub(crate) mod tables;
mod values;

pub use activity::ChangerActivity;
use arrayvec::ArrayVec;
use matters::{concerns, heeds_choice, rests};
use mdb_bus::{Act, Beginning, Profile};
use mdb_machine::conduct::{step_settled, steps, unvalued_by};
use mdb_machine::{Choice, Gains, HasCode, Pair, coded};
use mdb_msgs::Device;
pub use state::{CHANGER_STATES, ChangerState};
pub use tables::ChangerKnown;

/// The coin changer and the controller's dealings with it (MDB/ICP 4.3, coin changer). Its accounts
/// are coins-in and paid-out.
pub struct Changer;

impl HasCode for ChangerState {
    ghost code_of = { codes.code_of };

    fn its_code(self) -> usize {
        self.code()
    }
}

impl Pair for Changer {
    const CODES: usize = CHANGER_STATES;

    ghost CODES = { CHANGER_STATES };

    type Facts = ChangerKnown;

    type State = ChangerState;

    ghost device = { devices.Changer };

    ghost code_of = { codes.code_of };

    ghost stands_for = { λ begins known acts. values.known_in known ≡ known_of begins acts };

    ghost machine = { spec.machine };

    ghost settled = { λ known act. values.settled tables known.knows_asked known.knows_kept act };

    ghost unvalued = { changer_amounts.unvalued };

    fn device() -> Device {
        Device::Changer
    }

    fn may_start(begins: &Beginning, state: ChangerState) -> bool {
        match begins {
            Beginning::PowerOn(_) => state == ChangerState::power_on(),
            Beginning::Joined(_, _) => true,
        }
    }

    fn power_on(_: Profile) -> ChangerState {
        ChangerState::power_on()
    }

    fn facts_start(begins: &Beginning) -> ChangerKnown {
        ChangerKnown::start(begins)
    }

    #[inline(always)]
    fn learn(known: &mut ChangerKnown, act: &Act) {
        known.learn(act);
    }

    fn settles(known: &ChangerKnown, act: &Act) -> bool {
        known.settles(act)
    }

    #[inline(always)]
    fn unvalued_by(known: &ChangerKnown, act: &Act) -> u64 {
        unvalued_by(known, act)
    }

    #[inline(always)]
    fn concerns(act: &Act) -> bool {
        concerns(act)
    }

    fn rests(act: &Act, state: ChangerState) -> bool {
        rests(act, state)
    }

    #[inline(always)]
    fn heeds_choice(act: &Act, state: ChangerState) -> bool {
        heeds_choice(act, state)
    }

    fn code(state: ChangerState) -> usize {
        state.code()
    }

    fn state(code: usize) -> ChangerState {
        ChangerState::at(code)
    }

    fn step_from(
        known: &ChangerKnown,
        act: &Act,
        choice: Choice,
        before: ChangerState,
    ) -> Option<(ChangerState, Gains)> {
        step_settled(known, act, choice, before)
    }

    fn steps(
        known: &ChangerKnown,
        act: &Act,
        code: usize,
        choice: Choice,
    ) -> ArrayVec<(usize, Gains), 144> {
        let steps = steps(known, act, choice, ChangerState::at(code));
        coded(steps.as_slice())
    }

    ghost apart = { codes.apart };

    ghost below = { codes.below };

    ghost whole = { codes.whole };

    ghost some_start = { ways.some_start };

    ghost is_machine = { ways.is_machine };

    ghost settled_from_power_on = { ways.settled_from_power_on };

    ghost untold = { ways.untold };

    ghost unmoved = { λ begins known. ways.unmoved begins (values.known_in known) };
}
