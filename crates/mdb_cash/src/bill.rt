//! The bill validator and the controller.

ghost use Rattle.std.specs.Prelude.{◌≡◌, ◌<◌, List, [], ◌∷◌};
ghost use Rattle.mdb_msgs.specs.declared.command.Device.TheVariants as devices;
ghost use Rattle.mdb_bus.specs.declared.act.Act.{Act};
ghost use Rattle.mdb_cash.specs.declared.bill.state.TheConstants.{BILL_STATES};
ghost use Rattle.mdb_cash.specs.Bill as spec;
ghost use Rattle.mdb_cash.specs.BillAmounts as bill_amounts;
ghost use Rattle.mdb_cash.specs.shared.BillCodes as codes;
ghost use Rattle.mdb_cash.specs.BillFacts.{known_of, tables};
ghost use Rattle.mdb_machine.specs.KeeperValues as values;
ghost use Rattle.mdb_cash.specs.shared.BillWays as ways;

pub(crate) mod activity;
mod conduct;
mod matters;
pub(crate) mod state;
pub(crate) mod tables;
mod values;

pub use activity::BillActivity;
use arrayvec::ArrayVec;
use matters::{concerns, heeds_choice, rests};
use mdb_bus::{Act, Beginning, Profile};
use mdb_machine::conduct::{step_settled, steps, unvalued_by};
use mdb_machine::{Choice, Gains, HasCode, Pair, coded};
use mdb_msgs::Device;
pub use state::{BILL_STATES, BillState, BillType, Escrow};
pub use tables::BillKnown;

/// The bill validator and the controller's dealings with it (MDB/ICP 4.3, bill validator). Its
/// account is bills-in.
pub struct Bill;

impl HasCode for BillState {
    ghost code_of = { codes.code_of };

    fn its_code(self) -> usize {
        self.code()
    }
}

impl Pair for Bill {
    const CODES: usize = BILL_STATES;

    ghost CODES = { BILL_STATES };

    type Facts = BillKnown;

    type State = BillState;

    ghost device = { devices.Bill };

    ghost code_of = { codes.code_of };

    ghost stands_for = { λ begins known acts. values.known_in known ≡ known_of begins acts };

    ghost machine = { spec.machine };

    ghost settled = { λ known act. values.settled tables known.knows_asked known.knows_kept act };

    ghost unvalued = { bill_amounts.unvalued };

    fn device() -> Device {
        Device::Bill
    }

    fn may_start(begins: &Beginning, state: BillState) -> bool {
        match begins {
            Beginning::PowerOn(_) => state == BillState::power_on(),
            Beginning::Joined(_, _) => true,
        }
    }

    fn power_on(_: Profile) -> BillState {
        BillState::power_on()
    }

    fn facts_start(begins: &Beginning) -> BillKnown {
        BillKnown::start(begins)
    }

    #[inline(always)]
    fn learn(known: &mut BillKnown, act: &Act) {
        known.learn(act);
    }

    fn settles(known: &BillKnown, act: &Act) -> bool {
        known.settles(act)
    }

    #[inline(always)]
    fn unvalued_by(known: &BillKnown, act: &Act) -> u64 {
        unvalued_by(known, act)
    }

    #[inline(always)]
    fn concerns(act: &Act) -> bool {
        concerns(act)
    }

    fn rests(act: &Act, state: BillState) -> bool {
        rests(act, state)
    }

    #[inline(always)]
    fn heeds_choice(act: &Act, state: BillState) -> bool {
        heeds_choice(act, state)
    }

    fn code(state: BillState) -> usize {
        state.code()
    }

    fn state(code: usize) -> BillState {
        BillState::at(code)
    }

    fn step_from(
        known: &BillKnown,
        act: &Act,
        choice: Choice,
        before: BillState,
    ) -> Option<(BillState, Gains)> {
        step_settled(known, act, choice, before)
    }

    fn steps(
        known: &BillKnown,
        act: &Act,
        code: usize,
        choice: Choice,
    ) -> ArrayVec<(usize, Gains), 144> {
        let steps = steps(known, act, choice, BillState::at(code));
        coded(steps.as_slice())
    }

    ghost apart = { codes.apart };

    ghost below = { codes.below };

    ghost whole = { codes.whole };

    ghost some_start = { ways.some_start };

    ghost is_machine = { ways.is_machine };

    ghost settled_from_power_on = { ways.settled_from_power_on };

    ghost untold = { ways.untold };

    ghost unmoved = { λ begins known. ways.unmoved begins (values.known_in known) };
}
