//! A cashless reader and the controller by the extended profile.

ghost use Rattle.std.specs.Prelude.{◌≡◌};
ghost use Rattle.mdb_msgs.specs.declared.command.Device.TheVariants as devices;
ghost use Rattle.mdb_cashless.specs.declared.approvals.state.TheConstants.{APPROVAL_STATES};
ghost use Rattle.mdb_cashless.specs.ExtendedFacts.{facts_of};
ghost use Rattle.mdb_cashless.specs.ExtendedReader as spec;
ghost use Rattle.mdb_cashless.specs.ExtendedAmounts as extended_amounts;
ghost use Rattle.mdb_cashless.specs.Units as units;
ghost use Rattle.mdb_cashless.specs.inner.Approvals.{facts_in, settled};
ghost use Rattle.mdb_cashless.specs.shared.ApprovalCodes as codes;
ghost use Rattle.mdb_cashless.specs.shared.ApprovalWays as ways;

pub(crate) mod facts;
mod matters;
pub(crate) mod sale;
pub(crate) mod state;
mod steps;
mod ways;

use crate::reader::unit::unit_of;
use arrayvec::ArrayVec;
use facts::ApprovalFacts;
use matters::{concerns, heeds_choice, rests, unvalued_by};
use mdb_bus::{Act, Beginning, Profile};
use mdb_machine::{Choice, Gains, HasCode, Pair, coded};
use mdb_msgs::Device;
use state::{APPROVAL_STATES, ApprovalState};
use steps::step;
use ways::{settles, steps};

/// A cashless reader and the controller's dealings with it by the extended profile (this profile):
/// what money hangs on. `UNIT` 0 is the reader at 10H, and any other number that at 60H. Its
/// accounts are what was approved, and what was sold.
pub struct Approvals<const UNIT: usize>;

impl HasCode for ApprovalState {
    ghost code_of = { codes.code_of };

    fn its_code(self) -> usize {
        self.code()
    }
}

impl<const UNIT: usize> Pair for Approvals<UNIT> {
    const CODES: usize = APPROVAL_STATES;

    ghost CODES = { APPROVAL_STATES };

    type Facts = ApprovalFacts;

    type State = ApprovalState;

    ghost device = { devices.Reader (units.unit_of UNIT) };

    ghost code_of = { codes.code_of };

    ghost stands_for = { λ begins facts acts.
        facts_in facts ≡ facts_of begins (units.unit_of UNIT) acts };

    ghost machine = { spec.machine (units.unit_of UNIT) };

    ghost settled = { settled (units.unit_of UNIT) };

    ghost unvalued = { extended_amounts.unvalued (units.unit_of UNIT) };

    fn device() -> Device {
        Device::Reader(unit_of(UNIT))
    }

    fn may_start(begins: &Beginning, state: ApprovalState) -> bool {
        match begins {
            Beginning::PowerOn(_) => state == ApprovalState::power_on(),
            Beginning::Joined(_, _) => true,
        }
    }

    fn power_on(_: Profile) -> ApprovalState {
        ApprovalState::power_on()
    }

    fn facts_start(begins: &Beginning) -> ApprovalFacts {
        ApprovalFacts::start(begins, unit_of(UNIT))
    }

    #[inline(always)]
    fn learn(facts: &mut ApprovalFacts, act: &Act) {
        facts.learn(unit_of(UNIT), act);
    }

    #[inline(always)]
    fn settles(facts: &ApprovalFacts, act: &Act) -> bool {
        settles(unit_of(UNIT), facts, act)
    }

    #[inline(always)]
    fn unvalued_by(facts: &ApprovalFacts, act: &Act) -> u64 {
        unvalued_by(unit_of(UNIT), facts, act)
    }

    #[inline(always)]
    fn concerns(act: &Act) -> bool {
        concerns(unit_of(UNIT), act)
    }

    fn rests(act: &Act, state: ApprovalState) -> bool {
        rests(unit_of(UNIT), act, state)
    }

    #[inline(always)]
    fn heeds_choice(act: &Act, state: ApprovalState) -> bool {
        heeds_choice(act, state)
    }

    fn code(state: ApprovalState) -> usize {
        state.code()
    }

    fn state(code: usize) -> ApprovalState {
        ApprovalState::at(code)
    }

    fn step_from(
        facts: &ApprovalFacts,
        act: &Act,
        choice: Choice,
        before: ApprovalState,
    ) -> Option<(ApprovalState, Gains)> {
        step(unit_of(UNIT), facts, act, choice, before)
    }

    fn steps(
        facts: &ApprovalFacts,
        act: &Act,
        code: usize,
        choice: Choice,
    ) -> ArrayVec<(usize, Gains), 144> {
        let steps = steps(unit_of(UNIT), facts, act, choice, ApprovalState::at(code));
        coded(steps.as_slice())
    }

    ghost apart = { codes.apart };

    ghost below = { codes.below };

    ghost whole = { codes.whole };

    ghost some_start = { ways.some_start (units.unit_of UNIT) };

    ghost is_machine = { ways.is_machine (units.unit_of UNIT) };

    ghost settled_from_power_on = { ways.settled_from_power_on (units.unit_of UNIT) };

    ghost untold = { ways.untold (units.unit_of UNIT) };

    ghost unmoved = { λ begins facts. ways.unmoved (units.unit_of UNIT) begins (facts_in facts) };
}
