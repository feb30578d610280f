//! A cashless reader and the controller.

ghost use Rattle.std.specs.Prelude.{◌≡◌, ◌<◌, List, [], ◌∷◌};
ghost use Rattle.mdb_msgs.specs.declared.command.Device.TheVariants as devices;
ghost use Rattle.mdb_bus.specs.declared.act.Act.{Act};
ghost use Rattle.mdb_cashless.specs.declared.reader.state.TheConstants.{READER_STATES};
ghost use Rattle.mdb_cashless.specs.Reader as spec;
ghost use Rattle.mdb_cashless.specs.ReaderAmounts as reader_amounts;
ghost use Rattle.mdb_cashless.specs.shared.ReaderCodes as codes;
ghost use Rattle.mdb_cashless.specs.ReaderFacts.{known_of};
ghost use Rattle.mdb_cashless.specs.ReaderValues.{known_in, settled};
ghost use Rattle.mdb_cashless.specs.inner.KnowingReader as knowing;
ghost use Rattle.mdb_cashless.specs.shared.ReaderWays as ways;
ghost use Rattle.mdb_cashless.specs.Units as units;

mod answers;
pub(crate) mod device;
pub(crate) mod facts;
mod guesses;
pub(crate) mod known;
pub(crate) mod messages;
pub(crate) mod state;
mod steps;
mod taking;
pub(crate) mod transaction;
pub(crate) mod unit;
pub(crate) mod unvalued;
pub(crate) mod values;
pub(crate) mod view;

use arrayvec::ArrayVec;
use guesses::{step_settled, steps};
use known::ReaderKnown;
use mdb_bus::{Act, Beginning, Profile};
use mdb_machine::{Choice, Gains, HasCode, Pair, coded};
use mdb_msgs::Device;
use state::{READER_STATES, ReaderState};
use steps::{concerns, heeds_choice, rests};
use unit::unit_of;
use unvalued::unvalued_by;

/// A cashless reader and the controller's dealings with it (MDB/ICP 4.3, cashless device). `UNIT` 0
/// is the reader at 10H, and any other number that at 60H. Its accounts are what was approved,
/// and what was sold.
pub struct Reader<const UNIT: usize>;

impl HasCode for ReaderState {
    ghost code_of = { codes.code_of };

    fn its_code(self) -> usize {
        self.code()
    }
}

impl<const UNIT: usize> Pair for Reader<UNIT> {
    const CODES: usize = READER_STATES;

    ghost CODES = { READER_STATES };

    type Facts = ReaderKnown;

    type State = ReaderState;

    ghost device = { devices.Reader (units.unit_of UNIT) };

    ghost code_of = { codes.code_of };

    ghost stands_for = { λ begins known acts.
        known_in known ≡ known_of begins (units.unit_of UNIT) acts };

    ghost machine = { spec.machine (units.unit_of UNIT) };

    ghost settled = { settled (units.unit_of UNIT) };

    ghost unvalued = { reader_amounts.unvalued (units.unit_of UNIT) };

    fn device() -> Device {
        Device::Reader(unit_of(UNIT))
    }

    fn may_start(begins: &Beginning, state: ReaderState) -> bool {
        match begins {
            Beginning::PowerOn(_) => state == ReaderState::power_on(),
            Beginning::Joined(_, _) => true,
        }
    }

    fn power_on(_: Profile) -> ReaderState {
        ReaderState::power_on()
    }

    fn facts_start(begins: &Beginning) -> ReaderKnown {
        ReaderKnown::start(begins, unit_of(UNIT))
    }

    #[inline(always)]
    fn learn(known: &mut ReaderKnown, act: &Act) {
        known.learn(unit_of(UNIT), act);
    }

    #[inline(always)]
    fn settles(known: &ReaderKnown, act: &Act) -> bool {
        known.settles(unit_of(UNIT), act)
    }

    #[inline(always)]
    fn unvalued_by(known: &ReaderKnown, act: &Act) -> u64 {
        unvalued_by(unit_of(UNIT), known, act)
    }

    #[inline(always)]
    fn concerns(act: &Act) -> bool {
        concerns(unit_of(UNIT), act)
    }

    fn rests(act: &Act, state: ReaderState) -> bool {
        rests(unit_of(UNIT), act, state)
    }

    #[inline(always)]
    fn heeds_choice(act: &Act, state: ReaderState) -> bool {
        heeds_choice(act, state)
    }

    fn code(state: ReaderState) -> usize {
        state.code()
    }

    fn state(code: usize) -> ReaderState {
        ReaderState::at(code)
    }

    fn step_from(
        known: &ReaderKnown,
        act: &Act,
        choice: Choice,
        before: ReaderState,
    ) -> Option<(ReaderState, Gains)> {
        step_settled(unit_of(UNIT), known, act, choice, before)
    }

    fn steps(
        known: &ReaderKnown,
        act: &Act,
        code: usize,
        choice: Choice,
    ) -> ArrayVec<(usize, Gains), 144> {
        let steps = steps(unit_of(UNIT), known, act, choice, ReaderState::at(code));
        coded(steps.as_slice())
    }

    ghost apart = { codes.apart };

    ghost below = { codes.below };

    ghost whole = { codes.whole };

    ghost some_start = { ways.some_start (units.unit_of UNIT) };

    ghost is_machine = { ways.is_machine (units.unit_of UNIT) };

    ghost settled_from_power_on = { knowing.settled_from_power_on (units.unit_of UNIT) };

    ghost untold = { ways.untold (units.unit_of UNIT) };

    ghost unmoved = { λ begins known. ways.unmoved (units.unit_of UNIT) begins (known_in known) };
}
