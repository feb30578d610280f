//! A cashless reader and the controller by either profile.

ghost use Rattle.std.specs.Prelude.{◌≡◌, ◌<◌, ◌≤◌, ◌+◌, ◌↔◌, ℕ, Contains, length};
ghost use Rattle.mdb_msgs.specs.declared.command.Device.TheVariants as devices;
ghost use Rattle.mdb_machine.specs.declared.gains.Gains.{Gains};
ghost use Rattle.mdb_cashless.specs.declared.by_profile.state.TheConstants.{STATES_BY_PROFILE};
ghost use Rattle.mdb_cashless.specs.declared.reader.state.TheConstants.{READER_STATES};
ghost use Rattle.mdb_cashless.specs.declared.approvals.state.TheConstants.{APPROVAL_STATES};
ghost use Rattle.mdb_cashless.specs.ByProfile as spec;
ghost use Rattle.mdb_cashless.specs.ByProfileFacts as by_profile;
ghost use Rattle.mdb_cashless.specs.ByProfileValues as by_profile_values;
ghost use Rattle.mdb_cashless.specs.Units as units;
ghost use Rattle.mdb_cashless.specs.shared.ByProfileCodes as codes;
ghost use Rattle.mdb_cashless.specs.shared.ByProfileWays as ways;

pub(crate) mod facts;
pub(crate) mod state;

use crate::approvals::Approvals;
use crate::approvals::state::APPROVAL_STATES;
use crate::reader::Reader;
use crate::reader::state::READER_STATES;
use crate::reader::unit::unit_of;
use arrayvec::ArrayVec;
use facts::KnownByProfile;
use mdb_bus::{Act, Beginning, Profile};
use mdb_machine::{Choice, Gains, Pair};
use mdb_msgs::Device;
use state::{STATES_BY_PROFILE, StateByProfile};

/// A cashless reader and the controller's dealings with it, by the profile that a recording is
/// followed by: the base one as [`Reader`], and the extended one as [`Approvals`]. `UNIT` 0 is the
/// reader at 10H, and any other number that at 60H. Its accounts are what was approved, and what
/// was sold.
pub struct ReaderByProfile<const UNIT: usize>;

impl<const UNIT: usize> Pair for ReaderByProfile<UNIT> {
    const CODES: usize = STATES_BY_PROFILE;

    ghost CODES = { STATES_BY_PROFILE };

    type Facts = KnownByProfile;

    type State = StateByProfile;

    ghost device = { devices.Reader (units.unit_of UNIT) };

    ghost code_of = { codes.code_of };

    ghost stands_for = { λ begins known acts.
        by_profile_values.known_in known ≡ by_profile.facts_of begins (units.unit_of UNIT) acts };

    ghost machine = { spec.machine (units.unit_of UNIT) };

    ghost settled = { ways.settled (units.unit_of UNIT) };

    ghost unvalued = { by_profile.unvalued (units.unit_of UNIT) };

    fn device() -> Device {
        Device::Reader(unit_of(UNIT))
    }

    fn may_start(begins: &Beginning, state: StateByProfile) -> bool {
        match (begins.profile(), state) {
            (Profile::Base, StateByProfile::Base(state)) => {
                Reader::<UNIT>::may_start(begins, state)
            }
            (Profile::Extended, StateByProfile::Extended(state)) => {
                Approvals::<UNIT>::may_start(begins, state)
            }
            _ => false,
        }
    }

    fn power_on(profile: Profile) -> StateByProfile {
        match profile {
            Profile::Base => StateByProfile::Base(Reader::<UNIT>::power_on(profile)),
            Profile::Extended => StateByProfile::Extended(Approvals::<UNIT>::power_on(profile)),
        }
    }

    fn facts_start(begins: &Beginning) -> KnownByProfile {
        match begins.profile() {
            Profile::Base => KnownByProfile::Base(Reader::<UNIT>::facts_start(begins)),
            Profile::Extended => KnownByProfile::Extended(Approvals::<UNIT>::facts_start(begins)),
        }
    }

    #[inline(always)]
    fn learn(known: &mut KnownByProfile, act: &Act) {
        match known {
            KnownByProfile::Base(known) => Reader::<UNIT>::learn(known, act),
            KnownByProfile::Extended(facts) => Approvals::<UNIT>::learn(facts, act),
        }
    }

    #[inline(always)]
    fn settles(known: &KnownByProfile, act: &Act) -> bool {
        match known {
            KnownByProfile::Base(known) => Reader::<UNIT>::settles(known, act),
            KnownByProfile::Extended(facts) => Approvals::<UNIT>::settles(facts, act),
        }
    }

    #[inline(always)]
    fn unvalued_by(known: &KnownByProfile, act: &Act) -> u64 {
        match known {
            KnownByProfile::Base(known) => Reader::<UNIT>::unvalued_by(known, act),
            KnownByProfile::Extended(facts) => Approvals::<UNIT>::unvalued_by(facts, act),
        }
    }

    #[inline(always)]
    fn concerns(act: &Act) -> bool {
        match act {
            Act::Break(_) => true,
            _ => Reader::<UNIT>::concerns(act) || Approvals::<UNIT>::concerns(act),
        }
    }

    fn rests(act: &Act, state: StateByProfile) -> bool {
        match (act, state) {
            (Act::Break(_), _) => false,
            (_, StateByProfile::Base(state)) => Reader::<UNIT>::rests(act, state),
            (_, StateByProfile::Extended(state)) => Approvals::<UNIT>::rests(act, state),
        }
    }

    #[inline(always)]
    fn heeds_choice(act: &Act, state: StateByProfile) -> bool {
        match state {
            StateByProfile::Base(state) => Reader::<UNIT>::heeds_choice(act, state),
            StateByProfile::Extended(state) => Approvals::<UNIT>::heeds_choice(act, state),
        }
    }

    fn code(state: StateByProfile) -> usize {
        match state {
            StateByProfile::Base(state) => Reader::<UNIT>::code(state),
            StateByProfile::Extended(state) => READER_STATES + Approvals::<UNIT>::code(state),
        }
    }

    fn state(code: usize) -> StateByProfile {
        if code < READER_STATES {
            StateByProfile::Base(Reader::<UNIT>::state(code))
        } else {
            StateByProfile::Extended(Approvals::<UNIT>::state(code - READER_STATES))
        }
    }

    fn step_from(
        known: &KnownByProfile,
        act: &Act,
        choice: Choice,
        before: StateByProfile,
    ) -> Option<(StateByProfile, Gains)> {
        match (known, before) {
            (KnownByProfile::Base(known), StateByProfile::Base(state)) => {
                let (after, gains) = Reader::<UNIT>::step_from(known, act, choice, state)?;
                Some((StateByProfile::Base(after), gains))
            }
            (KnownByProfile::Extended(facts), StateByProfile::Extended(state)) => {
                let (after, gains) = Approvals::<UNIT>::step_from(facts, act, choice, state)?;
                Some((StateByProfile::Extended(after), gains))
            }
            _ => Some((known.strayed(act, before), Gains::none())),
        }
    }

    fn steps(
        known: &KnownByProfile,
        act: &Act,
        code: usize,
        choice: Choice,
    ) -> ArrayVec<(usize, Gains), 144> {
        match known {
            KnownByProfile::Base(known) if code < READER_STATES => {
                Reader::<UNIT>::steps(known, act, code, choice)
            }
            KnownByProfile::Extended(facts) if code >= READER_STATES => {
                let steps = Approvals::<UNIT>::steps(facts, act, code - READER_STATES, choice);
                raised(steps.as_slice())
            }
            _ => {
                let after = known.strayed(act, Self::state(code));
                let mut steps = ArrayVec::new();
                steps.push((Self::code(after), Gains::none()));
                steps
            }
        }
    }

    ghost apart = { codes.apart };

    ghost below = { codes.below };

    ghost whole = { codes.whole };

    ghost some_start = { ways.some_start (units.unit_of UNIT) };

    ghost is_machine = { ways.is_machine (units.unit_of UNIT) };

    ghost settled_from_power_on = { ways.settled_from_power_on (units.unit_of UNIT) };

    ghost untold = { ways.untold (units.unit_of UNIT) };

    ghost unmoved = { λ begins known. ways.unmoved (units.unit_of UNIT) begins
        (by_profile_values.known_in known) };
}

/// Steps by the extended profile, with the codes by either profile.
fn raised(steps: &[(usize, Gains)]) -> ArrayVec<(usize, Gains), 144>
    requires few { length steps.now ≤ 144 }
    requires below { (code : ℕ) (gains : Gains) → Contains steps.now (code, gains)
        → code < APPROVAL_STATES }
    ensures { (next : ℕ) (gains : Gains) → Contains result.items (next, gains)
        ↔ (code : ℕ) × (READER_STATES + code ≡ next) × Contains steps.now (code, gains) }
{
    let mut raised = ArrayVec::new();
    for (code, gains) in steps {
        raised.push((READER_STATES + *code, *gains));
    }
    raised
}
