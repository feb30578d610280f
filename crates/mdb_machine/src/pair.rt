//! A device and the controller.

ghost use Rattle.std.specs.Prelude.{◌≡◌, ◌<◌, ◌≤◌, ◌+◌, ◌↔◌, ℕ, Bool, true, IsTrue, List, [], ◌∷◌, Contains, Some, IfSome, length};
ghost use Rattle.std.specs.Bool.{OnFalse, OnTrue};
ghost use Rattle.mdb_msgs.specs.declared.command.Device.{Device};
ghost use Rattle.mdb_bus.specs.declared.act.Act.{Act};
ghost use Rattle.mdb_bus.specs.declared.scope.Beginning.{Beginning};
ghost use Rattle.mdb_bus.specs.declared.scope.Beginning.TheVariants.{PowerOn};
ghost use Rattle.mdb_bus.specs.declared.scope.Profile.{Profile};
ghost use Rattle.mdb_machine.specs.declared.choice.Choice.{Choice};
ghost use Rattle.mdb_machine.specs.declared.choice.Choice.TheVariants.{Plain};
ghost use Rattle.mdb_machine.specs.declared.gains.Gains.{Gains};
ghost use Rattle.mdb_machine.specs.Choices.{CanStand};
ghost use Rattle.mdb_machine.specs.Gains.{Stays, no_gains};
ghost use Rattle.mdb_machine.specs.SmallGains.{IsSmall};
ghost use Rattle.mdb_machine.specs.Machine.{Machine};
ghost use Rattle.mdb_machine.specs.Pair.{CanStandFor, IsActOf, IsChosenStep, IsMachineOf, IsOfAnother, IsOnlyStep, IsOtherMove, IsStep};

use super::choice::{Choice, other_choice};
use super::gains::Gains;
use arrayvec::ArrayVec;
use mdb_bus::{Act, Beginning, Profile};
use mdb_msgs::Device;

/// A device and the controller's dealings with it: its states as codes, its facts, and its steps.
///
/// The facts are a running value. They hold what is known of what counts of the acts so far, and
/// don't grow with their number. Lists of acts are written newest first.
pub trait Pair {
    /// The number of states. All codes are below it.
    const CODES: usize;

    ghost CODES: { ℕ };

    /// What is known after the acts so far.
    type Facts: Drop;

    /// The states.
    type State: Copy + Default;

    /// The device.
    ghost device: { Device };

    /// The code of a state.
    ghost code_of: { Self.State → ℕ };

    /// The facts are those after acts, in a recording that begins so.
    ghost stands_for: { Beginning → Self.Facts → List Act → Type 0 };

    /// The states in which it may start, and its steps, in a recording that begins so.
    ghost machine: { Beginning → Machine Self.State };

    /// Whether the facts settle an act: there is one step at most by it under each choice, from a
    /// state. From power-on they settle each act. In a recording that begins in mid-session a step
    /// may depend on what isn't known.
    ghost settled: { Self.Facts → Act → Bool };

    /// How many amounts the acts tell that have no value, since nothing tells how the device is set
    /// up.
    ghost unvalued: { Beginning → List Act → ℕ };

    /// The device.
    fn device() -> Device
        ensures { result ≡ device };

    /// Whether it may start in a state, where a recording begins so.
    fn may_start(begins: &Beginning, state: Self::State) -> bool
        ensures { IsTrue result ↔ (machine begins.now).Starts state };

    /// The one state in which it starts at power-on, by a profile.
    fn power_on(profile: Profile) -> Self::State
        ensures { (state : Self.State)
            → (machine (PowerOn profile)).Starts state ↔ (state ≡ result) };

    /// The facts after no act, where a recording begins so.
    fn facts_start(begins: &Beginning) -> Self::Facts
        ensures { stands_for begins.now result [] };

    /// Takes one act more into the facts.
    fn learn(facts: &mut Self::Facts, act: &Act)
        ensures { (begins : Beginning) (acts : List Act) → stands_for begins facts.old acts
            → stands_for begins facts.new (act.now ∷ acts) };

    /// Whether the facts settle an act.
    fn settles(facts: &Self::Facts, act: &Act) -> bool
        ensures { result ≡ settled facts.now act.now };

    /// How many amounts an act tells that have no value, after the acts before it.
    fn unvalued_by(facts: &Self::Facts, act: &Act) -> u64
        ensures adds { (begins : Beginning) (acts : List Act) → stands_for begins facts.now acts
            → unvalued begins (act.now ∷ acts) ≡ result + unvalued begins acts }
        ensures small { result ≤ 35 };

    /// Whether an act may change a state or a sum. One that is no matter of this pair leaves both.
    /// No act of another device is.
    ///
    /// A machine may know more of its acts than that they are its own.
    fn concerns(act: &Act) -> bool
        ensures own { OnTrue result (IsActOf device act.now) }
        ensures still { OnFalse result ((begins : Beginning) (acts : List Act) (choice : Choice)
            (before after : Self.State) (gains : Gains)
            → (machine begins).Step acts act.now choice before after gains
            ↔ Stays before after gains) }
    {
        is_act_of(Self::device(), act)
    }

    /// Whether an act leaves a state and the sums, whatever the choice: an ACK to POLL does, where
    /// nothing is held. It may say no though the act does.
    fn rests(act: &Act, state: Self::State) -> bool
        ensures { OnTrue result ((begins : Beginning) (acts : List Act) (choice : Choice)
            (after : Self.State) (gains : Gains)
            → (machine begins).Step acts act.now choice state after gains
            ↔ Stays state after gains) }
    {
        false
    }

    /// Whether it may matter, from a state, what is chosen of an act: where it doesn't, each choice
    /// that can stand on the act leads nowhere else than the plain one. (One that can't never leads
    /// elsewhere.) It may say yes though no choice does.
    fn heeds_choice(act: &Act, state: Self::State) -> bool
        ensures { OnFalse result ((begins : Beginning) (acts : List Act) (choice : Choice)
            (after : Self.State) (gains : Gains) → CanStand act.now choice
            → (machine begins).Step acts act.now choice state after gains
            → (machine begins).Step acts act.now Plain state after gains) }
    {
        true
    }

    /// The code of a state.
    fn code(state: Self::State) -> usize
        ensures { result ≡ code_of state };

    /// The state of a code.
    fn state(code: usize) -> Self::State
        requires { code < CODES }
        ensures { code_of result ≡ code };

    /// The step by an act that the facts settle, under a choice and from a state: the state after
    /// it, and what it adds to the sums. `None` where there is no such step.
    fn step_from(
        facts: &Self::Facts,
        act: &Act,
        choice: Choice,
        before: Self::State,
    ) -> Option<(Self::State, Gains)>
        requires { settled facts.now act.now ≡ true }
        ensures step { (begins : Beginning) (acts : List Act) → stands_for begins facts.now acts
            → IsOnlyStep ((machine begins).Step acts act.now choice before) result }
        ensures small { IfSome result (λ step. IsSmall step.1) };

    /// The steps that an act is, settled or not, under a choice and from the state of a code: the
    /// code after each, and what it adds to the sums. One may be told more than once.
    fn steps(
        facts: &Self::Facts,
        act: &Act,
        code: usize,
        choice: Choice,
    ) -> ArrayVec<(usize, Gains), 144>
        requires { code < CODES }
        ensures steps { (begins : Beginning) (acts : List Act) → stands_for begins facts.now acts
            → (next : ℕ) (gains : Gains) → Contains result.items (next, gains)
            ↔ IsStep code_of ((machine begins).Step acts act.now choice) code next gains }
        ensures below { (next : ℕ) (gains : Gains) → Contains result.items (next, gains)
            → (next < CODES) × IsSmall gains };

    /// Two states have two codes.
    ghost apart: { (one other : Self.State) → code_of one ≡ code_of other → one ≡ other };

    /// Each state has a code below the number of states.
    ghost below: { (state : Self.State) → code_of state < CODES };

    /// Each code below the number of states is that of a state.
    ghost whole: { (code : ℕ) → code < CODES → (state : Self.State) × (code_of state ≡ code) };

    /// There is a state in which it may start.
    ghost some_start: { (begins : Beginning) → (state : Self.State)
        × (machine begins).Starts state };

    /// The machine is one of the device.
    ghost is_machine: { (begins : Beginning) → IsMachineOf device (machine begins) };

    /// From power-on the facts settle each act.
    ghost settled_from_power_on: { (profile : Profile) (facts : Self.Facts) (acts : List Act)
        (act : Act) → stands_for (PowerOn profile) facts acts → settled facts act ≡ true };

    /// An act that isn't this device's tells no amount.
    ghost untold: { (begins : Beginning) (acts : List Act) (act : Act)
        → (IsActOf device act → ⊥) → unvalued begins (act ∷ acts) ≡ unvalued begins acts };

    /// An act that isn't this device's leaves the facts.
    ghost unmoved: { (begins : Beginning) (facts : Self.Facts) (acts : List Act) (act : Act)
        → (IsActOf device act → ⊥) → stands_for begins facts acts
        → stands_for begins facts (act ∷ acts) };

    /// The step that a settled act is under a choice, from the state of a code: the code after it,
    /// and what it adds to the sums. `None` where there is no such step, and where the choice can't
    /// stand on the act: on foreign traffic, on a break and on most acts of this device only the
    /// plain one can. An act of another device leaves the code, whatever the choice is.
    final fn step(
        facts: &Self::Facts,
        act: &Act,
        code: usize,
        choice: Choice,
    ) -> Option<(usize, Gains)>
        requires code { code < CODES }
        requires settled { settled facts.now act.now ≡ true }
        ensures steps { (begins : Beginning) (acts : List Act) → stands_for begins facts.now acts
            → (next : ℕ) (gains : Gains) → (result ≡ Some (next, gains))
            ↔ IsChosenStep device act.now code_of ((machine begins).Step acts act.now) choice code
            next gains }
        ensures barred { (CanStandFor device act.now choice → ⊥) → result ≡ None }
        ensures elsewhere { (begins : Beginning) (acts : List Act)
            → stands_for begins facts.now acts
            → IsOfAnother device act.now → result ≡ Some (code, no_gains) }
        ensures below { IfSome result (λ move. (move.0 < CODES) × IsSmall move.1) }
    {
        if !can_stand_for(Self::device(), act, choice) {
            return None;
        }
        let before = Self::state(code);
        let found = Self::step_from(facts, act, choice, before);
        match found {
            None => None,
            Some((after, gains)) => Some((Self::code(after), gains)),
        }
    }

    /// The step that a settled act is by its other choice than the plain one, from the state of a
    /// code: the code after it, and what it adds to the sums. `None` where there is no such step,
    /// and where no other choice can stand on the act.
    final fn other_step(facts: &Self::Facts, act: &Act, code: usize) -> Option<(usize, Gains)>
        requires code { code < CODES }
        requires settled { settled facts.now act.now ≡ true }
        ensures steps { (begins : Beginning) (acts : List Act) → stands_for begins facts.now acts
            → (next : ℕ) (gains : Gains) → (result ≡ Some (next, gains))
            ↔ IsOtherMove act.now code_of ((machine begins).Step acts act.now) code next gains }
        ensures below { IfSome result (λ move. (move.0 < CODES) × IsSmall move.1) }
    {
        match other_choice(act) {
            Some(choice) => Self::step(facts, act, code, choice),
            None => None,
        }
    }
}

/// A state that has a code.
pub trait HasCode: Copy {
    /// The code of a state.
    ghost code_of: { Self → ℕ };

    /// Its code.
    fn its_code(self) -> usize
        ensures { result ≡ code_of self };
}

/// Steps with the codes of the states after them.
pub fn coded<S: HasCode>(steps: &[(S, Gains)]) -> ArrayVec<(usize, Gains), 144>
    requires { length steps.now ≤ 144 }
    ensures { (next : ℕ) (gains : Gains) → Contains result.items (next, gains)
        ↔ (after : S) × (S.code_of after ≡ next) × Contains steps.now (after, gains) }
{
    let mut coded = ArrayVec::new();
    for (after, gains) in steps {
        coded.push((after.its_code(), *gains));
    }
    coded
}

/// Whether a choice can stand on an act where it is asked of a device: where it can stand on the
/// act, whosever that is. On an act of another device any can: there it says nothing.
pub fn can_stand_for(device: Device, act: &Act, choice: Choice) -> bool
    ensures { IsTrue result ↔ CanStandFor device act.now choice }
{
    choice.can_stand(act) || is_of_another(device, act)
}

/// Whether a device has a part in an act.
fn is_act_of(device: Device, act: &Act) -> bool
    ensures { IsTrue result ↔ IsActOf device act.now }
{
    match act {
        Act::Ask(command)
        | Act::Ack(command)
        | Act::Nak(command)
        | Act::Reply(command, _)
        | Act::VmcAck(command, _)
        | Act::VmcNak(command, _)
        | Act::VmcRet(command, _)
        | Act::Repeat(command, _) => command.device() == device,
        Act::Foreign => false,
        Act::Break(_) => true,
    }
}

/// Whether an act is another device's alone.
fn is_of_another(device: Device, act: &Act) -> bool
    ensures { IsTrue result ↔ IsOfAnother device act.now }
{
    !matches!(act, Act::Foreign) && !is_act_of(device, act)
}
