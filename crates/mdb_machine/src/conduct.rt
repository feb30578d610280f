//! What a device that keeps messages does, and the controller with it.

ghost use Rattle.std.specs.Prelude.{◌≡◌, ◌≤◌, ◌<◌, ◌+◌, ◌^◌, ◌↔◌, ◌⊎◌, true, false, List, ◌∷◌, Contains, IfSome, Option, Some, length, option_and_then, sum_by};
ghost use Rattle.mdb_machine.specs.Gains.{by_slot};
ghost use Rattle.mdb_machine.specs.SmallGains.{AreSmall, IsSmall};
ghost use Rattle.mdb_machine.specs.KeeperConduct as spec;
ghost use Rattle.arrayvec.specs.ArrayVec.{array_vec_len};
ghost use Rattle.mdb_msgs.specs.declared.command.Command.{Command};
ghost use Rattle.mdb_bus.specs.declared.act.Act as lists;
ghost use Rattle.mdb_bus.specs.declared.scope.Beginning.{Beginning};
ghost use Rattle.mdb_machine.specs.declared.gains.Gains.{Gains};
ghost use Rattle.mdb_machine.specs.Keeper.{known_of};
ghost use Rattle.mdb_machine.specs.Unvalued.{amounts_in, one_if, unvalued};
ghost use Rattle.mdb_machine.specs.shared.Guesses.{Overlooks};
ghost use Rattle.mdb_machine.specs.inner.Sizes.{TakesFewBytes};
ghost use Rattle.mdb_machine.specs.KeeperValues.{facts_in, known_in, settled};
ghost use Rattle.mdb_machine.specs.Pair.{IsOnly, IsOnlyStep};

use crate::choice::Choice;
use crate::gains::{Gains, SLOTS};
use crate::keeper::{Keeper, KeeperFacts, KeeperKnown};
use crate::kept::{held, holds_acked, holds_after, holds_read, may_all_be_read};
use arrayvec::ArrayVec;
use mdb_bus::Act;
use mdb_msgs::{Command, Reply};

/// What a device that keeps messages does of its own (this profile).
pub trait Conduct: Keeper {
    /// The states of the device and the controller.
    type State: Copy + Default;

    /// What the device does.
    ghost conduct: { spec.Conduct Self.Own Self.Setup Self.Asked Self.Kept Self.State };

    /// The state at power-on.
    fn power_on() -> Self::State
        ensures { result ≡ conduct.power_on };

    /// Whether the device holds kept messages.
    fn holds(state: Self::State) -> bool
        ensures { result ≡ conduct.holds state };

    /// The same state, where the device holds kept messages or doesn't.
    fn with_holds(state: Self::State, holds: bool) -> Self::State
        ensures { result ≡ conduct.with_holds holds state };

    /// The controller asks.
    fn ask(
        facts: &KeeperFacts<Self>,
        command: Self::Own,
        before: Self::State,
    ) -> (Self::State, Gains)
        ensures step { IsOnlyStep (conduct.Asks (facts_in facts.now) command before)
            (Some result) }
        ensures small { IsSmall result.1 };

    /// The device acknowledges a command that isn't POLL.
    fn ack(
        facts: &KeeperFacts<Self>,
        command: Self::Own,
        choice: Choice,
        before: Self::State,
    ) -> (Self::State, Gains)
        ensures step { IsOnlyStep (conduct.Acks (facts_in facts.now) command choice before)
            (Some result) }
        ensures small { IsSmall result.1 };

    /// The state after new messages in a reply under a choice. `None` where they can't be.
    fn tell_news(
        facts: &KeeperFacts<Self>,
        choice: Choice,
        news: &[Self::Kept],
        before: Self::State,
    ) -> Option<Self::State>
        ensures { IsOnly (conduct.TellsNews (facts_in facts.now) choice news.now before) result };

    /// What a kept message adds to the account in a slot.
    fn gain(facts: &KeeperFacts<Self>, slot: usize, message: Self::Kept) -> u64
        ensures value { result ≡ conduct.gain (facts_in facts.now) slot message }
        ensures small { result < 2 ^ 28 };

    /// Whether the controller asks for money by a command.
    fn asks_amount(command: Self::Own) -> bool
        ensures { result ≡ conduct.asks_amount command };

    /// Whether a kept message tells of money.
    fn tells_amount(message: Self::Kept) -> bool
        ensures { result ≡ conduct.tells_amount message };

    /// The state once the controller has heard a reset message.
    fn heard_reset(state: Self::State) -> Self::State
        ensures { result ≡ conduct.heard_reset state };

    /// What some kept message says.
    ghost some_kept: { Self.Kept };

    /// What it overlooks of what may not be known.
    ghost overlooks: { Overlooks Self.tables conduct };

    /// A state takes few bytes.
    ghost small_state: { TakesFewBytes Self.State.row };
}

/// The step by an act that is settled, under a choice and from a state.
#[inline(always)]
pub fn step_settled<K: Conduct>(
    known: &KeeperKnown<K>,
    act: &Act,
    choice: Choice,
    before: K::State,
) -> Option<(K::State, Gains)>
    requires { settled K.tables known.now.knows_asked known.now.knows_kept act.now ≡ true }
    ensures step { IsOnlyStep
        (spec.StepKnowing K.tables K.conduct (known_in known.now) act.now choice before) result }
    ensures small { IfSome result (λ step. IsSmall step.1) }
{
    step(&known.facts, act, choice, before)
}

/// The steps by an act under a choice, from a state: the state after each, and its gains. One may
/// be told more than once.
pub fn steps<K: Conduct>(
    known: &KeeperKnown<K>,
    act: &Act,
    choice: Choice,
    before: K::State,
) -> ArrayVec<(K::State, Gains), 72>
    ensures steps { (after : K.State) (gains : Gains) → Contains result.items (after, gains)
        ↔ spec.StepKnowing K.tables K.conduct (known_in known.now) act.now choice before after
        gains }
    ensures small { (after : K.State) (gains : Gains) → Contains result.items (after, gains)
        → IsSmall gains }
{
    if known.settles(act) {
        let mut steps = ArrayVec::new();
        add_step(&mut steps, step(&known.facts, act, choice, before));
        return steps;
    }
    match act {
        Act::Ask(command) => steps_asking(known, command, act, choice, before),
        Act::Reply(_, reply) => {
            steps_replying(known, reply, act, choice, before, K::Kept::default())
        }
        _ => unreachable!(),
    }
}

/// Adds a step to others, if it is one.
fn add_step<S: Copy>(steps: &mut ArrayVec<(S, Gains), 72>, step: Option<(S, Gains)>)
    requires { array_vec_len steps.old < 72 }
    ensures items { (one : S × Gains) → Contains steps.new.items one
        ↔ Contains steps.old.items one ⊎ (step ≡ Some one) }
    ensures room { array_vec_len steps.new ≤ array_vec_len steps.old + 1 }
{
    if let Some(step) = step {
        steps.push(step);
    }
}

/// The steps by an ask, where it isn't known what was asked last: it is that again, or another.
fn steps_asking<K: Conduct>(
    known: &KeeperKnown<K>,
    command: &Command,
    act: &Act,
    choice: Choice,
    before: K::State,
) -> ArrayVec<(K::State, Gains), 72>
    requires is { act.now ≡ Act.Ask command.now }
    requires open { known.now.knows_asked ≡ false }
    ensures steps { (after : K.State) (gains : Gains) → Contains result.items (after, gains)
        ↔ spec.StepKnowing K.tables K.conduct (known_in known.now) act.now choice before after
        gains }
    ensures small { (after : K.State) (gains : Gains) → Contains result.items (after, gains)
        → IsSmall gains }
{
    let asked = asked_by::<K>(command);
    let mut steps = ArrayVec::new();
    add_step(
        &mut steps,
        step(&known.facts.asking(None), act, choice, before),
    );
    add_step(
        &mut steps,
        step(&known.facts.asking(asked), act, choice, before),
    );
    steps
}

/// What counts of a command once it is asked, if it is one of the device and something does.
fn asked_by<K: Conduct>(command: &Command) -> Option<K::Asked>
    ensures { result ≡ option_and_then K.tables.asked_of (K.tables.own command.now) }
{
    match K::own(command) {
        Some(own) => K::asked_of(own),
        None => None,
    }
}

/// The steps by a reply, where the last kept list isn't known: for each front of the kept messages
/// of the reply that may be it, and for a list of one message.
fn steps_replying<K: Conduct>(
    known: &KeeperKnown<K>,
    reply: &Reply,
    act: &Act,
    choice: Choice,
    before: K::State,
    some: K::Kept,
) -> ArrayVec<(K::State, Gains), 72>
    requires is { (command : Command) × (act.now ≡ Act.Reply command reply.now) }
    requires open { known.now.knows_kept ≡ false }
    ensures steps { (after : K.State) (gains : Gains) → Contains result.items (after, gains)
        ↔ spec.StepKnowing K.tables K.conduct (known_in known.now) act.now choice before after
        gains }
    ensures small { (after : K.State) (gains : Gains) → Contains result.items (after, gains)
        → IsSmall gains }
{
    let kept = K::summary_of(reply).kept;
    let mut steps = ArrayVec::new();
    let other = known.facts.keeping(&[some]);
    add_step(&mut steps, step(&other, act, choice, before));
    for count in 0..kept.len() {
        let facts = known.facts.keeping(&kept.as_slice()[..count + 1]);
        add_step(&mut steps, step(&facts, act, choice, before));
    }
    steps
}

/// How many amounts an act tells that have no value.
#[inline(always)]
pub fn unvalued_by<K: Conduct>(known: &KeeperKnown<K>, act: &Act) -> u64
    ensures adds { (begins : Beginning) (acts : List lists.Act)
        → known_in known.now ≡ known_of K.tables begins acts
        → unvalued K.tables K.conduct begins (act.now ∷ acts)
        ≡ result + unvalued K.tables K.conduct begins acts }
    ensures small { result ≤ 35 }
{
    if known.facts.setup.is_some() {
        0
    } else {
        amounts_in::<K>(act)
    }
}

/// How many amounts an act tells.
fn amounts_in<K: Conduct>(act: &Act) -> u64
    ensures count { result ≡ amounts_in K.tables K.conduct act.now }
    ensures small { result ≤ 16 }
{
    match act {
        Act::Ask(command) => match K::own(command) {
            Some(own) => u64::from(K::asks_amount(own)),
            None => 0,
        },
        Act::Reply(command, reply) => match K::own(command) {
            Some(_) => amounts_told::<K>(K::summary_of(reply).kept.as_slice()),
            None => 0,
        },
        _ => 0,
    }
}

/// How many of these kept messages tell of money.
fn amounts_told<K: Conduct>(kept: &[K::Kept]) -> u64
    requires { length kept.now ≤ 16 }
    ensures count { result
        ≡ sum_by (λ message. one_if (K.conduct.tells_amount message)) kept.now }
    ensures small { result ≤ 16 }
{
    let mut count = 0;
    for message in kept {
        count += u64::from(K::tells_amount(*message));
    }
    count
}

/// The step by an act under a choice, from a state: the state after it, and its gains. `None`
/// where there is no such step.
fn step<K: Conduct>(
    facts: &KeeperFacts<K>,
    act: &Act,
    choice: Choice,
    before: K::State,
) -> Option<(K::State, Gains)>
    ensures step { IsOnlyStep
        (spec.KeeperStep K.tables K.conduct (facts_in facts.now) act.now choice before) result }
    ensures small { IfSome result (λ step. IsSmall step.1) }
{
    match act {
        Act::Ask(command) => match K::own(command) {
            Some(own) => Some(K::ask(facts, own, before)),
            None => Some((before, Gains::none())),
        },
        Act::Ack(command) => match K::own(command) {
            Some(own) => ack(facts, own, choice, before),
            None => Some((before, Gains::none())),
        },
        Act::Reply(command, reply) => match K::own(command) {
            Some(own) => reply_with(facts, own, reply, choice, before),
            None => Some((before, Gains::none())),
        },
        Act::VmcAck(command, reply) => match K::own(command) {
            Some(own) => Some(vmc_ack(facts, own, reply, choice, before)),
            None => Some((before, Gains::none())),
        },
        Act::Break(_) => Some((K::power_on(), Gains::none())),
        _ => Some((before, Gains::none())),
    }
}

/// The device acknowledges.
fn ack<K: Conduct>(
    facts: &KeeperFacts<K>,
    command: K::Own,
    choice: Choice,
    before: K::State,
) -> Option<(K::State, Gains)>
    ensures step { IsOnlyStep
        (spec.AckStep K.conduct (facts_in facts.now) (K.tables.is_poll command) command choice
        before) result }
    ensures small { IfSome result (λ step. IsSmall step.1) }
{
    if !K::is_poll(command) {
        Some(K::ack(facts, command, choice, before))
    } else if K::holds(before) {
        None
    } else {
        Some((before, Gains::none()))
    }
}

/// The device replies with data.
fn reply_with<K: Conduct>(
    facts: &KeeperFacts<K>,
    command: K::Own,
    reply: &Reply,
    choice: Choice,
    before: K::State,
) -> Option<(K::State, Gains)>
    ensures step { IsOnlyStep
        (spec.ReplyStep K.conduct (facts_in facts.now) (K.tables.is_poll command)
        (K.tables.parts_of reply.now) choice before) result }
    ensures small { IfSome result (λ step. IsSmall step.1) }
{
    if !may_all_be_read::<K::Kept>(choice, K::messages_in(reply)) {
        return None;
    }
    let summary = K::summary_of(reply);
    let holds = holds_read(choice, K::holds(before));
    let held = held(holds, facts.past.last_kept.as_slice());
    let news = summary.news(K::is_poll(command), choice, facts.past.reset_owed, held)?;
    let holding = K::with_holds(before, holds_after(summary.kept.as_slice(), holds));
    let after = K::tell_news(facts, choice, news, holding)?;
    Some((after, Gains::of_device(&worth(facts, news))))
}

/// The controller acknowledges a reply.
fn vmc_ack<K: Conduct>(
    facts: &KeeperFacts<K>,
    command: K::Own,
    reply: &Reply,
    choice: Choice,
    before: K::State,
) -> (K::State, Gains)
    ensures step { IsOnlyStep
        (spec.VmcAckStep K.conduct (facts_in facts.now) (K.tables.is_poll command)
        (K.tables.parts_of reply.now) choice before) (Some result) }
    ensures small { IsSmall result.1 }
{
    let summary = K::summary_of(reply);
    let kept = summary.kept.as_slice();
    let released = K::with_holds(before, holds_acked(choice, kept, K::holds(before)));
    if !K::is_poll(command) {
        return (released, Gains::none());
    }
    let gains = Gains::of_controller(&worth(facts, kept));
    if summary.reset {
        (K::heard_reset(released), gains)
    } else {
        (released, gains)
    }
}

/// What kept messages add to each account.
#[inline(always)]
fn worth<K: Conduct>(facts: &KeeperFacts<K>, messages: &[K::Kept]) -> [u64; SLOTS]
    requires { length messages.now ≤ 16 }
    ensures value { result ≡ by_slot (spec.worth K.conduct (facts_in facts.now) messages.now) }
    ensures small { AreSmall result }
{
    let mut worth = [0; SLOTS];
    for message in messages {
        worth[0] += K::gain(facts, 0, *message);
        worth[1] += K::gain(facts, 1, *message);
    }
    worth
}
