//! The steps of a reader and the controller where not all is known.
//!
//! A step after facts that may be is one after a few guesses of them.

ghost use Rattle.std.specs.Prelude.{◌≡◌, ◌<◌, ◌≤◌, ◌+◌, ◌↔◌, ◌⊎◌, Contains, IfSome, Option, Some, false, true};
ghost use Rattle.arrayvec.specs.ArrayVec.{array_vec_len};
ghost use Rattle.mdb_machine.specs.declared.gains.Gains.{Gains};
ghost use Rattle.mdb_machine.specs.SmallGains.{IsSmall};
ghost use Rattle.mdb_machine.specs.Known.{Unknown};
ghost use Rattle.mdb_machine.specs.Pair.{IsOnlyStep};
ghost use Rattle.mdb_machine.specs.PastValues.{if_known};
ghost use Rattle.mdb_cashless.specs.declared.reader.state.ReaderState.{ReaderState};
ghost use Rattle.mdb_cashless.specs.Reader as spec;
ghost use Rattle.mdb_cashless.specs.ReaderFacts.{own_transaction};
ghost use Rattle.mdb_cashless.specs.ReaderValues.{facts_in, known_in, settled};
ghost use Rattle.mdb_cashless.specs.inner.Guesses as guesses;

use super::answers::answer;
use super::facts::ReaderFacts;
use super::known::ReaderKnown;
use super::messages::{ReaderActivity, Said, messages_of};
use super::state::ReaderState;
use super::steps::{ack, ask, step};
use super::transaction::{Transaction, transaction_of};
use super::unit::own;
use arrayvec::ArrayVec;
use mdb_bus::Act;
use mdb_machine::past::tells_out_of_sequence;
use mdb_machine::{Choice, Gains};
use mdb_msgs::{ReaderCommand, ReaderUnit, Reply};

/// The step by an act that is settled, under a choice and from a state.
#[inline(always)]
#[tactic(auto, using(crate::proofs::Knowing::settled_only))]
pub(crate) fn step_settled(
    unit: ReaderUnit,
    known: &ReaderKnown,
    act: &Act,
    choice: Choice,
    before: ReaderState,
) -> Option<(ReaderState, Gains)>
    requires { settled unit known.now act.now ≡ true }
    ensures step { IsOnlyStep
        (spec.StepKnowing unit (known_in known.now) act.now choice before) result }
    ensures small { IfSome result (λ step. IsSmall step.1) }
{
    step(unit, &known.facts, act, choice, before)
}

/// The steps by an act under a choice, from a state: the state after each, and its gains. One may
/// be told more than once.
pub(crate) fn steps(
    unit: ReaderUnit,
    known: &ReaderKnown,
    act: &Act,
    choice: Choice,
    before: ReaderState,
) -> ArrayVec<(ReaderState, Gains), 72>
    ensures steps { (after : ReaderState) (gains : Gains) → Contains result.items (after, gains)
        ↔ spec.StepKnowing unit (known_in known.now) act.now choice before after gains }
    ensures small { (after : ReaderState) (gains : Gains) → Contains result.items (after, gains)
        → IsSmall gains }
{
    let mut steps = ArrayVec::new();
    if known.settles(unit, act) {
        add_step(&mut steps, step_settled(unit, known, act, choice, before));
        return steps;
    }
    match act {
        Act::Ask(command) => {
            if let Some(command) = own(unit, command) {
                add_asks(&mut steps, known, command, before);
            }
        }
        Act::Ack(command) => {
            if let Some(command) = own(unit, command) {
                add_acks(&mut steps, known, command, choice, before);
            }
        }
        Act::Reply(command, reply) => {
            if let Some(command) = own(unit, command) {
                add_replies(&mut steps, known, command, reply, choice, before);
            }
        }
        _ => {}
    }
    steps
}

/// Adds a step to others, if it is one.
fn add_step(steps: &mut ArrayVec<(ReaderState, Gains), 72>, step: Option<(ReaderState, Gains)>)
    requires { array_vec_len steps.old < 72 }
    ensures items { (after : ReaderState) (gains : Gains) → Contains steps.new.items (after, gains)
        ↔ Contains steps.old.items (after, gains) ⊎ (step ≡ Some (after, gains)) }
    ensures room { array_vec_len steps.new ≤ array_vec_len steps.old + 1 }
{
    if let Some(step) = step {
        steps.push(step);
    }
}

/// Adds the steps by an ask, where it isn't known what was asked last: it was this, since after
/// another there are no more.
fn add_asks(
    steps: &mut ArrayVec<(ReaderState, Gains), 72>,
    known: &ReaderKnown,
    command: ReaderCommand,
    before: ReaderState,
)
    requires room { array_vec_len steps.old ≡ 0 }
    requires unknown { known.now.knows_asked ≡ false }
    ensures steps { (after : ReaderState) (gains : Gains)
        → Contains steps.new.items (after, gains)
        ↔ guesses.OfSome (known_in known.now) before.holds
        (λ facts. spec.AskStep facts command before after gains) }
    ensures small { (after : ReaderState) (gains : Gains)
        → Contains steps.new.items (after, gains) → IsSmall gains }
{
    let facts = known.facts.asking(transaction_of(command));
    add_step(steps, ask(&facts, command, before));
}

/// The guess that a command is again the last transaction that the reader took. Where it is no
/// transaction command, the guess is a VEND REQUEST, which a message 05 needs.
fn again(transaction: Option<Transaction>) -> Transaction
    ensures { result ≡ guesses.again transaction }
{
    transaction.unwrap_or(Transaction::Request { price: 0, item: 0 })
}

/// Adds the steps by an ACK of the reader, where it isn't known which transaction it took last: it
/// was this, or another.
fn add_acks(
    steps: &mut ArrayVec<(ReaderState, Gains), 72>,
    known: &ReaderKnown,
    command: ReaderCommand,
    choice: Choice,
    before: ReaderState,
)
    requires room { array_vec_len steps.old ≡ 0 }
    requires unknown { known.now.knows_taken ≡ false }
    ensures steps { (after : ReaderState) (gains : Gains)
        → Contains steps.new.items (after, gains)
        ↔ guesses.OfSome (known_in known.now) before.holds
        (λ facts. spec.AckStep facts command choice before after gains) }
    ensures small { (after : ReaderState) (gains : Gains)
        → Contains steps.new.items (after, gains) → IsSmall gains }
{
    let another = known.facts.taking(None);
    add_step(steps, ack(&another, command, choice, before));
    let same = known.facts.taking(Some(again(transaction_of(command))));
    add_step(steps, ack(&same, command, choice, before));
}

/// Adds the steps by a reply, where it isn't known which transaction the reader took last, or what
/// it holds.
fn add_replies(
    steps: &mut ArrayVec<(ReaderState, Gains), 72>,
    known: &ReaderKnown,
    command: ReaderCommand,
    reply: &Reply,
    choice: Choice,
    before: ReaderState,
)
    requires { array_vec_len steps.old ≡ 0 }
    ensures steps { (after : ReaderState) (gains : Gains)
        → Contains steps.new.items (after, gains)
        ↔ guesses.OfSome (known_in known.now) before.holds
        (λ facts. spec.ReplyStep facts command reply.now choice before after gains) }
    ensures small { (after : ReaderState) (gains : Gains)
        → Contains steps.new.items (after, gains) → IsSmall gains }
{
    let knows_kept = known.knows_kept;
    if known.knows_taken {
        add_keeping(
            steps,
            &known.facts,
            knows_kept,
            command,
            reply,
            choice,
            before,
        );
        return;
    }
    let other = known.facts.taking(None);
    add_keeping(steps, &other, knows_kept, command, reply, choice, before);
    let same = known.facts.taking(Some(again(taken_by(command, reply))));
    add_keeping(steps, &same, knows_kept, command, reply, choice, before);
}

/// The transaction command that the reader takes by a reply.
fn taken_by(command: ReaderCommand, reply: &Reply) -> Option<Transaction>
    ensures { result ≡ own_transaction (spec.taken command reply.now) }
{
    if tells_out_of_sequence(reply) {
        None
    } else {
        transaction_of(command)
    }
}

/// Adds the steps by a reply after facts of which the last kept list is known or isn't.
fn add_keeping(
    steps: &mut ArrayVec<(ReaderState, Gains), 72>,
    facts: &ReaderFacts,
    knows_kept: bool,
    command: ReaderCommand,
    reply: &Reply,
    choice: Choice,
    before: ReaderState,
)
    requires { array_vec_len steps.old ≤ 36 }
    ensures items { (after : ReaderState) (gains : Gains) → Contains steps.new.items (after, gains)
        ↔ Contains steps.old.items (after, gains)
        ⊎ guesses.IsReplyKeeping (facts_in facts.now)
        (if_known knows_kept facts.now.past.last_kept.items) command reply.now choice before after
        gains }
    ensures room { array_vec_len steps.new ≤ array_vec_len steps.old + 36 }
    ensures small { ((after : ReaderState) (gains : Gains)
        → Contains steps.old.items (after, gains) → IsSmall gains)
        → (after : ReaderState) (gains : Gains)
        → Contains steps.new.items (after, gains) → IsSmall gains }
{
    if knows_kept {
        add_step(steps, answer(facts, command, reply, choice, before));
    } else {
        add_fronts(steps, facts, command, reply, choice, before);
    }
}

/// Adds the steps by a reply where the last kept list isn't known: for each front of the kept
/// messages of the reply that may be it, and for a list that is none of them.
fn add_fronts(
    steps: &mut ArrayVec<(ReaderState, Gains), 72>,
    facts: &ReaderFacts,
    command: ReaderCommand,
    reply: &Reply,
    choice: Choice,
    before: ReaderState,
)
    requires { array_vec_len steps.old ≤ 36 }
    ensures items { (after : ReaderState) (gains : Gains) → Contains steps.new.items (after, gains)
        ↔ Contains steps.old.items (after, gains)
        ⊎ guesses.IsReplyKeeping (facts_in facts.now) Unknown command reply.now choice before after
        gains }
    ensures room { array_vec_len steps.new ≤ array_vec_len steps.old + 36 }
    ensures small { ((after : ReaderState) (gains : Gains)
        → Contains steps.old.items (after, gains) → IsSmall gains)
        → (after : ReaderState) (gains : Gains)
        → Contains steps.new.items (after, gains) → IsSmall gains }
{
    let other = facts.keeping(&[ReaderActivity::VendDenied]);
    add_step(steps, answer(&other, command, reply, choice, before));
    let mut said = Said::nothing();
    said.read(messages_of(reply));
    let kept = said.summary.kept.as_slice();
    for last in 0..kept.len() {
        let facts = facts.keeping(&kept[..last + 1]);
        add_step(steps, answer(&facts, command, reply, choice, before));
    }
}
