//! The steps of a reader that follows approvals where not all is known.

ghost use Rattle.std.specs.Prelude.{◌≡◌, ◌≤◌, ◌<◌, ◌+◌, ◌↔◌, ◌⊎◌, Contains, true, length, []};
ghost use Rattle.arrayvec.specs.ArrayVec.{array_vec_len};
ghost use Rattle.mdb_bus.specs.declared.act.Act.{Act};
ghost use Rattle.mdb_msgs.specs.declared.command.ReaderUnit.{ReaderUnit};
ghost use Rattle.mdb_machine.specs.declared.gains.Gains.{Gains};
ghost use Rattle.mdb_machine.specs.SmallGains.{IsSmall};
ghost use Rattle.mdb_cashless.specs.declared.approvals.state.ApprovalState.{ApprovalState};
ghost use Rattle.mdb_cashless.specs.ExtendedReader as spec;
ghost use Rattle.mdb_cashless.specs.inner.Approvals as inner;
ghost use Rattle.mdb_cashless.specs.inner.Approvals.{facts_in, is_sale_known, settled};

use super::facts::{ApprovalFacts, approvals, list_of};
use super::sale::Sale;
use super::state::ApprovalState;
use super::steps::step;
use crate::reader::messages::messages_of;
use crate::reader::unit::own;
use arrayvec::ArrayVec;
use mdb_bus::Act;
use mdb_machine::{Choice, Gains};
use mdb_msgs::{ReaderCommand, ReaderUnit};

/// Whether an act has one step at most under each choice, by what is known.
#[inline(always)]
pub(crate) fn settles(unit: ReaderUnit, facts: &ApprovalFacts, act: &Act) -> bool
    ensures { result ≡ settled unit facts.now act.now }
{
    match act {
        Act::Ask(command) => facts.sale.is_known() || !is_success(own(unit, command)),
        Act::Reply(command, _) => facts.knows_told || own(unit, command).is_none(),
        Act::VmcAck(command, _) => facts.sale != Sale::Unknown || own(unit, command).is_none(),
        _ => true,
    }
}

/// Whether a command is VEND SUCCESS.
fn is_success(command: Option<ReaderCommand>) -> bool
    ensures { result ≡ inner.is_success command }
{
    matches!(command, Some(ReaderCommand::VendSuccess { .. }))
}

/// The steps by an act under a choice, from a state, settled or not: the state after each, and its
/// gains. One may be told more than once.
pub(crate) fn steps(
    unit: ReaderUnit,
    facts: &ApprovalFacts,
    act: &Act,
    choice: Choice,
    before: ApprovalState,
) -> ArrayVec<(ApprovalState, Gains), 144>
    ensures steps { (after : ApprovalState) (gains : Gains)
        → Contains result.items (after, gains)
        ↔ spec.ReaderStep unit (facts_in facts.now) act.now choice before after gains }
    ensures small { (after : ApprovalState) (gains : Gains)
        → Contains result.items (after, gains) → IsSmall gains }
{
    let mut steps = ArrayVec::new();
    if settles(unit, facts, act) {
        add_step(&mut steps, unit, facts, act, choice, before);
        return steps;
    }
    let list = told_by(act);
    let told = list.as_slice();
    let sale = guess(unit, act);
    let none = assuming(facts, Sale::Nothing, &told[..0]);
    let front = assuming(facts, sale, &told[..told.len().saturating_sub(1)]);
    let whole = assuming(facts, sale, told);
    add_step(&mut steps, unit, &none, act, choice, before);
    add_step(&mut steps, unit, &front, act, choice, before);
    add_step(&mut steps, unit, &whole, act, choice, before);
    steps
}

/// The approvals of a reply.
fn told_by(act: &Act) -> ArrayVec<u16, 35>
    ensures { result.items ≡ inner.told_by act.now }
{
    match act {
        Act::Reply(_, reply) => approvals(messages_of(reply)),
        _ => ArrayVec::new(),
    }
}

/// What the sale may be besides none at an act that isn't settled.
fn guess(unit: ReaderUnit, act: &Act) -> Sale
    ensures is { result ≡ inner.guess unit act.now }
    ensures known { is_sale_known result ≡ true }
{
    match act {
        Act::Ask(command) => match own(unit, command) {
            Some(ReaderCommand::VendSuccess { item }) => Sale::Sold { item },
            _ => Sale::Awaited,
        },
        _ => Sale::Awaited,
    }
}

/// What is known, where this is the sale, and the last reply with approvals had these.
fn assuming(facts: &ApprovalFacts, sale: Sale, told: &[u16]) -> ApprovalFacts
    requires sale { is_sale_known sale ≡ true }
    requires few { length told.now ≤ 35 }
    ensures facts { facts_in result ≡ inner.assuming sale told.now (facts_in facts.now) }
    ensures settled { (unit : ReaderUnit) (act : Act) → settled unit result act ≡ true }
{
    ApprovalFacts {
        config: facts.config,
        amount: facts.amount,
        told: list_of(told),
        knows_told: true,
        sale,
        earlier: facts.earlier,
    }
}

/// Adds the step by an act that is settled, if there is one.
fn add_step(
    steps: &mut ArrayVec<(ApprovalState, Gains), 144>,
    unit: ReaderUnit,
    facts: &ApprovalFacts,
    act: &Act,
    choice: Choice,
    before: ApprovalState,
)
    requires room { array_vec_len steps.old < 144 }
    requires settled { settled unit facts.now act.now ≡ true }
    ensures steps { (after : ApprovalState) (gains : Gains)
        → Contains steps.new.items (after, gains) ↔ Contains steps.old.items (after, gains)
        ⊎ spec.ReaderStep unit (facts_in facts.now) act.now choice before after gains }
    ensures small { ((after : ApprovalState) (gains : Gains)
        → Contains steps.old.items (after, gains) → IsSmall gains)
        → (after : ApprovalState) (gains : Gains)
        → Contains steps.new.items (after, gains) → IsSmall gains }
    ensures room { array_vec_len steps.new ≤ array_vec_len steps.old + 1 }
{
    if let Some(step) = step(unit, facts, act, choice, before) {
        steps.push(step);
    }
}
