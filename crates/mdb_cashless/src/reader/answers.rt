//! The steps of a reader and the controller by the reader's replies.

ghost use Rattle.std.specs.Prelude.{◌≡◌, ◌≤◌, ◌<◌, ◌^◌, IfSome, List, length, map};
ghost use Rattle.std.specs.Bool.{OnFalse};
ghost use Rattle.mdb_machine.specs.SmallGains.{AreSmall, IsSmall};
ghost use Rattle.std.specs.List.{list_any};
ghost use Rattle.mdb_machine.specs.Kept.{MayBeRead, holds_acked, kept_of};
ghost use Rattle.mdb_machine.specs.Past.{is_out_of_sequence};
ghost use Rattle.mdb_msgs.specs.declared.reply.Reply.{Reply};
ghost use Rattle.mdb_msgs.specs.declared.reply.reader.ReaderMsg.{ReaderMsg};
ghost use Rattle.mdb_cashless.specs.ReaderMessages.{messages_of, part_of, parts_of};
ghost use Rattle.mdb_cashless.specs.inner.ReaderSaid.{keeps_some};
ghost use Rattle.mdb_machine.specs.Pair.{IsOnlyStep};
ghost use Rattle.mdb_cashless.specs.Reader as spec;
ghost use Rattle.mdb_cashless.specs.ReaderDevice as reader_device;
ghost use Rattle.mdb_cashless.specs.ReaderValues.{facts_in};
ghost use Rattle.mdb_cashless.specs.ReaderView as reader_view;
ghost use Rattle.mdb_cashless.specs.Transactions.{amounts};

use super::device::DeviceState;
use super::facts::ReaderFacts;
use super::messages::{ReaderActivity, Said, is_kept, messages_of, tells_of_reset};
use super::state::ReaderState;
use super::taking::{is_poll, sold, take};
use super::transaction::{Ended, Transaction, transaction_of};
use super::values::{all_approved, approved_to};
use super::view::View;
use mdb_machine::kept::{held, holds_after};
use mdb_machine::past::tells_out_of_sequence;
use mdb_machine::{Choice, Gains};
use mdb_msgs::{ReaderCommand, ReaderConfig, ReaderIter, Reply};

/// The command that the reader takes by a reply that refuses it or doesn't: that says that it came
/// out of sequence.
#[inline(always)]
fn taken(command: ReaderCommand, refused: bool) -> Option<ReaderCommand>
    ensures { (reply : Reply) → refused ≡ list_any is_out_of_sequence (messages_of reply)
        → result ≡ spec.taken command reply }
{
    if refused { None } else { Some(command) }
}

/// The state of the reader once a reply is read.
#[inline(always)]
fn read(choice: Choice, before: ReaderState) -> ReaderState
    ensures { result ≡ spec.read choice before }
{
    match choice {
        Choice::Plain | Choice::Lost | Choice::Again => before,
        Choice::Restart => ReaderState {
            device: DeviceState::Inactive,
            view: before.view,
            holds: false,
        },
    }
}

/// The state after taking a command, if one is taken.
#[inline(always)]
fn take_any(facts: &ReaderFacts, command: Option<ReaderCommand>, before: ReaderState) -> ReaderState
    ensures { result ≡ spec.take_any (facts_in facts.now) command before }
{
    match command {
        None => before,
        Some(command) => take(facts, command, before),
    }
}

/// What that adds to the reader's accounts, if it ends a sale.
#[inline(always)]
fn sold_any(facts: &ReaderFacts, command: Option<ReaderCommand>, before: ReaderState) -> Ended
    ensures value { result ≡ spec.sold_any (facts_in facts.now) command before }
    ensures small { AreSmall (amounts 0 result) }
{
    match command {
        None => Ended::nothing(),
        Some(command) => sold(facts, command, before),
    }
}

/// Whether a reset message is owed, once a command is taken, if one is.
#[inline(always)]
fn owes_reset(facts: &ReaderFacts, command: Option<ReaderCommand>) -> bool
    ensures { result ≡ spec.owes_reset (facts_in facts.now) command }
{
    match command {
        Some(ReaderCommand::Reset) => true,
        _ => facts.past.reset_owed,
    }
}

/// The last transaction, once a command is taken, if one is.
#[inline(always)]
fn last_transaction(facts: &ReaderFacts, command: Option<ReaderCommand>) -> Option<Transaction>
    ensures { result ≡ spec.last_transaction (facts_in facts.now) command }
{
    match command {
        None => facts.taken,
        Some(command) => transaction_of(command).or(facts.taken),
    }
}

/// The reader replies with data.
// Inlined, like the rest of a step, so that its outcome is not moved from place to place.
#[inline(always)]
pub(crate) fn answer(
    facts: &ReaderFacts,
    command: ReaderCommand,
    reply: &Reply,
    choice: Choice,
    before: ReaderState,
) -> Option<(ReaderState, Gains)>
    ensures step { IsOnlyStep
        (spec.ReplyStep (facts_in facts.now) command reply.now choice before) result }
    ensures small { IfSome result (λ step. IsSmall step.1) }
{
    if !may_be_read(choice, reply) {
        return None;
    }
    let mut said = Said::nothing();
    said.read(messages_of(reply));
    let summary = &said.summary;
    let taken = taken(command, said.refused);
    let start = read(choice, before);
    let middle = take_any(facts, taken, start);
    let held = held(middle.holds, facts.past.last_kept.as_slice());
    let new = summary.news(is_poll(command), choice, owes_reset(facts, taken), held)?;
    let device = all_told(last_transaction(facts, taken), new, middle.device)?;
    let after = ReaderState {
        device,
        view: before.view,
        holds: holds_after(summary.kept.as_slice(), middle.holds),
    };
    let config = said.config.or(facts.config);
    let approved = all_approved(config, new);
    Some((
        after,
        Gains::of_device(&sold_any(facts, taken, start).amounts(approved)),
    ))
}

/// Whether a reply may be read so, by what is quickly seen: none without a reset message tells of a
/// restart. A yes promises nothing: `Summary::told` has the last word.
fn may_be_read(choice: Choice, reply: &Reply) -> bool
    ensures { OnFalse result (MayBeRead choice (parts_of reply.now) → ⊥) }
{
    match choice {
        Choice::Plain | Choice::Lost => true,
        Choice::Restart => tells_of_reset(reply),
        Choice::Again => false,
    }
}

/// What new kept messages make of the reader; `None` where they are impossible.
fn all_told(
    last: Option<Transaction>,
    news: &[ReaderActivity],
    before: DeviceState,
) -> Option<DeviceState>
    ensures { result ≡ reader_device.all_told last news.now before }
{
    let mut device = before;
    for message in news {
        device = device.told(last, *message)?;
    }
    Some(device)
}

/// The view after hearing that a reply's command was taken, if it was.
fn view_answered(command: ReaderCommand, reply: &Reply, view: View) -> View
    ensures { result ≡ spec.view_answered (spec.taken command reply.now) view }
{
    match transaction_of(command) {
        Some(_) if !tells_out_of_sequence(reply) => view.taken(),
        _ => view,
    }
}

/// The controller acknowledges a reply.
#[inline(always)]
pub(crate) fn vmc_ack(
    facts: &ReaderFacts,
    command: ReaderCommand,
    reply: &Reply,
    choice: Choice,
    before: ReaderState,
) -> (ReaderState, Gains)
    ensures step { spec.VmcAckStep (facts_in facts.now) command reply.now choice before
        result.0 result.1 }
    ensures small { IsSmall result.1 }
{
    let start = view_answered(command, reply, before.view);
    let hearing = hear(facts.config, start, messages_of(reply));
    let after = ReaderState {
        device: before.device,
        view: hearing.view,
        holds: holds_on(choice, hearing.keeps, before.holds),
    };
    (
        after,
        Gains::of_controller(&Ended::nothing().amounts(hearing.approved)),
    )
}

/// What hearing messages makes of the controller's view and sums.
#[derive(Clone, Copy)]
struct Hearing {
    /// The view after them.
    view: View,
    /// What they add to the controller's approved.
    approved: u64,
    /// Whether the reader keeps one of them.
    keeps: bool,
}

/// What hearing messages makes of a view.
fn hear(config: Option<ReaderConfig>, before: View, messages: ReaderIter<'_>) -> Hearing
    requires { length messages ≤ 35 }
    ensures view { result.view ≡ reader_view.all_heard messages.entry before }
    ensures approved { result.approved ≡ spec.all_approved_to config before messages.entry }
    ensures small { result.approved < 2 ^ 32 }
    ensures keeps { result.keeps ≡ keeps_some messages.entry }
{
    let mut view = before;
    let mut approved = 0;
    let mut keeps = false;
    for message in messages {
        approved += approved_to(config, view, message);
        view = view.heard(message);
        if is_kept(message) {
            keeps = true;
        }
    }
    Hearing {
        view,
        approved,
        keeps,
    }
}

/// Whether the reader holds after the controller's ACK of messages of which it keeps one, or none.
fn holds_on(choice: Choice, keeps: bool, holds: bool) -> bool
    ensures { (messages : List ReaderMsg) → keeps ≡ keeps_some messages
        → result ≡ holds_acked choice (kept_of (map part_of messages)) holds }
{
    match choice {
        Choice::Lost => holds,
        Choice::Plain | Choice::Restart | Choice::Again => holds & !keeps,
    }
}
