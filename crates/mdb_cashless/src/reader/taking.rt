//! What taking a command does to a reader and to the controller's view of it.

ghost use Rattle.std.specs.Prelude.{◌≡◌};
ghost use Rattle.std.specs.Bool.{OnFalse};
ghost use Rattle.mdb_machine.specs.SmallGains.{AreSmall};
ghost use Rattle.mdb_cashless.specs.Reader as spec;
ghost use Rattle.mdb_cashless.specs.ReaderValues.{facts_in};
ghost use Rattle.mdb_cashless.specs.Transactions.{amounts};

use super::facts::ReaderFacts;
use super::state::ReaderState;
use super::transaction::{Ended, ended_by, is_again, transaction_of};
use super::values::value;
use super::view::View;
use mdb_machine::Choice;
use mdb_msgs::ReaderCommand;

/// The view after an answer that takes a command, which the controller heard or didn't hear.
pub(crate) fn view_heard(choice: Choice, command: ReaderCommand, view: View) -> View
    ensures { result ≡ spec.view_heard choice command view }
{
    match choice {
        Choice::Lost => view,
        Choice::Plain | Choice::Restart | Choice::Again => match transaction_of(command) {
            Some(_) => view.taken(),
            None => view,
        },
    }
}

/// Whether hearing that a command was taken may change a view.
#[inline(always)]
pub(crate) fn heeds_taking(command: ReaderCommand, view: View) -> bool
    ensures { OnFalse result (spec.view_taken command view ≡ view) }
{
    transaction_of(command).is_some() && view.taken() != view
}

/// Whether a command is the last transaction that the reader took, while it still holds what it
/// told after that.
fn is_repeated(facts: &ReaderFacts, command: ReaderCommand, holds: bool) -> bool
    ensures { result ≡ spec.is_repeated (facts_in facts.now) command holds }
{
    match transaction_of(command) {
        Some(transaction) => holds && is_again(facts.taken, transaction),
        None => false,
    }
}

/// Whether a command that the reader takes ends what it holds.
pub(crate) fn drops(command: ReaderCommand) -> bool
    ensures { result ≡ spec.drops command }
{
    match command {
        ReaderCommand::Reset => true,
        _ => transaction_of(command).is_some(),
    }
}

/// The reader takes a command.
#[inline(always)]
pub(crate) fn take(facts: &ReaderFacts, command: ReaderCommand, before: ReaderState) -> ReaderState
    ensures { result ≡ spec.take (facts_in facts.now) command before }
{
    if is_repeated(facts, command, before.holds) {
        return before;
    }
    ReaderState {
        device: before.device.after(command),
        view: before.view,
        holds: before.holds && !drops(command),
    }
}

/// What that adds to the reader's accounts, if it ends a sale.
pub(crate) fn sold(facts: &ReaderFacts, command: ReaderCommand, before: ReaderState) -> Ended
    ensures value { result ≡ spec.sold (facts_in facts.now) command before }
    ensures small { AreSmall (amounts 0 result) }
{
    if is_repeated(facts, command, before.holds) {
        return Ended::nothing();
    }
    let value = value(facts.config, facts.amount.unwrap_or(0));
    ended_by(before.device.has_approved(), command, value)
}

/// Whether a command is POLL.
pub(crate) fn is_poll(command: ReaderCommand) -> bool
    ensures { result ≡ spec.is_poll command }
{
    matches!(command, ReaderCommand::Poll)
}
