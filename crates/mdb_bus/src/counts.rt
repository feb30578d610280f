//! What counts of a reader's reply by the extended profile: what money hangs on (this profile).

ghost use Rattle.std.specs.Prelude.{◌≡◌, ◌≢◌, ◌↔◌, true, false, IsTrue};
ghost use Rattle.std.specs.List.{filter};
ghost use Rattle.mdb_bus.specs.ExtendedCounts.{counted, counts, may_restart};

use super::features::has_refusal;
use arrayvec::ArrayVec;
use mdb_msgs::{ReaderList, ReaderMsg};

/// Whether two lists of messages say the same of what counts.
pub(crate) fn say_the_same(one: &ReaderList, other: &ReaderList) -> bool
    ensures same { result ≡ true → counted one.now.messages ≡ counted other.now.messages }
    ensures apart { result ≡ false → counted one.now.messages ≢ counted other.now.messages }
{
    if has_refusal(one) != has_refusal(other) || may_restart(one) != may_restart(other) {
        return false;
    }
    are_same(messages_in(one).as_slice(), messages_in(other).as_slice())
}

/// Whether these are the same messages in the same order.
fn are_same(messages: &[ReaderMsg], others: &[ReaderMsg]) -> bool
    ensures { IsTrue result ↔ messages.now ≡ others.now }
{
    messages == others
}

/// The messages that count.
fn messages_in(list: &ReaderList) -> ArrayVec<ReaderMsg, 35>
    ensures { result.items ≡ filter counts list.now.messages }
{
    let mut messages = ArrayVec::new();
    for message in list.iter() {
        if counts(message) {
            messages.push(message);
        }
    }
    messages
}

/// Whether a message is 00, 01, 05 or 06.
fn counts(message: ReaderMsg) -> bool
    ensures { result ≡ counts message }
{
    matches!(
        message,
        ReaderMsg::JustReset
            | ReaderMsg::Config { .. }
            | ReaderMsg::VendApproved { .. }
            | ReaderMsg::VendDenied
    )
}

/// Whether messages may be read as telling of a restart: there is a 00, and no message 03, 05, 06
/// or 07 in front of the first one.
fn may_restart(list: &ReaderList) -> bool
    ensures { result ≡ may_restart list.now.messages }
{
    for message in list.iter() {
        match message {
            ReaderMsg::JustReset => return true,
            ReaderMsg::BeginSession { .. }
            | ReaderMsg::BeginSessionLong { .. }
            | ReaderMsg::VendApproved { .. }
            | ReaderMsg::VendDenied
            | ReaderMsg::EndSession => return false,
            _ => {}
        }
    }
    false
}
