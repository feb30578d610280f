//! The choice that an act leaves open.

ghost use Rattle.std.specs.Prelude.{◌≡◌, ◌≢◌, ◌↔◌, ◌⊎◌, IsTrue, Some};
ghost use Rattle.std.specs.List.{list_any};
ghost use Rattle.mdb_machine.specs.Choices.{CanStand, approves, is_approval};
ghost use Rattle.mdb_machine.specs.declared.choice.Choice.{Choice};
ghost use Rattle.mdb_machine.specs.declared.choice.Choice.TheVariants.{Plain, Restart, Again};

use mdb_bus::Act;
use mdb_msgs::{Command, ReaderIter, ReaderMsg, Reply};

/// A choice about an act that the recording leaves open (this profile).
#[derive(Clone, Copy, PartialEq, Eq, Debug)]
pub enum Choice {
    /// The plain choice: an ACK was heard, and a reply reports no restart and tells nothing again.
    Plain,
    /// An ACK of the device or of the controller, which its receiver didn't hear.
    Lost,
    /// A reply that reports a restart of the device before it.
    Restart,
    /// A reply in which a reader tells its last approval again, where it may be a new one too.
    Again,
}

impl Choice {
    /// Whether it can stand on an act, whosever that is.
    pub fn can_stand(self, act: &Act) -> bool
        ensures { IsTrue result ↔ CanStand act.now self }
    {
        match self {
            Choice::Plain => true,
            Choice::Lost => matches!(act, Act::Ack(_) | Act::VmcAck(..)),
            Choice::Restart => matches!(act, Act::Reply(..)),
            Choice::Again => approves(act),
        }
    }
}

/// The one choice beside the plain one by which an act may lead elsewhere; `None` where no other
/// can stand on it. A reply that approves a sale leads nowhere as one that reports a restart.
pub fn other_choice(act: &Act) -> Option<Choice>
    ensures stands { (choice : Choice)
        → result ≡ Some choice → CanStand act.now choice × (choice ≢ Plain) }
    ensures only { (choice : Choice) → CanStand act.now choice → choice ≢ Plain
        → (result ≡ Some choice) ⊎ ((choice ≡ Restart) × (result ≡ Some Again)) }
{
    match act {
        Act::Ack(_) | Act::VmcAck(..) => Some(Choice::Lost),
        Act::Reply(..) => {
            if approves(act) {
                Some(Choice::Again)
            } else {
                Some(Choice::Restart)
            }
        }
        Act::Ask(_)
        | Act::Nak(_)
        | Act::VmcNak(..)
        | Act::VmcRet(..)
        | Act::Repeat(..)
        | Act::Foreign
        | Act::Break(_) => None,
    }
}

/// Whether an act is a reply in which a reader approves a sale.
#[inline(always)]
pub fn approves(act: &Act) -> bool
    ensures { result ≡ approves act.now }
{
    match act {
        Act::Reply(Command::Reader(..), Reply::Reader(list)) => tell_approval(list.iter()),
        _ => false,
    }
}

/// Whether one of a reader's messages approves a sale.
// Not inlined, so that all callers share it.
#[inline(never)]
fn tell_approval(messages: ReaderIter<'_>) -> bool
    ensures { result ≡ list_any is_approval messages.entry }
{
    for message in messages {
        if is_approval(message) {
            return true;
        }
    }
    false
}

/// Whether a message approves a sale.
fn is_approval(message: ReaderMsg) -> bool
    ensures { result ≡ is_approval message }
{
    matches!(message, ReaderMsg::VendApproved { .. })
}
