//! Marks: the choices about acts that aren't the plain ones.

ghost use Rattle.std.specs.Prelude.{◌≡◌, ◌↔◌, IsTrue, Some};
ghost use Rattle.mdb_machine.specs.declared.choice.Choice.TheVariants as choices;
ghost use Rattle.mdb_machine.specs.Kept.{MayBeRead};
ghost use Rattle.mdb_cashless.specs.ReaderMessages as reader;
ghost use Rattle.mdb_run_search.specs.Marks.{MayStandOn, MayTellOfRestart, choice_by};

use mdb_bus::{Act, Profile};
use mdb_cash::{Bill, Changer};
use mdb_machine::keeper::Keeper;
use mdb_machine::{Choice, approves};
use mdb_msgs::{Command, ReaderIter, ReaderMsg, Reply};

/// A mark on the row that ends an act (this profile).
#[derive(Clone, Copy, PartialEq, Eq, Debug)]
pub enum Mark {
    /// The receiver didn't hear this ACK, of a device or of the controller.
    Lost,
    /// This reply reports that its device was restarted before it.
    Restart,
    /// In this reply a reader tells its last approval again, and no new one.
    Again,
}

impl Mark {
    /// What it says was chosen.
    pub fn choice(self) -> Choice
        ensures { result ≡ choice_by (Some self) }
    {
        match self {
            Mark::Lost => Choice::Lost,
            Mark::Restart => Choice::Restart,
            Mark::Again => Choice::Again,
        }
    }

    /// Whether it may stand on an act, by a profile.
    pub fn may_stand_on(self, profile: Profile, act: &Act) -> bool
        ensures { IsTrue result ↔ MayStandOn profile self act.now }
    {
        match self {
            Mark::Lost => matches!(act, Act::Ack(_) | Act::VmcAck(..)),
            Mark::Restart => match act {
                Act::Reply(command, reply) => may_tell_of_restart(command, reply),
                _ => false,
            },
            Mark::Again => match profile {
                Profile::Base => false,
                Profile::Extended => approves(act),
            },
        }
    }
}

/// Whether a reply can be read as telling of a restart, by its messages alone.
fn may_tell_of_restart(command: &Command, reply: &Reply) -> bool
    ensures { IsTrue result ↔ MayTellOfRestart command.now reply.now }
{
    match command {
        Command::Changer(_) => Changer::summary_of(reply).may_be_read(Choice::Restart),
        Command::Bill(_) => Bill::summary_of(reply).may_be_read(Choice::Restart),
        Command::Reader(..) => reader_may_tell_of_restart(reply),
    }
}

/// Whether a reader's reply can be read so: its reset message comes before each kept one.
fn reader_may_tell_of_restart(reply: &Reply) -> bool
    ensures { IsTrue result ↔ MayBeRead choices.Restart (reader.parts_of reply.now) }
{
    for message in reader_messages(reply) {
        match message {
            ReaderMsg::JustReset => return true,
            ReaderMsg::BeginSession { .. }
            | ReaderMsg::BeginSessionLong { .. }
            | ReaderMsg::VendApproved { .. }
            | ReaderMsg::VendDenied
            | ReaderMsg::EndSession => return false,
            _ => {}
        }
    }
    false
}

/// The messages of a reader's reply.
fn reader_messages(reply: &Reply) -> ReaderIter<'_>
    ensures { result ≡ reader.messages_of reply.now }
{
    match reply {
        Reply::Reader(list) => list.iter(),
        _ => ReaderIter::none(),
    }
}
