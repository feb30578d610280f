//! Whose an act is.

ghost use Rattle.mdb_follow.specs.Owners.{Owns};

use mdb_bus::Act;
use mdb_msgs::Device;

/// Whose an act is: which devices have a part in it.
#[derive(Clone, Copy, PartialEq, Eq, Debug)]
pub enum Owner {
    /// This device's alone, whose command it is.
    One(Device),
    /// All devices': a break.
    All,
    /// No device's: foreign traffic.
    Nobody,
}

/// Whose an act is.
#[inline(always)]
pub fn owner_of(act: &Act) -> Owner
    ensures { Owns result act.now }
{
    match act {
        Act::Ask(command) => Owner::One(command.device()),
        Act::Ack(command) => Owner::One(command.device()),
        Act::Nak(command) => Owner::One(command.device()),
        Act::Reply(command, _) => Owner::One(command.device()),
        Act::VmcAck(command, _) => Owner::One(command.device()),
        Act::VmcNak(command, _) => Owner::One(command.device()),
        Act::VmcRet(command, _) => Owner::One(command.device()),
        Act::Repeat(command, _) => Owner::One(command.device()),
        Act::Foreign => Owner::Nobody,
        Act::Break(_) => Owner::All,
    }
}
