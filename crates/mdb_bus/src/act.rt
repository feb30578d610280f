//! Acts on the bus.

use mdb_msgs::{Command, Reply};

/// What the controller (VMC) or a peripheral has done. An act is known when its last word was sent
/// (MDB/ICP 4.3, bus format; foreign acts and breaks, this profile).
///
/// An answer names the command that it answers. An answer of the controller names the reply too.
#[derive(PartialEq, Eq, Debug, Drop)]
pub enum Act {
    /// The controller sends a command: its whole block.
    Ask(Command),
    /// The peripheral acknowledges the command: ACK.
    Ack(Command),
    /// The peripheral refuses the command: NAK. This doesn't show whether the peripheral received
    /// it.
    Nak(Command),
    /// The peripheral answers the command with a data block.
    Reply(Command, Reply),
    /// The controller acknowledges the reply: ACK.
    VmcAck(Command, Reply),
    /// The controller didn't receive the reply well: NAK.
    VmcNak(Command, Reply),
    /// The controller asks for the reply again: RET.
    VmcRet(Command, Reply),
    /// The peripheral sends the words of the reply again.
    Repeat(Command, Reply),
    /// Traffic that isn't followed: the first bytes of a foreign block, or a word after one.
    Foreign,
    /// A break: the controller held its line low for this many microseconds, at least 100,000,
    /// by the extended profile at least 95,000.
    Break(u64),
}

impl Act {
    ghost use Rattle.std.specs.Prelude.{◌≡◌, Some};
    ghost use Rattle.mdb_bus.specs.Bus.{ended_act};

    /// Becomes the act that was ended, and answers that one was.
    pub(crate) fn note(&mut self, ended: Act) -> bool
        ensures { ended_act result self.new ≡ Some ended }
    {
        *self = ended;
        true
    }
}
