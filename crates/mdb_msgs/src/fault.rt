//! Why a block is no command or no reply.

/// Why a block can't be read, or why a reply can't be written (this profile). Each function
/// documents the order in which it looks for faults.
#[derive(Clone, Copy, PartialEq, Eq, Debug)]
pub enum MsgFault {
    /// The command doesn't have this number of bytes.
    Length,
    /// The grammar has no such message, or no such value of a field.
    Message,
    /// MDB/ICP 4.3 has it, and this profile leaves it out.
    Profile,
    /// The command can't have this answer.
    Answer,
}
