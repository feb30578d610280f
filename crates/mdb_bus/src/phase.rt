//! What is open on the bus.

/// What is open after the last act and the words since. The bytes, the command and the reply of a
/// phase are kept next to it.
#[derive(Clone, Copy, PartialEq, Eq, Debug)]
pub enum Phase {
    /// Nothing is open.
    Quiet,
    /// The controller has sent the bytes of a block.
    InAsk,
    /// The command was asked, and may be answered.
    Asked,
    /// The peripheral has sent the bytes of a reply to the command.
    InReply,
    /// The command was answered by the last reply, and the controller may answer that.
    Replied,
    /// The controller has asked for the reply again.
    Returned,
    /// The peripheral has sent so many words of the repeat.
    InRepeat(u8),
    /// A foreign block was opened.
    InForeign,
}
