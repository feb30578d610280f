//! The effect of a possible row.

/// The effect of a row that breaks no rule. Its byte, its word and its length are the row's.
#[derive(Clone, Copy, PartialEq, Eq, Debug)]
pub enum Effect {
    /// A byte of a command's block, which has more to come: its first, or a further one.
    AskByte,
    /// The last word of a command's block, which the bytes so far tell.
    Ask,
    /// What opens a foreign block, or a word after it.
    Foreign,
    /// The peripheral's ACK.
    Ack,
    /// The peripheral's NAK.
    Nak,
    /// A byte of a reply, which has more to come: its first, or a further one.
    ReplyByte,
    /// The last word of a reply of the right length and sum. What it says is still to be read.
    Reply,
    /// The controller's ACK.
    VmcAck,
    /// The controller's NAK.
    VmcNak,
    /// The controller's RET.
    VmcRet,
    /// A word of a repeat, which has more to come: its first, or a further one.
    RepeatWord,
    /// The last word of a repeat.
    Repeat,
    /// A break, as long as its row says.
    Break,
}
