//! Answers of one byte.

ghost use Rattle.std.specs.Prelude.{◌≡◌, ◌≢◌, IfSome, IfNone};
ghost use Rattle.mdb_words.specs.declared.answer.Answer.{Answer};
ghost use Rattle.mdb_words.specs.Answer.{answer_byte};

/// An answer of one byte (MDB/ICP 4.3, response codes).
#[derive(Clone, Copy, PartialEq, Eq, Debug)]
pub enum Answer {
    /// ACK, 00: the block was received well.
    Ack,
    /// NAK, FF: the block wasn't received well.
    Nak,
    /// RET, AA: send the block again. Only the controller sends it.
    Ret,
}

impl Answer {
    /// The byte on the bus.
    pub fn byte(self) -> u8
        ensures { result ≡ answer_byte self }
    {
        match self {
            Answer::Ack => 0x00,
            Answer::Nak => 0xFF,
            Answer::Ret => 0xAA,
        }
    }

    /// The answer that a byte is. `None` if it is none.
    pub fn of(byte: u8) -> Option<Answer>
        ensures some { IfSome result (λ answer. answer_byte answer ≡ byte) }
        ensures none { IfNone result ((answer : Answer) → answer_byte answer ≢ byte) }
    {
        match byte {
            0x00 => Some(Answer::Ack),
            0xFF => Some(Answer::Nak),
            0xAA => Some(Answer::Ret),
            _ => None,
        }
    }
}
