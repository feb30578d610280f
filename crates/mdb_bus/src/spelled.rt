//! A reply and its bytes.

ghost use Rattle.std.specs.Prelude.{◌≡◌, ◌≤◌, ◌+◌, [], ◌∷◌, length};
ghost use Rattle.mdb_msgs.specs.Replies.{reply_bytes};
ghost use Rattle.mdb_msgs.specs.declared.reply.Reply.TheVariants.{ChangerPoll};
ghost use Rattle.mdb_msgs.specs.declared.reply.changer.ChangerMsg.TheVariants.{Status};

use super::begun::Begun;
use arrayvec::ArrayVec;
use mdb_msgs::{ChangerMsg, Reply};
use mdb_words::{Line, Word};

/// A reply and its bytes.
#[derive(Drop)]
pub struct Spelled {
    /// The reply.
    pub reply: Reply,
    /// Its data bytes, without their sum.
    pub bytes: Begun,
    ghost spelled: { bytes ≡ reply_bytes reply },
}

impl Spelled {
    ghost use Rattle.mdb_bus.specs.Acts.{reply_words};
    ghost use Rattle.mdb_bus.specs.shared.Leads.{word_at};

    /// What stands for the last reply before the first one, and no phase asks for: the changer's
    /// POLL answered with status 00.
    pub(crate) fn placeholder() -> Spelled
        ensures reply { result.reply ≡ ChangerPoll (record { items = Status 0 ∷ [] }) }
        ensures bytes { result.bytes ≡ 0 ∷ [] }
    {
        let mut messages = ArrayVec::new();
        messages.push(ChangerMsg::Status(0));
        Spelled {
            reply: Reply::ChangerPoll(messages),
            bytes: Begun::with(0),
        }
    }

    /// The word at an index of the reply, its sum included; `None` after it.
    pub(crate) fn word(&self, index: usize) -> Option<Word>
        ensures word { result ≡ word_at self.now.reply index }
        ensures count { length (reply_words self.now.reply) ≡ length self.now.bytes + 1 }
        ensures some { 1 ≤ length self.now.bytes }
    {
        let block = self.bytes.sealed();
        if index < block.bytes().len() {
            Some(block.word(Line::Peripheral, index))
        } else {
            None
        }
    }
}
