//! Blocks as the messages that they carry, and back.

ghost use Rattle.std.specs.Prelude.{◌≡◌, List, ℕ, Err, IfOk};
ghost use Rattle.mdb_words.specs.Block.{block_of};
ghost use Rattle.mdb_words.specs.BlockFaults.{IsBlock, IsUnsealFault};
ghost use Rattle.mdb_words.specs.declared.block.BlockFault.{BlockFault};
ghost use Rattle.mdb_msgs.specs.CommandFaults.{IsCommandFault};
ghost use Rattle.mdb_msgs.specs.Commands.{Spells};
ghost use Rattle.mdb_msgs.specs.Readings.{base};
ghost use Rattle.mdb_msgs.specs.Replies.{IsReadFault};
ghost use Rattle.mdb_msgs.specs.ReplyFaults.{SpellsReply};
ghost use Rattle.mdb_msgs.specs.declared.fault.MsgFault.{MsgFault};
ghost use Rattle.mdb_msgs.specs.declared.reply.Reply.{Reply};

use mdb_msgs::{Command, MsgFault, Reading, read_command, read_reply, write_reply};
use mdb_words::{Block, BlockFault, unseal};

/// Why bytes carry no message.
#[derive(Clone, Copy, PartialEq, Eq, Debug)]
pub enum Unread {
    /// They are no block.
    NoBlock(BlockFault),
    /// The block is no command, or no reply to the command.
    NoMessage(MsgFault),
}

/// The command that the bytes of a block are, their sum at the end.
///
/// # Errors
///
/// Why the bytes are no command.
pub fn command_in(bytes: &[u8]) -> Result<Command, Unread>
    ensures command { IfOk result (λ command. Spells command bytes.now) }
    ensures no_block { (fault : BlockFault) → result ≡ Err (Unread.NoBlock fault)
        → IsUnsealFault bytes.now fault }
    ensures no_message { (fault : MsgFault) → result ≡ Err (Unread.NoMessage fault)
        → IsBlock bytes.now × IsCommandFault bytes.now fault }
{
    match unseal(bytes) {
        Ok(block) => read_command(&block).map_err(Unread::NoMessage),
        Err(fault) => Err(Unread::NoBlock(fault)),
    }
}

/// The block that says again, message by message, what the bytes of a reply to a command say by the
/// base profile.
///
/// # Errors
///
/// Why the bytes are no reply to the command.
pub fn sent_again(command: &Command, bytes: &[u8]) -> Result<Block, Unread>
    ensures same { IfOk result (λ block. block ≡ bytes.now) }
    ensures reply { IfOk result (λ _. (reply : Reply)
        × SpellsReply command.now reply bytes.now) }
    ensures no_block { (fault : BlockFault) → result ≡ Err (Unread.NoBlock fault)
        → IsUnsealFault bytes.now fault }
    ensures no_message { (fault : MsgFault) (content : List ℕ)
        → result ≡ Err (Unread.NoMessage fault) → bytes.now ≡ block_of content
        → IsReadFault base command.now content fault }
    ensures block { (fault : MsgFault) → result ≡ Err (Unread.NoMessage fault)
        → IsBlock bytes.now }
{
    let block = match unseal(bytes) {
        Ok(block) => block,
        Err(fault) => return Err(Unread::NoBlock(fault)),
    };
    match read_reply(Reading::BASE, command, &block) {
        Ok(reply) => Ok(write_reply(command, &reply).unwrap()),
        Err(fault) => Err(Unread::NoMessage(fault)),
    }
}
