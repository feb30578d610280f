//! Laws of commands and replies. They follow from the grammars alone.

ghost use Rattle.std.specs.Prelude.{◌≡◌, ◌<◌, ◌≤◌, ◌+◌, ◌++◌, List, ℕ, length, All, slice_index};
ghost use Rattle.mdb_words.specs.Block.{block_of};
ghost use Rattle.mdb_msgs.specs.declared.command.Command.{Command};
ghost use Rattle.mdb_msgs.specs.declared.need.Need.TheVariants.{Exactly};
ghost use Rattle.mdb_msgs.specs.declared.device_set.DeviceSet.{DeviceSet};
ghost use Rattle.mdb_msgs.specs.Commands.{IsByte, Spells, device_of, is_enable_options};
ghost use Rattle.mdb_msgs.specs.DeviceSets.{has};
ghost use Rattle.mdb_msgs.specs.Needs.{begins_options, is_to_one_of, needed};
ghost use Rattle.mdb_msgs.specs.OpenBlocks.{TellsLength};
ghost use Rattle.mdb_msgs.specs.Laws.{OpenIsAFront, OpenIsAnothersFront, FrontIsOpen, BlockHasOneReply, ReplyHasItsLength, DataFitsABlock, DataIsAReplyOrHasAFault, ReplyHasNoFault, BytesHaveOneFault, AnswerTellsOneSetup};

/// A block has at most one command.
#[tactic(auto, using(crate::proofs::OneCommand::one_command))]
pub fn block_has_one_command()
    ensures { (block : List ℕ) (one other : Command) →
        Spells one block → Spells other block → one ≡ other }
{}

/// The length that the first two bytes of a command's block need is that of the block.
pub fn command_has_what_it_needs()
    ensures { (block : List ℕ) (command : Command) →
        Spells command block → needed block ≡ Exactly (length block) }
{}

/// The first byte of a command's block fixes the length of the block or leaves it to the second
/// byte. The first two bytes fix it.
pub fn first_bytes_tell_the_length()
    ensures { (prefix rest : List ℕ) (command : Command) →
        0 < length prefix → Spells command (prefix ++ rest) →
        TellsLength prefix (length (prefix ++ rest)) }
{}

/// The first byte of a command's block names its device and no other. It names a device of a set
/// exactly if that device is in the set.
#[tactic(auto, using(crate::proofs::Addressed::first_tells))]
pub fn first_byte_tells_the_device()
    ensures { (block : List ℕ) (command : Command) → Spells command block → (set : DeviceSet)
        → is_to_one_of set (slice_index block 0) ≡ has set (device_of command) }
{}

/// The first two bytes of a command's block tell whether it is ENABLE OPTIONS.
pub fn first_two_bytes_tell_enable_options()
    ensures { (prefix rest : List ℕ) (command : Command) →
        2 ≤ length prefix → Spells command (prefix ++ rest) →
        begins_options prefix ≡ is_enable_options command }
{}

/// Bytes of the length that they need are those of a command.
#[tactic(auto, using(crate::proofs::Contents::spelled))]
pub fn what_it_needs_is_a_command()
    ensures { (content : List ℕ) →
        All IsByte content → needed content ≡ Exactly (length content + 1) →
        (command : Command) × Spells command (block_of content) }
{}

/// Bytes that need more of them are the beginning of some command's block.
#[tactic(auto, using(crate::proofs::Fronts::open_is_a_front))]
pub fn need_leaves_a_command_open()
    ensures { OpenIsAFront }
{}

/// Such bytes that don't begin as ENABLE OPTIONS are the beginning of another command's block.
#[tactic(auto, using(crate::proofs::Options::open_is_anothers_front))]
pub fn need_leaves_another_command_open()
    ensures { OpenIsAnothersFront }
{}

/// An incomplete beginning of a command's block needs more bytes.
pub fn front_of_a_command_is_open()
    ensures { FrontIsOpen }
{}

/// For a command, a block has at most one reply.
pub fn block_has_one_reply()
    ensures { BlockHasOneReply }
{}

/// The command allows the number of data bytes of its reply, and that number is 1 to 35.
#[tactic(auto, using(crate::proofs::SomeReply::one_to_35))]
pub fn reply_has_its_length()
    ensures allowed { ReplyHasItsLength }
    ensures fits { DataFitsABlock }
{}

/// Data bytes are a reply to a command, or have a fault.
pub fn data_is_a_reply_or_has_a_fault()
    ensures { DataIsAReplyOrHasAFault }
{}

/// Data bytes that are a reply to a command have no fault.
#[tactic(auto, using(crate::proofs::OneReply::reply_has_no_fault))]
pub fn reply_has_no_fault()
    ensures { ReplyHasNoFault }
{}

/// For a command, data bytes have at most one fault.
#[tactic(auto, using(crate::proofs::OneReply::one_read_fault))]
pub fn bytes_have_one_fault()
    ensures { BytesHaveOneFault }
{}

/// A device's answer to SETUP reports one setup of it.
pub fn answer_tells_one_setup()
    ensures { AnswerTellsOneSetup }
{}
