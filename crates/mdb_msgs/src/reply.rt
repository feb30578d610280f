//! Replies of the peripherals.

ghost use Rattle.std.specs.Prelude.{◌≡◌, ℕ, List, ◌≤◌, ◌↔◌, length, IsTrue, Ok, Err, IsOk, IfOk, IfErr};
ghost use Rattle.mdb_words.specs.Block.{block_of};
ghost use Rattle.mdb_msgs.specs.Answers.{IsDataLength};
ghost use Rattle.mdb_msgs.specs.declared.fault.MsgFault.{MsgFault};
ghost use Rattle.mdb_msgs.specs.declared.reply.Reply.{Reply};
ghost use Rattle.mdb_msgs.specs.Replies.{form_of_reply, reply_bytes, tells_of_sales, HasFields, HasMessages, IsIn, IsReplyTo, NoReply, IsReadFault};
ghost use Rattle.mdb_msgs.specs.ReplyFaults.{IsWriteFault, SpellsReply};

pub mod bill;
pub mod changer;
mod list;
pub mod reader;
pub mod setup;

use crate::answer::{DataForm, may_tell_of_sales};
use crate::command::Command;
use crate::fault::MsgFault;
use crate::reading::Reading;
use arrayvec::ArrayVec;
use bill::BillMsg;
use changer::ChangerMsg;
use list::{Bytes, list_of};
use mdb_words::{Block, seal};
use reader::ReaderList;
use setup::{BillSetup, ChangerSetup, Stacker, TubeStatus};

/// A data answer of a peripheral (MDB/ICP 4.3, coin changer, bill validator and cashless device).
/// Which bytes it has depends on the command that it answers: see [`read_reply`] and
/// [`write_reply`].
#[derive(PartialEq, Eq, Debug, Drop)]
pub enum Reply {
    /// To the changer's SETUP.
    ChangerSetup(ChangerSetup),
    /// To TUBE STATUS.
    TubeStatus(TubeStatus),
    /// To the changer's POLL: its messages in order.
    ChangerPoll(ArrayVec<ChangerMsg, 16>),
    /// To the changer's identification: its bytes.
    ChangerIdentification([u8; 33]),
    /// To the validator's SETUP.
    BillSetup(BillSetup),
    /// To the validator's POLL: its messages in order.
    BillPoll(ArrayVec<BillMsg, 16>),
    /// To STACKER.
    Stacker(Stacker),
    /// To the validator's identification: its bytes.
    BillIdentification([u8; 29]),
    /// To the validator's identification with options: its bytes.
    BillIdentificationWithOptions([u8; 33]),
    /// To a reader's command: its messages in order.
    Reader(ReaderList),
}

impl Reply {
    /// The same reply again.
    // Inlined, so that a caller that drops the copy doesn't pay for it.
    #[inline(always)]
    pub fn copy(&self) -> Self
        ensures { result ≡ self.now }
    {
        match self {
            Reply::ChangerSetup(setup) => Reply::ChangerSetup(setup.copy()),
            Reply::TubeStatus(status) => Reply::TubeStatus(status.copy()),
            Reply::ChangerPoll(list) => Reply::ChangerPoll(list_of(list.as_slice())),
            Reply::ChangerIdentification(id) => Reply::ChangerIdentification(*id),
            Reply::BillSetup(setup) => Reply::BillSetup(setup.copy()),
            Reply::BillPoll(list) => Reply::BillPoll(list_of(list.as_slice())),
            Reply::Stacker(stacker) => Reply::Stacker(*stacker),
            Reply::BillIdentification(id) => Reply::BillIdentification(*id),
            Reply::BillIdentificationWithOptions(id) => Reply::BillIdentificationWithOptions(*id),
            Reply::Reader(list) => Reply::Reader(list.copy()),
        }
    }

    /// The form of answer that it is.
    fn form(&self) -> DataForm
        ensures { result ≡ form_of_reply self.now }
    {
        match self {
            Reply::ChangerSetup(_) => DataForm::ChangerSetup,
            Reply::TubeStatus(_) => DataForm::TubeStatus,
            Reply::ChangerPoll(_) => DataForm::ChangerPoll,
            Reply::ChangerIdentification(_) => DataForm::ChangerIdentification,
            Reply::BillSetup(_) => DataForm::BillSetup,
            Reply::BillPoll(_) => DataForm::BillPoll,
            Reply::Stacker(_) => DataForm::Stacker,
            Reply::BillIdentification(_) => DataForm::BillIdentification,
            Reply::BillIdentificationWithOptions(_) => DataForm::BillIdentificationWithOptions,
            Reply::Reader(_) => DataForm::Reader,
        }
    }

    /// How many data bytes it has, whether or not its fields are in their ranges.
    fn count(&self) -> usize
        ensures { result ≡ length (reply_bytes self.now) }
    {
        match self {
            Reply::ChangerSetup(setup) => setup.count(),
            Reply::TubeStatus(status) => status.count(),
            Reply::ChangerPoll(list) => changer::count_of(list.as_slice()),
            Reply::ChangerIdentification(id) => id.as_slice().len(),
            Reply::BillSetup(setup) => setup.count(),
            Reply::BillPoll(list) => bill::count_of(list.as_slice()),
            Reply::Stacker(_) => 2,
            Reply::BillIdentification(id) => id.as_slice().len(),
            Reply::BillIdentificationWithOptions(id) => id.as_slice().len(),
            Reply::Reader(list) => list.bytes().len(),
        }
    }

    /// Whether its fields are in their ranges.
    fn is_valid(&self) -> bool
        ensures { IsTrue result ↔ HasFields self.now }
    {
        match self {
            Reply::ChangerPoll(list) => changer::are_valid(list.as_slice()),
            Reply::BillPoll(list) => bill::are_valid(list.as_slice()),
            Reply::Stacker(stacker) => stacker.is_valid(),
            Reply::Reader(list) => list.is_valid(),
            _ => true,
        }
    }

    /// Its data bytes.
    fn bytes(&self) -> Bytes
        requires fields { HasFields self.now }
        requires room { length (reply_bytes self.now) ≤ 35 }
        ensures { result.items ≡ reply_bytes self.now }
    {
        match self {
            Reply::ChangerSetup(setup) => setup.bytes(),
            Reply::TubeStatus(status) => status.bytes(),
            Reply::ChangerPoll(list) => changer::bytes_of(list.as_slice()),
            Reply::ChangerIdentification(id) => list_of(id),
            Reply::BillSetup(setup) => setup.bytes(),
            Reply::BillPoll(list) => bill::bytes_of(list.as_slice()),
            Reply::Stacker(stacker) => stacker.bytes(),
            Reply::BillIdentification(id) => list_of(id),
            Reply::BillIdentificationWithOptions(id) => list_of(id),
            Reply::Reader(list) => list_of(list.bytes()),
        }
    }

    /// Whether it tells of sessions and sales.
    #[inline(always)]
    fn tells_of_sales(&self) -> bool
        ensures { result ≡ tells_of_sales self.now }
    {
        match self {
            Reply::Reader(list) => list.tells_of_sales(),
            _ => false,
        }
    }
}

/// The bytes as an array.
fn array_of<const N: usize>(bytes: &[u8]) -> [u8; N]
    requires { length bytes.now ≡ N }
    ensures { result ≡ bytes.now }
{
    let mut array = [0; N];
    array.copy_from_slice(bytes);
    array
}

/// The reply of this form that these bytes are.
#[inline(always)]
fn read_form(reading: Reading, form: DataForm, bytes: &[u8]) -> Result<Reply, MsgFault>
    requires { IsDataLength form (length bytes.now) }
    ensures form { IfOk result (λ reply. form_of_reply reply ≡ form) }
    ensures fields { IfOk result HasFields }
    ensures reading { IfOk result (HasMessages reading) }
    ensures bytes { IfOk result (λ reply. bytes.now ≡ reply_bytes reply) }
    ensures err { IfErr result (NoReply reading form bytes.now) }
{
    Ok(match form {
        DataForm::ChangerSetup => Reply::ChangerSetup(setup::read_changer_setup(bytes)),
        DataForm::TubeStatus => Reply::TubeStatus(setup::read_tube_status(bytes)),
        DataForm::ChangerPoll => Reply::ChangerPoll(changer::read_messages(bytes)?),
        DataForm::ChangerIdentification => Reply::ChangerIdentification(array_of(bytes)),
        DataForm::BillSetup => Reply::BillSetup(setup::read_bill_setup(bytes)?),
        DataForm::BillPoll => Reply::BillPoll(bill::read_messages(reading.is_extended(), bytes)?),
        DataForm::Stacker => Reply::Stacker(setup::read_stacker(bytes)),
        DataForm::BillIdentification => Reply::BillIdentification(array_of(bytes)),
        DataForm::BillIdentificationWithOptions => {
            Reply::BillIdentificationWithOptions(array_of(bytes))
        }
        DataForm::Reader => Reply::Reader(reader::read_messages(reading, bytes)?),
    })
}

/// The reply to a command that these data bytes are in a reading, their sum left out:
/// `read_reply` for one who has the bytes alone, with the same faults.
// Inlined, like what it calls, so that a reply is moved less often.
#[inline(always)]
pub fn reply_of(reading: Reading, command: &Command, content: &[u8]) -> Result<Reply, MsgFault>
    ensures found { IfOk result (IsReplyTo command.now) }
    ensures reading { IfOk result (IsIn reading command.now) }
    ensures spelled { IfOk result (λ reply. content.now ≡ reply_bytes reply) }
    ensures only { (reply : Reply) →
        IsReplyTo command.now reply → IsIn reading command.now reply →
        content.now ≡ reply_bytes reply → result ≡ Ok reply }
    ensures fault { IfErr result (IsReadFault reading command.now content.now) }
    ensures refused { (fault : MsgFault) →
        IsReadFault reading command.now content.now fault → result ≡ Err fault }
{
    read_content(reading, command, content)
}

/// The reply to a command that these data bytes are.
#[inline(always)]
fn read_content(reading: Reading, command: &Command, content: &[u8]) -> Result<Reply, MsgFault>
    ensures found { IfOk result (IsReplyTo command.now) }
    ensures reading { IfOk result (IsIn reading command.now) }
    ensures spelled { IfOk result (λ reply. content.now ≡ reply_bytes reply) }
    ensures fault { IfErr result (IsReadFault reading command.now content.now) }
{
    let form = DataForm::of(command).ok_or(MsgFault::Answer)?;
    if !form.allows(content.len()) {
        return Err(MsgFault::Length);
    }
    let read = read_form(reading, form, content);
    if let Ok(reply) = &read {
        if !may_tell_of_sales(command) && reply.tells_of_sales() && !reading.is_extended() {
            return Err(MsgFault::Answer);
        }
    }
    read
}

/// Reads a block as the reply to a command, in a reading.
///
/// # Errors
///
/// The first of these (this profile):
///
/// - `Answer`: the command can't have a data answer.
/// - `Length`: the command's answer doesn't have this number of data bytes.
/// - `Message` or `Profile`: the leftmost message that can't be read. `Message` too if the escrow
///   byte of a validator's SETUP is neither FF nor 00.
/// - `Answer`: by the base profile, a reader's message about a session or a sale (03, 05, 06, 07)
///   in an answer to another command than POLL and the five commands of a session. These are 13 00
///   to 13 04, or 63 00 to 63 04.
pub fn read_reply(reading: Reading, command: &Command, block: &Block) -> Result<Reply, MsgFault>
    ensures found { IfOk result (λ reply. SpellsReply command.now reply block.now) }
    ensures reading { IfOk result (IsIn reading command.now) }
    ensures only { (reply : Reply) →
        SpellsReply command.now reply block.now → IsIn reading command.now reply →
        result ≡ Ok reply }
    ensures fault { IfErr result (λ fault. (content : List ℕ) →
        block.now ≡ block_of content → IsReadFault reading command.now content fault) }
    ensures refused { (content : List ℕ) (fault : MsgFault) →
        block.now ≡ block_of content → IsReadFault reading command.now content fault →
        result ≡ Err fault }
{
    reply_of(reading, command, block.content())
}

/// The block that carries bytes, of which there are 1 to 35.
fn block_with(bytes: &[u8]) -> Block
    requires at_least { 1 ≤ length bytes.now }
    requires at_most { length bytes.now ≤ 35 }
    ensures { result ≡ block_of bytes.now }
{
    seal(bytes).unwrap()
}

/// The block of a reply to a command.
///
/// # Errors
///
/// The first of these, and none if the command has a block of this reply (this profile):
///
/// - `Answer`: the command can't have a data answer.
/// - `Length`: the command's answer doesn't have as many bytes as the reply, whatever its form.
/// - `Message`: the reply has the form of another command's, or a field is outside its range.
pub fn write_reply(command: &Command, reply: &Reply) -> Result<Block, MsgFault>
    ensures exactly { IsOk result ↔ IsReplyTo command.now reply.now }
    ensures written { IfOk result (λ block. SpellsReply command.now reply.now block) }
    ensures fault { IfErr result (IsWriteFault command.now reply.now) }
    ensures refused { (fault : MsgFault) →
        IsWriteFault command.now reply.now fault → result ≡ Err fault }
{
    let bytes = written_bytes(command, reply)?;
    Ok(block_with(bytes.as_slice()))
}

/// The data bytes of a reply to a command.
fn written_bytes(command: &Command, reply: &Reply) -> Result<Bytes, MsgFault>
    ensures answers { IfOk result (λ _. IsReplyTo command.now reply.now) }
    ensures bytes { IfOk result (λ bytes. bytes.items ≡ reply_bytes reply.now) }
    ensures fault { IfErr result (IsWriteFault command.now reply.now) }
{
    let form = DataForm::of(command).ok_or(MsgFault::Answer)?;
    if !form.allows(reply.count()) {
        return Err(MsgFault::Length);
    }
    if reply.form() != form || !reply.is_valid() {
        return Err(MsgFault::Message);
    }
    Ok(reply.bytes())
}
