//! How the bytes of replies are read.

ghost use Rattle.std.specs.Prelude.{◌≡◌, true, false, Ok, IfOk, IfErr, IfSome, IsNone};
ghost use Rattle.std.specs.List.{list_any};
ghost use Rattle.mdb_msgs.specs.declared.reply.Reply.{Reply as Answer};
ghost use Rattle.mdb_msgs.specs.Readings.{is_extended};
ghost use Rattle.mdb_msgs.specs.Replies.{IsReadFault, IsReplyTo, reply_bytes};
ghost use Rattle.mdb_bus.specs.Formats.{HasFault, IsReadAs};
ghost use Rattle.mdb_bus.specs.ExtendedFormats.{AreSome, AreTwo, IsFirst, readings};
ghost use Rattle.mdb_bus.specs.inner.Reading.{AreReply, IsReadingIn, joint_fault, AreAlike, IsOpenOr, IsPlainList, varies};
ghost use Rattle.mdb_bus.specs.ExtendedCounts.{what_counts};

use super::counts::say_the_same;
use super::levels::{long, short};
use mdb_msgs::{Command, Ids, MsgFault, ReaderList, ReaderMsg, Reading, Reply, laws, reply_of};

/// How the bytes of a reply are read (this profile).
#[derive(Clone, Copy, PartialEq, Eq, Debug)]
pub enum Format {
    /// In one reading.
    As(Reading),
    /// In the first reading, and where that has a fault in the second, as the feature levels that
    /// were reported tell. Bytes that `Open` reads are read so.
    Or(Reading, Reading),
    /// In the first reading of the extended profile that has no fault, where all that have none say
    /// the same of what counts: a joined recording doesn't tell the levels that were reported.
    Open,
}

/// The reply to a command that these data bytes are, their sum left out.
// Inlined, like what it calls, so that a reply is moved less often.
#[inline(always)]
#[tactic(auto, using(crate::proofs::FormatLaws::fault_of, crate::proofs::FormatLaws::read_in, crate::proofs::FormatLaws::faulty_in))]
pub(crate) fn read_as(format: Format, command: &Command, bytes: &[u8]) -> Result<Reply, MsgFault>
    ensures found { IfOk result (IsReplyTo command.now) }
    ensures format { IfOk result (IsReadAs format command.now) }
    ensures spelled { IfOk result (λ reply. bytes.now ≡ reply_bytes reply) }
    ensures fault { IfErr result (HasFault format command.now bytes.now) }
{
    laws::reply_has_no_fault();
    let reading = reading_in(format, command, bytes)?;
    reply_of(reading, command, bytes)
}

/// The reading of a reply's bytes in a format.
// Chosen before they are read, so that a reply is moved less often.
#[inline(always)]
fn reading_in(format: Format, command: &Command, bytes: &[u8]) -> Result<Reading, MsgFault>
    ensures { IsReadingIn format command.now bytes.now result }
{
    match format {
        Format::As(reading) => Ok(reading),
        Format::Or(first, second) => told_reading(first, second, command, bytes),
        Format::Open => open_reading(command, bytes),
    }
}

/// The reading where the levels tell two.
#[inline(never)]
fn told_reading(
    first: Reading,
    second: Reading,
    command: &Command,
    bytes: &[u8],
) -> Result<Reading, MsgFault>
    ensures { IsReadingIn (Format.Or first second) command.now bytes.now result }
{
    laws::block_has_one_reply();
    match reply_of(first, command, bytes) {
        Ok(reply) if is_plain_list(&reply) => Ok(first),
        Ok(_) => Ok(open_or(first, command, bytes)),
        Err(fault) => match reply_of(second, command, bytes) {
            Ok(_) => Ok(open_or(second, command, bytes)),
            Err(_) => Err(fault),
        },
    }
}

/// The reading of open bytes, or this one where they have a fault.
fn open_or(told: Reading, command: &Command, bytes: &[u8]) -> Reading
    ensures { IsOpenOr told command.now bytes.now result }
{
    match open_reading(command, bytes) {
        Ok(reading) => reading,
        Err(_) => told,
    }
}

/// Whether a reply is a reader's, and readings differ in none of its messages.
fn is_plain_list(reply: &Reply) -> bool
    ensures { result ≡ true → IsPlainList reply.now }
{
    match reply {
        Reply::Reader(list) => !has_varying(list),
        _ => false,
    }
}

/// Whether readings differ in one of these messages.
fn has_varying(list: &ReaderList) -> bool
    ensures { result ≡ list_any varies list.now.messages }
{
    for message in list.iter() {
        if varies(message) {
            return true;
        }
    }
    false
}

/// Whether readings differ in a message: in its length, or in whether it is one.
fn varies(message: ReaderMsg) -> bool
    ensures { result ≡ varies message }
{
    matches!(
        message,
        ReaderMsg::BeginSession { .. }
            | ReaderMsg::BeginSessionLong { .. }
            | ReaderMsg::PeripheralId
            | ReaderMsg::PeripheralIdWithOptions { .. }
            | ReaderMsg::OutOfSequence
            | ReaderMsg::OutOfSequenceIn(_)
            | ReaderMsg::TimeAsked
    )
}

/// The reading where the recording doesn't tell the levels.
#[inline(never)]
fn open_reading(command: &Command, bytes: &[u8]) -> Result<Reading, MsgFault>
    ensures { IsReadingIn Format.Open command.now bytes.now result }
{
    let reading = first_reading(command, bytes)?;
    match reply_of(reading, command, bytes) {
        Ok(reply) if are_alike(&reply, command, bytes) => Ok(reading),
        Ok(_) => Err(MsgFault::Profile),
        Err(_) => unreachable!(),
    }
}

/// The first reading in which the bytes have no fault, and else the fault of all.
fn first_reading(command: &Command, bytes: &[u8]) -> Result<Reading, MsgFault>
    ensures found { IfOk result (λ reading. (reply : Answer)
        × AreReply reading command.now bytes.now reply × IsFirst readings command.now reply) }
    ensures fault { IfErr result (HasFault Format.Open command.now bytes.now) }
{
    laws::bytes_have_one_fault();
    let Some(one) = fault_in(long(Ids::Full), command, bytes) else {
        return Ok(long(Ids::Full));
    };
    let Some(two) = fault_in(long(Ids::ByNext), command, bytes) else {
        return Ok(long(Ids::ByNext));
    };
    let Some(three) = fault_in(short(Ids::Full), command, bytes) else {
        return Ok(short(Ids::Full));
    };
    let Some(four) = fault_in(short(Ids::ByNext), command, bytes) else {
        return Ok(short(Ids::ByNext));
    };
    Err(joint_fault(one, two, three, four))
}

/// The fault of bytes in a reading.
fn fault_in(reading: Reading, command: &Command, bytes: &[u8]) -> Option<MsgFault>
    ensures none { IsNone result → (reply : Answer) × AreReply reading command.now bytes.now reply }
    ensures fault { IfSome result (IsReadFault reading command.now bytes.now) }
{
    match reply_of(reading, command, bytes) {
        Ok(_) => None,
        Err(fault) => Some(fault),
    }
}

/// The fault of bytes that have these in the four readings.
fn joint_fault(one: MsgFault, two: MsgFault, three: MsgFault, four: MsgFault) -> MsgFault
    ensures { result ≡ joint_fault one two three four }
{
    match (one, two, three, four) {
        (MsgFault::Profile, _, _, _)
        | (_, MsgFault::Profile, _, _)
        | (_, _, MsgFault::Profile, _)
        | (_, _, _, MsgFault::Profile) => MsgFault::Profile,
        _ => one,
    }
}

/// Whether bytes that are this reply say in each reading of the extended profile the same of what
/// counts.
fn are_alike(reply: &Reply, command: &Command, bytes: &[u8]) -> bool
    requires { AreSome command.now bytes.now reply.now }
    ensures alike { result ≡ true → AreAlike command.now bytes.now reply.now }
    ensures two { result ≡ false → AreTwo command.now bytes.now }
{
    if !agrees(long(Ids::Full), reply, command, bytes) {
        return false;
    }
    if !agrees(long(Ids::ByNext), reply, command, bytes) {
        return false;
    }
    if !agrees(short(Ids::Full), reply, command, bytes) {
        return false;
    }
    agrees(short(Ids::ByNext), reply, command, bytes)
}

/// Whether they do in this reading. Only replies of a reader may differ.
#[inline(always)]
fn agrees(reading: Reading, reply: &Reply, command: &Command, bytes: &[u8]) -> bool
    requires some { AreSome command.now bytes.now reply.now }
    requires extended { is_extended reading ≡ true }
    ensures alike { result ≡ true → (other : Answer) → AreReply reading command.now bytes.now other
        → what_counts other ≡ what_counts reply.now }
    ensures two { result ≡ false → AreTwo command.now bytes.now }
{
    laws::block_has_one_reply();
    let Reply::Reader(list) = reply else {
        return true;
    };
    match reply_of(reading, command, bytes) {
        Ok(Reply::Reader(other)) => say_the_same(&other, list),
        _ => true,
    }
}
