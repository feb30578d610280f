//! The messages of the validator's POLL answer (MDB/ICP 4.3, bill validator).

ghost use Rattle.std.specs.Prelude.{◌≡◌, ℕ, ◌≤◌, true, List, [], ◌∷◌, ◌↔◌, length, IsTrue, IfOk, IfErr};
ghost use Rattle.std.specs.List.{flat_map, AllByRecursion};
ghost use Rattle.mdb_msgs.specs.Bill.{bill_msg_bytes, IsBillMsg, NoBillMsg};
ghost use Rattle.mdb_msgs.specs.Lists.{StopsAt};

use super::list::Bytes;
use crate::fault::MsgFault;
use arrayvec::ArrayVec;

/// A message of the validator's POLL answer.
#[derive(Clone, Copy, PartialEq, Eq, Debug, Default)]
pub enum BillMsg {
    /// 80 to 8F: a bill of this type, 0 to 15, was stacked.
    Stacked(u8),
    /// 90 to 9F: a bill of this type, 0 to 15, is in escrow.
    Escrow(u8),
    /// A0 to AF: a bill of this type, 0 to 15, was returned.
    Returned(u8),
    /// B0 to BF of the extended profile: a bill of this type, 0 to 15, went to the recycler.
    Recycled(u8),
    /// C0 to CF: a bill of this type, 0 to 15, was rejected, since it is disabled.
    Rejected(u8),
    /// 40 to 5F: attempts to put a bill in while the validator is disabled, 0 to 31 of them.
    Attempts(u8),
    /// 06: the validator was reset.
    #[default]
    Reset,
    /// Another status, by its byte, 00 to 1A or 20 to 3F.
    Status(u8),
    /// A status of the recycler in the extended profile, by its byte, D0 to FF.
    RecyclerStatus(u8),
}

impl BillMsg {
    /// Whether its field is in its range.
    fn is_valid(self) -> bool
        ensures { IsTrue result ↔ IsBillMsg true self }
    {
        match self {
            BillMsg::Stacked(bill)
            | BillMsg::Escrow(bill)
            | BillMsg::Returned(bill)
            | BillMsg::Recycled(bill)
            | BillMsg::Rejected(bill) => bill < 16,
            BillMsg::Attempts(count) => count < 32,
            BillMsg::Reset => true,
            BillMsg::Status(byte) => byte != 0x06 && matches!(byte, 0x00..=0x1A | 0x20..=0x3F),
            BillMsg::RecyclerStatus(byte) => byte >= 0xD0,
        }
    }

    /// Its byte.
    fn byte(self) -> u8
        requires { IsBillMsg true self }
        ensures { bill_msg_bytes self ≡ result ∷ [] }
    {
        match self {
            BillMsg::Stacked(bill) => 0x80 + bill,
            BillMsg::Escrow(bill) => 0x90 + bill,
            BillMsg::Returned(bill) => 0xA0 + bill,
            BillMsg::Recycled(bill) => 0xB0 + bill,
            BillMsg::Rejected(bill) => 0xC0 + bill,
            BillMsg::Attempts(count) => 0x40 + count,
            BillMsg::Reset => 0x06,
            BillMsg::Status(byte) | BillMsg::RecyclerStatus(byte) => byte,
        }
    }
}

/// The message of a profile that is this byte.
fn read_message(is_extended: bool, byte: u8) -> Result<BillMsg, MsgFault>
    ensures fields { IfOk result (IsBillMsg is_extended) }
    ensures bytes { IfOk result (λ message. bill_msg_bytes message ≡ byte ∷ []) }
    ensures err { IfErr result (λ fault. (rest : List ℕ)
        → NoBillMsg is_extended (byte ∷ rest) fault) }
{
    match byte {
        0x06 => Ok(BillMsg::Reset),
        0x1B..=0x1F => Err(MsgFault::Profile),
        0x00..=0x3F => Ok(BillMsg::Status(byte)),
        0x40..=0x5F => Ok(BillMsg::Attempts(byte - 0x40)),
        0x60..=0x7F => Err(MsgFault::Message),
        0x80..=0x8F => Ok(BillMsg::Stacked(byte - 0x80)),
        0x90..=0x9F => Ok(BillMsg::Escrow(byte - 0x90)),
        0xA0..=0xAF => Ok(BillMsg::Returned(byte - 0xA0)),
        0xC0..=0xCF => Ok(BillMsg::Rejected(byte - 0xC0)),
        _ if !is_extended => Err(MsgFault::Profile),
        0xB0..=0xBF => Ok(BillMsg::Recycled(byte - 0xB0)),
        _ => Ok(BillMsg::RecyclerStatus(byte)),
    }
}

/// The messages of a profile that these bytes are, or the fault of the leftmost that can't be
/// taken.
pub(crate) fn read_messages(
    is_extended: bool,
    bytes: &[u8],
) -> Result<ArrayVec<BillMsg, 16>, MsgFault>
    requires { length bytes.now ≤ 16 }
    ensures fields { IfOk result (λ list. AllByRecursion (IsBillMsg true) list.items) }
    ensures reading { IfOk result (λ list. AllByRecursion (IsBillMsg is_extended) list.items) }
    ensures bytes { IfOk result (λ list. bytes.now ≡ flat_map bill_msg_bytes list.items) }
    ensures err { IfErr result (StopsAt bill_msg_bytes (IsBillMsg is_extended)
        (NoBillMsg is_extended) bytes.now) }
{
    let mut messages = ArrayVec::new();
    for byte in bytes {
        messages.push(read_message(is_extended, *byte)?);
    }
    Ok(messages)
}

/// Whether the fields of all messages are in their ranges.
pub(crate) fn are_valid(messages: &[BillMsg]) -> bool
    ensures { IsTrue result ↔ AllByRecursion (IsBillMsg true) messages.now }
{
    messages.iter().all(|message| message.is_valid())
}

/// How many bytes the messages have.
pub(crate) fn count_of(messages: &[BillMsg]) -> usize
    ensures { result ≡ length (flat_map bill_msg_bytes messages.now) }
{
    messages.len()
}

/// The bytes of the messages, put end to end.
pub(crate) fn bytes_of(messages: &[BillMsg]) -> Bytes
    requires fields { AllByRecursion (IsBillMsg true) messages.now }
    requires room { length messages.now ≤ 16 }
    ensures { result.items ≡ flat_map bill_msg_bytes messages.now }
{
    let mut bytes = Bytes::new();
    for message in messages {
        bytes.push(message.byte());
    }
    bytes
}
