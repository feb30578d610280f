//! The messages of the changer's POLL answer (MDB/ICP 4.3, coin changer).

ghost use Rattle.std.specs.Prelude.{◌≡◌, ◌≤◌, ◌<◌, [], ◌∷◌, ◌++◌, ◌⊎◌, ◌+◌, ◌↔◌, length, IsTrue, IfOk, IfErr};
ghost use Rattle.std.specs.Option.{option_to_list};
ghost use Rattle.std.specs.List.{flat_map, AllByRecursion};
ghost use Rattle.mdb_msgs.specs.Changer.{changer_msg_bytes, IsChangerMsg, NoChangerMsg};
ghost use Rattle.mdb_msgs.specs.Lists.{StopsAt};

use super::list::Bytes;
use crate::fault::MsgFault;
use arrayvec::ArrayVec;

/// A message of the changer's POLL answer.
#[derive(Clone, Copy, PartialEq, Eq, Debug, Default)]
pub enum ChangerMsg {
    /// 80 to FF: coins that were dispensed by hand.
    ManualDispense {
        /// How many, 0 to 7.
        count: u8,
        /// Their type, 0 to 15.
        coin: u8,
        /// Coins of this type that are in the tube.
        in_tube: u8,
    },
    /// 40 to 4F: a coin was deposited to the cash box.
    CashBox {
        /// Its type, 0 to 15.
        coin: u8,
        /// Coins of this type that are in the tube.
        in_tube: u8,
    },
    /// 50 to 5F: a coin was deposited to a tube.
    Tube {
        /// Its type, 0 to 15.
        coin: u8,
        /// Coins of this type that are in the tube.
        in_tube: u8,
    },
    /// 70 to 7F: a coin was rejected.
    Rejected {
        /// Its type, 0 to 15.
        coin: u8,
        /// The second byte.
        second: u8,
    },
    /// 20 to 3F: slugs, 0 to 31 of them.
    Slugs(u8),
    /// 0B: the changer was reset.
    #[default]
    Reset,
    /// Another status, by its byte, 00 to 1A.
    Status(u8),
}

impl ChangerMsg {
    /// Whether its fields are in their ranges.
    fn is_valid(self) -> bool
        ensures { IsTrue result ↔ IsChangerMsg self }
    {
        match self {
            ChangerMsg::ManualDispense { count, coin, .. } => count < 8 && coin < 16,
            ChangerMsg::CashBox { coin, .. }
            | ChangerMsg::Tube { coin, .. }
            | ChangerMsg::Rejected { coin, .. } => coin < 16,
            ChangerMsg::Slugs(count) => count < 32,
            ChangerMsg::Reset => true,
            ChangerMsg::Status(byte) => byte < 0x1B && byte != 0x0B,
        }
    }

    /// How many bytes it has.
    fn count(self) -> usize
        ensures value { result ≡ length (changer_msg_bytes self) }
        ensures fits { result ≤ 2 }
    {
        match self {
            ChangerMsg::Slugs(_) | ChangerMsg::Reset | ChangerMsg::Status(_) => 1,
            _ => 2,
        }
    }

    /// Its first byte, and its second where it has one.
    fn bytes(self) -> (u8, Option<u8>)
        requires { IsChangerMsg self }
        ensures { changer_msg_bytes self ≡ result.0 ∷ option_to_list result.1 }
    {
        match self {
            ChangerMsg::ManualDispense {
                count,
                coin,
                in_tube,
            } => (0x80 + 16 * count + coin, Some(in_tube)),
            ChangerMsg::CashBox { coin, in_tube } => (0x40 + coin, Some(in_tube)),
            ChangerMsg::Tube { coin, in_tube } => (0x50 + coin, Some(in_tube)),
            ChangerMsg::Rejected { coin, second } => (0x70 + coin, Some(second)),
            ChangerMsg::Slugs(count) => (0x20 + count, None),
            ChangerMsg::Reset => (0x0B, None),
            ChangerMsg::Status(byte) => (byte, None),
        }
    }
}

/// The message of two bytes that begins with `first`.
fn read_pair(first: u8, second: u8) -> ChangerMsg
    requires { (64 ≤ first) × ((first < 96) ⊎ (112 ≤ first)) }
    ensures fields { IsChangerMsg result }
    ensures bytes { changer_msg_bytes result ≡ first ∷ second ∷ [] }
{
    match first {
        0x40..=0x4F => ChangerMsg::CashBox {
            coin: first - 0x40,
            in_tube: second,
        },
        0x50..=0x5F => ChangerMsg::Tube {
            coin: first - 0x50,
            in_tube: second,
        },
        0x70..=0x7F => ChangerMsg::Rejected {
            coin: first - 0x70,
            second,
        },
        _ => ChangerMsg::ManualDispense {
            count: (first - 0x80) / 16,
            coin: first % 16,
            in_tube: second,
        },
    }
}

/// The message that begins with `first` and goes on with `further`, and the bytes after it.
fn read_message(first: u8, further: &[u8]) -> Result<(ChangerMsg, &[u8]), MsgFault>
    ensures fields { IfOk result (λ x. IsChangerMsg x.0) }
    ensures bytes { IfOk result (λ x. first ∷ further.now ≡ changer_msg_bytes x.0 ++ x.1.now) }
    ensures rest { IfOk result (λ x. length x.1.now ≤ length further.now) }
    ensures err { IfErr result (NoChangerMsg (first ∷ further.now)) }
{
    match first {
        0x0B => Ok((ChangerMsg::Reset, further)),
        0x00..=0x1A => Ok((ChangerMsg::Status(first), further)),
        0x1B..=0x1F => Err(MsgFault::Profile),
        0x20..=0x3F => Ok((ChangerMsg::Slugs(first - 0x20), further)),
        0x60..=0x6F => Err(MsgFault::Message),
        _ => match further {
            [second, rest @ ..] => Ok((read_pair(first, *second), rest)),
            [] => Err(MsgFault::Message),
        },
    }
}

/// The messages that these bytes are, or the fault of the leftmost that can't be taken.
pub(crate) fn read_messages(bytes: &[u8]) -> Result<ArrayVec<ChangerMsg, 16>, MsgFault>
    requires { length bytes.now ≤ 16 }
    ensures fields { IfOk result (λ list. AllByRecursion IsChangerMsg list.items) }
    ensures bytes { IfOk result (λ list. bytes.now ≡ flat_map changer_msg_bytes list.items) }
    ensures err { IfErr result (StopsAt changer_msg_bytes IsChangerMsg NoChangerMsg bytes.now) }
{
    let mut messages = ArrayVec::new();
    let mut rest = bytes;
    while let Some((first, further)) = rest.split_first() {
        let (message, after) = read_message(*first, further)?;
        messages.push(message);
        rest = after;
    }
    Ok(messages)
}

/// Whether the fields of all messages are in their ranges.
pub(crate) fn are_valid(messages: &[ChangerMsg]) -> bool
    ensures { IsTrue result ↔ AllByRecursion IsChangerMsg messages.now }
{
    messages.iter().all(|message| message.is_valid())
}

/// How many bytes the messages have.
pub(crate) fn count_of(messages: &[ChangerMsg]) -> usize
    requires { length messages.now ≤ 16 }
    ensures { result ≡ length (flat_map changer_msg_bytes messages.now) }
{
    let mut count = 0;
    for message in messages {
        count += message.count();
    }
    count
}

/// The bytes of the messages, put end to end.
pub(crate) fn bytes_of(messages: &[ChangerMsg]) -> Bytes
    requires fields { AllByRecursion IsChangerMsg messages.now }
    requires room { length messages.now ≤ 16 }
    ensures { result.items ≡ flat_map changer_msg_bytes messages.now }
{
    let mut bytes = Bytes::new();
    for message in messages {
        let (first, second) = message.bytes();
        bytes.push(first);
        if let Some(second) = second {
            bytes.push(second);
        }
    }
    bytes
}
