//! Whether the features of readers are known, on which the width of money hangs.

ghost use Rattle.std.specs.Prelude.{◌≡◌, ◌≤◌};
ghost use Rattle.std.specs.List.{list_any};
ghost use Rattle.mdb_bus.specs.ExtendedMoney.{all_known, amounts_to, asked_with_amounts, first_known, have_amounts, is_below_3, known_after, known_by, is_wide, may_be_wide, reader_asked, refuses, settles_features, wide_at};
ghost use Rattle.mdb_bus.specs.ExtendedCounts.{is_refusal};

use super::act::Act;
use super::levels::{Levels, ReaderLevels};
use super::scope::{Beginning, Profile};
use mdb_msgs::{Command, ReaderCommand, ReaderList, ReaderMsg, ReaderUnit, Reply};

/// Whether the features of each reader are known: what ENABLE OPTIONS switches on (MDB/ICP 4.3,
/// cashless device). A reader whose features aren't known may send money of 32 bits.
#[derive(Clone, Copy, PartialEq, Eq, Debug)]
pub struct KnownFeatures {
    /// Of the reader at 10H.
    pub first: bool,
    /// Of the reader at 60H.
    pub second: bool,
}

impl KnownFeatures {
    /// All are known.
    pub(crate) const ALL: KnownFeatures = KnownFeatures {
        first: true,
        second: true,
    };

    /// What is known as a recording begins so: in mid-session by the extended profile what the
    /// setup data tell, and else all.
    pub(crate) fn before(begins: &Beginning) -> KnownFeatures
        ensures { result ≡ first_known begins.now }
    {
        match begins {
            Beginning::Joined(setups, Profile::Extended) => KnownFeatures {
                first: setups.first_reader.features,
                second: setups.second_reader.features,
            },
            _ => KnownFeatures::ALL,
        }
    }

    /// Notes what an act tells of them.
    // Few recordings leave them open, which is seen without a call.
    #[inline(always)]
    pub(crate) fn note(&mut self, act: &Act)
        ensures { self.new ≡ known_by act.now self.old }
    {
        if !(self.first && self.second) {
            *self = self.by(act);
        }
    }

    /// What is known after an act.
    #[inline(never)]
    fn by(self, act: &Act) -> KnownFeatures
        ensures { result ≡ known_by act.now self }
    {
        match act {
            Act::Break(_) => KnownFeatures::ALL,
            Act::Ack(command) => self.after(*command),
            Act::Reply(command, reply) if !refuses(reply) => self.after(*command),
            _ => self,
        }
    }

    /// What is known after a command that was taken.
    fn after(self, command: Command) -> KnownFeatures
        ensures { result ≡ known_after command self }
    {
        match command {
            Command::Reader(ReaderUnit::First, command) => KnownFeatures {
                first: self.first || settles_features(command),
                second: self.second,
            },
            Command::Reader(ReaderUnit::Second, command) => KnownFeatures {
                first: self.first,
                second: self.second || settles_features(command),
            },
            _ => self,
        }
    }

    /// Whether a reader may speak money of 32 bits at these levels, if there is one.
    pub(crate) fn leave_wide(self, reader: Option<ReaderUnit>, levels: Levels) -> bool
        ensures { result ≡ is_wide (wide_at self levels) reader }
    {
        match reader {
            None => false,
            Some(ReaderUnit::First) => may_be_wide(self.first, levels.first),
            Some(ReaderUnit::Second) => may_be_wide(self.second, levels.second),
        }
    }
}

/// Whether a reader may use money of 32 bits: its features aren't known, and the level isn't known
/// to be below 3.
fn may_be_wide(known: bool, levels: ReaderLevels) -> bool
    ensures { result ≡ may_be_wide known levels }
{
    !(known || is_below_3(levels.asked, levels.told))
}

/// Whether the feature level of controller and reader, the lower of both, is known and below 3.
pub fn is_below_3(asked: Option<u8>, told: Option<u8>) -> bool
    ensures { result ≡ is_below_3 asked told }
{
    match (asked, told) {
        (Some(asked), Some(told)) => asked < 3 || told < 3,
        _ => false,
    }
}

/// Whether a command settles the features of the reader that takes it.
fn settles_features(command: ReaderCommand) -> bool
    ensures { result ≡ settles_features command }
{
    matches!(
        command,
        ReaderCommand::Reset | ReaderCommand::EnableOptions(_)
    )
}

/// Whether a reply says that the command came out of sequence, so that it isn't taken.
fn refuses(reply: &Reply) -> bool
    ensures { result ≡ refuses reply.now }
{
    match reply {
        Reply::Reader(list) => has_refusal(list),
        _ => false,
    }
}

/// Whether one of a reader's messages says so.
pub(crate) fn has_refusal(list: &ReaderList) -> bool
    ensures { result ≡ list_any is_refusal list.now.messages }
{
    for message in list.iter() {
        if is_refusal(message) {
            return true;
        }
    }
    false
}

/// Whether a reader's message says so: its 0B, with a status or without one.
fn is_refusal(message: ReaderMsg) -> bool
    ensures { result ≡ is_refusal message }
{
    matches!(
        message,
        ReaderMsg::OutOfSequence | ReaderMsg::OutOfSequenceIn(_)
    )
}

/// The reader to which bytes begin a command with amounts.
pub(crate) fn asked_with_amounts(bytes: &[u8]) -> Option<ReaderUnit>
    ensures { result ≡ asked_with_amounts bytes.now }
{
    let [first, second, ..] = *bytes else {
        return None;
    };
    if have_amounts(0x10, first, second) {
        Some(ReaderUnit::First)
    } else if have_amounts(0x60, first, second) {
        Some(ReaderUnit::Second)
    } else {
        None
    }
}

/// Whether these two bytes begin a command with amounts to the reader at this address: SETUP
/// prices, VEND REQUEST or CASH SALE (MDB/ICP 4.3, cashless device).
fn have_amounts(address: u8, first: u8, second: u8) -> bool
    requires { address ≤ 250 }
    ensures { result ≡ have_amounts address first second }
{
    (first == address + 1 && second == 1) || (first == address + 3 && (second == 0 || second == 5))
}

/// The reader to which a command with amounts is.
pub(crate) fn amounts_to(command: Command) -> Option<ReaderUnit>
    ensures { result ≡ amounts_to command }
{
    match command {
        Command::Reader(
            unit,
            ReaderCommand::SetupPrices { .. }
            | ReaderCommand::VendRequest { .. }
            | ReaderCommand::CashSale { .. },
        ) => Some(unit),
        _ => None,
    }
}

/// The reader to which a command is.
pub(crate) fn reader_asked(command: Command) -> Option<ReaderUnit>
    ensures { result ≡ reader_asked command }
{
    match command {
        Command::Reader(unit, _) => Some(unit),
        _ => None,
    }
}
