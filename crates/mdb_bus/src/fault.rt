//! Why a row is impossible, and who is to blame.

ghost use Rattle.std.specs.Prelude.{◌≡◌, Some};
ghost use Rattle.mdb_bus.specs.FaultWords.{blame_word, rule_word};
ghost use Rattle.mdb_bus.specs.LinkFaults.{blame_on};

use mdb_msgs::{Device, ReaderUnit};
use std::fmt;

/// The rule that an impossible row breaks. If there are several, the first of this order is
/// reported.
///
/// The first thirteen are rules of the link (MDB/ICP 4.3, bus format and timing, in this profile).
/// The last three mean that no state of the device or of the controller allows the row.
#[derive(Clone, Copy, PartialEq, Eq, Debug)]
pub enum Rule {
    /// The row doesn't start after the row before it.
    Order,
    /// Someone sends out of turn.
    Speaker,
    /// The mode bit is set where it must not be, or isn't set where it must be.
    Mode,
    /// The row comes too soon.
    Early,
    /// The answer comes too late.
    Late,
    /// The words of a block are too far apart, or the controller's word comes before a peripheral's
    /// block is complete.
    Spacing,
    /// The block doesn't have the length of an answer to the command.
    Length,
    /// The last byte of the block isn't the sum of the others.
    Sum,
    /// The break is too short.
    Break,
    /// The command can't have this answer.
    Answer,
    /// A message can't be read.
    Message,
    /// A repeated word differs from the word that it repeats.
    Same,
    /// This profile doesn't follow what the row does. Nobody is at fault.
    Profile,
    /// No state of the coin changer or of the controller allows the row.
    Changer,
    /// No state of the bill validator or of the controller allows the row.
    Bill,
    /// No state of a cashless reader or of the controller allows the row.
    Cashless,
}

impl Rule {
    /// The rule's word in printed text, for example `Cashless`.
    pub fn word(self) -> &'static str
        ensures { result.now ≡ rule_word self }
    {
        match self {
            Rule::Order => "Order",
            Rule::Speaker => "Speaker",
            Rule::Mode => "Mode",
            Rule::Early => "Early",
            Rule::Late => "Late",
            Rule::Spacing => "Spacing",
            Rule::Length => "Length",
            Rule::Sum => "Sum",
            Rule::Break => "Break",
            Rule::Answer => "Answer",
            Rule::Message => "Message",
            Rule::Same => "Same",
            Rule::Profile => "Profile",
            Rule::Changer => "Changer",
            Rule::Bill => "Bill",
            Rule::Cashless => "Cashless",
        }
    }
}

impl fmt::Display for Rule {
    ghost output = { λ rule. Some (rule_word rule) };

    fn fmt<W: fmt::Write>(&self, f: &mut fmt::Formatter<W>) -> fmt::Result {
        f.write_str(self.word())
    }
}

/// Who sent an impossible row.
#[derive(Clone, Copy, PartialEq, Eq, Debug)]
pub enum Blame {
    /// The controller (VMC).
    Controller,
    /// The coin changer.
    Changer,
    /// The bill validator.
    Bill,
    /// The cashless reader at 10H.
    Cashless,
    /// The cashless reader at 60H.
    Cashless2,
    /// Some peripheral, if the controller has asked no device.
    Other,
}

impl Blame {
    /// The device that was asked. `Other` if none was.
    pub fn on(asked: Option<Device>) -> Blame
        ensures { result ≡ blame_on asked }
    {
        match asked {
            None => Blame::Other,
            Some(Device::Changer) => Blame::Changer,
            Some(Device::Bill) => Blame::Bill,
            Some(Device::Reader(ReaderUnit::First)) => Blame::Cashless,
            Some(Device::Reader(ReaderUnit::Second)) => Blame::Cashless2,
        }
    }

    /// The word in printed text. That of a device is [`Device::word`](mdb_msgs::Device::word).
    pub fn word(self) -> &'static str
        ensures { result.now ≡ blame_word self }
    {
        match self {
            Blame::Controller => "controller",
            Blame::Changer => Device::Changer.word(),
            Blame::Bill => Device::Bill.word(),
            Blame::Cashless => Device::Reader(ReaderUnit::First).word(),
            Blame::Cashless2 => Device::Reader(ReaderUnit::Second).word(),
            Blame::Other => "other",
        }
    }
}

impl fmt::Display for Blame {
    ghost output = { λ blame. Some (blame_word blame) };

    fn fmt<W: fmt::Write>(&self, f: &mut fmt::Formatter<W>) -> fmt::Result {
        f.write_str(self.word())
    }
}

/// A fault of the link: which rule a row breaks, and who is to blame.
#[derive(Clone, Copy, PartialEq, Eq, Debug)]
pub struct LinkFault {
    /// The rule.
    pub rule: Rule,
    /// Who is to blame.
    pub blame: Blame,
}
