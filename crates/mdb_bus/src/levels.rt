//! The feature levels of controller and cashless readers.

ghost use Rattle.std.specs.Prelude.{◌≡◌, ◌↔◌, IsTrue};
ghost use Rattle.std.specs.List.{list_any};
ghost use Rattle.std.specs.Option.{option_or};
ghost use Rattle.mdb_bus.specs.ActLists.{IsLow, tells_high};
ghost use Rattle.mdb_bus.specs.ExtendedFormats.{by_asked, by_told, format_at, long, long_format, short};

use super::act::Act;
use super::format::Format;
use super::scope::{Beginning, Profile};
use mdb_msgs::{
    Command, Ids, ReaderCommand, ReaderSetup, ReaderUnit, Reading, Reply, Setups, last_level,
};

/// What was reported of the feature level of one reader.
#[derive(Clone, Copy, PartialEq, Eq, Debug)]
pub struct ReaderLevels {
    /// The level that the controller last reported to it (Y2 of SETUP config). `None` before it
    /// reported one.
    pub asked: Option<u8>,
    /// The level that the reader last reported (Z2 of a config message), received or not. `None`
    /// before it reported one. The base profile doesn't need it, and leaves it as it was.
    pub told: Option<u8>,
}

impl ReaderLevels {
    /// No level reported yet.
    pub const NONE: ReaderLevels = ReaderLevels {
        asked: None,
        told: None,
    };

    /// The levels that are known of a reader.
    fn known(setup: ReaderSetup) -> ReaderLevels
        ensures asked { result.asked ≡ setup.asked }
        ensures told { result.told ≡ setup.told }
    {
        ReaderLevels {
            asked: setup.asked,
            told: setup.told,
        }
    }

    /// How the reader's replies are read by the extended profile, and how if the levels don't tell
    /// it.
    fn format(self, untold: Format) -> Format
        ensures { result ≡ format_at untold self.asked self.told }
    {
        match (self.asked, self.told) {
            (Some(asked), Some(told)) => by_told(told, by_asked(asked, long_format(asked, told))),
            (Some(asked), None) => by_asked(asked, untold),
            (None, Some(told)) => by_told(told, untold),
            (None, None) => untold,
        }
    }
}

/// What was reported of the feature levels of both readers.
#[derive(Clone, Copy, PartialEq, Eq, Debug)]
pub struct Levels {
    /// Of the reader at 10H.
    pub first: ReaderLevels,
    /// Of the reader at 60H.
    pub second: ReaderLevels,
}

impl Levels {
    ghost use Rattle.std.specs.Prelude.{true};
    ghost use Rattle.std.specs.Bool.{OnTrue, OnFalse};
    ghost use Rattle.mdb_msgs.specs.declared.command.Command.TheVariants as commands;
    ghost use Rattle.mdb_msgs.specs.declared.command.ReaderUnit.TheVariants.{First, Second};
    ghost use Rattle.mdb_bus.specs.ActLists.{IsInProfile, levels_after, levels_by, levels_told};
    ghost use Rattle.mdb_bus.specs.ExtendedLevels.{levels_in};
    ghost use Rattle.mdb_bus.specs.Formats.{format_by, format_for, levels_for};
    ghost use Rattle.mdb_bus.specs.ExtendedFormats.{untold_format};

    /// No level reported yet.
    pub const NONE: Levels = Levels {
        first: ReaderLevels::NONE,
        second: ReaderLevels::NONE,
    };

    /// The levels that setup data tell.
    pub fn known(setups: &Setups) -> Levels
        ensures first { result.first ≡ levels_in setups.now First }
        ensures second { result.second ≡ levels_in setups.now Second }
    {
        Levels {
            first: ReaderLevels::known(setups.first_reader),
            second: ReaderLevels::known(setups.second_reader),
        }
    }

    /// The levels after a whole ask.
    pub fn after(self, command: Command) -> Levels
        ensures { result ≡ levels_after command self }
    {
        let mut levels = self;
        if let Command::Reader(unit, ReaderCommand::SetupConfig { level, .. }) = command {
            match unit {
                ReaderUnit::First => levels.first.asked = Some(level),
                ReaderUnit::Second => levels.second.asked = Some(level),
            }
        }
        levels
    }

    /// Notes what an act tells of the levels, by a profile.
    // A reply tells nothing by the base profile, which is seen without a call.
    #[inline(always)]
    pub(crate) fn note(&mut self, profile: Profile, act: &Act)
        ensures { self.new ≡ levels_by profile act.now self.old }
    {
        match (profile, act) {
            (Profile::Base, Act::Reply(..)) => {}
            _ => *self = self.by(profile, act),
        }
    }

    /// The levels after an act, by a profile.
    // Inlined, so that it isn't asked again which act it is.
    #[inline(always)]
    pub fn by(self, profile: Profile, act: &Act) -> Levels
        ensures { result ≡ levels_by profile act.now self }
    {
        match act {
            Act::Ask(command) => self.after(*command),
            Act::Reply(command, reply) => match profile {
                Profile::Base => self,
                Profile::Extended => self.told(*command, reply),
            },
            _ => self,
        }
    }

    /// The levels after a reply to a command, by the extended profile.
    #[inline(never)]
    fn told(self, command: Command, reply: &Reply) -> Levels
        ensures { result ≡ levels_told Profile.Extended command reply.now self }
    {
        let (Command::Reader(unit, _), Reply::Reader(list)) = (command, reply) else {
            return self;
        };
        let level = last_level(list);
        let mut levels = self;
        match unit {
            ReaderUnit::First => levels.first.told = level.or(self.first.told),
            ReaderUnit::Second => levels.second.told = level.or(self.second.told),
        }
        levels
    }

    /// How a reply to a command is read, in a recording that begins so.
    pub fn format(self, begins: &Beginning, command: Command) -> Format
        ensures { result ≡ format_for begins.now self command }
    {
        match begins.profile() {
            Profile::Base => Format::As(Reading::BASE),
            Profile::Extended => self.extended_format(begins, command),
        }
    }

    /// The same, by the extended profile.
    #[inline(always)]
    fn extended_format(self, begins: &Beginning, command: Command) -> Format
        ensures { result ≡ format_by Profile.Extended (untold_format begins.now) self command }
    {
        let untold = match begins {
            Beginning::PowerOn(_) => Format::Or(short(Ids::Full), long(Ids::Full)),
            Beginning::Joined(_, _) => Format::Open,
        };
        match command {
            Command::Reader(ReaderUnit::First, _) => self.first.format(untold),
            Command::Reader(ReaderUnit::Second, _) => self.second.format(untold),
            _ => Format::As(short(Ids::Full)),
        }
    }

    /// Whether what a reply to a command says is followed. By the base profile: it reports no level
    /// of 2 or more, or the controller has reported none to the reader. By the extended profile all
    /// that is read is followed.
    pub(crate) fn fit(self, profile: Profile, command: Command, reply: &Reply) -> bool
        ensures low { OnTrue result (IsInProfile profile self command reply.now) }
        ensures high { OnFalse result (IsInProfile profile self command reply.now → ⊥) }
    {
        match profile {
            Profile::Base => self.is_low_for(command) || !tells_high(reply),
            Profile::Extended => true,
        }
    }

    /// Whether the controller has reported no level of 2 or more to the reader of a command.
    fn is_low_for(self, command: Command) -> bool
        ensures { IsTrue result ↔ IsLow (levels_for command self).asked }
    {
        let level = match command {
            Command::Reader(ReaderUnit::First, _) => self.first.asked,
            Command::Reader(ReaderUnit::Second, _) => self.second.asked,
            _ => None,
        };
        match level {
            None => true,
            Some(level) => level < 2,
        }
    }
}

/// The reading of feature level 1, with this way to read identifications.
pub(crate) const fn short(ids: Ids) -> Reading
    ensures { result ≡ short ids }
{
    Reading {
        is_long: false,
        ids,
    }
}

/// That of feature levels 2 and 3.
pub(crate) const fn long(ids: Ids) -> Reading
    ensures { result ≡ long ids }
{
    Reading { is_long: true, ids }
}

/// The format where the controller has reported one level of 2 or more, and the reader another.
fn long_format(asked: u8, told: u8) -> Format
    ensures { result ≡ long_format asked told }
{
    let ids = if asked < 3 || told < 3 {
        Ids::ByNext
    } else {
        Ids::Full
    };
    Format::Or(long(ids), short(ids))
}

/// Short first where the controller has reported a level below 2, and else this format.
fn by_asked(asked: u8, format: Format) -> Format
    ensures { result ≡ by_asked asked format }
{
    if asked < 2 {
        Format::Or(short(Ids::ByNext), long(Ids::ByNext))
    } else {
        format
    }
}

/// Short alone where the reader has reported a level below 2, and else this format.
fn by_told(told: u8, format: Format) -> Format
    ensures { result ≡ by_told told format }
{
    if told < 2 {
        Format::Or(short(Ids::ByNext), short(Ids::ByNext))
    } else {
        format
    }
}

/// Whether a reader's reply reports a feature level of 2 or more (Z2 of a config message).
fn tells_high(reply: &Reply) -> bool
    ensures { result ≡ tells_high reply.now }
{
    match reply {
        Reply::Reader(list) => list.tells_level(2),
        _ => false,
    }
}
