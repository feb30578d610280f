//! What the rows so far tell of how the devices are set up.

ghost use Rattle.std.specs.Prelude.{◌≡◌, Some};
ghost use Rattle.mdb_msgs.specs.declared.command.Device.{Device};
ghost use Rattle.mdb_bus.specs.declared.act.Act.TheVariants.{Ask};
ghost use Rattle.mdb_bus.specs.Bus.{ended_act};
ghost use Rattle.mdb_msgs.specs.SetupData.{known_with};
ghost use Rattle.mdb_bus.specs.declared.scope.Profile.{Profile};
ghost use Rattle.mdb_surveyor.specs.Told.{answered, asked_on, is_below_2, is_told_below_2, learnt_by, levels_on, setup_on, setups_of, setups_on, told_before, told_by, told_if, told_on, with_answer};

use crate::features::{after, before};
use mdb_bus::{Act, Beginning, KnownFeatures, Levels, Profile, ReaderLevels, Scope};
use mdb_msgs::{Command, Device, ReaderCommand, ReaderSetup, ReaderUnit, Reply, Setups};

/// What the rows so far tell of how the devices are set up, for the next stretch (this profile).
#[derive(PartialEq, Eq, Debug, Drop)]
pub struct Told {
    /// The setup data of each device's last whole answer to SETUP, of a reader those of its last
    /// config message. Where there was none, what was known before the first row.
    pub setups: Setups,
    /// The feature level (Y2) of the last whole SETUP config ask to each reader, and by the
    /// extended profile that of each reader's last config message (Z2).
    pub levels: Levels,
    /// The level of the last whole SETUP config ask, where no config message of that reader came
    /// after it.
    pub unanswered: Levels,
    /// Whose features are known: ENABLE OPTIONS was accepted, or was known before the stretch that
    /// runs, and since then came no break and no accepted RESET. They count by the extended profile
    /// alone.
    pub features: KnownFeatures,
}

impl Told {
    /// What is reported before the first row of a recording with this scope.
    pub fn before(scope: &Scope) -> Told
        ensures { result ≡ told_before scope.now }
    {
        Told {
            setups: setups_of(&scope.begins),
            levels: scope.levels_before(),
            unanswered: scope.levels,
            features: before(&scope.begins),
        }
    }

    /// Learns what an act tells in a recording that begins so, if it has ended.
    #[inline(always)]
    pub(crate) fn learn_if(&mut self, begins: &Beginning, has_ended: bool, act: &Act)
        ensures { self.new ≡ told_if begins.now (ended_act has_ended act.now) self.old }
    {
        if has_ended {
            self.learn(begins, act);
        }
    }

    /// Learns what an act tells in a recording that begins so.
    #[inline(always)]
    pub fn learn(&mut self, begins: &Beginning, act: &Act)
        ensures { self.new ≡ told_by begins.now act.now self.old }
    {
        self.features = after(self.features, act);
        self.learn_setups(begins.profile(), act);
    }

    /// Learns what an act tells of setup data and levels, by a profile.
    #[inline(always)]
    fn learn_setups(&mut self, profile: Profile, act: &Act)
        ensures { self.new ≡ learnt_by profile act.now self.old }
    {
        match act {
            Act::Ask(command @ Command::Reader(_, ReaderCommand::SetupConfig { .. })) => {
                self.learn_ask(*command)
            }
            Act::Reply(command, reply) => {
                self.levels = self.levels.by(profile, act);
                self.learn_reply(command.device(), reply)
            }
            _ => {}
        }
    }

    /// Learns what an ask tells, by any profile.
    #[inline(never)]
    fn learn_ask(&mut self, command: Command)
        ensures { (profile : Profile) → self.new ≡ learnt_by profile (Ask command) self.old }
    {
        self.levels = self.levels.after(command);
        self.unanswered = self.unanswered.after(command);
    }

    /// Learns what a reply of a device tells.
    fn learn_reply(&mut self, device: Device, reply: &Reply)
        ensures { self.new
            ≡ with_answer device (known_with self.old.setups device reply.now) self.old }
    {
        if self.setups.learn_reply(device, reply) {
            self.unanswered = answered(device, self.unanswered);
        }
    }

    /// The levels that a stretch is told by a profile.
    pub(crate) fn levels_on(&self, profile: Profile) -> Levels
        ensures { result ≡ levels_on profile self.now }
    {
        match profile {
            Profile::Base => self.unanswered,
            Profile::Extended => self.levels,
        }
    }

    /// The setup data that a stretch is told by a profile.
    pub(crate) fn setups_on(&self, profile: Profile) -> Setups
        ensures { result ≡ setups_on profile self.now }
    {
        let mut setups = self.setups.copy();
        if profile == Profile::Extended {
            setups.first_reader = setup_on(
                setups.first_reader,
                self.levels.first,
                self.features.first,
            );
            setups.second_reader = setup_on(
                setups.second_reader,
                self.levels.second,
                self.features.second,
            );
        }
        setups
    }

    /// Begins a stretch, told of setup data and features what its beginning has, and by the
    /// extended profile of levels too.
    pub(crate) fn begin(&mut self, begins: &Beginning)
        ensures { self.new ≡ told_on begins.now self.old }
    {
        self.setups = setups_of(begins);
        self.features = before(begins);
        if let Beginning::Joined(setups, Profile::Extended) = begins {
            self.levels = Levels::known(setups);
        }
    }

    /// Whether the controller has told a reader a feature level below 2, and no other since.
    pub fn is_told_below_2(&self, unit: ReaderUnit) -> bool
        ensures { result ≡ is_told_below_2 self.now unit }
    {
        let level = match unit {
            ReaderUnit::First => self.levels.first.asked,
            ReaderUnit::Second => self.levels.second.asked,
        };
        is_below_2(level)
    }
}

/// Whether a level is known, and below 2.
fn is_below_2(level: Option<u8>) -> bool
    ensures { result ≡ is_below_2 level }
{
    level.is_some_and(|level| level < 2)
}

/// The level that the controller told a reader, as a stretch is told of it.
fn asked_on(levels: ReaderLevels) -> Option<u8>
    ensures { result ≡ asked_on levels }
{
    if is_below_2(levels.asked) && !is_below_2(levels.told) {
        None
    } else {
        levels.asked
    }
}

/// The setup data that are known before a recording that begins so.
pub fn setups_of(begins: &Beginning) -> Setups
    ensures { result ≡ setups_of begins.now }
{
    match begins {
        Beginning::PowerOn(_) => Setups::NONE,
        Beginning::Joined(setups, _) => setups.copy(),
    }
}

/// What a stretch is told of a reader by the extended profile, of which this is known.
fn setup_on(known: ReaderSetup, levels: ReaderLevels, features: bool) -> ReaderSetup
    ensures { result ≡ setup_on known levels features }
{
    ReaderSetup {
        config: known.config,
        asked: asked_on(levels),
        told: levels.told,
        features,
    }
}

/// The levels to which no config message is an answer yet, after one of this device.
fn answered(device: Device, levels: Levels) -> Levels
    ensures { result ≡ answered device levels }
{
    let mut open = levels;
    match device {
        Device::Reader(ReaderUnit::First) => open.first.asked = None,
        Device::Reader(ReaderUnit::Second) => open.second.asked = None,
        _ => {}
    }
    open
}
