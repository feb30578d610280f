//! The feature levels that controller and readers have reported (MDB/ICP 4.3, cashless device).

ghost use Rattle.std.specs.Prelude.{◌≡◌};
ghost use Rattle.mdb_msgs.specs.declared.command.Command.TheVariants as commands;
ghost use Rattle.mdb_msgs.specs.declared.command.ReaderCommand.{ReaderCommand};
ghost use Rattle.mdb_msgs.specs.declared.reply.Reply.TheVariants as replies;
ghost use Rattle.mdb_bus.specs.declared.act.Act.TheVariants as acts;
ghost use Rattle.mdb_bus.specs.Bus.{ended_act};
ghost use Rattle.mdb_check.specs.Unjudged as spec;

use mdb_bus::{Act, Levels, Scope};
use mdb_msgs::{Command, Device, DeviceSet, ReaderList, ReaderMsg, ReaderUnit, Reply};

/// The levels that are known before a recording that is taken so, where these levels (Z2) of the
/// readers are known from elsewhere. A reader that is left out counts as one of level 1.
pub(crate) fn known_before(scope: &Scope, readers: Levels) -> Levels
    ensures { result ≡ spec.known_before scope.now readers }
{
    let Levels { first, second } = readers;
    let mut known = scope.levels;
    known.first.told = level_before(scope.without, ReaderUnit::First, first.told);
    known.second.told = level_before(scope.without, ReaderUnit::Second, second.told);
    known
}

/// The levels after an act, if one ended.
#[inline(always)]
pub(crate) fn reported_if(ended: bool, act: &Act, levels: Levels) -> Levels
    ensures { result ≡ spec.reported_if (ended_act ended act.now) levels }
{
    if ended {
        reported_by(act, levels)
    } else {
        levels
    }
}

/// The levels after an act.
#[inline(always)]
fn reported_by(act: &Act, levels: Levels) -> Levels
    ensures { result ≡ spec.reported_by act.now levels }
{
    match act {
        Act::Ask(command) => levels.after(*command),
        Act::Reply(Command::Reader(unit, _), Reply::Reader(list)) => heard(*unit, list, levels),
        _ => levels,
    }
}

/// The levels after an answer of a reader to a command.
fn heard(unit: ReaderUnit, list: &ReaderList, levels: Levels) -> Levels
    ensures { (command : ReaderCommand) → result
        ≡ spec.reported_by (acts.Reply (commands.Reader unit command) (replies.Reader list.now))
        levels }
{
    let level = level_told(list);
    let mut reported = levels;
    match unit {
        ReaderUnit::First => reported.first.told = level.or(levels.first.told),
        ReaderUnit::Second => reported.second.told = level.or(levels.second.told),
    }
    reported
}

/// What is known of the level of a reader before a recording, where these devices are left out.
fn level_before(without: DeviceSet, unit: ReaderUnit, known: Option<u8>) -> Option<u8>
    ensures { result ≡ spec.level_before without unit known }
{
    if without.has(Device::Reader(unit)) {
        Some(1)
    } else {
        known
    }
}

/// Z2 of the config message with which an answer begins.
fn level_told(list: &ReaderList) -> Option<u8>
    ensures { result ≡ spec.level_told list.now.messages }
{
    match list.iter().next() {
        Some(ReaderMsg::Config { level, .. }) => Some(level),
        _ => None,
    }
}
