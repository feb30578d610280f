//! The command line: what its words ask for.

use super::goal_words::{account_of, bound_of, side_of};
use super::manual;
use super::refusal::{Refusal, SetupFault, line_on};
use super::setup_value::{Given, given_by};
use super::task::Task;
use command_words::{
    CommandRow, FILE, Line, Named, Program, line_on_refused, line_on_unopened, manual_asked, read,
    read_accepted,
};
use mdb_bus::{Levels, Profile, Scope};
use mdb_follow::Goal;
use mdb_msgs::{Device, DeviceSet};
use mdb_text::Form;
use std::alloc::{AllocError, Global};
use std::io::{self, Write};

/// The program's version.
const VERSION: &str = "0.14.0";

/// The option that says that the recording begins in mid-session.
const JOINED: &str = "joined";

/// The option that gives how a device is set up.
const SETUP: &str = "setup";

/// The option that leaves out a device.
const WITHOUT: &str = "without";

/// The option that asks for the extended profile.
const EXTENDED: &str = "extended";

/// The option that asks for JSON in the place of text.
const JSON: &str = "json";

/// The word that names the account of a goal.
const ACCOUNT: &str = "ACCOUNT";

/// The word that names its side.
const SIDE: &str = "SIDE";

/// The word that names the end of its range.
const BOUND: &str = "BOUND";

/// The word that names the command whose part of the manual is asked for.
const COMMAND: &str = "COMMAND";

/// The program's commands, and what their words may be.
const PROGRAM: Program<'static> = Program {
    name: "mdbcheck",
    version: VERSION,
    commands: &[
        CommandRow {
            name: "check",
            options: &[SETUP, WITHOUT],
            flags: &[JOINED, EXTENDED, JSON],
            words: &[],
            further: &[FILE],
            // (so short that a line of 200 has room for a refused value before it)
            usage: "check [--joined] [--extended] [--setup 'DEVICE ..'].. [--without ..].. \
[--json] [FILE]",
            manual: manual::CHECK,
        },
        CommandRow {
            name: "survey",
            options: &[SETUP, WITHOUT],
            flags: &[JOINED, EXTENDED, JSON],
            words: &[],
            further: &[FILE],
            usage: "survey [--joined] [--extended] [--setup 'DEVICE ..'].. [--without ..].. \
[--json] [FILE]",
            manual: manual::SURVEY,
        },
        CommandRow {
            name: "show",
            options: &[SETUP, WITHOUT],
            flags: &[JOINED, EXTENDED, JSON],
            words: &[],
            further: &[FILE],
            usage: "show [--extended [--joined [--setup 'DEVICE ..']..]] [--without ..].. \
[--json] [FILE]",
            manual: manual::SHOW,
        },
        CommandRow {
            name: "explain",
            options: &[WITHOUT],
            flags: &[EXTENDED],
            words: &[ACCOUNT, SIDE, BOUND],
            further: &[FILE],
            usage: "explain ACCOUNT SIDE BOUND [--extended] [--without ..] [FILE]",
            manual: manual::EXPLAIN,
        },
        CommandRow {
            name: "replay",
            options: &[WITHOUT],
            flags: &[EXTENDED, JSON],
            words: &[],
            further: &[FILE],
            usage: "replay [--extended] [--without DEVICE].. [--json] [FILE]",
            manual: manual::REPLAY,
        },
        CommandRow {
            name: "manual",
            options: &[],
            flags: &[],
            words: &[],
            further: &[COMMAND],
            usage: "manual [COMMAND]",
            manual: manual::MANUAL,
        },
    ],
    summary: "check (verdict), survey (all faults), show (acts), explain (bound), \
replay (explanation); all: mdbcheck manual",
    about: manual::ABOUT,
    rest: manual::REST,
};

/// The same, by reference: what names the table itself is proved with a copy of it.
pub(crate) fn program() -> &'static Program<'static> {
    &PROGRAM
}

/// The file that the words name, the program's name first: what is read in place of standard input.
/// `None` where they name none, and where they are refused.
///
/// # Errors
///
/// Memory was refused.
pub fn file_named<'a>(alloc: Global, words: &'a [String]) -> Result<Option<&'a str>, AllocError> {
    let Some(found) = read_accepted(alloc, program(), words)? else {
        return Ok(None);
    };
    match asked_by(alloc, &found) {
        Ok(_) => Ok(found.file()),
        Err(Refusal::Setup(_, SetupFault::Memory)) => Err(AllocError),
        Err(_) => Ok(None),
    }
}

/// Writes the line on the file that the words name, which can't be opened for this reason.
pub fn refuse_file<E: Write>(words: &[String], file: &str, error: &io::Error, err: &mut E) {
    line_on_unopened(program(), words, file, error).tell(err);
}

/// What the words of a command line ask for.
#[derive(Drop)]
pub(crate) enum Asked {
    /// A task.
    Task(Task),
    /// This part of the manual, or, where there is none, the whole manual.
    Manual(Option<&'static str>),
}

/// What the words ask for, the program's name first.
///
/// # Errors
///
/// The line on words that are refused, or on memory that was refused.
pub(crate) fn read_words(alloc: Global, words: &[String]) -> Result<Asked, Line> {
    match read(alloc, program(), words) {
        Ok(found) => match asked_by(alloc, &found) {
            Ok(asked) => Ok(asked),
            Err(refusal) => Err(line_on(refusal, profile_asked(&found), words)),
        },
        Err(error) => Err(line_on_refused(alloc, program(), words, &error)),
    }
}

/// What the words ask for of which this was read.
fn asked_by<'a>(alloc: Global, found: &Named<'a>) -> Result<Asked, Refusal<'a>> {
    let task = match found.command() {
        "check" => {
            let (scope, readers) = recording_asked(alloc, found)?;
            Task::Check(scope, readers, form_asked(found))
        }
        "survey" => Task::Survey(recording_asked(alloc, found)?.0, form_asked(found)),
        "show" => Task::Show(recording_shown(alloc, found)?, form_asked(found)),
        "explain" => {
            let goal = goal_asked(found)?;
            Task::Explain(goal, profile_asked(found), left_out_by(found)?)
        }
        "replay" => Task::Replay(profile_asked(found), left_out_by(found)?, form_asked(found)),
        _ => return Ok(Asked::Manual(part_asked(found)?)),
    };
    Ok(Asked::Task(task))
}

/// How the recording is taken, and which levels of the readers `--setup` gives.
fn recording_asked<'a>(alloc: Global, found: &Named<'a>) -> Result<(Scope, Levels), Refusal<'a>> {
    let without = left_out_by(found)?;
    let profile = profile_asked(found);
    let texts = found.values(SETUP).unwrap_or(&[]);
    if found.is_used(JOINED) {
        let Given { setups, readers } = given_by(alloc, profile, without, texts)?;
        Ok((Scope::joined_by(profile, setups, without), readers))
    } else if texts.is_empty() {
        Ok((Scope::from_power_on(profile, without), Levels::NONE))
    } else {
        Err(Refusal::NotJoined)
    }
}

/// How `show` takes the recording: in mid-session by the extended profile alone. By the base
/// profile its lines don't depend on what is known.
fn recording_shown<'a>(alloc: Global, found: &Named<'a>) -> Result<Scope, Refusal<'a>> {
    if found.is_used(JOINED) && !found.is_used(EXTENDED) {
        return Err(Refusal::NotExtended);
    }
    Ok(recording_asked(alloc, found)?.0)
}

/// The profile.
fn profile_asked(found: &Named<'_>) -> Profile {
    if found.is_used(EXTENDED) {
        Profile::Extended
    } else {
        Profile::Base
    }
}

/// The form of what is written.
fn form_asked(found: &Named<'_>) -> Form {
    if found.is_used(JSON) {
        Form::Json
    } else {
        Form::Text
    }
}

/// The devices that `--without` leaves out.
fn left_out_by<'a>(found: &Named<'a>) -> Result<DeviceSet, Refusal<'a>> {
    let mut devices = DeviceSet::NONE;
    for word in found.values(WITHOUT).unwrap_or(&[]) {
        devices = devices.with(Device::named(word).ok_or(Refusal::Device(word))?);
    }
    Ok(devices)
}

/// The goal of `explain`.
fn goal_asked<'a>(found: &Named<'a>) -> Result<Goal, Refusal<'a>> {
    let account = word_in(found, ACCOUNT);
    let side = word_in(found, SIDE);
    let bound = word_in(found, BOUND);
    Ok(Goal {
        account: account_of(account).ok_or(Refusal::Account(account))?,
        side: side_of(side).ok_or(Refusal::Side(side))?,
        bound: bound_of(bound).ok_or(Refusal::Bound(bound))?,
    })
}

/// The part of the manual, if one is asked for.
fn part_asked<'a>(found: &Named<'a>) -> Result<Option<&'static str>, Refusal<'a>> {
    manual_asked(program(), found, COMMAND).map_err(|_| Refusal::Command(word_in(found, COMMAND)))
}

/// The word that stands alone and is called so.
fn word_in<'a>(found: &Named<'a>, name: &str) -> &'a str {
    found.value(name).unwrap_or(None).unwrap_or("")
}
