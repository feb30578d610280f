//! What standard error is told of a no by which perhaps nobody did wrong.

ghost use Rattle.std.specs.Prelude.{◌≡◌, ◌≤◌, ◌+◌, ◌++◌, length};
ghost use Rattle.mdb_bus.specs.ExtendedLevels.{levels_in};
ghost use Rattle.mdb_writing.specs.Written.{HasTaken};
ghost use Rattle.mdbcheck_run.specs.Aside as spec;
ghost use Rattle.mdbcheck_run.specs.Aside.{HasHeard, aside_of, beyond_line, spared_line, unjudged_line};

use super::complaint::tell;
use mdb_bus::{Beginning, Blame, Levels, Profile, Rule};
use mdb_check::{Checked, Spared};
use mdb_follow::Offence;
use mdb_msgs::{Device, ReaderUnit, Setups};
use mdb_text::Outcome;
use mdb_verdict::RunFault;
use mdb_writing::Page;
use std::io::Write;

/// Writes one line on a no by which perhaps nobody did wrong, in a recording that begins so. If it
/// isn't judged, the line names the reader. Else, if the extended profile's times spare the row, it
/// says how long the row took. Else, if the row isn't followed, it names the device, and has the
/// words to type. On any other answer nothing is written.
pub(crate) fn tell_aside<E: Write>(
    begins: &Beginning,
    checked: &Result<Checked, RunFault>,
    err: &mut E,
)
    ensures { HasHeard E.contents err.old err.new (aside_of begins.now checked.now) }
{
    let Ok(
        Checked {
            outcome: Outcome::No(offence),
            beside,
        },
    ) = checked
    else {
        return;
    };
    match (beside.unjudged, beside.spared) {
        (Some(unit), _) => tell(err, text_of_unjudged(unit)),
        (None, Some(spared)) => tell_spared(*offence, spared, err),
        (None, None) => {
            if matches!(offence.rule, Rule::Profile) {
                tell_beyond(begins, *offence, beside.unfollowed, err);
            }
        }
    }
}

/// Writes the line on a row that takes so long, where the extended profile's times spare it.
fn tell_spared<E: Write>(offence: Offence, spared: Spared, err: &mut E)
    ensures { HasTaken (E.contents err.old) (E.contents err.new) (spared_line offence spared) }
{
    let mut page = Page::new();
    page.push(b"mdbcheck: row ");
    page.push_number(offence.row);
    page.push(b": ");
    push_deed(
        &mut page,
        offence.rule,
        offence.blame,
        tenths(offence.rule, spared.micros),
        spared.after_ret,
    );
    page.push(b"; --extended counts that and goes on");
    page.push(b"\n");
    let _ = page.write_out(err);
}

/// Adds what a row out of its time did, and how long it took, in tenths of a millisecond.
fn push_deed(page: &mut Page, rule: Rule, sender: Blame, time: u64, after_ret: bool)
    requires { length page.old ≤ 100 }
    ensures text { page.new ≡ page.old ++ spec.deed_text rule sender time after_ret }
    ensures few { length page.new ≤ length page.old + 120 }
{
    page.push(sender_text(sender).as_bytes());
    page.push(did_text(rule).as_bytes());
    push_time(page, time);
    page.push(since_text(rule, sender, after_ret).as_bytes());
}

/// Adds a time in tenths of a millisecond.
fn push_time(page: &mut Page, time: u64)
    requires { length page.old ≤ 200 }
    ensures text { page.new ≡ page.old ++ spec.time_text time }
    ensures few { length page.new ≤ length page.old + 50 }
{
    page.push_number(time / 10);
    page.push(b".");
    page.push_number(time % 10);
    page.push(b" ms");
}

/// Tenths of a millisecond: what is too long is rounded up, and what is too short down.
fn tenths(rule: Rule, micros: u64) -> u64
    ensures { result ≡ spec.tenths rule micros }
{
    let more = match rule {
        Rule::Late | Rule::Spacing => micros % 100 != 0,
        _ => false,
    };
    micros / 100 + u64::from(more)
}

/// Who sent a row.
fn sender_text(sender: Blame) -> &'static str
    ensures text { result.now ≡ spec.sender_text sender }
    ensures short { length result.now ≤ 20 }
{
    match sender {
        Blame::Controller => "the controller",
        Blame::Changer => "changer",
        Blame::Bill => "bill",
        Blame::Cashless => "cashless",
        Blame::Cashless2 => "cashless-2",
        Blame::Other => "a device",
    }
}

/// What a row out of its time did, before its time.
fn did_text(rule: Rule) -> &'static str
    ensures text { result.now ≡ spec.did_text rule }
    ensures short { length result.now ≤ 20 }
{
    match rule {
        Rule::Early => " sent a command ",
        Rule::Late => " answered ",
        Rule::Spacing => " sent a word ",
        _ => " sent a break of ",
    }
}

/// The same after its time.
fn since_text(rule: Rule, sender: Blame, after_ret: bool) -> &'static str
    ensures text { result.now ≡ spec.since_text rule sender after_ret }
    ensures short { length result.now ≤ 40 }
{
    match (rule, sender) {
        (Rule::Early, _) => " after the row before it",
        (Rule::Late, Blame::Controller) => " after the reply",
        (Rule::Late, _) => {
            if after_ret {
                " after the controller asked again"
            } else {
                " after the command"
            }
        }
        (Rule::Spacing, _) => " after the word before it",
        _ => "",
    }
}

/// Writes the line on a row of this device that isn't followed.
fn tell_beyond<E: Write>(begins: &Beginning, offence: Offence, device: Option<Device>, err: &mut E)
    ensures { HasTaken (E.contents err.old) (E.contents err.new)
        (beyond_line begins.now offence device) }
{
    let mut page = Page::new();
    page.push(b"mdbcheck: row ");
    page.push_number(offence.row);
    page.push(b": ");
    page.push(text_of_beyond(begins, offence.blame, device).as_bytes());
    page.push(b"\n");
    let _ = page.write_out(err);
}

/// Why a row isn't followed that this side sent, and the words to type.
fn text_of_beyond(begins: &Beginning, sender: Blame, device: Option<Device>) -> &'static str
    ensures text { result.now ≡ spec.beyond_text begins.now sender device }
    ensures short { length result.now ≤ 250 }
{
    match (sender, device) {
        (Blame::Controller, _) => text_of_command(device),
        (_, Some(device)) => text_of_message(remedy_for(begins, device), device),
        (_, None) => "a device sends a message that isn't followed",
    }
}

/// That a command to a device isn't followed, and the words to type.
fn text_of_command(device: Option<Device>) -> &'static str
    ensures text { result.now ≡ spec.command_text (spec.device_text device) }
    ensures short { length result.now ≤ 250 }
{
    match device {
        Some(Device::Changer) => {
            "the controller sends changer a command that isn't followed \
             (leave it out: --without changer)"
        }
        Some(Device::Bill) => {
            "the controller sends bill a command that isn't followed \
             (leave it out: --without bill)"
        }
        Some(Device::Reader(ReaderUnit::First)) => {
            "the controller sends cashless a command that isn't followed \
             (leave it out: --without cashless)"
        }
        Some(Device::Reader(ReaderUnit::Second)) => {
            "the controller sends cashless-2 a command that isn't followed \
             (leave it out: --without cashless-2)"
        }
        None => {
            "the controller sends DEVICE a command that isn't followed \
             (leave it out: --without DEVICE)"
        }
    }
}

/// That a message of a device isn't followed, and the words to type, by what may help.
fn text_of_message(remedy: Remedy, device: Device) -> &'static str
    ensures text { result.now ≡ spec.message_text remedy device }
    ensures short { length result.now ≤ 250 }
{
    match (remedy, device) {
        (Remedy::Extend, Device::Bill) => "bill may report a recycler: add --extended",
        (Remedy::Extend, Device::Reader(ReaderUnit::First)) => {
            "cashless goes beyond feature level 1: add --extended"
        }
        (Remedy::Extend, Device::Reader(ReaderUnit::Second)) => {
            "cashless-2 goes beyond feature level 1: add --extended"
        }
        (Remedy::TellLevel, Device::Reader(ReaderUnit::First)) => {
            "cashless sends a message that isn't followed, at least while its level isn't known: \
             tell it, as in --setup 'cashless level 3' (or leave it out: --without cashless)"
        }
        (Remedy::TellLevel, Device::Reader(ReaderUnit::Second)) => {
            "cashless-2 sends a message that isn't followed, at least while its level isn't known: \
             tell it, as in --setup 'cashless-2 level 3' (or leave it out: --without cashless-2)"
        }
        (_, Device::Changer) => {
            "changer sends a message that isn't followed (leave it out: --without changer)"
        }
        (_, Device::Bill) => {
            "bill sends a message that isn't followed (leave it out: --without bill)"
        }
        (_, Device::Reader(ReaderUnit::First)) => {
            "cashless sends a message that isn't followed (leave it out: --without cashless)"
        }
        (_, Device::Reader(ReaderUnit::Second)) => {
            "cashless-2 sends a message that isn't followed (leave it out: --without cashless-2)"
        }
    }
}

/// What may help where a row isn't followed.
#[derive(Clone, Copy)]
pub enum Remedy {
    /// The extended profile.
    Extend,
    /// That the reader's level is told.
    TellLevel,
    /// That the device is left out.
    LeaveOut,
}

/// What may help where a message of a device isn't followed, in a recording that begins so.
fn remedy_for(begins: &Beginning, device: Device) -> Remedy
    ensures { result ≡ spec.remedy_for begins.now device }
{
    match (begins, device) {
        (Beginning::PowerOn(Profile::Base) | Beginning::Joined(_, Profile::Base), _) => {
            Remedy::Extend
        }
        (Beginning::Joined(setups, Profile::Extended), Device::Reader(unit)) => {
            if is_given(setups, unit) {
                Remedy::LeaveOut
            } else {
                Remedy::TellLevel
            }
        }
        _ => Remedy::LeaveOut,
    }
}

/// Whether setup data give the level of a reader, as both sides reported it.
fn is_given(setups: &Setups, unit: ReaderUnit) -> bool
    ensures { result ≡ spec.is_given (levels_in setups.now unit) }
{
    let known = Levels::known(setups);
    let levels = match unit {
        ReaderUnit::First => known.first,
        ReaderUnit::Second => known.second,
    };
    levels.asked.is_some() && levels.told.is_some()
}

/// The line on a no that isn't judged.
fn text_of_unjudged(unit: ReaderUnit) -> &'static str
    ensures { result.now ≡ unjudged_line unit }
{
    match unit {
        ReaderUnit::First => {
            "mdbcheck: not judged: the rows don't show whether cashless and the controller speak \
             feature level 1: add --extended (or leave it out: --without cashless)\n"
        }
        ReaderUnit::Second => {
            "mdbcheck: not judged: the rows don't show whether cashless-2 and the controller speak \
             feature level 1: add --extended (or leave it out: --without cashless-2)\n"
        }
    }
}
