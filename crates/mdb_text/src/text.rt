//! The text of an outcome.

ghost use Rattle.std.specs.Prelude.{OnOk};
ghost use Rattle.std.specs.Io.KnownBytes.{Appends};
ghost use Rattle.mdb_text.specs.Text.{account_line, accounts_text, beginning_text, count_text, counts_line, decimals_line, head_text, devices_text, line_of_devices, offence_text, places_text, report_lines, report_text, side_text, untimely_counts, untimely_line, word_in};

use super::known::known_devices;
use super::outcome::Outcome;
use mdb_bus::{Beginning, Scope, Untimely};
use mdb_follow::{Account, AccountName, Offence, Range, Report, device_place};
use mdb_msgs::{Device, DeviceSet};
use std::io;
use std::io::Write;

/// Writes the text of the outcome of a recording that is taken so, line by line. It takes no
/// memory; the only errors are the writer's.
pub fn write_outcome<W: Write>(writer: &mut W, scope: &Scope, outcome: &Outcome) -> io::Result<()>
    ensures { OnOk result
        (Appends (W.contents writer.old)
        (W.contents writer.new) (report_text scope.now outcome.now)) }
{
    match outcome {
        Outcome::Yes(report) => write_report(writer, scope, report),
        Outcome::No(offence) => write_offence(writer, offence),
    }
}

/// Writes the lines of a yes.
fn write_report<W: Write>(writer: &mut W, scope: &Scope, report: &Report) -> io::Result<()>
    ensures { OnOk result
        (Appends (W.contents writer.old)
        (W.contents writer.new) (report_text scope.now (Outcome.Yes report.now))) }
{
    write_head(writer, report.rows)?;
    write_report_lines(writer, scope, report)
}

/// Writes the lines of a yes after the first two.
pub fn write_report_lines<W: Write>(
    writer: &mut W,
    scope: &Scope,
    report: &Report,
) -> io::Result<()>
    ensures { OnOk result
        (Appends (W.contents writer.old)
        (W.contents writer.new) (report_lines scope.now report.now)) }
{
    write_decimals(writer, report)?;
    write_accounts(writer, report)?;
    write_counts(writer, "silences", &report.silences())?;
    write_untimely(writer, "untimely", &report.untimely)?;
    write_beginning(writer, &scope.begins, report)?;
    write_devices(writer, "without", scope.without)
}

/// Writes the first two lines of a yes.
fn write_head<W: Write>(writer: &mut W, rows: u64) -> io::Result<()>
    ensures { OnOk result
        (Appends (W.contents writer.old) (W.contents writer.new) (head_text rows)) }
{
    write!(writer, "verdict yes\nrows {rows}\n")
}

/// Writes how many decimal places each device told of.
fn write_decimals<W: Write>(writer: &mut W, report: &Report) -> io::Result<()>
    ensures { OnOk result
        (Appends (W.contents writer.old)
        (W.contents writer.new) (decimals_line report.now)) }
{
    write!(writer, "decimals")?;
    for device in Report::DEVICES {
        write_places(writer, device, report.device_decimals(device))?;
    }
    write!(writer, "\n")
}

/// Writes how many decimal places a device told of, after its word, or that it told of none.
fn write_places<W: Write>(writer: &mut W, device: Device, places: Option<u8>) -> io::Result<()>
    ensures { OnOk result
        (Appends (W.contents writer.old)
        (W.contents writer.new) (places_text device places)) }
{
    match places {
        Some(places) => write!(writer, " {device} {places}"),
        None => write!(writer, " {device} -"),
    }
}

/// Writes a line for each account.
fn write_accounts<W: Write>(writer: &mut W, report: &Report) -> io::Result<()>
    ensures { OnOk result
        (Appends (W.contents writer.old)
        (W.contents writer.new) (accounts_text report.now)) }
{
    for name in AccountName::ALL {
        write_account(writer, name, &report.account(name))?;
    }
    Ok(())
}

/// Writes what an account comes to on each side, after its word.
pub fn write_account<W: Write>(
    writer: &mut W,
    name: AccountName,
    account: &Account,
) -> io::Result<()>
    ensures { OnOk result
        (Appends (W.contents writer.old)
        (W.contents writer.new) (account_line name account.now)) }
{
    write!(writer, "{name}")?;
    write_side(writer, "device", account.device)?;
    write_side(writer, "controller", account.controller)?;
    write_side(writer, "difference", account.difference)?;
    write!(writer, "\n")
}

/// Writes what an account comes to on one side, after its word.
fn write_side<W: Write>(writer: &mut W, word: &str, range: Range) -> io::Result<()>
    ensures { OnOk result
        (Appends (W.contents writer.old)
        (W.contents writer.new) (side_text word.now range)) }
{
    let Range { least, greatest } = range;
    write!(writer, " {word} {least}..{greatest}")
}

/// Writes a word, and after it a count of each of `Report::DEVICES`.
pub fn write_counts<W: Write>(writer: &mut W, word: &str, counts: &[u64; 4]) -> io::Result<()>
    ensures { OnOk result
        (Appends (W.contents writer.old)
        (W.contents writer.new) (counts_line word.now counts.now)) }
{
    write!(writer, "{word}")?;
    for device in Report::DEVICES {
        write_count(writer, device, counts[device_place(device)])?;
    }
    write!(writer, "\n")
}

/// Writes a count of a device after its word.
fn write_count<W: Write>(writer: &mut W, device: Device, count: u64) -> io::Result<()>
    ensures { OnOk result
        (Appends (W.contents writer.old)
        (W.contents writer.new) (count_text device count)) }
{
    write!(writer, " {device} {count}")
}

/// Writes a word, and after it how many rows of each sender came out of their time, if these are
/// counted.
pub fn write_untimely<W: Write>(
    writer: &mut W,
    word: &str,
    counts: &Option<Untimely>,
) -> io::Result<()>
    ensures { OnOk result
        (Appends (W.contents writer.old)
        (W.contents writer.new) (untimely_line word.now counts.now)) }
{
    match counts {
        Some(counts) => write_untimely_counts(writer, word, counts),
        None => Ok(()),
    }
}

/// Writes a word, and after it how many rows of each sender came out of their time.
fn write_untimely_counts<W: Write>(writer: &mut W, word: &str, counts: &Untimely) -> io::Result<()>
    ensures { OnOk result
        (Appends (W.contents writer.old)
        (W.contents writer.new) (untimely_counts word.now counts.now)) }
{
    let Untimely {
        controller,
        changer,
        bill,
        cashless,
        cashless2,
    } = *counts;
    write!(
        writer,
        "{word} controller {controller} changer {changer} bill {bill}"
    )?;
    write!(writer, " cashless {cashless} cashless-2 {cashless2}\n")
}

/// Writes what a yes says of a recording that begins in mid-session: what has no value, and of
/// which devices setup data are known.
fn write_beginning<W: Write>(writer: &mut W, begins: &Beginning, report: &Report) -> io::Result<()>
    ensures { OnOk result
        (Appends (W.contents writer.old)
        (W.contents writer.new) (beginning_text begins.now report.now)) }
{
    match begins {
        Beginning::PowerOn(_) => Ok(()),
        Beginning::Joined(setups, _) => {
            write_counts(writer, "unvalued", &report.unvalued())?;
            write_devices(writer, "setup", known_devices(setups))
        }
    }
}

/// Writes a word and after it which devices are of a set, if one is.
pub fn write_devices<W: Write>(writer: &mut W, word: &str, devices: DeviceSet) -> io::Result<()>
    ensures { OnOk result
        (Appends (W.contents writer.old)
        (W.contents writer.new) (line_of_devices word.now (devices_text devices))) }
{
    if devices == DeviceSet::NONE {
        return Ok(());
    }
    write!(writer, "{word}")?;
    for device in Report::DEVICES {
        write_if_in(writer, devices, device)?;
    }
    write!(writer, "\n")
}

/// Writes the word of a device that is of a set.
fn write_if_in<W: Write>(writer: &mut W, devices: DeviceSet, device: Device) -> io::Result<()>
    ensures { OnOk result
        (Appends (W.contents writer.old)
        (W.contents writer.new) (word_in devices device)) }
{
    if devices.has(device) {
        write!(writer, " {device}")
    } else {
        Ok(())
    }
}

/// Writes the four lines of a no.
fn write_offence<W: Write>(writer: &mut W, offence: &Offence) -> io::Result<()>
    ensures { OnOk result
        (Appends (W.contents writer.old)
        (W.contents writer.new) (offence_text offence.now)) }
{
    let Offence { row, rule, blame } = *offence;
    write!(
        writer,
        "verdict no\nrow {row}\nrule {rule}\nblame {blame}\n"
    )
}
