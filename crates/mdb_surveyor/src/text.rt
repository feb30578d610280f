//! The lines of a survey, as text.

ghost use Rattle.std.specs.Prelude.{◌≡◌, ◌<◌, ◌+◌, ◌++◌, OnOk};
ghost use Rattle.std.specs.Io.KnownBytes.{Appends};
ghost use Rattle.mdb_surveyor.specs.SurveyText.{fault_line, faults_line, rows_text, stretch_line, stretch_text, summary_text, total_accounts_text, totals_text};

use super::counts::FaultCounts;
use super::stretch::Stretch;
use super::summary::Summary;
use super::told::setups_of;
use super::totals::Totals;
use mdb_bus::Scope;
use mdb_follow::{AccountName, Offence};
use mdb_text::{write_account, write_counts, write_devices, write_report_lines, write_untimely};
use std::io;
use std::io::Write;

/// Writes the lines of a stretch: none where it has no row.
///
/// # Errors
///
/// The writer failed. It took some first bytes, or none.
pub fn write_stretch<W: Write>(writer: &mut W, stretch: &Stretch) -> io::Result<()>
    ensures { OnOk result (Appends (W.contents writer.old) (W.contents writer.new)
        (stretch_text stretch.now)) }
{
    if stretch.report.rows == 0 {
        return Ok(());
    }
    let Stretch {
        number,
        first,
        last,
        ..
    } = stretch;
    write!(writer, "stretch {number} rows {first}-{last}\n")?;
    let scope = Scope::joined(setups_of(&stretch.scope.begins), stretch.scope.without);
    write_report_lines(writer, &scope, &stretch.report)
}

/// Writes the line of a fault.
///
/// # Errors
///
/// The writer failed. It took some first bytes, or none.
pub fn write_fault<W: Write>(writer: &mut W, fault: &Offence) -> io::Result<()>
    ensures { OnOk result (Appends (W.contents writer.old) (W.contents writer.new)
        (fault_line fault.now)) }
{
    let Offence { row, rule, blame } = *fault;
    write!(writer, "fault {row} {rule} {blame}\n")
}

/// Writes the last lines: the totals, where a stretch has a row, and how many faults there are.
///
/// # Errors
///
/// The writer failed. It took some first bytes, or none.
pub fn write_summary<W: Write>(writer: &mut W, summary: &Summary) -> io::Result<()>
    ensures { OnOk result (Appends (W.contents writer.old) (W.contents writer.new)
        (summary_text summary.now)) }
{
    if summary.totals.rows != 0 {
        write_totals(writer, summary)?;
    }
    write_faults(writer, &summary.faults)
}

/// Writes the totals, and which devices are left out at the end.
fn write_totals<W: Write>(writer: &mut W, summary: &Summary) -> io::Result<()>
    ensures { OnOk result (Appends (W.contents writer.old) (W.contents writer.new)
        (totals_text summary.now)) }
{
    let Summary {
        totals,
        without,
        ..
    } = summary;
    write_total_accounts(writer, totals)?;
    write_counts(writer, "total silences", &totals.silences)?;
    write_untimely(writer, "total untimely", &totals.untimely)?;
    write_counts(writer, "total unvalued", &totals.unvalued)?;
    write_devices(writer, "total without", *without)
}

/// Writes the sums of each account.
fn write_total_accounts<W: Write>(writer: &mut W, totals: &Totals) -> io::Result<()>
    ensures { OnOk result (Appends (W.contents writer.old) (W.contents writer.new)
        (total_accounts_text totals.now)) }
{
    for name in AccountName::ALL {
        write!(writer, "total ")?;
        write_account(writer, name, &totals.account(name))?;
    }
    Ok(())
}

/// Writes how many faults there are.
fn write_faults<W: Write>(writer: &mut W, faults: &FaultCounts) -> io::Result<()>
    ensures { OnOk result (Appends (W.contents writer.old) (W.contents writer.new)
        (faults_line faults.now)) }
{
    let FaultCounts {
        all,
        controller,
        changer,
        bill,
        cashless,
        cashless_2,
        other,
        profile,
    } = *faults;
    write!(
        writer,
        "faults {all} controller {controller} changer {changer} bill {bill}"
    )?;
    write!(writer, " cashless {cashless} cashless-2 {cashless_2}")?;
    write!(writer, " other {other} profile {profile}\n")
}
