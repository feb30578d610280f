//! The explanation of an end of a range: marks of a run that comes to it, and the rows.

ghost use Rattle.std.specs.Prelude.{◌≡◌, ◌≢◌, ◌≤◌, List, [], ℕ, OnErr, OnOk, IfOk, IfErr, IsSome, None, length};
ghost use Rattle.std.specs.Io.KnownBytes.{Appends};
ghost use Rattle.mdb_records.specs.ToCome.{IsOverLimit, ToCome, fault_of};
ghost use Rattle.mdb_bus.specs.Scopes.{power_on};
ghost use Rattle.mdb_bus.specs.Scopes as scopes;
ghost use Rattle.mdb_explain.specs.Explain.{ExplainsText, IsExplained, LeavesNo, explanation_text};
ghost use Rattle.mdb_verdict.specs.Headline.{IfYes};
ghost use Rattle.mdb_verdict.specs.Telling.{HasCause};
ghost use Rattle.mdb_verdict.specs.Verdict.{IsAnswer, IsNoYes};
ghost use Rattle.mdb_verdict.specs.Rows.{AreRows};
ghost use Rattle.mdb_writing.specs.Written.{HasTaken};
ghost use Rattle.mdb_explain.specs.inner.Explaining.{HasKept, IsNoText, IsRowsText, IsTold, marks_text, rows_text};
ghost use Rattle.mdb_writing.specs.Output.{Breaks, Puts, output};
ghost use Rattle.mdb_follow.specs.Follower.{scope_of};
ghost use Rattle.mdb_follow.specs.Runs.{IsReached};
ghost use Rattle.mdb_follow.specs.declared.goal.Goal.{Goal};
ghost use Rattle.mdb_follow.specs.declared.report.Report.{Report};
ghost use Rattle.mdb_words.specs.declared.event.Event.{Event};
ghost use Rattle.mdb_follow.specs.declared.follower.TheConstants.{ROWS_MAX};

use super::keeping::Keeping;
use super::lines::{add_mark, add_row};
use mdb_bus::{Profile, Scope};
use mdb_follow::{Goal, Offence, ROWS_MAX, Report, laws};
use mdb_msgs::DeviceSet;
use mdb_records::Records;
use mdb_run_search::{Mark, explain_reached};
use mdb_text::Outcome;
use mdb_verdict::{BYTES_MAX, Batch, RunFault, outcome_of, read_rows, records_of, text_scoped};
use mdb_words::Event;
use mdb_writing::{Page, WriteFailed, write_text};
use std::alloc::Global;
use std::io::{Read, Write};

/// Reads a recording, as [`check`](super::check) does, and returns the same answer. If it is yes,
/// this writes an explanation of a bound of the report: the marks of a run that reaches the bound,
/// and then the rows of the recording. No run goes further, and none that reaches the bound has
/// fewer marks. If the answer is no, this writes what `check` writes. The recording begins at
/// power-on or at a break, and all devices are followed, by the base profile: this is
/// [`explain_scoped`] of [`Profile::Base`] and [`DeviceSet::NONE`].
///
/// An explanation is an input of [`replay`](super::replay). Each mark has a line: the number of its
/// row, `L` for a lost ACK or `R` for a reply that reports a restart, and `-`. The numbers rise.
/// Each row has a line as it was read, with numbers as short as they can be and a word in three
/// hexadecimal digits.
///
/// # Errors
///
/// Those of `check`. `Memory` also if the rows or the marks can't be kept. With `Write`, the writer
/// took a front of the text that there is, and nothing else. With any other error nothing was
/// written.
pub fn explain<R: Read + Drop, W: Write>(
    alloc: Global,
    reader: R,
    writer: &mut W,
    goal: &Goal,
) -> Result<Outcome, RunFault>
    ensures explains { ExplainsText W.contents power_on goal.now (R.remaining reader) writer.old
        writer.new result }
{
    explain_scoped(alloc, Profile::Base, DeviceSet::NONE, reader, writer, goal)
}

/// Does what [`explain`] does by a profile, with these devices left out, as for
/// [`check_scoped`](super::check_scoped) of [`Scope::from_power_on`].
pub fn explain_scoped<R: Read + Drop, W: Write>(
    alloc: Global,
    profile: Profile,
    without: DeviceSet,
    reader: R,
    writer: &mut W,
    goal: &Goal,
) -> Result<Outcome, RunFault>
    ensures explains { ExplainsText W.contents (scopes.from_power_on profile without) goal.now
        (R.remaining reader) writer.old writer.new result }
{
    let mut records = records_of(alloc, reader, BYTES_MAX);
    explain_records(alloc, profile, without, &mut records, writer, goal)
}

/// Explains the records that are still to come, and writes the text of that. The rows are kept, and
/// after a yes they are followed a second time, for the marks. Afterwards `records` can still be
/// asked where reading ended.
pub fn explain_records<R: Read + Drop, W: Write>(
    alloc: Global,
    profile: Profile,
    without: DeviceSet,
    records: &mut Records<R>,
    writer: &mut W,
    goal: &Goal,
) -> Result<Outcome, RunFault>
    ensures explained { (all : List (List (List ℕ))) → ToCome R.remaining records.old all
        → IsExplained (scopes.from_power_on profile without) goal.now all (W.contents writer.old)
        (W.contents writer.new) result }
    ensures leaves { LeavesNo W.contents (scopes.from_power_on profile without) writer.old
        writer.new result }
    ensures whole { IsOverLimit R.remaining records.old → IsNoYes result }
    ensures heard { IfErr result (HasCause (fault_of records.new)) }
    ensures met { fault_of records.old ≡ None → IsSome (fault_of records.new) → IsNoYes result }
{
    let mut keeping = Keeping::new(alloc, profile, without);
    match kept_outcome(records, &mut keeping)? {
        Outcome::Yes(report) => {
            explain_rows(
                alloc,
                profile,
                without,
                keeping.rows.as_slice(),
                goal,
                report,
                writer,
            )
        }
        Outcome::No(offence) => tell_no(alloc, profile, without, offence, writer),
    }
}

/// The verdict on the records that are still to come, of which the rows are kept.
fn kept_outcome<R: Read + Drop>(
    records: &mut Records<R>,
    keeping: &mut Keeping,
) -> Result<Outcome, RunFault>
    requires { HasKept (scope_of keeping.old.follower) keeping.old [] }
    ensures answer { (all : List (List (List ℕ))) → ToCome R.remaining records.old all
        → IsAnswer (scope_of keeping.old.follower) ROWS_MAX all result }
    ensures rows { (all : List (List (List ℕ))) → ToCome R.remaining records.old all
        → IfOk result (λ outcome. IfYes outcome (λ report. AreRows all keeping.new.rows.items)) }
    ensures few { IfOk result (λ outcome. IfYes outcome (λ report.
        length keeping.new.rows.items ≤ ROWS_MAX)) }
    ensures reached { IfOk result (λ outcome. IfYes outcome (λ report.
        IsReached (scope_of keeping.old.follower) keeping.new.rows.items)) }
    ensures whole { IsOverLimit R.remaining records.old → IsNoYes result }
    ensures heard { IfErr result (HasCause (fault_of records.new)) }
    ensures met { fault_of records.old ≡ None → IsSome (fault_of records.new) → IsNoYes result }
    ensures not_write { IfErr result (λ fault. fault ≢ RunFault.Write) }
{
    laws::followers_stand_for_reached_rows();
    laws::sales_follow_their_approvals();
    match read_rows(records, &mut Batch::new(), keeping, &mut (), ROWS_MAX)? {
        None => Ok(outcome_of(&keeping.follower)),
        // A row that can't be, or else refused memory.
        Some(stop) => Ok(Outcome::No(stop?)),
    }
}

/// Writes what explains a goal of rows that are reached, and have this report.
fn explain_rows<W: Write>(
    alloc: Global,
    profile: Profile,
    without: DeviceSet,
    rows: &[Event],
    goal: &Goal,
    report: Report,
    writer: &mut W,
) -> Result<Outcome, RunFault>
    requires few { length rows.now ≤ ROWS_MAX }
    requires reached { IsReached (scopes.from_power_on profile without) rows.now }
    ensures { IsTold W.contents writer.old writer.new
        (IsRowsText (scopes.from_power_on profile without) rows.now goal.now report) result }
{
    let Ok(marks) = explain_reached(alloc, profile, without, rows, goal) else {
        return Err(RunFault::Memory);
    };
    write_explanation(writer, marks.as_slice(), rows)?;
    Ok(Outcome::Yes(report))
}

/// Writes the text of a no.
fn tell_no<W: Write>(
    alloc: Global,
    profile: Profile,
    without: DeviceSet,
    offence: Offence,
    writer: &mut W,
) -> Result<Outcome, RunFault>
    ensures { IsTold W.contents writer.old writer.new
        (IsNoText (scopes.from_power_on profile without) offence) result }
{
    let outcome = Outcome::No(offence);
    let Ok(text) = text_scoped(alloc, &Scope::from_power_on(profile, without), &outcome) else {
        return Err(RunFault::Memory);
    };
    write_text(writer, text.as_slice())?;
    Ok(outcome)
}

/// Writes marks, and then rows, a page at a time.
fn write_explanation<W: Write>(
    writer: &mut W,
    marks: &[(u64, Mark)],
    rows: &[Event],
) -> Result<(), WriteFailed>
    ensures written { OnOk result (Appends (W.contents writer.old) (W.contents writer.new)
        (explanation_text marks.now rows.now)) }
    ensures front { HasTaken (W.contents writer.old) (W.contents writer.new)
        (explanation_text marks.now rows.now) }
{
    let mut page = Page::new();
    add_marks(&mut page, writer, marks)?;
    add_rows(&mut page, writer, rows)?;
    page.write_out(writer)
}

/// Adds the lines of marks.
fn add_marks<W: Write>(
    page: &mut Page,
    writer: &mut W,
    marks: &[(u64, Mark)],
) -> Result<(), WriteFailed>
    ensures added { OnOk result (Puts (output (W.contents writer.old) page.old)
        (output (W.contents writer.new) page.new) (marks_text marks.now)) }
    ensures broken { OnErr result (Breaks (output (W.contents writer.old) page.old)
        (output (W.contents writer.new) page.new) (marks_text marks.now)) }
{
    for mark in marks {
        add_mark(page, writer, mark)?;
    }
    Ok(())
}

/// Adds the lines of rows.
fn add_rows<W: Write>(page: &mut Page, writer: &mut W, rows: &[Event]) -> Result<(), WriteFailed>
    ensures added { OnOk result (Puts (output (W.contents writer.old) page.old)
        (output (W.contents writer.new) page.new) (rows_text rows.now)) }
    ensures broken { OnErr result (Breaks (output (W.contents writer.old) page.old)
        (output (W.contents writer.new) page.new) (rows_text rows.now)) }
{
    for row in rows {
        add_row(page, writer, row)?;
    }
    Ok(())
}
