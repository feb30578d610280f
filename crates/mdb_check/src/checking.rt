//! The verdict on a recording, and whether its no is judged.

ghost use Rattle.std.specs.Prelude.{◌≡◌, ◌≢◌, ◌<◌, ◌≤◌, ◌⊎◌, List, ℕ, Err, IfErr, IfOk, IfSome, IsSome, None, length};
ghost use Rattle.csv.specs.Reading.{default_config, records, strip_bom};
ghost use Rattle.mdb_records.specs.ToCome.{IsOverLimit, ToCome, fault_of};
ghost use Rattle.mdb_bus.specs.Scopes.{power_on};
ghost use Rattle.mdb_bus.specs.JoinedScopes.{all_joined};
ghost use Rattle.mdb_text.specs.Text.{report_text};
ghost use Rattle.mdb_verdict.specs.Answers.{Answers, AnswersText, Leaves};
ghost use Rattle.mdb_verdict.specs.Headline.{Headline};
ghost use Rattle.mdb_verdict.specs.Ending.{HasMet, IsToldAs};
ghost use Rattle.mdb_verdict.specs.Telling.{HasCause, HasNoRoom};
ghost use Rattle.mdb_verdict.specs.Verdict.{IsAnswer, IsNoYes};
ghost use Rattle.mdb_check.specs.Json.{checked_text};
ghost use Rattle.mdb_check.specs.Verdict.{IsAnsweredBeside, IsJudgedAs, IsNo, answer_of, beside_of};

use super::beside::Beside;
use super::heeding::Heeding;
use super::json::checked_in;
use super::spared::spared;
use mdb_bus::{Levels, Scope};
use mdb_follow::{ROWS_MAX, laws};
use mdb_msgs::{DeviceSet, Setups};
use mdb_records::Records;
use mdb_text::{Form, Outcome};
use mdb_verdict::laws::verdicts_say_the_headline;
use mdb_verdict::{BYTES_MAX, Batch, RunFault, outcome_of, read_rows, records_of};
use mdb_writing::write_text;
use std::alloc::Global;
use std::io::{Read, Write};

/// A verdict, and what may be said beside its no.
#[derive(PartialEq, Eq, Debug, Drop)]
pub struct Checked {
    /// The verdict.
    pub outcome: Outcome,
    /// What may be said beside it.
    pub beside: Beside,
}

/// Reads a recording, writes the text of its verdict, and returns the verdict. The recording begins
/// at power-on or at a break, and all devices are followed: this is [`check_scoped`] of
/// [`Scope::POWER_ON`].
///
/// The rows are the records of the input as `csv` reads them, without a header: start in
/// microseconds, line (`M`, `S` or `B`), and word or length of the break. Reading ends at the first
/// record that is no row, or at the first impossible row.
///
/// # Errors
///
/// - `BadRow`: the first record that is no row, if no row before it is impossible.
/// - `TooLong`: a record past [`ROWS_MAX`].
/// - `Read`: the reader failed, or the input has more than [`BYTES_MAX`] bytes, and no row before
///   that ended the reading.
/// - `Memory`: memory was refused.
/// - `Write`: the writer failed. It took a front of the text of the verdict, and nothing else. With
///   any other error nothing was written.
pub fn check<R: Read + Drop, W: Write>(
    alloc: Global,
    reader: R,
    writer: &mut W,
) -> Result<Outcome, RunFault>
    ensures headline { IfSome (R.remaining reader) (λ text.
        IfOk result (Headline power_on ROWS_MAX (records default_config (strip_bom text)))) }
    ensures answers { AnswersText W.contents (IsAnswer power_on ROWS_MAX) (report_text power_on)
        RunFault.Write BYTES_MAX (R.remaining reader) writer.old writer.new result }
{
    check_scoped(alloc, &Scope::POWER_ON, reader, writer)
}

/// Does what [`check`] does, for a recording that begins while the machine was running. Nothing is
/// known from elsewhere: this is [`check_scoped`] of [`Scope::joined`] with [`Setups::NONE`] and
/// [`DeviceSet::NONE`].
///
/// What was sent before isn't known, and each device may be in any state. The text of a yes has one
/// more line, its last: for each device, how many amounts have no known value.
///
/// # Errors
///
/// Those of `check`.
pub fn check_joined<R: Read + Drop, W: Write>(
    alloc: Global,
    reader: R,
    writer: &mut W,
) -> Result<Outcome, RunFault>
    ensures headline { IfSome (R.remaining reader) (λ text.
        IfOk result (Headline all_joined ROWS_MAX (records default_config (strip_bom text)))) }
    ensures answers { AnswersText W.contents (IsAnswer all_joined ROWS_MAX) (report_text all_joined)
        RunFault.Write BYTES_MAX (R.remaining reader) writer.old writer.new result }
{
    let scope = Scope::joined(Setups::NONE, DeviceSet::NONE);
    check_scoped(alloc, &scope, reader, writer)
}

/// Does what [`check`] does, with other limits: at most `rows_max` rows and `bytes_max` bytes, in
/// place of [`ROWS_MAX`] and [`BYTES_MAX`].
///
/// # Errors
///
/// Those of `check`. `TooLong` is for a record past `rows_max`, whatever it contains: it may be no
/// row, or an impossible row. `Read` is also for an input of more than `bytes_max` bytes, if no row
/// before that ended the reading.
pub fn check_within<R: Read + Drop, W: Write>(
    alloc: Global,
    reader: R,
    writer: &mut W,
    rows_max: u64,
    bytes_max: u64,
) -> Result<Outcome, RunFault>
    requires rows { rows_max ≤ ROWS_MAX }
    requires bytes { bytes_max ≤ BYTES_MAX }
    ensures headline { IfSome (R.remaining reader) (λ text.
        IfOk result (Headline power_on rows_max (records default_config (strip_bom text)))) }
    ensures answers { AnswersText W.contents (IsAnswer power_on rows_max) (report_text power_on)
        RunFault.Write bytes_max (R.remaining reader) writer.old writer.new result }
{
    check_text(alloc, &Scope::POWER_ON, reader, writer, rows_max, bytes_max)
}

/// Does what [`check`] does, for a recording with this scope. All words to and from a device that
/// is left out are foreign traffic. The text of a yes has these lines more, in this order:
///
/// - for a recording that begins while the machine was running, how many amounts of each device
///   have no known value, as for [`check_joined`];
/// - for such a recording, if setup data are known from elsewhere, the devices that they belong to;
/// - if devices are left out, their names.
///
/// # Errors
///
/// Those of `check`.
pub fn check_scoped<R: Read + Drop, W: Write>(
    alloc: Global,
    scope: &Scope,
    reader: R,
    writer: &mut W,
) -> Result<Outcome, RunFault>
    ensures headline { IfSome (R.remaining reader) (λ text.
        IfOk result (Headline scope.now ROWS_MAX (records default_config (strip_bom text)))) }
    ensures answers { AnswersText W.contents (IsAnswer scope.now ROWS_MAX) (report_text scope.now)
        RunFault.Write BYTES_MAX (R.remaining reader) writer.old writer.new result }
{
    check_text(alloc, scope, reader, writer, ROWS_MAX, BYTES_MAX)
}

/// Does what [`check_scoped`] does, with these limits.
fn check_text<R: Read + Drop, W: Write>(
    alloc: Global,
    scope: &Scope,
    reader: R,
    writer: &mut W,
    rows_max: u64,
    bytes_max: u64,
) -> Result<Outcome, RunFault>
    requires rows { rows_max ≤ ROWS_MAX }
    requires bytes { bytes_max ≤ BYTES_MAX }
    ensures headline { IfSome (R.remaining reader) (λ text.
        IfOk result (Headline scope.now rows_max (records default_config (strip_bom text)))) }
    ensures answers { AnswersText W.contents (IsAnswer scope.now rows_max) (report_text scope.now)
        RunFault.Write bytes_max (R.remaining reader) writer.old writer.new result }
{
    let mut records = records_of(alloc, reader, bytes_max);
    let (form, readers) = (Form::Text, Levels::NONE);
    let checked = check_records(alloc, form, scope, readers, &mut records, writer, rows_max);
    answer_of(checked)
}

/// Checks the records that are still to come, at most `rows_max`, and writes the verdict in this
/// form. Also returns what may be said beside a no. The levels of the readers are those that are
/// known from elsewhere, as
/// `told`: Z2 of a config message of an earlier recording. Afterwards `records` can still be asked
/// where reading ended.
///
/// # Errors
///
/// Those of [`check`].
pub fn check_records<R: Read + Drop, W: Write>(
    alloc: Global,
    form: Form,
    scope: &Scope,
    readers: Levels,
    records: &mut Records<R>,
    writer: &mut W,
    rows_max: u64,
) -> Result<Checked, RunFault>
    requires { rows_max ≤ ROWS_MAX }
    ensures headline { (all : List (List (List ℕ))) → ToCome R.remaining records.old all
        → IfOk result (λ checked. Headline scope.now rows_max all checked.outcome) }
    ensures answers { (all : List (List (List ℕ))) → ToCome R.remaining records.old all
        → (beside : Beside) × IfOk result (λ checked. checked.beside ≡ beside)
        × Answers (IsAnsweredBeside scope.now readers rows_max all beside)
        (checked_text form scope.now beside) RunFault.Write
        (W.contents writer.old) (W.contents writer.new) (answer_of result) }
    ensures judged { (all : List (List (List ℕ))) → ToCome R.remaining records.old all
        → IfOk result (λ checked. IsJudgedAs scope.now readers rows_max all checked.outcome
        checked.beside) }
    ensures no_other { IfOk result (λ checked.
        IsNo checked.outcome ⊎ (checked.beside ≡ Beside.NONE)) }
    ensures leaves { Leaves W.contents (checked_text form scope.now (beside_of result))
        RunFault.Write writer.old writer.new (answer_of result) }
    ensures whole { IsOverLimit R.remaining records.old → IsNoYes (answer_of result) }
    ensures heard { IfErr result (HasCause (fault_of records.new)) }
    ensures met { fault_of records.old ≡ None → IsSome (fault_of records.new)
        → IsNoYes (answer_of result) }
    ensures room { (all : List (List (List ℕ))) → ToCome R.remaining records.old all
        → result ≡ Err RunFault.Memory
        → HasNoRoom scope.now rows_max all (fault_of records.new) }
{
    verdicts_say_the_headline();
    let checked = verdict_on(scope, readers, records, rows_max)?;
    let Some(text) = checked_in(alloc, form, scope, &checked) else {
        return Err(RunFault::Memory);
    };
    write_text(writer, text.as_slice())?;
    Ok(checked)
}

/// The verdict of what was checked, or why there is none.
pub fn answer_of(checked: Result<Checked, RunFault>) -> Result<Outcome, RunFault>
    ensures { result ≡ answer_of checked }
{
    match checked {
        Ok(checked) => Ok(checked.outcome),
        Err(fault) => Err(fault),
    }
}

/// The verdict on the records that are still to come, at most `rows_max`, and whether a no is
/// judged. Nothing is written.
fn verdict_on<R: Read + Drop>(
    scope: &Scope,
    readers: Levels,
    records: &mut Records<R>,
    rows_max: u64,
) -> Result<Checked, RunFault>
    requires { rows_max ≤ ROWS_MAX }
    ensures answer { (all : List (List (List ℕ))) → ToCome R.remaining records.old all
        → IsAnswer scope.now rows_max all (answer_of result) }
    ensures judged { (all : List (List (List ℕ))) → ToCome R.remaining records.old all
        → IfOk result (λ checked. IsJudgedAs scope.now readers rows_max all checked.outcome
        checked.beside) }
    ensures no_other { IfOk result (λ checked.
        IsNo checked.outcome ⊎ (checked.beside ≡ Beside.NONE)) }
    ensures whole { IsOverLimit R.remaining records.old → IsNoYes (answer_of result) }
    ensures heard { IfErr result (HasMet (fault_of records.new)) }
    ensures met { fault_of records.old ≡ None → IfSome (fault_of records.new)
        (λ fault. IsToldAs fault (answer_of result)) }
    ensures not_write { IfErr result (λ fault. fault ≢ RunFault.Write) }
{
    laws::followers_stand_for_reached_rows();
    laws::sales_follow_their_approvals();
    let mut heeding = Heeding::scoped(scope, readers);
    let mut known = readers;
    let batch = &mut Batch::new();
    match read_rows(records, batch, &mut heeding, &mut known, rows_max)? {
        None => Ok(Checked {
            outcome: outcome_of(&heeding.follower),
            beside: Beside::NONE,
        }),
        Some(met) => Ok(Checked {
            outcome: Outcome::No(met.offence),
            beside: Beside {
                unjudged: met.unjudged,
                spared: spared(scope, &met, heeding.follower),
                unfollowed: met.unfollowed,
            },
        }),
    }
}
