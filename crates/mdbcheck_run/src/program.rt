//! The program over a task, and over its words.

ghost use Rattle.std.specs.Prelude.{◌≡◌, ◌≢◌, ◌<◌, ◌⊎◌, Err, IfSome, length};
ghost use Rattle.mdbcheck_run.specs.Aside.{HasToldAside, IsAside, IsAsideOfCheck};
ghost use Rattle.mdbcheck_run.specs.Complaint.{IsToldCause, excess_line};
ghost use Rattle.mdb_explain.specs.Replay.{IsReplayAnswer};
ghost use Rattle.mdb_check.specs.declared.beside.Beside.{Beside};
ghost use Rattle.mdb_check.specs.Json.{checked_text};
ghost use Rattle.mdb_check.specs.Verdict.{IsAnsweredBeside};
ghost use Rattle.mdbcheck_run.specs.Program.{HasHeadline, Says, SaysAnswered, SaysExplained, SaysOf, SaysShown};
ghost use Rattle.mdbcheck_run.specs.Program.{SaysSurveyed, show_status_of, status_of};
ghost use Rattle.mdbcheck_run.specs.Program.{survey_status_of};
ghost use Rattle.mdb_verdict.specs.Forms.{answer_text};
ghost use Rattle.mdb_bus.specs.Scopes.{from_power_on};
ghost use Rattle.mdb_verdict.specs.declared.verdict.TheConstants.{BYTES_MAX};
ghost use Rattle.mdb_writing.specs.Written.{HasTaken};
ghost use Rattle.mdb_records.specs.ToCome.{IsOverLimit, ToCome, limit_of};
ghost use Rattle.csv.specs.Reading.{default_config, records, strip_bom};

use super::apart::Apart;
use super::aside::tell_aside;
use super::command_line::{Asked, program, read_words};
use super::complaint::{Wanted, complain};
use super::task::Task;
use command_words::write_manual;
use mdb_bus::{Levels, LinkFault, Profile, Scope};
use mdb_check::{answer_of, check_records};
use mdb_explain::{MarkedFault, explain_records, replay_records};
use mdb_follow::{Goal, ROWS_MAX};
use mdb_msgs::DeviceSet;
use mdb_records::Records;
use mdb_show::show_records;
use mdb_survey::survey_records;
use mdb_surveyor::Summary;
use mdb_text::{Form, Outcome};
use mdb_verdict::laws::verdicts_say_the_headline;
use mdb_verdict::{BYTES_MAX, RunFault, records_of};
use mdb_writing::WriteFailed;
use std::alloc::Global;
use std::io::{Read, Write};

/// The status of a transcript that can have been, or has no link fault.
const POSSIBLE: u8 = 0;

/// The status of a transcript that cannot have been, or has a link fault.
const IMPOSSIBLE: u8 = 1;

/// The status where there is no verdict, and neither acts nor faults are shown to the end.
const NO_VERDICT: u8 = 2;

/// Does a task with the text that the reader has left, and returns the exit status.
///
/// `Check`:
///
/// - 0: the recording is possible, and its report is on `out`.
/// - 1: it is impossible, and the report on `out` shows why.
///
/// `Survey`:
///
/// - 0: each row of the recording is possible, and its report is on `out`.
/// - 1: it has one fault or more. The report on each stretch, each fault, the totals and the number
///   of faults are on `out`.
///
/// `Show`:
///
/// - 0: each act of the recording has a line on `out`.
/// - 1: a row breaks a rule of the link. The last line on `out` reports it, and the lines before it
///   are those of the acts.
///
/// `Explain`:
///
/// - 0: the recording is possible, and an explanation of the goal is on `out`: marks, and then the
///   rows.
/// - 1: it is impossible, and the report on `out` shows why.
///
/// `Replay`:
///
/// - 0: the recording has a run with the marks before it, and its report is on `out`.
/// - 1: it has none, and the report on `out` shows why.
///
/// With status 0 and 1 nothing is written to `err`, with one exception: `Check` writes one line if
/// perhaps nobody did wrong by its no. If `err` refuses the line, the status is the same. The line
/// stands there in three cases:
///
/// - The no isn't judged because the rows don't show the feature level of a reader. The line names
///   the reader.
/// - The rule is `Early`, `Late`, `Spacing` or `Break` of the base profile, the row is in the times
///   of the extended profile, and nothing else is wrong with it as far as the link goes. The line
///   has the row, who sent it and how long it took.
/// - The rule is `Profile`. The line has the row, what isn't followed, and which words to type.
///
/// With status 2 there is no such answer: the task met a fault. One line on `err` shows why. If
/// `err` refuses the line, the status is the same.
///
/// In the form of JSON, `Check` and `Replay` write their report as one line, `Show` a line for each
/// act, and `Survey` one for each stretch, for each fault and for the whole.
pub fn run<R: Read + Drop, W: Write, E: Write>(
    alloc: Global,
    task: &Task,
    reader: R,
    out: &mut W,
    err: &mut E,
) -> u8
    ensures status { result < 3 }
    ensures says { IfSome (R.remaining reader) (λ text. Says task.now
        (records default_config (strip_bom text)) (W.contents out.old) (W.contents out.new)
        result) }
    ensures whole { IfSome (R.remaining reader) (λ text. BYTES_MAX < length text
        → result ≢ POSSIBLE) }
    ensures silent { result < 2 → HasToldAside E.contents err.old err.new
        (IsAside task.now (R.remaining reader) result) }
{
    match task {
        Task::Check(scope, readers, form) => {
            run_check(alloc, scope, *readers, *form, reader, out, err)
        }
        Task::Survey(scope, form) => run_survey(alloc, scope, *form, reader, out, err),
        Task::Show(scope, form) => run_show(alloc, scope, *form, reader, out, err),
        Task::Explain(goal, profile, without) => {
            run_explain(alloc, *profile, *without, goal, reader, out, err)
        }
        Task::Replay(profile, without, form) => {
            run_replay(alloc, *profile, *without, *form, reader, out, err)
        }
    }
}

/// Does what the words of a command line ask, the program's name first, and returns the exit
/// status: that of the task that they name. `manual` needs no input: with 0 the manual is on `out`,
/// or the part on the command that is named.
///
/// Words that name no task are refused: with status 2 and one line on `err`, which shows why. Words
/// that ask for help or for the version count as such. If `err` refuses the line, the status is the
/// same.
pub fn run_words<R: Read + Drop, W: Write, E: Write>(
    alloc: Global,
    words: &[String],
    reader: R,
    out: &mut W,
    err: &mut E,
) -> u8
    ensures status { result < 3 }
    ensures impossible { result ≡ IMPOSSIBLE → (task : Task)
        × IfSome (R.remaining reader) (λ text. Says task
        (records default_config (strip_bom text)) (W.contents out.old) (W.contents out.new)
        result) }
{
    match read_words(alloc, words) {
        Ok(Asked::Task(task)) => run(alloc, &task, reader, out, err),
        Ok(Asked::Manual(part)) => print_manual(part, out, err),
        Err(line) => {
            line.tell(err);
            NO_VERDICT
        }
    }
}

/// Prints the manual, or a part of it.
fn print_manual<W: Write, E: Write>(part: Option<&str>, out: &mut W, err: &mut E) -> u8
    ensures status { (result ≡ POSSIBLE) ⊎ (result ≡ NO_VERDICT) }
{
    match write_manual(program(), part, out) {
        Ok(()) => POSSIBLE,
        Err(WriteFailed) => {
            let _ = writeln!(err, "mdbcheck: {}", WriteFailed);
            NO_VERDICT
        }
    }
}

/// Gives the verdict on the text that the reader has left, where these levels of the readers are
/// known from elsewhere. From the bytes that are read to those that are written, it says what the
/// headline says.
fn run_check<R: Read + Drop, W: Write, E: Write>(
    alloc: Global,
    scope: &Scope,
    readers: Levels,
    form: Form,
    reader: R,
    out: &mut W,
    err: &mut E,
) -> u8
    ensures status { result < 3 }
    ensures headline { IfSome (R.remaining reader) (λ text.
        (beside : Beside)
        × SaysAnswered (HasHeadline scope.now (records default_config (strip_bom text)))
        (checked_text form scope.now beside) (W.contents out.old) (W.contents out.new) result) }
    ensures says { SaysOf (λ all status. (beside : Beside)
        × SaysAnswered (IsAnsweredBeside scope.now readers ROWS_MAX all beside)
        (checked_text form scope.now beside) (W.contents out.old) (W.contents out.new) status)
        (R.remaining reader) result }
    ensures silent { result < 2 → HasToldAside E.contents err.old err.new
        (IsAsideOfCheck scope.now readers (R.remaining reader) result) }
{
    verdicts_say_the_headline();
    let mut records = input_of(alloc, reader);
    let checked = check_records(alloc, form, scope, readers, &mut records, out, ROWS_MAX);
    tell_aside(&scope.begins, &checked, err);
    finish_check(answer_of(checked), Wanted::Row, &records, err)
}

/// Surveys the text that the reader has left.
fn run_survey<R: Read + Drop, W: Write, E: Write>(
    alloc: Global,
    scope: &Scope,
    form: Form,
    reader: R,
    out: &mut W,
    err: &mut E,
) -> u8
    ensures status { result < 3 }
    ensures says { SaysOf (λ all. SaysSurveyed scope.now form all (W.contents out.old)
        (W.contents out.new)) (R.remaining reader) result }
    ensures silent { result < 2 → err.new ≡ err.old }
{
    let mut records = input_of(alloc, reader);
    let answer = survey_records(alloc, form, scope, &mut records, out);
    finish_survey(answer, &records, err)
}

/// Shows the acts of the text that the reader has left.
fn run_show<R: Read + Drop, W: Write, E: Write>(
    alloc: Global,
    scope: &Scope,
    form: Form,
    reader: R,
    out: &mut W,
    err: &mut E,
) -> u8
    ensures status { result < 3 }
    ensures says { SaysOf (λ all. SaysShown scope.now form all (W.contents out.old)
        (W.contents out.new)) (R.remaining reader) result }
    ensures silent { result < 2 → err.new ≡ err.old }
{
    let mut records = input_of(alloc, reader);
    let answer = show_records(alloc, form, scope, &mut records, out);
    finish_show(answer, &records, err)
}

/// Replays the text that the reader has left: marks, and then a transcript.
fn run_replay<R: Read + Drop, W: Write, E: Write>(
    alloc: Global,
    profile: Profile,
    without: DeviceSet,
    form: Form,
    reader: R,
    out: &mut W,
    err: &mut E,
) -> u8
    ensures status { result < 3 }
    ensures says { SaysOf (λ all. SaysAnswered
        (IsReplayAnswer (from_power_on profile without) ROWS_MAX all)
        (answer_text form (from_power_on profile without)) (W.contents out.old)
        (W.contents out.new)) (R.remaining reader) result }
    ensures silent { result < 2 → err.new ≡ err.old }
{
    // Apart, so that reading marks leaves reading rows as fast as it is alone.
    let mut records = input_of(alloc, Apart { inner: reader });
    let answer = replay_records(alloc, form, profile, without, &mut records, out);
    finish_replay(answer, &records, err)
}

/// Explains the text that the reader has left.
fn run_explain<R: Read + Drop, W: Write, E: Write>(
    alloc: Global,
    profile: Profile,
    without: DeviceSet,
    goal: &Goal,
    reader: R,
    out: &mut W,
    err: &mut E,
) -> u8
    ensures status { result < 3 }
    ensures says { SaysOf (λ all. SaysExplained (from_power_on profile without) goal.now all
        (W.contents out.old) (W.contents out.new)) (R.remaining reader) result }
    ensures silent { result < 2 → err.new ≡ err.old }
{
    let mut records = input_of(alloc, reader);
    let answer = explain_records(alloc, profile, without, &mut records, out, goal);
    finish_check(answer, Wanted::Row, &records, err)
}

/// The records of the text that the reader has left, of which at most [`BYTES_MAX`] bytes are read.
fn input_of<R: Read + Drop>(alloc: Global, reader: R) -> Records<R>
    ensures records { IfSome (R.remaining reader) (λ text.
        ToCome R.remaining result (records default_config (strip_bom text))) }
    ensures over { IfSome (R.remaining reader) (λ text.
        BYTES_MAX < length text → IsOverLimit R.remaining result) }
    ensures limit { limit_of result ≡ BYTES_MAX }
{
    records_of(alloc, reader, BYTES_MAX)
}

/// The status of a verdict or of an explanation; a fault is told.
fn finish_check<R: Read + Drop, E: Write>(
    answer: Result<Outcome, RunFault>,
    wanted: Wanted,
    records: &Records<R>,
    err: &mut E,
) -> u8
    ensures status { result ≡ status_of answer }
    ensures silent { result < 2 → err.new ≡ err.old }
    ensures excess { answer ≡ Err RunFault.TooLong
        → HasTaken (E.contents err.old) (E.contents err.new) excess_line }
    ensures read { answer ≡ Err RunFault.Read
        → IsToldCause records.now (E.contents err.old) (E.contents err.new) }
{
    match answer {
        Ok(Outcome::Yes(_)) => POSSIBLE,
        Ok(Outcome::No(_)) => IMPOSSIBLE,
        Err(fault) => {
            complain(fault, wanted, records, err);
            NO_VERDICT
        }
    }
}

/// The status of a replay; a fault is told.
fn finish_replay<R: Read + Drop, E: Write>(
    answer: Result<Outcome, MarkedFault>,
    records: &Records<R>,
    err: &mut E,
) -> u8
    ensures status { result ≡ status_of answer }
    ensures silent { result < 2 → err.new ≡ err.old }
    ensures excess { answer ≡ Err (MarkedFault.Run RunFault.TooLong)
        → HasTaken (E.contents err.old) (E.contents err.new) excess_line }
    ensures read { answer ≡ Err (MarkedFault.Run RunFault.Read)
        → IsToldCause records.now (E.contents err.old) (E.contents err.new) }
{
    match answer {
        Ok(outcome) => finish_check(Ok(outcome), Wanted::MarkOrRow, records, err),
        Err(MarkedFault::Run(fault)) => {
            finish_check(Err(fault), Wanted::MarkOrRow, records, err)
        }
        Err(fault) => {
            let _ = writeln!(err, "mdbcheck: {fault}");
            NO_VERDICT
        }
    }
}

/// The status of what was shown; a fault is told.
fn finish_show<R: Read + Drop, E: Write>(
    answer: Result<Option<LinkFault>, RunFault>,
    records: &Records<R>,
    err: &mut E,
) -> u8
    ensures status { result ≡ show_status_of answer }
    ensures silent { result < 2 → err.new ≡ err.old }
    ensures excess { answer ≡ Err RunFault.TooLong
        → HasTaken (E.contents err.old) (E.contents err.new) excess_line }
    ensures read { answer ≡ Err RunFault.Read
        → IsToldCause records.now (E.contents err.old) (E.contents err.new) }
{
    match answer {
        Ok(None) => POSSIBLE,
        Ok(Some(_)) => IMPOSSIBLE,
        Err(fault) => {
            complain(fault, Wanted::Row, records, err);
            NO_VERDICT
        }
    }
}

/// The status of a survey; a fault of the input or of writing is told.
fn finish_survey<R: Read + Drop, E: Write>(
    answer: Result<Summary, RunFault>,
    records: &Records<R>,
    err: &mut E,
) -> u8
    ensures status { result ≡ survey_status_of answer }
    ensures silent { result < 2 → err.new ≡ err.old }
    ensures excess { answer ≡ Err RunFault.TooLong
        → HasTaken (E.contents err.old) (E.contents err.new) excess_line }
    ensures read { answer ≡ Err RunFault.Read
        → IsToldCause records.now (E.contents err.old) (E.contents err.new) }
{
    match answer {
        Ok(summary) => {
            if summary.faults.all == 0 {
                POSSIBLE
            } else {
                IMPOSSIBLE
            }
        }
        Err(fault) => {
            complain(fault, Wanted::Row, records, err);
            NO_VERDICT
        }
    }
}
