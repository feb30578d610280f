//! The verdict on a text.

ghost use Rattle.std.specs.Prelude.{◌≡◌, ◌≢◌, ◌≤◌, [], List, length};
ghost use Rattle.mdb_words.specs.declared.event.Event.{Event};
ghost use Rattle.mdb_words.specs.declared.row.RowFault.{RowFault};
ghost use Rattle.mdb_bus.specs.declared.scope.Scope.{Scope};
ghost use Rattle.mdb_follow.specs.declared.offence.Offence.{Offence};
ghost use Rattle.mdb_text.specs.Text.{report_text};
ghost use Rattle.mdb_page.specs.Answers.{IsBadRow, IsNo, IsReplayedNo, IsReplayedYes, IsYes};
ghost use Rattle.mdb_page.specs.Answers.{TellsBadRow, TellsOffence, TellsReport, number_of, written};
ghost use Rattle.mdb_page.specs.Lines.{HasRead, IsNextRow, IsNoRow};
ghost use Rattle.mdb_page.specs.Options.{IsTakenSo};

use crate::judge::Judge;
use crate::lines::{LineFault, first_line, row_of, without_mark, without_return};
use crate::options::{PageOptions, profile_asked, taken_so};
use crate::sheet::PageText;
use mdb_bus::Scope;
use mdb_follow::{Follower, Offence, ROWS_MAX, laws};
use mdb_run_search::Replay;
use mdb_text::{Outcome, write_outcome};
use mdb_words::RowFault;

/// The answers of the calls.
pub(crate) const YES: u32 = 0;

pub(crate) const NO: u32 = 1;

pub(crate) const BAD_ROW: u32 = 2;

pub(crate) const TOO_LONG: u32 = 3;

pub(crate) const UNREAD: u32 = 4;

pub(crate) const BAD_OPTIONS: u32 = 5;

pub(crate) const NO_ROOM: u32 = 6;

/// Where a reading ended.
#[repr(C)]
#[derive(Drop)]
pub struct PageTold {
    /// The number of rows that were read, or the number of the row that ended it, from 1.
    pub row: u64,
    /// The number of bytes before the line of that row, or of the bytes that were read.
    pub offset: u64,
    /// Why that line is no row: 0 to 3, in the order of `RowFault`.
    pub fault: u64,
    /// The number of all acts.
    pub acts: u64,
    /// The number of all news.
    pub news: u64,
}

/// The end of a reading of rows.
enum End {
    /// That of the text.
    Text,
    /// A row that can't be.
    Offence(Offence),
    /// A line that is no row.
    Line(LineFault),
    /// A row more than there may be.
    TooLong,
}

/// The number of the fault of a row.
fn fault_number(fault: RowFault) -> u64
    ensures { result ≡ number_of fault }
{
    match fault {
        RowFault::FieldCount => 0,
        RowFault::BadTime => 1,
        RowFault::BadLine => 2,
        RowFault::BadValue => 3,
    }
}

/// Checks the recording that lies in memory as text. It returns
///
/// - 0: all rows are possible, and `answer` has the text of the report;
/// - 1: a row is impossible, and `answer` has the text with its rule and blame;
/// - 2: a line is no row;
/// - 3: there are more rows than a recording may have;
/// - 4: a line has a quote, or a CR that doesn't end it;
/// - 5: the options aren't valid;
/// - 6: the text of the answer has no room.
///
/// `told` shows where the reading ended.
#[unsafe(no_mangle)]
pub extern "C" fn mdb_page_check(
    options: &PageOptions,
    text: &[u8],
    told: &mut PageTold,
    answer: &mut PageText,
) -> u32
    ensures yes { result ≡ 0 → (scope : Scope) × IsTakenSo options.now scope
        × IsYes scope text.now told.new answer.new }
    ensures no { result ≡ 1 → (scope : Scope) × IsTakenSo options.now scope
        × IsNo scope text.now told.new answer.new }
    ensures bad_row { result ≡ 2 → (scope : Scope) × IsTakenSo options.now scope
        × IsBadRow scope text.now told.new }
    ensures refused { result ≡ 5 → (scope : Scope) → IsTakenSo options.now scope → ⊥ }
    ensures taken { result ≢ 5 → (scope : Scope) × IsTakenSo options.now scope }
{
    laws::followers_stand_for_reached_rows();
    answer.count = 0;
    let Some(scope) = taken_so(options) else {
        return BAD_OPTIONS;
    };
    judge(&mut Follower::scoped(&scope), &scope, text, told, answer)
}

/// Replays the recording that lies in memory as text, without marks: it follows the run in which no
/// acknowledgement was lost, and no device restarted unseen. It returns what [`mdb_page_check`]
/// does: 0 if the rows have this run, and 1 if a row has no place in it. It also returns 5 if the
/// recording begins in mid-session, which no replay does.
#[unsafe(no_mangle)]
pub extern "C" fn mdb_page_replay(
    options: &PageOptions,
    text: &[u8],
    told: &mut PageTold,
    answer: &mut PageText,
) -> u32
    ensures yes { result ≡ 0 → (scope : Scope) × IsTakenSo options.now scope
        × IsReplayedYes scope text.now told.new answer.new }
    ensures no { result ≡ 1 → (scope : Scope) × IsTakenSo options.now scope
        × IsReplayedNo scope text.now told.new answer.new }
    ensures refused { result ≡ 5 → options.now.joined ≡ 0
        → (scope : Scope) → IsTakenSo options.now scope → ⊥ }
    ensures taken { result ≢ 5 → (options.now.joined ≡ 0)
        × ((scope : Scope) × IsTakenSo options.now scope) }
{
    answer.count = 0;
    if options.joined != 0 {
        return BAD_OPTIONS;
    }
    let Some(scope) = taken_so(options) else {
        return BAD_OPTIONS;
    };
    judge(
        &mut Replay::from_power_on(profile_asked(options), scope.without),
        &scope,
        text,
        told,
        answer,
    )
}

/// The answer of a judge on a text.
fn judge<J: Judge>(
    judge: &mut J,
    scope: &Scope,
    text: &[u8],
    told: &mut PageTold,
    answer: &mut PageText,
) -> u32
    requires stands { J.stands_for judge.old scope.now [] }
    requires empty { answer.old.count ≡ 0 }
    ensures yes { result ≡ 0
        → TellsReport J.reports scope.now text.now told.new answer.new }
    ensures no { result ≡ 1
        → TellsOffence J.refuses scope.now text.now told.new answer.new }
    ensures bad_row { result ≡ 2 → (rows : List Event) × J.stands_for judge.new scope.now rows
        × TellsBadRow rows text.now told.new }
    ensures options { result ≢ 5 }
{
    let mut rest = without_mark(text);
    let end = follow(judge, scope, &mut rest);
    told.offset = (text.len() - rest.len()) as u64;
    told.row = judge.taken() + 1;
    match end {
        End::Text => {
            told.row = judge.taken();
            write_as(YES, scope, &Outcome::Yes(judge.report_now()), answer)
        }
        End::Offence(offence) => {
            told.row = offence.row;
            write_as(NO, scope, &Outcome::No(offence), answer)
        }
        End::Line(fault) => line_answer(told, fault),
        End::TooLong => TOO_LONG,
    }
}

/// The answer at a line that is no row.
pub(crate) fn line_answer(told: &mut PageTold, fault: LineFault) -> u32
    ensures bad_row { result ≡ 2 → (why : RowFault) × (fault ≡ LineFault.BadRow why)
        × (told.new.fault ≡ number_of why) }
    ensures row_fault { (why : RowFault) → fault ≡ LineFault.BadRow why → result ≡ 2 }
    ensures unread { fault ≡ LineFault.Unread → result ≡ 4 }
    ensures yes { result ≢ 0 }
    ensures no { result ≢ 1 }
    ensures options { result ≢ 5 }
    ensures row { told.new.row ≡ told.old.row }
    ensures offset { told.new.offset ≡ told.old.offset }
    ensures acts { told.new.acts ≡ told.old.acts }
    ensures news { told.new.news ≡ told.old.news }
{
    match fault {
        LineFault::Unread => UNREAD,
        LineFault::BadRow(fault) => {
            told.fault = fault_number(fault);
            BAD_ROW
        }
    }
}

/// Leads a judge over the rows of a text, and leaves what stands from the line on that ends it.
fn follow<J: Judge>(judge: &mut J, scope: &Scope, rest: &mut &[u8]) -> End
    requires { J.stands_for judge.old scope.now [] }
    ensures left { length rest.new.now ≤ length rest.old.now }
    ensures text { result ≡ End.Text → (rows : List Event)
        × HasRead rest.old.now rows [] × J.stands_for judge.new scope.now rows }
    ensures whole { result ≡ End.Text → rest.new.now ≡ [] }
    ensures offence { (offence : Offence) → result ≡ End.Offence offence → (rows : List Event)
        × (event : Event) × HasRead rest.old.now rows rest.new.now × IsNextRow rest.new.now event
        × J.refuses scope.now rows event offence }
    ensures line { (why : RowFault) → result ≡ End.Line (LineFault.BadRow why)
        → (rows : List Event) × HasRead rest.old.now rows rest.new.now
        × J.stands_for judge.new scope.now rows × IsNoRow rest.new.now why }
{
    while !rest.is_empty() {
        let (line, after) = first_line(*rest);
        let line = without_return(line);
        if !line.is_empty() {
            if judge.taken() >= ROWS_MAX {
                return End::TooLong;
            }
            let event = match row_of(line) {
                Ok(event) => event,
                Err(fault) => return End::Line(fault),
            };
            if let Err(offence) = judge.take(event) {
                return End::Offence(offence);
            }
        }
        *rest = after;
    }
    End::Text
}

/// Writes the text of an outcome, and answers so if there is room for it.
fn write_as(number: u32, scope: &Scope, outcome: &Outcome, answer: &mut PageText) -> u32
    requires empty { answer.old.count ≡ 0 }
    requires other { number ≢ 6 }
    ensures { result ≢ 6 → (result ≡ number)
        × (written answer.new ≡ report_text scope.now outcome.now) }
{
    match write_outcome(answer, scope, outcome) {
        Ok(()) => number,
        Err(_) => NO_ROOM,
    }
}
