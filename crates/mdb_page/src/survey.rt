//! The survey of a text.

ghost use Rattle.std.specs.Prelude.{◌==◌, ◌≡◌, ◌≢◌, ◌≤◌, ◌++◌, [], List, ℕ, length, if◌then◌else◌};
ghost use Rattle.mdb_bus.specs.declared.scope.Scope.{Scope};
ghost use Rattle.mdb_surveyor.specs.Surveyor.{StandsFor, rows_of};
ghost use Rattle.mdb_follow.specs.declared.follower.TheConstants.{ROWS_MAX};
ghost use Rattle.mdb_surveyor.specs.SurveyText.{summary_text};
ghost use Rattle.mdb_page.specs.Answers.{written};
ghost use Rattle.mdb_page.specs.Options.{IsTakenSo};
ghost use Rattle.mdb_page.specs.Surveys.{IsSurveyed};
ghost use Rattle.mdb_page.specs.inner.Surveying.{EndsWith, HasListed, HasSurveyed, StopsFor};
ghost use Rattle.mdb_page.specs.declared.sheet.TheConstants.{LINES_ROOM};
ghost use Rattle.mdb_page.specs.declared.survey.Stop.{Stop};

use crate::answer::{BAD_OPTIONS, NO, NO_ROOM, PageTold, TOO_LONG, YES, line_answer};
use crate::faults::{FaultListing, PageFault};
use crate::lines::{LineFault, first_line, row_of, without_mark, without_return};
use crate::options::{PageOptions, taken_so};
use crate::sheet::{PageLines, PageText};
use mdb_follow::ROWS_MAX;
use mdb_surveyor::{Stretch, Summary, Surveyor, write_stretch, write_summary};

/// Why a survey ends.
#[derive(Clone, Copy)]
enum Stop {
    /// The text ends.
    Text,
    /// A line is no row.
    Line(LineFault),
    /// There are more rows than there may be.
    TooLong,
    /// The lines of a fault and of the stretch before it have no room.
    NoRoom,
}

/// Surveys the recording that lies in memory as text. It returns
///
/// - 0: all lines are rows, and there is no fault;
/// - 1: all lines are rows, and there is a fault;
/// - 2: a line is no row;
/// - 3: there are more rows than a recording may have, the rows of faults counted;
/// - 4: a line has a quote, or a CR that doesn't end it;
/// - 5: the options aren't valid;
/// - 6: the text of the answer, or of a fault with its stretch, has no room in `answer`.
///
/// With 0 and 1 `answer` has the lines of the last stretch, if that has a row, and of the whole.
/// With 2, 3 and 4 it has those of the stretch that ran.
///
/// `faults` and `lines` have the faults after the first `skip`, as far as there is room in both:
/// `faults` has an entry for each, and `lines` has, in the same order, the lines of the stretch
/// that the fault ended, and the fault's own. Where one has no room, no later one is listed. So
/// what `mdbcheck survey` prints is the lines of all faults, by several calls where there isn't
/// room for all, and after these `answer`.
///
/// `told` shows where the reading ended, how many faults there are in all (`acts`), and how many
/// are listed (`news`).
#[unsafe(no_mangle)]
pub extern "C" fn mdb_page_survey(
    options: &PageOptions,
    text: &[u8],
    skip: u64,
    told: &mut PageTold,
    faults: &mut [PageFault],
    lines: &mut PageLines,
    answer: &mut PageText,
) -> u32
    ensures surveyed { result ≢ 5 → result ≢ 6 → (scope : Scope) × IsTakenSo options.now scope
        × IsSurveyed scope text.now skip faults.new lines.new told.new answer.new result }
    ensures refused { result ≡ 5 → (scope : Scope) → IsTakenSo options.now scope → ⊥ }
    ensures taken { result ≢ 5 → (scope : Scope) × IsTakenSo options.now scope }
    ensures none { result ≡ 5 → (told.new.acts ≡ 0) × (told.new.news ≡ 0) }
{
    told.acts = 0;
    told.news = 0;
    lines.count = 0;
    answer.count = 0;
    let Some(scope) = taken_so(options) else {
        return BAD_OPTIONS;
    };
    let mut surveyor = Surveyor::scoped(&scope);
    let mut listing = FaultListing::after(skip, text.len());
    let mut rest = without_mark(text);
    let stop = survey_lines(
        &mut surveyor,
        &mut listing,
        &mut rest,
        faults,
        lines,
        answer,
    );
    told.offset = (text.len() - rest.len()) as u64;
    told.news = listing.count();
    let (last, summary) = surveyor.ending();
    told.acts = summary.faults.all;
    told.row = surveyor.rows();
    end_with(stop, &last, &summary, told, answer)
}

/// Surveys the rows of a text, and leaves what stands from the line on that ends the reading.
fn survey_lines(
    surveyor: &mut Surveyor,
    listing: &mut FaultListing,
    rest: &mut &[u8],
    faults: &mut [PageFault],
    lines: &mut PageLines,
    entry: &mut PageText,
) -> Stop
    requires empty { rows_of surveyor.old ≡ 0 }
    requires room { lines.old.count ≤ LINES_ROOM }
    requires size { length rest.old.now ≤ listing.old.bytes }
    ensures left { length rest.new.now ≤ length rest.old.now }
    ensures size { listing.new.bytes ≡ listing.old.bytes }
    ensures surveyed { result ≢ Stop.NoRoom → (scope : Scope) (skip : ℕ)
        → StandsFor surveyor.old scope [] []
        → HasListed rest.old.now skip [] listing.old faults.old lines.old
        → HasSurveyed scope rest.old.now rest.new.now skip surveyor.new listing.new faults.new
        lines.new }
    ensures stops { StopsFor result rest.new.now (rows_of surveyor.new) }
{
    while !rest.is_empty() {
        let (line, after) = first_line(*rest);
        let line = without_return(line);
        if !line.is_empty() {
            if surveyor.rows() >= ROWS_MAX {
                return Stop::TooLong;
            }
            let event = match row_of(line) {
                Ok(event) => event,
                Err(fault) => return Stop::Line(fault),
            };
            if let Some(ended) = surveyor.feed(event) {
                if !listing.take(faults, lines, entry, &ended, rest.len()) {
                    return Stop::NoRoom;
                }
            }
        }
        *rest = after;
    }
    Stop::Text
}

/// The answer where a survey ends so, with its text. `told` has the number of the rows.
fn end_with(
    stop: Stop,
    last: &Stretch,
    summary: &Summary,
    told: &mut PageTold,
    answer: &mut PageText,
) -> u32
    requires { told.old.row ≤ ROWS_MAX }
    ensures ends { result ≢ 6 → EndsWith stop last.now summary.now told.old.row told.new.row
        told.new.fault (written answer.new) result }
    ensures offset { told.new.offset ≡ told.old.offset }
    ensures acts { told.new.acts ≡ told.old.acts }
    ensures news { told.new.news ≡ told.old.news }
    ensures options { result ≢ 5 }
{
    answer.count = 0;
    if write_stretch(answer, last).is_err() {
        return NO_ROOM;
    }
    match stop {
        Stop::Text => whole_answer(summary, answer),
        Stop::Line(fault) => {
            told.row += 1;
            line_answer(told, fault)
        }
        Stop::TooLong => {
            told.row += 1;
            TOO_LONG
        }
        Stop::NoRoom => NO_ROOM,
    }
}

/// The answer where all lines were read. The lines of the whole are added to its text.
fn whole_answer(summary: &Summary, answer: &mut PageText) -> u32
    ensures text { result ≢ 6
        → written answer.new ≡ written answer.old ++ summary_text summary.now }
    ensures number { result ≢ 6 → result ≡ (if summary.now.faults.all == 0 then 0 else 1) }
    ensures options { result ≢ 5 }
{
    match write_summary(answer, summary) {
        Ok(()) if summary.faults.all == 0 => YES,
        Ok(()) => NO,
        Err(_) => NO_ROOM,
    }
}
