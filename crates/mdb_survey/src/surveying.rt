//! The survey of a recording.

ghost use Rattle.std.specs.Prelude.{◌≡◌, ◌-◌, List, [], ℕ, IsErr};
ghost use Rattle.mdb_records.specs.ToCome.{ToCome, found_by};
ghost use Rattle.mdb_bus.specs.declared.scope.Scope.{Scope};
ghost use Rattle.mdb_bus.specs.Scopes.{profile_of};
ghost use Rattle.mdb_survey.specs.Survey.{SurveysIn, survey_lines_in};
ghost use Rattle.mdb_survey.specs.inner.SurveyLines.{HasSurveyed, PutsSurveying};
ghost use Rattle.mdb_verdict.specs.Telling.{Reads};
ghost use Rattle.mdb_writing.specs.Output.{begun, output};

use super::form::{add_end, add_stretch, end_stretch};
use mdb_bus::Scope;
use mdb_follow::{ROWS_MAX, laws};
use mdb_records::Records;
use mdb_surveyor::{Summary, Surveyor};
use mdb_text::Form;
use mdb_verdict::{Batch, Printer, RunFault, TakeRows, read_rows};
use mdb_words::Event;
use std::alloc::Global;
use std::io::{Read, Write};

/// Surveys the records that are still to come of a recording that is taken as `scope` says, and
/// writes the lines in this form while it reads: of each stretch of possible rows the report, as
/// soon as an impossible row ends it, and the line of that fault. At the end it writes the lines of
/// the last stretch, the totals, and how many faults there are. Afterwards `records` can still be
/// asked where reading ended.
///
/// The first stretch is taken as `scope` says. After a fault the next row begins a new stretch. It
/// is taken as a recording that begins while the machine was running, and is told what the
/// stretches so far show of how the devices are set up. By the base profile a reader on which a
/// fault with the rule [`Rule::Profile`](mdb_bus::Rule::Profile) is blamed is left out from there
/// on, unless the controller has last reported a feature level below 2 to it. By the extended
/// profile a reader is left out to which such a fault ends an ENABLE OPTIONS.
///
/// The rows are those of `check`.
///
/// # Errors
///
/// - `BadRow`: the first record that is no row.
/// - `TooLong`: a record past [`ROWS_MAX`], the rows of faults counted.
/// - `Read`: the reader failed, or the input has more bytes than the records may have.
/// - `Memory`: memory was refused.
/// - `Write`: the writer failed. It took a front of what is written if it doesn't fail, and nothing
///   else.
///
/// With `BadRow`, `TooLong` and `Read` the lines of all stretches and faults so far were written,
/// those of the stretch that ran among them, and nothing after these. With `Memory` the lines of
/// some first faults were written, each with the stretch that it ended.
pub fn survey_records<R: Read + Drop, W: Write>(
    alloc: Global,
    form: Form,
    scope: &Scope,
    records: &mut Records<R>,
    writer: &mut W,
) -> Result<Summary, RunFault>
    ensures surveys { (all : List (List (List ℕ))) → ToCome R.remaining records.old all
        → SurveysIn (survey_lines_in form (profile_of scope.now.begins)) scope.now all
        (found_by records.new - found_by records.old) (W.contents writer.old)
        (W.contents writer.new) result }
    ensures reads { Reads IsErr R.remaining records.old records.new result }
{
    let mut surveying = Surveying::new(alloc, scope, form);
    let answer = survey_rows(records, &mut surveying, writer);
    surveying.printer.finish(writer, answer)
}

/// Surveys the records that are still to come, after none.
fn survey_rows<R: Read + Drop, W: Write>(
    records: &mut Records<R>,
    surveying: &mut Surveying,
    writer: &mut W,
) -> Result<Summary, RunFault>
    requires { HasSurveyed
        (survey_lines_in surveying.old.form (profile_of surveying.old.scope.begins))
        surveying.old.scope surveying.old.surveyor (begun (W.contents writer.old))
        (output (W.contents writer.old) surveying.old.printer.page) [] }
    ensures surveys { (all : List (List (List ℕ))) → ToCome R.remaining records.old all
        → PutsSurveying
        (survey_lines_in surveying.old.form (profile_of surveying.old.scope.begins))
        surveying.old.scope all
        (found_by records.new - found_by records.old) (begun (W.contents writer.old))
        (output (W.contents writer.new) surveying.new.printer.page) result }
    ensures reads { Reads IsErr R.remaining records.old records.new result }
{
    laws::followers_stand_for_reached_rows();
    laws::fronts_of_reached_rows_are_reached();
    match read_rows(records, &mut Batch::new(), surveying, writer, ROWS_MAX) {
        Ok(None) => surveying.end(writer),
        Ok(Some(fault)) => Err(fault),
        Err(fault) => {
            if fault != RunFault::Memory {
                surveying.stop(writer)?;
            }
            Err(fault)
        }
    }
}

/// Rows that are surveyed: the surveyor, and the lines that wait for the writer.
#[derive(Drop)]
struct Surveying {
    /// How the recording is taken.
    scope: Scope,
    surveyor: Surveyor,
    printer: Printer,
    form: Form,
}

impl Surveying {
    ghost use Rattle.std.specs.Prelude.{Option};
    ghost use Rattle.mdb_writing.specs.Output.{begun, output};
    ghost use Rattle.mdb_survey.specs.inner.SurveyLines.{HasAddedEnd, HasAddedLast, HasSurveyed};

    /// Before the first row.
    fn new(alloc: Global, scope: &Scope, form: Form) -> Surveying
        ensures surveyed { (contents : Option (List ℕ))
            → HasSurveyed (survey_lines_in form (profile_of scope.now.begins)) scope.now
            result.surveyor (begun contents)
            (output contents result.printer.page) [] }
        ensures scope { result.scope ≡ scope.now }
        ensures form { result.form ≡ form }
    {
        Surveying {
            scope: scope.copy(),
            surveyor: Surveyor::scoped(scope),
            printer: Printer::new(alloc),
            form,
        }
    }

    /// Adds the lines of the stretch that runs, where the reading stops before the end.
    fn stop<W: Write>(&mut self, writer: &mut W) -> Result<(), RunFault>
        ensures { HasAddedLast (survey_lines_in self.old.form (profile_of self.old.scope.begins))
            self.old.surveyor
            (output (W.contents writer.old) self.old.printer.page)
            (output (W.contents writer.new) self.new.printer.page) result }
    {
        let stretch = self.surveyor.stretch();
        add_stretch(&mut self.printer, self.form, &self.scope, writer, &stretch)
    }

    /// Adds the lines of the last stretch and of the whole, and answers what the survey comes to.
    fn end<W: Write>(&mut self, writer: &mut W) -> Result<Summary, RunFault>
        ensures { HasAddedEnd (survey_lines_in self.old.form (profile_of self.old.scope.begins))
            self.old.surveyor
            (output (W.contents writer.old) self.old.printer.page)
            (output (W.contents writer.new) self.new.printer.page) result }
    {
        let (last, summary) = self.surveyor.ending();
        add_end(
            &mut self.printer,
            self.form,
            &self.scope,
            writer,
            &last,
            &summary,
        )?;
        Ok(summary)
    }
}

/// It stops where a line can't be added, and at no row.
impl<W: Write> TakeRows<W> for Surveying {
    ghost use Rattle.mdb_text.specs.declared.form.Form.{Form};
    ghost use Rattle.mdb_follow.specs.declared.follower.TheConstants.{ROWS_MAX};
    ghost use Rattle.mdb_surveyor.specs.Surveyor.{rows_of};
    ghost use Rattle.mdb_writing.specs.Output.{begun, output};
    ghost use Rattle.mdb_survey.specs.inner.SurveyLines.{HasSurveyed, HasStopped};

    type Row = Event;

    type Stop = RunFault;

    ghost most = { ROWS_MAX };

    ghost count = { λ surveying. rows_of surveying.surveyor };

    ghost Kept = { Scope × Form };

    ghost kept = { λ surveying. (surveying.scope, surveying.form) };

    ghost has = { λ surveying before after rows. HasSurveyed
        (survey_lines_in surveying.form (profile_of surveying.scope.begins))
        surveying.scope surveying.surveyor (begun (W.contents before))
        (output (W.contents after) surveying.printer.page) rows };

    ghost stops = { λ surveying before after. HasStopped
        (survey_lines_in surveying.form (profile_of surveying.scope.begins)) surveying.scope
        (begun (W.contents before))
        (output (W.contents after) surveying.printer.page) };

    fn rows_taken(&self) -> u64 {
        self.surveyor.rows()
    }

    #[inline(always)]
    fn take(&mut self, writer: &mut W, row: Event) -> Option<RunFault> {
        laws::followers_stand_for_reached_rows();
        laws::fronts_of_reached_rows_are_reached();
        if self.surveyor.take(row) {
            return None;
        }
        let Surveying {
            surveyor,
            printer,
            ..
        } = self;
        end_stretch(surveyor, printer, self.form, &self.scope, writer).err()
    }

    ghost counts = { λ surveying before after rows has. has.counted };
}
