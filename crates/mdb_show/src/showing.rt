//! The acts of a transcript.

ghost use Rattle.std.specs.Prelude.{◌≡◌, List, [], ℕ};
ghost use Rattle.mdb_records.specs.ToCome.{ToCome};
ghost use Rattle.mdb_bus.specs.Bus.{scope_of};
ghost use Rattle.mdb_bus.specs.declared.scope.Scope.{Scope};
ghost use Rattle.mdb_bus.specs.Scopes.{power_on};
ghost use Rattle.mdb_show.specs.Show.{IsNotWhole, ShowsIn, ShowsText, lines_in};
ghost use Rattle.mdb_show.specs.inner.RowLines.{HasShown, PutsShowing};
ghost use Rattle.mdb_verdict.specs.Telling.{Reads};
ghost use Rattle.mdb_writing.specs.Output.{begun, output};

use super::form::{add_cut, add_ended, add_fault};
use mdb_bus::{Act, Bus, LinkFault, Scope, laws};
use mdb_follow::ROWS_MAX;
use mdb_records::Records;
use mdb_text::Form;
use mdb_verdict::{BYTES_MAX, Batch, Printer, RunFault, TakeRows, read_rows, records_of};
use mdb_words::Event;
use std::alloc::Global;
use std::io::{Read, Write};

/// Reads a recording, and writes a line for each act while it reads: the act's first and last row,
/// and the act with the bytes of its block. A block that a break or the end of the recording cuts
/// has a line too. So has the first row that breaks a rule of the link. That row ends the reading,
/// and its fault is returned. The recording begins at power-on or at a break, and all devices are
/// followed: this is [`show_scoped`] of [`Scope::POWER_ON`].
///
/// The rows are those of `check`. Coins, bills and sales aren't checked: a recording that is shown
/// to its end may still be impossible.
///
/// # Errors
///
/// - `BadRow`: the first record that is no row, if no row before it breaks a rule of the link.
/// - `TooLong`: a record past [`ROWS_MAX`].
/// - `Read`: the reader failed, or the input has more than [`BYTES_MAX`] bytes, and no row before
///   that ended the reading.
/// - `Memory`: memory was refused.
/// - `Write`: the writer failed. It took a front of what is written if it doesn't fail, and nothing
///   else.
///
/// With the errors other than `Write`, the lines of the acts so far were written, and of the blocks
/// that a break cut. With `BadRow` and `TooLong` these are the lines of all rows before that
/// record.
pub fn show<R: Read + Drop, W: Write>(
    alloc: Global,
    reader: R,
    writer: &mut W,
) -> Result<Option<LinkFault>, RunFault>
    ensures shows { ShowsText power_on (R.remaining reader) (W.contents writer.old)
        (W.contents writer.new) result }
{
    show_scoped(alloc, &Scope::POWER_ON, reader, writer)
}

/// Does as [`show`] does, of a recording that is taken as `scope` says: each row of what is said to
/// a device that is left out, and of what it answers, is a foreign act of its own.
///
/// # Errors
///
/// Those of `show`.
pub fn show_scoped<R: Read + Drop, W: Write>(
    alloc: Global,
    scope: &Scope,
    reader: R,
    writer: &mut W,
) -> Result<Option<LinkFault>, RunFault>
    ensures shows { ShowsText scope.now (R.remaining reader) (W.contents writer.old)
        (W.contents writer.new) result }
{
    let mut records = records_of(alloc, reader, BYTES_MAX);
    show_records(alloc, Form::Text, scope, &mut records, writer)
}

/// Shows the records that are still to come in this form: as text for people, or as JSON for
/// programs. Each line of JSON is an object, whose members stand in the order of their names.
/// Afterwards `records` can still be asked where reading ended.
///
/// # Errors
///
/// As those of [`show`]: that a record is no row, that there are too many, that reading or writing
/// failed, or that memory was refused.
pub fn show_records<R: Read + Drop, W: Write>(
    alloc: Global,
    form: Form,
    scope: &Scope,
    records: &mut Records<R>,
    writer: &mut W,
) -> Result<Option<LinkFault>, RunFault>
    ensures shows { (all : List (List (List ℕ))) → ToCome R.remaining records.old all
        → ShowsIn (lines_in form) scope.now all (W.contents writer.old) (W.contents writer.new)
        result }
    ensures reads { Reads IsNotWhole R.remaining records.old records.new result }
{
    let mut showing = Showing::new(alloc, scope, form);
    let answer = show_rows(records, &mut showing, writer);
    showing.printer.finish(writer, answer)
}

/// Shows the records that are still to come, after none.
fn show_rows<R: Read + Drop, W: Write>(
    records: &mut Records<R>,
    showing: &mut Showing,
    writer: &mut W,
) -> Result<Option<LinkFault>, RunFault>
    requires { HasShown (lines_in showing.old.form) (scope_of showing.old.lines.bus)
        showing.old.lines (begun (W.contents writer.old))
        (output (W.contents writer.old) showing.old.printer.page) [] }
    ensures shows { (all : List (List (List ℕ))) → ToCome R.remaining records.old all
        → PutsShowing (lines_in showing.old.form) (scope_of showing.old.lines.bus) all
        (begun (W.contents writer.old))
        (output (W.contents writer.new) showing.new.printer.page) result }
    ensures reads { Reads IsNotWhole R.remaining records.old records.new result }
{
    if let Some(stop) = read_rows(records, &mut Batch::new(), showing, writer, ROWS_MAX)? {
        return Ok(Some(stop?));
    }
    let Showing {
        lines,
        printer,
        form,
    } = showing;
    add_cut(printer, *form, writer, lines.shown, lines.rows)?;
    Ok(None)
}

/// Rows that are shown: how far their lines have come, and those that wait for the writer.
#[derive(Drop)]
struct Showing {
    lines: Lines,
    printer: Printer,
    form: Form,
}

impl Showing {
    ghost use Rattle.std.specs.Prelude.{[], Option};
    ghost use Rattle.mdb_writing.specs.Output.{begun, output};
    ghost use Rattle.mdb_show.specs.inner.RowLines.{HasShown};

    /// Before the first row.
    fn new(alloc: Global, scope: &Scope, form: Form) -> Showing
        ensures shown { (contents : Option (List ℕ))
            → HasShown (lines_in form) scope.now result.lines (begun contents)
            (output contents result.printer.page) [] }
        ensures scope { scope_of result.lines.bus ≡ scope.now }
        ensures form { result.form ≡ form }
    {
        Showing {
            lines: Lines::new(scope),
            printer: Printer::new(alloc),
            form,
        }
    }
}

/// It stops at the first row that breaks a rule of the link, or where a line can't be added.
impl<W: Write> TakeRows<W> for Showing {
    ghost use Rattle.std.proofs.Common.{sym};
    ghost use Rattle.mdb_text.specs.declared.form.Form.{Form};
    ghost use Rattle.mdb_follow.specs.declared.follower.TheConstants.{ROWS_MAX};
    ghost use Rattle.mdb_writing.specs.Output.{begun, output};
    ghost use Rattle.mdb_show.specs.inner.RowLines.{HasShown, HasStopped};

    type Row = Event;

    type Stop = Result<LinkFault, RunFault>;

    ghost most = { ROWS_MAX };

    ghost count = { λ showing. showing.lines.rows };

    ghost Kept = { Scope × Form };

    ghost kept = { λ showing. (scope_of showing.lines.bus, showing.form) };

    ghost has = { λ showing before after rows. HasShown (lines_in showing.form)
        (scope_of showing.lines.bus) showing.lines (begun (W.contents before))
        (output (W.contents after) showing.printer.page) rows };

    ghost stops = { λ showing before after. HasStopped (lines_in showing.form)
        (scope_of showing.lines.bus) showing.lines (begun (W.contents before))
        (output (W.contents after) showing.printer.page) };

    fn rows_taken(&self) -> u64 {
        self.lines.rows
    }

    #[inline(always)]
    fn take(&mut self, writer: &mut W, row: Event) -> Option<Result<LinkFault, RunFault>> {
        self.lines
            .add(self.form, row, &mut self.printer, writer)
            .transpose()
    }

    ghost counts = { λ showing before after rows has. sym has.counted };
}

/// How far the lines of the rows have come.
#[derive(Drop)]
struct Lines {
    bus: Bus,
    rows: u64,
    /// So many rows have their lines. Those after them are a tail.
    shown: u64,
    /// Room for the act that a row ends. Between rows what is in it is of no matter.
    act: Act,
}

impl Lines {
    ghost use Rattle.std.specs.Prelude.{◌≤◌, ◌<◌, []};
    ghost use Rattle.mdb_words.specs.declared.event.Event.{Event};
    ghost use Rattle.mdb_bus.specs.Bus.{StandsFor, scope_of};
    ghost use Rattle.mdb_writing.specs.Output.{Output, output};
    ghost use Rattle.mdb_show.specs.inner.RowLines.{HasAdded, HasPieces, HasShown};

    /// No lines: before the first row.
    fn new(scope: &Scope) -> Lines
        ensures scope { scope_of result.bus ≡ scope.now }
        ensures stands { StandsFor result.bus [] }
        ensures rows { result.rows ≡ 0 }
        ensures shown { result.shown ≡ 0 }
    {
        Lines {
            bus: Bus::scoped(scope),
            rows: 0,
            shown: 0,
            act: Act::Foreign,
        }
    }

    /// Adds the lines of the act that the next row ends, if it ends one. A row that breaks a rule
    /// of the link has a line too, and its fault is answered.
    #[inline(always)]
    fn add<W: Write>(
        &mut self,
        form: Form,
        event: Event,
        printer: &mut Printer,
        writer: &mut W,
    ) -> Result<Option<LinkFault>, RunFault>
        requires stands { HasPieces self.old.bus }
        requires few { self.old.shown ≤ self.old.rows }
        requires room { self.old.rows < ROWS_MAX }
        ensures added { (before : Output) (earlier : List Event)
            → HasShown (lines_in form) (scope_of self.old.bus) self.old before
            (output (W.contents writer.old) printer.old.page) earlier
            → HasAdded (lines_in form) (scope_of self.old.bus) self.new before
            (output (W.contents writer.new) printer.new.page) earlier event result }
        ensures scope { scope_of self.new.bus ≡ scope_of self.old.bus }
    {
        laws::acts_name_replies_of_their_commands();
        let ended = match self.bus.feed_into(event, &mut self.act) {
            Ok(ended) => ended,
            Err(fault) => {
                add_fault(printer, form, writer, self.rows + 1, fault)?;
                return Ok(Some(fault));
            }
        };
        if ended {
            add_ended(printer, form, writer, self.shown, self.rows, &self.act)?;
            self.shown = self.rows + 1;
        }
        self.rows += 1;
        Ok(None)
    }
}
