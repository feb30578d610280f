//! The lines in either form, on their way to a writer.

ghost use Rattle.std.specs.Prelude.{◌≡◌, ◌<◌, ◌+◌, [], ◌∷◌, ◌++◌, List, IfErr, OnOk};
ghost use Rattle.mdb_bus.specs.Scopes.{profile_of};
ghost use Rattle.mdb_survey.specs.Survey.{survey_lines_in};
ghost use Rattle.mdb_words.specs.declared.event.Event.{Event};
ghost use Rattle.mdb_bus.specs.declared.scope.Scope.{Scope};
ghost use Rattle.mdb_follow.specs.declared.follower.TheConstants.{ROWS_MAX};
ghost use Rattle.mdb_surveyor.specs.declared.stretch.Ended.{Ended};
ghost use Rattle.mdb_surveyor.specs.Halts.{HasHalted, HasMetFault};
ghost use Rattle.mdb_surveyor.specs.Surveyor.{StandsFor, rows_of};
ghost use Rattle.mdb_surveyor.specs.Lines.{ended_lines};
ghost use Rattle.mdb_verdict.specs.Telling.{IsNotTaken};
ghost use Rattle.mdb_writing.specs.Output.{Puts, output};

use super::json_text;
use mdb_bus::Scope;
use mdb_follow::Offence;
use mdb_surveyor::{Ended, Stretch, Summary, Surveyor, write_fault, write_stretch, write_summary};
use mdb_text::Form;
use mdb_verdict::{Printer, RunFault};
use std::alloc::AllocError;
use std::io::Write;

/// Adds the lines of a stretch and of the fault that ended it.
fn add_ended<W: Write>(
    printer: &mut Printer,
    form: Form,
    scope: &Scope,
    writer: &mut W,
    ended: &Ended,
) -> Result<(), RunFault>
    ensures added { OnOk result (Puts (output (W.contents writer.old) printer.old.page)
        (output (W.contents writer.new) printer.new.page)
        (ended_lines (survey_lines_in form (profile_of scope.now.begins)) ended.now)) }
    ensures refused { IfErr result (λ refusal. IsNotTaken refusal
        (output (W.contents writer.old) printer.old.page)
        (output (W.contents writer.new) printer.new.page)
        (ended_lines (survey_lines_in form (profile_of scope.now.begins)) ended.now)) }
{
    printer.next.clear();
    push_stretch(&mut printer.next, form, scope, &ended.stretch)?;
    push_fault(&mut printer.next, form, scope, &ended.fault)?;
    printer.add(writer)
}

/// Ends the stretch that runs, and adds its lines and that of the fault.
// Apart, so that no other row pays for the stretch.
#[inline(never)]
pub(crate) fn end_stretch<W: Write>(
    surveyor: &mut Surveyor,
    printer: &mut Printer,
    form: Form,
    scope: &Scope,
    writer: &mut W,
) -> Result<(), RunFault>
    requires met { HasMetFault surveyor.old }
    requires room { rows_of surveyor.old < ROWS_MAX }
    ensures ended { (ended : Ended)
        × ((of : Scope) (rows : List Event) (row : Event) (before : List Ended)
        → HasHalted surveyor.old of rows row before
        → StandsFor surveyor.new of (rows ++ row ∷ []) (ended ∷ before))
        × OnOk result (Puts (output (W.contents writer.old) printer.old.page)
        (output (W.contents writer.new) printer.new.page)
        (ended_lines (survey_lines_in form (profile_of scope.now.begins)) ended))
        × IfErr result (λ refusal. IsNotTaken refusal
        (output (W.contents writer.old) printer.old.page)
        (output (W.contents writer.new) printer.new.page)
        (ended_lines (survey_lines_in form (profile_of scope.now.begins)) ended)) }
    ensures counted { rows_of surveyor.new ≡ rows_of surveyor.old + 1 }
{
    let ended = surveyor.end_stretch();
    add_ended(printer, form, scope, writer, &ended)
}

/// Adds the lines of the stretch that runs where the reading ends.
pub(crate) fn add_stretch<W: Write>(
    printer: &mut Printer,
    form: Form,
    scope: &Scope,
    writer: &mut W,
    stretch: &Stretch,
) -> Result<(), RunFault>
    ensures added { OnOk result (Puts (output (W.contents writer.old) printer.old.page)
        (output (W.contents writer.new) printer.new.page)
        ((survey_lines_in form (profile_of scope.now.begins)).stretch stretch.now)) }
    ensures refused { IfErr result (λ refusal. IsNotTaken refusal
        (output (W.contents writer.old) printer.old.page)
        (output (W.contents writer.new) printer.new.page)
        ((survey_lines_in form (profile_of scope.now.begins)).stretch stretch.now)) }
{
    printer.next.clear();
    push_stretch(&mut printer.next, form, scope, stretch)?;
    printer.add(writer)
}

/// Adds the lines of the last stretch and of the whole.
pub(crate) fn add_end<W: Write>(
    printer: &mut Printer,
    form: Form,
    scope: &Scope,
    writer: &mut W,
    last: &Stretch,
    summary: &Summary,
) -> Result<(), RunFault>
    ensures added { OnOk result (Puts (output (W.contents writer.old) printer.old.page)
        (output (W.contents writer.new) printer.new.page)
        ((survey_lines_in form (profile_of scope.now.begins)).stretch last.now
        ++ (survey_lines_in form (profile_of scope.now.begins)).summary summary.now)) }
    ensures refused { IfErr result (λ refusal. IsNotTaken refusal
        (output (W.contents writer.old) printer.old.page)
        (output (W.contents writer.new) printer.new.page)
        ((survey_lines_in form (profile_of scope.now.begins)).stretch last.now
        ++ (survey_lines_in form (profile_of scope.now.begins)).summary summary.now)) }
{
    printer.next.clear();
    push_stretch(&mut printer.next, form, scope, last)?;
    push_summary(&mut printer.next, form, scope, summary)?;
    printer.add(writer)
}

/// Appends the lines of a stretch: none where it has no row.
fn push_stretch(
    text: &mut Vec<u8>,
    form: Form,
    scope: &Scope,
    stretch: &Stretch,
) -> Result<(), AllocError>
    ensures { OnOk result (text.new.items ≡ text.old.items
        ++ (survey_lines_in form (profile_of scope.now.begins)).stretch stretch.now) }
{
    match form {
        Form::Text => write_stretch(text, stretch).map_err(|_| AllocError),
        Form::Json => json_text::push_stretch(text, stretch),
    }
}

/// Appends the line of a fault.
fn push_fault(
    text: &mut Vec<u8>,
    form: Form,
    scope: &Scope,
    fault: &Offence,
) -> Result<(), AllocError>
    ensures { OnOk result (text.new.items ≡ text.old.items
        ++ (survey_lines_in form (profile_of scope.now.begins)).fault fault.now) }
{
    match form {
        Form::Text => write_fault(text, fault).map_err(|_| AllocError),
        Form::Json => json_text::push_fault(text, scope.begins.profile(), fault),
    }
}

/// Appends the lines of the whole.
fn push_summary(
    text: &mut Vec<u8>,
    form: Form,
    scope: &Scope,
    summary: &Summary,
) -> Result<(), AllocError>
    ensures { OnOk result (text.new.items ≡ text.old.items
        ++ (survey_lines_in form (profile_of scope.now.begins)).summary summary.now) }
{
    match form {
        Form::Text => write_summary(text, summary).map_err(|_| AllocError),
        Form::Json => json_text::push_summary(text, scope.begins.profile(), summary),
    }
}
