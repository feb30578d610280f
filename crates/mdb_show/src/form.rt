//! The lines in either form, on their way to a writer.

ghost use Rattle.std.specs.Prelude.{◌≡◌, ◌<◌, ◌≤◌, ◌++◌, IfErr, OnOk};
ghost use Rattle.mdb_bus.specs.Pieces.{NamesAReply};
ghost use Rattle.mdb_follow.specs.declared.follower.TheConstants.{ROWS_MAX};
ghost use Rattle.mdb_show.specs.Show.{lines_in};
ghost use Rattle.mdb_show.specs.inner.RowLines.{cut_text, ended_text};
ghost use Rattle.mdb_verdict.specs.Telling.{IsNotTaken};
ghost use Rattle.mdb_writing.specs.Output.{Puts, output};

use super::{json_text, show_text};
use mdb_bus::{Act, LinkFault};
use mdb_text::Form;
use mdb_verdict::{Printer, RunFault};
use std::alloc::AllocError;
use std::io::Write;

/// Adds the lines of the act that the next row ends: that of the act, and before it that of the
/// tail that a break cuts. Of the `rows` rows before it the first `shown` have their lines.
pub(crate) fn add_ended<W: Write>(
    printer: &mut Printer,
    form: Form,
    writer: &mut W,
    shown: u64,
    rows: u64,
    act: &Act,
) -> Result<(), RunFault>
    requires reply { NamesAReply act.now }
    requires shown { shown ≤ rows }
    requires rows { rows < ROWS_MAX }
    ensures added { OnOk result (Puts (output (W.contents writer.old) printer.old.page)
        (output (W.contents writer.new) printer.new.page)
        (ended_text (lines_in form) shown rows act.now)) }
    ensures refused { IfErr result (λ refusal. IsNotTaken refusal
        (output (W.contents writer.old) printer.old.page)
        (output (W.contents writer.new) printer.new.page)
        (ended_text (lines_in form) shown rows act.now)) }
{
    printer.next.clear();
    push_ended(&mut printer.next, form, shown, rows, act)?;
    printer.add(writer)
}

/// Adds the line of the tail, if there is one: of so many rows the first `shown` have their lines.
pub(crate) fn add_cut<W: Write>(
    printer: &mut Printer,
    form: Form,
    writer: &mut W,
    shown: u64,
    rows: u64,
) -> Result<(), RunFault>
    requires { rows ≤ ROWS_MAX }
    ensures added { OnOk result (Puts (output (W.contents writer.old) printer.old.page)
        (output (W.contents writer.new) printer.new.page) (cut_text (lines_in form) shown rows)) }
    ensures refused { IfErr result (λ refusal. IsNotTaken refusal
        (output (W.contents writer.old) printer.old.page)
        (output (W.contents writer.new) printer.new.page)
        (cut_text (lines_in form) shown rows)) }
{
    printer.next.clear();
    push_tail(&mut printer.next, form, shown, rows)?;
    printer.add(writer)
}

/// Adds the line of a row that cannot be.
pub(crate) fn add_fault<W: Write>(
    printer: &mut Printer,
    form: Form,
    writer: &mut W,
    row: u64,
    fault: LinkFault,
) -> Result<(), RunFault>
    ensures added { OnOk result (Puts (output (W.contents writer.old) printer.old.page)
        (output (W.contents writer.new) printer.new.page) ((lines_in form).fault row fault)) }
    ensures refused { IfErr result (λ refusal. IsNotTaken refusal
        (output (W.contents writer.old) printer.old.page)
        (output (W.contents writer.new) printer.new.page) ((lines_in form).fault row fault)) }
{
    printer.next.clear();
    push_fault(&mut printer.next, form, row, fault)?;
    printer.add(writer)
}

/// Appends the lines of the act that the next row ends, as `add_ended` says.
fn push_ended(
    text: &mut Vec<u8>,
    form: Form,
    shown: u64,
    rows: u64,
    act: &Act,
) -> Result<(), AllocError>
    requires reply { NamesAReply act.now }
    requires shown { shown ≤ rows }
    requires rows { rows < ROWS_MAX }
    ensures { OnOk result
        (text.new.items ≡ text.old.items ++ ended_text (lines_in form) shown rows act.now) }
{
    match act {
        Act::Break(_) => {
            push_tail(text, form, shown, rows)?;
            push_act(text, form, rows + 1, rows + 1, act)
        }
        _ => push_act(text, form, shown + 1, rows + 1, act),
    }
}

/// Appends the line of the tail, as `add_cut` says.
fn push_tail(text: &mut Vec<u8>, form: Form, shown: u64, rows: u64) -> Result<(), AllocError>
    requires { rows ≤ ROWS_MAX }
    ensures { OnOk result
        (text.new.items ≡ text.old.items ++ cut_text (lines_in form) shown rows) }
{
    if shown < rows {
        push_cut(text, form, shown + 1, rows)?;
    }
    Ok(())
}

/// Appends the line of an act, which has these rows, from the first to the last.
fn push_act(
    text: &mut Vec<u8>,
    form: Form,
    first: u64,
    last: u64,
    act: &Act,
) -> Result<(), AllocError>
    requires { NamesAReply act.now }
    ensures { OnOk result
        (text.new.items ≡ text.old.items ++ (lines_in form).act first last act.now) }
{
    match form {
        Form::Text => show_text::push_act_line(text, first, last, act),
        Form::Json => json_text::push_act_line(text, first, last, act),
    }
}

/// Appends the line of a tail that was cut.
fn push_cut(text: &mut Vec<u8>, form: Form, first: u64, last: u64) -> Result<(), AllocError>
    ensures { OnOk result (text.new.items ≡ text.old.items ++ (lines_in form).cut first last) }
{
    match form {
        Form::Text => show_text::push_cut_line(text, first, last),
        Form::Json => json_text::push_cut_line(text, first, last),
    }
}

/// Appends the line of a row that cannot be.
fn push_fault(text: &mut Vec<u8>, form: Form, row: u64, fault: LinkFault) -> Result<(), AllocError>
    ensures { OnOk result (text.new.items ≡ text.old.items ++ (lines_in form).fault row fault) }
{
    match form {
        Form::Text => show_text::push_fault_line(text, row, fault),
        Form::Json => json_text::push_fault_line(text, row, fault),
    }
}
