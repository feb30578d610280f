//! Lines of marks and rows on their way to a writer.

ghost use Rattle.std.specs.Prelude.{◌≡◌, ◌≤◌, ◌+◌, [], ◌∷◌, ◌++◌, OnErr, OnOk, length};
ghost use Rattle.mdb_words.specs.RowsWritten.{hex_word};
ghost use Rattle.mdb_words.specs.Row.{letter_of};
ghost use Rattle.mdb_writing.specs.Output.{Breaks, Puts, output};
ghost use Rattle.mdb_explain.specs.inner.Explaining.{mark_line, row_line};
ghost use Rattle.mdb_writing.specs.declared.page.TheConstants.{PAGE};

use mdb_run_search::Mark;
use mdb_text::hex_digit;
use mdb_words::{Event, Line, Word};
use mdb_writing::{Page, WriteFailed};
use std::io::Write;

/// A line is no longer than this.
const LINE: usize = 64;

/// Adds the line of a mark. Where it might not fit, those before it are written first.
pub(crate) fn add_mark<W: Write>(
    page: &mut Page,
    writer: &mut W,
    mark: &(u64, Mark),
) -> Result<(), WriteFailed>
    ensures added { OnOk result (Puts (output (W.contents writer.old) page.old)
        (output (W.contents writer.new) page.new) (mark_line mark.now)) }
    ensures broken { OnErr result (Breaks (output (W.contents writer.old) page.old)
        (output (W.contents writer.new) page.new) (mark_line mark.now)) }
{
    page.make_room(writer, LINE)?;
    push_mark(page, mark);
    Ok(())
}

/// Adds the line of a row. Where it might not fit, those before it are written first.
#[inline(always)]
pub(crate) fn add_row<W: Write>(
    page: &mut Page,
    writer: &mut W,
    row: &Event,
) -> Result<(), WriteFailed>
    ensures added { OnOk result (Puts (output (W.contents writer.old) page.old)
        (output (W.contents writer.new) page.new) (row_line row.now)) }
    ensures broken { OnErr result (Breaks (output (W.contents writer.old) page.old)
        (output (W.contents writer.new) page.new) (row_line row.now)) }
{
    page.make_room(writer, LINE)?;
    push_row(page, row);
    Ok(())
}

/// Adds the line of a mark, for which there is room.
fn push_mark(page: &mut Page, mark: &(u64, Mark))
    requires { length page.old + LINE ≤ PAGE }
    ensures { page.new ≡ page.old ++ mark_line mark.now }
{
    page.push_number(mark.0);
    match mark.1 {
        Mark::Lost => page.push(b",L,-\n"),
        Mark::Restart => page.push(b",R,-\n"),
        Mark::Again => page.push(b",C,-\n"),
    }
}

/// Adds the line of a row, for which there is room.
#[inline(always)]
fn push_row(page: &mut Page, row: &Event)
    requires { length page.old + LINE ≤ PAGE }
    ensures { page.new ≡ page.old ++ row_line row.now }
{
    page.push_number(row.start().value());
    match *row {
        Event::Word { line, word, .. } => page.push(&word_end(line, word)),
        Event::Break { length, .. } => {
            page.push(b",B,");
            page.push_number(length.value());
            page.push(b"\n");
        }
    }
}

/// The end of the line of a word: its letter and its three digits, with a comma before each.
#[inline(always)]
fn word_end(line: Line, word: Word) -> [u8; 7]
    ensures { result ≡ 44 ∷ letter_of line ∷ 44 ∷ (hex_word word ++ 10 ∷ []) }
{
    let letter = match line {
        Line::Controller => b'M',
        Line::Peripheral => b'S',
    };
    let high = if word.marked() { b'1' } else { b'0' };
    let middle = hex_digit(word.byte() / 16);
    let low = hex_digit(word.byte() % 16);
    [b',', letter, b',', high, middle, low, b'\n']
}
