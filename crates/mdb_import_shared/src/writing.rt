//! Rows to a writer that may fail.

use super::part::Part;
use super::told::Imported;
use arrayvec::ArrayString;
use mdb_words::{Event, Line, Word};
use mdb_writing::{Page, WriteFailed};
use std::io::Write;

/// The row of an event, with its line end.
fn line_of(event: &Event) -> ArrayString<32> {
    let mut line = event.row_text();
    line.push('\n');
    line
}

/// Writes the rows of the events that are in a part, each with its line end, and counts all.
///
/// # Errors
///
/// The writer failed. It took a front of the rows.
pub fn write_part<W: Write>(
    part: Part,
    rows: &[Event],
    told: &mut Imported,
    writer: &mut W,
) -> Result<(), WriteFailed> {
    let mut page = Page::new();
    for row in rows {
        if told.count(part, row) {
            add_row(&mut page, row, writer)?;
        }
    }
    page.write_out(writer)
}

/// So many bytes are room for the row of a word.
const ROW: usize = 32;

/// The hexadecimal digits.
static DIGITS: [u8; 16] = *b"0123456789ABCDEF";

/// Adds the row of an event, with its line end, to a page. It stands in one write.
///
/// # Errors
///
/// The writer failed. It took a front of what waited.
pub fn add_row<W: Write>(page: &mut Page, row: &Event, writer: &mut W) -> Result<(), WriteFailed> {
    let Event::Word { at, line, word } = *row else {
        return page.add(writer, line_of(row).as_str().as_bytes());
    };
    page.make_room(writer, ROW)?;
    page.push_number(at.value());
    page.add(writer, &end_of_row(line, word))
}

/// What stands in the row of a word after its time.
fn end_of_row(line: Line, word: Word) -> [u8; 7] {
    let letter = match line {
        Line::Controller => b'M',
        Line::Peripheral => b'S',
    };
    let mark = if word.marked() { b'1' } else { b'0' };
    let (high, low) = (
        DIGITS[usize::from(word.byte() / 16)],
        DIGITS[usize::from(word.byte() % 16)],
    );
    [b',', letter, b',', mark, high, low, b'\n']
}
