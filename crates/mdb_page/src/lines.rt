//! The lines of a text, and the rows that they are.
//!
//! A line ends before LF, before CR LF, or with the text. A byte order mark at the beginning of the
//! text doesn't belong to its first line, and a line without bytes is no row. A row has three
//! fields with two commas between them. The program `mdbcheck` reads a text in the same way, if no
//! field of it is quoted and no CR stands alone. This crate refuses a line with either, because the
//! program may read it as another row or as none.

ghost use Rattle.std.specs.Prelude.{◌≡◌, ◌≢◌, ◌≤◌, ◌<◌, ◌∷◌, [], ℕ, List, All, IfErr, IfNone, IfOk, IfSome, length};
ghost use Rattle.mdb_words.specs.declared.row.RowFault.{RowFault};
ghost use Rattle.mdb_page.specs.Lines.{AreNoRow, IsBare, IsCut, IsFirstLine, IsUnmarked, IsUnread, TellsNoRow, TellsRow};
ghost use Rattle.mdb_page.specs.declared.lines.LineFault.{LineFault};

use mdb_words::{Event, RowFault};

/// Why a line is no row.
#[derive(Clone, Copy, PartialEq, Eq, Debug)]
pub(crate) enum LineFault {
    /// It has a quote, or a CR that doesn't end it.
    Unread,
    /// It has neither, and is no row.
    BadRow(RowFault),
}

/// The text without the byte order mark in front of it.
pub(crate) fn without_mark(text: &[u8]) -> &[u8]
    ensures rest { IsUnmarked text.now result.now }
    ensures shorter { length result.now ≤ length text.now }
{
    if text.len() >= 3 && text[0] == 0xEF && text[1] == 0xBB && text[2] == 0xBF {
        let (_, rest) = text.split_at(3);
        return rest;
    }
    text
}

/// The bytes before the first such byte, and those after it.
#[inline(always)]
fn cut(all: &[u8], mark: u8) -> Option<(&[u8], &[u8])>
    ensures cut { IfSome result (λ parts. IsCut mark all.now parts.0.now parts.1.now) }
    ensures none { IfNone result (All (λ byte. byte ≢ mark) all.now) }
    ensures shorter { IfSome result (λ parts. length parts.1.now < length all.now) }
{
    let mut i: usize = 0;
    while i < all.len() {
        if all[i] == mark {
            return Some((&all[..i], &all[i + 1..]));
        }
        i += 1;
    }
    None
}

/// The first line of a text, with the CR before its LF, and what stands after it.
#[inline(always)]
pub(crate) fn first_line(text: &[u8]) -> (&[u8], &[u8])
    requires { text.now ≢ [] }
    ensures line { IsFirstLine text.now result.0.now result.1.now }
    ensures shorter { length result.1.now < length text.now }
{
    match cut(text, b'\n') {
        Some(parts) => parts,
        None => (text, &[]),
    }
}

/// The line without the CR that ends it.
#[inline(always)]
pub(crate) fn without_return(line: &[u8]) -> &[u8]
    ensures { IsBare line.now result.now }
{
    match line.split_last() {
        Some((last, front)) if *last == b'\r' => front,
        _ => line,
    }
}

/// The row that a line tells.
#[inline(always)]
pub(crate) fn row_of(line: &[u8]) -> Result<Event, LineFault>
    ensures row { IfOk result (TellsRow line.now) }
    ensures none { IfErr result (λ fault. (why : RowFault) → fault ≡ LineFault.BadRow why
        → TellsNoRow line.now why) }
    ensures unread { IfErr result (λ fault. fault ≡ LineFault.Unread → IsUnread line.now) }
{
    match event_of(line) {
        Ok(event) => Ok(event),
        Err(fault) => Err(fault_of(line, fault)),
    }
}

/// The row of the fields of a line.
#[inline(always)]
fn event_of(line: &[u8]) -> Result<Event, RowFault>
    ensures row { IfOk result (TellsRow line.now) }
    ensures none { IfErr result (AreNoRow line.now) }
{
    let Some((time, behind)) = cut(line, b',') else {
        return Err(RowFault::FieldCount);
    };
    let Some((letter, value)) = cut(behind, b',') else {
        return Err(RowFault::FieldCount);
    };
    if cut(value, b',').is_some() {
        return Err(RowFault::FieldCount);
    }
    Event::read(&[time, letter, value])
}

/// Why a line is no row, where its fields are none for this reason.
#[inline(never)]
fn fault_of(line: &[u8], fault: RowFault) -> LineFault
    ensures row { (why : RowFault) → result ≡ LineFault.BadRow why → (why ≡ fault)
        × All (λ byte. byte ≢ 34) line.now × All (λ byte. byte ≢ 13) line.now }
    ensures unread { result ≡ LineFault.Unread → IsUnread line.now }
{
    if cut(line, b'"').is_some() || cut(line, b'\r').is_some() {
        LineFault::Unread
    } else {
        LineFault::BadRow(fault)
    }
}
