//! What a text is, by its front.

use super::fields::{bare, parted, three_of};
use super::hex::behind_prefix;
use super::numbers::read_number;
use super::times::is_time_form;
use super::values::read_word;
use thiserror::Error;

/// So many bytes of a text are looked at.
const LOOKED: usize = 512;

/// So many bytes of a text are looked at, or are a byte order mark before these.
pub const FRONT: usize = LOOKED + 3;

/// What a text looks like, and so which command reads it.
#[derive(Clone, Copy, PartialEq, Eq, Debug, Error)]
pub enum Kind {
    /// What gzip compressed.
    #[error("this is compressed by gzip: write zcat FILE | before the command")]
    Gzip,
    /// A value change dump.
    #[error("this looks like a value change dump: mdbimport vcd reads it")]
    Dump,
    /// A trace of sigrok-cli.
    #[error("this looks like a trace of sigrok-cli: mdbimport sigrok reads it")]
    Trace,
    /// The table of an asynchronous serial analyser.
    #[error("this looks like a table of Logic 2's analyser: mdbimport saleae reads it")]
    Table,
    /// A table of edges.
    #[error("this looks like a table of edges: mdbimport edges reads it")]
    Edges,
    /// Rows in some form.
    #[error("this looks like rows: mdbimport rows reads it")]
    Rows,
    /// The log of a sniffer.
    #[error("this looks like the log of a sniffer: mdbimport messages reads it")]
    Log,
    /// An export of which no more is known.
    #[error("this looks like an export: mdbimport makes rows of it")]
    Export,
}

/// What a text looks like whose first [`FRONT`] bytes these are, or all where it has fewer; `None`
/// where nothing is known.
pub fn kind_of(front: &[u8]) -> Option<Kind> {
    let text = front.strip_prefix(b"\xEF\xBB\xBF").unwrap_or(front);
    let (text, _) = text.split_at(text.len().min(LOOKED));
    if text.starts_with(b"\x1F\x8B") {
        return Some(Kind::Gzip);
    }
    if is_dump(text) {
        return Some(Kind::Dump);
    }
    if text.starts_with(b"{\"traceEvents\": [") {
        return Some(Kind::Trace);
    }
    let is_cut = text.len() >= LOOKED;
    let (first, rest) = next_line(text, is_cut);
    let (second, _) = next_line(rest, is_cut);
    kind_of_lines(first, second).or(export_of(text, first))
}

/// What a text looks like by its first lines.
fn kind_of_lines(first: &[u8], second: &[u8]) -> Option<Kind> {
    if is_table(first) {
        Some(Kind::Table)
    } else if are_edges(first, second) {
        Some(Kind::Edges)
    } else if is_row(first) || is_row(second) {
        Some(Kind::Rows)
    } else if is_message(first) || is_message(second) {
        Some(Kind::Log)
    } else {
        None
    }
}

/// An export, if a text begins like one of which no more is known: in UTF-16, with a comment, or
/// with titles.
fn export_of(text: &[u8], first: &[u8]) -> Option<Kind> {
    match text {
        [0xFF, 0xFE, ..] | [0xFE, 0xFF, ..] | [b'#' | b';', ..] => Some(Kind::Export),
        _ if are_titles(first) => Some(Kind::Export),
        _ => None,
    }
}

/// Whether a text begins with a command of a dump.
fn is_dump(text: &[u8]) -> bool {
    let start = text
        .iter()
        .position(|byte| !matches!(*byte, b' ' | b'\t' | b'\r' | b'\n'));
    let (_, rest) = text.split_at(start.unwrap_or(0).min(text.len()));
    matches!(rest, [b'$', b'a'..=b'z', ..])
}

/// The next line of a text that counts, and what follows it; no bytes where there is none. Where
/// the text is cut, its last line is none.
fn next_line(text: &[u8], is_cut: bool) -> (&[u8], &[u8]) {
    let mut rest = text;
    for _ in 0..text.len() {
        let end = match rest.iter().position(|byte| matches!(*byte, b'\r' | b'\n')) {
            Some(end) => end,
            None if is_cut => break,
            None => rest.len(),
        };
        let (line, after) = rest.split_at(end.min(rest.len()));
        rest = match after {
            [_, after @ ..] => after,
            [] => &[],
        };
        if counts(line) {
            return (line, rest);
        }
    }
    (&[], &[])
}

/// Whether a line is no comment, and has more than blanks.
fn counts(line: &[u8]) -> bool {
    for byte in line {
        match *byte {
            b' ' | b'\t' | b'"' => {}
            b'#' | b';' => return false,
            _ => return true,
        }
    }
    false
}

/// Whether a line has a field, parted by commas, that is one of these.
fn has_field(line: &[u8], names: &[&[u8]]) -> bool {
    line.split(|byte| *byte == b',')
        .any(|field| names.contains(&bare(field)))
}

/// Whether a line is the header of an asynchronous serial analyser's table.
fn is_table(line: &[u8]) -> bool {
    has_field(line, &[b"start_time", b"Time [s]"])
        && has_field(line, &[b"data", b"Value"])
        && has_field(line, &[b"error", b"Framing Error"])
}

/// Whether two lines are the first ones of a table of edges.
fn are_edges(header: &[u8], line: &[u8]) -> bool {
    let count = line.split(|byte| *byte == b',').count();
    if count < 3 || header.split(|byte| *byte == b',').count() != count {
        return false;
    }
    let (Some((title, _)), Some((time, levels))) = (parted(header, b','), parted(line, b',')) else {
        return false;
    };
    read_number(bare(title)).is_none()
        && read_number(bare(time)).is_some()
        && levels
            .split(|byte| *byte == b',')
            .all(|level| matches!(bare(level), b"0" | b"1"))
}

/// Whether a line is a row in some form.
fn is_row(line: &[u8]) -> bool {
    let Some((time, name, value, false)) = three_of(line) else {
        return false;
    };
    let is_break = matches!(name, b"B" | b"b") && read_number(value).is_some();
    let is_value = is_break || read_word(false, value).is_ok();
    is_time_form(time) && !name.is_empty() && read_number(name).is_none() && is_value
}

/// Whether a line has three titles or more.
fn are_titles(line: &[u8]) -> bool {
    match three_of(line) {
        Some((first, ..)) => !first.is_empty() && !first.iter().any(u8::is_ascii_digit),
        None => false,
    }
}

/// Whether a byte parts the pieces of a message.
fn is_parting(byte: u8) -> bool {
    matches!(
        byte,
        b' ' | b'\t' | b',' | b';' | b'[' | b']' | b'(' | b')' | b'<' | b'>' | b'=' | b'|' | b'"'
    )
}

/// Whether a line is the message of a log: it has a time, who spoke, and bytes, of which the last
/// stands after a blank, or after another one.
fn is_message(line: &[u8]) -> bool {
    let (mut before, mut last): (&[u8], &[u8]) = (&[], &[]);
    let (mut has_time, mut has_name) = (false, false);
    for piece in line.split(|byte| is_parting(*byte)) {
        if piece.is_empty() {
            continue;
        }
        if !last.is_empty() {
            has_time = has_time || is_time_form(last);
            has_name = has_name || !is_time_form(last);
        }
        (before, last) = (last, piece);
    }
    has_time && has_name && is_byte(last) && (is_byte(before) || has_blank_before_last(line))
}

/// Whether a blank stands directly before the last piece of a message.
fn has_blank_before_last(line: &[u8]) -> bool {
    let mut rest = line;
    for _ in 0..line.len() {
        match rest {
            [inner @ .., byte] if is_parting(*byte) => rest = inner,
            _ => break,
        }
    }
    for _ in 0..line.len() {
        match rest {
            [inner @ .., byte] if !is_parting(*byte) => rest = inner,
            _ => break,
        }
    }
    matches!(rest, [.., b' '])
}

/// Whether a piece has the digits of a byte, or of a word of three digits.
fn is_byte(piece: &[u8]) -> bool {
    let bared = match piece {
        [b'*', inner @ ..] => inner,
        [inner @ .., b'*'] => inner,
        _ => piece,
    };
    let digits = behind_prefix(bared).unwrap_or(bared);
    (digits.len() == 2 || digits.len() == 3) && digits.iter().all(u8::is_ascii_hexdigit)
}
