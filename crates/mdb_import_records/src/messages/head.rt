//! What stands before the words of a line: when, and who spoke.

use super::fault::MessageFault;
use mdb_import_shared::{Options, RecordFault, Times, time_length};
use mdb_words::{Line, Time};

/// How far a line is read.
#[derive(Drop)]
pub(crate) struct Front<'a> {
    /// What isn't read yet.
    pub(crate) rest: &'a [u8],
    // The time, once it was read.
    at: Option<Time>,
    // Who spoke, once that was read.
    line: Option<Line>,
    // Whether a comma was passed over after that.
    has_comma: bool,
    // Whether a `>` was.
    has_arrow: bool,
    // Whether the name of the other line was passed over after that.
    has_other: bool,
}

impl<'a> Front<'a> {
    /// Before a line.
    pub(crate) fn of(line: &'a [u8]) -> Front<'a> {
        Front {
            rest: line,
            at: None,
            line: None,
            has_comma: false,
            has_arrow: false,
            has_other: false,
        }
    }

    /// Reads what stands before the words, and answers the time of the message, the next of these,
    /// and who spoke.
    pub(crate) fn read(
        &mut self,
        options: &Options,
        times: &mut Times,
    ) -> Result<(Time, Line), MessageFault> {
        for _ in 0..u64::MAX {
            if self.pass_name(options) || self.pass_mark() {
                continue;
            }
            match (self.at, self.line) {
                (None, _) => self.pass_time(times)?,
                (Some(_), None) => break,
                (Some(at), Some(line)) => return Ok((at, line)),
            }
        }
        Err(MessageFault::NoSpeaker)
    }

    /// Passes the name of who spoke, or that of the other line after a `>`, if it comes next.
    fn pass_name(&mut self, options: &Options) -> bool {
        let Some((line, rest)) = name_at(options, self.rest, self.at.is_some()) else {
            return false;
        };
        if self.line.is_none() {
            self.line = Some(line);
        } else if self.has_arrow && !self.has_other && self.line != Some(line) {
            self.has_other = true;
        } else {
            return false;
        }
        self.rest = rest;
        true
    }

    /// Passes a mark, if one comes next.
    fn pass_mark(&mut self) -> bool {
        let Some((mark, rest)) = mark_at(self.rest) else {
            return false;
        };
        if self.line.is_some() {
            self.has_comma = self.has_comma || mark == b',';
            self.has_arrow = self.has_arrow || mark == b'>';
        }
        self.rest = rest;
        true
    }

    /// Passes the time, which comes next. After who spoke and a comma, a comma ends it.
    fn pass_time(&mut self, times: &mut Times) -> Result<(), MessageFault> {
        let length = time_length(self.rest, !self.has_comma);
        let (time, rest) = self.rest.split_at(self.rest.len().min(length));
        if !ends_at(rest) {
            return Err(MessageFault::Time(RecordFault::BadTime));
        }
        match times.read(time) {
            Ok(at) => self.at = Some(at),
            Err(fault) => return Err(MessageFault::Time(fault)),
        }
        self.rest = rest;
        Ok(())
    }
}

/// The line that the front of a text names, and what follows the name: the longest one counts. One
/// that begins with a digit counts only after the time.
fn name_at<'a>(options: &Options, text: &'a [u8], has_time: bool) -> Option<(Line, &'a [u8])> {
    let names = [
        (Line::Controller, "M".as_bytes()),
        (Line::Controller, "m".as_bytes()),
        (Line::Controller, bytes_of(&options.controller)),
        (Line::Peripheral, "S".as_bytes()),
        (Line::Peripheral, "s".as_bytes()),
        (Line::Peripheral, bytes_of(&options.peripheral)),
    ];
    let mut found: Option<(Line, &'a [u8])> = None;
    for (line, name) in names {
        if name.is_empty() || !has_time && name[0].is_ascii_digit() {
            continue;
        }
        if let Some(rest) = text.strip_prefix(name) {
            let is_longer = found.is_none_or(|(_, other)| rest.len() < other.len());
            if ends_at(rest) && is_longer {
                found = Some((line, rest));
            }
        }
    }
    found
}

/// The bytes of a name; none where none was given.
fn bytes_of(name: &Option<String>) -> &[u8] {
    match name {
        Some(name) => name.as_bytes(),
        None => &[],
    }
}

/// Whether a text ends here, or begins with a mark.
pub(crate) fn ends_at(text: &[u8]) -> bool {
    text.is_empty() || mark_at(text).is_some()
}

/// The mark that a text begins with, if it does, and what follows it.
pub(crate) fn mark_at(text: &[u8]) -> Option<(u8, &[u8])> {
    match text {
        [b'-', digit, ..] if digit.is_ascii_hexdigit() => None,
        [mark, rest @ ..] if is_mark(*mark) => Some((*mark, rest)),
        _ => None,
    }
}

/// Whether a byte is a mark, or a minus.
fn is_mark(byte: u8) -> bool {
    matches!(
        byte,
        b' ' | b'\t'
            | b'['
            | b']'
            | b'('
            | b')'
            | b'<'
            | b'>'
            | b'='
            | b':'
            | b';'
            | b','
            | b'|'
            | b'"'
            | b'-'
    )
}
