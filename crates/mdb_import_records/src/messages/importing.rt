//! The import of a log.

use super::fault::{Found, MessageFault, MessagesFault};
use super::head::Front;
use super::log::Log;
use super::words::{Words, are_likely_decimal};
use crate::frame::{Format, Rows, import};
use crate::named::can_be_titles;
use mdb_import_shared::{Imported, Options, RecordFault, TimeOf, Times};
use mdb_words::{Event, Line, Time, Word};
use std::alloc::Global;
use std::io::{Read, Write};

/// How long a word lasts, in microseconds: 11 bits at 9,600 a second.
const WORD: u64 = 1_146;

/// By how many microseconds a message may begin later than the log says.
const MOST_MOVED: u64 = 50_000;

/// Imports the log that a reader has left, and writes its rows as it reads.
///
/// # Errors
///
/// `BadLine` for the first line that is no message, and no blank, comment or header: then the rows
/// of all lines before it were written. `Read` where the reader failed and `Memory` where memory
/// was refused: then those of some first lines were. After these rows comes a line that is no row,
/// so that no checker takes them for a whole recording. `Write` where the writer failed: then it
/// took a front of what is written where it doesn't fail.
pub fn import_messages<R: Read + Drop, W: Write>(
    alloc: Global,
    options: &Options,
    reader: R,
    writer: &mut W,
) -> Result<Imported, MessagesFault> {
    let mut reading = LogReader {
        options,
        times: Times::new(options.unit),
        has_begun: false,
        words: Words::new(options.decimal),
        free: 0,
        moved: 0,
        most: 0,
        messages: 0,
    };
    let mut log = Log::new(alloc, reader);
    let mut imported = import(options.part, &mut log, &mut reading, writer)?;
    imported.midnights = reading.times.midnights();
    imported.moved = Some((reading.moved, reading.most));
    Ok(imported)
}

/// How far a log is read.
#[derive(Drop)]
struct LogReader<'a> {
    options: &'a Options,
    // The times of all messages.
    times: Times,
    // Whether a line stood there that isn't passed over.
    has_begun: bool,
    // The words of the line that was read last.
    words: Words,
    // When the last word ended.
    free: u64,
    moved: u64,
    most: u64,
    messages: u64,
}

impl LogReader<'_> {
    /// Reads a message, and answers when it begins and who spoke.
    fn read(&mut self, text: &[u8]) -> Result<(u64, Line), MessageFault> {
        let mut front = Front::of(text);
        let (at, line) = front.read(self.options, &mut self.times)?;
        match self.words.read(front.rest) {
            Err(MessageFault::BadWords) if are_likely_decimal(front.rest) => {
                return Err(MessageFault::DecimalWords);
            }
            read => read?,
        }
        self.words.mark(line)?;
        let others = (self.words.as_slice().len() as u64).saturating_sub(1);
        Ok((self.placed(at.value(), others.saturating_mul(WORD))?, line))
    }

    /// When a message begins that the log has at this time, and whose last word begins so long
    /// after the first.
    fn placed(&mut self, at: u64, after_first: u64) -> Result<u64, MessageFault> {
        let before = match self.options.time_of {
            TimeOf::First => 0,
            TimeOf::Last => after_first,
        };
        let begin = self.free.max(at.saturating_sub(before));
        let late = begin.saturating_add(before).saturating_sub(at);
        let last = begin.saturating_add(after_first);
        if late > MOST_MOVED {
            return Err(MessageFault::TooEarly);
        }
        if Time::new(last).is_none() {
            return Err(MessageFault::Time(RecordFault::LongTime));
        }
        if late > 0 {
            self.moved = self.moved.saturating_add(1);
            self.most = self.most.max(late);
        }
        self.messages = self.messages.saturating_add(1);
        self.free = last.saturating_add(WORD);
        Ok(begin)
    }

    /// Adds the rows of the message that was read last.
    fn add<W: Write>(
        &self,
        begin: u64,
        line: Line,
        rows: &mut Rows,
        writer: &mut W,
    ) -> Result<(), MessagesFault> {
        let mut start = begin;
        // Each is a time and a word: the last time was seen to be one.
        for word in self.words.as_slice() {
            if let (Some(at), Some(word)) = (Time::new(start), Word::new(*word)) {
                rows.add(&Event::Word { at, line, word }, writer)?;
            }
            start = start.saturating_add(WORD);
        }
        Ok(())
    }
}

/// Whether a line is blank, or a comment. One that begins with `;` is a comment only above all
/// others, and if it has no other `;`.
fn is_passed_over(text: &[u8], is_above: bool) -> bool {
    for place in 0..text.len() {
        match text[place] {
            b' ' | b'\t' => {}
            b'#' => return true,
            b';' => return is_above && !text[place + 1..].contains(&b';'),
            _ => return false,
        }
    }
    true
}

impl<R: Read> Format<Log<R>> for LogReader<'_> {
    type Fault = MessagesFault;

    fn take<W: Write>(
        &mut self,
        number: u64,
        log: &Log<R>,
        rows: &mut Rows,
        writer: &mut W,
    ) -> Result<(), MessagesFault> {
        let text = log.line();
        if is_passed_over(text, !self.has_begun) {
            return Ok(());
        }
        if !self.has_begun {
            self.has_begun = true;
            if can_be_titles(text) {
                rows.tally.header = true;
                return Ok(());
            }
        }
        match self.read(text) {
            Ok((begin, line)) => self.add(begin, line, rows, writer),
            Err(fault) => Err(MessagesFault::BadLine {
                number,
                fault,
                found: Found::of(text),
                is_first: self.messages == 0,
            }),
        }
    }

    fn end(&self) -> Result<(), MessagesFault> {
        Ok(())
    }
}
