//! A line of the bus, as a trace is read.

use super::fault::{FaultLine, OrderFault, SigrokFault};
use super::moment::Moment;
use super::pair::{Pair, What};
use mdb_import_shared::{Imported, Place};
use mdb_words::{Event, Line, SHORT_BREAK_MIN, Span, Time, Word};
use std::alloc::Global;

/// The records of a line that tell nothing yet, by their moments.
#[derive(Clone, Copy)]
enum Open {
    /// There are none.
    Nothing,
    /// A start bit.
    Started(Moment),
    /// A start bit and its word.
    Worded(Moment, Word),
    /// A start bit, its word, and a frame error of it.
    Wrong(Moment, Word, Moment),
}

/// A line as it is read.
#[derive(Drop)]
pub(crate) struct LineReader {
    line: Line,
    // The earliest microsecond in which what it tells next may start.
    earliest: u64,
    open: Open,
    // The record of it that was read last.
    number: u64,
    /// Its rows so far.
    pub(crate) rows: Vec<Event>,
}

impl LineReader {
    /// A line of which nothing was read.
    pub(crate) fn new(alloc: Global, line: Line) -> LineReader {
        LineReader {
            line,
            earliest: 0,
            open: Open::Nothing,
            number: 0,
            rows: Vec::new(alloc),
        }
    }

    /// Goes on by what was seen on the line. With `skip` damaged words are left out.
    #[inline(always)]
    pub(crate) fn take(
        &mut self,
        skip: bool,
        pair: &Pair<'_>,
        told: &mut Imported,
    ) -> Result<(), SigrokFault> {
        if let What::Other(fault) = pair.what {
            return Err(self.fault_of_other(skip, pair, fault));
        }
        let open = self.open;
        match open {
            Open::Nothing => {
                let earliest = self.earliest;
                self.begin(earliest, pair, told)?;
            }
            Open::Started(start) => self.take_word(&start, pair)?,
            Open::Worded(start, word) => self.after_word(skip, &start, word, pair, told)?,
            Open::Wrong(start, word, wrong) => {
                self.after_wrong(skip, &start, word, &wrong, pair, told)?;
            }
        }
        self.number = pair.number;
        Ok(())
    }

    /// Begins something from an earliest microsecond on: by a start bit, or a pulse.
    fn begin(
        &mut self,
        earliest: u64,
        pair: &Pair<'_>,
        told: &mut Imported,
    ) -> Result<(), SigrokFault> {
        let at = pair.from.time();
        let fault = match pair.what {
            What::Data(_) => OrderFault::NoStart,
            What::BreakEnd => OrderFault::NoFrameError,
            _ if at.value() < earliest => OrderFault::Early,
            What::Start => {
                self.earliest = earliest;
                self.open = Open::Started(pair.from);
                return Ok(());
            }
            _ => {
                told.pulses.note(self.place(at));
                self.go_on_after(at);
                return Ok(());
            }
        };
        Err(self.fault(pair.number, &pair.from, fault))
    }

    /// The same, after a word that began at this moment.
    fn begin_after(
        &mut self,
        start: &Moment,
        pair: &Pair<'_>,
        told: &mut Imported,
    ) -> Result<(), SigrokFault> {
        self.begin(start.time().value() + 1, pair, told)
    }

    /// Goes on after a start bit.
    fn take_word(&mut self, start: &Moment, pair: &Pair<'_>) -> Result<(), SigrokFault> {
        match pair.what {
            What::Data(word) => {
                self.open = Open::Worded(*start, word);
                Ok(())
            }
            What::Start => Err(self.fault(self.number, start, OrderFault::NoWord)),
            What::BreakEnd => Err(self.fault(pair.number, &pair.from, OrderFault::NoFrameError)),
            _ => Err(self.fault(pair.number, &pair.from, OrderFault::NoBreak)),
        }
    }

    /// Goes on after a word, whose stop bit may be low.
    fn after_word(
        &mut self,
        skip: bool,
        start: &Moment,
        word: Word,
        pair: &Pair<'_>,
        told: &mut Imported,
    ) -> Result<(), SigrokFault> {
        if !is_error_of(start, pair) {
            self.begin_after(start, pair, told)?;
            return self.add_word(start, word);
        }
        if !skip && !is_zero(word) {
            return Err(self.fault(pair.number, &pair.from, OrderFault::NoBreak));
        }
        self.open = Open::Wrong(*start, word, pair.from);
        Ok(())
    }

    /// Goes on after a word and its frame error, which began at this moment.
    fn after_wrong(
        &mut self,
        skip: bool,
        start: &Moment,
        word: Word,
        wrong: &Moment,
        pair: &Pair<'_>,
        told: &mut Imported,
    ) -> Result<(), SigrokFault> {
        if let What::BreakEnd = pair.what {
            return self.after_low(skip, start, word, pair, told);
        }
        if !skip || is_error_of(start, pair) {
            return Err(self.fault(self.number, wrong, OrderFault::NoBreak));
        }
        self.begin_after(start, pair, told)?;
        self.note_damaged(start, told);
        Ok(())
    }

    /// Goes on after a frame error of a word, where the line was low until this: in a break, or a
    /// damaged word.
    fn after_low(
        &mut self,
        skip: bool,
        start: &Moment,
        word: Word,
        pair: &Pair<'_>,
        told: &mut Imported,
    ) -> Result<(), SigrokFault> {
        if !skip && self.line != Line::Controller {
            return Err(self.fault(pair.number, &pair.from, OrderFault::DeviceBreak));
        }
        if pair.to.is_before(pair.from) {
            return Err(self.fault(pair.number, &pair.from, OrderFault::Backwards));
        }
        let Some(length) = self.break_length(skip, word, pair) else {
            if !skip {
                return Err(self.fault(pair.number, &pair.from, OrderFault::LongBreak));
            }
            self.note_damaged(start, told);
            self.go_on_after(start.time());
            return Ok(());
        };
        let at = pair.from.time();
        if at.value() < self.earliest {
            return Err(self.fault(pair.number, &pair.from, OrderFault::Early));
        }
        self.go_on_after(at);
        self.add(Event::Break { at, length })
    }

    /// Holds nothing open after this time.
    fn go_on_after(&mut self, at: Time) {
        self.earliest = at.value() + 1;
        self.open = Open::Nothing;
    }

    /// The length of a break; `None` where the line was low for something else.
    fn break_length(&self, skip: bool, word: Word, pair: &Pair<'_>) -> Option<Span> {
        if self.line != Line::Controller || !is_zero(word) {
            return None;
        }
        let length = pair.from.until(pair.to)?;
        if skip && length.value() < SHORT_BREAK_MIN {
            None
        } else {
            Some(length)
        }
    }

    /// Takes the end of the line's records.
    pub(crate) fn end(&mut self, skip: bool, told: &mut Imported) -> Result<(), SigrokFault> {
        let open = self.open;
        match open {
            Open::Nothing | Open::Started(_) => Ok(()),
            Open::Worded(start, word) => self.add_word(&start, word),
            Open::Wrong(start, _, wrong) => {
                if !skip {
                    return Err(self.fault(self.number, &wrong, OrderFault::NoBreak));
                }
                self.note_damaged(&start, told);
                Ok(())
            }
        }
    }

    /// Adds the row of a word.
    fn add_word(&mut self, start: &Moment, word: Word) -> Result<(), SigrokFault> {
        self.add(Event::Word {
            at: start.time(),
            line: self.line,
            word,
        })
    }

    /// Adds a row.
    fn add(&mut self, row: Event) -> Result<(), SigrokFault> {
        match self.rows.push(row) {
            Ok(()) => Ok(()),
            Err(_) => Err(SigrokFault::Memory),
        }
    }

    /// Notes that a word is left out, which began at this moment.
    fn note_damaged(&self, start: &Moment, told: &mut Imported) {
        told.damaged.note(self.place(start.time()));
    }

    /// A time on the line.
    fn place(&self, at: Time) -> Place {
        Place {
            at,
            line: self.line,
        }
    }

    /// A fault of a record of the line.
    fn fault(&self, number: u64, at: &Moment, fault: OrderFault) -> SigrokFault {
        SigrokFault::Order {
            number,
            micros: at.time().value(),
            line: match self.line {
                Line::Controller => FaultLine::Controller,
                Line::Peripheral => FaultLine::Devices,
            },
            fault,
        }
    }

    /// Why what was seen can't be there: maybe that it can't stand there at all, whatever it is. A
    /// damaged word that is left out is no reason for a word that comes after it.
    fn fault_of_other(&self, skip: bool, pair: &Pair<'_>, fault: OrderFault) -> SigrokFault {
        let is_word = matches!(fault, OrderFault::WordDigits | OrderFault::LargeWord);
        let open = self.open;
        match open {
            Open::Wrong(_, _, wrong) if !(skip && is_word) => {
                self.fault(self.number, &wrong, OrderFault::NoBreak)
            }
            Open::Nothing | Open::Worded(_, _) | Open::Wrong(_, _, _) if is_word => {
                self.fault(pair.number, &pair.from, OrderFault::NoStart)
            }
            _ => self.fault(pair.number, &pair.from, fault),
        }
    }
}

/// Whether what was seen is a frame error of the word with this start bit.
fn is_error_of(start: &Moment, pair: &Pair<'_>) -> bool {
    matches!(pair.what, What::FrameError) && pair.from.is_near(*start)
}

/// Whether a word is that of a break.
fn is_zero(word: Word) -> bool {
    word.byte() == 0 && !word.marked()
}
