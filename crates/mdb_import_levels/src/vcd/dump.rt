//! A dump, word by word.

use super::fault::{DumpFault, LevelFault, Stop};
use super::head::{Head, copy_of};
use super::values::{Keyword, Value, instant_of, keyword_of, value_of};
use crate::instant::Instant;
use crate::lines::Lines;
use mdb_import_shared::Options;
use mdb_words::Line;
use std::alloc::Global;

/// Among what a dump goes on.
#[derive(Clone, Copy)]
enum Mode {
    /// Between the commands of the header.
    Outside,
    /// In a command of the header.
    Inside(Keyword),
    /// Among times and changes.
    Body,
    /// After a value; its variable's code comes next.
    Valued(Value),
    /// In a comment.
    Commented,
}

/// A place in a dump, and both lines of the bus before the time there.
#[derive(Drop)]
pub(super) struct Dump<'a> {
    /// The number of the line of the text, counted from 1.
    pub(super) number: u64,
    alloc: Global,
    options: &'a Options,
    /// Among what it goes on.
    mode: Mode,
    /// What the header told.
    head: Head,
    /// The words of a command of the header so far.
    command: Vec<Vec<u8>>,
    /// The time.
    at: Instant,
    /// Whether the controller's line is high, after its first level.
    controller: Option<bool>,
    /// Whether the peripherals' line is high, after its first level.
    peripheral: Option<bool>,
    /// Both lines of the bus.
    lines: Lines,
}

impl<'a> Dump<'a> {
    /// Before the first word: it is time 0.
    pub(super) fn new(alloc: Global, options: &'a Options) -> Dump<'a> {
        Dump {
            number: 1,
            alloc,
            options,
            mode: Mode::Outside,
            head: Head::new(alloc),
            command: Vec::new(alloc),
            at: Instant::zero(),
            controller: None,
            peripheral: None,
            lines: Lines::new(alloc, options.inverted, options.skip_damaged),
        }
    }

    /// Goes on by a word; by nothing, where it has no bytes.
    #[inline(always)]
    pub(super) fn take(&mut self, word: &[u8]) -> Result<(), Stop> {
        let [first, rest @ ..] = word else {
            return Ok(());
        };
        match (self.mode, *first) {
            (Mode::Body, b'#') => self.go_to(rest),
            (Mode::Body, b'0') if !rest.is_empty() => self.change(rest, Value::Low),
            (Mode::Body, b'1') if !rest.is_empty() => self.change(rest, Value::High),
            _ => self.take_rare(word, *first, rest),
        }
    }

    /// Goes on by any word: its first byte, and the rest.
    #[inline(never)]
    fn take_rare(&mut self, word: &[u8], first: u8, rest: &[u8]) -> Result<(), Stop> {
        match self.mode {
            Mode::Body => self.take_entry(word, first, rest),
            Mode::Valued(value) => self.change(word, value),
            Mode::Outside => self.open_command(word, first),
            Mode::Inside(keyword) => self.go_on(word, keyword),
            Mode::Commented => {
                if keyword_of(word) == Keyword::End {
                    self.mode = Mode::Body;
                }
                Ok(())
            }
        }
    }

    /// Takes the end of the dump.
    pub(super) fn end(&mut self) -> Result<(), Stop> {
        let Mode::Body = self.mode else {
            return Err(Stop::Form(DumpFault::Cut));
        };
        self.end_time()?;
        self.lines.end(self.number)?;
        Ok(())
    }

    /// Both lines, as far as they were read.
    pub(super) fn lines(&self) -> &Lines {
        &self.lines
    }

    /// Both lines.
    pub(super) fn into_lines(self) -> Lines {
        self.lines
    }

    /// Takes the levels that both lines have at the time there, as far as they are known.
    fn end_time(&mut self) -> Result<(), Stop> {
        self.lines
            .take(self.number, self.at, self.controller, self.peripheral)?;
        Ok(())
    }

    /// Takes a word between two commands of the header.
    fn open_command(&mut self, word: &[u8], first: u8) -> Result<(), Stop> {
        let keyword = keyword_of(word);
        if first != b'$' || keyword == Keyword::End {
            return Err(Stop::Form(DumpFault::NoCommand));
        }
        self.command.clear();
        self.mode = Mode::Inside(keyword);
        Ok(())
    }

    /// Takes a word in a command of the header.
    fn go_on(&mut self, word: &[u8], keyword: Keyword) -> Result<(), Stop> {
        if keyword_of(word) != Keyword::End {
            self.command.push(copy_of(self.alloc, word)?)?;
        } else if keyword == Keyword::Definitions {
            self.head.expect_whole()?;
            self.mode = Mode::Body;
        } else {
            let words = self.command.as_slice();
            self.head
                .take_command(self.alloc, self.options, keyword, words)?;
            self.mode = Mode::Outside;
        }
        Ok(())
    }

    /// Takes a word of the body that is no time and no change to 0 or 1.
    fn take_entry(&mut self, word: &[u8], first: u8, rest: &[u8]) -> Result<(), Stop> {
        match first {
            b'x' | b'X' | b'z' | b'Z' if !rest.is_empty() => self.change(rest, Value::Open)?,
            b'b' | b'B' => {
                self.mode = Mode::Valued(match rest {
                    [digit] => value_of(*digit),
                    _ => Value::Other,
                });
            }
            b'r' | b'R' | b's' | b'S' => self.mode = Mode::Valued(Value::Other),
            _ => match keyword_of(word) {
                Keyword::Comment => self.mode = Mode::Commented,
                Keyword::Mark | Keyword::End => (),
                _ => return Err(Stop::Form(DumpFault::NoEntry)),
            },
        }
        Ok(())
    }

    /// Goes on to the time that digits write.
    #[inline(always)]
    fn go_to(&mut self, digits: &[u8]) -> Result<(), Stop> {
        let Some(scale) = self.head.scale else {
            return Err(Stop::Form(DumpFault::NoTimescale));
        };
        let at = instant_of(scale, digits)?;
        if at.parts() < self.at.parts() {
            return Err(Stop::Early(at.time().value()));
        }
        if at.parts() > self.at.parts() {
            self.end_time()?;
            self.at = at;
        }
        Ok(())
    }

    /// Changes the variable of a code to a value.
    #[inline(always)]
    fn change(&mut self, code: &[u8], value: Value) -> Result<(), Stop> {
        self.mode = Mode::Body;
        if is_code(&self.head.controller, code) {
            self.controller = self.level_by(Line::Controller, value, self.controller)?;
        } else if is_code(&self.head.peripheral, code) {
            self.peripheral = self.level_by(Line::Peripheral, value, self.peripheral)?;
        }
        Ok(())
    }

    /// The level of a line by a value, after this one.
    fn level_by(&self, line: Line, value: Value, old: Option<bool>) -> Result<Option<bool>, Stop> {
        match value {
            Value::Low => Ok(Some(self.options.inverted.has(line))),
            Value::High => Ok(Some(!self.options.inverted.has(line))),
            Value::Open if old.is_none() => Ok(None),
            Value::Open => Err(Stop::Level(line, self.at.time().value(), LevelFault::Lost)),
            Value::Other => Err(Stop::Level(line, self.at.time().value(), LevelFault::NoLevel)),
        }
    }
}

/// Whether a code is that of a line.
fn is_code(own: &Option<Vec<u8>>, code: &[u8]) -> bool {
    match own {
        Some(own) => own.as_slice() == code,
        None => false,
    }
}
