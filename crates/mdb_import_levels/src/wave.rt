//! A line of the bus, whose levels are taken one after the other.

ghost use Rattle.std.specs.Prelude.{◌<◌};

use crate::fault::{LineFault, WaveFault};
use crate::instant::Instant;
use mdb_import_shared::{Place, Places};
use mdb_words::{Event, Line, Word};
use std::alloc::Global;

/// A bit at 9600 baud, in parts of an instant.
const BIT: u128 = 312_500_000_000_000_000_000;

/// The half of it.
const HALF_BIT: u128 = 156_250_000_000_000_000_000;

/// The bit of a frame that is its last: the stop bit. The start bit is bit 0.
const STOP_BIT: u8 = 10;

/// The least length of what is 95 milliseconds in whole microseconds, in parts of an instant.
const BREAK_LEAST: u128 = 284_998_500_000_000_000_000_000;

/// A frame of which the first bits were read, each at its middle.
#[derive(Clone, Copy)]
struct Frame {
    /// When its start bit fell.
    start: Instant,
    /// How many bits were read, the start bit being the first.
    taken: u8,
    /// The last nine bits that were read, the first of them in the lowest place.
    value: u16,
    /// Whether the line was low ever since the start bit fell.
    steady: bool,
    ghost below: { value < 512 },
}

/// What a frame comes to.
#[derive(Clone, Copy)]
enum Outcome {
    /// Nothing yet: its stop bit wasn't read.
    Open,
    /// No frame: its start bit is a pulse.
    Pulse,
    /// A word.
    Word(Word),
    /// The line is low at the middle of the stop bit, and was so all the time.
    Low,
    /// The line is low at the middle of the stop bit, and was high before.
    Mixed,
}

impl Frame {
    /// The middle of a bit, in parts of an instant.
    fn middle(&self, bit: u8) -> u128 {
        self.start.parts() + (u128::from(bit) * BIT + HALF_BIT)
    }

    /// Reads the bits whose middle is before an instant up to which the line has one level.
    #[inline(always)]
    fn read_until(&mut self, at: u128, high: bool) -> Outcome {
        let mut middle = self.middle(self.taken);
        if middle < at && self.taken == 0 && high {
            return Outcome::Pulse;
        }
        for bit in self.taken..STOP_BIT {
            if middle >= at {
                return Outcome::Open;
            }
            middle = middle.saturating_add(BIT);
            self.value = self.value / 2 + if high { 256 } else { 0 };
            self.taken = bit + 1;
        }
        if middle >= at {
            Outcome::Open
        } else if high {
            Outcome::Word(Word::new(self.value).unwrap())
        } else if self.steady {
            Outcome::Low
        } else {
            Outcome::Mixed
        }
    }
}

/// Where a line stands.
#[derive(Clone, Copy)]
enum State {
    /// Nothing is open: the next fall begins a frame.
    Quiet,
    /// A frame is open.
    Framed(Frame),
    /// It is low since an instant, and was so at the middle of the stop bit of a frame from there.
    Low(Instant),
}

/// A line, and its rows so far.
#[derive(Drop)]
pub(crate) struct Wave {
    /// Which line it is.
    line: Line,
    /// Whether damaged words are left out.
    skip: bool,
    /// Whether it is high now. It counts as low before its first level.
    high: bool,
    /// Where it stands.
    state: State,
    /// Its rows.
    rows: Vec<Event>,
    /// Where a pulse was passed over.
    pulses: Places,
    /// Where a damaged word was left out.
    damaged: Places,
}

impl Wave {
    /// A line before its first level.
    pub(crate) fn new(alloc: Global, line: Line, skip: bool) -> Wave {
        Wave {
            line,
            skip,
            high: false,
            state: State::Quiet,
            rows: Vec::new(alloc),
            pulses: Places::new(),
            damaged: Places::new(),
        }
    }

    /// Its rows.
    pub(crate) fn rows(&self) -> &[Event] {
        self.rows.as_slice()
    }

    /// Where pulses were passed over.
    pub(crate) fn pulses(&self) -> &Places {
        &self.pulses
    }

    /// Where damaged words were left out.
    pub(crate) fn damaged(&self) -> &Places {
        &self.damaged
    }

    /// Whether a word was read.
    pub(crate) fn has_word(&self) -> bool {
        self.rows
            .iter()
            .any(|row| matches!(row, Event::Word { .. }))
    }

    /// Takes the level that the line has from an instant on, which is after all that were taken.
    #[inline(always)]
    pub(crate) fn take(&mut self, at: Instant, high: bool) -> Result<(), WaveFault> {
        if high == self.high && self.stays_until(at.parts()) {
            Ok(())
        } else {
            self.take_news(at, high)
        }
    }

    /// The same, where the line doesn't stay as it is, or something is found before the instant.
    #[inline(never)]
    fn take_news(&mut self, at: Instant, high: bool) -> Result<(), WaveFault> {
        self.read_until(at.parts())?;
        if high == self.high {
            return Ok(());
        }
        self.high = high;
        self.turn(at)
    }

    /// Takes the end: the line stays as it is.
    pub(crate) fn end(&mut self) -> Result<(), WaveFault> {
        if self.high {
            return self.read_until(u128::MAX);
        }
        match self.state {
            State::Quiet => Ok(()),
            State::Framed(Frame { start, .. }) | State::Low(start) => {
                self.add_damaged(start, LineFault::Cut)
            }
        }
    }

    /// Whether nothing is found before an instant, as long as the line stays as it is. Bits may be
    /// read later then.
    #[inline(always)]
    fn stays_until(&self, at: u128) -> bool {
        match &self.state {
            State::Framed(frame) => at <= frame.middle(STOP_BIT),
            _ => true,
        }
    }

    /// Reads what is before an instant up to which the line stays as it is.
    #[inline(always)]
    fn read_until(&mut self, at: u128) -> Result<(), WaveFault> {
        let State::Framed(frame) = &mut self.state else {
            return Ok(());
        };
        let start = frame.start;
        let outcome = frame.read_until(at, self.high);
        if let Outcome::Open = outcome {
            return Ok(());
        }
        self.state = State::Quiet;
        match outcome {
            Outcome::Open => Ok(()),
            Outcome::Pulse => {
                let place = self.place_of(start);
                self.pulses.note(place);
                Ok(())
            }
            Outcome::Word(word) => self.add_word(start, word),
            Outcome::Low => {
                self.state = State::Low(start);
                Ok(())
            }
            Outcome::Mixed => self.add_damaged(start, LineFault::Framing),
        }
    }

    /// Notes that the line has its level from an instant on, and had the other one before.
    fn turn(&mut self, at: Instant) -> Result<(), WaveFault> {
        match &mut self.state {
            State::Quiet => {
                if !self.high {
                    self.state = State::Framed(Frame {
                        start: at,
                        taken: 0,
                        value: 0,
                        steady: true,
                    });
                }
                Ok(())
            }
            State::Framed(frame) => {
                frame.steady = frame.steady && !self.high;
                Ok(())
            }
            State::Low(start) => {
                let start = *start;
                self.state = State::Quiet;
                self.end_low(start, at)
            }
        }
    }

    /// Adds the break from one instant to another one, if what is low between them is one.
    fn end_low(&mut self, start: Instant, end: Instant) -> Result<(), WaveFault> {
        if start.parts() + BREAK_LEAST > end.parts() {
            return self.add_damaged(start, LineFault::Framing);
        }
        if self.line == Line::Peripheral {
            return self.add_damaged(start, LineFault::DeviceBreak);
        }
        match start.until(end) {
            Some(length) => {
                let at = start.time();
                self.rows.push(Event::Break { at, length })?;
                Ok(())
            }
            None => self.add_damaged(start, LineFault::LongBreak),
        }
    }

    /// Adds a word that began at an instant.
    fn add_word(&mut self, start: Instant, word: Word) -> Result<(), WaveFault> {
        let (at, line) = (start.time(), self.line);
        self.rows.push(Event::Word { at, line, word })?;
        Ok(())
    }

    /// Notes what is damaged and began at an instant; or refuses it, if that isn't left out.
    fn add_damaged(&mut self, start: Instant, fault: LineFault) -> Result<(), WaveFault> {
        if self.skip {
            let place = self.place_of(start);
            self.damaged.note(place);
            Ok(())
        } else {
            Err(WaveFault::Levels {
                micros: start.time().value(),
                fault,
            })
        }
    }

    /// The place of what began at an instant.
    fn place_of(&self, start: Instant) -> Place {
        Place {
            at: start.time(),
            line: self.line,
        }
    }
}
