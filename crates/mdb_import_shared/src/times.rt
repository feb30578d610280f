//! The times and lengths of time of an export.

ghost use Rattle.std.specs.Prelude.{◌<◌, ◌≤◌};

use super::clock::read_clock;
use super::dates::{Dated, read_dated};
use super::fault::RecordFault;
use super::numbers::{Number, power, read_number};
use super::options::Unit;
use mdb_words::{Span, Time};
use thiserror::Error;

/// How a time is written.
#[derive(Clone, Copy, PartialEq, Eq, Debug, Error)]
pub enum TimeForm {
    /// A number in the unit of the export.
    #[error("a number")]
    Number,
    /// A time of day.
    #[error("a time of day")]
    Clock,
    /// A date and a time of day, without an offset.
    #[error("a date without an offset")]
    Date,
    /// A date and a time of day with an offset.
    #[error("a date with an offset")]
    OffsetDate,
}

/// A time as it is written.
#[derive(Clone, Copy)]
enum Written {
    /// A number.
    Number(Number),
    /// A time of day: its seconds.
    Clock(Number),
    /// A date and a time of day.
    Dated(Dated),
}

impl Written {
    /// The time that a field writes; `None` where it has no form of a time.
    fn read(field: &[u8]) -> Option<Written> {
        if let Some(dated) = read_dated(field) {
            Some(Written::Dated(dated))
        } else if let Some(clock) = read_clock(field) {
            Some(Written::Clock(clock))
        } else {
            Some(Written::Number(read_number(field)?))
        }
    }

    /// How it is written.
    fn form(self) -> TimeForm {
        match self {
            Written::Number(_) => TimeForm::Number,
            Written::Clock(_) => TimeForm::Clock,
            Written::Dated(Dated { offset: None, .. }) => TimeForm::Date,
            Written::Dated(_) => TimeForm::OffsetDate,
        }
    }

    /// Its nearest microsecond: of a time of day since midnight, of a date since 1970.
    fn micros(self, unit: Option<Unit>) -> Result<u64, RecordFault> {
        match self {
            Written::Number(number) => micros_of(number, unit.ok_or(RecordFault::NoUnit)?),
            Written::Clock(clock) => micros_of(clock, Unit::Seconds),
            Written::Dated(Dated { day, clock, offset }) => {
                let seconds = i128::from(day.ok_or(RecordFault::BadDate)?)
                    - i128::from(offset.unwrap_or(0));
                let micros = i128::from(micros_of(clock, Unit::Seconds)?) + seconds * 1_000_000;
                u64::try_from(micros).map_err(|_| RecordFault::BadDate)
            }
        }
    }
}

/// A time of day that is earlier by more than this many microseconds is of the next day.
const HALF_DAY: u64 = 43_200_000_000;

/// The microseconds of a day.
const DAY: u64 = 86_400_000_000;

/// The times of an export, as far as they were read.
#[derive(Clone, Copy, Debug)]
pub struct Times {
    // The unit of numbers, if one was given.
    unit: Option<Unit>,
    // How all are written, once there was one.
    form: Option<TimeForm>,
    // The last time of day, as it was written.
    clock: u64,
    // How often midnight passed.
    midnights: u64,
}

impl Times {
    /// Before the first.
    pub fn new(unit: Option<Unit>) -> Times {
        Times {
            unit,
            form: None,
            clock: 0,
            midnights: 0,
        }
    }

    /// The nearest microsecond to the time that the next field writes. Of times of day it is one
    /// since the midnight before the first, of dates one since 1970.
    ///
    /// # Errors
    ///
    /// What is wrong with the field: `BadTime`, `OtherForm`, `NoUnit`, `BadDate` or `LongTime`.
    pub fn read(&mut self, field: &[u8]) -> Result<Time, RecordFault> {
        let written = Written::read(field).ok_or(RecordFault::BadTime)?;
        let form = written.form();
        if *self.form.get_or_insert(form) != form {
            return Err(RecordFault::OtherForm(form));
        }
        let mut micros = written.micros(self.unit)?;
        if form == TimeForm::Clock {
            if self.clock.saturating_sub(micros) > HALF_DAY {
                self.midnights = self.midnights.saturating_add(1);
            }
            self.clock = micros;
            micros = micros.saturating_add(self.midnights.saturating_mul(DAY));
        }
        Time::new(micros).ok_or(RecordFault::LongTime)
    }

    /// How often midnight passed between times of day.
    pub fn midnights(&self) -> u64 {
        self.midnights
    }
}

/// Whether a field has the form of a time, in whatever unit.
pub fn is_time_form(field: &[u8]) -> bool {
    Written::read(field).is_some()
}

/// The microsecond that an end of a part writes: whole microseconds, a time of day or a date.
pub fn read_end(field: &[u8]) -> Option<Time> {
    match Time::read(field) {
        Some(time) => Some(time),
        None => Times::new(None).read(field).ok(),
    }
}

/// The time of so many of a unit: the nearest microsecond.
///
/// # Errors
///
/// `LongTime`: it has more digits than a time may have.
pub fn time_of(number: Number, unit: Unit) -> Result<Time, RecordFault> {
    Time::new(micros_of(number, unit)?).ok_or(RecordFault::LongTime)
}

/// The length of a break that a field tells, to the nearest microsecond, in the unit that was told;
/// in seconds where none was.
pub fn read_length(unit: Option<Unit>, field: &[u8]) -> Option<Span> {
    let number = read_number(field)?;
    Span::new(micros_of(number, unit.unwrap_or(Unit::Seconds)).ok()?)
}

/// The nearest microsecond to so many of a unit, the later of two.
fn micros_of(number: Number, unit: Unit) -> Result<u64, RecordFault> {
    let (many, each) = match unit {
        Unit::Seconds => (1_000_000, 1),
        Unit::Milliseconds => (1_000, 1),
        Unit::Microseconds => (1, 1),
        Unit::Nanoseconds => (1, 1_000),
    };
    nearest(number, many, each).ok_or(RecordFault::LongTime)
}

/// The whole number that is nearest to a number times `many / each`, the greater of two; `None`
/// where it is too great.
fn nearest(number: Number, many: u128, each: u128) -> Option<u64>
    requires some { 0 < each }
    requires few { each ≤ 1000 }
    requires most { many ≤ 1000000 }
{
    let parts = u128::from(power(number.places)) * each;
    let halves = number.count.checked_mul(2 * many)?.checked_add(parts)?;
    u64::try_from(halves / (2 * parts)).ok()
}
