//! Times of a trace.

use super::fault::FormFault;
use mdb_words::{Span, Time};

/// What a microsecond has of the parts that a moment counts.
const MICRO: u128 = 1_000_000;

/// A frame error of a word begins less than this after its start bit: 10 1/4 bits of 1/9600 s, in
/// those parts, rounded up.
const NEAR: u128 = 1_067_708_334;

/// When something begins or ends, in millionths of a microsecond since the first sample.
#[derive(Clone, Copy)]
pub(crate) struct Moment {
    // The nearest whole microsecond; a half goes up.
    time: Time,
    // The whole microseconds.
    whole: u64,
    // The millionths of the next one.
    part: u64,
}

impl Moment {
    /// The moment of a field: digits, a point, and six digits.
    #[inline(always)]
    pub(crate) fn read(whole: &[u8], part: &[u8]) -> Result<Moment, FormFault> {
        let whole = whole_of(whole).ok_or(FormFault::NoRecord)?;
        let part = Time::read(part).ok_or(FormFault::NoRecord)?.value();
        let nearest = if part < 500_000 {
            whole
        } else {
            whole.saturating_add(1)
        };
        let time = Time::new(nearest).ok_or(FormFault::LongTime)?;
        Ok(Moment { time, whole, part })
    }

    /// The nearest whole microsecond; a half goes up.
    pub(crate) fn time(self) -> Time {
        self.time
    }

    /// How long it is to a later moment, rounded once; `None` where it is longer than a length can
    /// be.
    pub(crate) fn until(self, later: Moment) -> Option<Span> {
        let parts = later.millionths().saturating_sub(self.millionths());
        let micros = parts.saturating_add(MICRO / 2) / MICRO;
        Span::new(u64::try_from(micros).ok()?)
    }

    /// Whether it is less than 10 1/4 bits after the start of a word, or before that.
    pub(crate) fn is_near(self, start: Moment) -> bool {
        self.millionths() < start.millionths().saturating_add(NEAR)
    }

    /// Whether it comes before another one.
    pub(crate) fn is_before(self, other: Moment) -> bool {
        self.millionths() < other.millionths()
    }

    /// As one number.
    fn millionths(self) -> u128 {
        u128::from(self.whole) * MICRO + u128::from(self.part)
    }
}

/// The whole microseconds that stand before the point of a time, at most `u64::MAX`. However many
/// digits there are, they may begin with zeros.
#[inline(always)]
fn whole_of(digits: &[u8]) -> Option<u64> {
    match Time::read(digits) {
        Some(whole) => Some(whole.value()),
        None => long_number(digits),
    }
}

/// The number of decimal digits, at most `u64::MAX`; `None` where there are none, or a byte is no
/// digit.
fn long_number(digits: &[u8]) -> Option<u64> {
    if digits.is_empty() {
        return None;
    }
    let mut number: u64 = 0;
    for digit in digits {
        if !digit.is_ascii_digit() {
            return None;
        }
        number = number
            .saturating_mul(10)
            .saturating_add(u64::from(*digit - b'0'));
    }
    Some(number)
}
