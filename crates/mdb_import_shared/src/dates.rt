//! Dates before a time of day, and offsets after it.

ghost use Rattle.std.specs.Prelude.{◌<◌, IfSome};

use super::clock::{read_clock, read_two};
use super::numbers::{Number, power};
use jiff::civil::Date;
use mdb_words::whole_number;

/// A date and a time of day, as they are written.
#[derive(Clone, Copy)]
pub(crate) struct Dated {
    /// The seconds from 1970-01-01 to the date; `None` if the calendar lacks it, or it is earlier.
    pub(crate) day: Option<u64>,
    /// The seconds of the time of day.
    pub(crate) clock: Number,
    /// The seconds by which local time is ahead of UTC, if an offset follows.
    pub(crate) offset: Option<i64>,
}

/// The digits of a date.
#[derive(Clone, Copy)]
struct Digits<'a> {
    year: &'a [u8],
    month: &'a [u8],
    day: &'a [u8],
}

/// The date and the time of day that a field writes; `None` where it writes none.
pub(crate) fn read_dated(field: &[u8]) -> Option<Dated> {
    let (date, text) = split_date(field)?;
    let (time, offset) = text.split_at(text.len().min(run_length(text, true)));
    let clock = read_clock(time)?;
    if clock.count >= 86_400 * u128::from(power(clock.places)) {
        return None;
    }
    let offset = if offset.is_empty() {
        None
    } else {
        Some(read_offset(offset)?)
    };
    Some(Dated {
        day: day_of(date),
        clock,
        offset,
    })
}

/// How many bytes of a text may be those of a time: up to the last digit of a run of digits, points
/// and colons, and of commas where they don't end it. A date and its separator may stand before the
/// run, and an offset then after it.
pub fn time_length(text: &[u8], has_commas: bool) -> usize {
    let Some((_, clock)) = split_date(text) else {
        return run_length(text, has_commas);
    };
    let (_, rest) = clock.split_at(clock.len().min(run_length(clock, has_commas)));
    text.len()
        .saturating_sub(rest.len())
        .saturating_add(offset_length(rest))
}

/// The length up to the last digit of a run of digits, points, colons and perhaps commas.
fn run_length(text: &[u8], has_commas: bool) -> usize {
    let mut length = 0;
    for place in 0..text.len() {
        match text[place] {
            b'0'..=b'9' => length = place + 1,
            b'.' | b':' => {}
            b',' if has_commas => {}
            _ => break,
        }
    }
    length
}

/// The date that a text begins with, and what follows it and its separator.
fn split_date(text: &[u8]) -> Option<(Digits<'_>, &[u8])> {
    let (date, rest) = match split_year_first(text) {
        Some(found) => found,
        None => split_day_first(text)?,
    };
    if are_digits(date.year) && are_digits(date.month) && are_digits(date.day) {
        Some((date, after_separator(rest)?))
    } else {
        None
    }
}

/// The parts of a date YYYY-MM-DD that a text begins with, and what follows.
fn split_year_first(text: &[u8]) -> Option<(Digits<'_>, &[u8])> {
    match text {
        [_, _, _, _, b'-', _, _, b'-', _, _, rest @ ..] => {
            let date = Digits {
                year: &text[..4],
                month: &text[5..7],
                day: &text[8..10],
            };
            Some((date, rest))
        }
        _ => None,
    }
}

/// The parts of a date D.M.YYYY that a text begins with, and what follows.
fn split_day_first(text: &[u8]) -> Option<(Digits<'_>, &[u8])> {
    let (day, after_day) = before_point(text)?;
    let (month, after_month) = before_point(after_day)?;
    if after_month.len() < 4 {
        return None;
    }
    let (year, rest) = after_month.split_at(4);
    Some((Digits { year, month, day }, rest))
}

/// The one or two bytes that a text has before a point, and what follows that.
fn before_point(text: &[u8]) -> Option<(&[u8], &[u8])> {
    match text {
        [_, b'.', rest @ ..] => Some((&text[..1], rest)),
        [_, _, b'.', rest @ ..] => Some((&text[..2], rest)),
        _ => None,
    }
}

/// What follows the separator of a date and a time of day, if one stands here.
fn after_separator(text: &[u8]) -> Option<&[u8]> {
    if let [b'T' | b't', rest @ ..] = text {
        return Some(rest);
    }
    let mut rest = text;
    for _ in 0..text.len() {
        match rest {
            [b' ' | b'\t' | b',' | b';', after @ ..] => rest = after,
            _ => break,
        }
    }
    if rest.len() < text.len() {
        Some(rest)
    } else {
        None
    }
}

/// Whether all bytes are digits.
fn are_digits(text: &[u8]) -> bool {
    text.iter().all(|byte| byte.is_ascii_digit())
}

/// The seconds from 1970-01-01 to a date; `None` where the calendar lacks it, or it is before.
fn day_of(date: Digits<'_>) -> Option<u64> {
    let year = i16::try_from(whole_number(date.year)?).ok()?;
    let (month, day) = (read_two(date.month)?, read_two(date.day)?);
    let (Ok(first), Ok(date)) = (
        Date::new(1970, 1, 1),
        Date::new(year, month as i8, day as i8),
    ) else {
        return None;
    };
    u64::try_from(date.duration_since(first).as_secs()).ok()
}

/// How many bytes of an offset a text begins with.
fn offset_length(text: &[u8]) -> usize {
    match text {
        [b'Z' | b'z', ..] => 1,
        [b'+' | b'-', a, b, rest @ ..] if a.is_ascii_digit() && b.is_ascii_digit() => {
            3 + match rest {
                [b':', c, d, ..] if c.is_ascii_digit() && d.is_ascii_digit() => 3,
                [c, d, ..] if c.is_ascii_digit() && d.is_ascii_digit() => 2,
                _ => 0,
            }
        }
        _ => 0,
    }
}

/// The seconds of an offset; `None` where a text is none.
fn read_offset(text: &[u8]) -> Option<i64> {
    match text {
        [b'Z' | b'z'] => Some(0),
        [b'+', digits @ ..] => Some(seconds_of(digits)? as i64),
        [b'-', digits @ ..] => Some(-(seconds_of(digits)? as i64)),
        _ => None,
    }
}

/// The seconds of an offset of hours, and perhaps minutes.
fn seconds_of(digits: &[u8]) -> Option<u64>
    ensures { IfSome result (λ n. n < 86400) }
{
    let (hours, minutes): (&[u8], &[u8]) = match digits {
        [_, _] => (digits, b"00"),
        [_, _, _, _] => (&digits[..2], &digits[2..]),
        [_, _, b':', _, _] => (&digits[..2], &digits[3..]),
        _ => return None,
    };
    let (hour, minute) = (read_two(hours)?, read_two(minutes)?);
    if hour < 24 && minute < 60 {
        Some((hour * 60 + minute) * 60)
    } else {
        None
    }
}
