//! Numbers as people and spreadsheets write them.

ghost use Rattle.std.specs.Prelude.{◌^◌, ◌<◌, ◌≤◌, IfSome};

use super::fields::parted;
use mdb_words::whole_number;

/// A whole number has so many digits at most: those of the latest time in nanoseconds.
const WHOLE: usize = 21;

/// So many decimals are read.
const DECIMALS: usize = 15;

/// A number with decimals: `count / 10^places`, where `count` is below 10^37 and `places` is at
/// most 15.
#[derive(Clone, Copy, PartialEq, Eq, Debug)]
pub struct Number {
    /// All its digits as a whole number.
    pub count: u128,
    /// How many of them are after the decimal mark.
    pub places: usize,
    ghost small: { count < 10 ^ 37 },
    ghost few: { places ≤ 15 },
}

/// What a one counts at each of 16 places of a decimal number, the ones first.
static POWERS: [u64; 16] = [
    1,
    10,
    100,
    1_000,
    10_000,
    100_000,
    1_000_000,
    10_000_000,
    100_000_000,
    1_000_000_000,
    10_000_000_000,
    100_000_000_000,
    1_000_000_000_000,
    10_000_000_000_000,
    100_000_000_000_000,
    1_000_000_000_000_000,
];

/// A power of ten, up to 10^15.
pub fn power(places: usize) -> u64
    requires { places ≤ 15 }
    ensures some { 0 < result }
    ensures most { result ≤ 1000000000000000 }
{
    POWERS[places]
}

/// The number that a field writes: 1 to 21 digits, and perhaps a decimal point or comma and 1 to 15
/// digits more; `None` where it writes none.
pub fn read_number(field: &[u8]) -> Option<Number> {
    if let Some((before, after)) = parted(field, b'.') {
        return read_broken(before, after);
    }
    if let Some((before, after)) = parted(field, b',') {
        return read_broken(before, after);
    }
    Some(Number {
        count: read_whole(field)?,
        places: 0,
    })
}

/// The number with these digits before and after a decimal mark.
fn read_broken(before: &[u8], after: &[u8]) -> Option<Number> {
    let whole = read_whole(before)?;
    let places = after.len();
    if places > DECIMALS {
        return None;
    }
    let count = whole * u128::from(power(places)) + u128::from(whole_number(after)?);
    Some(Number { count, places })
}

/// The whole number of 1 to 21 digits; `None` where a field is none.
fn read_whole(field: &[u8]) -> Option<u128>
    ensures { IfSome result (λ n. n < 10 ^ 21) }
{
    if field.len() <= DECIMALS {
        return Some(u128::from(whole_number(field)?));
    }
    if field.len() > WHOLE {
        return None;
    }
    let (front, last) = field.split_at(field.len() - DECIMALS);
    let (high, low) = (whole_number(front)?, whole_number(last)?);
    if high < 1_000_000 {
        Some(u128::from(high) * 1_000_000_000_000_000 + u128::from(low))
    } else {
        None
    }
}
