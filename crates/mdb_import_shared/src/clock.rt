//! Times of day.

ghost use Rattle.std.specs.Prelude.{◌<◌, IfSome};

use super::fields::parted;
use super::numbers::{Number, power, read_number};
use mdb_words::whole_number;

/// The seconds that a time of day writes; `None` where a field is none.
pub(crate) fn read_clock(field: &[u8]) -> Option<Number> {
    let (hours, rest) = parted(field, b':')?;
    let (minutes, seconds) = parted(rest, b':')?;
    let (hour, minute) = (read_two(hours)?, read_two(minutes)?);
    let second = read_number(seconds)?;
    let unit = u128::from(power(second.places));
    if minute >= 60 || second.count >= 60 * unit {
        return None;
    }
    Some(Number {
        count: u128::from((hour * 60 + minute) * 60) * unit + second.count,
        places: second.places,
    })
}

/// The whole number that a field of one or two digits writes; `None` where it writes none.
pub(crate) fn read_two(field: &[u8]) -> Option<u64>
    ensures { IfSome result (λ n. n < 100) }
{
    if field.len() > 2 {
        return None;
    }
    let number = whole_number(field)?;
    if number < 100 { Some(number) } else { None }
}
