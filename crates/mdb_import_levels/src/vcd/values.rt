//! What single words of a dump tell.

use super::fault::DumpFault;
use crate::instant::Instant;
use mdb_words::Time;

/// The value of a variable.
#[derive(Clone, Copy)]
pub(super) enum Value {
    /// It is 0.
    Low,
    /// It is 1.
    High,
    /// It isn't known, or nothing drives it.
    Open,
    /// It is no digit.
    Other,
}

/// The value of a digit; `Other` where a byte is none.
pub(super) fn value_of(c: u8) -> Value {
    match c {
        b'0' => Value::Low,
        b'1' => Value::High,
        b'x' | b'X' | b'z' | b'Z' => Value::Open,
        _ => Value::Other,
    }
}

/// Which command a word begins.
#[derive(Clone, Copy, PartialEq, Eq)]
pub(super) enum Keyword {
    /// `$end`.
    End,
    /// `$timescale`.
    Timescale,
    /// `$scope`.
    Scope,
    /// `$upscope`.
    Upscope,
    /// `$var`.
    Variable,
    /// `$enddefinitions`.
    Definitions,
    /// `$comment`.
    Comment,
    /// `$dumpvars`, `$dumpall`, `$dumpon` or `$dumpoff`.
    Mark,
    /// Any other word.
    Other,
}

/// Which command a word begins.
pub(super) fn keyword_of(word: &[u8]) -> Keyword {
    match word {
        b"$end" => Keyword::End,
        b"$timescale" => Keyword::Timescale,
        b"$scope" => Keyword::Scope,
        b"$upscope" => Keyword::Upscope,
        b"$var" => Keyword::Variable,
        b"$enddefinitions" => Keyword::Definitions,
        b"$comment" => Keyword::Comment,
        b"$dumpvars" | b"$dumpall" | b"$dumpon" | b"$dumpoff" => Keyword::Mark,
        _ => Keyword::Other,
    }
}

/// The parts of an instant that a timescale of this many of a unit is; `None` where it is none.
pub(super) fn scale_of(count: &[u8], unit: &[u8]) -> Option<u128> {
    let many = match count {
        [b'1'] => 1,
        [b'1', b'0'] => 10,
        [b'1', b'0', b'0'] => 100,
        _ => return None,
    };
    let each: u128 = match unit {
        [b's'] => 3_000_000_000_000_000_000_000_000,
        [b'm', b's'] => 3_000_000_000_000_000_000_000,
        [b'u', b's'] => 3_000_000_000_000_000_000,
        [b'n', b's'] => 3_000_000_000_000_000,
        [b'p', b's'] => 3_000_000_000_000,
        [b'f', b's'] => 3_000_000_000,
        _ => return None,
    };
    each.checked_mul(many)
}

/// The instant that digits write, in units of so many parts.
pub(super) fn instant_of(scale: u128, digits: &[u8]) -> Result<Instant, DumpFault> {
    let Some(number) = number_of(digits) else {
        return Err(DumpFault::BadTime);
    };
    let Some(parts) = number.checked_mul(scale) else {
        return Err(DumpFault::LongTime);
    };
    Instant::new(parts).ok_or(DumpFault::LongTime)
}

/// The number that digits write, or the greatest one where it is greater; `None` where a byte is no
/// digit, or there is none.
fn number_of(digits: &[u8]) -> Option<u128> {
    // Few digits are read faster.
    if let Some(few) = Time::read(digits) {
        return Some(u128::from(few.value()));
    }
    if digits.is_empty() {
        return None;
    }
    let mut number: u128 = 0;
    for c in digits {
        if !c.is_ascii_digit() {
            return None;
        }
        let digit = u128::from(c.saturating_sub(b'0'));
        number = number.saturating_mul(10).saturating_add(digit);
    }
    Some(number)
}
