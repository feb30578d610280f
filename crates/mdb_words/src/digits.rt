//! Numbers as fields of digits, read and written.

ghost use Rattle.std.specs.Prelude.{◌≡◌, ◌+◌, ◌-◌, ◌%◌, ◌<◌, ◌≤◌, ◌^◌, ◌++◌, ℕ, length, take, [], ◌∷◌, true, IfSome, IfNone};
ghost use Rattle.std.specs.Fmt.{decimal, digit_glyph};
ghost use Rattle.std.specs.Option.{SomeIff};
ghost use Rattle.std.specs.Str.Parse.{AllDigits, digits_value};
ghost use Rattle.arrayvec.specs.ArrayString.{array_string_len};
ghost use Rattle.mdb_words.specs.Digits.{IsDecimal, IsHexWord};
ghost use Rattle.mdb_words.specs.inner.Counts.{IsCount, IsCounted, IsFront, IsTime};
ghost use Rattle.mdb_words.specs.RowsWritten.{hex_word};

use super::tables::{DECIMAL, HEX, POWERS};
use arrayvec::ArrayString;

/// The number of a field of 1 to 15 ASCII digits, with leading zeros allowed. `None` for any other
/// field.
#[inline(always)]
#[tactic(auto, using(crate::proofs::Numerals::decimal_below))]
pub fn whole_number(field: &[u8]) -> Option<u64>
    ensures some { IfSome result (IsDecimal 15 field.now) }
    ensures none { IfNone result ((n : ℕ) → IsDecimal 15 field.now n → ⊥) }
    ensures range { IfSome result (λ n. n < 10 ^ 15) }
{
    read_decimal(field, 15)
}

/// The number of a field of 1 to `most` decimal digits, leading zeros allowed; else `None`.
#[inline(always)]
#[tactic(auto, using(crate::proofs::Numerals::decimal_some, crate::proofs::Numerals::decimal_none))]
pub(crate) fn read_decimal(field: &[u8], most: usize) -> Option<u64>
    requires { most ≤ 15 }
    ensures some { IfSome result (IsDecimal most field.now) }
    ensures none { IfNone result ((n : ℕ) → IsDecimal most field.now n → ⊥) }
{
    if field.is_empty() || field.len() > most {
        return None;
    }
    number_of(field)
}

/// The number of a field of 1 to 18 decimal digits, leading zeros allowed; else `None`.
#[inline(always)]
#[tactic(auto, using(crate::proofs::Numerals::time_some, crate::proofs::Numerals::time_none))]
pub(crate) fn read_time(field: &[u8]) -> Option<u64>
    ensures some { IfSome result (IsDecimal 18 field.now) }
    ensures none { IfNone result ((n : ℕ) → IsDecimal 18 field.now n → ⊥) }
{
    time_of(field)
}

/// The number of 1 to 18 decimal digits; `None` where there are none or more, or a byte is no
/// digit. The test that more than 15 need is also that for none, so fewer cost no further step.
#[inline(always)]
fn time_of(digits: &[u8]) -> Option<u64>
    ensures { SomeIff result (IsTime digits.now) (digits_value 10 digits.now) }
{
    let (high, rest) = if digits.is_empty() || digits.len() > 15 {
        (front_of(digits)?, &digits[digits.len() - 7..])
    } else if digits.len() < 8 {
        (0, digits)
    } else {
        (number_of_few(&digits[..8])?, &digits[8..])
    };
    let low = number_of_few(rest)?;
    Some(high * POWERS[rest.len()] + low)
}

/// The number of the digits before the last seven, where there are 16 to 18 bytes; `None` where
/// there are others, or one of these is no digit. This is kept out of the way of shorter times.
#[inline(never)]
fn front_of(digits: &[u8]) -> Option<u64>
    ensures { SomeIff result (IsFront digits.now (take (length digits.now - 7) digits.now))
        (digits_value 10 (take (length digits.now - 7) digits.now)) }
{
    if digits.len() < 16 || digits.len() > 18 {
        return None;
    }
    number_of(&digits[..digits.len() - 7])
}

/// The number of decimal digits; `None` where a byte is no digit. The first eight are read apart,
/// where there are as many.
#[inline(always)]
fn number_of(digits: &[u8]) -> Option<u64>
    requires { length digits.now ≤ 15 }
    ensures { SomeIff result (AllDigits 10 digits.now) (digits_value 10 digits.now) }
{
    let (high, rest) = if digits.len() < 8 {
        (0, digits)
    } else {
        (number_of_few(&digits[..8])?, &digits[8..])
    };
    let low = number_of_few(rest)?;
    Some(high * POWERS[rest.len()] + low)
}

/// The number of up to eight decimal digits; `None` where a byte is no digit.
#[inline(always)]
fn number_of_few(digits: &[u8]) -> Option<u64>
    requires { length digits.now ≤ 8 }
    ensures { SomeIff result (AllDigits 10 digits.now) (digits_value 10 digits.now) }
{
    let count = decimal_count(digits);
    // A byte that is no digit makes this 100,000,000 or more.
    if count < 100_000_000 {
        Some(u64::from(count))
    } else {
        None
    }
}

/// What up to eight bytes count together, each as the decimal digit at its place.
#[inline(always)]
fn decimal_count(digits: &[u8]) -> u32
    requires { length digits.now ≤ 8 }
    ensures { IsCounted digits.now result }
{
    match *digits {
        [] => 0,
        [h] => decimal(0, h),
        [g, h] => decimal(1, g) + decimal(0, h),
        [f, g, h] => decimal(2, f) + decimal(1, g) + decimal(0, h),
        [e, f, g, h] => decimal(3, e) + decimal(2, f) + decimal(1, g) + decimal(0, h),
        [d, e, f, g, h] => {
            decimal(4, d) + decimal(3, e) + decimal(2, f) + decimal(1, g) + decimal(0, h)
        }
        [c, d, e, f, g, h] => {
            let high = decimal(5, c) + decimal(4, d);
            high + decimal(3, e) + decimal(2, f) + decimal(1, g) + decimal(0, h)
        }
        [b, c, d, e, f, g, h] => {
            let high = decimal(6, b) + decimal(5, c) + decimal(4, d);
            high + decimal(3, e) + decimal(2, f) + decimal(1, g) + decimal(0, h)
        }
        [a, b, c, d, e, f, g, h] => {
            let high = decimal(7, a) + decimal(6, b) + decimal(5, c) + decimal(4, d);
            high + decimal(3, e) + decimal(2, f) + decimal(1, g) + decimal(0, h)
        }
        _ => unreachable!(),
    }
}

/// What a byte counts as the decimal digit at a place, the ones at place 0.
#[inline(always)]
fn decimal(place: usize, byte: u8) -> u32
    requires { place < 8 }
    ensures count { IsCount 10 100000000 place byte result }
    ensures bound { result ≤ 100000000 }
{
    DECIMAL[place][usize::from(byte)]
}

/// The number of a field of three hexadecimal digits of either case, up to 1FF; else `None`.
#[inline(always)]
pub(crate) fn read_hex_word(field: &[u8]) -> Option<u16>
    ensures some { IfSome result (IsHexWord field.now) }
    ensures none { IfNone result ((word : ℕ) → IsHexWord field.now word → ⊥) }
{
    let &[high, middle, low] = field else {
        return None;
    };
    // The count of a byte that is no digit makes this 512 or more.
    let word = hexadecimal(2, high) + hexadecimal(1, middle) + hexadecimal(0, low);
    if word < 512 { Some(word as u16) } else { None }
}

/// What a byte counts as the hexadecimal digit, of either case, at a place, the ones at place 0.
#[inline(always)]
fn hexadecimal(place: usize, byte: u8) -> u32
    requires { place < 3 }
    ensures count { IsCount 16 512 place byte result }
    ensures bound { result ≤ 3840 }
{
    HEX[place][usize::from(byte)]
}

/// Appends a number in decimal, without leading zeros.
pub(crate) fn push_decimal(text: &mut ArrayString<32>, number: u64)
    requires { array_string_len text.old + length (decimal number) ≤ 32 }
    ensures { text.new.bytes ≡ text.old.bytes ++ decimal number }
{
    if number >= 10 {
        push_decimal(text, number / 10);
    }
    push_digit(text, (number % 10) as u8);
}

/// Appends a word below 512 in three upper case hexadecimal digits.
pub(crate) fn push_hex_word(text: &mut ArrayString<32>, word: u16)
    requires word { word < 512 }
    requires room { array_string_len text.old + 3 ≤ 32 }
    ensures { text.new.bytes ≡ text.old.bytes ++ hex_word word }
{
    push_digit(text, (word / 256) as u8);
    push_digit(text, (word / 16 % 16) as u8);
    push_digit(text, (word % 16) as u8);
}

/// Appends a digit below 16, from ten on an upper case letter.
fn push_digit(text: &mut ArrayString<32>, digit: u8)
    requires digit { digit < 16 }
    requires room { array_string_len text.old < 32 }
    ensures { text.new.bytes ≡ text.old.bytes ++ digit_glyph true digit ∷ [] }
{
    let byte = if digit < 10 {
        b'0' + digit
    } else {
        b'A' + (digit - 10)
    };
    text.push(char::from(byte));
}
