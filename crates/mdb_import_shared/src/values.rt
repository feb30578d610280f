//! The words of rows, as people write them.

use super::fault::RecordFault;
use super::hex::{behind_prefix, read_hex};
use mdb_words::{Time, Word};

/// The word that a field tells: in hexadecimal digits, perhaps with a `0x` before or an `h` after
/// them, or in decimal ones. A `*` before or after that says that its mode bit is set.
///
/// # Errors
///
/// It tells none: `BadWord`, `DecimalWord` or `BadDecimal`.
pub fn read_word(is_decimal: bool, field: &[u8]) -> Result<Word, RecordFault> {
    let (digits, mark) = match field {
        [b'*', digits @ ..] => (digits, 0x100),
        [digits @ .., b'*'] => (digits, 0x100),
        _ => (field, 0),
    };
    let number = match is_decimal {
        true => read_decimal(digits),
        false => read_hex(undressed(digits)),
    };
    match number {
        Some(number) if number < 512 - mark => {
            Word::new(number | mark).ok_or(RecordFault::BadWord)
        }
        _ if is_decimal => Err(RecordFault::BadDecimal),
        _ if is_likely_decimal(field) => Err(RecordFault::DecimalWord),
        _ => Err(RecordFault::BadWord),
    }
}

/// Hexadecimal digits without the `0x` before or the `h` after them.
fn undressed(field: &[u8]) -> &[u8] {
    match (behind_prefix(field), field) {
        (Some(digits), _) => digits,
        (None, [digits @ .., b'h' | b'H']) => digits,
        _ => field,
    }
}

/// The number of 1 to 3 decimal digits; `None` where they are none.
pub fn read_decimal(digits: &[u8]) -> Option<u16> {
    if digits.len() > 3 {
        return None;
    }
    u16::try_from(Time::read(digits)?.value()).ok()
}

/// Whether a field has decimal digits alone, and tells a word that has its mode bit set, or nearly
/// so: as hexadecimal digits they are none.
fn is_likely_decimal(field: &[u8]) -> bool {
    match Time::read(field) {
        Some(number) => number.value() >= 200 && number.value() < 512,
        None => false,
    }
}
