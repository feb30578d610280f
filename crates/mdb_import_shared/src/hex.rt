//! Hexadecimal digits.

/// What stands after `0x` or `0X`; `None` where a field begins with neither.
pub fn behind_prefix(field: &[u8]) -> Option<&[u8]> {
    match field {
        [b'0', b'x' | b'X', digits @ ..] => Some(digits),
        _ => None,
    }
}

/// The number of 1 to 4 hexadecimal digits of either case; `None` where they are none.
pub fn read_hex(digits: &[u8]) -> Option<u16> {
    if digits.is_empty() || digits.len() > 4 {
        return None;
    }
    let mut number: u16 = 0;
    for c in digits {
        let digit = digit_of(*c)?;
        number = number.checked_mul(16)?.checked_add(u16::from(digit))?;
    }
    Some(number)
}

/// What a byte counts as a hexadecimal digit of either case; `None` where it is none.
fn digit_of(c: u8) -> Option<u8> {
    match c {
        b'0'..=b'9' => Some(c - b'0'),
        b'A'..=b'F' => Some(c - b'A' + 10),
        b'a'..=b'f' => Some(c - b'a' + 10),
        _ => None,
    }
}
