//! The names of lines.

use mdb_words::Line;

/// The letter of a line.
pub fn letter_of(line: &Line) -> &'static str {
    match line {
        Line::Controller => "M",
        Line::Peripheral => "S",
    }
}

/// Whether a field is one of two letters or, where there is one, a name.
pub fn is_named(field: &[u8], capital: u8, small: u8, name: &Option<String>) -> bool {
    if is_letter(field, capital, small) {
        return true;
    }
    match name {
        Some(name) => name.as_bytes() == field,
        None => false,
    }
}

/// Whether a field is one of two letters.
pub fn is_letter(field: &[u8], capital: u8, small: u8) -> bool {
    match field {
        [letter] => *letter == capital || *letter == small,
        _ => false,
    }
}
