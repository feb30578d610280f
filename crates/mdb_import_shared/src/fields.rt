//! Fields, and their parts.

/// What stands before the first such byte of a text, and what after it; `None` where there is none.
pub fn parted(text: &[u8], byte: u8) -> Option<(&[u8], &[u8])> {
    for at in 0..text.len() {
        if text[at] == byte {
            return Some((&text[..at], &text[at + 1..]));
        }
    }
    None
}

/// What separates the fields of a row: a tab if there is one, else a semicolon, else a comma.
pub fn separator_of(line: &[u8]) -> u8 {
    if line.contains(&b'\t') {
        b'\t'
    } else if line.contains(&b';') {
        b';'
    } else {
        b','
    }
}

/// The first three fields of a row, bare, and whether it has more; `None` where it has fewer.
pub fn three_of(line: &[u8]) -> Option<(&[u8], &[u8], &[u8], bool)> {
    let separator = separator_of(line);
    let (first, after) = parted(line, separator)?;
    let (second, third) = parted(after, separator)?;
    match parted(third, separator) {
        Some((third, _)) => Some((bare(first), bare(second), bare(third), true)),
        None => Some((bare(first), bare(second), bare(third), false)),
    }
}

/// A field without the blanks and quotation marks around it.
pub fn bare(field: &[u8]) -> &[u8] {
    let mut rest = field;
    for _ in 0..field.len() {
        match rest {
            [b' ' | b'"', inner @ ..] => rest = inner,
            [inner @ .., b' ' | b'"'] => rest = inner,
            _ => break,
        }
    }
    rest
}
