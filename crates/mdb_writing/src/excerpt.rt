//! The first bytes of something, as they stand between quotes.

ghost use Rattle.std.specs.Prelude.{◌<◌};

use arrayvec::ArrayString;
use std::fmt;

/// So many bytes of a record tell where it stands.
const RECORD: usize = 48;

/// So many bytes of a word of a command line leave room for the rest of a line of 200.
const WORD: usize = 24;

/// Room for the most bytes, of which the last is told as `\x` and two digits, and for `..`.
const ROOM: usize = 56;

/// The first bytes of something, as they stand between quotes. `..` follows where it goes on.
///
/// `\` stands before `"` and before `\`. A byte that isn't printed is `\x` and two digits. So an
/// excerpt is a text of printable ASCII. It needs no memory.
#[derive(Drop)]
pub struct Excerpt {
    text: ArrayString<ROOM>,
    // So many bytes stand there, or up to three more where the last isn't printed.
    most: usize,
    // Whether a field stands there.
    has_field: bool,
    // Whether `..` stands there.
    is_cut: bool,
}

impl Excerpt {
    /// The excerpt of a record that has no field yet: 48 bytes, or up to three more.
    pub fn of_record() -> Excerpt {
        Excerpt::with(RECORD)
    }

    /// The excerpt of a word of a command line: 24 bytes, or up to three more.
    pub fn of_word(word: &str) -> Excerpt {
        let mut excerpt = Excerpt::with(WORD);
        excerpt.add(word.as_bytes());
        excerpt
    }

    /// An excerpt of so many bytes, of which none stands there yet.
    fn with(most: usize) -> Excerpt {
        Excerpt {
            text: ArrayString::new(),
            most,
            has_field: false,
            is_cut: false,
        }
    }

    /// Adds a field, after a comma if there is one before it.
    pub fn add_field(&mut self, field: &[u8]) {
        if self.has_field {
            self.add(b",");
        }
        self.has_field = true;
        self.add(field);
    }

    /// Adds bytes as far as there is room.
    fn add(&mut self, bytes: &[u8]) {
        for byte in bytes {
            if self.is_cut {
                return;
            }
            if self.text.len() < self.most {
                push_escaped(&mut self.text, *byte);
            } else {
                let _ = self.text.try_push_str("..");
                self.is_cut = true;
            }
        }
    }

    /// Whether something was left out.
    pub fn is_cut(&self) -> bool {
        self.is_cut
    }
}

impl fmt::Display for Excerpt {
    fn fmt<W: fmt::Write>(&self, f: &mut fmt::Formatter<W>) -> fmt::Result {
        f.write_str(self.text.as_str())
    }
}

/// Appends a byte as it stands between quotes.
fn push_escaped(text: &mut ArrayString<ROOM>, byte: u8) {
    match byte {
        b'"' | b'\\' => {
            let _ = text.try_push('\\');
            let _ = text.try_push(char::from(byte));
        }
        b' '..=b'~' => {
            let _ = text.try_push(char::from(byte));
        }
        _ => {
            let _ = text.try_push_str("\\x");
            let _ = text.try_push(digit(byte / 16));
            let _ = text.try_push(digit(byte % 16));
        }
    }
}

/// A hexadecimal digit.
fn digit(value: u8) -> char
    requires { value < 16 }
{
    if value < 10 {
        char::from(b'0' + value)
    } else {
        char::from(b'A' + (value - 10))
    }
}
