//! Words on a line of the bus.

ghost use Rattle.std.specs.Prelude.{◌≡◌, ◌%◌, ◌<◌, ◌≤◌, ◌↔◌, ℕ, IsTrue, IfSome, IfNone};
ghost use Rattle.std.specs.Option.{SomeIff};
ghost use Rattle.mdb_words.specs.Digits.{IsHexWord};

use super::digits::read_hex_word;
use std::marker::Model;

/// A line of the bus: that on which the controller (VMC) sends, or that of all peripherals.
#[derive(Clone, Copy, PartialEq, Eq, Debug)]
pub enum Line {
    /// The controller's line, `M` in a row.
    Controller,
    /// The peripherals' line, `S` in a row.
    Peripheral,
}

/// A word, 0 to 511: eight data bits, and the mode bit as the ninth (MDB/ICP 4.3, bus format).
///
/// A clause sees it as that number.
#[derive(Clone, Copy, PartialEq, Eq, Debug)]
pub struct Word {
    value: u16,
}

impl Model for Word {
    ghost use Rattle.std.specs.Prelude.{ℕ, ◌<◌};

    ghost Value = { ℕ };

    ghost view = { λ w. w.value };

    ghost invariant = { λ w. w.value < 512 };

    ghost inverse = { λ n. record { value = n } };
}

impl Word {
    /// The word of this value. `None` unless it is below 512.
    pub fn new(value: u16) -> Option<Word>
        ensures { SomeIff result (value < 512) value }
    {
        if value < 512 {
            Some(Word { value })
        } else {
            None
        }
    }

    /// The word that a field of exactly three hexadecimal digits of either case tells, up to 1FF;
    /// else `None`.
    pub(crate) fn read(field: &[u8]) -> Option<Word>
        ensures some { IfSome result (IsHexWord field.now) }
        ensures none { IfNone result ((word : ℕ) → IsHexWord field.now word → ⊥) }
    {
        let value = read_hex_word(field)?;
        Some(Word { value })
    }

    /// The nine bits as a number.
    pub(crate) fn value(self) -> u16
        ensures value { result ≡ self }
        ensures range { self < 512 }
    {
        self.value
    }

    /// The 8 data bits.
    pub fn byte(self) -> u8
        ensures value { result ≡ self % 256 }
        ensures range { self < 512 }
    {
        (self.value % 256) as u8
    }

    /// Whether the mode bit is set.
    pub fn marked(self) -> bool
        ensures value { IsTrue result ↔ (256 ≤ self) }
        ensures range { self < 512 }
    {
        self.value >= 256
    }
}
