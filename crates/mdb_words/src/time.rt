//! Times and lengths of time, in microseconds.

ghost use Rattle.std.specs.Prelude.{◌≡◌, ◌^◌, ◌<◌, ℕ, IfSome, IfNone};
ghost use Rattle.std.specs.Option.{SomeIff};
ghost use Rattle.mdb_words.specs.Digits.{IsDecimal};

use super::digits::{read_decimal, read_time};
use std::marker::Model;

/// When an event started: microseconds since the recorder's zero, below 10^18.
///
/// A clause sees it as that number.
#[derive(Clone, Copy, PartialEq, Eq, PartialOrd, Ord, Debug)]
pub struct Time {
    micros: u64,
}

impl Model for Time {
    ghost use Rattle.std.specs.Prelude.{ℕ, ◌<◌, ◌^◌};

    ghost Value = { ℕ };

    ghost view = { λ t. t.micros };

    ghost invariant = { λ t. t.micros < 10 ^ 18 };

    ghost inverse = { λ n. record { micros = n } };
}

impl Time {
    /// The time of this many microseconds. `None` unless they are below 10^18.
    pub fn new(micros: u64) -> Option<Time>
        ensures { SomeIff result (micros < 10 ^ 18) micros }
    {
        if micros < 1_000_000_000_000_000_000 {
            Some(Time { micros })
        } else {
            None
        }
    }

    /// Reads a field of 1 to 18 ASCII digits, with leading zeros allowed. `None` for any other
    /// field (this profile).
    #[inline(always)]
    pub fn read(field: &[u8]) -> Option<Time>
        ensures some { IfSome result (IsDecimal 18 field.now) }
        ensures none { IfNone result ((n : ℕ) → IsDecimal 18 field.now n → ⊥) }
    {
        let micros = read_time(field)?;
        Some(Time { micros })
    }

    /// The microseconds.
    pub fn value(self) -> u64
        ensures value { result ≡ self }
        ensures range { self < 10 ^ 18 }
    {
        self.micros
    }
}

/// How long a break lasted: microseconds, below 10^9.
///
/// A clause sees it as that number.
#[derive(Clone, Copy, PartialEq, Eq, PartialOrd, Ord, Debug)]
pub struct Span {
    micros: u64,
}

impl Model for Span {
    ghost use Rattle.std.specs.Prelude.{ℕ, ◌<◌, ◌^◌};

    ghost Value = { ℕ };

    ghost view = { λ s. s.micros };

    ghost invariant = { λ s. s.micros < 10 ^ 9 };

    ghost inverse = { λ n. record { micros = n } };
}

impl Span {
    /// The length of this many microseconds. `None` unless they are below 10^9.
    pub fn new(micros: u64) -> Option<Span>
        ensures { SomeIff result (micros < 10 ^ 9) micros }
    {
        if micros < 1_000_000_000 {
            Some(Span { micros })
        } else {
            None
        }
    }

    /// The length that a field of exactly 1 to 9 ASCII digits tells, leading zeros allowed; else
    /// `None`.
    pub(crate) fn read(field: &[u8]) -> Option<Span>
        ensures some { IfSome result (IsDecimal 9 field.now) }
        ensures none { IfNone result ((n : ℕ) → IsDecimal 9 field.now n → ⊥) }
    {
        let micros = read_decimal(field, 9)?;
        Some(Span { micros })
    }

    /// The microseconds.
    pub fn value(self) -> u64
        ensures value { result ≡ self }
        ensures range { self < 10 ^ 9 }
    {
        self.micros
    }
}
