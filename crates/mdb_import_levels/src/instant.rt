//! Instants at which levels are known.

ghost use Rattle.std.specs.Prelude.{◌+◌, ◌<◌};

use mdb_words::{Span, Time};

/// What a microsecond has of the parts in which time is counted: thirds of 10^-24 of a second.
const MICRO: u128 = 3_000_000_000_000_000_000;

/// The half of that.
const HALF_MICRO: u128 = 1_500_000_000_000_000_000;

/// So many parts are more than any instant.
const END: u128 = 3_000_000_000_000_000_000_000_000_000_000_000_000;

/// An instant: thirds of 10^-24 of a second since the recording's zero, in whole microseconds below
/// 10^18.
#[derive(Clone, Copy)]
pub(crate) struct Instant {
    parts: u128,
    ghost below: { parts + 1500000000000000000 < 3000000000000000000000000000000000000 },
}

impl Instant {
    /// The recording's zero.
    pub(crate) fn zero() -> Instant {
        Instant { parts: 0 }
    }

    /// The instant of this many parts; `None` where it has more than 18 digits of microseconds.
    pub(crate) fn new(parts: u128) -> Option<Instant> {
        if parts < END - HALF_MICRO {
            Some(Instant { parts })
        } else {
            None
        }
    }

    /// The parts.
    pub(crate) fn parts(self) -> u128
        ensures { result < 3000000000000000000000000000000000000 }
    {
        self.parts
    }

    /// The nearest whole microsecond; a half goes up.
    pub(crate) fn time(self) -> Time {
        Time::new(((self.parts + HALF_MICRO) / MICRO) as u64).unwrap()
    }

    /// How long it is to a later instant, rounded once; `None` where it is longer than a length can
    /// be.
    pub(crate) fn until(self, later: Instant) -> Option<Span> {
        let parts = later.parts.saturating_sub(self.parts);
        Span::new(((parts + HALF_MICRO) / MICRO) as u64)
    }
}
