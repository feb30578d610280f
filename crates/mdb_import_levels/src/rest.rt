//! The level of a line at rest.

use crate::instant::Instant;

/// So many parts of an instant are 11 bits: a word. A longer level is a long one.
const LONG: u128 = 3_437_500_000_000_000_000_000;

/// How many long levels a line had, from the first time that it was high to its last change.
#[derive(Clone, Copy)]
pub(crate) struct Rest {
    // Whether it is high.
    is_high: bool,
    // Its last change; `None` before the line is high for the first time.
    since: Option<Instant>,
    // How many high ones, and how many low ones.
    high: u64,
    low: u64,
}

impl Rest {
    /// Before the line's first level.
    pub(crate) fn new() -> Rest {
        Rest {
            is_high: false,
            since: None,
            high: 0,
            low: 0,
        }
    }

    /// Takes the level that the line has from an instant on.
    #[inline(always)]
    pub(crate) fn take(&mut self, at: Instant, is_high: bool) {
        if is_high != self.is_high {
            self.turn(at);
        }
    }

    /// Notes that the line has the other level from an instant on.
    fn turn(&mut self, at: Instant) {
        let is_long = self
            .since
            .is_some_and(|since| at.parts().saturating_sub(since.parts()) > LONG);
        match (is_long, self.is_high) {
            (false, _) => {}
            (true, true) => self.high = self.high.saturating_add(1),
            (true, false) => self.low = self.low.saturating_add(1),
        }
        self.since = Some(at);
        self.is_high = !self.is_high;
    }

    /// Whether two low levels or more were long, and more than high ones.
    pub(crate) fn is_low(&self) -> bool {
        self.low > self.high.max(1)
    }

    /// Whether two high levels or more were long, and more than low ones.
    pub(crate) fn is_high(&self) -> bool {
        self.high > self.low.max(1)
    }
}
