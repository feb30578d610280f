//! The options of an import.

use super::part::Part;
use mdb_words::{Line, Span};

/// The options of an import. One that its format doesn't have is ignored.
#[derive(Debug, Drop)]
pub struct Options {
    /// The unit of the times. `None` if none was given: then the times of edges are seconds, and
    /// no time of rows or of a log may be a number.
    pub unit: Option<Unit>,
    /// The name of the controller's line in the export, in a dump also its path. `M` and `m` name
    /// that line too; in edges and dumps only if this is `None`.
    pub controller: Option<String>,
    /// The name of the peripherals' line, likewise, with `S` and `s`.
    pub peripheral: Option<String>,
    /// The part that is asked for.
    pub part: Part,
    /// Whether words are decimal numbers.
    pub decimal: bool,
    /// Which word of a message the time of its line is that of.
    pub time_of: TimeOf,
    /// The length of each break of a table that doesn't contain it, in microseconds. `None`: a
    /// break is refused.
    pub break_length: Option<Span>,
    /// Which lines are read upside down.
    pub inverted: Inverted,
    /// Whether damaged words are left out: those without a stop bit that are no break. If not, the
    /// first of them is refused.
    pub skip_damaged: bool,
    /// Whether the channel `RX` of a trace is the controller's line, and `TX` that of the devices.
    pub swap: bool,
}

/// A unit of time.
#[derive(Clone, Copy, PartialEq, Eq, Debug)]
pub enum Unit {
    /// Seconds.
    Seconds,
    /// Milliseconds.
    Milliseconds,
    /// Microseconds.
    Microseconds,
    /// Nanoseconds.
    Nanoseconds,
}

/// A word of a message.
#[derive(Clone, Copy, PartialEq, Eq, Debug)]
pub enum TimeOf {
    /// The first.
    First,
    /// The last.
    Last,
}

/// Which lines are read upside down, so that 0 is high.
#[derive(Clone, Copy, Debug)]
pub struct Inverted {
    /// The controller's line.
    pub controller: bool,
    /// The peripherals' line.
    pub peripheral: bool,
}

impl Inverted {
    /// Whether a line is one of them.
    #[inline(always)]
    pub fn has(self, line: Line) -> bool {
        match line {
            Line::Controller => self.controller,
            Line::Peripheral => self.peripheral,
        }
    }
}
