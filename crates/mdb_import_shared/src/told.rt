//! What an import reports.

use super::part::{Part, Side};
use super::places::Places;
use super::rest::LowAtRest;
use mdb_words::{Event, Line};

/// What an import reports in addition to the rows. What its format doesn't have is 0, or none.
#[derive(Debug, Drop)]
pub struct Imported {
    /// Whether the first record was a header.
    pub header: bool,
    /// How often midnight passed between times of day.
    pub midnights: u64,
    /// The number of rows that were written. Where it is 0, nothing was: refuse the export then.
    pub rows: u64,
    /// The microseconds of the earliest and of the latest row, in the part or not, if there is one.
    pub ends: Option<(u64, u64)>,
    /// The number of rows that were left out, because they are before the part that was asked for.
    pub before: u64,
    /// The number of rows that were left out, because they are after it.
    pub after: u64,
    /// How many records outside the part were passed over that are no rows that may stand there.
    pub passed: u64,
    /// Whether a word had its mode bit set, in the part or not.
    pub marked: bool,
    /// Whether the controller sent a word, in the part or not.
    pub controller: bool,
    /// Whether a peripheral sent a word, in the part or not.
    pub peripheral: bool,
    /// Where a line was low for half a bit at most, and no start bit began: in the part or not.
    pub pulses: Places,
    /// Where a damaged word began that was left out: in the part or not.
    pub damaged: Places,
    /// The line that is read upside down, though no option says so.
    pub turned: Option<Line>,
    /// A line of which damaged words were left out, if it is low at rest.
    pub low: Option<LowAtRest>,
    /// Of a log, how many messages begin later than it says, and by how many microseconds at most.
    pub moved: Option<(u64, u64)>,
}

impl Imported {
    /// Before the first row.
    pub fn new() -> Imported {
        Imported {
            header: false,
            midnights: 0,
            rows: 0,
            ends: None,
            before: 0,
            after: 0,
            passed: 0,
            marked: false,
            controller: false,
            peripheral: false,
            pulses: Places::new(),
            damaged: Places::new(),
            turned: None,
            low: None,
            moved: None,
        }
    }

    /// Counts the row of an event, and answers whether it is in the part that is asked for.
    pub fn count(&mut self, part: Part, event: &Event) -> bool {
        if let Event::Word { line, word, .. } = *event {
            self.marked = self.marked || word.marked();
            match line {
                Line::Controller => self.controller = true,
                Line::Peripheral => self.peripheral = true,
            }
        }
        let at = event.start().value();
        self.ends = match self.ends {
            Some((first, last)) => Some((first.min(at), last.max(at))),
            None => Some((at, at)),
        };
        let side = part.side_of(at);
        match side {
            Side::Before => self.before = self.before.saturating_add(1),
            Side::After => self.after = self.after.saturating_add(1),
            Side::Within => self.rows = self.rows.saturating_add(1),
        }
        side == Side::Within
    }
}
