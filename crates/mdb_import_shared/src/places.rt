//! Where something was passed over.

ghost use Rattle.std.specs.Prelude.{◌≤◌};
ghost use Rattle.arrayvec.specs.ArrayVec.{array_vec_len};

use arrayvec::ArrayVec;
use mdb_words::{Line, Time};

/// How many places are told one by one.
const TOLD: usize = 5;

/// Where something was passed over.
#[derive(Clone, Copy, PartialEq, Eq, Debug)]
pub struct Place {
    /// When it began.
    pub at: Time,
    /// On which line.
    pub line: Line,
}

impl Default for Place {
    fn default() -> Place {
        Place {
            at: Time::new(0).unwrap(),
            line: Line::Controller,
        }
    }
}

impl Place {
    /// Whether it comes before another one: it is earlier, or at one time with it, and on the
    /// controller's line, and the other one isn't.
    fn is_before(&self, other: &Place) -> bool {
        if self.at.value() == other.at.value() {
            self.line == Line::Controller && other.line == Line::Peripheral
        } else {
            self.at.value() < other.at.value()
        }
    }
}

/// How many places there are, and the first five of them by their times.
#[derive(Drop, Debug)]
pub struct Places {
    count: u64,
    first: ArrayVec<Place, TOLD>,
}

impl Places {
    /// None.
    pub fn new() -> Places {
        Places {
            count: 0,
            first: ArrayVec::new(),
        }
    }

    /// Adds a place. Places may be added in any order.
    pub fn note(&mut self, place: Place) {
        self.count = self.count.saturating_add(1);
        let slot = self.slot_of(&place);
        if self.first.len() < TOLD {
            self.first.insert(slot, place);
        } else if slot < TOLD {
            self.first.pop();
            self.first.insert(slot, place);
        }
    }

    /// Adds all places of another line.
    pub fn add(&mut self, others: &Places) {
        let count = self.count.saturating_add(others.count);
        for place in others.first() {
            self.note(*place);
        }
        self.count = count;
    }

    /// How many there are, where 2^64 - 1 stands for more too.
    pub fn count(&self) -> u64 {
        self.count
    }

    /// The first five by their times, or all where there are fewer. At one time the one on the
    /// controller's line comes first.
    pub fn first(&self) -> &[Place] {
        self.first.as_slice()
    }

    /// How many of those that are kept don't come after a place.
    fn slot_of(&self, place: &Place) -> usize
        ensures { result ≤ array_vec_len self.now.first }
    {
        let kept = self.first.as_slice();
        for slot in 0..kept.len() {
            if place.is_before(&kept[slot]) {
                return slot;
            }
        }
        kept.len()
    }
}
