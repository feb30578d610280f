//! Rows out of their time.

ghost use Rattle.std.specs.Prelude.{◌≡◌, ◌^◌};
ghost use Rattle.mdb_bus.specs.Bus.{position_at};
ghost use Rattle.mdb_bus.specs.ExtendedTimes as spec;

use super::fault::Blame;
use super::gaps::{is_later_than, is_sooner_than};
use super::phase::Phase;
use super::place::Place;
use super::scope::Profile;
use mdb_words::{ANSWER_GAP_MAX, BLOCK_GAP_MAX, BREAK_LENGTH_MIN, Event, Line};

/// How many rows came out of their time, by who sent them (this profile). By the extended profile
/// such a row is no offence.
#[derive(Clone, Copy, PartialEq, Eq, Debug)]
pub struct Untimely {
    /// Rows of the controller.
    pub controller: u64,
    /// Rows of the coin changer.
    pub changer: u64,
    /// Rows of the bill validator.
    pub bill: u64,
    /// Rows of the reader at 10H.
    pub cashless: u64,
    /// Rows of the reader at 60H.
    pub cashless2: u64,
}

impl Untimely {
    /// No row.
    pub const NONE: Untimely = Untimely {
        controller: 0,
        changer: 0,
        bill: 0,
        cashless: 0,
        cashless2: 0,
    };

    /// What is counted as a recording begins, by a profile: nothing by the base profile.
    pub fn start(profile: Profile) -> Option<Untimely>
        ensures { result ≡ spec.counted_for profile spec.no_untimely }
    {
        match profile {
            Profile::Base => None,
            Profile::Extended => Some(Untimely::NONE),
        }
    }

    /// Counts a row of a sender, if it came out of its time.
    pub fn note(&mut self, sender: Option<Blame>)
        requires { spec.AreFew (2 ^ 63) self.old }
        ensures { self.new ≡ spec.with_sender sender self.old }
    {
        match sender {
            None | Some(Blame::Other) => {}
            Some(Blame::Controller) => self.controller += 1,
            Some(Blame::Changer) => self.changer += 1,
            Some(Blame::Bill) => self.bill += 1,
            Some(Blame::Cashless) => self.cashless += 1,
            Some(Blame::Cashless2) => self.cashless2 += 1,
        }
    }
}

/// Whether a row breaks a limit of the base profile, at a place that it may come at by the extended
/// profile.
pub(crate) fn is_untimely(place: &Place, last: &Option<Event>, row: &Event) -> bool
    ensures { result ≡ spec.is_untimely (position_at place.now) last.now row.now }
{
    match *row {
        Event::Break { length, .. } => length.value() < BREAK_LENGTH_MIN,
        Event::Word { line, word, .. } => match place.phase {
            Phase::InAsk | Phase::InReply | Phase::InRepeat(_) => {
                is_later_than(last, row, BLOCK_GAP_MAX)
            }
            Phase::Asked | Phase::Returned if line == Line::Peripheral => {
                is_later_than(last, row, ANSWER_GAP_MAX)
            }
            Phase::Replied if line == Line::Controller && !word.marked() => {
                is_later_than(last, row, ANSWER_GAP_MAX)
            }
            phase if line == Line::Controller => {
                is_sooner_than(last, row, Profile::Base.block_rest(phase, last))
            }
            _ => false,
        },
    }
}
