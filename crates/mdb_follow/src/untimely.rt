//! Rows out of their time, where a profile counts them.

ghost use Rattle.std.specs.Prelude.{◌≡◌, ◌^◌, List};
ghost use Rattle.std.specs.Option.{ForSome};
ghost use Rattle.mdb_bus.specs.ActLists.{Piece};
ghost use Rattle.mdb_bus.specs.Bus.{StandsFor, scope_of};
ghost use Rattle.mdb_bus.specs.ExtendedTimes as times;
ghost use Rattle.mdb_follow.specs.Counted.{counted_with};

use mdb_bus::{Blame, Bus, Untimely};
use mdb_words::Event;

/// Who sends a row out of its time, if it is the next on a bus and out of the base profile's times,
/// and if such rows are counted.
#[inline(always)]
pub fn untimely_sender(counts: &Option<Untimely>, bus: &Bus, event: &Event) -> Option<Blame>
    ensures { (pieces : List Piece) → StandsFor bus.now pieces
        → counted_with result counts.now
        ≡ counted_with (times.untimely_sender (scope_of bus.now) pieces event.now) counts.now }
{
    match counts {
        None => None,
        Some(_) => bus.untimely_sender(event),
    }
}

/// Counts a row of a sender, if it came out of its time and such rows are counted.
#[inline(always)]
pub fn note_untimely(counts: &mut Option<Untimely>, sender: Option<Blame>)
    requires { ForSome counts.old (times.AreFew (2 ^ 63)) }
    ensures { counts.new ≡ counted_with sender counts.old }
{
    if let Some(counts) = counts {
        counts.note(sender);
    }
}
