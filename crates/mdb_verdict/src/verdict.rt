//! The records of a recording, and the verdict on rows that were followed.

ghost use Rattle.std.specs.Prelude.{◌≡◌, ◌<◌, ◌≤◌, List, IfSome, None, length};
ghost use Rattle.csv.specs.Reading.{default_config, records, strip_bom};
ghost use Rattle.mdb_records.specs.ToCome.{IsOverLimit, IsUncut, ToCome, fault_of, limit_of};
ghost use Rattle.mdb_verdict.specs.Ending.{IsYes};
ghost use Rattle.mdb_follow.specs.Follower.{StandsFor, scope_of};
ghost use Rattle.mdb_words.specs.declared.event.Event.{Event};

use mdb_follow::Follower;
use mdb_records::Records;
use mdb_text::Outcome;
use std::alloc::Global;
use std::io::Read;

/// The most bytes that an input may have (this profile).
pub const BYTES_MAX: u64 = 6_400_000_000;

/// The records of the text that a reader has left, up to so many bytes and no less.
pub fn records_of<R: Read + Drop>(alloc: Global, reader: R, bytes_max: u64) -> Records<R>
    ensures records { IfSome (R.remaining reader) (λ text.
        ToCome R.remaining result (records default_config (strip_bom text))) }
    ensures over { IfSome (R.remaining reader) (λ text.
        bytes_max < length text → IsOverLimit R.remaining result) }
    ensures within { IfSome (R.remaining reader) (λ text.
        length text ≤ bytes_max → IsUncut R.remaining result (strip_bom text)) }
    ensures going { fault_of result ≡ None }
    ensures limit { limit_of result ≡ bytes_max }
{
    Records::new(alloc, reader, bytes_max)
}

/// What the rows that a follower has taken come to.
pub fn outcome_of(follower: &Follower) -> Outcome
    ensures { (rows : List Event) → StandsFor follower.now rows
        → IsYes (scope_of follower.now) rows result }
{
    match follower.report() {
        Ok(report) => Outcome::Yes(report),
        Err(offence) => Outcome::No(offence),
    }
}
