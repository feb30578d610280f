//! Rows that are followed, and kept.

ghost use Rattle.std.specs.Prelude.{◌≡◌, length};
ghost use Rattle.mdb_bus.specs.Scopes as scopes;

use mdb_bus::{Profile, Scope};
use mdb_follow::{Follower, Offence};
use mdb_msgs::DeviceSet;
use mdb_verdict::{RunFault, TakeRows};
use mdb_words::Event;
use std::alloc::Global;

/// A follower, and the rows that it has taken.
#[derive(Drop)]
pub(crate) struct Keeping {
    pub(crate) follower: Follower,
    pub(crate) rows: Vec<Event>,
}

impl Keeping {
    ghost use Rattle.std.specs.Prelude.{[], List, ◌<◌};
    ghost use Rattle.mdb_words.specs.declared.event.Event.{Event};
    ghost use Rattle.mdb_bus.specs.declared.scope.Scope.{Scope};
    ghost use Rattle.mdb_follow.specs.declared.follower.TheConstants.{ROWS_MAX};
    ghost use Rattle.mdb_follow.specs.Follower.{rows_of, scope_of};
    ghost use Rattle.mdb_verdict.specs.Ending.{HasTakenOrStoppedAt};
    ghost use Rattle.mdb_explain.specs.inner.Explaining.{HasKept, StopsKeeping};

    /// Before the first row, by a profile: these devices are left out.
    pub(crate) fn new(alloc: Global, profile: Profile, without: DeviceSet) -> Keeping
        ensures none { HasKept (scopes.from_power_on profile without) result [] }
        ensures scope { scope_of result.follower ≡ scopes.from_power_on profile without }
    {
        Keeping {
            follower: Follower::scoped(&Scope::from_power_on(profile, without)),
            rows: Vec::new(alloc),
        }
    }

    /// Follows and keeps the next row, or tells why it stops at it.
    #[inline(always)]
    fn keep(&mut self, row: &Event) -> Option<Result<Offence, RunFault>>
        requires { rows_of self.old.follower < ROWS_MAX }
        ensures taken { (scope : Scope) (earlier : List Event) → HasKept scope self.old earlier
            → HasTakenOrStoppedAt (HasKept scope self.new) (StopsKeeping scope) earlier row.now
            result }
        ensures scope { scope_of self.new.follower ≡ scope_of self.old.follower }
    {
        if let Err(offence) = self.follower.feed(*row) {
            return Some(Ok(offence));
        }
        if self.rows.push(*row).is_err() {
            return Some(Err(RunFault::Memory));
        }
        None
    }
}

/// It stops at the first row that can't be. Or it stops where memory is refused for rows that all
/// can be.
impl TakeRows<()> for Keeping {
    ghost use Rattle.std.proofs.Common.{ap};
    ghost use Rattle.mdb_follow.specs.declared.follower.TheConstants.{ROWS_MAX};
    ghost use Rattle.mdb_follow.specs.Follower.{scope_of};
    ghost use Rattle.mdb_explain.specs.inner.Explaining.{HasKept, StopsKeeping};

    type Row = Event;

    type Stop = Result<Offence, RunFault>;

    ghost most = { ROWS_MAX };

    ghost count = { λ keeping. length keeping.rows.items };

    ghost kept = { λ keeping. scope_of keeping.follower };

    ghost has = { λ keeping before after. HasKept (scope_of keeping.follower) keeping };

    ghost stops = { λ keeping before after. StopsKeeping (scope_of keeping.follower) };

    fn rows_taken(&self) -> u64 {
        self.rows.len() as u64
    }

    #[inline(always)]
    fn take(&mut self, _out: &mut (), row: Event) -> Option<Result<Offence, RunFault>> {
        self.keep(&row)
    }

    ghost counts = { λ keeping before after rows has. ap length has.kept };
}
