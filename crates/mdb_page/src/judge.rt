//! What takes the rows of a recording one by one: all runs together, or one run.

ghost use Rattle.std.specs.Prelude.{◌≡◌, ◌<◌, ◌≤◌, [], ◌∷◌, ◌++◌, List, IfErr, IfOk, length};
ghost use Rattle.mdb_words.specs.declared.event.Event.{Event};
ghost use Rattle.mdb_bus.specs.declared.scope.Scope.{Scope};
ghost use Rattle.mdb_follow.specs.Follower as followers;
ghost use Rattle.mdb_follow.specs.Offences.{IsOffence};
ghost use Rattle.mdb_follow.specs.Report.{IsReport};
ghost use Rattle.mdb_follow.specs.declared.offence.Offence.{Offence};
ghost use Rattle.mdb_follow.specs.declared.report.Report.{Report};
ghost use Rattle.mdb_run_search.specs.Replays as replays;
ghost use Rattle.mdb_page.specs.Replays.{IsPlainOffence, IsPlainReport};

use mdb_follow::{Follower, Offence, ROWS_MAX, Report};
use mdb_run_search::{Replay, ReplayFault};
use mdb_words::Event;

/// What takes rows until one is impossible, and reports on those before it.
pub(crate) trait Judge {
    /// It has taken these rows of a recording with this scope, and none was impossible.
    ghost stands_for: { Self → Scope → List Event → Type 0 };

    /// What a row breaks that is impossible after others.
    ghost refuses: { Scope → List Event → Event → Offence → Type 0 };

    /// What there is to report on rows.
    ghost reports: { Scope → List Event → Report → Type 0 };

    /// How many rows it has taken.
    fn taken(&self) -> u64
        ensures counted { (scope : Scope) (rows : List Event)
            → stands_for self.now scope rows → result ≡ length rows }
        ensures few { result ≤ ROWS_MAX };

    /// Takes the next row.
    ///
    /// # Errors
    ///
    /// The offence of a row that is impossible.
    fn take(&mut self, event: Event) -> Result<(), Offence>
        requires { (scope : Scope) × (rows : List Event)
            × stands_for self.old scope rows × (length rows < ROWS_MAX) }
        ensures taken { IfOk result (λ _. (scope : Scope) (rows : List Event)
            → stands_for self.old scope rows → stands_for self.new scope (rows ++ event ∷ [])) }
        ensures refused { IfErr result (λ offence. (scope : Scope) (rows : List Event)
            → stands_for self.old scope rows → refuses scope rows event offence) };

    /// The report on the rows so far.
    fn report_now(&self) -> Report
        requires { (scope : Scope) × (rows : List Event) × stands_for self.now scope rows }
        ensures { (scope : Scope) (rows : List Event)
            → stands_for self.now scope rows → reports scope rows result };
}

/// All runs of the rows.
impl Judge for Follower {
    ghost stands_for = { λ follower scope rows. (followers.scope_of follower ≡ scope)
        × followers.StandsFor follower rows };

    ghost refuses = { IsOffence };

    ghost reports = { IsReport };

    fn taken(&self) -> u64 {
        self.rows()
    }

    #[inline(always)]
    fn take(&mut self, event: Event) -> Result<(), Offence> {
        self.feed(event)
    }

    fn report_now(&self) -> Report {
        self.report_before()
    }
}

/// The run of the rows without a mark: nothing was lost, and no restart went unseen.
impl Judge for Replay {
    ghost stands_for = { λ replay scope rows. (replays.scope_of replay ≡ scope)
        × replays.StandsFor replay rows [] };

    ghost refuses = { IsPlainOffence };

    ghost reports = { IsPlainReport };

    fn taken(&self) -> u64 {
        self.rows()
    }

    fn take(&mut self, event: Event) -> Result<(), Offence> {
        match self.feed(event, None) {
            Ok(()) => Ok(()),
            Err(ReplayFault::Offence(offence)) => Err(offence),
            Err(ReplayFault::Mark(_)) => unreachable!(),
        }
    }

    fn report_now(&self) -> Report {
        match self.report() {
            Ok(report) => report,
            Err(_) => unreachable!(),
        }
    }
}
