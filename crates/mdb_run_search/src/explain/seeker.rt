//! The seeker of marks: the best ways of each device through the rows so far.

ghost use Rattle.std.specs.Prelude.{◌≡◌, ◌<◌, ◌≤◌, ◌+◌, [], ◌∷◌, ◌++◌, List, IfOk, length};
ghost use Rattle.mdb_words.specs.declared.event.Event.{Event};
ghost use Rattle.mdb_bus.specs.Bus.{scope_of};
ghost use Rattle.mdb_bus.specs.declared.scope.Beginning.TheVariants.{PowerOn};
ghost use Rattle.mdb_bus.specs.Scopes.{profile_of};
ghost use Rattle.mdb_follow.specs.declared.goal.Goal.{Goal};
ghost use Rattle.mdb_run_search.specs.inner.Seekers.{IsSeeker};
ghost use Rattle.mdb_follow.specs.Runs.{IsReached};

use super::all_paths::AllPaths;
use mdb_bus::{Act, Bus, Scope, laws as bus_laws};
use mdb_follow::{Goal, ROWS_MAX, laws};
use mdb_words::Event;
use std::alloc::{AllocError, Global};

/// The bus and the best ways of each device through the rows so far, in a recording that begins at
/// power-on.
#[derive(Drop)]
pub(crate) struct Seeker {
    bus: Bus,
    pub(crate) all: AllPaths,
    rows: u64,
    /// Room for the act that a row ends. Between rows its content is irrelevant.
    act: Act,
}

impl Seeker {
    /// The seeker before the first row of a recording from power-on.
    ///
    /// # Errors
    ///
    /// Memory was refused.
    fn start(alloc: Global, scope: &Scope) -> Result<Seeker, AllocError>
        requires { scope.now.begins ≡ PowerOn (profile_of scope.now.begins) }
        ensures stands { IfOk result (λ seeker. (goal : Goal) → IsSeeker goal [] seeker) }
        ensures scope { IfOk result (λ seeker. scope_of seeker.bus ≡ scope.now) }
    {
        let all = AllPaths::start(alloc, scope.begins.profile())?;
        Ok(Seeker {
            bus: Bus::scoped(scope),
            all,
            rows: 0,
            act: Act::Foreign,
        })
    }

    /// Takes the next row, which can be after the rows so far.
    ///
    /// # Errors
    ///
    /// Memory was refused.
    fn take(&mut self, goal: &Goal, event: Event) -> Result<(), AllocError>
        requires room { self.old.rows < ROWS_MAX }
        requires reached { (events : List Event) × IsSeeker goal.now events self.old
            × IsReached (scope_of self.old.bus) (events ++ event ∷ []) }
        ensures on { IfOk result (λ _. (events : List Event) → IsSeeker goal.now events self.old
            → IsSeeker goal.now (events ++ event ∷ []) self.new) }
        ensures scope { scope_of self.new.bus ≡ scope_of self.old.bus }
        ensures counted { IfOk result (λ _. self.new.rows ≡ self.old.rows + 1) }
    {
        bus_laws::transcripts_have_one_act_list();
        self.rows += 1;
        match self.bus.feed_into(event, &mut self.act) {
            Ok(true) => {
                if !self.all.lead(goal, &self.act, self.rows)? {
                    unreachable!();
                }
            }
            Ok(false) => {}
            Err(_) => unreachable!(),
        }
        Ok(())
    }
}

/// The seeker after rows that are reached.
///
/// # Errors
///
/// Memory was refused.
pub(crate) fn seek(
    alloc: Global,
    scope: &Scope,
    events: &[Event],
    goal: &Goal,
) -> Result<Seeker, AllocError>
    requires begins { scope.now.begins ≡ PowerOn (profile_of scope.now.begins) }
    requires few { length events.now ≤ ROWS_MAX }
    requires reached { IsReached scope.now events.now }
    ensures stands { IfOk result (IsSeeker goal.now events.now) }
    ensures scope { IfOk result (λ seeker. scope_of seeker.bus ≡ scope.now) }
{
    laws::fronts_of_reached_rows_are_reached();
    let mut seeker = Seeker::start(alloc, scope)?;
    for event in events {
        seeker.take(goal, *event)?;
    }
    Ok(seeker)
}
