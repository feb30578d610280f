//! Explanations: the fewest marks of a run that reaches a bound.

ghost use Rattle.std.specs.Prelude.{◌<◌, ◌≤◌, ◌+◌, [], ◌∷◌, ℕ, List, length};
ghost use Rattle.std.specs.Prelude.{IfOk, IfSome};
ghost use Rattle.std.specs.Option.{IfNone};
ghost use Rattle.mdb_msgs.specs.declared.command.Device.{Device};
ghost use Rattle.mdb_bus.specs.declared.scope.Profile.{Profile};
ghost use Rattle.mdb_run_search.specs.declared.mark.Mark.{Mark};
ghost use Rattle.mdb_run_search.specs.Goals.{Explains};
ghost use Rattle.mdb_bus.specs.Scopes as scopes;
ghost use Rattle.mdb_bus.specs.ActLists.{Piece};
ghost use Rattle.mdb_follow.specs.Runs.{IsReached};
ghost use Rattle.mdb_follow.specs.declared.goal.Goal.{Goal};
ghost use Rattle.mdb_run_search.specs.inner.AllPaths.{AreAllPaths, AreBestBelow, HasWay};
ghost use Rattle.mdb_run_search.specs.inner.Merges.{IsOfBoth, Merges};

mod all_paths;
mod best;
mod chains;
mod paths;
mod seeker;

use self::all_paths::AllPaths;
use crate::Mark;
use mdb_bus::{Profile, Scope, laws as bus_laws};
use mdb_follow::{Goal, ROWS_MAX, Report, laws};
use mdb_machine::laws as machine_laws;
use mdb_msgs::DeviceSet;
use mdb_words::Event;
use std::alloc::{AllocError, Global};

/// The marks, with the numbers of their rows from 1, of a run of a recording from power-on, by a
/// profile and with these devices left out, that comes to an end of a range (this profile): no run
/// goes further, and none that comes there has fewer marks. The rows of the marks rise. The
/// recording is of rows that some run reaches: a follower has taken them.
///
/// # Errors
///
/// Memory was refused.
pub fn explain_reached(
    alloc: Global,
    profile: Profile,
    without: DeviceSet,
    events: &[Event],
    goal: &Goal,
) -> Result<Vec<(u64, Mark)>, AllocError>
    requires few { length events.now ≤ ROWS_MAX }
    requires reached { IsReached (scopes.from_power_on profile without) events.now }
    ensures { IfOk result
        (λ marks. Explains (scopes.from_power_on profile without) events.now goal.now
        marks.items) }
{
    laws::ways_with_choices_join();
    bus_laws::transcripts_have_one_act_list();
    machine_laws::own_acts_are_those_that_a_device_has_a_part_in();
    let seeker = seeker::seek(alloc, &Scope::from_power_on(profile, without), events, goal)?;
    marks_of_all(alloc, &seeker.all)
}

/// The marks of a best way of each device, as one list, where each device has a way.
///
/// # Errors
///
/// Memory was refused.
fn marks_of_all(alloc: Global, all: &AllPaths) -> Result<Vec<(u64, Mark)>, AllocError>
    requires { (profile : Profile) × (goal : Goal) × (pieces : List Piece)
        × AreAllPaths profile goal pieces all.now
        × ((device : Device) → HasWay profile pieces device) }
    ensures { IfOk result (λ marks. (profile : Profile) (goal : Goal) (pieces : List Piece)
        → AreAllPaths profile goal pieces all.now
        → ((device : Device) → HasWay profile pieces device)
        → AreBestBelow profile goal pieces 4 marks.items) }
{
    let mut marks = Vec::new(alloc);
    for device in &Report::DEVICES {
        let own = all.marks(alloc, *device)?;
        marks = merge(alloc, &marks, &own)?;
    }
    Ok(marks)
}

/// Two lists of marks as one: where the rows of both rise, and no row is in both, its rows rise.
///
/// # Errors
///
/// Memory was refused.
fn merge(
    alloc: Global,
    one: &[(u64, Mark)],
    other: &[(u64, Mark)],
) -> Result<Vec<(u64, Mark)>, AllocError>
    ensures { IfOk result (λ both. IsOfBoth one.now other.now both.items) }
{
    let mut both = Vec::new(alloc);
    let mut ones = one;
    let mut others = other;
    while let Some((mark, more, further)) = first_of(ones, others) {
        both.push(mark)?;
        ones = more;
        others = further;
    }
    Ok(both)
}

/// A mark whose row is the least of two lists whose rows rise, and what is left of each; `None`
/// where nothing is left.
fn first_of<'a>(
    one: &'a [(u64, Mark)],
    other: &'a [(u64, Mark)],
) -> Option<((u64, Mark), &'a [(u64, Mark)], &'a [(u64, Mark)])>
    ensures goes { IfSome result (λ next. (rest : List (ℕ × Mark))
        → Merges next.1.now next.2.now rest → Merges one.now other.now (next.0 ∷ rest)) }
    ensures less { IfSome result (λ next.
        length next.1.now + length next.2.now < length one.now + length other.now) }
    ensures none { IfNone result (Merges one.now other.now []) }
{
    let Some((mark, more)) = one.split_first() else {
        let (next, further) = other.split_first()?;
        return Some((*next, one, further));
    };
    match other.split_first() {
        None => Some((*mark, more, other)),
        Some((next, further)) => {
            if next.0 < mark.0 {
                Some((*next, one, further))
            } else {
                Some((*mark, more, other))
            }
        }
    }
}
