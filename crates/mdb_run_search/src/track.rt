//! A device and the controller, as a replay follows them.

ghost use Rattle.std.specs.Prelude.{◌≡◌, ◌^◌, List, [], IfErr, IfOk, OnErr};
ghost use Rattle.mdb_bus.specs.declared.act.Act.{Act};
ghost use Rattle.mdb_bus.specs.declared.scope.Beginning.TheVariants.{PowerOn};
ghost use Rattle.mdb_bus.specs.declared.scope.Profile.{Profile};
ghost use Rattle.mdb_follow.specs.Choosing.{Choices};
ghost use Rattle.mdb_run_search.specs.Tracks.{HasNoStepFrom, IsTrack};
ghost use Rattle.mdb_run_search.specs.inner.TracksLed.{IsTrackWithin, Leads};

use mdb_bus::{Act, Beginning, Profile, Rule};
use mdb_follow::Cell;
use mdb_machine::{Choice, Pair};

/// A device and the controller, as a replay follows them in a recording from power-on. It keeps
/// what is known after the acts so far, the state, the bounds of the accounts, each with one value,
/// and the number of amounts without a value.
#[derive(Drop)]
pub(crate) struct Track<F: Drop, S: Drop> {
    pub(crate) facts: F,
    state: S,
    pub(crate) cell: Cell,
    pub(crate) unvalued: u64,
}

/// The track after no act, by a profile.
pub(crate) fn start<P: Pair>(profile: Profile) -> Track<P::Facts, P::State>
    requires { P.unvalued (PowerOn profile) [] ≡ 0 }
    ensures stands { IsTrack (P.stands_for (PowerOn profile)) (P.machine (PowerOn profile))
        (P.unvalued (PowerOn profile)) result [] tt }
    ensures within { IsTrackWithin 0 result }
{
    Track {
        facts: P::facts_start(&Beginning::PowerOn(profile)),
        state: P::power_on(profile),
        cell: Cell::NOTHING,
        unvalued: 0,
    }
}

/// Leads a track over an act under a choice. From power-on each act is settled, so there is at
/// most one step.
///
/// # Errors
///
/// The rule of the device, where there is no step. Then nothing changes.
#[inline(always)]
pub(crate) fn lead<P: Pair>(
    track: &mut Track<P::Facts, P::State>,
    act: &Act,
    choice: Choice,
    rule: Rule,
) -> Result<(), Rule>
    requires { IsTrackWithin (2 ^ 62) track.old }
    ensures led { IfOk result (λ _. (profile : Profile) → Leads (P.stands_for (PowerOn profile))
        (P.machine (PowerOn profile)) (P.unvalued (PowerOn profile)) track.old act.now choice
        track.new) }
    ensures its { IfErr result (λ broken. broken ≡ rule) }
    ensures none { OnErr result ((profile : Profile) (acts : List Act) (chosen : Choices acts)
        → IsTrack (P.stands_for (PowerOn profile)) (P.machine (PowerOn profile))
        (P.unvalued (PowerOn profile)) track.old acts chosen
        → HasNoStepFrom (P.machine (PowerOn profile)) acts act.now choice track.old.state) }
    ensures same { OnErr result (track.new ≡ track.old) }
{
    if !P::settles(&track.facts, act) {
        return Err(rule);
    }
    match P::step_from(&track.facts, act, choice, track.state) {
        None => Err(rule),
        Some((after, gains)) => {
            track.state = after;
            track.cell = track.cell.moved(&gains);
            track.unvalued += P::unvalued_by(&track.facts, act);
            P::learn(&mut track.facts, act);
            Ok(())
        }
    }
}
