//! The replay of a recording: the run from power-on with given marks.

ghost use Rattle.std.specs.Prelude.{◌≡◌, ◌<◌, ◌≤◌, ◌+◌, ◌*◌, ◌^◌, ◌↔◌, ℕ, List, [], ◌∷◌, ◌++◌};
ghost use Rattle.std.specs.Prelude.{Some, None, Err, IfSome, IfOk, IfErr, IsOk, IsSome};
ghost use Rattle.std.specs.Prelude.{IsSomeAnd, IsTrue, OnErr};
ghost use Rattle.std.specs.Bool.{OnFalse, OnTrue};
ghost use Rattle.std.specs.Option.{ForNone, ForSome};
ghost use Rattle.mdb_words.specs.declared.event.Event.{Event};
ghost use Rattle.mdb_bus.specs.Bus.{ended_act};
ghost use Rattle.mdb_bus.specs.declared.scope.Beginning.TheVariants.{PowerOn};
ghost use Rattle.mdb_bus.specs.declared.scope.Profile.{Profile};
ghost use Rattle.mdb_bus.specs.Scopes.{profile_of};
ghost use Rattle.mdb_run_search.specs.Marks as marks;
ghost use Rattle.mdb_run_search.specs.ReplayFaults.{MayStandAt, row_of};
ghost use Rattle.mdb_bus.specs.Scopes as scopes;
ghost use Rattle.mdb_bus.specs.ExtendedTimes as times;
ghost use Rattle.mdb_bus.specs.declared.untimely.Untimely.{Untimely};
ghost use Rattle.mdb_follow.specs.SilenceGrowth.{AreFew};
ghost use Rattle.mdb_run_search.specs.inner.TracksLed.{AreTracksWithin};

use crate::tracks::Tracks;
use crate::{Mark, laws};
use mdb_bus::{Act, Bus, LinkFault, Profile, Scope, Untimely, laws as bus_laws};
use mdb_follow::{
    Offence, ROWS_MAX, Report, Silences, laws as follow_laws, note_untimely, sender_of,
    untimely_sender,
};
use mdb_machine::Choice;
use mdb_msgs::DeviceSet;
use mdb_words::Event;

/// Why rows with these marks have no run.
#[derive(Clone, Copy, PartialEq, Eq, Debug)]
pub enum ReplayFault {
    /// The first row that is impossible with these marks.
    Offence(Offence),
    /// A mark that can't stand at this row, counted from 1. The row ends no act, or an act of
    /// another kind than the mark needs: an ACK, a reply that can report a restart, or one that
    /// approves a sale (by the extended profile).
    Mark(u64),
}

/// The run of a recording from power-on with given marks: one state of each device and of the
/// controller. It allocates nothing.
#[derive(Drop)]
pub struct Replay {
    bus: Bus,
    tracks: Tracks,
    silences: Silences,
    untimely: Option<Untimely>,
    rows: u64,
    fault: Option<ReplayFault>,
    /// Room for the act that a row ends. Between rows its content is irrelevant.
    act: Act,
    ghost few: { rows ≤ 100000000 },
    ghost within: { ForNone fault (AreTracksWithin (rows * 2 ^ 32) tracks) },
    ghost few_silences: { AreFew rows silences },
    ghost few_untimely: { ForSome untimely (times.AreFew rows) },
    ghost numbered: { ForSome fault (λ fault. row_of fault ≡ rows + 1) },
}

impl Replay {
    ghost use Rattle.mdb_bus.specs.Scopes.{power_on};
    ghost use Rattle.mdb_run_search.specs.declared.mark.Mark.{Mark};
    ghost use Rattle.mdb_run_search.specs.Marks.{with_mark};
    ghost use Rattle.mdb_run_search.specs.ReplayFaults.{HasMarkedRun, IsReplayFault};
    ghost use Rattle.mdb_run_search.specs.Replays.{IsReplayReport, StandsFor, fault_of};
    ghost use Rattle.mdb_run_search.specs.Replays.{rows_of, scope_of};
    ghost use Rattle.mdb_run_search.specs.inner.ReplayActs.{HasReplayed, HasStopped};

    /// The replay before the first row, by the base profile: all devices are followed.
    pub fn new() -> Replay
        ensures stands { StandsFor result [] [] }
        ensures empty { rows_of result ≡ 0 }
        ensures scope { scope_of result ≡ power_on }
    {
        Replay::scoped(&Scope::POWER_ON)
    }

    /// The replay before the first row, by a profile: these devices are left out.
    pub fn from_power_on(profile: Profile, without: DeviceSet) -> Replay
        ensures stands { StandsFor result [] [] }
        ensures empty { rows_of result ≡ 0 }
        ensures scope { scope_of result ≡ scopes.from_power_on profile without }
    {
        Replay::scoped(&Scope::from_power_on(profile, without))
    }

    /// How many rows were accepted.
    pub fn rows(&self) -> u64
        ensures { result ≡ rows_of self.now }
    {
        self.rows
    }

    /// Accepts the next row, with a mark that stands on the act that it ends, or with none.
    ///
    /// # Errors
    ///
    /// The fault of the first row that is impossible with these marks, or that ends no act on which
    /// its mark may stand. After that every call returns the same fault, and nothing changes.
    pub fn feed(&mut self, event: Event, mark: Option<Mark>) -> Result<(), ReplayFault>
        requires { rows_of self.old < ROWS_MAX }
        ensures reached { (events : List Event) (marks : List (ℕ × Mark))
            → StandsFor self.old events marks → IfOk result (λ _. StandsFor self.new
            (events ++ event ∷ []) (with_mark (rows_of self.old + 1) mark marks)) }
        ensures has_run { (events : List Event) (marks : List (ℕ × Mark))
            → StandsFor self.old events marks
            → IfOk result (λ _. HasMarkedRun (scope_of self.old) (events ++ event ∷ [])
            (with_mark (rows_of self.old + 1) mark marks)) }
        ensures fault { (events : List Event) (marks : List (ℕ × Mark))
            → StandsFor self.old events marks
            → IfErr result (IsReplayFault (scope_of self.old) events marks event mark) }
        ensures noted { IfErr result (λ fault. fault_of self.new ≡ Some fault) }
        ensures numbered { IfErr result (λ fault. row_of fault ≡ rows_of self.new + 1) }
        ensures counted { IfOk result (λ _. rows_of self.new ≡ rows_of self.old + 1) }
        ensures uncounted { OnErr result (rows_of self.new ≡ rows_of self.old) }
        ensures repeats { IfSome (fault_of self.old) (λ fault.
            (result ≡ Err fault) × (self.new ≡ self.old)) }
        ensures scope { scope_of self.new ≡ scope_of self.old }
    {
        follow_laws::ways_with_choices_join();
        if let Some(fault) = self.fault {
            return Err(fault);
        }
        if self.take(event, mark) {
            Ok(())
        } else {
            Err(self.noted())
        }
    }

    /// The report on the rows so far in this run: each range has one value.
    ///
    /// # Errors
    ///
    /// The fault of an impossible row, or of one whose mark may not stand there.
    pub fn report(&self) -> Result<Report, ReplayFault>
        ensures report { (events : List Event) (marks : List (ℕ × Mark))
            → StandsFor self.now events marks
            → IfOk result (IsReplayReport (scope_of self.now) events marks) }
        ensures answers { (events : List Event) (marks : List (ℕ × Mark))
            → StandsFor self.now events marks → IsOk result }
        ensures fault { IfSome (fault_of self.now) (λ fault. result ≡ Err fault) }
    {
        follow_laws::ways_with_choices_join();
        follow_laws::ways_split_with_choices();
        laws::marks_tell_what_is_chosen();
        bus_laws::transcripts_have_one_act_list();
        if let Some(fault) = self.fault {
            return Err(fault);
        }
        let cells = self.tracks.cells();
        let facts = self.tracks.facts();
        Ok(Report::of(self.rows, &cells, &facts, &self.silences, self.untimely))
    }

    /// Takes the next row, after rows that can be. Answers whether it can be too: where it can't,
    /// its fault is noted.
    fn take(&mut self, event: Event, mark: Option<Mark>) -> bool
        requires room { rows_of self.old < ROWS_MAX }
        requires going { fault_of self.old ≡ None }
        ensures reached { OnTrue result ((events : List Event) (marks : List (ℕ × Mark))
            → StandsFor self.old events marks → StandsFor self.new
            (events ++ event ∷ []) (with_mark (rows_of self.old + 1) mark marks)) }
        ensures going { OnTrue result (fault_of self.new ≡ None) }
        ensures counted { OnTrue result (rows_of self.new ≡ rows_of self.old + 1) }
        ensures fault { OnFalse result (IsSomeAnd (fault_of self.new) (λ fault.
            (events : List Event) (marks : List (ℕ × Mark)) → StandsFor self.old events marks
            → IsReplayFault (scope_of self.old) events marks event mark fault)) }
        ensures scope { scope_of self.new ≡ scope_of self.old }
        ensures uncounted { OnFalse result (rows_of self.new ≡ rows_of self.old) }
    {
        follow_laws::ways_with_choices_join();
        follow_laws::ways_split_with_choices();
        laws::marks_tell_what_is_chosen();
        bus_laws::transcripts_have_one_act_list();
        let sender = untimely_sender(&self.untimely, &self.bus, &event);
        match self.bus.feed_into(event, &mut self.act) {
            Err(fault) => {
                self.fault = Some(offence_of(self.rows, fault));
                false
            }
            Ok(ended) => {
                if !may_stand_at(profile_by(&self.untimely), mark, ended, &self.act) {
                    self.fault = Some(ReplayFault::Mark(self.rows + 1));
                    return false;
                }
                if !ended {
                    note_untimely(&mut self.untimely, sender);
                    self.rows += 1;
                    return true;
                }
                if self.follow(&event, choice_by(mark)) {
                    note_untimely(&mut self.untimely, sender);
                    true
                } else {
                    false
                }
            }
        }
    }

    /// Follows the act that a row has ended, under a choice. Answers whether each track has a step
    /// by it: where one hasn't, the offence is noted.
    fn follow(&mut self, event: &Event, choice: Choice) -> bool
        requires room { rows_of self.old < ROWS_MAX }
        requires going { fault_of self.old ≡ None }
        ensures followed { OnTrue result
            (HasReplayed self.old self.old.act choice event.now self.new) }
        ensures stopped { OnFalse result (IsSomeAnd (fault_of self.new)
            (HasStopped self.old self.old.act choice event.now self.new)) }
        ensures scope { scope_of self.new ≡ scope_of self.old }
    {
        match self.tracks.lead(&self.act, choice) {
            Ok(()) => {
                let first = &self.tracks.first_reader.facts;
                let second = &self.tracks.second_reader.facts;
                self.silences
                    .follow(&self.act, event.start(), first, second);
                self.rows += 1;
                true
            }
            Err(rule) => {
                let blame = sender_of(&self.act);
                let fault = self.bus.counted_in_haste(event, LinkFault { rule, blame });
                self.fault = Some(offence_of(self.rows, fault));
                false
            }
        }
    }

    /// The fault that was noted.
    fn noted(&self) -> ReplayFault
        requires { IsSome (fault_of self.now) }
        ensures { fault_of self.now ≡ Some result }
    {
        match self.fault {
            Some(fault) => fault,
            None => unreachable!(),
        }
    }

    /// The replay before the first row of a recording from power-on with this scope.
    fn scoped(scope: &Scope) -> Replay
        requires { scope.now.begins ≡ PowerOn (profile_of scope.now.begins) }
        ensures stands { StandsFor result [] [] }
        ensures empty { rows_of result ≡ 0 }
        ensures scope { scope_of result ≡ scope.now }
    {
        Replay {
            bus: Bus::scoped(scope),
            tracks: Tracks::start(scope.begins.profile()),
            silences: Silences::NONE,
            untimely: Untimely::start(scope.begins.profile()),
            rows: 0,
            fault: None,
            act: Act::Foreign,
        }
    }
}

/// The offence of the row after so many rows.
fn offence_of(rows: u64, fault: LinkFault) -> ReplayFault
    requires { rows < ROWS_MAX }
    ensures { result ≡ ReplayFault.Offence (record {
      row = rows + 1;
      rule = fault.rule;
      blame = fault.blame;
    }) }
{
    ReplayFault::Offence(Offence {
        row: rows + 1,
        rule: fault.rule,
        blame: fault.blame,
    })
}

/// The profile by which rows out of their time are counted, or aren't: by the base one they aren't.
fn profile_by(counts: &Option<Untimely>) -> Profile
    ensures { (profile : Profile) (untimely : Untimely)
        → counts.now ≡ times.counted_for profile untimely → result ≡ profile }
{
    match counts {
        None => Profile::Base,
        Some(_) => Profile::Extended,
    }
}

/// Whether a mark, if there is one, may stand at a row that ends this act or none.
fn may_stand_at(profile: Profile, mark: Option<Mark>, ended: bool, act: &Act) -> bool
    ensures { IsTrue result ↔ MayStandAt profile mark (ended_act ended act.now) }
{
    match mark {
        None => true,
        Some(mark) => ended && mark.may_stand_on(profile, act),
    }
}

/// What a mark, or no mark, says was chosen.
fn choice_by(mark: Option<Mark>) -> Choice
    ensures { result ≡ marks.choice_by mark }
{
    match mark {
        None => Choice::Plain,
        Some(mark) => mark.choice(),
    }
}
