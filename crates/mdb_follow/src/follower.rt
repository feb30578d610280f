//! The follower of a recording.

ghost use Rattle.std.specs.Prelude.{◌≡◌, ◌<◌, ◌≤◌, ◌+◌, ◌*◌, ◌^◌, List, [], ◌∷◌, ◌++◌, length};
ghost use Rattle.std.specs.Prelude.{Some, None, Err, IfSome, IfOk, IfErr, IsOk, IsSome, IsSomeAnd};
ghost use Rattle.std.specs.Prelude.{OnErr, OnSome, take};
ghost use Rattle.std.specs.Bool.{OnFalse, OnTrue};
ghost use Rattle.std.specs.Option.{ForSome, IfNone};
ghost use Rattle.mdb_words.specs.declared.event.Event.{Event};
ghost use Rattle.mdb_bus.specs.declared.act.Act.{Act};
ghost use Rattle.mdb_follow.specs.Senders as spec;
ghost use Rattle.mdb_follow.specs.inner.SidesLed.{AreStanding, AreWithin};
ghost use Rattle.mdb_bus.specs.ExtendedTimes as times;
ghost use Rattle.mdb_follow.specs.SilenceGrowth.{AreFew};

use crate::sides::Sides;
use crate::silence::Silences;
use crate::untimely::{note_untimely, untimely_sender};
use crate::{Offence, Report, laws};
use mdb_bus::{Act, Blame, Bus, LinkFault, Scope, Untimely, laws as bus_laws};
use mdb_msgs::{DeviceSet, Setups};
use mdb_words::Event;

/// The most rows that a recording may have (this profile).
pub const ROWS_MAX: u64 = 100_000_000;

/// Everything that may have happened in the rows so far, and the sums it leads to.
///
/// It keeps the bus and no rows. For each device it keeps what is known of it, a table of its
/// possible states, the number of amounts without a value, and its silences. After an offence it
/// accepts no more rows. Everything it reports about the rows before the offence stays the same.
#[derive(Drop)]
pub struct Follower {
    bus: Bus,
    sides: Sides,
    silences: Silences,
    untimely: Option<Untimely>,
    rows: u64,
    offence: Option<Offence>,
    /// Room for the act that a row ends. Between rows its content is irrelevant.
    act: Act,
    ghost few: { rows ≤ 100000000 },
    ghost standing: { ∥ AreStanding sides ∥₁ },
    ghost within: { AreWithin (rows * 2 ^ 32) sides },
    ghost few_silences: { AreFew rows silences },
    ghost few_untimely: { ForSome untimely (times.AreFew rows) },
    ghost numbered: { ForSome offence (λ offence. offence.row ≡ rows + 1) },
}

impl Follower {
    ghost use Rattle.mdb_bus.specs.Bus.{ended_act};
    ghost use Rattle.mdb_follow.specs.EndedActs.{IsEndedAct};
    ghost use Rattle.mdb_bus.specs.Scopes.{power_on};
    ghost use Rattle.mdb_bus.specs.JoinedScopes.{all_joined};
    ghost use Rattle.mdb_follow.specs.Feeding.{HasRefused, HasTakenRows};
    ghost use Rattle.mdb_follow.specs.Follower.{HasAccepted, StandsFor};
    ghost use Rattle.mdb_follow.specs.Follower.{act_of, bus_of, offence_of, open_block_of, rows_of, scope_of};
    ghost use Rattle.mdb_follow.specs.inner.FollowerActs.{HasFollowedAct, HasSettled, HasStopped, IsFed, IsLike};
    ghost use Rattle.mdb_follow.specs.FirstOffences.{HasOffence};
    ghost use Rattle.mdb_follow.specs.Report.{IsReport};
    ghost use Rattle.mdb_follow.specs.ReportLimits.{IsReportWithin};

    /// The follower before the first row of a recording that begins at power-on or at a break. All
    /// devices are followed.
    pub fn new() -> Follower
        ensures stands { StandsFor result [] }
        ensures empty { rows_of result ≡ 0 }
        ensures scope { scope_of result ≡ power_on }
    {
        Follower::scoped(&Scope::POWER_ON)
    }

    /// The follower before the first row of a recording that begins while the machine was running.
    /// All devices are followed.
    pub fn joined() -> Follower
        ensures stands { StandsFor result [] }
        ensures empty { rows_of result ≡ 0 }
        ensures scope { scope_of result ≡ all_joined }
    {
        Follower::scoped(&Scope::joined(Setups::NONE, DeviceSet::NONE))
    }

    /// The follower before the first row of a recording with this scope.
    pub fn scoped(scope: &Scope) -> Follower
        ensures stands { StandsFor result [] }
        ensures empty { rows_of result ≡ 0 }
        ensures scope { scope_of result ≡ scope.now }
    {
        Follower {
            bus: Bus::scoped(scope),
            sides: Sides::start(&scope.begins),
            silences: Silences::NONE,
            untimely: Untimely::start(scope.begins.profile()),
            rows: 0,
            offence: None,
            act: Act::Foreign,
        }
    }

    /// The number of rows that were accepted.
    pub fn rows(&self) -> u64
        ensures { result ≡ rows_of self.now }
    {
        let Follower { rows, .. } = self;
        *rows
    }

    /// Accepts the next row.
    ///
    /// # Errors
    ///
    /// The offence of the first impossible row. After that every call returns the same offence, and
    /// nothing changes.
    #[inline(always)]
    pub fn feed(&mut self, event: Event) -> Result<(), Offence>
        requires { rows_of self.old < ROWS_MAX }
        ensures taken { IfOk result (λ _. HasTakenRows self.old self.new (event ∷ [])) }
        ensures refused { IfErr result (HasRefused self.old self.new event) }
        ensures repeats { IfSome (offence_of self.old) (λ offence.
            (result ≡ Err offence) × (self.new ≡ self.old)) }
        ensures scope { scope_of self.new ≡ scope_of self.old }
    {
        if let Some(offence) = self.offence {
            return Err(offence);
        }
        match self.take(&event) {
            Some(_) => Ok(()),
            None => Err(self.noted()),
        }
    }

    /// Accepts the next row like [`Follower::feed`], and answers whether an act ends with it. If
    /// one does, [`Follower::act`] lends it. The answer is `None` for the first impossible row, and
    /// for each after it: [`Follower::offence`] has the offence.
    ///
    /// Nothing large is moved, so for each row this takes as long as [`Follower::feed_all`].
    #[inline(always)]
    pub fn feed_ending(&mut self, event: Event) -> Option<bool>
        requires { rows_of self.old < ROWS_MAX }
        ensures taken { OnSome result (HasTakenRows self.old self.new (event ∷ [])) }
        ensures act { IfSome result (λ ended. (events : List Event) → StandsFor self.old events
            → IsEndedAct (scope_of self.old) events event (ended_act ended (act_of self.new))) }
        ensures refused { IfNone result
            (IsSomeAnd (offence_of self.new) (HasRefused self.old self.new event)) }
        ensures repeats { IsSome (offence_of self.old)
            → (result ≡ None) × (self.new ≡ self.old) }
        ensures scope { scope_of self.new ≡ scope_of self.old }
    {
        if self.offence.is_some() {
            return None;
        }
        self.take(&event)
    }

    /// The act that ended with the last row, where [`Follower::feed_ending`] has just answered that
    /// one did. At any other time it is some act.
    #[inline(always)]
    pub fn act(&self) -> &Act
        ensures { result.now ≡ act_of self.now }
    {
        let Follower { act, .. } = self;
        act
    }

    /// The offence of the first impossible row, if one was met.
    pub fn offence(&self) -> Option<Offence>
        ensures met { result ≡ offence_of self.now }
        ensures numbered { IfSome result (λ offence. offence.row ≡ rows_of self.now + 1) }
    {
        self.offence
    }

    /// The bus. After an offence with the rule `Late` or `Spacing` it is the one before that row.
    pub fn into_bus(self) -> Bus
        ensures { result ≡ bus_of self }
    {
        self.bus
    }

    /// The bytes so far of the block of the controller in which the rows end; none where they end
    /// in no such block. After an offence with the rule `Profile` the rows are those before it.
    pub fn open_block(&self) -> &[u8]
        ensures { result.now ≡ open_block_of self.now }
    {
        let Follower { bus, .. } = self;
        bus.open_block()
    }

    /// Accepts rows up to the first impossible one.
    ///
    /// # Errors
    ///
    /// The offence of the first impossible row, as from [`Follower::feed`], or one that was met
    /// before.
    pub fn feed_all(&mut self, events: &[Event]) -> Result<(), Offence>
        requires { rows_of self.old + length events.now ≤ ROWS_MAX }
        ensures taken { IfOk result (λ _. HasTakenRows self.old self.new events.now) }
        ensures offence { (before : List Event) → StandsFor self.old before
            → IfErr result (HasOffence (scope_of self.old) before events.now) }
        ensures accepted { (before : List Event) → StandsFor self.old before
            → OnErr result (HasAccepted self.new (take (rows_of self.new) (before ++ events.now))) }
        ensures noted { IfErr result (λ offence. offence_of self.new ≡ Some offence) }
        ensures numbered { IfErr result (λ offence. offence.row ≡ rows_of self.new + 1) }
        ensures fewer { OnErr result (rows_of self.new ≤ rows_of self.old + length events.now) }
        ensures repeats { IfSome (offence_of self.old) (λ offence.
            (result ≡ Err offence) × (self.new ≡ self.old)) }
        ensures still { events.now ≡ [] → self.new ≡ self.old }
        ensures idle { events.now ≡ [] → offence_of self.old ≡ None → IsOk result }
        ensures scope { scope_of self.new ≡ scope_of self.old }
    {
        laws::ways_join();
        laws::sales_follow_their_approvals();
        if let Some(offence) = self.offence {
            return Err(offence);
        }
        for event in events {
            match self.take(event) {
                Some(_) => {}
                None => return Err(self.noted()),
            }
        }
        Ok(())
    }

    /// Takes the next row, after rows that can be. Answers whether an act ends with it, which is
    /// then in `act`, or `None` where the row can't be: then its offence is noted.
    #[inline(always)]
    fn take(&mut self, event: &Event) -> Option<bool>
        requires room { rows_of self.old < ROWS_MAX }
        requires going { offence_of self.old ≡ None }
        ensures taken { OnSome result (HasTakenRows self.old self.new (event.now ∷ [])) }
        ensures act { IfSome result (λ ended. (events : List Event) → StandsFor self.old events
            → IsEndedAct (scope_of self.old) events event.now (ended_act ended self.new.act)) }
        ensures going { OnSome result (offence_of self.new ≡ None) }
        ensures refused { IfNone result
            (IsSomeAnd (offence_of self.new) (HasRefused self.old self.new event.now)) }
        ensures scope { scope_of self.new ≡ scope_of self.old }
    {
        match self.bus.feed_timely(event, &mut self.act) {
            Some(ended) => self.settle(ended, event, None),
            None => self.take_slowly(event),
        }
    }

    /// The same for any row.
    // Not inlined, since few rows need it.
    #[inline(never)]
    fn take_slowly(&mut self, event: &Event) -> Option<bool>
        requires room { rows_of self.old < ROWS_MAX }
        requires going { offence_of self.old ≡ None }
        ensures settled { (before : Follower) → IsLike self.old before
            → self.old.bus ≡ before.bus → HasSettled before event.now self.new result }
        ensures going { OnSome result (offence_of self.new ≡ None) }
        ensures scope { scope_of self.new ≡ scope_of self.old }
    {
        laws::ways_join();
        let sender = untimely_sender(&self.untimely, &self.bus, event);
        match self.bus.feed_slowly(event, &mut self.act) {
            Ok(ended) => self.settle(ended, event, sender),
            Err(fault) => {
                stop(&mut self.offence, self.rows, fault);
                None
            }
        }
    }

    /// Counts a row that the bus has taken, with its sender if it came out of its time, and follows
    /// the act that it has ended, if it has. Answers as `take` does.
    #[inline(always)]
    fn settle(&mut self, ended: bool, event: &Event, sender: Option<Blame>) -> Option<bool>
        requires room { rows_of self.old < ROWS_MAX }
        requires going { offence_of self.old ≡ None }
        ensures settled { (before : Follower)
            → IsFed before event.now (ended_act ended self.old.act) sender self.old
            → HasSettled before event.now self.new result }
        ensures going { OnSome result (offence_of self.new ≡ None) }
        ensures scope { scope_of self.new ≡ scope_of self.old }
    {
        laws::ways_join();
        laws::sales_follow_their_approvals();
        bus_laws::transcripts_have_one_act_list();
        if !ended {
            note_untimely(&mut self.untimely, sender);
            self.rows += 1;
            return Some(false);
        }
        if self.follow(event) {
            note_untimely(&mut self.untimely, sender);
            Some(true)
        } else {
            None
        }
    }

    /// Follows the act that a row has ended. Answers whether each side has a step by it: where one
    /// hasn't, the offence is noted.
    #[inline(always)]
    fn follow(&mut self, event: &Event) -> bool
        requires room { rows_of self.old < ROWS_MAX }
        requires going { offence_of self.old ≡ None }
        ensures followed { OnTrue result
            (HasFollowedAct self.old self.old.act event.now self.new) }
        ensures stopped { OnFalse result (IsSomeAnd (offence_of self.new)
            (HasStopped self.old self.old.act event.now self.new)) }
        ensures scope { scope_of self.new ≡ scope_of self.old }
        ensures act { self.new.act ≡ self.old.act }
    {
        match self.sides.lead(&self.act) {
            Ok(()) => {
                let first = &self.sides.first_reader.facts;
                let second = &self.sides.second_reader.facts;
                self.silences
                    .follow(&self.act, event.start(), first, second);
                self.rows += 1;
                true
            }
            Err(rule) => {
                let blame = sender_of(&self.act);
                let fault = self.bus.counted_in_haste(event, LinkFault { rule, blame });
                stop(&mut self.offence, self.rows, fault);
                false
            }
        }
    }

    /// The offence that was noted.
    fn noted(&self) -> Offence
        requires { IsSome (offence_of self.now) }
        ensures { offence_of self.now ≡ Some result }
    {
        match self.offence {
            Some(offence) => offence,
            None => unreachable!(),
        }
    }

    /// The report on the rows so far.
    ///
    /// # Errors
    ///
    /// The offence of an impossible row. [`Follower::report_before`] still reports on the rows
    /// before it.
    pub fn report(&self) -> Result<Report, Offence>
        ensures report { (events : List Event) → StandsFor self.now events
            → IfOk result (IsReport (scope_of self.now) events) }
        ensures answers { (events : List Event) → StandsFor self.now events → IsOk result }
        ensures offence { IfSome (offence_of self.now) (λ offence. result ≡ Err offence) }
        ensures within { IfOk result (IsReportWithin (rows_of self.now * 2 ^ 32)) }
    {
        match self.offence {
            Some(offence) => Err(offence),
            None => Ok(self.report_before()),
        }
    }

    /// The report on the rows that were accepted. After an offence these are the rows before the
    /// impossible one. Without one they are all rows so far, as in [`Follower::report`].
    ///
    /// No end of its ranges is farther from 0 than 2^32 times the number of these rows, and no
    /// count is greater. So reports can be added up.
    pub fn report_before(&self) -> Report
        ensures before { (events : List Event) → HasAccepted self.now events
            → IsReport (scope_of self.now) events result }
        ensures going { (events : List Event) → StandsFor self.now events
            → IsReport (scope_of self.now) events result }
        ensures within { IsReportWithin (rows_of self.now * 2 ^ 32) result }
        ensures rows { result.rows ≡ rows_of self.now }
    {
        laws::ways_join();
        bus_laws::transcripts_have_one_act_list();
        let cells = self.sides.cells();
        let facts = self.sides.facts();
        Report::of(self.rows, &cells, &facts, &self.silences, self.untimely)
    }
}

/// Notes the offence of the row after so many rows.
fn stop(noted: &mut Option<Offence>, rows: u64, fault: LinkFault)
    requires { rows < ROWS_MAX }
    ensures { noted.new ≡ Some (record {
      row = rows + 1;
      rule = fault.rule;
      blame = fault.blame;
    }) }
{
    *noted = Some(Offence {
        row: rows + 1,
        rule: fault.rule,
        blame: fault.blame,
    });
}

/// The sender of an act: the controller, or the device that it asked.
pub fn sender_of(act: &Act) -> Blame
    ensures { result ≡ spec.sender_of act.now }
{
    match act {
        Act::Ack(command) => Blame::on(Some(command.device())),
        Act::Nak(command) => Blame::on(Some(command.device())),
        Act::Reply(command, _) => Blame::on(Some(command.device())),
        Act::Repeat(command, _) => Blame::on(Some(command.device())),
        _ => Blame::Controller,
    }
}
