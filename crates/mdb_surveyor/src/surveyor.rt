//! The surveyor of a recording.

ghost use Rattle.std.specs.Prelude.{◌≡◌, ◌<◌, ◌≤◌, ◌+◌, ◌*◌, ◌^◌, List, [], ◌∷◌, ◌++◌, IfSome};
ghost use Rattle.std.specs.Bool.{OnFalse, OnTrue};
ghost use Rattle.std.specs.Option.{IfNone};
ghost use Rattle.mdb_words.specs.declared.event.Event.{Event};
ghost use Rattle.mdb_bus.specs.declared.scope.Scope.{Scope};
ghost use Rattle.mdb_follow.specs.declared.follower.TheConstants.{ROWS_MAX};
ghost use Rattle.mdb_follow.specs.declared.offence.Offence.{Offence};
ghost use Rattle.mdb_follow.specs.Follower.{rows_of as followed_rows};
ghost use Rattle.mdb_surveyor.specs.OtherMoney.{WhoIsAsked, WhoIsAskedBefore};
ghost use Rattle.mdb_surveyor.specs.Counts.{AreFew};
ghost use Rattle.mdb_surveyor.specs.Stretches.{left_out_after, left_out_asked, scope_after, without_reader};
ghost use Rattle.mdb_surveyor.specs.Totals.{AreWithin};

use crate::counts::FaultCounts;
use crate::stretch::{Ended, Stretch};
use crate::summary::Summary;
use crate::told::Told;
use crate::totals::Totals;
use mdb_bus::{Beginning, Blame, Profile, Rule, Scope, laws as links};
use mdb_follow::{Follower, Offence, Report};
use mdb_msgs::{Command, Device, DeviceSet, ReaderUnit, command_of};
use mdb_words::Event;

/// Everything that may have happened in the rows of the stretch that runs, and what is known of the
/// stretches before it.
///
/// It keeps a follower, the sums of the stretches that have ended, and the number of their faults.
/// It keeps no rows, and none of the stretches: each is returned as it ends.
#[derive(Drop)]
pub struct Surveyor {
    follower: Follower,
    /// How the rows of the stretch that runs are taken.
    scope: Scope,
    /// What the rows so far tell, those of the stretch that runs among them.
    told: Told,
    /// The number of rows before the stretch that runs.
    before: u64,
    /// The faults before it.
    faults: FaultCounts,
    /// The sums of the stretches before it.
    totals: Totals,
    ghost few: { before + followed_rows follower ≤ 100000000 },
    ghost few_faults: { AreFew before faults },
    ghost within: { AreWithin (before * 2 ^ 32) totals },
}

impl Surveyor {
    ghost use Rattle.mdb_surveyor.specs.declared.stretch.Ended.{Ended};
    ghost use Rattle.mdb_surveyor.specs.Stretches.{IsSurvey};
    ghost use Rattle.mdb_surveyor.specs.Summaries.{summary_of};
    ghost use Rattle.mdb_surveyor.specs.Halts.{HasHalted, HasMetFault};
    ghost use Rattle.mdb_surveyor.specs.Surveyor.{StandsFor, rows_of};

    /// The surveyor before the first row of a recording with this scope.
    pub fn scoped(scope: &Scope) -> Surveyor
        ensures stands { StandsFor result scope.now [] [] }
        ensures empty { rows_of result ≡ 0 }
    {
        links::transcripts_have_one_act_list();
        Surveyor {
            follower: Follower::scoped(scope),
            scope: scope.copy(),
            told: Told::before(scope),
            before: 0,
            faults: FaultCounts::NONE,
            totals: Totals::NONE,
        }
    }

    /// The number of rows so far, those of the faults among them.
    pub fn rows(&self) -> u64
        ensures { result ≡ rows_of self.now }
    {
        self.before + self.follower.rows()
    }

    /// Takes the next row. If it can't be, it ends the stretch that runs: that stretch is returned,
    /// with the fault, and the next row begins a new one.
    ///
    /// What is returned is large. If you have more rows, [`Surveyor::take`] is faster.
    pub fn feed(&mut self, event: Event) -> Option<Ended>
        requires room { rows_of self.old < ROWS_MAX }
        ensures taken { IfNone result ((scope : Scope) (rows : List Event) (ended : List Ended)
            → StandsFor self.old scope rows ended
            → StandsFor self.new scope (rows ++ event ∷ []) ended) }
        ensures ended { IfSome result (λ it. (scope : Scope) (rows : List Event)
            (ended : List Ended) → StandsFor self.old scope rows ended
            → StandsFor self.new scope (rows ++ event ∷ []) (it ∷ ended)) }
        ensures row { IfSome result (λ it. it.fault.row ≡ rows_of self.new) }
        ensures counted { rows_of self.new ≡ rows_of self.old + 1 }
    {
        if self.take(event) {
            None
        } else {
            Some(self.end_stretch())
        }
    }

    /// Takes the next row, and answers whether it can be. Where it can't, it is a fault, which
    /// [`Surveyor::end_stretch`] is to return before the next row.
    #[inline(always)]
    pub fn take(&mut self, event: Event) -> bool
        requires room { rows_of self.old < ROWS_MAX }
        ensures taken { OnTrue result ((scope : Scope) (rows : List Event) (ended : List Ended)
            → StandsFor self.old scope rows ended
            → StandsFor self.new scope (rows ++ event ∷ []) ended) }
        ensures halted { OnFalse result ((scope : Scope) (rows : List Event) (ended : List Ended)
            → StandsFor self.old scope rows ended → HasHalted self.new scope rows event ended) }
        ensures met { OnFalse result (HasMetFault self.new) }
        ensures counted { OnTrue result (rows_of self.new ≡ rows_of self.old + 1) }
        ensures uncounted { OnFalse result (rows_of self.new ≡ rows_of self.old) }
    {
        links::transcripts_have_one_act_list();
        match self.follower.feed_ending(event) {
            Some(has_ended) => {
                self.told
                    .learn_if(&self.scope.begins, has_ended, self.follower.act());
                true
            }
            None => false,
        }
    }

    /// The stretch that runs: the rows since the last fault, or since the first row. It may have no
    /// row.
    pub fn stretch(&self) -> Stretch
        ensures { (scope : Scope) (rows : List Event) (ended : List Ended)
            → StandsFor self.now scope rows ended → IsSurvey scope rows ended result }
    {
        self.running(self.follower.report_before())
    }

    /// The stretch that runs, which has this report.
    fn running(&self, report: Report) -> Stretch
        requires { self.now.before + report.rows ≤ ROWS_MAX }
        ensures { result ≡ record {
          number = self.now.faults.all + 1;
          first = self.now.before + 1;
          last = self.now.before + report.rows;
          scope = self.now.scope;
          report = report;
        } }
    {
        Stretch {
            number: self.faults.all + 1,
            first: self.before + 1,
            last: self.before + report.rows,
            scope: self.scope.copy(),
            report,
        }
    }

    /// The stretch that runs, as [`Surveyor::stretch`] has it, and what the survey comes to if it
    /// ends here.
    pub fn ending(&self) -> (Stretch, Summary)
        ensures { (scope : Scope) (rows : List Event) (ended : List Ended)
            → StandsFor self.now scope rows ended
            → IsSurvey scope rows ended result.0 × (result.1 ≡ summary_of ended result.0) }
    {
        let report = self.follower.report_before();
        let last = self.running(report);
        let summary = Summary {
            totals: self.totals.with(&report),
            without: self.scope.without,
            faults: self.faults,
        };
        (last, summary)
    }

    /// Ends the stretch that runs, whose next row can't be: it is returned, with the fault, and the
    /// next row begins a new one.
    #[inline(never)]
    pub fn end_stretch(&mut self) -> Ended
        requires met { HasMetFault self.old }
        requires room { rows_of self.old < ROWS_MAX }
        ensures ended { (scope : Scope) (rows : List Event) (row : Event) (ended : List Ended)
            → HasHalted self.old scope rows row ended
            → StandsFor self.new scope (rows ++ row ∷ []) (result ∷ ended) }
        ensures row { result.fault.row ≡ rows_of self.new }
        ensures counted { rows_of self.new ≡ rows_of self.old + 1 }
    {
        links::transcripts_have_one_act_list();
        let Some(offence) = self.follower.offence() else {
            unreachable!()
        };
        let report = self.follower.report_before();
        let fault = Offence {
            row: self.before + offence.row,
            rule: offence.rule,
            blame: offence.blame,
        };
        let stretch = self.running(report);
        self.totals = self.totals.with(&report);
        self.faults.add(&fault);
        self.before = fault.row;
        let asked = asked_before(fault.rule, self.follower.open_block());
        self.scope = scope_after(&self.told, &fault, asked, &self.scope);
        self.told.begin(&self.scope.begins);
        self.follower = Follower::scoped(&self.scope);
        Ended { stretch, fault }
    }
}

/// How the rows after a fault are taken, by what is told up to it, the reader that is asked for
/// other money, and how the rows before it were taken.
fn scope_after(told: &Told, fault: &Offence, asked: Option<ReaderUnit>, scope: &Scope) -> Scope
    ensures { result ≡ scope_after told.now fault.now asked scope.now }
{
    let profile = scope.begins.profile();
    Scope {
        begins: Beginning::Joined(told.setups_on(profile), profile),
        without: match profile {
            Profile::Base => left_out_after(told, fault, scope.without),
            Profile::Extended => left_out_asked(asked, scope.without),
        },
        levels: told.levels_on(profile),
    }
}

/// The reader that is asked for other money, where a row with this rule comes after these bytes of
/// a block.
fn asked_before(rule: Rule, bytes: &[u8]) -> Option<ReaderUnit>
    ensures { WhoIsAskedBefore rule bytes.now result }
{
    match rule {
        Rule::Profile => asked_for_other_money(bytes),
        _ => None,
    }
}

/// The reader that these bytes of a block ask for other money, if they do.
fn asked_for_other_money(bytes: &[u8]) -> Option<ReaderUnit>
    ensures { WhoIsAsked bytes.now result }
{
    if bytes.is_empty() {
        return None;
    }
    let Ok(command) = command_of(bytes) else {
        return None;
    };
    match command {
        Command::Reader(unit, _) if command.enables_more() => Some(unit),
        _ => None,
    }
}

/// The devices that are left out after a fault by the extended profile, where this reader is asked
/// for other money.
fn left_out_asked(asked: Option<ReaderUnit>, without: DeviceSet) -> DeviceSet
    ensures { result ≡ left_out_asked asked without }
{
    match asked {
        Some(unit) => without.with(Device::Reader(unit)),
        None => without,
    }
}

/// The devices that are left out after a fault by the base profile, where these were left out
/// before it.
fn left_out_after(told: &Told, fault: &Offence, without: DeviceSet) -> DeviceSet
    ensures { result ≡ left_out_after told.now fault.now without }
{
    match (fault.rule, fault.blame) {
        (Rule::Profile, Blame::Cashless) => without_reader(told, ReaderUnit::First, without),
        (Rule::Profile, Blame::Cashless2) => without_reader(told, ReaderUnit::Second, without),
        _ => without,
    }
}

/// The devices that are left out after a `Profile` that is blamed on a reader.
fn without_reader(told: &Told, unit: ReaderUnit, without: DeviceSet) -> DeviceSet
    ensures { result ≡ without_reader told.now unit without }
{
    if told.is_told_below_2(unit) {
        without
    } else {
        without.with(Device::Reader(unit))
    }
}
