//! The replay of an input's entries: its marks, and then its rows.

ghost use Rattle.std.specs.Prelude.{◌≡◌, ◌≤◌, ◌<◌, ◌+◌, ◌++◌, List, [], ℕ, length, Err, IfErr, OnSome, ◌≢◌};
ghost use Rattle.mdb_run_search.specs.Replays.{rows_of, scope_of};
ghost use Rattle.mdb_bus.specs.Scopes.{from_power_on};
ghost use Rattle.mdb_explain.specs.inner.Entries.{stop_by};

use super::entry::Entry;
use super::fault::MarkedFault;
use mdb_bus::Profile;
use mdb_follow::{Offence, ROWS_MAX};
use mdb_msgs::DeviceSet;
use mdb_run_search::{Mark, Replay, ReplayFault, laws};
use mdb_text::Outcome;
use mdb_verdict::{RunFault, TakeRows};
use mdb_words::{Event, RowFault};
use std::alloc::Global;

/// So many entries there never are: one more than as many marks and as many rows as there may be.
pub(crate) const ENTRIES_MAX: u64 = 200_000_001;

/// The marks of an input, and the replay of its rows with them.
#[derive(Drop)]
pub(crate) struct Replaying {
    replay: Replay,
    marks: Vec<(u64, Mark)>,
    /// The row of the last mark; 0 where there is none.
    last: u64,
    /// So many of the marks stand at rows that were taken.
    passed: usize,
    ghost few_marks: { length marks.items ≤ 100000000 },
    ghost few_rows: { rows_of replay ≤ 100000000 },
    ghost few_passed: { passed ≤ length marks.items },
}

/// Why it stops at an entry: at a row that cannot be, with the marks, or for a fault.
type Stop = Result<Offence, MarkedFault>;

impl Replaying {
    ghost use Rattle.mdb_bus.specs.declared.scope.Scope.{Scope};
    ghost use Rattle.mdb_run_search.specs.declared.mark.Mark.{Mark};
    ghost use Rattle.mdb_explain.specs.Replay.{mark_at};
    ghost use Rattle.mdb_verdict.specs.Ending.{HasTakenOrStoppedAt};
    ghost use Rattle.mdb_explain.specs.inner.Replaying.{Finishes, HasReplayed, IsStoppedAt};

    /// Before the first entry, by a profile: these devices are left out.
    pub(crate) fn new(alloc: Global, profile: Profile, without: DeviceSet) -> Replaying
        ensures none { HasReplayed (from_power_on profile without) result [] }
        ensures scope { scope_of result.replay ≡ from_power_on profile without }
    {
        laws::replays_stand_for_the_only_run_with_their_marks();
        Replaying {
            replay: Replay::from_power_on(profile, without),
            marks: Vec::new(alloc),
            last: 0,
            passed: 0,
        }
    }

    /// Takes the next entry, or tells why it stops at it.
    #[inline(always)]
    fn take_entry(&mut self, entry: Entry) -> Option<Stop>
        ensures taken { (scope : Scope) (earlier : List Entry) → HasReplayed scope self.old earlier
            → HasTakenOrStoppedAt (HasReplayed scope self.new) (IsStoppedAt scope) earlier entry
            result }
        ensures scope { scope_of self.new.replay ≡ scope_of self.old.replay }
    {
        match entry {
            Entry::Mark(row, mark) => self.add(row, mark),
            Entry::BadMark(fault) => Some(Err(self.refuse_mark(fault))),
            Entry::Row(event) => self.feed(event),
            Entry::BadRow(fault) => Some(Err(self.refuse_row(fault))),
        }
    }

    /// Adds a mark, or tells why it stops at it.
    fn add(&mut self, row: u64, mark: Mark) -> Option<Stop>
        ensures taken { (scope : Scope) (earlier : List Entry) → HasReplayed scope self.old earlier
            → HasTakenOrStoppedAt (HasReplayed scope self.new) (IsStoppedAt scope) earlier
            (Entry.Mark row mark) result }
        ensures scope { scope_of self.new.replay ≡ scope_of self.old.replay }
    {
        if self.replay.rows() > 0 {
            return Some(Err(self.bad_record(RowFault::BadLine)));
        }
        if self.marks.len() as u64 >= ROWS_MAX {
            return Some(Err(MarkedFault::Run(RunFault::TooLong)));
        }
        if row <= self.last {
            return Some(Err(MarkedFault::Mark { row }));
        }
        if self.marks.push((row, mark)).is_err() {
            return Some(Err(MarkedFault::Run(RunFault::Memory)));
        }
        self.last = row;
        None
    }

    /// Feeds a row with its mark, or tells why it stops at it.
    fn feed(&mut self, event: Event) -> Option<Stop>
        ensures taken { (scope : Scope) (earlier : List Entry) → HasReplayed scope self.old earlier
            → HasTakenOrStoppedAt (HasReplayed scope self.new) (IsStoppedAt scope) earlier
            (Entry.Row event) result }
        ensures scope { scope_of self.new.replay ≡ scope_of self.old.replay }
    {
        if self.replay.rows() >= ROWS_MAX {
            return Some(Err(MarkedFault::Run(RunFault::TooLong)));
        }
        let mark = self.next_mark();
        match self.replay.feed(event, mark) {
            Err(fault) => Some(stop_of(fault)),
            Ok(()) => {
                if mark.is_some() {
                    self.passed += 1;
                }
                None
            }
        }
    }

    /// The mark that stands at the next row, if one does.
    fn next_mark(&self) -> Option<Mark>
        ensures some { OnSome result (self.now.passed < length self.now.marks.items) }
        ensures at { (passed later : List (ℕ × Mark)) → self.now.marks.items ≡ passed ++ later
            → self.now.passed ≡ length passed
            → result ≡ mark_at (rows_of self.now.replay + 1) later }
    {
        let (row, mark) = *self.marks.get(self.passed)?;
        if row == self.replay.rows() + 1 {
            Some(mark)
        } else {
            None
        }
    }

    /// Why a mark row is refused that is refused by itself.
    fn refuse_mark(&self, fault: RowFault) -> MarkedFault
        ensures { (scope : Scope) (earlier : List Entry) → HasReplayed scope self.now earlier
            → IsStoppedAt scope earlier (Entry.BadMark fault) (Err result) }
    {
        if self.replay.rows() > 0 {
            if fault == RowFault::BadTime {
                return self.bad_record(fault);
            }
            return self.bad_record(RowFault::BadLine);
        }
        if self.marks.len() as u64 >= ROWS_MAX {
            return MarkedFault::Run(RunFault::TooLong);
        }
        self.bad_record(fault)
    }

    /// Why a record is refused that is no row.
    fn refuse_row(&self, fault: RowFault) -> MarkedFault
        ensures { (scope : Scope) (earlier : List Entry) → HasReplayed scope self.now earlier
            → IsStoppedAt scope earlier (Entry.BadRow fault) (Err result) }
    {
        if self.replay.rows() >= ROWS_MAX {
            return MarkedFault::Run(RunFault::TooLong);
        }
        self.bad_record(fault)
    }

    /// The fault of the next record.
    fn bad_record(&self, fault: RowFault) -> MarkedFault
        ensures { result ≡ MarkedFault.Run (RunFault.BadRow (length self.now.marks.items
            + rows_of self.now.replay + 1) fault) }
    {
        MarkedFault::Run(RunFault::BadRow {
            row: self.marks.len() as u64 + self.replay.rows() + 1,
            fault,
        })
    }

    /// What the rows tell, after the last entry.
    ///
    /// # Errors
    ///
    /// `Mark` where a mark stands past the last row.
    pub(crate) fn finish(&self) -> Result<Outcome, MarkedFault>
        ensures finishes { (scope : Scope) (taken : List Entry)
            → HasReplayed scope self.now taken → Finishes scope taken result }
        ensures not_write { IfErr result (λ fault. fault ≢ MarkedFault.Run RunFault.Write) }
        ensures not_read { IfErr result (λ fault. fault ≢ MarkedFault.Run RunFault.Read) }
    {
        if let Some((row, _)) = self.marks.get(self.passed) {
            return Err(MarkedFault::Mark { row: *row });
        }
        match self.replay.report() {
            Ok(report) => Ok(Outcome::Yes(report)),
            Err(ReplayFault::Offence(offence)) => Ok(Outcome::No(offence)),
            Err(ReplayFault::Mark(row)) => Err(MarkedFault::Mark { row }),
        }
    }
}

/// Why it stops at a row, by the fault of the replay.
fn stop_of(fault: ReplayFault) -> Stop
    ensures { result ≡ stop_by fault }
{
    match fault {
        ReplayFault::Offence(offence) => Ok(offence),
        ReplayFault::Mark(row) => Err(MarkedFault::Mark { row }),
    }
}

/// It stops at the first entry that isn't taken.
impl TakeRows<()> for Replaying {
    ghost use Rattle.mdb_explain.specs.inner.Replaying.{HasReplayed, IsStoppedAt};

    type Row = Entry;

    type Stop = Stop;

    ghost most = { 200000001 };

    ghost count = { λ taker. length taker.marks.items + rows_of taker.replay };

    ghost kept = { λ taker. scope_of taker.replay };

    ghost has = { λ taker before after. HasReplayed (scope_of taker.replay) taker };

    ghost stops = { λ taker before after. IsStoppedAt (scope_of taker.replay) };

    fn rows_taken(&self) -> u64 {
        self.marks.len() as u64 + self.replay.rows()
    }

    #[inline(always)]
    fn take(&mut self, _out: &mut (), entry: Entry) -> Option<Stop> {
        self.take_entry(entry)
    }

    ghost counts = { λ taker before after rows has. has.count };
}
