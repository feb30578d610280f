//! Following rows, and what they show of the feature levels.

ghost use Rattle.std.specs.Prelude.{◌≡◌, ◌<◌, ◌≤◌, ◌+◌, List, [], ◌∷◌, ◌++◌, IsSome, Some, get_or, length, take};
ghost use Rattle.std.specs.Bool.{OnFalse, OnTrue};
ghost use Rattle.mdb_words.specs.declared.event.Event.{Event};
ghost use Rattle.mdb_bus.specs.declared.levels.Levels.{Levels};
ghost use Rattle.mdb_bus.specs.declared.scope.Scope.{Scope};
ghost use Rattle.mdb_bus.specs.ActLists.{last_of};
ghost use Rattle.mdb_follow.specs.declared.follower.TheConstants.{ROWS_MAX};
ghost use Rattle.mdb_follow.specs.Follower.{offence_of, rows_of, scope_of};
ghost use Rattle.mdb_check.specs.Spared.{before_last};
ghost use Rattle.mdb_check.specs.Unfollowed.{unfollowed};
ghost use Rattle.mdb_check.specs.Unjudged as spec;
ghost use Rattle.mdb_check.specs.inner.LevelsHeeded.{HasFollowed, HasTaken, Meets, RefusesAmong, SomeRefused};

use super::beside::unfollowed;
use super::reported::{known_before, reported_if};
use super::unjudged::unjudged;
use mdb_bus::{Beginning, Levels, Profile, Scope, laws as links};
use mdb_follow::{Follower, Offence};
use mdb_msgs::{Device, ReaderUnit};
use mdb_verdict::TakeRows;
use mdb_words::{Event, Line};

/// The first impossible row, and whether that it is impossible is judged.
#[derive(Clone, Copy, PartialEq, Eq, Debug)]
pub(crate) struct Met {
    /// Its number, the rule and the blame.
    pub(crate) offence: Offence,
    /// The reader whose feature level isn't known, where the no rests on that. `None` where the no
    /// is judged.
    pub(crate) unjudged: Option<ReaderUnit>,
    /// The row.
    pub(crate) row: Event,
    /// The row before it, if there is one.
    pub(crate) last: Option<Event>,
    /// The row before that one.
    pub(crate) earlier: Option<Event>,
    /// The device that isn't followed, where the rule is `Profile`.
    pub(crate) unfollowed: Option<Device>,
}

/// A follower, and what its rows show of the feature levels at which the readers and the controller
/// speak.
#[derive(Drop)]
pub(crate) struct Heeding {
    pub(crate) follower: Follower,
    /// Whether the recording begins while the machine was running, and is followed by the base
    /// profile.
    pub(crate) joined: bool,
    /// The levels that the rows so far report: of each reader Y2 of the last SETUP config ask, and
    /// Z2 of the last config message with which an answer of it begins.
    pub(crate) reported: Levels,
    /// The byte with which the last block of the controller begins.
    pub(crate) begun: Option<u8>,
    /// The last row. It is kept once for all rows that are taken together.
    pub(crate) last: Option<Event>,
    /// The row before it, likewise.
    pub(crate) earlier: Option<Event>,
}

impl Heeding {
    /// Before the first row of a recording that is taken so.
    pub(crate) fn scoped(scope: &Scope, readers: Levels) -> Heeding
        ensures taken { HasTaken scope.now readers result [] }
        ensures scope { scope_of result.follower ≡ scope.now }
    {
        links::transcripts_have_one_act_list();
        Heeding {
            follower: Follower::scoped(scope),
            joined: is_joined(&scope.begins),
            reported: known_before(scope, readers),
            begun: None,
            last: None,
            earlier: None,
        }
    }

    /// Takes rows, and answers whether each can be.
    #[inline(never)]
    fn feed_all(&mut self, rows: &[Event]) -> bool
        requires room { rows_of self.old.follower + length rows.now ≤ ROWS_MAX }
        ensures taken { OnTrue result ((scope : Scope) (readers : Levels) (before : List Event)
            → HasFollowed scope readers self.old before
            → HasFollowed scope readers self.new (before ++ rows.now)) }
        ensures refused { OnFalse result ((scope : Scope) (readers : Levels)
            (before : List Event) → HasFollowed scope readers self.old before
            → RefusesAmong scope readers self.new before rows.now) }
        ensures scope { scope_of self.new.follower ≡ scope_of self.old.follower }
        ensures last { self.new.last ≡ self.old.last }
        ensures earlier { self.new.earlier ≡ self.old.earlier }
    {
        if !self.joined {
            return match self.follower.feed_all(rows) {
                Ok(()) => true,
                Err(_) => false,
            };
        }
        self.feed_each(rows)
    }

    /// The same of a joined recording, row by row.
    // Not inlined, so that each loop has the processor's registers to itself.
    #[inline(never)]
    fn feed_each(&mut self, rows: &[Event]) -> bool
        requires room { rows_of self.old.follower + length rows.now ≤ ROWS_MAX }
        ensures taken { OnTrue result ((scope : Scope) (readers : Levels) (before : List Event)
            → HasFollowed scope readers self.old before
            → HasFollowed scope readers self.new (before ++ rows.now)) }
        ensures refused { OnFalse result ((scope : Scope) (readers : Levels)
            (before : List Event) → HasFollowed scope readers self.old before
            → RefusesAmong scope readers self.new before rows.now) }
        ensures scope { scope_of self.new.follower ≡ scope_of self.old.follower }
        ensures last { self.new.last ≡ self.old.last }
        ensures earlier { self.new.earlier ≡ self.old.earlier }
    {
        for event in rows {
            if !self.take(*event) {
                return false;
            }
        }
        true
    }

    /// Takes the next row, and answers whether it can be.
    #[inline(always)]
    fn take(&mut self, event: Event) -> bool
        requires room { rows_of self.old.follower < ROWS_MAX }
        ensures taken { OnTrue result ((scope : Scope) (readers : Levels)
            (rows : List Event)
            → HasFollowed scope readers self.old rows
            → HasFollowed scope readers self.new (rows ++ event ∷ [])) }
        ensures refused { OnFalse result ((scope : Scope) (readers : Levels) (rows : List Event)
            → HasFollowed scope readers self.old rows
            → SomeRefused scope readers self.new rows event) }
        ensures scope { scope_of self.new.follower ≡ scope_of self.old.follower }
        ensures counted { OnTrue result (rows_of self.new.follower ≡ rows_of self.old.follower +
            1) }
        ensures last { self.new.last ≡ self.old.last }
        ensures earlier { self.new.earlier ≡ self.old.earlier }
        ensures joined { self.new.joined ≡ self.old.joined }
    {
        links::transcripts_have_one_act_list();
        match self.follower.feed_ending(event) {
            Some(ended) => {
                self.begun = begins_block(&event).or(self.begun);
                self.reported = reported_if(ended, self.follower.act(), self.reported);
                true
            }
            None => {
                self.begun = begun_at(begins_block(&event), self.begun);
                false
            }
        }
    }

    /// What was met at the row at an index of these rows, where the last block of the controller
    /// before these begins with this byte.
    fn met(&self, begun: Option<u8>, rows: &[Event], index: usize) -> Met
        requires met { IsSome (offence_of self.now.follower) }
        requires within { index < length rows.now }
        ensures offence { offence_of self.now.follower ≡ Some result.offence }
        ensures unjudged { result.unjudged ≡ spec.unjudged self.now.joined self.now.reported
            result.offence.rule result.offence.blame self.now.begun }
        ensures row { (other : Event) → result.row ≡ get_or rows.now index other }
        ensures last { (earlier : List Event) → self.now.last ≡ last_of earlier
            → result.last ≡ last_of (earlier ++ take index rows.now) }
        ensures earlier { (earlier : List Event) → self.now.last ≡ last_of earlier
            → self.now.earlier ≡ before_last earlier
            → result.earlier ≡ before_last (earlier ++ take index rows.now) }
        ensures unfollowed { (earlier : List Event) → begun ≡ spec.last_begun earlier
            → result.unfollowed ≡ unfollowed result.offence.rule result.offence.blame
            (spec.last_begun (earlier ++ take (index + 1) rows.now)) }
    {
        let Some(offence) = self.follower.offence() else {
            unreachable!()
        };
        Met {
            offence,
            unjudged: unjudged(self.joined, self.reported, offence, self.begun),
            row: rows[index],
            last: row_before(self.last, rows, index),
            earlier: row_before_that(self.earlier, self.last, rows, index),
            unfollowed: unfollowed(offence, begun_before(begun, rows, index + 1)),
        }
    }
}

/// The row before the one at an index of these rows, which come after the last.
fn row_before(last: Option<Event>, rows: &[Event], index: usize) -> Option<Event>
    requires { index ≤ length rows.now }
    ensures { (earlier : List Event) → last ≡ last_of earlier
        → result ≡ last_of (earlier ++ take index rows.now) }
{
    if index == 0 {
        last
    } else {
        Some(rows[index - 1])
    }
}

/// The row before that one, where the last row and the one before it come before these rows.
fn row_before_that(
    earlier: Option<Event>,
    last: Option<Event>,
    rows: &[Event],
    index: usize,
) -> Option<Event>
    requires { index ≤ length rows.now }
    ensures { (front : List Event) → last ≡ last_of front → earlier ≡ before_last front
        → result ≡ before_last (front ++ take index rows.now) }
{
    if index == 0 {
        earlier
    } else {
        row_before(last, rows, index - 1)
    }
}

/// The byte with which the last block of the controller begins before the one at an index of these
/// rows, where the last block before them begins so.
// From the end, since a block begins near it.
fn begun_before(begun: Option<u8>, rows: &[Event], index: usize) -> Option<u8>
    requires { index ≤ length rows.now }
    ensures { (earlier : List Event) → begun ≡ spec.last_begun earlier
        → result ≡ spec.last_begun (earlier ++ take index rows.now) }
{
    let mut left = index;
    while left > 0 {
        if let Some(byte) = begins_block(&rows[left - 1]) {
            return Some(byte);
        }
        left -= 1;
    }
    begun
}

/// It stops at the first row that can't be. Meanwhile it reports nothing: what it is given to
/// report to are the levels of the readers that are known from elsewhere, and they stay.
impl TakeRows<Levels> for Heeding {
    type Row = Event;

    type Stop = Met;

    ghost most = { ROWS_MAX };

    ghost count = { λ heeding. rows_of heeding.follower };

    ghost kept = { λ heeding. scope_of heeding.follower };

    ghost has = { λ heeding readers after. HasTaken (scope_of heeding.follower) readers heeding };

    ghost stops = { λ heeding readers after. Meets (scope_of heeding.follower) readers heeding };

    fn rows_taken(&self) -> u64 {
        self.follower.rows()
    }

    fn take(&mut self, readers: &mut Levels, row: Event) -> Option<Met> {
        self.take_all(readers, &[row])
    }

    // A follower has a loop of its own. Where it is fed, no answer for each row goes by.
    fn take_all(&mut self, _readers: &mut Levels, rows: &[Event]) -> Option<Met> {
        let (before, begun) = (self.follower.rows(), self.begun);
        if self.feed_all(rows) {
            self.begun = begun_before(begun, rows, rows.len());
            self.earlier = row_before_that(self.earlier, self.last, rows, rows.len());
            self.last = row_before(self.last, rows, rows.len());
            return None;
        }
        let index = (self.follower.rows() - before) as usize;
        Some(self.met(begun, rows, index))
    }

    ghost counts = { λ heeding readers after rows has. has.is.follows.counted };
}

/// Whether a recording begins while the machine was running, and is followed by the base profile.
fn is_joined(begins: &Beginning) -> bool
    ensures { result ≡ spec.is_joined begins.now }
{
    matches!(begins, Beginning::Joined(_, Profile::Base))
}

/// The byte with which the block of a row begins, where the block before it begins so, and the row
/// itself may begin one: that counts as none.
fn begun_at(own: Option<u8>, before: Option<u8>) -> Option<u8>
    ensures { result ≡ spec.begun_at own before }
{
    match own {
        Some(_) => None,
        None => before,
    }
}

/// The byte with which a block of the controller begins, where this row is its word.
#[inline(always)]
fn begins_block(event: &Event) -> Option<u8>
    ensures { result ≡ spec.begins_block event.now }
{
    match event {
        Event::Word {
            line: Line::Controller,
            word,
            ..
        } => {
            if word.marked() {
                Some(word.byte())
            } else {
                None
            }
        }
        _ => None,
    }
}
