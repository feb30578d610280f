//! The rows by which the range of a sum opens or closes.

ghost use Rattle.std.specs.Prelude.{◌≡◌, ◌≢◌, ◌+◌, ◌*◌, ◌<◌, ◌≤◌, ◌^◌, ◌∷◌, ◌++◌, ℕ};
ghost use Rattle.std.specs.Prelude.{IfSome, List, [], length};
ghost use Rattle.std.specs.Ordering.{int_eq};
ghost use Rattle.mdb_bus.specs.declared.scope.Scope.{Scope};
ghost use Rattle.mdb_follow.specs.Follower.{StandsFor, rows_of, scope_of};
ghost use Rattle.mdb_follow.specs.Limits.{IsRangeWithin};
ghost use Rattle.mdb_follow.specs.Report.{IsReport};
ghost use Rattle.mdb_follow.specs.declared.follower.TheConstants.{ROWS_MAX};
ghost use Rattle.mdb_page.specs.Options.{IsTakenSo};
ghost use Rattle.mdb_page.specs.Rises.{HasRisen, rise, rise_of, rises_in};
ghost use Rattle.mdb_page.specs.declared.rises.PageRise.{PageRise};
ghost use Rattle.mdb_page.specs.inner.Rising.{HasFollowed, HasListed, HasTakenRow, IsNear};
ghost use Rattle.mdb_page.specs.inner.Rising.{Moves, Takes};

use crate::answer::{BAD_OPTIONS, NO, PageTold, TOO_LONG, YES, line_answer};
use crate::lines::{first_line, row_of, without_mark, without_return};
use crate::options::{PageOptions, taken_so};
use mdb_bus::laws as bus_laws;
use mdb_follow::{AccountName, Follower, ROWS_MAX, Range, Report, laws};

/// A row with which the least and the greatest of a sum rose differently.
#[repr(C)]
#[derive(Clone, Copy)]
pub struct PageRise {
    /// The row, from 1. It is the last one of an act.
    pub row: u64,
    /// By how much the least rose with it, in smallest units of money. Below 0 it fell.
    pub least: i64,
    /// By how much the greatest rose.
    pub greatest: i64,
    /// The account, by its place in a report: 0 coins-in, 1 bills-in, 2 paid-out, 3 approved, 4
    /// sold, 5 approved-2, 6 sold-2.
    pub account: u8,
    /// Whose sum it is: 0 the device's, 1 the controller's.
    pub side: u8,
}

/// Lists the rows that open or close a range of the sums of the recording that lies in memory as
/// text. A row has an entry for each sum whose least and greatest rose differently with it: from
/// the report of the rows before it to that of the rows up to it. The entries stand in the order of
/// the rows, then of the accounts in a report, then device and controller. `rises` has those after
/// the first `skip`, as far as there is room.
///
/// It returns what `mdb_page_check` does, except 6. With 1 to 4 the entries are those of the rows
/// before the one that ended the reading. `told` shows where it ended, and how many entries there
/// are in all (`news`).
#[unsafe(no_mangle)]
pub extern "C" fn mdb_page_rises(
    options: &PageOptions,
    text: &[u8],
    skip: u64,
    told: &mut PageTold,
    rises: &mut [PageRise],
) -> u32
    ensures rises { result ≢ 5 → (scope : Scope) × IsTakenSo options.now scope
        × HasRisen scope text.now skip rises.old rises.new told.new result }
    ensures refused { result ≡ 5 → (scope : Scope) → IsTakenSo options.now scope → ⊥ }
    ensures none { result ≡ 5 → (told.new.news ≡ 0) × (rises.new ≡ rises.old) }
{
    told.news = 0;
    let Some(scope) = taken_so(options) else {
        return BAD_OPTIONS;
    };
    let mut follower = Follower::scoped(&scope);
    let mut listing = RiseListing::after(&follower.report_before(), skip);
    let mut rest = without_mark(text);
    let answer = follow(&mut follower, &mut listing, &mut rest, told, rises);
    told.offset = (text.len() - rest.len()) as u64;
    told.news = listing.count;
    answer
}

/// Follows the rows of a text, lists what they do to the ranges, and leaves what stands from the
/// line on that ends this.
fn follow(
    follower: &mut Follower,
    listing: &mut RiseListing,
    rest: &mut &[u8],
    told: &mut PageTold,
    rises: &mut [PageRise],
) -> u32
    requires stands { StandsFor follower.old [] }
    requires empty { rows_of follower.old ≡ 0 }
    requires last { IsReport (scope_of follower.old) [] listing.old.last }
    requires near { IsNear listing.old.last }
    requires none { listing.old.count ≡ 0 }
    ensures left { length rest.new.now ≤ length rest.old.now }
    ensures options { result ≢ 5 }
    ensures followed { HasFollowed (scope_of follower.old) rest.old.now rest.new.now
        listing.old.skip rises.old rises.new listing.new told.new result }
{
    laws::ways_split();
    laws::ways_join();
    bus_laws::transcripts_have_one_act_list();
    while !rest.is_empty() {
        let (line, after) = first_line(*rest);
        let line = without_return(line);
        if !line.is_empty() {
            told.row = follower.rows() + 1;
            if follower.rows() >= ROWS_MAX {
                return TOO_LONG;
            }
            let event = match row_of(line) {
                Ok(event) => event,
                Err(fault) => return line_answer(told, fault),
            };
            match follower.feed_ending(event) {
                Some(ended) => listing.take_row(rises, follower, ended),
                None => return NO,
            }
        }
        *rest = after;
    }
    told.row = follower.rows();
    YES
}

/// By how much the ends of a range rose.
fn risen(before: Range, after: Range) -> Range
    requires before { IsRangeWithin (2 ^ 60) before }
    requires after { IsRangeWithin (2 ^ 60) after }
    ensures { result ≡ rise before after }
{
    Range {
        least: after.least - before.least,
        greatest: after.greatest - before.greatest,
    }
}

/// Whether the two ends are the same.
fn is_one(range: Range) -> bool
    ensures { result ≡ int_eq range.least range.greatest }
{
    range.least == range.greatest
}

/// The entries that are listed.
#[derive(Drop)]
struct RiseListing {
    /// The last report.
    last: Report,
    /// So many are passed over.
    skip: u64,
    /// So many there were.
    count: u64,
}

impl RiseListing {
    /// The list after a first report, where so many entries are passed over.
    fn after(report: &Report, skip: u64) -> RiseListing
        ensures last { result.last ≡ report.now }
        ensures skip { result.skip ≡ skip }
        ensures none { result.count ≡ 0 }
    {
        RiseListing {
            last: *report,
            skip,
            count: 0,
        }
    }

    /// Takes a row that a follower has accepted: where an act ended with it, its report.
    #[inline(always)]
    fn take_row(&mut self, rises: &mut [PageRise], follower: &Follower, ended: bool)
        requires rows { rows_of follower.now ≤ ROWS_MAX }
        requires last { IsNear self.old.last }
        requires few { self.old.count ≤ 2 ^ 62 }
        ensures near { IsNear self.new.last }
        ensures count { self.new.count ≤ self.old.count + 14 }
        ensures taken { HasTakenRow ended follower.now self.old self.new rises.old rises.new }
    {
        if ended {
            self.take(rises, &follower.report_before());
        }
    }

    /// Takes a report, and lists what its last row did to the ranges.
    fn take(&mut self, rises: &mut [PageRise], report: &Report)
        requires last { IsNear self.old.last }
        requires next { IsNear report.now }
        requires few { self.old.count ≤ 2 ^ 62 }
        ensures last { self.new.last ≡ report.now }
        ensures count { self.new.count ≤ self.old.count + 14 }
        ensures listed { Takes self.old self.new rises.old rises.new }
    {
        for name in AccountName::ALL {
            self.take_account(rises, report, name);
        }
        self.last = *report;
    }

    /// Lists what the last row of a report did to the ranges of an account.
    fn take_account(&mut self, rises: &mut [PageRise], report: &Report, name: AccountName)
        requires last { IsNear self.old.last }
        requires next { IsNear report.now }
        requires few { self.old.count < 2 ^ 63 }
        ensures last { self.new.last ≡ self.old.last }
        ensures count { self.new.count ≤ self.old.count + 2 }
        ensures listed { (skip : ℕ) (all before : List PageRise)
            → HasListed skip all self.old before rises.old
            → HasListed skip (all ++ rises_in self.old.last report.now name) self.new before
            rises.new }
    {
        let before = self.last.account(name);
        let after = report.account(name);
        let row = report.rows;
        let account = name.place() as u8;
        self.take_range(rises, row, account, 0, before.device, after.device);
        self.take_range(rises, row, account, 1, before.controller, after.controller);
    }

    /// Lists what a row did to the range of a side's sum, where its least and its greatest rose
    /// differently.
    fn take_range(
        &mut self,
        rises: &mut [PageRise],
        row: u64,
        account: u8,
        side: u8,
        before: Range,
        after: Range,
    )
        requires before { IsRangeWithin (2 ^ 60) before }
        requires after { IsRangeWithin (2 ^ 60) after }
        requires few { self.old.count ≤ 2 ^ 63 }
        ensures last { self.new.last ≡ self.old.last }
        ensures count { self.new.count ≤ self.old.count + 1 }
        ensures listed { (skip : ℕ) (all before_all : List PageRise)
            → HasListed skip all self.old before_all rises.old
            → HasListed skip (all ++ rise_of row account side before after) self.new before_all
            rises.new }
    {
        let risen = risen(before, after);
        if !is_one(risen) {
            let rise = PageRise {
                row,
                least: risen.least,
                greatest: risen.greatest,
                account,
                side,
            };
            self.put(rises, rise);
        }
    }

    /// Puts an entry, if it isn't passed over and there is room.
    fn put(&mut self, rises: &mut [PageRise], rise: PageRise)
        requires { self.old.count ≤ 2 ^ 63 }
        ensures last { self.new.last ≡ self.old.last }
        ensures count { self.new.count ≡ self.old.count + 1 }
        ensures listed { (skip : ℕ) (all before : List PageRise)
            → HasListed skip all self.old before rises.old
            → HasListed skip (all ++ rise ∷ []) self.new before rises.new }
    {
        if let Some(place) = self.next(rises.len()) {
            rises[place] = rise;
        }
    }

    /// The place of one entry more, if it isn't passed over and there is room for it.
    fn next(&mut self, room: usize) -> Option<usize>
        requires { self.old.count ≤ 2 ^ 63 }
        ensures room { IfSome result (λ place. place < room) }
        ensures moved { Moves room self.old self.new result }
    {
        let before = self.count;
        self.count += 1;
        if before < self.skip {
            return None;
        }
        let place = (before - self.skip) as usize;
        if place < room { Some(place) } else { None }
    }
}
