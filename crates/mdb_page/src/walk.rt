//! The acts of a recording, and what they tell, in one walk over its rows.

ghost use Rattle.std.specs.Prelude.{◌≡◌, ◌≢◌, ◌<◌, ◌≤◌, ◌+◌, ℕ, List, [], Some, length, true};
ghost use Rattle.mdb_bus.specs.declared.scope.Scope.{Scope};
ghost use Rattle.mdb_bus.specs.ActLists.{Piece};
ghost use Rattle.mdb_bus.specs.Pieces.{NamesAReply};
ghost use Rattle.mdb_bus.specs.Bus.{StandsFor, ended_act, scope_of};
ghost use Rattle.mdb_follow.specs.declared.follower.TheConstants.{ROWS_MAX};
ghost use Rattle.mdb_page.specs.Acts.{IsListing};
ghost use Rattle.mdb_page.specs.Options.{IsTakenSo};
ghost use Rattle.mdb_page.specs.declared.acts.PageAct.{PageAct};
ghost use Rattle.mdb_page.specs.inner.Listing.{HasBegun, HasListed, HasTakenPieces, HasWalked, Lengthens};

use crate::acts::{ActListing, PageAct};
use crate::answer::{BAD_OPTIONS, NO, PageTold, TOO_LONG, YES, line_answer};
use crate::lines::{first_line, row_of, without_mark, without_return};
use crate::news::{NewsListing, PageNews};
use crate::options::{PageOptions, taken_so};
use crate::rows::Rows;
use mdb_bus::{Act, Bus, laws};
use mdb_follow::ROWS_MAX;
use mdb_words::Time;

/// Lists the acts of a recording, and what they report after the first `skip` news, as far as there
/// is room. Where there are more acts than room, the first `first` stay. After them the last ones
/// stand in a ring of all other places. An act numbered n, from 0, has the place `first` plus the
/// remainder of n less `first` by the size of the ring. The words of a block that is cut are listed
/// too, as an act of their own.
///
/// It returns what `mdb_page_check` does: 1 means that a row breaks a rule of the link. It doesn't
/// know the rules of the devices. The words of a block that is still open before such a row aren't
/// listed. `told` shows how many acts and news there are in all.
#[unsafe(no_mangle)]
pub extern "C" fn mdb_page_list(
    options: &PageOptions,
    text: &[u8],
    first: usize,
    skip: u64,
    told: &mut PageTold,
    acts: &mut [PageAct],
    news: &mut [PageNews],
) -> u32
    ensures row { result ≢ 5 → told.new.row ≤ ROWS_MAX + 1 }
    ensures none { result ≡ 5 → (told.new.acts ≡ 0) × (told.new.news ≡ 0) }
    ensures refused { result ≡ 5 → (scope : Scope) → IsTakenSo options.now scope → ⊥ }
    ensures taken { result ≢ 5 → (scope : Scope) × IsTakenSo options.now scope }
    ensures acts { result ≢ 5 → (scope : Scope) × IsTakenSo options.now scope
        × IsListing scope text.now first acts.old acts.new told.new result }
    ensures unchanged { result ≡ 5 → acts.new ≡ acts.old }
{
    told.acts = 0;
    told.news = 0;
    let Some(scope) = taken_so(options) else {
        return BAD_OPTIONS;
    };
    let mut bus = Bus::scoped(&scope);
    let mut lists = Lists {
        acts: ActListing::keeping(first),
        news: NewsListing::start(&scope.begins, skip),
    };
    let mut rest = without_mark(text);
    let answer = walk(&mut lists, &mut bus, &mut rest, told, acts, news);
    lists.news.end_all(news);
    told.offset = (text.len() - rest.len()) as u64;
    told.acts = lists.acts.count();
    told.news = lists.news.count();
    answer
}

/// Both lists.
#[derive(Drop)]
struct Lists {
    acts: ActListing,
    news: NewsListing,
}

/// Walks over the acts of the lines of a text, and leaves what stands from the line on that ends
/// the walk.
fn walk(
    lists: &mut Lists,
    bus: &mut Bus,
    rest: &mut &[u8],
    told: &mut PageTold,
    acts: &mut [PageAct],
    news: &mut [PageNews],
) -> u32
    requires stands { StandsFor bus.old [] }
    requires listed { HasListed lists.old.acts.first acts.old [] lists.old.acts acts.old }
    ensures left { length rest.new.now ≤ length rest.old.now }
    ensures row { told.new.row ≤ ROWS_MAX + 1 }
    ensures options { result ≢ 5 }
    ensures walked { HasWalked (scope_of bus.old) rest.old.now rest.new.now
        lists.old.acts.first acts.old acts.new lists.new.acts told.new result }
{
    laws::acts_name_replies_of_their_commands();
    let mut act = Act::Foreign;
    let mut rows = Rows {
        first: 1,
        last: 0,
        start: 0,
        end: 0,
    };
    told.row = 0;
    while !rest.is_empty() {
        let (line, after) = first_line(*rest);
        let line = without_return(line);
        if !line.is_empty() {
            told.row = rows.last + 1;
            if rows.last >= ROWS_MAX {
                lists.cut(acts, &rows);
                return TOO_LONG;
            }
            let event = match row_of(line) {
                Ok(event) => event,
                Err(fault) => {
                    lists.cut(acts, &rows);
                    return line_answer(told, fault);
                }
            };
            let at = event.start();
            match bus.feed_into(event, &mut act) {
                Ok(ended) => lists.take(acts, news, &mut rows, at, ended, &act),
                Err(_) => return NO,
            }
        }
        *rest = after;
    }
    lists.cut(acts, &rows);
    told.row = rows.last;
    YES
}

impl Lists {
    /// Takes a row that started at a time, and the act that it ends if it ends one.
    #[inline(always)]
    fn take(
        &mut self,
        acts: &mut [PageAct],
        news: &mut [PageNews],
        rows: &mut Rows,
        at: Time,
        ended: bool,
        act: &Act,
    )
        requires room { rows.old.last < ROWS_MAX }
        requires names { ended ≡ true → NamesAReply act.now }
        ensures last { rows.new.last ≡ rows.old.last + 1 }
        ensures taken { (first : ℕ) (before : List PageAct) (pieces longer : List Piece)
            → HasTakenPieces first before pieces self.old.acts acts.old rows.old
            → Lengthens pieces at (ended_act ended act.now) longer
            → HasTakenPieces first before longer self.new.acts acts.new rows.new }
    {
        if ended {
            self.end(acts, news, rows, at, act);
        } else {
            rows.add(at);
        }
    }

    /// Takes a row that started at a time, and the act that it ends.
    #[inline(always)]
    fn end(
        &mut self,
        acts: &mut [PageAct],
        news: &mut [PageNews],
        rows: &mut Rows,
        at: Time,
        act: &Act,
    )
        requires room { rows.old.last < ROWS_MAX }
        requires names { NamesAReply act.now }
        ensures last { rows.new.last ≡ rows.old.last + 1 }
        ensures taken { (first : ℕ) (before : List PageAct) (pieces longer : List Piece)
            → HasTakenPieces first before pieces self.old.acts acts.old rows.old
            → Lengthens pieces at (Some act.now) longer
            → HasTakenPieces first before longer self.new.acts acts.new rows.new }
    {
        self.cut_before(acts, rows, act);
        rows.add(at);
        self.acts.act(acts, rows, act);
        self.news.act(news, rows, act, at);
        rows.first = rows.last + 1;
    }

    /// Cuts the rows that no act has, where the next act is a break.
    #[inline(always)]
    fn cut_before(&mut self, acts: &mut [PageAct], rows: &mut Rows, act: &Act)
        requires { rows.old.last < ROWS_MAX }
        ensures last { rows.new.last ≡ rows.old.last }
        ensures begun { (first : ℕ) (before : List PageAct) (pieces longer : List Piece) (at : ℕ)
            → HasTakenPieces first before pieces self.old.acts acts.old rows.old
            → (turn : Lengthens pieces at (Some act.now) longer)
            → HasBegun first before turn.grown.earlier turn.grown.begun self.new.acts acts.new
            rows.new }
    {
        if let Act::Break(_) = act {
            self.cut(acts, rows);
            rows.first = rows.last + 1;
        }
    }

    /// Takes the rows that no act has, if there are some.
    fn cut(&mut self, acts: &mut [PageAct], rows: &Rows)
        ensures { (first : ℕ) (before : List PageAct) (pieces : List Piece)
            → HasTakenPieces first before pieces self.old.acts acts.old rows.now
            → rows.now.last ≤ ROWS_MAX
            → HasListed first before pieces self.new.acts acts.new }
    {
        if rows.first <= rows.last {
            self.acts.cut(acts, rows);
        }
    }
}
