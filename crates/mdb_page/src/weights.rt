//! How many marks the ends of the ranges of a device rest on.
//!
//! A mark says that an acknowledgement was lost, that a device restarted unseen, or that an
//! approval is the last one again. The runs are those of the verdict. Of the ways to one state and
//! one end, the one with the fewest marks is kept: a step adds the same to both. No clause says
//! that the numbers are right. `tests/page-module` compares them with what `mdbcheck explain`
//! writes, which is proved to be shortest.

ghost use Rattle.std.specs.Prelude.{◌≡◌, ◌<◌, None, length};

use crate::answer::{BAD_OPTIONS, NO, PageTold, TOO_LONG, YES, line_answer};
use crate::lines::{first_line, row_of, without_mark, without_return};
use crate::options::{PageOptions, taken_so};
use crate::scale::{self, PageEnd, SUMS, Scale, Sum};
use mdb_bus::{Act, Bus, Scope};
use mdb_cash::{BILL_STATES, Bill, CHANGER_STATES, Changer};
use mdb_cashless::{ReaderByProfile, STATES_BY_PROFILE};
use mdb_follow::ROWS_MAX;
use mdb_machine::Pair;

/// Weighs the sums of a device (1 changer, 2 bill, 3 and 4 the readers) in the recording that lies
/// in memory as text. `ends` has four entries for each sum, as far as there is room: the least and
/// the greatest end, the one with the fewest marks of all runs, and another one with the fewest
/// marks of those that come elsewhere. That is the same again where no run comes elsewhere. The
/// sums are those of the device, of the controller, and the difference, of the first account and
/// then of the second.
///
/// It returns what `mdb_page_check` does, except 6, and 5 for any other device. With 1 to 5 `ends`
/// stays as it was (this profile; tested). `told` has the number of rows that were read, or of the
/// row that ended it.
#[unsafe(no_mangle)]
pub extern "C" fn mdb_page_weights(
    options: &PageOptions,
    text: &[u8],
    device: u64,
    told: &mut PageTold,
    ends: &mut [PageEnd],
) -> u32 {
    let Some(scope) = taken_so(options) else {
        return BAD_OPTIONS;
    };
    match device {
        1 => weigh_changer(&scope, text, told, ends),
        2 => weigh_bill(&scope, text, told, ends),
        3 => weigh_first_reader(&scope, text, told, ends),
        4 => weigh_second_reader(&scope, text, told, ends),
        _ => BAD_OPTIONS,
    }
}

/// Weighs the changer's sums.
// Like the next ones not inlined, so that the tables of one device alone take room.
#[inline(never)]
fn weigh_changer(scope: &Scope, text: &[u8], told: &mut PageTold, ends: &mut [PageEnd]) -> u32 {
    let mut scale = scale::start::<Changer, CHANGER_STATES>(&scope.begins);
    weigh::<Changer, _>(scope, &mut scale, text, told, ends)
}

/// Weighs the validator's sums.
#[inline(never)]
fn weigh_bill(scope: &Scope, text: &[u8], told: &mut PageTold, ends: &mut [PageEnd]) -> u32 {
    let mut scale = scale::start::<Bill, BILL_STATES>(&scope.begins);
    weigh::<Bill, _>(scope, &mut scale, text, told, ends)
}

/// Weighs the sums of the reader at 10H.
#[inline(never)]
fn weigh_first_reader(
    scope: &Scope,
    text: &[u8],
    told: &mut PageTold,
    ends: &mut [PageEnd],
) -> u32 {
    let mut scale = scale::start::<ReaderByProfile<0>, STATES_BY_PROFILE>(&scope.begins);
    weigh::<ReaderByProfile<0>, _>(scope, &mut scale, text, told, ends)
}

/// Weighs the sums of the reader at 60H.
#[inline(never)]
fn weigh_second_reader(
    scope: &Scope,
    text: &[u8],
    told: &mut PageTold,
    ends: &mut [PageEnd],
) -> u32 {
    let mut scale = scale::start::<ReaderByProfile<1>, STATES_BY_PROFILE>(&scope.begins);
    weigh::<ReaderByProfile<1>, _>(scope, &mut scale, text, told, ends)
}

/// Weighs the sums of a device in the rows of a text, from a scale after no act.
fn weigh<P: Pair, const N: usize>(
    scope: &Scope,
    scale: &mut Scale<P::Facts, N>,
    text: &[u8],
    told: &mut PageTold,
    ends: &mut [PageEnd],
) -> u32
    requires size { N ≡ P.CODES }
{
    let mut bus = Bus::scoped(scope);
    let mut rest = without_mark(text);
    let mut act = Act::Foreign;
    told.row = 0;
    loop {
        match next_act(&mut bus, &mut rest, told, &mut act) {
            None => {
                if !scale::lead::<P, N>(scale, &act) {
                    return NO;
                }
            }
            Some(YES) => {
                put(scale::sums(scale), ends);
                return YES;
            }
            Some(answer) => return answer,
        }
    }
}

/// Reads rows up to the next one that ends an act. Where none does, it answers how the reading
/// ends.
// Not inlined, so that the calls for all devices share it.
#[inline(never)]
fn next_act(bus: &mut Bus, rest: &mut &[u8], told: &mut PageTold, act: &mut Act) -> Option<u32>
    ensures shorter { result ≡ None → length rest.new.now < length rest.old.now }
{
    while !rest.is_empty() {
        let (line, after) = first_line(*rest);
        let line = without_return(line);
        *rest = after;
        if !line.is_empty() {
            if told.row >= ROWS_MAX {
                return Some(TOO_LONG);
            }
            told.row += 1;
            let event = match row_of(line) {
                Ok(event) => event,
                Err(fault) => return Some(line_answer(told, fault)),
            };
            match bus.feed_into(event, act) {
                Ok(true) => return None,
                Ok(false) => {}
                Err(_) => return Some(NO),
            }
        }
    }
    Some(YES)
}

/// Puts the ends of sums, if there are some, into a list, as far as there is room.
fn put(sums: Option<[Sum; SUMS]>, ends: &mut [PageEnd]) {
    let Some(sums) = sums else {
        return;
    };
    let mut place = 0;
    for sum in &sums {
        for end in &[sum.least, sum.greatest, sum.first, sum.second] {
            if place < ends.len() {
                ends[place] = *end;
                place += 1;
            }
        }
    }
}
