//! The states of a device and the controller that are possible now, each with the ends of their
//! sums, and the fewest marks with which a run comes there.

ghost use Rattle.std.specs.Prelude.{◌≡◌, ◌<◌};

use mdb_bus::{Act, Beginning};
use mdb_follow::{Owner, owner_of};
use mdb_machine::{Choice, Gains, Pair, other_choice};

/// How many sums a device and the controller have: of each account the device's, the controller's
/// and their difference.
pub(crate) const SUMS: usize = 6;

/// A sum to which a run may come, and the marks of one that does.
// It has no unused byte, so that a table of it is cleared at once.
#[repr(C)]
#[derive(Clone, Copy)]
pub struct PageEnd {
    /// The sum, in smallest units of money.
    pub value: i64,
    /// How many acknowledgements were lost.
    pub lost: u64,
    /// How many restarts went unseen.
    pub restarts: u32,
    /// How many approvals are the last one again.
    pub repeats: u32,
}

impl PageEnd {
    /// That of a run through no act.
    const NOTHING: PageEnd = PageEnd {
        value: 0,
        lost: 0,
        restarts: 0,
        repeats: 0,
    };

    /// After a step, which adds so much by a choice.
    fn after(&self, gain: i64, choice: Choice) -> PageEnd {
        let mut end = *self;
        end.value = end.value.saturating_add(gain);
        match choice {
            Choice::Plain => {}
            Choice::Lost => end.lost = end.lost.saturating_add(1),
            Choice::Restart => end.restarts = end.restarts.saturating_add(1),
            Choice::Again => end.repeats = end.repeats.saturating_add(1),
        }
        end
    }

    /// How many marks there are.
    fn marks(&self) -> u64 {
        let others = u64::from(self.restarts) + u64::from(self.repeats);
        self.lost.saturating_add(others)
    }

    /// Whether it has fewer marks than another, or as many, and more of them are losses.
    fn is_lighter_than(&self, other: &PageEnd) -> bool {
        let (mine, its) = (self.marks(), other.marks());
        mine < its || mine == its && self.lost > other.lost
    }
}

/// What a sum may be in a state.
#[derive(Clone, Copy)]
pub(crate) struct Sum {
    /// The least one.
    pub(crate) least: PageEnd,
    /// The greatest one.
    pub(crate) greatest: PageEnd,
    /// The one with the fewest marks.
    pub(crate) first: PageEnd,
    /// Of all others, the one with the fewest marks; the same again if there is no other.
    pub(crate) second: PageEnd,
}

impl Sum {
    /// That of a run through no act.
    const NOTHING: Sum = Sum {
        least: PageEnd::NOTHING,
        greatest: PageEnd::NOTHING,
        first: PageEnd::NOTHING,
        second: PageEnd::NOTHING,
    };

    /// After a step, which adds so much by a choice.
    fn after(&self, gain: i64, choice: Choice) -> Sum {
        Sum {
            least: self.least.after(gain, choice),
            greatest: self.greatest.after(gain, choice),
            first: self.first.after(gain, choice),
            second: self.second.after(gain, choice),
        }
    }

    /// Takes in what the sum may be by other runs.
    fn join(&mut self, more: &Sum) {
        if is_better(more.least.value, self.least.value, &more.least, &self.least) {
            self.least = more.least;
        }
        if is_better(
            self.greatest.value,
            more.greatest.value,
            &more.greatest,
            &self.greatest,
        ) {
            self.greatest = more.greatest;
        }
        self.join_one(&more.first);
        self.join_one(&more.second);
    }

    /// Takes in a sum to which a run comes.
    fn join_one(&mut self, end: &PageEnd) {
        if end.is_lighter_than(&self.first) {
            if end.value != self.first.value {
                self.second = self.first;
            }
            self.first = *end;
        } else if end.value != self.first.value && self.is_open_to(end) {
            self.second = *end;
        }
    }

    /// Whether a sum that isn't the one with the fewest marks has the fewest of all others.
    fn is_open_to(&self, end: &PageEnd) -> bool {
        self.second.value == self.first.value || end.is_lighter_than(&self.second)
    }
}

/// Whether one end is farther out than another, or as far with fewer marks.
fn is_better(value: i64, its: i64, end: &PageEnd, other: &PageEnd) -> bool {
    value < its || value == its && end.is_lighter_than(other)
}

/// By how much one amount is more than another.
fn excess(one: u64, other: u64) -> i64 {
    signed(one).saturating_sub(signed(other))
}

/// An amount as a number that may be negative.
fn signed(amount: u64) -> i64 {
    match i64::try_from(amount) {
        Ok(amount) => amount,
        Err(_) => i64::MAX,
    }
}

/// What gains add to each sum.
fn added(gains: &Gains) -> [i64; SUMS] {
    let (device, controller) = (&gains.device, &gains.controller);
    [
        excess(device[0], 0),
        excess(controller[0], 0),
        excess(device[0], controller[0]),
        excess(device[1], 0),
        excess(controller[1], 0),
        excess(device[1], controller[1]),
    ]
}

/// Takes in what a step from a state leads to: as the sums of the state after it, or, if there are
/// some, beside them.
// Not inlined, so that all devices share it.
#[inline(never)]
fn take_in(
    sums: &mut [Sum; SUMS],
    are_there: bool,
    before: &[Sum; SUMS],
    gains: &Gains,
    choice: Choice,
) {
    let gains = added(gains);
    for i in 0..SUMS {
        let sum = before[i].after(gains[i], choice);
        if are_there {
            sums[i].join(&sum);
        } else {
            sums[i] = sum;
        }
    }
}

/// The sums in each state that is possible, by its code.
#[derive(Drop)]
struct States<const N: usize> {
    /// Whether it is possible.
    are_possible: [bool; N],
    /// Its sums. Those of a state that isn't possible may be anything.
    sums: [[Sum; SUMS]; N],
}

impl<const N: usize> States<N> {
    /// None.
    fn none() -> States<N> {
        States {
            are_possible: [false; N],
            sums: [[Sum::NOTHING; SUMS]; N],
        }
    }

    /// Drops all.
    fn clear(&mut self) {
        for code in 0..N {
            self.are_possible[code] = false;
        }
    }

    /// Takes in what a step leads to.
    fn take(&mut self, code: usize, before: &[Sum; SUMS], gains: &Gains, choice: Choice) {
        if code < N {
            let sums = &mut self.sums[code];
            take_in(sums, self.are_possible[code], before, gains, choice);
            self.are_possible[code] = true;
        }
    }

    /// Whether none is possible.
    fn are_none(&self) -> bool {
        for code in 0..N {
            if self.are_possible[code] {
                return false;
            }
        }
        true
    }

    /// The sums in all states together; `None` where none is possible.
    fn all_sums(&self) -> Option<[Sum; SUMS]> {
        let mut all = None;
        for code in 0..N {
            if self.are_possible[code] {
                all = Some(joined(all, &self.sums[code]));
            }
        }
        all
    }
}

/// Sums, with those of a state taken in.
// Not inlined either.
#[inline(never)]
fn joined(all: Option<[Sum; SUMS]>, more: &[Sum; SUMS]) -> [Sum; SUMS] {
    let Some(mut sums) = all else {
        return *more;
    };
    for i in 0..SUMS {
        sums[i].join(&more[i]);
    }
    sums
}

/// The sums of a device and the controller after the acts so far.
#[derive(Drop)]
pub(crate) struct Scale<F: Drop, const N: usize> {
    /// What is known after them.
    facts: F,
    /// The states that are possible, or room for the next ones.
    one: States<N>,
    /// Room for the next ones, or the states.
    other: States<N>,
    /// Whether the states are in `other`.
    is_turned: bool,
}

/// The scale after no act, of a recording that begins so.
pub(crate) fn start<P: Pair, const N: usize>(begins: &Beginning) -> Scale<P::Facts, N>
    requires size { N ≡ P.CODES }
{
    let mut one = States::none();
    for code in 0..N {
        one.are_possible[code] = P::may_start(begins, P::state(code));
    }
    Scale {
        facts: P::facts_start(begins),
        one,
        other: States::none(),
        is_turned: false,
    }
}

/// Leads a scale over an act. Where no run leads over it, it answers `false`.
pub(crate) fn lead<P: Pair, const N: usize>(scale: &mut Scale<P::Facts, N>, act: &Act) -> bool
    requires size { N ≡ P.CODES }
{
    match owner_of(act) {
        Owner::One(device) => {
            if device != P::device() {
                return true;
            }
        }
        Owner::All => {}
        Owner::Nobody => return true,
    }
    let goes = if scale.is_turned {
        replace::<P, N>(&scale.facts, act, &scale.other, &mut scale.one)
    } else {
        replace::<P, N>(&scale.facts, act, &scale.one, &mut scale.other)
    };
    P::learn(&mut scale.facts, act);
    match goes {
        Goes::Nowhere => false,
        Goes::Still => true,
        Goes::On => {
            scale.is_turned = !scale.is_turned;
            true
        }
    }
}

/// Where the runs go by an act.
enum Goes {
    /// No run goes on.
    Nowhere,
    /// All states and sums stay.
    Still,
    /// The states after it were made.
    On,
}

/// Makes the states after an act from those before it, unless all stay.
// Not inlined, since it is called for both tables.
#[inline(never)]
fn replace<P: Pair, const N: usize>(
    facts: &P::Facts,
    act: &Act,
    from: &States<N>,
    into: &mut States<N>,
) -> Goes
    requires size { N ≡ P.CODES }
{
    if !P::concerns(act) || all_rest::<P, N>(act, from) {
        return Goes::Still;
    }
    into.clear();
    for code in 0..N {
        if from.are_possible[code] {
            take_steps::<P, N>(facts, act, code, &from.sums[code], into);
        }
    }
    if into.are_none() {
        Goes::Nowhere
    } else {
        Goes::On
    }
}

/// Whether an act leaves all states, and their sums.
fn all_rest<P: Pair, const N: usize>(act: &Act, states: &States<N>) -> bool
    requires size { N ≡ P.CODES }
{
    for code in 0..N {
        if states.are_possible[code] && !P::rests(act, P::state(code)) {
            return false;
        }
    }
    true
}

/// Takes in what all steps by an act lead to from the state of a code.
fn take_steps<P: Pair, const N: usize>(
    facts: &P::Facts,
    act: &Act,
    code: usize,
    before: &[Sum; SUMS],
    into: &mut States<N>,
)
    requires { code < P.CODES }
{
    take_chosen::<P, N>(facts, act, code, Choice::Plain, before, into);
    if P::heeds_choice(act, P::state(code)) {
        if let Some(choice) = other_choice(act) {
            take_chosen::<P, N>(facts, act, code, choice, before, into);
        }
    }
}

/// Takes in what the steps by an act under a choice lead to from the state of a code.
// Not inlined, since it is called for both choices.
#[inline(never)]
fn take_chosen<P: Pair, const N: usize>(
    facts: &P::Facts,
    act: &Act,
    code: usize,
    choice: Choice,
    before: &[Sum; SUMS],
    into: &mut States<N>,
)
    requires { code < P.CODES }
{
    if P::settles(facts, act) {
        if let Some((next, gains)) = P::step(facts, act, code, choice) {
            into.take(next, before, &gains, choice);
        }
        return;
    }
    for (next, gains) in P::steps(facts, act, code, choice).as_slice() {
        into.take(*next, before, gains, choice);
    }
}

/// The sums after the acts so far, whatever the state is.
pub(crate) fn sums<F: Drop, const N: usize>(scale: &Scale<F, N>) -> Option<[Sum; SUMS]> {
    if scale.is_turned {
        scale.other.all_sums()
    } else {
        scale.one.all_sums()
    }
}
