//! How good a way is: what its gains count for a goal, and how many marks it has.

ghost use Rattle.std.specs.Prelude.{◌≡◌, ◌<◌, ◌^◌, ℕ, ℤ, pos, neg_ℤ, ◌≤ℤ◌, length};
ghost use Rattle.std.specs.Bool.{OnFalse, OnTrue};
ghost use Rattle.mdb_machine.specs.SmallGains.{IsSmall};
ghost use Rattle.mdb_follow.specs.Ends.{side_value};
ghost use Rattle.mdb_run_search.specs.Marks.{marks_at};
ghost use Rattle.mdb_run_search.specs.inner.Paths.{IsAsGood};
ghost use Rattle.mdb_run_search.specs.inner.Weights.{towards, weight_of};

use super::chains::Chain;
use mdb_follow::{AccountSide, Bound};
use mdb_machine::{Choice, Gains, amount_at};

/// What the gains of a device count for a goal: less is always better.
#[derive(Clone, Copy)]
pub(crate) enum Weight {
    /// Nothing: the goal is of another device.
    Nothing,
    /// Those of the account in a slot.
    Account(usize, AccountSide, Bound),
}

impl Weight {
    /// What gains count.
    pub(crate) fn of(&self, gains: &Gains) -> i64
        requires { IsSmall gains.now }
        ensures is { result ≡ weight_of self.now gains.now }
        ensures low { neg_ℤ (pos (2 ^ 32)) ≤ℤ result }
        ensures high { result ≤ℤ pos (2 ^ 32) }
    {
        match self {
            Weight::Nothing => 0,
            Weight::Account(slot, side, bound) => {
                let device = amount_at(&gains.device, *slot);
                let controller = amount_at(&gains.controller, *slot);
                weighed(*side, *bound, device, controller)
            }
        }
    }
}

/// What gains of an account count for an end of a range of one side.
fn weighed(side: AccountSide, bound: Bound, device: u64, controller: u64) -> i64
    requires device { device < 2 ^ 32 }
    requires controller { controller < 2 ^ 32 }
    ensures is { result ≡ towards bound (side_value side (record {
      device = device;
      controller = controller;
    })) }
    ensures low { neg_ℤ (pos (2 ^ 32)) ≤ℤ result }
    ensures high { result ≤ℤ pos (2 ^ 32) }
{
    let device = device as i64;
    let controller = controller as i64;
    let value = match side {
        AccountSide::Device => device,
        AccountSide::Controller => controller,
        AccountSide::Difference => device - controller,
    };
    match bound {
        Bound::Least => value,
        Bound::Greatest => -value,
    }
}

/// How many marks a choice has: one, or none.
pub(crate) fn marks_of(choice: Choice) -> u64
    ensures { (row : ℕ) → result ≡ length (marks_at row choice) }
{
    match choice {
        Choice::Plain => 0,
        Choice::Lost | Choice::Restart | Choice::Again => 1,
    }
}

/// The best way to a state: what the sums count there, how many marks it has, and these.
#[derive(Clone, Copy)]
pub(crate) struct Best {
    pub(crate) value: i64,
    pub(crate) marks: u64,
    pub(crate) chain: Chain,
}

impl Best {
    /// That of a way through no act.
    pub(crate) const NOTHING: Best = Best {
        value: 0,
        marks: 0,
        chain: Chain::EMPTY,
    };

    /// Whether a value with so many marks is better: it is less, or the same with fewer marks.
    pub(crate) fn is_beaten_by(&self, value: i64, marks: u64) -> bool
        ensures better { OnTrue result (IsAsGood value marks self.now.value self.now.marks) }
        ensures not { OnFalse result (IsAsGood self.now.value self.now.marks value marks) }
    {
        value < self.value || value == self.value && marks < self.marks
    }
    /// Whether another is better.
    pub(crate) fn is_worse_than(&self, other: &Best) -> bool
        ensures worse { OnTrue result (IsAsGood other.now.value other.now.marks self.now.value
            self.now.marks) }
        ensures not { OnFalse result (IsAsGood self.now.value self.now.marks other.now.value
            other.now.marks) }
    {
        self.is_beaten_by(other.value, other.marks)
    }
}
