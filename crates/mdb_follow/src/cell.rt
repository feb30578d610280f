//! The bounds of all sums of a device.

ghost use Rattle.std.specs.Prelude.{◌≡◌, ◌<◌, ◌^◌};
ghost use Rattle.mdb_machine.specs.declared.gains.TheConstants.{SLOTS};
ghost use Rattle.mdb_machine.specs.SmallGains.{IsSmall};
ghost use Rattle.mdb_follow.specs.Cells.{joined_cell, joined_slot, moved_cell, moved_slot};
ghost use Rattle.mdb_follow.specs.Limits.{IsCellWithin};

use crate::Account;
use mdb_machine::{Gains, SLOTS};

/// The bounds of a pair's accounts.
#[derive(Clone, Copy, PartialEq, Eq, Debug, Default)]
pub struct Cell {
    /// Those of each account, by its slot.
    pub accounts: [Account; SLOTS],
}

impl Cell {
    /// No money moved: all bounds are 0.
    pub const NOTHING: Cell = Cell {
        accounts: [Account::NOTHING; SLOTS],
    };

    /// The bounds after a step, which adds these gains.
    #[tactic(auto, unfolding(crate::specs::Cells::moved_cell))]
    pub fn moved(&self, gains: &Gains) -> Cell
        requires within { IsCellWithin (2 ^ 62) self.now }
        requires small { IsSmall gains.now }
        ensures { result ≡ moved_cell self.now gains.now }
    {
        Cell {
            accounts: [self.moved_at(gains, 0), self.moved_at(gains, 1)],
        }
    }

    /// The cell of sums that are in one of two.
    #[tactic(auto, unfolding(crate::specs::Cells::joined_cell))]
    pub(crate) fn joined(&self, other: &Cell) -> Cell
        ensures { result ≡ joined_cell self.now other.now }
    {
        Cell {
            accounts: [self.joined_at(other, 0), self.joined_at(other, 1)],
        }
    }

    /// The bounds of the account in a slot after a step.
    #[inline(always)]
    fn moved_at(&self, gains: &Gains, slot: usize) -> Account
        requires slot { slot < SLOTS }
        requires within { IsCellWithin (2 ^ 62) self.now }
        requires small { IsSmall gains.now }
        ensures { result ≡ moved_slot self.now gains.now slot }
    {
        self.accounts[slot].moved(gains.device[slot], gains.controller[slot])
    }

    /// The account in a slot, of sums that are in one of two.
    #[inline(always)]
    fn joined_at(&self, other: &Cell, slot: usize) -> Account
        requires { slot < SLOTS }
        ensures { result ≡ joined_slot self.now other.now slot }
    {
        self.accounts[slot].joined(&other.accounts[slot])
    }
}
