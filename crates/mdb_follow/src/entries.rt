//! The entries of a table: codes with their cells.

ghost use Rattle.std.specs.Prelude.{◌≡◌, ◌<◌, ◌++◌, ◌==◌, ℕ, List, [], ◌∷◌, length, slice_set};
ghost use Rattle.mdb_follow.specs.declared.cell.Cell.{Cell};
ghost use Rattle.mdb_follow.specs.Limits.{IsCellWithin, IsTableWithin};
ghost use Rattle.mdb_follow.specs.inner.Entries.{joined_cells};

pub(crate) mod steps;

use crate::Cell;
use std::marker::Model;

/// A list of at most `N` entries, which lie in the value itself. A clause sees a list.
///
/// What stands after the last entry may be anything, so that emptying a list costs nothing.
#[derive(Drop)]
pub(crate) struct Entries<const N: usize> {
    /// The entries, and after them what is no matter.
    cells: [(usize, Cell); N],
    /// How many entries there are.
    count: usize,
}

impl<const N: usize> Model for Entries<N> {
    ghost use Rattle.std.specs.Prelude.{ℕ, List, ◌≤◌, take};
    ghost use Rattle.mdb_follow.specs.declared.cell.Cell.{Cell};

    ghost Value = { List (ℕ × Cell) };

    ghost view = { λ e. take e.count e.cells };

    ghost invariant = { λ e. e.count ≤ N };
}

impl<const N: usize> Entries<N> {
    /// No entry.
    pub(crate) fn new() -> Entries<N>
        ensures { result ≡ [] }
    {
        Entries {
            cells: [(0, Cell::NOTHING); N],
            count: 0,
        }
    }

    /// How many there are.
    #[inline(always)]
    pub(crate) fn len(&self) -> usize
        ensures { result ≡ length self.now }
    {
        self.as_slice().len()
    }

    /// Whether there is none.
    #[inline(always)]
    pub(crate) fn is_empty(&self) -> bool
        ensures { result ≡ (length self.now == 0) }
    {
        self.as_slice().is_empty()
    }

    /// The entries.
    #[inline(always)]
    pub(crate) fn as_slice(&self) -> &[(usize, Cell)]
        ensures { result.now ≡ self.now }
    {
        &self.cells[..self.count]
    }

    /// Drops all entries.
    #[inline(always)]
    pub(crate) fn clear(&mut self)
        ensures { self.new ≡ [] }
    {
        let _ = &self.cells;
        self.count = 0;
    }

    /// Puts an entry after the others.
    #[inline(always)]
    pub(crate) fn push(&mut self, code: usize, cell: Cell)
        requires { length self.old < N }
        ensures { self.new ≡ self.old ++ (code, cell) ∷ [] }
    {
        self.cells[self.count] = (code, cell);
        self.count += 1;
    }

    /// Puts an entry in place of one.
    #[inline(always)]
    pub(crate) fn set(&mut self, place: usize, code: usize, cell: Cell)
        requires { place < length self.old }
        ensures { self.new ≡ slice_set self.old place (code, cell) }
    {
        let cells = &mut self.cells;
        cells[place] = (code, cell);
    }
}

/// The join of all cells; where there is none, all ranges are from 0 to 0.
pub(crate) fn join_all(entries: &[(usize, Cell)]) -> Cell
    ensures joined { (first : ℕ × Cell) (rest : List (ℕ × Cell)) → entries.now ≡ first ∷ rest
        → result ≡ joined_cells first.1 rest }
    ensures within { (limit : ℕ) → IsTableWithin limit entries.now → IsCellWithin limit result }
{
    let Some(((_, first), rest)) = entries.split_first() else {
        return Cell::NOTHING;
    };
    let mut all = *first;
    for (_, cell) in rest {
        all = all.joined(cell);
    }
    all
}
