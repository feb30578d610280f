//! Rows that are read before they are checked.

ghost use Rattle.std.specs.Prelude.{◌≡◌, ◌+◌, ◌<◌, ◌≤◌, List, ℕ, None, Some, length};
ghost use Rattle.mdb_records.specs.declared.ReadFault.{ReadFault};
ghost use Rattle.mdb_records.specs.ToCome.{IsOverLimit, ToCome, fault_of, found_by};
ghost use Rattle.mdb_verdict.specs.Batch.{FindsAtMost, FitsIn, BatchGoesOnOver, HasRead, IsMet};

use super::row::FromRecord;
use mdb_records::{ReadFault, Records};
use mdb_words::RowFault;
use std::io::Read;
use std::marker::Model;

/// The most rows in a batch.
pub const BATCH: usize = 128;

/// So many bytes have a whole row, where it is written as recorders write it.
const ROW_BYTES: u64 = 64;

/// What comes after the rows of a batch.
#[derive(Clone, Copy, PartialEq, Eq, Debug)]
pub enum Next {
    /// The next batch shows it: this one is full, or the text isn't there yet.
    More,
    /// Nothing: the text ends here.
    End,
    /// A record that is no row.
    BadRow(RowFault),
    /// A record that can't be read.
    Failed(ReadFault),
}

/// Rows that were read, and are checked next.
///
/// Reading and checking take turns by batches. A processor does the same work for many rows faster
/// than it changes the work after each row. A clause sees the rows as a list.
#[derive(Drop)]
pub struct Batch<T> {
    rows: [T; BATCH],
    count: usize,
}

impl<T> Model for Batch<T> {
    ghost use Rattle.std.specs.Prelude.{List, ◌≡◌, ◌≤◌, length, take};
    ghost use Rattle.mdb_verdict.specs.declared.batch.TheConstants.{BATCH};

    ghost Value = { List T };

    ghost view = { λ b. take b.count b.rows };

    ghost invariant = { λ b. (b.count ≤ BATCH) × (length b.rows ≡ BATCH) };
}

impl<T: FromRecord> Batch<T> {
    ghost use Rattle.std.specs.Prelude.{[], ◌∷◌, ◌++◌};

    /// No rows.
    pub fn new() -> Batch<T>
        ensures { result ≡ [] }
    {
        Batch {
            rows: [T::blank(); BATCH],
            count: 0,
        }
    }

    /// Leaves out all rows.
    fn clear(&mut self)
        ensures { self.new ≡ [] }
    {
        self.count = 0;
    }

    /// Adds the next row.
    fn push(&mut self, row: T)
        requires { length self.old < BATCH }
        ensures { self.new ≡ self.old ++ row ∷ [] }
    {
        self.rows[self.count] = row;
        self.count += 1;
    }

    /// The rows.
    pub fn as_slice(&self) -> &[T]
        ensures rows { result.now ≡ self.now }
        ensures few { length self.now ≤ BATCH }
    {
        &self.rows[..self.count]
    }

    /// Reads the next rows in place of these, at most `rows_max`, and answers what comes after
    /// them.
    ///
    /// It ends after a row where less of the text was read ahead than a row may have. So no row
    /// waits to be followed while the next one is awaited, unless that is written in more bytes
    /// than recorders take, or after many blank lines. And it ends after what is taken alone.
    // Not inlined, so that its loop has the processor's registers to itself.
    #[inline(never)]
    pub fn refill<R: Read + Drop>(&mut self, records: &mut Records<R>, rows_max: u64) -> Next
        requires { 0 < rows_max }
        ensures read { (all : List (List (List ℕ))) → ToCome R.remaining records.old all
            → HasRead T.is T.refuses R.remaining all records.new self.new result }
        ensures over { IsOverLimit R.remaining records.old
            → BatchGoesOnOver R.remaining records.new result }
        ensures met { fault_of records.old ≡ None → IsMet result (fault_of records.new) }
        ensures fits { FitsIn rows_max self.new result }
        ensures failed { (fault : ReadFault) → result ≡ Next.Failed fault
            → fault_of records.new ≡ Some fault }
        ensures counted { FindsAtMost result (found_by records.old + length self.new)
            (found_by records.new) }
    {
        self.clear();
        for _ in 0..rows_max.min(BATCH as u64) {
            let found = match records.advance() {
                Ok(found) => found,
                Err(fault) => return Next::Failed(fault),
            };
            if !found {
                return Next::End;
            }
            let row = match T::of(&records.row()) {
                Ok(row) => row,
                Err(fault) => return Next::BadRow(fault),
            };
            self.push(row);
            if row.is_alone() || records.bytes_ahead() < ROW_BYTES {
                return Next::More;
            }
        }
        Next::More
    }
}
