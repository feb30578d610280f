//! Reading rows, batch by batch, for a type that accepts them.

ghost use Rattle.std.specs.Prelude.{◌≡◌, ◌+◌, ◌^◌, ◌<◌, ◌≤◌, ◌≢◌, List, ℕ, [], IfErr, IfOk, IfSome, IsErr, IsErrOf, None, Ok, Option, length};
ghost use Rattle.mdb_records.specs.ToCome.{IsOverLimit, ToCome, fault_of, found_by};
ghost use Rattle.mdb_bus.specs.declared.scope.Scope.{Scope};
ghost use Rattle.mdb_verdict.specs.Ending.{EndsAfter, FindsUpTo, HasEnded, HasTakenOrStopped, HasTakenOrStoppedAt, IsHeard, IsStop, IsToldEnd, goes_on_by, run_fault_of};

use super::batch::{Batch, Next};
use super::fault::RunFault;
use super::row::FromRecord;
use mdb_records::Records;
use std::io::Read;

/// A type that accepts rows as they are read, until it stops at one of them. What it reports
/// meanwhile goes to an `O`.
pub trait TakeRows<O> {
    /// The kind of row that it reads a record as.
    type Row: FromRecord;

    /// Why it stops at a row.
    type Stop: Drop;

    /// The most rows that it can accept.
    ghost most: { ℕ };

    /// The number of rows that it has accepted.
    ghost count: { Self → ℕ };

    /// What no row changes: how the recording is taken, and of some types also the form of what
    /// they write.
    ghost Kept: { Type 0 } = { Scope };

    /// What it has of that.
    ghost kept: { Self → Self.Kept };

    /// It has taken these rows and no others. What it tells to was in the first state before them,
    /// and is in the second.
    ghost has: { Self → O → O → List Self.Row → Type 0 };

    /// After the earlier rows it has stopped at this one.
    ghost stops: { Self → O → O → List Self.Row → Self.Row → Self.Stop → Type 0 };

    /// The number of rows that it has accepted.
    fn rows_taken(&self) -> u64
        ensures { result ≡ count self.now };

    /// Takes the next row, or tells why it stops at it.
    fn take(&mut self, out: &mut O, row: Self::Row) -> Option<Self::Stop>
        requires begun { (before : O) × (earlier : List Self.Row)
            × has self.old before out.old earlier }
        requires room { count self.old < most }
        ensures taken { (before : O) (earlier : List Self.Row) → has self.old before out.old earlier
            → HasTakenOrStoppedAt (has self.new before out.new) (stops self.new before out.new)
            earlier row result }
        // The row changes nothing of it.
        ensures keeps { kept self.new ≡ kept self.old };

    /// Takes the next rows, or tells why it stops at one of them.
    // Not inlined, so that its loop has the processor's registers to itself.
    #[inline(never)]
    fn take_all(&mut self, out: &mut O, rows: &[Self::Row]) -> Option<Self::Stop>
        requires begun { (before : O) × (earlier : List Self.Row)
            × has self.old before out.old earlier }
        requires room { count self.old + length rows.now ≤ most }
        ensures taken { (before : O) (earlier : List Self.Row) → has self.old before out.old earlier
            → HasTakenOrStopped (has self.new before out.new) (stops self.new before out.new)
            earlier rows.now result }
        ensures keeps { kept self.new ≡ kept self.old }
    {
        for row in rows {
            if let Some(stop) = self.take(out, *row) {
                return Some(stop);
            }
        }
        None
    }

    /// Which rows it has taken tells how many.
    ghost counts: { (taker : Self) (before after : O) (rows : List Self.Row)
        → has taker before after rows → count taker ≡ length rows };
}

/// Reads the rows that are still to come, at most so many, into a batch, and has them taken.
/// Answers why that stopped at a row, or nothing at the end of the text.
///
/// # Errors
///
/// `BadRow` for the first record that is no row, `TooLong` for a record past the last row that
/// there may be, `Read` and `Memory` where a record can't be read: where the rows before it were
/// all taken.
pub fn read_rows<R: Read + Drop, O, T: TakeRows<O>>(
    records: &mut Records<R>,
    batch: &mut Batch<T::Row>,
    taker: &mut T,
    out: &mut O,
    rows_max: u64,
) -> Result<Option<T::Stop>, RunFault>
    requires begun { T.has taker.old out.old out.old [] }
    requires limit { rows_max ≤ T.most }
    requires small { rows_max < 2 ^ 63 }
    ensures ended { (all : List (List (List ℕ))) → ToCome R.remaining records.old all
        → HasEnded T.Row.is T.Row.refuses (T.has taker.new out.old out.new)
        (T.stops taker.new out.old out.new) rows_max all result }
    ensures whole { IsOverLimit R.remaining records.old → result ≢ Ok None }
    ensures few { result ≡ Ok None → T.count taker.new ≤ rows_max }
    ensures taken { result ≡ Ok None
        → (rows : List T.Row) × T.has taker.new out.old out.new rows }
    ensures stopped { IfOk result (λ stop. IfSome stop
        (IsStop (T.stops taker.new out.old out.new))) }
    ensures heard { IfErr result (IsHeard (fault_of records.new)) }
    ensures met { fault_of records.old ≡ None → IfSome (fault_of records.new)
        (λ fault. IsToldEnd fault result) }
    ensures keeps { T.kept taker.new ≡ T.kept taker.old }
    ensures counted { IfErr result (λ fault. FindsUpTo fault
        (found_by records.old + T.count taker.new) (found_by records.new)) }
{
    while taker.rows_taken() < rows_max {
        let next = batch.refill(records, rows_max - taker.rows_taken());
        if let Some(stop) = taker.take_all(out, batch.as_slice()) {
            return Ok(Some(stop));
        }
        if !goes_on(next, taker.rows_taken())? {
            return Ok(None);
        }
    }
    expect_end(records, batch)?;
    Ok(None)
}

/// Whether rows may come after so many of them, of which the last is followed by this.
fn goes_on(next: Next, rows: u64) -> Result<bool, RunFault>
    requires { rows < 2 ^ 63 }
    ensures { result ≡ goes_on_by next rows }
{
    match next {
        Next::More => Ok(true),
        Next::End => Ok(false),
        Next::BadRow(fault) => Err(RunFault::BadRow {
            row: rows + 1,
            fault,
        }),
        Next::Failed(fault) => Err(RunFault::from(fault)),
    }
}

/// Refuses a record after as many rows as there may be, whatever it holds.
fn expect_end<R: Read + Drop, T: FromRecord>(
    records: &mut Records<R>,
    batch: &mut Batch<T>,
) -> Result<(), RunFault>
    ensures ends { (rest : List (List (List ℕ))) → ToCome R.remaining records.old rest
        → EndsAfter rest result }
    ensures over { IsOverLimit R.remaining records.old → IsErr result }
    ensures heard { IfErr result (IsHeard (fault_of records.new)) }
    ensures met { fault_of records.old ≡ None → IfSome (fault_of records.new)
        (λ fault. IsErrOf result (run_fault_of fault)) }
    ensures counted { IfErr result (λ fault. FindsUpTo fault (found_by records.old)
        (found_by records.new)) }
{
    match batch.refill(records, 1) {
        Next::End => Ok(()),
        Next::Failed(fault) => Err(RunFault::from(fault)),
        Next::More | Next::BadRow(_) => Err(RunFault::TooLong),
    }
}
