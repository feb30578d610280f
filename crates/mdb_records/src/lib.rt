//! The CSV records of a text, one at a time, from any reader, with a limit on the number of bytes.
//!
//! A text that is longer than the limit is an error, and never looks like the end of the text. So
//! each record that [`Records`] returns is a record of the whole text, and the end is the end of
//! the whole text.
//!
//! Records without quotes on lines that end in LF are cut at their commas, line by line. `csv`
//! reads the text from the first other record on. Both ways give the same records.
#![tactic(auto)]

ghost use Rattle.std.specs.Prelude.{◌≡◌, ◌<◌, ◌≤◌, ◌+◌, ◌-◌, ◌^◌, ◌↔◌, ◌⊎◌, min, ℕ, All, List, []};
ghost use Rattle.std.specs.Prelude.{None, length, true, IfErr, IfOk, OnOk, IfSome, IsSome, IsTrue};
ghost use Rattle.std.specs.Prelude.{Some, Err, if◌then◌else◌};
ghost use Rattle.csv.specs.Reading.{default_config, records, strip_bom};
ghost use Rattle.csv.specs.Records as csv;
ghost use Rattle.mdb_records.specs.Fields.{fields_of};
ghost use Rattle.mdb_records.specs.Found.{count_after};
ghost use Rattle.mdb_records.specs.SetUp.{IsSetUp, reader_in};
ghost use Rattle.mdb_records.specs.Parts.{AreWithin};
ghost use Rattle.mdb_records.specs.Stage.{ends_on, line_on, source_in};

mod limited;
mod lines;
mod plain;
mod record;
mod stage;

use csv::ByteRecord;
use limited::Limited;
use lines::Lines;
use record::Fields;
pub use record::Record;
use stage::Stage;
use std::alloc::Global;
use std::io::Read;
use std::{io, mem};

// For so many bytes of a record there is room from the start. A longer one makes room itself.
const ROW_BYTES: usize = 64;

// And for so many fields.
const ROW_FIELDS: usize = 4;

/// Why the next record can't be read.
#[derive(Clone, Copy, PartialEq, Eq, Debug)]
pub enum ReadFault {
    /// The reader failed, or its text goes on past the limit.
    Read,
    /// Memory was refused.
    Memory,
}

/// Why reading ended with [`ReadFault::Read`].
#[derive(Clone, Copy, PartialEq, Eq, Debug)]
pub enum ReadCause {
    /// The reader failed.
    Failed,
    /// The reader has no byte yet, and doesn't wait for one (`WouldBlock`).
    WouldBlock,
    /// The text goes on past the limit.
    OverLimit,
}

/// The records of the rest of a reader's text, one after the other.
#[derive(Drop)]
pub struct Records<R> {
    alloc: Global,
    stage: Stage<R>,
    // Where the fields of the line that was taken last end.
    ends: Vec<usize>,
    // The record that csv read last, whose memory the next one uses again.
    row: ByteRecord,
    // The fault that ended the reading.
    fault: Option<ReadFault>,
    // How many records were found.
    found: u64,
    ghost set_up: { fault ≡ None → IsSetUp stage },
    ghost there: { IsSome (source_in stage) },
    ghost within: { AreWithin (ends_on stage ends.items) (length (line_on stage)) },
}

impl<R: Read + Drop> Records<R> {
    ghost use Rattle.mdb_records.specs.Cause.{HasBlocked};
    ghost use Rattle.mdb_records.specs.ToCome.{Advances, IsOverLimit, IsUncut, ToCome};
    ghost use Rattle.mdb_records.specs.Found.{found_after};
    ghost use Rattle.mdb_records.specs.ToCome.{IsPastLimit, current_fields, fault_of, found_by};
    ghost use Rattle.mdb_records.specs.ToCome.{given_by, limit_of};

    /// The records of the text that `reader` has left, which may be at most `limit` bytes long:
    /// past them one more byte is asked for, to tell the end from a longer text. Fields are
    /// separated by commas and may be quoted, lines end in LF, CR or both, and blank lines are no
    /// records.
    ///
    /// A text within the limit is not cut, though no clause says that it is read to its end, since
    /// a reader may fail at any time.
    pub fn new(alloc: Global, reader: R, limit: u64) -> Records<R>
        ensures records { IfSome (R.remaining reader) (λ text.
            ToCome R.remaining result (records default_config (strip_bom text))) }
        ensures over { IfSome (R.remaining reader) (λ text.
            limit < length text → IsOverLimit R.remaining result) }
        ensures within { IfSome (R.remaining reader) (λ text.
            length text ≤ limit → IsUncut R.remaining result (strip_bom text)) }
        ensures going { fault_of result ≡ None }
        ensures limit { limit_of result ≡ limit }
        ensures fresh { given_by result ≡ 0 }
        ensures none { found_by result ≡ 0 }
    {
        Records {
            alloc,
            stage: Stage::Lines(Lines::new(Limited::new(reader, limit))),
            ends: Vec::new(alloc),
            row: empty_row(alloc),
            fault: None,
            found: 0,
        }
    }

    /// Reads the next record, and says whether there is one. Nothing is said of a call after the
    /// end.
    pub fn advance(&mut self) -> Result<bool, ReadFault>
        ensures next { IfOk result (λ found. (rows : List (List (List ℕ))) →
            ToCome R.remaining self.old rows → Advances R.remaining self.new found rows) }

        // Where the text goes on past the limit, no end is told.
        ensures endless { IfOk result (λ found.
            IsOverLimit R.remaining self.old → (found ≡ true) × IsOverLimit R.remaining self.new) }

        // A fault says nothing of the records to come, since the reader may stand inside one: each
        // call from then on answers that fault again.
        ensures failed { IfErr result (λ fault. fault_of self.new ≡ Some fault) }
        ensures fine { OnOk result (fault_of self.new ≡ None) }
        ensures stays { IfSome (fault_of self.old) (λ fault. result ≡ Err fault) }
        ensures kept { IsSome (fault_of self.old) → self.new ≡ self.old }

        // Each record that is found is counted.
        ensures counted { found_by self.new ≡ found_after result (found_by self.old) }
    {
        if let Some(fault) = self.fault {
            return Err(fault);
        }
        if let Stage::Lines(lines) = &mut self.stage {
            match lines.advance(&mut self.ends) {
                Ok(Some(found)) => {
                    self.found = counted(self.found, found);
                    return Ok(found);
                }
                Ok(None) => self.hand_over(),
                Err(fault) => {
                    self.fault = Some(fault);
                    return Err(fault);
                }
            }
        }
        self.advance_by_csv()
    }

    // Lets `csv` read what is left.
    #[cold]
    #[inline(never)]
    fn hand_over(&mut self)
        ensures next { (rows : List (List (List ℕ))) → ToCome R.remaining self.old rows
            → ToCome R.remaining self.new rows }
        ensures endless { IsOverLimit R.remaining self.old → IsOverLimit R.remaining self.new }
        ensures fault { fault_of self.new ≡ fault_of self.old }
        ensures found { found_by self.new ≡ found_by self.old }
        ensures csv { IsSome (reader_in self.new.stage) }
    {
        let stage = mem::replace(&mut self.stage, Stage::Between);
        self.stage = stage.handed_over(self.alloc);
    }

    // The next record, as `csv` reads it.
    #[inline(never)]
    fn advance_by_csv(&mut self) -> Result<bool, ReadFault>
        requires going { fault_of self.old ≡ None }
        requires csv { IsSome (reader_in self.old.stage) }
        ensures next { IfOk result (λ found. (rows : List (List (List ℕ))) →
            ToCome R.remaining self.old rows → Advances R.remaining self.new found rows) }
        ensures endless { IfOk result (λ found.
            IsOverLimit R.remaining self.old → (found ≡ true) × IsOverLimit R.remaining self.new) }
        ensures failed { IfErr result (λ fault. fault_of self.new ≡ Some fault) }
        ensures fine { OnOk result (fault_of self.new ≡ None) }
        ensures counted { found_by self.new ≡ found_after result (found_by self.old) }
    {
        match self.stage.read_by_csv(&mut self.row) {
            Ok(found) => {
                see_bytes(self.row.as_slice());
                self.found = counted(self.found, found);
                Ok(found)
            }
            Err(fault) => {
                self.fault = Some(fault);
                Err(fault)
            }
        }
    }

    /// Why the reading ended, where it ended by [`ReadFault::Read`]: the limit exactly where a byte
    /// past it was read, and a reader that would block exactly where it was the last to fail.
    /// Nothing is said of it elsewhere.
    pub fn cause(&self) -> ReadCause
        ensures over { result ≡ ReadCause.OverLimit ↔ IsPastLimit self.now }
        ensures blocked { result ≡ ReadCause.WouldBlock ↔ HasBlocked self.now }
    {
        let Some(source) = self.stage.source() else {
            return ReadCause::Failed;
        };
        if source.is_past() {
            return ReadCause::OverLimit;
        }
        match source.failed() {
            Some(io::ErrorKind::WouldBlock) => ReadCause::WouldBlock,
            _ => ReadCause::Failed,
        }
    }

    /// How many bytes were taken of the reader, whatever reader it is: at most as many as the limit
    /// to which it is held, and one more exactly where the text was seen to go on past it
    /// (2^64 - 1 stands for 2^64 too).
    pub fn taken(&self) -> u64
        ensures most { result ≤ limit_of self.now + 1 }
        ensures within { result ≡ given_by self.now ⊎ IsPastLimit self.now }
        ensures past { IsPastLimit self.now → result ≡ min (limit_of self.now + 1) (2 ^ 64 - 1) }
    {
        let Some(source) = self.stage.source() else {
            return 0;
        };
        let given = source.given();
        if source.is_past() {
            given.saturating_add(1)
        } else {
            given
        }
    }

    /// How many bytes of the text were read and are in no record yet, so that they are there
    /// without a wait. No clause says which: it tells how soon the next records come.
    #[inline(always)]
    pub fn bytes_ahead(&self) -> u64
        ensures { result ≤ given_by self.now }
    {
        self.stage.bytes_ahead()
    }

    /// The record that the last `advance` read, field by field.
    #[inline(always)]
    pub fn row(&self) -> Record<'_>
        ensures { fields_of result ≡ current_fields self.now }
    {
        let fields = match &self.stage {
            Stage::Lines(lines) => Fields::Line(lines.line(), self.ends.as_slice()),
            _ => Fields::Csv(&self.row),
        };
        Record { fields }
    }
}

// A record of no fields, with room for a row. `csv` reads a record from as many bytes at once as
// there is room for, so one that doesn't fit takes longer. Where memory is refused, there is no
// room at first, and it is asked for again with the first record.
fn empty_row(alloc: Global) -> ByteRecord
    ensures { csv.fields_of result ≡ [] }
{
    match ByteRecord::with_capacity(alloc, ROW_BYTES, ROW_FIELDS) {
        Ok(row) => row,
        Err(_) => ByteRecord::new(alloc),
    }
}

// The number of the records that were found, after a call that found one or none.
#[inline(always)]
fn counted(before: u64, found: bool) -> u64
    ensures { result ≡ count_after found before }
{
    match found {
        true => before.saturating_add(1),
        false => before,
    }
}

// Each element of the slice is a byte, as its type says.
pub(crate) fn see_bytes(_bytes: &[u8])
    ensures { All (λ b. b < 256) _bytes.now }
{}
