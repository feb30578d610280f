// Who reads the next record: lines as long as they are plain, and then csv.

ghost use Rattle.std.specs.Prelude.{◌≡◌, ◌≤◌, ℕ, List, IfOk, OnOk, IsSome, if◌then◌else◌};
ghost use Rattle.std.specs.Prelude.{option_map, true};
ghost use Rattle.csv.specs.Reading.{error_kind, is_io, stops_reader};
ghost use Rattle.csv.specs.Records.{fields_of};
ghost use Rattle.mdb_records.specs.SetUp.{IsSetUp, reader_in};
ghost use Rattle.mdb_records.specs.Stage.{HandsOver, ReadsNext, fields_at, given_in, source_in};

use super::ReadFault;
use super::limited::Limited;
use super::lines::Lines;
use csv::{ByteRecord, ErrorKind, Reader, ReaderBuilder};
use std::alloc::Global;
use std::io::Read;

/// Who reads the next record.
#[derive(Drop)]
pub(crate) enum Stage<R> {
    /// The reader of lines, as long as csv's machine isn't needed.
    Lines(Lines<R>),
    /// csv, after so many bytes that were taken as lines.
    Csv(Reader<Lines<R>>, u64),
    /// Neither, while the one is handed over to the other.
    Between,
}

impl<R: Read + Drop> Stage<R> {
    /// The reader underneath.
    pub(crate) fn source(&self) -> Option<&Limited<R>>
        ensures { option_map (λ s. s.now) result ≡ source_in self.now }
    {
        match self {
            Stage::Lines(lines) => Some(lines.source()),
            Stage::Csv(reader, _) => Some(reader.get_ref().source()),
            Stage::Between => None,
        }
    }

    /// How many bytes were read and are in no record yet.
    #[inline(always)]
    pub(crate) fn bytes_ahead(&self) -> u64
        ensures { result ≤ given_in (source_in self.now) }
    {
        match self {
            Stage::Lines(lines) => lines.source().given().min(lines.unread_count() as u64),
            Stage::Csv(reader, before) => {
                let given = reader.get_ref().source().given();
                given
                    .saturating_sub(*before)
                    .saturating_sub(reader.position().byte())
            }
            Stage::Between => 0,
        }
    }

    /// The stage in which csv reads what is left.
    pub(crate) fn handed_over(self, alloc: Global) -> Stage<R>
        ensures hands { HandsOver R.remaining self result }
        ensures set_up { IsSetUp self → IsSetUp result }
        ensures csv { IsSome (source_in self) → IsSome (reader_in result) }
        ensures there { IsSome (source_in self) → IsSome (source_in result) }
    {
        match self {
            Stage::Lines(lines) => {
                let unread = lines.unread_count() as u64;
                let before = lines.source().given().saturating_sub(unread);
                let reader = ReaderBuilder::new()
                    .has_headers(false)
                    .flexible(true)
                    .from_reader(alloc, lines);
                Stage::Csv(reader, before)
            }
            other => other,
        }
    }

    /// Reads the next record into `row`, as csv reads it, and answers whether there is one.
    pub(crate) fn read_by_csv(&mut self, row: &mut ByteRecord) -> Result<bool, ReadFault>
        requires set_up { IsSetUp self.old }
        requires csv { IsSome (reader_in self.old) }
        ensures reads { IfOk result (λ found.
            ReadsNext R.remaining self.old self.new found (fields_of row.new)) }
        ensures fields { OnOk result ((ends : List ℕ)
            → fields_at self.new ends row.new ≡ fields_of row.new) }
        ensures set_up { OnOk result (IsSetUp self.new) }
        ensures there { IsSome (source_in self.old) → IsSome (source_in self.new) }
        ensures csv { IsSome (reader_in self.new) }
    {
        let Stage::Csv(reader, _) = self else {
            unreachable!()
        };
        match reader.read_byte_record(row) {
            Ok(found) => Ok(found),
            Err(e) => Err(fault_by(e)),
        }
    }
}

// The fault that csv's error is, where it ends the reading.
fn fault_by(error: csv::Error) -> ReadFault
    requires { stops_reader (error_kind error) ≡ true }
    ensures { result ≡ (if is_io (error_kind error) then ReadFault.Read else ReadFault.Memory) }
{
    match error.into_kind() {
        ErrorKind::Io(_) => ReadFault::Read,
        ErrorKind::OutOfMemory => ReadFault::Memory,
        _ => unreachable!(),
    }
}
