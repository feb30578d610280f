//! A kind of row that a record is read as.

ghost use Rattle.std.specs.Prelude.{◌≡◌, ◌<◌, List, ℕ, IfErr, IfOk, Some, length};
ghost use Rattle.csv.specs.Records.{field_at};
ghost use Rattle.mdb_records.specs.Fields.{fields_of};
ghost use Rattle.mdb_words.specs.declared.row.RowFault.{RowFault};
ghost use Rattle.mdb_words.specs.Row.{IsRow};
ghost use Rattle.mdb_words.specs.Refusals.{IsRefusal};

use mdb_records::Record;
use mdb_words::{Event, Line, RowFault, Time, Word};

/// A kind of row that a record is read as.
pub trait FromRecord: Copy {
    /// The fields are this row.
    ghost is: { List (List ℕ) → Self → Type 0 };

    /// The fields are no row, for this fault.
    ghost refuses: { List (List ℕ) → RowFault → Type 0 };

    /// What stands where no row was read yet.
    fn blank() -> Self;

    /// Whether it is taken before the next record is read, so that what stands in its record can be
    /// told where it is refused.
    fn is_alone(&self) -> bool;

    /// The row of a record.
    fn of(fields: &Record<'_>) -> Result<Self, RowFault>
        ensures row { IfOk result (is (fields_of fields.now)) }
        ensures refused { IfErr result (refuses (fields_of fields.now)) };
}

/// A record of a transcript is an event.
impl FromRecord for Event {
    ghost is = { IsRow };

    ghost refuses = { IsRefusal };

    /// The controller's word 000 at 0.
    fn blank() -> Event {
        let (Some(at), Some(word)) = (Time::new(0), Word::new(0)) else {
            unreachable!()
        };
        Event::Word {
            at,
            line: Line::Controller,
            word,
        }
    }

    /// An event is refused by itself alone.
    #[inline(always)]
    fn is_alone(&self) -> bool {
        false
    }

    #[inline(always)]
    fn of(fields: &Record<'_>) -> Result<Event, RowFault> {
        if fields.len() != 3 {
            return Err(RowFault::FieldCount);
        }
        Event::read(&[field(fields, 0), field(fields, 1), field(fields, 2)])
    }
}

/// A field of a record.
pub fn field<'a>(fields: &Record<'a>, i: usize) -> &'a [u8]
    requires { i < length (fields_of fields.now) }
    ensures { field_at (fields_of fields.now) i ≡ Some result.now }
{
    match fields.get(i) {
        Some(field) => field,
        None => unreachable!(),
    }
}
