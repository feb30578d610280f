//! What a record of an input of `replay` is read as.

ghost use Rattle.std.specs.Prelude.{◌≡◌, ◌≢◌, ◌↔◌, ◌∷◌, List, [], ℕ, IfSome, IfNone, IsTrue};
ghost use Rattle.mdb_records.specs.Fields.{fields_of};
ghost use Rattle.mdb_words.specs.Refusals.{IsRefusal};
ghost use Rattle.mdb_explain.specs.Replay.{dash, mark_letter};
ghost use Rattle.mdb_run_search.specs.declared.mark.Mark.{Mark};
ghost use Rattle.mdb_explain.specs.inner.Entries.{IsEntry, IsNoEntry};

use mdb_records::Record;
use mdb_run_search::Mark;
use mdb_verdict::{FromRecord, field};
use mdb_words::{Event, RowFault, whole_number};

/// What a record is read as: no record is refused, since it may be one too many.
#[derive(Clone, Copy, PartialEq, Eq, Debug)]
pub(crate) enum Entry {
    /// A mark row: the row that it names, and the mark.
    Mark(u64, Mark),
    /// A mark row whose number or whose third field is refused.
    BadMark(RowFault),
    /// A row of the transcript.
    Row(Event),
    /// No mark row, and no row of a transcript.
    BadRow(RowFault),
}

/// A record is a mark row or else a row, or it has a fault.
impl FromRecord for Entry {
    ghost is = { IsEntry };

    ghost refuses = { IsNoEntry };

    fn blank() -> Entry {
        Entry::BadRow(RowFault::FieldCount)
    }

    /// All but a row may be refused for what stands before it.
    #[inline(always)]
    fn is_alone(&self) -> bool {
        !matches!(self, Entry::Row(_))
    }

    // A row is tried first, since nearly all records are rows.
    #[inline(always)]
    fn of(fields: &Record<'_>) -> Result<Entry, RowFault> {
        match Event::of(fields) {
            Ok(event) => Ok(Entry::Row(event)),
            Err(fault) => Ok(no_row(fields, fault)),
        }
    }
}

/// What a record is read as that is no row, for this fault.
#[inline(never)]
fn no_row(fields: &Record<'_>, fault: RowFault) -> Entry
    requires { IsRefusal (fields_of fields.now) fault }
    ensures { IsEntry (fields_of fields.now) result }
{
    if fields.len() != 3 {
        return Entry::BadRow(fault);
    }
    let number = field(fields, 0);
    let letter = field(fields, 1);
    let value = field(fields, 2);
    match mark_of(letter) {
        Some(mark) => mark_row(number, mark, value),
        None => Entry::BadRow(fault),
    }
}

/// The mark whose letter this is.
fn mark_of(letter: &[u8]) -> Option<Mark>
    ensures some { IfSome result (λ mark. letter.now ≡ mark_letter mark ∷ []) }
    ensures none { IfNone result ((mark : Mark) → letter.now ≢ mark_letter mark ∷ []) }
{
    match letter {
        [b'L'] => Some(Mark::Lost),
        [b'R'] => Some(Mark::Restart),
        [b'C'] => Some(Mark::Again),
        _ => None,
    }
}

/// The mark row of these fields.
fn mark_row(number: &[u8], mark: Mark, value: &[u8]) -> Entry
    ensures { IsEntry (number.now ∷ (mark_letter mark ∷ []) ∷ value.now ∷ []) result }
{
    let Some(row) = whole_number(number) else {
        return Entry::BadMark(RowFault::BadTime);
    };
    if is_dash(value) {
        Entry::Mark(row, mark)
    } else {
        Entry::BadMark(RowFault::BadValue)
    }
}

/// Whether a field is one dash.
fn is_dash(value: &[u8]) -> bool
    ensures { IsTrue result ↔ (value.now ≡ dash) }
{
    matches!(value, [b'-'])
}
