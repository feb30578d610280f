//! A recorder's rows, written in the one way that the checker writes them.

ghost use Rattle.std.specs.Prelude.{◌≡◌, map, IfErr, IfOk};
ghost use Rattle.mdb_words.specs.Refusals.{IsRefusal};
ghost use Rattle.mdb_words.specs.Row.{IsRow};
ghost use Rattle.mdb_words.specs.RowsWritten.{joined_by_commas, row_fields};
ghost use Rattle.mdb_words.specs.declared.event.Event.{Event};

use arrayvec::ArrayString;
use mdb_words::{Event, RowFault};

/// The row of these fields as the checker writes it: without leading zeros, and a word in capitals.
///
/// # Errors
///
/// Why the fields are no row.
pub fn tidied(fields: &[&[u8]]) -> Result<ArrayString<32>, RowFault>
    ensures tidied { IfOk result (λ text. (event : Event)
        × IsRow (map (λ f. f.now) fields.now) event
        × (text.bytes ≡ joined_by_commas (row_fields event))) }
    ensures fault { IfErr result (IsRefusal (map (λ f. f.now) fields.now)) }
{
    Ok(Event::read(fields)?.row_text())
}
