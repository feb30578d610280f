//! A bus that is surveyed while it runs: what can't be goes to a log, and the survey goes on.

ghost use Rattle.std.specs.Prelude.{◌<◌, ◌∷◌, ◌++◌, [], List, OnOk};
ghost use Rattle.std.specs.Io.KnownBytes.{Appends};
ghost use Rattle.mdb_bus.specs.declared.scope.Scope.{Scope};
ghost use Rattle.mdb_follow.specs.declared.follower.TheConstants.{ROWS_MAX};
ghost use Rattle.mdb_surveyor.specs.Lines.{lines_of};
ghost use Rattle.mdb_surveyor.specs.SurveyText.{text_lines};
ghost use Rattle.mdb_surveyor.specs.Surveyor.{StandsFor, rows_of};
ghost use Rattle.mdb_surveyor.specs.declared.stretch.Ended.{Ended};
ghost use Rattle.mdb_words.specs.declared.event.Event.{Event};

use mdb_surveyor::{Surveyor, write_fault, write_stretch};
use mdb_words::Event;
use std::io;
use std::io::Write;

/// Takes the next row. If it is impossible, the lines of the stretch that it ends go to a log, and
/// the line of its fault.
///
/// # Errors
///
/// The log failed. The row is taken all the same.
pub fn log_row<W: Write>(surveyor: &mut Surveyor, row: Event, log: &mut W) -> io::Result<()>
    requires { rows_of surveyor.old < ROWS_MAX }
    ensures logged { (scope : Scope) (rows : List Event) (ended : List Ended)
        → StandsFor surveyor.old scope rows ended → (new : List Ended)
        × StandsFor surveyor.new scope (rows ++ row ∷ []) (new ++ ended)
        × OnOk result (Appends (W.contents log.old) (W.contents log.new)
        (lines_of text_lines new)) }
{
    match surveyor.feed(row) {
        None => Ok(()),
        Some(ended) => {
            write_stretch(log, &ended.stretch)?;
            write_fault(log, &ended.fault)
        }
    }
}
