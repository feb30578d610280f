//! Why there is no answer, as standard error is told.

ghost use Rattle.std.specs.Prelude.{◌≡◌};
ghost use Rattle.mdb_writing.specs.Written.{HasTaken};
ghost use Rattle.mdbcheck_run.specs.Complaint.{IsToldCause, cause_line, excess_line};

use arrayvec::ArrayVec;
use mdb_import_shared::{FRONT, Kind, kind_of};
use mdb_records::{ReadCause, Record, Records};
use mdb_verdict::RunFault;
use mdb_words::RowFault;
use mdb_writing::{Excerpt, write_text};
use std::io::{Read, Write};

/// What a record may be.
#[derive(Clone, Copy, PartialEq, Eq, Debug)]
pub(crate) enum Wanted {
    /// A row of a transcript.
    Row,
    /// A mark row, or a row of a transcript.
    MarkOrRow,
}

/// Writes one line on a fault: at a record that is none of what it may be the form that is wanted
/// and what stands there, where the reading failed its cause. The records are those that the fault
/// was met with. Where the line is refused, nothing more is tried.
pub(crate) fn complain<R: Read + Drop, E: Write>(
    fault: RunFault,
    wanted: Wanted,
    records: &Records<R>,
    err: &mut E,
)
    ensures excess { fault ≡ RunFault.TooLong
        → HasTaken (E.contents err.old) (E.contents err.new) excess_line }
    ensures read { fault ≡ RunFault.Read
        → IsToldCause records.now (E.contents err.old) (E.contents err.new) }
{
    match fault {
        RunFault::BadRow { .. } => {
            let _ = complain_of_row(fault, wanted, &records.row(), err);
        }
        RunFault::TooLong => tell(err, text_of_excess()),
        RunFault::Read => tell(err, text_of_cause(records.cause())),
        RunFault::Write | RunFault::Memory => {
            let _ = writeln!(err, "mdbcheck: {fault}");
        }
    }
}

/// Writes a line, or a front of it where that fails.
pub(crate) fn tell<E: Write>(err: &mut E, line: &str)
    ensures { HasTaken (E.contents err.old) (E.contents err.new) line.now }
{
    let _ = write_text(err, line.as_bytes());
}

/// Writes the line on a record that is no row.
fn complain_of_row<E: Write>(
    fault: RunFault,
    wanted: Wanted,
    row: &Record<'_>,
    err: &mut E,
) -> std::io::Result<()> {
    let mut found = Excerpt::of_record();
    for place in 0..row.len() {
        found.add_field(row.get(place).unwrap_or(&[]));
    }
    let form = form_of(fault, wanted, row);
    write!(err, "mdbcheck: {fault}: wanted {form}, found \"{found}\"")?;
    match kind_in(fault, row) {
        Some(kind) => writeln!(err, "; {kind}"),
        None => err.write_all(b"\n"),
    }
}

/// What `mdbimport` reads, if the first row is refused and looks like that.
fn kind_in(fault: RunFault, row: &Record<'_>) -> Option<Kind> {
    let RunFault::BadRow { row: 1, .. } = fault else {
        return None;
    };
    let mut front: ArrayVec<u8, FRONT> = ArrayVec::new();
    for place in 0..row.len() {
        if place > 0 {
            let _ = front.try_push(b',');
        }
        let field = row.get(place).unwrap_or(&[]);
        let room = FRONT.saturating_sub(front.len()).min(field.len());
        let _ = front.try_extend_from_slice(&field[..room]);
    }
    kind_of(front.as_slice())
}

/// The form that is wanted where a record is refused: that of a row, or of a mark, where it was
/// taken for one in front of the rows.
fn form_of(fault: RunFault, wanted: Wanted, row: &Record<'_>) -> &'static str {
    let is_misplaced = matches!(
        fault,
        RunFault::BadRow {
            fault: RowFault::BadLine,
            ..
        }
    );
    let may_be_mark = wanted == Wanted::MarkOrRow && row.len() == 3 && !is_misplaced;
    match row.get(1) {
        Some([b'L' | b'R']) if may_be_mark => "ROW,L,- or ROW,R,-",
        Some([b'C']) if may_be_mark => "ROW,C,-",
        _ => "TIME,LINE,VALUE",
    }
}

/// The line on more rows than the program reads.
fn text_of_excess() -> &'static str
    ensures { result.now ≡ excess_line }
{
    "mdbcheck: more than 100000000 rows\n"
}

/// The line on an input that can't be read.
fn text_of_cause(cause: ReadCause) -> &'static str
    ensures { result.now ≡ cause_line cause }
{
    match cause {
        ReadCause::Failed => "mdbcheck: the input can't be read\n",
        ReadCause::WouldBlock => {
            "mdbcheck: the input can't be read: it would have to be waited for\n"
        }
        ReadCause::OverLimit => "mdbcheck: the input has more than 6400000000 bytes\n",
    }
}
