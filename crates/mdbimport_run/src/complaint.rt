//! What standard error is told of an import that is refused.

use super::hint::hint_of;
use mdb_import_levels::{DumpFault, EdgesFault, FormFault, VcdFault};
use mdb_import_records::{ImportFault, MessagesFault, SaleaeFault};
use mdb_import_shared::{Kind, Options, RecordFault};
use mdb_import_sigrok::{FormFault as TraceFault, SigrokFault};
use mdb_records::{ReadCause, Record, Records};
use mdb_words::Time;
use mdb_writing::Excerpt;
use std::fmt::Display;
use std::io::{Read, Write};

/// Writes a line on a fault of rows, but for its end: at a record that is refused what was wanted
/// and what stands there, where the reading failed its cause. The records are those that the fault
/// was met with. It answers whether no row stands before that record.
pub(crate) fn complain<R: Read + Drop, E: Write>(
    fault: ImportFault,
    records: &Records<R>,
    err: &mut E,
) -> bool {
    match fault {
        ImportFault::BadRecord {
            number,
            own,
            last,
            fault,
        } => {
            let _ = complain_of_record(number, own, last, fault, &records.row(), err);
            return last.is_none();
        }
        ImportFault::Read => complain_of(&text_of_cause(records.cause()), None, "", err),
        ImportFault::Write(_) | ImportFault::Memory => complain_of(&fault, None, "", err),
    }
    false
}

/// Writes the line on a record that is refused, but for its end: its number, its own time, if it
/// tells one, or that of the last row before it, why it is refused, and where the import can go on.
fn complain_of_record<E: Write>(
    number: u64,
    own: Option<u64>,
    last: Option<u64>,
    fault: RecordFault,
    fields: &Record<'_>,
    err: &mut E,
) -> std::io::Result<()> {
    write!(err, "mdbimport: record {number}")?;
    match (own, last) {
        (Some(at), _) => write!(err, " at {at}")?,
        (None, Some(at)) => write!(err, " after {at}")?,
        (None, None) => {}
    }
    write!(err, ": {fault}")?;
    if fault != RecordFault::CommentsAlone {
        write!(err, "; found \"{}\"", found_in(fields))?;
    }
    if fault == RecordFault::DecimalWord {
        err.write_all(b"; are the words decimal (--decimal)?")?;
    }
    if let Some(first) = first_after(own, last) {
        write!(err, "; go on with --from {first}")?;
    }
    Ok(())
}

/// The first microsecond after a record that is refused, and after all rows before it, where it
/// tells its time and a time comes after it.
fn first_after(own: Option<u64>, last: Option<u64>) -> Option<u64> {
    let first = own?.max(last.unwrap_or(0)).saturating_add(1);
    Some(Time::new(first)?.value())
}

/// Why the input can't be read.
fn text_of_cause(cause: ReadCause) -> &'static str {
    match cause {
        ReadCause::Failed => "the input can't be read",
        ReadCause::WouldBlock => "the input can't be read: it would have to be waited for",
        ReadCause::OverLimit => "the input is too long",
    }
}

/// Writes a line on a fault of an analyser's table, as [`complain`] does. It answers whether the
/// header is refused.
pub(crate) fn complain_of_table<R: Read + Drop, E: Write>(
    fault: SaleaeFault,
    records: &Records<R>,
    err: &mut E,
) -> bool {
    match fault {
        SaleaeFault::BadHeader { .. }
        | SaleaeFault::BadRecord { .. }
        | SaleaeFault::BadRow { .. } => complain_of(&fault, Some(&records.row()), "", err),
        SaleaeFault::Read => complain_of(&text_of_cause(records.cause()), None, "", err),
        SaleaeFault::NoHeader { .. } | SaleaeFault::Write(_) | SaleaeFault::Memory => {
            complain_of(&fault, None, "", err)
        }
    }
    matches!(
        fault,
        SaleaeFault::BadHeader { .. } | SaleaeFault::NoHeader { .. }
    )
}

/// Writes a line on a fault of a table of edges, as [`complain`] does. At a record that is refused
/// by itself it adds the likely cause. It answers whether the header is refused.
pub(crate) fn complain_of_edges<R: Read + Drop, E: Write>(
    options: &Options,
    fault: EdgesFault,
    records: &Records<R>,
    err: &mut E,
) -> bool {
    let row = &records.row();
    match fault {
        EdgesFault::Form { fault: form, .. } => {
            complain_of(&fault, Some(row), hint_of(options, form, row), err);
        }
        EdgesFault::Order { .. } | EdgesFault::Level { .. } => {
            complain_of(&fault, Some(row), "", err);
        }
        EdgesFault::Read => complain_of(&text_of_cause(records.cause()), None, "", err),
        EdgesFault::Line(_) | EdgesFault::Write | EdgesFault::Memory => {
            complain_of(&fault, None, "", err);
        }
    }
    matches!(
        fault,
        EdgesFault::Form {
            fault: FormFault::NoHeader | FormFault::Columns,
            ..
        }
    )
}

/// Writes a line on a fault of a trace, but for its end. It answers whether the first line is
/// refused.
pub(crate) fn complain_of_trace<E: Write>(fault: &SigrokFault, err: &mut E) -> bool {
    say_fault(fault, err);
    let SigrokFault::Form { fault, .. } = fault else {
        return false;
    };
    *fault == TraceFault::NoTrace
}

/// Does so with a fault of a dump.
pub(crate) fn complain_of_dump<E: Write>(fault: &VcdFault, err: &mut E) -> bool {
    say_fault(fault, err);
    let VcdFault::Form { fault, .. } = fault else {
        return false;
    };
    *fault == DumpFault::NoCommand
}

/// Does so with a fault of a log.
pub(crate) fn complain_of_log<E: Write>(fault: &MessagesFault, err: &mut E) -> bool {
    say_fault(fault, err);
    matches!(fault, MessagesFault::BadLine { is_first: true, .. })
}

/// Ends a line: with what another command reads, if it is that.
pub(crate) fn end_line<E: Write>(kind: Option<Kind>, err: &mut E) {
    let _ = match kind {
        Some(kind) => writeln!(err, "; {kind}"),
        None => err.write_all(b"\n"),
    };
}

/// Writes a line on a fault that says all itself, but for its end.
pub(crate) fn say_fault<D: Display, E: Write>(fault: &D, err: &mut E) {
    complain_of(fault, None, "", err);
}

/// Writes a line, but for its end: the fault, the fields of the record that is refused for it, and
/// a hint. Without a record, it leaves out the fields.
fn complain_of<D: Display, E: Write>(
    fault: &D,
    record: Option<&Record<'_>>,
    hint: &str,
    err: &mut E,
) {
    let _ = match record {
        Some(fields) if fields.len() > 0 => {
            write!(
                err,
                "mdbimport: {fault}; found \"{}\"{hint}",
                found_in(fields)
            )
        }
        _ => write!(err, "mdbimport: {fault}{hint}"),
    };
}

/// What stands in a record that is refused.
fn found_in(fields: &Record<'_>) -> Excerpt {
    let mut found = Excerpt::of_record();
    for place in 0..fields.len() {
        found.add_field(fields.get(place).unwrap_or(&[]));
    }
    found
}
