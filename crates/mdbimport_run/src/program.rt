//! The program over its words.

use super::command_line::program;
use super::complaint::{
    complain, complain_of_dump, complain_of_edges, complain_of_log, complain_of_table,
    complain_of_trace, end_line, say_fault,
};
use super::front::Fronted;
use super::notes::tell;
use super::refused::refuse;
use super::task::{Task, task_of};
use command_words::write_manual;
use mdb_import_levels::{import_edge_records, import_vcd};
use mdb_import_records::{import_messages, import_records, import_table};
use mdb_import_shared::{Imported, Kind, Options, records_of, write_refusal};
use mdb_import_sigrok::import_sigrok;
use std::alloc::Global;
use std::io::{Read, Write};

/// The status of an import whose rows are all written, and of a manual that is.
const DONE: u8 = 0;

/// The status of any other.
const NOT_DONE: u8 = 2;

/// Runs the program over its words, the program's name first, and answers its exit status: 0 where
/// the rows that were asked for were written, at least one, or the manual was, else 2. Refused
/// words write the line of a refused export, which no checker takes, and so does an import without
/// a row. Words that ask for help or for the version write nothing.
///
/// One line on `err` says why there is no import, or no whole one. Where there is one, lines on
/// `err` tell what was passed over, and what is likely to be wrong with the recording. Where `err`
/// refuses a line, the answer is the same.
pub fn run<R: Read + Drop, W: Write, E: Write>(
    alloc: Global,
    words: &[String],
    reader: R,
    out: &mut W,
    err: &mut E,
) -> u8 {
    let done = match task_of(alloc, words) {
        Ok(Task::Import(kind, options)) => run_import(alloc, kind, &options, reader, out, err),
        Ok(Task::Manual(part)) => run_manual(part, out, err),
        Err(refusal) => {
            refuse(alloc, refusal, words, out, err);
            false
        }
    };
    if done { DONE } else { NOT_DONE }
}

/// Ends an import that reports this, and answers whether it has a row. If not, the last line of its
/// output is that of a refused export.
fn end<W: Write, E: Write>(imported: &Imported, out: &mut W, err: &mut E) -> bool {
    if tell(imported, err) {
        return true;
    }
    if let Err(fault) = write_refusal(out) {
        say_fault(&fault, err);
        end_line(None, err);
    }
    false
}

/// Imports what the reader has left as an export of a kind, and answers whether that was done.
/// Where it may be for another command, the line on a refusal says so.
fn run_import<R: Read + Drop, W: Write, E: Write>(
    alloc: Global,
    kind: Kind,
    options: &Options,
    reader: R,
    out: &mut W,
    err: &mut E,
) -> bool {
    let mut front = Fronted::new(reader);
    let other = match read_import(alloc, kind, options, &mut front, out, err) {
        Ok(imported) => return end(&imported, out, err),
        Err(true) => front.other_kind(kind),
        Err(false) => None,
    };
    end_line(other, err);
    false
}

/// Does that, but for the end of the line on a refusal, and for all lines of an import.
///
/// # Errors
///
/// It is refused: whether another command may read it.
fn read_import<R: Read + Drop, W: Write, E: Write>(
    alloc: Global,
    kind: Kind,
    options: &Options,
    reader: R,
    out: &mut W,
    err: &mut E,
) -> Result<Imported, bool> {
    match kind {
        Kind::Trace => match import_sigrok(alloc, options, reader, out) {
            Ok(imported) => Ok(imported),
            Err(fault) => Err(complain_of_trace(&fault, err)),
        },
        Kind::Dump => match import_vcd(alloc, options, reader, out) {
            Ok(imported) => Ok(imported),
            Err(fault) => Err(complain_of_dump(&fault, err)),
        },
        Kind::Log => match import_messages(alloc, options, reader, out) {
            Ok(imported) => Ok(imported),
            Err(fault) => Err(complain_of_log(&fault, err)),
        },
        _ => read_records(alloc, kind, options, reader, out, err),
    }
}

/// Does that for a kind that consists of records.
fn read_records<R: Read + Drop, W: Write, E: Write>(
    alloc: Global,
    kind: Kind,
    options: &Options,
    reader: R,
    out: &mut W,
    err: &mut E,
) -> Result<Imported, bool> {
    let mut records = records_of(alloc, reader);
    match kind {
        Kind::Table => match import_table(options, &mut records, out) {
            Ok(imported) => Ok(imported),
            Err(fault) => Err(complain_of_table(fault, &records, err)),
        },
        Kind::Edges => match import_edge_records(alloc, options, &mut records, out) {
            Ok(imported) => Ok(imported),
            Err(fault) => Err(complain_of_edges(options, fault, &records, err)),
        },
        _ => match import_records(alloc, options, &mut records, out) {
            Ok(imported) => Ok(imported),
            Err(fault) => Err(complain(fault, &records, err)),
        },
    }
}

/// Prints the manual, or a part of it.
fn run_manual<W: Write, E: Write>(part: Option<&str>, out: &mut W, err: &mut E) -> bool {
    match write_manual(program(), part, out) {
        Ok(()) => true,
        Err(fault) => {
            say_fault(&fault, err);
            end_line(None, err);
            false
        }
    }
}
