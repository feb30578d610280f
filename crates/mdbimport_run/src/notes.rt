//! What standard error is told of an import that has its rows.

use mdb_import_shared::{Imported, Place, Places, letter_of};
use std::io::Write;

/// Writes a line for each note that the recorder's user should know: a header that was passed over,
/// midnights, rows, pulses and damaged words that were left out, and the likely cause if no word is
/// marked or a line has no word. Where no row was written, the last line says so in place of that
/// cause.
///
/// It answers whether a row was written.
pub(crate) fn tell<E: Write>(imported: &Imported, err: &mut E) -> bool {
    if let Some(line) = imported.turned {
        let line = letter_of(&line);
        let _ = writeln!(
            err,
            "mdbimport: line {line} is low at rest, and is read upside down"
        );
    }
    say(text_on_header(imported), err);
    let _ = tell_midnights(imported.midnights, err);
    let _ = tell_left_out(imported, err);
    if let Some((moved, most)) = imported.moved {
        let _ = tell_moved(moved, most, err);
    }
    let _ = tell_pulses(&imported.pulses, err);
    let _ = tell_damaged(&imported.damaged, err);
    if let Some(low) = imported.low {
        let _ = writeln!(err, "mdbimport: {low}");
    }
    if imported.rows == 0 {
        let _ = tell_no_row(imported.ends, err);
        return false;
    }
    say(text_on_lines(imported), err);
    say(text_on_marks(imported), err);
    true
}

/// Writes the lines on what is outside the part: rows before and after it, and records that are
/// passed over.
fn tell_left_out<E: Write>(imported: &Imported, err: &mut E) -> std::io::Result<()> {
    let (before, after, passed) = (imported.before, imported.after, imported.passed);
    if before > 0 || after > 0 {
        let rows = if before == 1 { "row" } else { "rows" };
        writeln!(
            err,
            "mdbimport: left out {before} {rows} before the part and {after} after it"
        )?;
    }
    match passed {
        0 => Ok(()),
        1 => writeln!(
            err,
            "mdbimport: left out 1 record outside the part that is no row, or not in order"
        ),
        _ => writeln!(
            err,
            "mdbimport: left out {passed} records outside the part that are no rows, \
            or not in order"
        ),
    }
}

/// The note on an optional header that was passed over.
fn text_on_header(imported: &Imported) -> &'static str {
    match (imported.header, imported.moved) {
        (false, _) => "",
        (true, None) => "the first record is taken for a header",
        (true, Some(_)) => "the first line is taken for a header",
    }
}

/// The note on a line without a word.
fn text_on_lines(imported: &Imported) -> &'static str {
    match (imported.controller, imported.peripheral) {
        (false, false) => "there is no word on either line",
        (true, false) => "no word of a peripheral (S): was only the controller's line recorded?",
        (false, true) => "no word of the controller (M): was only the peripherals' line recorded?",
        (true, true) => "",
    }
}

/// The note on a recording without a marked word.
fn text_on_marks(imported: &Imported) -> &'static str {
    if !imported.marked && (imported.controller || imported.peripheral) {
        "no word has its mode bit set: was it recorded with 8 bits and not 9?"
    } else {
        ""
    }
}

/// Writes a line, unless its text is empty.
fn say<E: Write>(text: &str, err: &mut E) {
    if !text.is_empty() {
        let _ = writeln!(err, "mdbimport: {text}");
    }
}

/// Writes the line on midnights that passed between times of day, if one did.
fn tell_midnights<E: Write>(midnights: u64, err: &mut E) -> std::io::Result<()> {
    match midnights {
        0 => Ok(()),
        1 => writeln!(
            err,
            "mdbimport: midnight passed 1 time: the times after it have 24 hours more"
        ),
        _ => writeln!(
            err,
            "mdbimport: midnight passed {midnights} times: the times after each have 24 hours more"
        ),
    }
}

/// Writes the line on a part, or a whole export, without a row: these are the ends of all rows.
fn tell_no_row<E: Write>(ends: Option<(u64, u64)>, err: &mut E) -> std::io::Result<()> {
    match ends {
        Some((first, last)) => writeln!(
            err,
            "mdbimport: the part has no row: the rows have times from {first} to {last}"
        ),
        None => writeln!(err, "mdbimport: there is no row in the export"),
    }
}

/// Writes the line on the times of a log: how many messages were moved, by how much at most.
fn tell_moved<E: Write>(moved: u64, most: u64, err: &mut E) -> std::io::Result<()> {
    err.write_all(
        b"mdbimport: each message has one time: the times of its words are made up, \
and rules about times say nothing here; ",
    )?;
    match moved {
        0 => writeln!(err, "moved no message"),
        1 => writeln!(err, "moved 1 message, by {most} microseconds"),
        _ => writeln!(
            err,
            "moved {moved} messages, by at most {most} microseconds"
        ),
    }
}

/// Writes the line on pulses that were passed over: how many, and where the first one is.
fn tell_pulses<E: Write>(pulses: &Places, err: &mut E) -> std::io::Result<()> {
    let Some(first) = pulses.first().first() else {
        return Ok(());
    };
    let count = pulses.count();
    if count == 1 {
        write!(
            err,
            "mdbimport: passed over 1 pulse shorter than half a bit,"
        )?;
    } else {
        write!(
            err,
            "mdbimport: passed over {count} pulses shorter than half a bit; the first"
        )?;
    }
    write_place(" at ", first, err)?;
    err.write_all(b"\n")
}

/// Writes the line on damaged words that were left out: how many, and where the first ones are.
fn tell_damaged<E: Write>(damaged: &Places, err: &mut E) -> std::io::Result<()> {
    let told = damaged.first();
    if told.is_empty() {
        return Ok(());
    }
    let count = damaged.count();
    let words = if count == 1 { "word" } else { "words" };
    let first = if count > told.len() as u64 {
        " the first"
    } else {
        ""
    };
    write!(err, "mdbimport: left out {count} damaged {words},{first}")?;
    for place in 0..told.len() {
        let mark = if place > 0 { ", " } else { " at " };
        write_place(mark, &told[place], err)?;
    }
    err.write_all(b"; mdbcheck survey shows what is missing\n")
}

/// Writes a text, and when and on which line something began.
fn write_place<E: Write>(mark: &str, place: &Place, err: &mut E) -> std::io::Result<()> {
    let (time, line) = (place.at.value(), letter_of(&place.line));
    write!(err, "{mark}{time} on {line}")
}
