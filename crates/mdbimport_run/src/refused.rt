//! The lines on a command line that is refused.

use super::command_line::{
    BREAK, COMMAND, CONTROLLER, FROM, INVERT_LINE, PERIPHERAL, TIME_OF, UNIT, UNTIL, program,
};
use super::refusal::{Refusal, ValueFault};
use super::task::is_line_name;
use clap::error::ErrorKind;
use command_words::{Line, Named, Program, line_on_refused, line_on_unopened, read, row_of};
use mdb_import_shared::{read_end, write_refusal};
use std::alloc::Global;
use std::io::{self, Write};

/// Ends the output of words that are refused, so that no checker takes it, and writes the line on
/// them. Words that ask for help or for the version write nothing but that line.
pub(crate) fn refuse<W: Write, E: Write>(
    alloc: Global,
    refusal: Refusal,
    words: &[String],
    out: &mut W,
    err: &mut E,
) {
    match refusal {
        Refusal::Words(ErrorKind::DisplayHelp | ErrorKind::DisplayVersion) => {}
        _ => {
            let _ = write_refusal(out);
        }
    }
    line_on(alloc, program(), refusal, words).tell(err);
}

/// Writes the line on the file that the words name, which can't be opened for this reason, and ends
/// the output as that of a refused export.
pub fn refuse_file<W: Write, E: Write>(
    words: &[String],
    file: &str,
    error: &io::Error,
    out: &mut W,
    err: &mut E,
) {
    let _ = write_refusal(out);
    line_on_unopened(program(), words, file, error).tell(err);
}

/// The line on words that are refused. They are read once more to see which word it is.
fn line_on(alloc: Global, program: &Program<'_>, refusal: Refusal, words: &[String]) -> Line {
    if matches!(refusal, Refusal::Words(ErrorKind::OutOfMemory)) {
        let mut line = Line::of(program);
        line.add(&[": out of memory"]);
        return line;
    }
    match read(alloc, program, words) {
        Ok(found) => line_on_values(program, refusal, words, &found),
        Err(error) => line_on_refused(alloc, program, words, &error),
    }
}

/// The line on values that are refused for this after `clap` read them.
fn line_on_values(
    program: &Program<'_>,
    refusal: Refusal,
    words: &[String],
    found: &Named<'_>,
) -> Line {
    let mut line = Line::of(program);
    line.add(&[": "]);
    if let Some(name) = value_of(found, COMMAND) {
        // (the word names no command, so all of them are told)
        line.add_word("unknown command \"", name, "\"");
        line.add_usage(program, None);
        return line;
    }
    match refusal {
        Refusal::Words(kind) => add_option(&mut line, kind, found),
        Refusal::Value(ValueFault::Unit) => {
            add_value(&mut line, found, UNIT, "\" isn't s, ms, us or ns");
        }
        Refusal::Value(ValueFault::TimeOf) => {
            add_value(&mut line, found, TIME_OF, "\" isn't first or last");
        }
        Refusal::Value(ValueFault::Length) => {
            let reason = "\" isn't microseconds below 1000000000";
            add_value(&mut line, found, BREAK, reason);
        }
        Refusal::Value(ValueFault::Line) => {
            add_value(&mut line, found, INVERT_LINE, "\" names no line");
        }
        Refusal::Value(ValueFault::Name) => add_name(&mut line, found),
        Refusal::Value(ValueFault::Time) => add_time(&mut line, found),
    }
    line.add_usage(program, row_of(program, words));
    line
}

/// The value of an option, if it has one.
fn value_of<'a>(found: &Named<'a>, option: &str) -> Option<&'a str> {
    found.value(option).unwrap_or(None)
}

/// Adds an option, its value, and why the value is refused.
fn add_value(line: &mut Line, found: &Named<'_>, option: &str, reason: &str) {
    line.add(&["--", option]);
    line.add_word(" \"", value_of(found, option).unwrap_or(""), reason);
}

/// Adds the first option that stands twice.
fn add_option(line: &mut Line, kind: ErrorKind, found: &Named<'_>) {
    let options = [
        UNIT,
        TIME_OF,
        CONTROLLER,
        PERIPHERAL,
        INVERT_LINE,
        BREAK,
        FROM,
        UNTIL,
    ];
    for option in options {
        if found.value(option).is_err() {
            line.add(&["--", option, " stands twice"]);
            return;
        }
    }
    line.add(&[kind.as_str().unwrap_or("")]);
}

/// Adds what is wrong with the names of the lines.
fn add_name(line: &mut Line, found: &Named<'_>) {
    for option in [CONTROLLER, PERIPHERAL] {
        if value_of(found, option).is_some_and(|name| !is_line_name(name)) {
            add_value(line, found, option, "\" can't name a line");
            return;
        }
    }
    line.add(&["--", CONTROLLER, " and --", PERIPHERAL, " have one name"]);
}

/// Adds what is wrong with the times of the part.
fn add_time(line: &mut Line, found: &Named<'_>) {
    let (option, time) = match value_of(found, FROM) {
        Some(from) if read_end(from.as_bytes()).is_none() => (FROM, from),
        _ => (UNTIL, value_of(found, UNTIL).unwrap_or("")),
    };
    let is_long = !time.is_empty() && time.as_bytes().iter().all(|byte| byte.is_ascii_digit());
    let reason = if is_long {
        "\" has more than 18 digits"
    } else {
        "\" isn't a time or a date"
    };
    add_value(line, found, option, reason);
}
