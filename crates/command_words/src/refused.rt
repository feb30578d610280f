//! The line on a command line that is refused.

use super::line::Line;
use super::table::{CommandRow, Program, command_named};
use super::told::{add_fault, has_option};
use clap::error::{Error, ErrorKind};
use std::alloc::Global;
use std::io;

/// The line about words that `clap` refuses, the program's name first: what is wrong, and the usage
/// of the command alone. Requests for help or for the version are refused too: the line on the
/// latter is the version alone.
///
/// The line is printable ASCII, whatever the words are. Only words are cut, if a usage line and the
/// longest names of the table leave room for 24 bytes of a word.
pub fn line_on_refused(
    alloc: Global,
    program: &Program<'_>,
    words: &[String],
    error: &Error,
) -> Line {
    let mut line = Line::of(program);
    let row = row_of(program, words);
    let name = program.name;
    match (error.kind(), row) {
        (ErrorKind::DisplayVersion, _) => line.add(&[" ", program.version]),
        (ErrorKind::DisplayHelp, Some(row)) => {
            line.add(&[": usage: ", name, " ", row.usage]);
            line.add(&["; all: ", name, " manual ", row.name]);
        }
        (ErrorKind::DisplayHelp, None) => line.add(&[": commands: ", program.summary]),
        (kind, row) => match format!(in alloc; "{error}") {
            Ok(told) if kind != ErrorKind::OutOfMemory => {
                line.add(&[": "]);
                add_fault(&mut line, program, row, words, kind, told.as_str());
                line.add_usage(program, row);
            }
            _ => line.add(&[": out of memory"]),
        },
    }
    line
}

/// The line on a file that can't be opened, for this reason. If an option of the command has the
/// name of the file, the line asks whether that is meant.
pub fn line_on_unopened(
    program: &Program<'_>,
    words: &[String],
    file: &str,
    error: &io::Error,
) -> Line {
    let mut line = Line::of(program);
    line.add_word(": \"", file, "\" can't be opened: ");
    line.add_error(error);
    match row_of(program, words) {
        Some(row) if has_option(row, file) => line.add(&[" (--", file, "?)"]),
        _ => {}
    }
    line
}

/// The command that the words name, or that they ask for help on, if there is one.
pub fn row_of<'a>(program: &Program<'a>, words: &[String]) -> Option<&'a CommandRow<'a>> {
    let mut name = words.get(1)?.as_str();
    if name == "help" {
        name = words.get(2)?.as_str();
    }
    command_named(program, name)
}
