//! The manual of a program.

use super::named::Named;
use super::table::{Program, command_named};
use clap::error::ErrorKind;
use mdb_writing::{WriteFailed, write_text};
use std::io::Write;

/// The part of the program's manual that the values of this word ask for; where it has no value,
/// the whole manual is asked for, and this is `None`.
///
/// # Errors
///
/// `InvalidValue`: the word has a value that is the name of no command, or more values than one.
pub fn manual_asked<'p>(
    program: &Program<'p>,
    found: &Named<'_>,
    word: &str,
) -> Result<Option<&'p str>, ErrorKind> {
    match found.value(word) {
        Ok(None) => Ok(None),
        Ok(Some(name)) => match command_named(program, name) {
            Some(row) => Ok(Some(row.manual)),
            None => Err(ErrorKind::InvalidValue),
        },
        Err(_) => Err(ErrorKind::InvalidValue),
    }
}

/// Writes a part of the manual, or, where none is given, the whole manual: what the program is, the
/// part on each command, and the rest.
///
/// # Errors
///
/// The writer failed. It took a front of the text.
pub fn write_manual<W: Write>(
    program: &Program<'_>,
    part: Option<&str>,
    writer: &mut W,
) -> Result<(), WriteFailed> {
    if let Some(text) = part {
        return write_text(writer, text.as_bytes());
    }
    write_text(writer, program.about.as_bytes())?;
    for row in program.commands {
        write_text(writer, row.manual.as_bytes())?;
    }
    write_text(writer, program.rest.as_bytes())
}
