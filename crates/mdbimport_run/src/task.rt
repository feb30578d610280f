//! The task that the words of a command line name.

use super::command_line::{
    BREAK, COMMAND, CONTROLLER, DECIMAL, FROM, INVERT, INVERT_LINE, PERIPHERAL, SKIP_DAMAGED, SWAP,
    TIME_OF, UNIT, UNTIL, program,
};
use super::refusal::{Refusal, ValueFault};
use clap::error::ErrorKind;
use command_words::{Named, manual_asked, read, read_accepted};
use mdb_import_shared::{Inverted, Kind, Options, Part, TimeOf, Unit, read_end};
use mdb_words::{Span, Time};
use std::alloc::{AllocError, Global};

/// What the words of a command line ask for.
#[derive(Drop)]
pub(crate) enum Task {
    /// The import of an export of this kind, with these options.
    Import(Kind, Options),
    /// `manual`: this part of it, or, where there is none, the whole manual.
    Manual(Option<&'static str>),
}

/// What the words ask for. Refused are those that `clap` refuses, those in which an option stands
/// twice, and those with a value that isn't one of its option.
pub(crate) fn task_of(alloc: Global, words: &[String]) -> Result<Task, Refusal> {
    match read(alloc, program(), words) {
        Ok(found) => task_in(alloc, &found),
        Err(error) => Err(Refusal::Words(error.kind())),
    }
}

/// The file that the words name, the program's name first: what is read in place of standard input.
/// `None` where they name none, and where they are refused.
///
/// # Errors
///
/// Memory was refused.
pub fn file_named<'a>(alloc: Global, words: &'a [String]) -> Result<Option<&'a str>, AllocError> {
    let Some(found) = read_accepted(alloc, program(), words)? else {
        return Ok(None);
    };
    match task_in(alloc, &found) {
        Ok(_) => Ok(found.file()),
        Err(Refusal::Words(ErrorKind::OutOfMemory)) => Err(AllocError),
        Err(_) => Ok(None),
    }
}

/// What the words ask for of which this was read.
fn task_in(alloc: Global, found: &Named<'_>) -> Result<Task, Refusal> {
    let kind = match found.command() {
        "rows" => Kind::Rows,
        "sigrok" => Kind::Trace,
        "saleae" => Kind::Table,
        "edges" => Kind::Edges,
        "vcd" => Kind::Dump,
        "messages" => Kind::Log,
        "manual" => {
            return match manual_asked(program(), found, COMMAND) {
                Ok(part) => Ok(Task::Manual(part)),
                Err(kind) => Err(Refusal::Words(kind)),
            };
        }
        _ => return Err(Refusal::Words(ErrorKind::InvalidSubcommand)),
    };
    Ok(Task::Import(kind, options_in(alloc, found)?))
}

/// What the options of an import ask for. What its command doesn't know isn't used.
fn options_in(alloc: Global, found: &Named<'_>) -> Result<Options, Refusal> {
    let unit = unit_in(found)?;
    let time_of = time_of_in(found)?;
    let break_length = length_in(found)?;
    let controller = name_in(found, CONTROLLER)?;
    let peripheral = name_in(found, PERIPHERAL)?;
    if controller.is_some() && controller == peripheral {
        return Err(Refusal::Value(ValueFault::Name));
    }
    Ok(Options {
        unit,
        time_of,
        break_length,
        controller: owned(alloc, controller)?,
        peripheral: owned(alloc, peripheral)?,
        part: Part {
            from: time_in(found, FROM)?,
            until: time_in(found, UNTIL)?,
        },
        inverted: inverted_in(found)?,
        decimal: found.is_used(DECIMAL),
        skip_damaged: found.is_used(SKIP_DAMAGED),
        swap: found.is_used(SWAP),
    })
}

/// The value of an option, if it has one.
fn value_of<'a>(found: &Named<'a>, name: &str) -> Result<Option<&'a str>, Refusal> {
    match found.value(name) {
        Ok(value) => Ok(value),
        Err(kind) => Err(Refusal::Words(kind)),
    }
}

/// The unit that was told, if one was.
fn unit_in(found: &Named<'_>) -> Result<Option<Unit>, Refusal> {
    match value_of(found, UNIT)? {
        None => Ok(None),
        Some("s") => Ok(Some(Unit::Seconds)),
        Some("ms") => Ok(Some(Unit::Milliseconds)),
        Some("us") => Ok(Some(Unit::Microseconds)),
        Some("ns") => Ok(Some(Unit::Nanoseconds)),
        Some(_) => Err(Refusal::Value(ValueFault::Unit)),
    }
}

/// Of which word of a message its time is: the first, unless something else was told.
fn time_of_in(found: &Named<'_>) -> Result<TimeOf, Refusal> {
    match value_of(found, TIME_OF)? {
        None | Some("first") => Ok(TimeOf::First),
        Some("last") => Ok(TimeOf::Last),
        Some(_) => Err(Refusal::Value(ValueFault::TimeOf)),
    }
}

/// Which lines are read upside down.
fn inverted_in(found: &Named<'_>) -> Result<Inverted, Refusal> {
    let are_both = found.is_used(INVERT);
    let mut inverted = Inverted {
        controller: are_both,
        peripheral: are_both,
    };
    match value_of(found, INVERT_LINE)? {
        None => {}
        Some("M" | "m") => inverted.controller = true,
        Some("S" | "s") => inverted.peripheral = true,
        name if name == value_of(found, CONTROLLER)? => inverted.controller = true,
        name if name == value_of(found, PERIPHERAL)? => inverted.peripheral = true,
        Some(_) => return Err(Refusal::Value(ValueFault::Line)),
    }
    Ok(inverted)
}

/// The name of a line that an option tells, if it was used.
fn name_in<'a>(found: &Named<'a>, option: &str) -> Result<Option<&'a str>, Refusal> {
    match value_of(found, option)? {
        Some(word) if !is_line_name(word) => Err(Refusal::Value(ValueFault::Name)),
        name => Ok(name),
    }
}

/// Whether a word can name a line.
pub(crate) fn is_line_name(word: &str) -> bool {
    !matches!(word, "" | "M" | "m" | "S" | "s" | "B" | "b")
}

/// A word that is kept, if there is one.
fn owned(alloc: Global, word: Option<&str>) -> Result<Option<String>, Refusal> {
    let Some(word) = word else {
        return Ok(None);
    };
    match String::from_str(alloc, word) {
        Ok(text) => Ok(Some(text)),
        Err(_) => Err(Refusal::Words(ErrorKind::OutOfMemory)),
    }
}

/// The microseconds that an option tells, if it was used.
fn time_in(found: &Named<'_>, option: &str) -> Result<Option<u64>, Refusal> {
    let Some(word) = value_of(found, option)? else {
        return Ok(None);
    };
    match read_end(word.as_bytes()) {
        Some(time) => Ok(Some(time.value())),
        None => Err(Refusal::Value(ValueFault::Time)),
    }
}

/// The length of each break that was told, if one was.
fn length_in(found: &Named<'_>) -> Result<Option<Span>, Refusal> {
    let Some(word) = value_of(found, BREAK)? else {
        return Ok(None);
    };
    match length_of(word) {
        Some(length) => Ok(Some(length)),
        None => Err(Refusal::Value(ValueFault::Length)),
    }
}

/// The length that a word tells, if it tells one.
fn length_of(word: &str) -> Option<Span> {
    Span::new(Time::read(word.as_bytes())?.value())
}
