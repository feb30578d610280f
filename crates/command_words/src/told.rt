//! What `clap` reports about words that it refuses.
//!
//! Its error has a kind and a text. The text quotes the refused word as it stands, whatever quotes
//! and line ends the word has. A fixed mark and two line ends follow.

use super::line::Line;
use super::table::{CommandRow, Program};
use clap::error::ErrorKind;

/// Adds what is wrong with the words, about which `clap` reported this.
pub(crate) fn add_fault(
    line: &mut Line,
    program: &Program<'_>,
    row: Option<&CommandRow<'_>>,
    words: &[String],
    kind: ErrorKind,
    told: &str,
) {
    let (_, quoted) = parted(told, "'");
    match kind {
        ErrorKind::MissingSubcommand | ErrorKind::DisplayHelpOnMissingArgumentOrSubcommand => {
            line.add(&["no command"]);
        }
        ErrorKind::InvalidSubcommand => {
            let (word, rest) = parted(quoted, "'\n\n");
            line.add_word("unknown command \"", word, "\"");
            add_near(line, rest);
        }
        ErrorKind::UnknownArgument => add_unknown(line, program, row, words, quoted),
        ErrorKind::InvalidValue => line.add(&[parted(quoted, " <").0, " has no value"]),
        ErrorKind::TooManyValues => add_value(line, quoted),
        ErrorKind::MissingRequiredArgument => add_missing(line, row, told),
        kind => line.add(&[kind.as_str().unwrap_or("")]),
    }
}

/// The parts of a text before and after the first mark. A text without the mark is the first part.
fn parted<'a>(text: &'a str, mark: &str) -> (&'a str, &'a str) {
    text.split_once(mark).unwrap_or((text, ""))
}

/// The parts before and after the last mark.
fn parted_at_last<'a>(text: &'a str, mark: &str) -> (&'a str, &'a str) {
    text.rsplit_once(mark).unwrap_or((text, ""))
}

/// Adds what is near a refused word, if `clap` names it after the word: the last thing in quotes on
/// the line of its first tip. A tip on how to pass the word as a value names nothing.
fn add_near(line: &mut Line, told: &str) {
    let (tip, _) = parted(told, "\n");
    let (front, _) = parted_at_last(tip, "'");
    let (_, near) = parted_at_last(front, "'");
    if !near.is_empty() && !tip.starts_with("  tip: to pass ") {
        line.add_word(" (", near, "?)");
    }
}

/// Adds that a word is no argument of the command, or of the program if no command is named.
fn add_unknown(
    line: &mut Line,
    program: &Program<'_>,
    row: Option<&CommandRow<'_>>,
    words: &[String],
    told: &str,
) {
    let (word, rest) = parted(told, "' found\n\n");
    match (row, option_told(words, word)) {
        (Some(row), Some(_)) if word.starts_with("--") => add_long(line, program, row, word, rest),
        (Some(row), Some(option)) if option != "-" => add_short(line, row, option),
        (Some(row), Some(stray)) => add_stray(line, row, stray),
        (Some(row), None) => add_stray(line, row, word),
        (None, Some(option)) => {
            let is_long = word.starts_with("--");
            line.add_word(
                "unknown option \"",
                if is_long { word } else { option },
                "\"",
            );
            add_near(line, rest);
        }
        (None, None) => line.add(&["-- stands before the command"]),
    }
}

/// The option that `clap` names, as it stands among the words; `None` if that is no option. `clap`
/// leaves out what follows the `=` of a long option and the first letter of a short one.
fn option_told<'a>(words: &'a [String], told: &str) -> Option<&'a str> {
    let is_long = told.starts_with("--");
    for word in words {
        let word = word.as_str();
        if word == "--" || !told.starts_with("-") {
            return None;
        }
        if word.starts_with(told) && word.starts_with("--") == is_long {
            return Some(word);
        }
    }
    None
}

/// Adds that the command has no such option, and which other command has it.
fn add_long(line: &mut Line, program: &Program<'_>, row: &CommandRow<'_>, word: &str, told: &str) {
    let (_, name) = parted(word, "--");
    match owner_of(program, name) {
        Some(other) => line.add(&[row.name, " has no --", name, ": ", other, " has it"]),
        None => {
            line.add_word("unknown option \"", word, "\"");
            add_near(line, told);
        }
    }
}

/// Adds that a word is no option. It may lack only its second `-`.
fn add_short(line: &mut Line, row: &CommandRow<'_>, word: &str) {
    line.add_word("unknown option \"", word, "\"");
    let (_, name) = parted(word, "-");
    if has_option(row, name) {
        line.add(&[" (--", name, "?)"]);
    }
}

/// The first command that has an option or a flag of this name.
fn owner_of<'a>(program: &Program<'a>, name: &str) -> Option<&'a str> {
    for row in program.commands {
        if has_option(row, name) {
            return Some(row.name);
        }
    }
    None
}

/// Whether a command has an option or a flag of this name.
pub(crate) fn has_option(row: &CommandRow<'_>, name: &str) -> bool {
    row.options.contains(&name) || row.flags.contains(&name)
}

/// Adds what is wrong with a word that stands alone. It may be an option without its `--`.
fn add_stray(line: &mut Line, row: &CommandRow<'_>, word: &str) {
    if has_option(row, word) {
        line.add(&["unknown option \"", word, "\" (--", word, "?)"]);
    } else {
        line.add_word("one word too many: \"", word, "\"");
    }
}

/// Adds that a flag has a value. `clap` quotes the value first, whatever quotes the value has.
fn add_value(line: &mut Line, told: &str) {
    let (front, _) = parted_at_last(told, "' found; ");
    let (value, flag) = parted_at_last(front, "' for '");
    line.add(&[flag]);
    line.add_word(" takes no value: \"", value, "\"");
}

/// Adds the words that the command lacks. `clap` names each on a line.
fn add_missing(line: &mut Line, row: Option<&CommandRow<'_>>, told: &str) {
    let (_, list) = parted(told, "\n  <");
    let (list, _) = parted(list, ">\n\n");
    let mut is_first = true;
    if let Some(row) = row {
        line.add(&[row.name]);
    }
    for name in list.split(">\n  <") {
        line.add(&[if is_first { " lacks " } else { ", " }, name]);
        is_first = false;
    }
}
