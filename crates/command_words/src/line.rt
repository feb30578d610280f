//! The line about a refused command line.

use super::table::{CommandRow, Program};
use arrayvec::ArrayString;
use mdb_writing::Excerpt;
use std::fmt::Write as _;
use std::io::{self, Write};

/// The most characters of a line, without its end.
const LINE: usize = 199;

/// The line about a refused command line. It has at most 200 characters with its end, whatever is
/// added. It is printable ASCII if the texts of the program and all added texts are.
#[derive(Drop)]
pub struct Line {
    text: ArrayString<LINE>,
}

impl Line {
    /// The beginning of a line: the name of the program.
    pub fn of(program: &Program<'_>) -> Line {
        let mut line = Line {
            text: ArrayString::new(),
        };
        line.add(&[program.name]);
        line
    }

    /// Adds texts. A text that doesn't fit is left out.
    pub fn add(&mut self, texts: &[&str]) {
        for text in texts {
            let _ = self.text.try_push_str(text);
        }
    }

    /// Adds a word of the command line between two texts. The word is cut at 24 bytes, and bytes
    /// that aren't printed are escaped.
    pub fn add_word(&mut self, front: &str, word: &str, back: &str) {
        let _ = write!(self.text, "{front}{}{back}", Excerpt::of_word(word));
    }

    /// Adds what went wrong in the system.
    pub fn add_error(&mut self, error: &io::Error) {
        let _ = write!(self.text, "{error}");
    }

    /// Adds the usage of the command. If no command is named, it adds the list of commands.
    pub fn add_usage(&mut self, program: &Program<'_>, row: Option<&CommandRow<'_>>) {
        match row {
            Some(row) => self.add(&["; usage: ", program.name, " ", row.usage]),
            None => self.add(&["; commands: ", program.summary]),
        }
    }

    /// Writes the line with its end. If `err` refuses a part, nothing more is tried.
    pub fn tell<E: Write>(&self, err: &mut E) {
        let _ = writeln!(err, "{}", self.text.as_str());
    }
}
