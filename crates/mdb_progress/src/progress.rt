//! How far a run is.

ghost use Rattle.std.specs.Prelude.{◌≡◌};

use super::clearing::Clearing;
use super::counted::Counted;
use super::figures::{line_feeds, line_of, percent_of};
use std::cell::Cell;
use std::fs;
use std::fs::Files;
use std::io::{IsTerminal, Read, Write};
use std::os::unix::fs::FileTypeExt;
use std::time::{Clock, Duration, Instant};

/// After so many seconds the line comes, and is written anew.
const PERIOD: u64 = 1;

/// What the system calls standard input.
const STANDARD_INPUT: &str = "/dev/stdin";

/// What takes the line away: the cursor goes to the beginning of the line and erases to its end.
const ERASE: &[u8] = b"\r\x1b[K";

/// How far a run is, and the line that says so.
///
/// Only where `terminal` is one, a line comes: first a second after the beginning, and then once a
/// second, each time that something is read. So a run that waits for its input rewrites nothing.
/// The line is written at once, and no other line is on the terminal meanwhile. If the terminal
/// refuses it, or the clock can't be read, there is no line, and the run goes on.
///
/// No clause says what the line shows, since no clause sees what a cell holds.
#[derive(Drop)]
pub struct Progress<S, T> {
    /// The clock and the files.
    system: S,
    terminal: T,
    /// The program's name.
    name: &'static str,
    /// How many bytes the input has, where it is a file.
    whole: Option<u64>,
    /// When the line is due. Where it is `None` it never is, and nothing is counted.
    due: Cell<Option<Instant>>,
    rows: Cell<u64>,
    bytes: Cell<u64>,
    /// Whether the line stands on the terminal.
    is_shown: Cell<bool>,
}

impl<S: Clock + Files, T: Write + IsTerminal + Copy> Progress<S, T> {
    /// The progress of the program by this name, which begins now and reads this file, or where
    /// there is none standard input.
    pub fn new(system: S, terminal: T, name: &'static str, file: Option<&str>) -> Progress<S, T> {
        let is_on = terminal.is_terminal();
        let due = if is_on {
            a_period_from_now(&system)
        } else {
            None
        };
        let whole = if is_on {
            size_of(&system, file.unwrap_or(STANDARD_INPUT))
        } else {
            None
        };
        Progress {
            system,
            terminal,
            name,
            whole,
            due: Cell::new(due),
            rows: Cell::new(0),
            bytes: Cell::new(0),
            is_shown: Cell::new(false),
        }
    }

    /// The same reader. What is read of it counts as read of standard input.
    pub fn reader<R: Read>(&self, inner: R) -> Counted<'_, R, S, T>
        ensures { result ≡ inner }
    {
        Counted {
            inner,
            progress: self,
        }
    }

    /// The same writer. The first that is written to it ends the line.
    pub fn writer<W: Write>(&self, inner: W) -> Clearing<'_, W, S, T>
        ensures { result ≡ inner }
    {
        Clearing {
            inner,
            progress: Some(self),
        }
    }

    /// The same writer, which is standard output. The first that is written to it ends the line,
    /// but not where it is a file. What goes into a pipe counts as written to the terminal, since
    /// the program at its other end may write there what it is given.
    pub fn output<W: Write + IsTerminal>(&self, inner: W) -> Clearing<'_, W, S, T>
        ensures { result ≡ inner }
    {
        let is_apart = self.due.get().is_none()
            || (!inner.is_terminal() && self.has_output_apart());
        Clearing {
            inner,
            progress: if is_apart { None } else { Some(self) },
        }
    }

    /// Ends the line: it is taken away where it stands, and doesn't come again.
    pub fn end(&self) {
        self.due.set(None);
        if self.is_shown.replace(false) {
            self.tell(ERASE);
        }
    }

    /// Takes note of what was read.
    pub(crate) fn note(&self, read: &[u8]) {
        if let Some(due) = self.due.get() {
            add(&self.rows, line_feeds(read));
            add(&self.bytes, read.len());
            self.show_from(due);
        }
    }

    /// Shows the line if it is due from this time on.
    fn show_from(&self, due: Instant) {
        match Instant::now(&self.system) {
            Ok(now) if now < due => {}
            Ok(now) => {
                self.due.set(now.checked_add(Duration::from_secs(PERIOD)));
                self.show();
            }
            Err(_) => self.end(),
        }
    }

    /// Shows the line.
    fn show(&self) {
        let percent = self.whole.map(|whole| percent_of(self.bytes.get(), whole));
        if let Ok(line) = line_of(self.name, self.rows.get(), percent) {
            self.is_shown.set(true);
            self.tell(line.as_str().as_bytes());
        }
    }

    /// Writes to the terminal.
    fn tell(&self, text: &[u8]) {
        let mut terminal = self.terminal;
        let _ = terminal.write_all(text);
    }

    /// Whether standard output is a file or a device, and no pipe.
    fn has_output_apart(&self) -> bool {
        match fs::metadata(&self.system, "/dev/stdout") {
            Ok(found) => found.is_file() || found.file_type().is_char_device(),
            Err(_) => false,
        }
    }
}

/// Adds to a count, which stops at the greatest number.
fn add(count: &Cell<u64>, more: usize) {
    count.set(count.get().saturating_add(more as u64));
}

/// The time a period after now, where the clock can be read.
fn a_period_from_now<S: Clock>(system: &S) -> Option<Instant> {
    Instant::now(system)
        .ok()?
        .checked_add(Duration::from_secs(PERIOD))
}

/// How many bytes the input of this name has, where it is a file.
fn size_of<S: Files>(system: &S, name: &str) -> Option<u64> {
    match fs::metadata(system, name) {
        Ok(found) if found.is_file() => Some(found.len()),
        _ => None,
    }
}
