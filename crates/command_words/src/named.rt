//! What the words of a command line name.

use super::build::program_command;
use super::table::Program;
use clap::ArgMatches;
use clap::error::{Error, ErrorKind};
use std::alloc::{AllocError, Global};

/// What the words of a command line name: a command, and the values of what it knows.
#[derive(Drop)]
pub struct Named<'a> {
    matches: ArgMatches<'a>,
}

/// What the words of a command line name, the program's name first.
///
/// # Errors
///
/// The error of `clap` that refuses the words, or says that they ask for help or for the version.
/// Memory was refused.
pub fn read<'a>(
    alloc: Global,
    program: &Program<'a>,
    words: &'a [String],
) -> Result<Named<'a>, Error> {
    let matches = program_command(alloc, program)?.try_get_matches_from(words)?;
    Ok(Named { matches })
}

/// What the usage calls the file that is read in place of standard input.
pub const FILE: &str = "FILE";

/// What the words of a command line name. `None` where they are refused, or ask for help or for the
/// version.
///
/// # Errors
///
/// Memory was refused.
pub fn read_accepted<'a>(
    alloc: Global,
    program: &Program<'a>,
    words: &'a [String],
) -> Result<Option<Named<'a>>, AllocError> {
    match read(alloc, program, words) {
        Ok(found) => Ok(Some(found)),
        Err(error) if error.kind() == ErrorKind::OutOfMemory => Err(AllocError),
        Err(_) => Ok(None),
    }
}

impl<'a> Named<'a> {
    /// The name of the command.
    pub fn command(&self) -> &'a str {
        match self.matches.subcommand() {
            Some((name, _)) => name,
            None => "",
        }
    }

    /// The values of an option, or of a word, in their order. Where it has none, this is `None` or
    /// an empty slice.
    pub fn values(&self, name: &str) -> Option<&[&'a str]> {
        match self.matches.subcommand() {
            Some((_, found)) => found.get_strs(name),
            None => None,
        }
    }

    /// The value of an option that stands at most once.
    ///
    /// # Errors
    ///
    /// `ArgumentConflict` where it stands again.
    pub fn value(&self, name: &str) -> Result<Option<&'a str>, ErrorKind> {
        match self.values(name) {
            None | Some([]) => Ok(None),
            Some([value]) => Ok(Some(value)),
            Some(_) => Err(ErrorKind::ArgumentConflict),
        }
    }

    /// The file that is read in place of standard input. `None` where none is named, and for `-`.
    pub fn file(&self) -> Option<&'a str> {
        match self.value(FILE) {
            Ok(Some("-")) | Err(_) => None,
            Ok(name) => name,
        }
    }

    /// Whether a flag was used.
    pub fn is_used(&self, name: &str) -> bool {
        match self.matches.subcommand() {
            Some((_, found)) => found.contains_id(name),
            None => false,
        }
    }
}
