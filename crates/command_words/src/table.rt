//! The tables of a program's commands.

/// A command of a program: its name, and what its words may be.
#[derive(Clone, Copy)]
pub struct CommandRow<'a> {
    /// The word that names it.
    pub name: &'a str,
    /// The names of its options. Each has a value, and may stand again.
    pub options: &'a [&'a str],
    /// The names of its flags. None has a value, and each may stand again.
    pub flags: &'a [&'a str],
    /// What its words that stand alone are called, in their order. Each must be there.
    pub words: &'a [&'a str],
    /// What its further words are called, in their order, after those of `words`. Each may be
    /// missing, and then those after it are missing too.
    pub further: &'a [&'a str],
    /// How it is called, in printable ASCII: its name, and what its words may be.
    pub usage: &'a str,
    /// What the manual has on it.
    pub manual: &'a str,
}

/// A program: its name, its version, and its commands.
#[derive(Clone, Copy)]
pub struct Program<'a> {
    /// Its name.
    pub name: &'a str,
    /// Its version, which `--version` asks for.
    pub version: &'a str,
    /// Its commands.
    pub commands: &'a [CommandRow<'a>],
    /// Which commands there are, each with two or three words, for the line of a program without
    /// one.
    pub summary: &'a str,
    /// The beginning of its manual: what it is.
    pub about: &'a str,
    /// The end of its manual, after what that has on each command.
    pub rest: &'a str,
}

/// The command of this name, if there is one.
pub(crate) fn command_named<'a>(program: &Program<'a>, name: &str) -> Option<&'a CommandRow<'a>> {
    for row in program.commands {
        if row.name == name {
            return Some(row);
        }
    }
    None
}
