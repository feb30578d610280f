//! The commands of a table, as `clap` has them.

use super::table::{CommandRow, Program};
use clap::{Arg, ArgAction, Command};
use std::alloc::{AllocError, Global};

/// What a name is a name of.
#[derive(Clone, Copy)]
enum Kind {
    /// An option, which has a value.
    Option,
    /// A flag, which has none.
    Flag,
    /// A word that stands alone, and must be there.
    Word,
    /// A word that stands alone, and may be missing.
    Further,
}

/// The program's command, as `clap` has it.
pub(crate) fn program_command<'a>(
    alloc: Global,
    program: &Program<'a>,
) -> Result<Command<'a>, AllocError> {
    let mut command = Command::new(alloc, program.name)
        .version(program.version)
        .subcommand_required(true);
    for row in program.commands {
        command = command.subcommand(row_command(alloc, row)?)?;
    }
    Ok(command)
}

/// The command of a row.
fn row_command<'a>(alloc: Global, row: &CommandRow<'a>) -> Result<Command<'a>, AllocError> {
    let bare = Command::new(alloc, row.name);
    let with_options = add_args(alloc, bare, Kind::Option, row.options)?;
    let with_flags = add_args(alloc, with_options, Kind::Flag, row.flags)?;
    let with_words = add_args(alloc, with_flags, Kind::Word, row.words)?;
    add_args(alloc, with_words, Kind::Further, row.further)
}

/// A command that knows these names too.
fn add_args<'a>(
    alloc: Global,
    command: Command<'a>,
    kind: Kind,
    names: &[&'a str],
) -> Result<Command<'a>, AllocError> {
    let mut made = command;
    for name in names {
        made = made.arg(arg_of(alloc, kind, name))?;
    }
    Ok(made)
}

/// What `clap` knows of a name.
fn arg_of<'a>(alloc: Global, kind: Kind, name: &'a str) -> Arg<'a> {
    let arg = Arg::new(alloc, name);
    match kind {
        Kind::Option => arg.long(name).action(ArgAction::Append),
        Kind::Flag => arg.long(name).action(ArgAction::Append).num_args(0),
        Kind::Word => arg.required(true),
        Kind::Further => arg,
    }
}
