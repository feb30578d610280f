//! The two cashless readers.

ghost use Rattle.std.specs.Prelude.{◌≡◌};
ghost use Rattle.mdb_cashless.specs.Units as spec;

use mdb_msgs::{Command, ReaderCommand, ReaderUnit};

/// The reader of a number: 0 is the first, and any other number the second.
#[inline(always)]
pub(crate) fn unit_of(number: usize) -> ReaderUnit
    ensures { result ≡ spec.unit_of number }
{
    if number == 0 {
        ReaderUnit::First
    } else {
        ReaderUnit::Second
    }
}

/// The command to this reader that a command is.
#[inline(always)]
pub(crate) fn own(unit: ReaderUnit, command: &Command) -> Option<ReaderCommand>
    ensures { result ≡ spec.own unit command.now }
{
    match (unit, *command) {
        (ReaderUnit::First, Command::Reader(ReaderUnit::First, command))
        | (ReaderUnit::Second, Command::Reader(ReaderUnit::Second, command)) => Some(command),
        _ => None,
    }
}
