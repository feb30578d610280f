//! The commands that a controller sends, from the rows of a recording.

ghost use Rattle.std.specs.Prelude.{◌≡◌, ◌∷◌, ◌++◌, [], List, Option, IfErr, IfOk, OnErr};
ghost use Rattle.mdb_bus.specs.ActLists.{Piece, events_of};
ghost use Rattle.mdb_bus.specs.Pieces.{HasActList};
ghost use Rattle.mdb_bus.specs.Bus.{GoesOn, StandsFor, scope_of};
ghost use Rattle.mdb_bus.specs.LinkFaults.{IsLinkFault};
ghost use Rattle.mdb_bus.specs.declared.act.Act.{Act};
ghost use Rattle.mdb_examples.specs.Commands.{asked_in};

use mdb_bus::{Act, Bus, LinkFault};
use mdb_msgs::Command;
use mdb_words::Event;

/// Takes the next row, and answers the command that it ends, if it ends one.
///
/// # Errors
///
/// The rule of the link that the row breaks, and who is to blame. The bus is then as it was.
pub fn next_command(bus: &mut Bus, row: Event) -> Result<Option<Command>, LinkFault>
    ensures goes_on { (pieces : List Piece) → StandsFor bus.old pieces
        → IfOk result (λ command. (act : Option Act) × GoesOn bus.new pieces row act
        × (command ≡ asked_in act)) }
    ensures fault { (pieces : List Piece) → StandsFor bus.old pieces
        → IfErr result (λ fault. IsLinkFault (scope_of bus.old) pieces row fault.rule fault.blame) }
    ensures impossible { (pieces : List Piece) → StandsFor bus.old pieces
        → OnErr result (HasActList (scope_of bus.old) (events_of pieces ++ row ∷ []) → ⊥) }
    ensures unchanged { OnErr result (bus.new ≡ bus.old) }
    ensures scope { scope_of bus.new ≡ scope_of bus.old }
{
    match bus.feed(row) {
        Ok(Some(Act::Ask(command))) => Ok(Some(command)),
        Ok(_) => Ok(None),
        Err(fault) => Err(fault),
    }
}
