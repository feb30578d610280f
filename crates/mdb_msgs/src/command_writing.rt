//! Commands as blocks of the controller.

ghost use Rattle.std.specs.Prelude.{◌≡◌, ◌<◌, ◌≤◌, ◌+◌, ◌/◌, ◌∷◌, ◌++◌, length};
ghost use Rattle.mdb_words.specs.Block.{block_of};
ghost use Rattle.mdb_msgs.specs.Commands.{AreBytes, HasBillFields, HasChangerFields, HasReaderFields, Spells, bill_bytes, changer_bytes, reader_bytes};
ghost use Rattle.mdb_msgs.specs.TwoBytes.{two_bytes};

use super::command::{BillCommand, ChangerCommand, Command, ReaderCommand};
use arrayvec::ArrayVec;
use mdb_words::{Block, seal};

/// The block of a command.
pub fn write_command(command: &Command) -> Block
    ensures { Spells command.now result }
{
    match *command {
        Command::Changer(command) => changer_block(command),
        Command::Bill(command) => bill_block(command),
        Command::Reader(unit, command) => reader_block(unit.address(), command),
    }
}

/// The block of a command to the coin changer.
fn changer_block(command: ChangerCommand) -> Block
    ensures fields { HasChangerFields command }
    ensures block { result ≡ block_of (changer_bytes command) }
{
    match command {
        ChangerCommand::Reset => block(&[0x08]),
        ChangerCommand::Setup => block(&[0x09]),
        ChangerCommand::TubeStatus => block(&[0x0A]),
        ChangerCommand::Poll => block(&[0x0B]),
        ChangerCommand::CoinType { enable, manual } => joined(&[0x0C], &numbers(enable, manual)),
        ChangerCommand::Dispense(coins) => block(&[0x0D, coins]),
        ChangerCommand::Identification => block(&[0x0F, 0x00]),
        ChangerCommand::Features(features) => joined(&[0x0F, 0x01], &features),
    }
}

/// The block of a command to the bill validator.
fn bill_block(command: BillCommand) -> Block
    ensures fields { HasBillFields command }
    ensures block { result ≡ block_of (bill_bytes command) }
{
    match command {
        BillCommand::Reset => block(&[0x30]),
        BillCommand::Setup => block(&[0x31]),
        BillCommand::Security(levels) => joined(&[0x32], &levels),
        BillCommand::Poll => block(&[0x33]),
        BillCommand::BillType { enable, escrow } => joined(&[0x34], &numbers(enable, escrow)),
        BillCommand::Escrow(order) => block(&[0x35, order]),
        BillCommand::Stacker => block(&[0x36]),
        BillCommand::Identification => block(&[0x37, 0x00]),
        BillCommand::Features(features) => joined(&[0x37, 0x01], &features),
        BillCommand::IdentificationWithOptions => block(&[0x37, 0x02]),
    }
}

/// The block of a command to the cashless reader at an address.
fn reader_block(address: u8, command: ReaderCommand) -> Block
    requires { address ≤ 0xF8 }
    ensures fields { HasReaderFields command }
    ensures block { result ≡ block_of (reader_bytes address command) }
{
    let (setup, vend, enable) = (address + 1, address + 3, address + 4);
    match command {
        ReaderCommand::Reset => block(&[address]),
        ReaderCommand::SetupConfig {
            level,
            columns,
            rows,
            display,
        } => block(&[setup, 0x00, level, columns, rows, display]),
        ReaderCommand::SetupPrices { maximum, minimum } => {
            joined(&[setup, 0x01], &numbers(maximum, minimum))
        }
        ReaderCommand::Poll => block(&[address + 2]),
        ReaderCommand::VendRequest { price, item } => joined(&[vend, 0x00], &numbers(price, item)),
        ReaderCommand::VendCancel => block(&[vend, 0x01]),
        ReaderCommand::VendSuccess { item } => joined(&[vend, 0x02], &number(item)),
        ReaderCommand::VendFailure => block(&[vend, 0x03]),
        ReaderCommand::SessionComplete => block(&[vend, 0x04]),
        ReaderCommand::CashSale { price, item } => joined(&[vend, 0x05], &numbers(price, item)),
        ReaderCommand::Disable => block(&[enable, 0x00]),
        ReaderCommand::Enable => block(&[enable, 0x01]),
        ReaderCommand::Cancel => block(&[enable, 0x02]),
        ReaderCommand::RequestId(identity) => identity_block(address + 7, &identity),
        ReaderCommand::EnableOptions(options) => joined(&[address + 7, 0x04], &options),
    }
}

/// The block of REQUEST ID.
fn identity_block(first: u8, identity: &[u8; 29]) -> Block
    ensures fields { AreBytes 29 identity.now }
    ensures block { result ≡ block_of (first ∷ 0x00 ∷ identity.now) }
{
    joined(&[first, 0x00], identity)
}

/// The block that carries these bytes, one list after the other.
fn joined(head: &[u8], tail: &[u8]) -> Block
    requires least { 1 ≤ length head.now }
    requires most { length head.now + length tail.now ≤ 35 }
    ensures { result ≡ block_of (head.now ++ tail.now) }
{
    let mut content = ArrayVec::<u8, 35>::new();
    content.try_extend_from_slice(head).unwrap();
    content.try_extend_from_slice(tail).unwrap();
    block(content.as_slice())
}

/// The block that carries these bytes.
fn block(content: &[u8]) -> Block
    requires least { 1 ≤ length content.now }
    requires most { length content.now ≤ 35 }
    ensures { result ≡ block_of content.now }
{
    seal(content).unwrap()
}

/// A two-byte number, its high byte first.
fn number(number: u16) -> [u8; 2]
    ensures { result ≡ two_bytes number }
{
    number.to_be_bytes()
}

/// Two two-byte numbers.
fn numbers(first: u16, second: u16) -> [u8; 4]
    ensures { result ≡ two_bytes first ++ two_bytes second }
{
    let ([a, b], [c, d]) = (number(first), number(second));
    [a, b, c, d]
}
