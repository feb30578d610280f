//! Blocks of the controller as commands.

ghost use Rattle.std.specs.Prelude.{◌≡◌, ◌≢◌, ◌<◌, ◌≤◌, ◌+◌, ◌-◌, length, slice_get, slice_index, Ok, Err, IfOk, IfErr, IfSome, MatchOption};
ghost use Rattle.std.specs.Option.{IfNone};
ghost use Rattle.mdb_msgs.specs.declared.command.Command.{Command};
ghost use Rattle.mdb_msgs.specs.declared.command.Device.{Device};
ghost use Rattle.mdb_msgs.specs.declared.fault.MsgFault.{MsgFault};
ghost use Rattle.mdb_msgs.specs.Commands.{HasBillFields, HasChangerFields, HasReaderFields, Spells, bill_bytes, changer_bytes, poll_of, reader_bytes};
ghost use Rattle.mdb_msgs.specs.CommandFaults.{IsCommandFault, IsRefused};
ghost use Rattle.mdb_msgs.specs.Needs.{reader_need};
ghost use Rattle.mdb_words.specs.Block.{block_of};

use super::command::{BillCommand, ChangerCommand, Command, Device, ReaderCommand, ReaderUnit};
use super::fault::MsgFault;
use super::two_bytes::number;
use mdb_words::Block;

/// Reads a block as a command.
///
/// # Errors
///
/// `Profile` if the first two bytes are those of a foreign block, or of one outside this profile.
/// `Length` if they need another length.
pub fn read_command(block: &Block) -> Result<Command, MsgFault>
    ensures command { IfOk result (λ command. Spells command block.now) }
    ensures only { (command : Command) → Spells command block.now → result ≡ Ok command }
    ensures fault { IfErr result (IsCommandFault block.now) }
    ensures refused { (fault : MsgFault) → IsCommandFault block.now fault → result ≡ Err fault }
{
    command_of(block.content())
}

/// Reads the content of a block, without its sum, as a command.
///
/// # Errors
///
/// Those of [`read_command`] for the block that carries these bytes.
pub fn command_of(content: &[u8]) -> Result<Command, MsgFault>
    requires { 0 < length content.now }
    ensures command { IfOk result (λ command. Spells command (block_of content.now)) }
    ensures only { (command : Command) →
        Spells command (block_of content.now) → result ≡ Ok command }
    ensures fault { IfErr result (IsCommandFault (block_of content.now)) }
    ensures refused { (fault : MsgFault) →
        IsCommandFault (block_of content.now) fault → result ≡ Err fault }
{
    device_command(content)
}

/// The device whose POLL's block carries these bytes, its sum left out; `None` where they are no
/// POLL's. This is `command_of` for the most frequent commands, without the making of one.
// Inlined, so that a POLL is known without a call.
#[inline(always)]
pub fn polled(content: &[u8]) -> Option<Device>
    ensures some { IfSome result (λ device. Spells (poll_of device) (block_of content.now)) }
    ensures none { IfNone result ((device : Device) →
        Spells (poll_of device) (block_of content.now) → ⊥) }
{
    match content {
        [0x0B] => Some(Device::Changer),
        [0x12] => Some(Device::Reader(ReaderUnit::First)),
        [0x33] => Some(Device::Bill),
        [0x62] => Some(Device::Reader(ReaderUnit::Second)),
        _ => None,
    }
}

/// The command whose bytes these are.
#[tactic(auto, using(crate::proofs::Addresses::refused_by_reader))]
fn device_command(content: &[u8]) -> Result<Command, MsgFault>
    requires { 0 < length content.now }
    ensures command { IfOk result (λ command. Spells command (block_of content.now)) }
    ensures fault { IfErr result (IsCommandFault (block_of content.now)) }
{
    match content {
        [0x08..=0x0F, ..] => Ok(Command::Changer(changer_command(content)?)),
        [0x10..=0x17, ..] => Ok(Command::Reader(ReaderUnit::First, reader_command(0x10, content)?)),
        [0x30..=0x37, ..] => Ok(Command::Bill(bill_command(content)?)),
        [0x60..=0x67, ..] => Ok(Command::Reader(
            ReaderUnit::Second,
            reader_command(0x60, content)?,
        )),
        _ => Err(MsgFault::Profile),
    }
}

/// A command to the coin changer.
fn changer_command(content: &[u8]) -> Result<ChangerCommand, MsgFault>
    requires some { 0 < length content.now }
    requires least { 0x08 ≤ slice_index content.now 0 }
    requires most { slice_index content.now 0 ≤ 0x0F }
    ensures command { IfOk result (λ command.
        HasChangerFields command × (content.now ≡ changer_bytes command)) }
    ensures fault { IfErr result (IsCommandFault (block_of content.now)) }
{
    match content {
        [0x08] => Ok(ChangerCommand::Reset),
        [0x09] => Ok(ChangerCommand::Setup),
        [0x0A] => Ok(ChangerCommand::TubeStatus),
        [0x0B] => Ok(ChangerCommand::Poll),
        [0x0C, enable_high, enable_low, manual_high, manual_low] => Ok(ChangerCommand::CoinType {
            enable: number(*enable_high, *enable_low),
            manual: number(*manual_high, *manual_low),
        }),
        [0x0D, coins] => Ok(ChangerCommand::Dispense(*coins)),
        [0x08..=0x0D, ..] => Err(MsgFault::Length),
        [0x0F, ..] => changer_expansion(content),
        _ => Err(MsgFault::Profile),
    }
}

/// An expansion command to the coin changer.
fn changer_expansion(content: &[u8]) -> Result<ChangerCommand, MsgFault>
    requires some { 0 < length content.now }
    requires expansion { slice_index content.now 0 ≡ 0x0F }
    ensures command { IfOk result (λ command.
        HasChangerFields command × (content.now ≡ changer_bytes command)) }
    ensures fault { IfErr result (IsCommandFault (block_of content.now)) }
{
    match content {
        [_, 0x00] => Ok(ChangerCommand::Identification),
        [_, 0x01, a, b, c, d] => Ok(ChangerCommand::Features([*a, *b, *c, *d])),
        [_, 0x00..=0x01, ..] => Err(MsgFault::Length),
        _ => Err(MsgFault::Profile),
    }
}

/// A command to the bill validator.
fn bill_command(content: &[u8]) -> Result<BillCommand, MsgFault>
    requires some { 0 < length content.now }
    requires least { 0x30 ≤ slice_index content.now 0 }
    requires most { slice_index content.now 0 ≤ 0x37 }
    ensures command { IfOk result (λ command.
        HasBillFields command × (content.now ≡ bill_bytes command)) }
    ensures fault { IfErr result (IsCommandFault (block_of content.now)) }
{
    match content {
        [0x30] => Ok(BillCommand::Reset),
        [0x31] => Ok(BillCommand::Setup),
        [0x32, a, b] => Ok(BillCommand::Security([*a, *b])),
        [0x33] => Ok(BillCommand::Poll),
        [0x34, enable_high, enable_low, escrow_high, escrow_low] => Ok(BillCommand::BillType {
            enable: number(*enable_high, *enable_low),
            escrow: number(*escrow_high, *escrow_low),
        }),
        [0x35, order] => Ok(BillCommand::Escrow(*order)),
        [0x36] => Ok(BillCommand::Stacker),
        [0x30..=0x36, ..] => Err(MsgFault::Length),
        _ => bill_expansion(content),
    }
}

/// An expansion command to the bill validator.
fn bill_expansion(content: &[u8]) -> Result<BillCommand, MsgFault>
    requires some { 0 < length content.now }
    requires expansion { slice_index content.now 0 ≡ 0x37 }
    ensures command { IfOk result (λ command.
        HasBillFields command × (content.now ≡ bill_bytes command)) }
    ensures fault { IfErr result (IsCommandFault (block_of content.now)) }
{
    match content {
        [_, 0x00] => Ok(BillCommand::Identification),
        [_, 0x01, a, b, c, d] => Ok(BillCommand::Features([*a, *b, *c, *d])),
        [_, 0x02] => Ok(BillCommand::IdentificationWithOptions),
        [_, 0x00..=0x02, ..] => Err(MsgFault::Length),
        _ => Err(MsgFault::Profile),
    }
}

/// A command to the cashless reader at an address.
fn reader_command(address: u8, content: &[u8]) -> Result<ReaderCommand, MsgFault>
    requires address { 0x08 ≤ address }
    requires some { 0 < length content.now }
    requires least { address ≤ slice_index content.now 0 }
    requires most { slice_index content.now 0 ≤ address + 7 }
    ensures command { IfOk result (λ command.
        HasReaderFields command × (content.now ≡ reader_bytes address command)) }
    ensures fault { IfErr result (IsRefused
        (reader_need (slice_index content.now 0 - address) (slice_get (block_of content.now) 1))
        (length content.now + 1)) }
{
    match (content[0] - address, &content[1..]) {
        (0, []) => Ok(ReaderCommand::Reset),
        (1, _) => setup_command(address, content),
        (2, []) => Ok(ReaderCommand::Poll),
        (3, _) => vend_command(address, content),
        (4, [0x00]) => Ok(ReaderCommand::Disable),
        (4, [0x01]) => Ok(ReaderCommand::Enable),
        (4, [0x02]) => Ok(ReaderCommand::Cancel),
        (7, [0x00, identity @ ..]) => identity_of(identity)
            .map(ReaderCommand::RequestId)
            .ok_or(MsgFault::Length),
        (7, [0x04, a, b, c, d]) => Ok(ReaderCommand::EnableOptions([*a, *b, *c, *d])),
        (0 | 2, _) | (4, [0x00..=0x02, ..]) | (7, [0x04, ..]) => Err(MsgFault::Length),
        _ => Err(MsgFault::Profile),
    }
}

/// A SETUP command to the cashless reader at an address.
fn setup_command(address: u8, content: &[u8]) -> Result<ReaderCommand, MsgFault>
    requires address { 0x08 ≤ address }
    requires some { 0 < length content.now }
    requires setup { slice_index content.now 0 ≡ address + 1 }
    ensures command { IfOk result (λ command.
        HasReaderFields command × (content.now ≡ reader_bytes address command)) }
    ensures fault { IfErr result (IsRefused
        (reader_need 1 (slice_get (block_of content.now) 1)) (length content.now + 1)) }
{
    match content {
        [_, 0x00, level, columns, rows, display] => Ok(ReaderCommand::SetupConfig {
            level: *level,
            columns: *columns,
            rows: *rows,
            display: *display,
        }),
        [
            _,
            0x01,
            maximum_high,
            maximum_low,
            minimum_high,
            minimum_low,
        ] => {
            Ok(ReaderCommand::SetupPrices {
                maximum: number(*maximum_high, *maximum_low),
                minimum: number(*minimum_high, *minimum_low),
            })
        }
        [_, 0x00..=0x01, ..] => Err(MsgFault::Length),
        _ => Err(MsgFault::Profile),
    }
}

/// A VEND command to the cashless reader at an address.
fn vend_command(address: u8, content: &[u8]) -> Result<ReaderCommand, MsgFault>
    requires address { 0x08 ≤ address }
    requires some { 0 < length content.now }
    requires vend { slice_index content.now 0 ≡ address + 3 }
    ensures command { IfOk result (λ command.
        HasReaderFields command × (content.now ≡ reader_bytes address command)) }
    ensures fault { IfErr result (IsRefused
        (reader_need 3 (slice_get (block_of content.now) 1)) (length content.now + 1)) }
{
    match content {
        [_, 0x00, price_high, price_low, item_high, item_low] => Ok(ReaderCommand::VendRequest {
            price: number(*price_high, *price_low),
            item: number(*item_high, *item_low),
        }),
        [_, 0x01] => Ok(ReaderCommand::VendCancel),
        [_, 0x02, item_high, item_low] => Ok(ReaderCommand::VendSuccess {
            item: number(*item_high, *item_low),
        }),
        [_, 0x03] => Ok(ReaderCommand::VendFailure),
        [_, 0x04] => Ok(ReaderCommand::SessionComplete),
        [_, 0x05, price_high, price_low, item_high, item_low] => Ok(ReaderCommand::CashSale {
            price: number(*price_high, *price_low),
            item: number(*item_high, *item_low),
        }),
        [_, 0x00..=0x05, ..] => Err(MsgFault::Length),
        _ => Err(MsgFault::Profile),
    }
}

/// The bytes of an identity, where they are 29.
fn identity_of(bytes: &[u8]) -> Option<[u8; 29]>
    ensures { MatchOption result (length bytes.now ≢ 29) (λ identity. identity ≡ bytes.now) }
{
    bytes.as_array().copied()
}
