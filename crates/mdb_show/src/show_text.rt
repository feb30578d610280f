//! The lines of `show`, as text.

ghost use Rattle.std.specs.Prelude.{◌≡◌, ◌∷◌, [], ◌++◌, OnOk, codes, true};
ghost use Rattle.std.specs.Fmt.{decimal, digit_glyph};
ghost use Rattle.mdb_bus.specs.Acts.{IsReply};
ghost use Rattle.mdb_bus.specs.Pieces.{NamesAReply};
ghost use Rattle.mdb_words.specs.Block.{block_of};
ghost use Rattle.mdb_msgs.specs.Replies.{reply_bytes};
ghost use Rattle.mdb_show.specs.ShowText.{act_text, bytes_text, deed_text, fault_line, rows_line, rows_text};

use itoa::Buffer;
use mdb_bus::{Act, LinkFault};
use mdb_msgs::{Command, Reply, write_command, write_reply};
use mdb_text::hex_digit;
use std::alloc::AllocError;

/// Appends the line of a tail that was cut.
pub(crate) fn push_cut_line(text: &mut Vec<u8>, first: u64, last: u64) -> Result<(), AllocError>
    ensures { OnOk result
        (text.new.items ≡ text.old.items ++ rows_line first last (codes "cut")) }
{
    push_rows(text, first, last)?;
    text.extend_from_slice(b"cut\n")
}

/// Appends the line of a row that cannot be.
pub(crate) fn push_fault_line(
    text: &mut Vec<u8>,
    row: u64,
    fault: LinkFault,
) -> Result<(), AllocError>
    ensures { OnOk result (text.new.items ≡ text.old.items ++ fault_line row fault) }
{
    text.extend_from_slice(b"fault ")?;
    push_decimal(text, row)?;
    text.extend_from_slice(b" ")?;
    text.extend_from_slice(fault.rule.word().as_bytes())?;
    text.extend_from_slice(b" ")?;
    text.extend_from_slice(fault.blame.word().as_bytes())?;
    text.extend_from_slice(b"\n")
}

/// Appends the line of an act.
pub(crate) fn push_act_line(
    text: &mut Vec<u8>,
    first: u64,
    last: u64,
    act: &Act,
) -> Result<(), AllocError>
    requires { NamesAReply act.now }
    ensures { OnOk result
        (text.new.items ≡ text.old.items ++ rows_line first last (act_text act.now)) }
{
    push_rows(text, first, last)?;
    push_act(text, act)?;
    text.extend_from_slice(b"\n")
}

/// Appends the rows that a line tells of.
fn push_rows(text: &mut Vec<u8>, first: u64, last: u64) -> Result<(), AllocError>
    ensures { OnOk result (text.new.items ≡ text.old.items ++ rows_text first last) }
{
    push_decimal(text, first)?;
    text.extend_from_slice(b"-")?;
    push_decimal(text, last)?;
    text.extend_from_slice(b" ")
}

/// Appends what was done.
fn push_act(text: &mut Vec<u8>, act: &Act) -> Result<(), AllocError>
    requires { NamesAReply act.now }
    ensures { OnOk result (text.new.items ≡ text.old.items ++ act_text act.now) }
{
    match act {
        Act::Ask(command) => push_ask(text, command),
        Act::Ack(command) => push_deed(text, b"ack ", command),
        Act::Nak(command) => push_deed(text, b"nak ", command),
        Act::Reply(command, reply) => push_reply(text, b"reply ", command, reply),
        Act::VmcAck(command, _) => push_deed(text, b"vmc-ack ", command),
        Act::VmcNak(command, _) => push_deed(text, b"vmc-nak ", command),
        Act::VmcRet(command, _) => push_deed(text, b"vmc-ret ", command),
        Act::Repeat(command, reply) => push_reply(text, b"repeat ", command, reply),
        Act::Foreign => text.extend_from_slice(b"foreign"),
        Act::Break(length) => push_break(text, *length),
    }
}

/// Appends that there was a break.
fn push_break(text: &mut Vec<u8>, length: u64) -> Result<(), AllocError>
    ensures { OnOk result (text.new.items ≡ text.old.items ++ act_text (Act.Break length)) }
{
    text.extend_from_slice(b"break ")?;
    push_decimal(text, length)
}

/// Appends that a command was asked.
fn push_ask(text: &mut Vec<u8>, command: &Command) -> Result<(), AllocError>
    ensures { OnOk result (text.new.items ≡ text.old.items ++ act_text (Act.Ask command.now)) }
{
    push_deed(text, b"ask ", command)?;
    push_bytes(text, write_command(command).bytes())
}

/// Appends that a command was answered by a reply.
fn push_reply(
    text: &mut Vec<u8>,
    deed: &[u8],
    command: &Command,
    reply: &Reply,
) -> Result<(), AllocError>
    requires { IsReply command.now reply.now }
    ensures { OnOk result
        (text.new.items ≡ text.old.items ++ (deed_text deed.now command.now
        ++ bytes_text (block_of (reply_bytes reply.now)))) }
{
    let Ok(block) = write_reply(command, reply) else {
        unreachable!()
    };
    push_deed(text, deed, command)?;
    push_bytes(text, block.bytes())
}

/// Appends what somebody did to a command, and whose command it is.
fn push_deed(text: &mut Vec<u8>, deed: &[u8], command: &Command) -> Result<(), AllocError>
    ensures { OnOk result (text.new.items ≡ text.old.items ++ deed_text deed.now command.now) }
{
    text.extend_from_slice(deed)?;
    text.extend_from_slice(command.device().word().as_bytes())
}

/// Appends the bytes of a block.
pub(crate) fn push_bytes(text: &mut Vec<u8>, bytes: &[u8]) -> Result<(), AllocError>
    ensures { OnOk result (text.new.items ≡ text.old.items ++ bytes_text bytes.now) }
{
    for byte in bytes {
        text.extend_from_slice(&[b' ', hex_digit(*byte / 16), hex_digit(*byte % 16)])?;
    }
    Ok(())
}

/// Appends a number in decimal, without leading zeros.
pub(crate) fn push_decimal(text: &mut Vec<u8>, number: u64) -> Result<(), AllocError>
    ensures { OnOk result (text.new.items ≡ text.old.items ++ decimal number) }
{
    let mut buffer = Buffer::new();
    text.extend_from_slice(buffer.format(number).as_bytes())
}
