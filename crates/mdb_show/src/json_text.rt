//! The lines of `show`, as JSON. Nothing in them needs an escape.

ghost use Rattle.std.specs.Prelude.{◌≡◌, ◌∷◌, [], ◌++◌, OnOk, codes};
ghost use Rattle.json.specs.Print.{quoted};
ghost use Rattle.mdb_bus.specs.Acts.{IsReply};
ghost use Rattle.mdb_bus.specs.Pieces.{NamesAReply};
ghost use Rattle.mdb_words.specs.Block.{block_of};
ghost use Rattle.mdb_msgs.specs.Replies.{reply_bytes};
ghost use Rattle.mdb_show.specs.ShowJson.{hex_text};
ghost use Rattle.mdb_show.specs.inner.JsonLines.{act_json, blame_json, block_json, bytes_json, deed_json, device_json, fault_json, head_json, rows_json, rows_only_json, rule_json};

use super::show_text::{push_bytes, push_decimal};
use mdb_bus::{Act, Blame, LinkFault, Rule};
use mdb_msgs::{Command, Reply, write_command, write_reply};
use mdb_text::hex_digit;
use std::alloc::AllocError;

/// Appends the line of an act.
pub(crate) fn push_act_line(
    text: &mut Vec<u8>,
    first: u64,
    last: u64,
    act: &Act,
) -> Result<(), AllocError>
    requires { NamesAReply act.now }
    ensures { OnOk result
        (text.new.items ≡ text.old.items ++ (act_json first last act.now ++ codes "}\n")) }
{
    push_act(text, first, last, act)?;
    text.extend_from_slice(b"}\n")
}

/// Appends the line of a tail that was cut.
pub(crate) fn push_cut_line(text: &mut Vec<u8>, first: u64, last: u64) -> Result<(), AllocError>
    ensures { OnOk result (text.new.items
        ≡ text.old.items ++ (rows_only_json (codes "cut") first last ++ codes "}\n")) }
{
    push_rows_only(text, b"cut", first, last)?;
    text.extend_from_slice(b"}\n")
}

/// Appends the line of a row that cannot be.
pub(crate) fn push_fault_line(
    text: &mut Vec<u8>,
    row: u64,
    fault: LinkFault,
) -> Result<(), AllocError>
    ensures { OnOk result
        (text.new.items ≡ text.old.items ++ (fault_json row fault ++ codes "}\n")) }
{
    push_fault(text, row, fault)?;
    text.extend_from_slice(b"}\n")
}

/// Appends a row that cannot be, without the end of its object.
fn push_fault(text: &mut Vec<u8>, row: u64, fault: LinkFault) -> Result<(), AllocError>
    ensures { OnOk result (text.new.items ≡ text.old.items ++ fault_json row fault) }
{
    push_head(text, b"fault")?;
    push_blame(text, fault.blame)?;
    text.extend_from_slice(b",\"row\":")?;
    push_decimal(text, row)?;
    push_rule(text, fault.rule)
}

/// Appends who is to blame.
fn push_blame(text: &mut Vec<u8>, blame: Blame) -> Result<(), AllocError>
    ensures { OnOk result (text.new.items ≡ text.old.items ++ blame_json blame) }
{
    text.extend_from_slice(b",\"blame\":\"")?;
    text.extend_from_slice(blame.word().as_bytes())?;
    text.extend_from_slice(b"\"")
}

/// Appends the rule that is broken.
fn push_rule(text: &mut Vec<u8>, rule: Rule) -> Result<(), AllocError>
    ensures { OnOk result (text.new.items ≡ text.old.items ++ rule_json rule) }
{
    text.extend_from_slice(b",\"rule\":\"")?;
    text.extend_from_slice(rule.word().as_bytes())?;
    text.extend_from_slice(b"\"")
}

/// Appends an act, without the end of its object.
fn push_act(text: &mut Vec<u8>, first: u64, last: u64, act: &Act) -> Result<(), AllocError>
    requires { NamesAReply act.now }
    ensures { OnOk result (text.new.items ≡ text.old.items ++ act_json first last act.now) }
{
    match act {
        Act::Ask(command) => push_ask(text, command, first, last),
        Act::Ack(command) => push_deed(text, b"ack", command, first, last),
        Act::Nak(command) => push_deed(text, b"nak", command, first, last),
        Act::Reply(command, reply) => push_reply(text, b"reply", command, reply, first, last),
        Act::VmcAck(command, _) => push_deed(text, b"vmc-ack", command, first, last),
        Act::VmcNak(command, _) => push_deed(text, b"vmc-nak", command, first, last),
        Act::VmcRet(command, _) => push_deed(text, b"vmc-ret", command, first, last),
        Act::Repeat(command, reply) => push_reply(text, b"repeat", command, reply, first, last),
        Act::Foreign => push_rows_only(text, b"foreign", first, last),
        Act::Break(length) => push_break(text, *length, first, last),
    }
}

/// Appends that there was a break.
fn push_break(text: &mut Vec<u8>, length: u64, first: u64, last: u64) -> Result<(), AllocError>
    ensures { OnOk result
        (text.new.items ≡ text.old.items ++ act_json first last (Act.Break length)) }
{
    push_rows_only(text, b"break", first, last)?;
    text.extend_from_slice(b",\"length\":")?;
    push_decimal(text, length)
}

/// Appends that a command was asked.
fn push_ask(text: &mut Vec<u8>, command: &Command, first: u64, last: u64) -> Result<(), AllocError>
    ensures { OnOk result
        (text.new.items ≡ text.old.items ++ act_json first last (Act.Ask command.now)) }
{
    push_block(
        text,
        b"ask",
        write_command(command).bytes(),
        command,
        first,
        last,
    )
}

/// Appends that a command was answered by a reply.
fn push_reply(
    text: &mut Vec<u8>,
    word: &[u8],
    command: &Command,
    reply: &Reply,
    first: u64,
    last: u64,
) -> Result<(), AllocError>
    requires { IsReply command.now reply.now }
    ensures { OnOk result (text.new.items ≡ text.old.items
        ++ block_json word.now (block_of (reply_bytes reply.now)) command.now first last) }
{
    let Ok(block) = write_reply(command, reply) else {
        unreachable!()
    };
    push_block(text, word, block.bytes(), command, first, last)
}

/// Appends what somebody did with a block, whose command it was, and the rows.
fn push_block(
    text: &mut Vec<u8>,
    word: &[u8],
    bytes: &[u8],
    command: &Command,
    first: u64,
    last: u64,
) -> Result<(), AllocError>
    ensures { OnOk result (text.new.items
        ≡ text.old.items ++ block_json word.now bytes.now command.now first last) }
{
    push_head(text, word)?;
    push_hex(text, bytes)?;
    push_device(text, command)?;
    push_rows(text, first, last)
}

/// Appends what somebody did, whose command it was, and the rows.
fn push_deed(
    text: &mut Vec<u8>,
    word: &[u8],
    command: &Command,
    first: u64,
    last: u64,
) -> Result<(), AllocError>
    ensures { OnOk result
        (text.new.items ≡ text.old.items ++ deed_json word.now command.now first last) }
{
    push_head(text, word)?;
    push_device(text, command)?;
    push_rows(text, first, last)
}

/// Appends what has no device, and the rows.
fn push_rows_only(text: &mut Vec<u8>, word: &[u8], first: u64, last: u64) -> Result<(), AllocError>
    ensures { OnOk result
        (text.new.items ≡ text.old.items ++ rows_only_json word.now first last) }
{
    push_head(text, word)?;
    push_rows(text, first, last)
}

/// Appends the beginning of an object, with its first member.
fn push_head(text: &mut Vec<u8>, word: &[u8]) -> Result<(), AllocError>
    ensures { OnOk result (text.new.items ≡ text.old.items ++ head_json word.now) }
{
    text.extend_from_slice(b"{\"act\":\"")?;
    text.extend_from_slice(word)?;
    text.extend_from_slice(b"\"")
}

/// Appends whose command it was.
fn push_device(text: &mut Vec<u8>, command: &Command) -> Result<(), AllocError>
    ensures { OnOk result (text.new.items ≡ text.old.items ++ device_json command.now) }
{
    text.extend_from_slice(b",\"device\":\"")?;
    text.extend_from_slice(command.device().word().as_bytes())?;
    text.extend_from_slice(b"\"")
}

/// Appends the first row and the last.
fn push_rows(text: &mut Vec<u8>, first: u64, last: u64) -> Result<(), AllocError>
    ensures { OnOk result (text.new.items ≡ text.old.items ++ rows_json first last) }
{
    text.extend_from_slice(b",\"first\":")?;
    push_decimal(text, first)?;
    text.extend_from_slice(b",\"last\":")?;
    push_decimal(text, last)
}

/// Appends the bytes of a block, as a member.
fn push_hex(text: &mut Vec<u8>, bytes: &[u8]) -> Result<(), AllocError>
    ensures { OnOk result (text.new.items ≡ text.old.items ++ bytes_json bytes.now) }
{
    text.extend_from_slice(b",\"bytes\":\"")?;
    push_spaced(text, bytes)?;
    text.extend_from_slice(b"\"")
}

/// Appends bytes, one blank apart.
fn push_spaced(text: &mut Vec<u8>, bytes: &[u8]) -> Result<(), AllocError>
    ensures { OnOk result (text.new.items ≡ text.old.items ++ hex_text bytes.now) }
{
    let Some((first, others)) = bytes.split_first() else {
        return Ok(());
    };
    text.extend_from_slice(&[hex_digit(*first / 16), hex_digit(*first % 16)])?;
    push_bytes(text, others)
}
