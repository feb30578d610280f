//! A text, written at once.

ghost use Rattle.std.specs.Prelude.{OnOk};
ghost use Rattle.std.specs.Io.KnownBytes.{Appends};
ghost use Rattle.mdb_writing.specs.Written.{HasTaken};

use super::failed::WriteFailed;
use std::io::{ErrorKind, Write};

/// Writes a text. If the writer fails, it has taken a front of the text, and nothing else.
///
/// `Write::write_all` does as much, but its contract says nothing of what a failing writer took. A
/// write that was interrupted is tried again, and one that takes nothing is a failure.
///
/// # Errors
///
/// The writer failed, or took nothing.
pub fn write_text<W: Write>(writer: &mut W, text: &[u8]) -> Result<(), WriteFailed>
    ensures whole { OnOk result (Appends (W.contents writer.old) (W.contents writer.new) text.now) }
    ensures front { HasTaken (W.contents writer.old) (W.contents writer.new) text.now }
{
    let mut rest = text;
    for _ in 0..u64::MAX {
        if rest.is_empty() {
            return Ok(());
        }
        match writer.write(rest) {
            Ok(0) => return Err(WriteFailed),
            Ok(count) => rest = &rest[count..],
            Err(error) => {
                if error.kind() != ErrorKind::Interrupted {
                    return Err(WriteFailed);
                }
            }
        }
    }
    Err(WriteFailed)
}
