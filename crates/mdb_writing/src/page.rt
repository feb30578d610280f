//! Short texts, gathered and written together.

ghost use Rattle.std.specs.Prelude.{◌≡◌, ◌⊎◌, ◌+◌, ◌<◌, ◌≤◌, [], ◌++◌, OnErr, OnOk, length};
ghost use Rattle.std.specs.Fmt.{decimal};
ghost use Rattle.std.specs.Io.KnownBytes.{Appends};
ghost use Rattle.mdb_writing.specs.declared.page.TheConstants.{PAGE};
ghost use Rattle.mdb_writing.specs.Output.{Breaks, Puts, output};
ghost use Rattle.mdb_writing.specs.Written.{HasTaken};

use super::failed::WriteFailed;
use super::text::write_text;
use itoa::Buffer;
use std::io::Write;
use std::marker::Model;

/// The most bytes that wait on a page.
pub const PAGE: usize = 8_192;

/// Short texts that wait to be written together, in room that never grows.
///
/// A clause sees the bytes that wait. Where the writer fails, the same bytes still wait, also those
/// that it took: written again, these would stand there twice. So the text ends there.
#[derive(Drop)]
pub struct Page {
    bytes: [u8; PAGE],
    /// So many of the bytes wait.
    used: usize,
    ghost within: { used ≤ PAGE },
}

impl Model for Page {
    ghost use Rattle.std.specs.Prelude.{List, ℕ, take};

    ghost Value = { List ℕ };

    ghost view = { λ page. take page.used page.bytes };
}

impl Page {
    /// An empty page.
    pub fn new() -> Page
        ensures { result ≡ [] }
    {
        Page {
            bytes: [0; PAGE],
            used: 0,
        }
    }

    /// Adds a text. If it doesn't fit, what waits is written first, and with it a text that is
    /// longer than a page.
    ///
    /// # Errors
    ///
    /// The writer failed. It took a front of what waited and of the text. The page is as before.
    /// But it is empty where what waited was written, and a text longer than a page wasn't.
    pub fn add<W: Write>(&mut self, writer: &mut W, text: &[u8]) -> Result<(), WriteFailed>
        ensures added { OnOk result (Puts (output (W.contents writer.old) self.old)
            (output (W.contents writer.new) self.new) text.now) }
        ensures broken { OnErr result (Breaks (output (W.contents writer.old) self.old)
            (output (W.contents writer.new) self.new) text.now) }
        ensures kept { OnErr result ((self.new ≡ self.old)
            ⊎ ((PAGE < length text.now) × (self.new ≡ []))) }
    {
        if text.len() > PAGE {
            self.write_out(writer)?;
            return write_text(writer, text);
        }
        self.make_room(writer, text.len())?;
        self.push(text);
        Ok(())
    }

    /// Writes what waits and then a text, and leaves the page empty: for a text that must not wait.
    ///
    /// # Errors
    ///
    /// The writer failed. It took a front of what waited and of the text.
    #[inline(always)]
    pub fn put<W: Write>(&mut self, writer: &mut W, text: &[u8]) -> Result<(), WriteFailed>
        ensures added { OnOk result (Puts (output (W.contents writer.old) self.old)
            (output (W.contents writer.new) self.new) text.now) }
        ensures broken { OnErr result (Breaks (output (W.contents writer.old) self.old)
            (output (W.contents writer.new) self.new) text.now) }
        ensures empty { OnOk result (self.new ≡ []) }
    {
        self.write_out(writer)?;
        write_text(writer, text)
    }

    /// Makes room for so many bytes. If there isn't as much, what waits is written.
    ///
    /// # Errors
    ///
    /// The writer failed. It took a front of what waited, and the page is as before.
    #[inline(always)]
    pub fn make_room<W: Write>(&mut self, writer: &mut W, most: usize) -> Result<(), WriteFailed>
        requires { most ≤ PAGE }
        ensures room { OnOk result (length self.new + most ≤ PAGE) }
        ensures put { OnOk result (Puts (output (W.contents writer.old) self.old)
            (output (W.contents writer.new) self.new) []) }
        ensures broken { OnErr result (Breaks (output (W.contents writer.old) self.old)
            (output (W.contents writer.new) self.new) []) }
        ensures kept { OnErr result (self.new ≡ self.old) }
    {
        if PAGE - self.used < most {
            self.write_out(writer)?;
        }
        Ok(())
    }

    /// Adds bytes for which there is room.
    #[inline(always)]
    pub fn push(&mut self, bytes: &[u8])
        requires { length self.old + length bytes.now ≤ PAGE }
        ensures { self.new ≡ self.old ++ bytes.now }
    {
        let end = self.used + bytes.len();
        self.bytes[self.used..end].copy_from_slice(bytes);
        self.used = end;
    }

    /// Adds a number in decimal, without leading zeros. There must be room for 20 digits.
    #[inline(always)]
    pub fn push_number(&mut self, number: u64)
        requires { length self.old + 20 ≤ PAGE }
        ensures bytes { self.new ≡ self.old ++ decimal number }
        ensures few { length self.new ≤ length self.old + 20 }
    {
        let mut buffer = Buffer::new();
        self.push(buffer.format(number).as_bytes());
    }

    /// Writes all that waits, and leaves the page empty.
    ///
    /// # Errors
    ///
    /// The writer failed. It took a front of what waited, and the page is as before.
    #[inline(never)]
    pub fn write_out<W: Write>(&mut self, writer: &mut W) -> Result<(), WriteFailed>
        ensures written { OnOk result
            (Appends (W.contents writer.old) (W.contents writer.new) self.old) }
        ensures empty { OnOk result (self.new ≡ []) }
        ensures front { HasTaken (W.contents writer.old) (W.contents writer.new) self.old }
        ensures kept { OnErr result (self.new ≡ self.old) }
    {
        write_text(writer, &self.bytes[..self.used])?;
        self.used = 0;
        Ok(())
    }
}
