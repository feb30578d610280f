//! Texts, in memory that the page provides.

ghost use Rattle.std.specs.Prelude.{◌≡◌, ◌≤◌, ◌<◌, ◌++◌, ◌+◌, Some, false, length, take, true};
ghost use Rattle.mdb_page.specs.Answers.{written};
ghost use Rattle.mdb_page.specs.Surveys.{written_lines};
ghost use Rattle.mdb_page.specs.declared.sheet.TheConstants.{LINES_ROOM};

use std::io;
use std::io::Write;

/// The most bytes of an answer's text. The longest one is shorter.
const ROOM: usize = 4096;

/// The most bytes of a list of lines.
pub(crate) const LINES_ROOM: usize = 1 << 22;

/// The text of an answer.
#[repr(C)]
#[derive(Drop)]
pub struct PageText {
    /// The number of its bytes.
    pub count: u64,
    /// Its bytes, at the beginning of this array.
    pub bytes: [u8; ROOM],
}

/// The lines of a survey's faults and of the stretches before these.
#[repr(C)]
#[derive(Drop)]
pub struct PageLines {
    /// The number of their bytes.
    pub count: u64,
    /// Their bytes, at the beginning of this array.
    pub bytes: [u8; LINES_ROOM],
}

impl PageText {
    /// The bytes of the text.
    pub(crate) fn text(&self) -> &[u8]
        ensures { result.now ≡ written self.now }
    {
        if self.count < ROOM as u64 {
            &self.bytes[..self.count as usize]
        } else {
            &self.bytes
        }
    }
}

impl PageLines {
    /// Adds a text, whole. Returns whether it had room.
    pub(crate) fn add(&mut self, text: &[u8]) -> bool
        requires { self.old.count ≤ LINES_ROOM }
        ensures added { result ≡ true
            → written_lines self.new ≡ written_lines self.old ++ text.now }
        ensures refused { result ≡ false → (self.new ≡ self.old)
            × (LINES_ROOM < length (written_lines self.old) + length text.now) }
        ensures count { self.new.count ≤ LINES_ROOM }
    {
        let start = self.count as usize;
        if text.len() > LINES_ROOM - start {
            return false;
        }
        let end = start + text.len();
        self.bytes[start..end].copy_from_slice(text);
        self.count = end as u64;
        true
    }
}

/// It takes as many bytes as it has room for.
impl Write for PageText {
    ghost contents = { λ text. Some (take text.count text.bytes) };

    fn write(&mut self, buf: &[u8]) -> io::Result<usize> {
        if self.count >= ROOM as u64 {
            return Ok(0);
        }
        let start = self.count as usize;
        let taken = buf.len().min(ROOM - start);
        let end = start + taken;
        self.bytes[start..end].copy_from_slice(&buf[..taken]);
        self.count = end as u64;
        Ok(taken)
    }

    fn flush(&mut self) -> io::Result<()> {
        Ok(())
    }
}
