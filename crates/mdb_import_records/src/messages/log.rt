//! The lines of a log.

ghost use Rattle.std.specs.Prelude.{◌<◌, ◌≤◌, IfSome, length};

use crate::frame::Source;
use mdb_import_shared::Decoded;
use mdb_records::ReadFault;
use std::alloc::{AllocError, Global};
use std::io::{ErrorKind, Read};

/// So many bytes are asked for at once.
const BUFFER: usize = 8192;

/// The lines of the text that a reader has left, one after the other. They end with LF, CR LF or
/// CR. The text may be in UTF-16, if it begins with its byte order mark.
#[derive(Drop)]
pub(crate) struct Log<R> {
    input: Input<R>,
    // The line that was read last, whose memory the next one uses again.
    line: Vec<u8>,
    // How many lines were read.
    count: u64,
}

impl<R: Read> Log<R> {
    /// The lines of the text that `reader` has left.
    pub(crate) fn new(alloc: Global, reader: R) -> Log<R> {
        Log {
            input: Input {
                reader: Decoded::new(reader),
                buffer: [0; BUFFER],
                at: 0,
                filled: 0,
                after_return: false,
            },
            line: Vec::new(alloc),
            count: 0,
        }
    }

    /// The line that was read last, without its end, and without a byte order mark.
    pub(crate) fn line(&self) -> &[u8] {
        match self.line.as_slice() {
            [0xEF, 0xBB, 0xBF, line @ ..] if self.count == 1 => line,
            line => line,
        }
    }
}

impl<R: Read> Source for Log<R> {
    fn read_next(&mut self) -> Result<bool, ReadFault> {
        self.count = self.count.saturating_add(1);
        self.line.clear();
        for _ in 0..u64::MAX {
            if self.input.at == self.input.filled && !self.input.fill()? {
                return Ok(!self.line.is_empty());
            }
            match self.input.take(&mut self.line) {
                Ok(true) => return Ok(true),
                Ok(false) => {}
                Err(_) => return Err(ReadFault::Memory),
            }
        }
        Err(ReadFault::Read)
    }

    fn bytes_ahead(&self) -> u64 {
        (self.input.filled - self.input.at) as u64
    }
}

/// What was read of a text, and what is still to come.
#[derive(Drop)]
struct Input<R> {
    reader: Decoded<R>,
    buffer: [u8; BUFFER],
    // What was read and not yet taken stands from here ..
    at: usize,
    // .. up to here.
    filled: usize,
    // Whether a CR was taken last, so that a LF is part of the same end.
    after_return: bool,
    ghost rise: { at ≤ filled },
    ghost fits: { filled ≤ 8192 },
}

impl<R: Read> Input<R> {
    /// Reads more bytes, where all were taken, and says whether there are some.
    fn fill(&mut self) -> Result<bool, ReadFault> {
        for _ in 0..u64::MAX {
            match self.reader.read(&mut self.buffer) {
                Ok(count) => {
                    self.at = 0;
                    self.filled = count;
                    return Ok(count > 0);
                }
                Err(error) if error.kind() == ErrorKind::Interrupted => {}
                Err(_) => return Err(ReadFault::Read),
            }
        }
        Err(ReadFault::Read)
    }

    /// Adds what was read of a line, and says whether its end was there.
    fn take(&mut self, line: &mut Vec<u8>) -> Result<bool, AllocError> {
        if self.after_return && self.at < self.filled && self.buffer[self.at] == b'\n' {
            self.at += 1;
        }
        self.after_return = false;
        let text = &self.buffer[self.at..self.filled];
        let Some(end) = end_in(text) else {
            line.extend_from_slice(text)?;
            self.at = self.filled;
            return Ok(false);
        };
        line.extend_from_slice(&text[..end])?;
        self.after_return = text[end] == b'\r';
        self.at += end + 1;
        Ok(true)
    }
}

/// Where the first line of a text ends; `None` where no end is there.
fn end_in(text: &[u8]) -> Option<usize>
    ensures { IfSome result (λ end. end < length text.now) }
{
    for end in 0..text.len() {
        if matches!(text[end], b'\n' | b'\r') {
            return Some(end);
        }
    }
    None
}
