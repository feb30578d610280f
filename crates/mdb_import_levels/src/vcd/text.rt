//! The text of a dump, cut into words.

use super::dump::Dump;
use super::fault::{Stop, VcdFault};
use crate::lines::Lines;
use mdb_import_shared::Options;
use std::alloc::Global;
use std::io::{ErrorKind, Read};

/// How many bytes of a dump are asked for at once.
const READ_SIZE: usize = 65_536;

/// The text of a dump so far.
#[derive(Drop)]
struct Text<'a> {
    /// The beginning of a word whose end wasn't read yet.
    begun: Vec<u8>,
    /// The words before it.
    dump: Dump<'a>,
}

/// Both lines of the bus, whose levels are all those of the dump that a reader has left.
pub(super) fn lines_of<R: Read + Drop>(
    alloc: Global,
    options: &Options,
    reader: R,
) -> Result<Lines, VcdFault> {
    let mut reader = reader;
    let mut buffer = Vec::new(alloc);
    buffer.resize(READ_SIZE, 0)?;
    let mut text = Text {
        begun: Vec::new(alloc),
        dump: Dump::new(alloc, options),
    };
    let mut last = b'\n';
    for _ in 0..u64::MAX {
        match reader.read(buffer.as_mut_slice()) {
            Ok(0) => return text.end(last),
            Ok(count) => {
                let part = buffer.get(..count).unwrap_or(&[]);
                last = part.last().copied().unwrap_or(last);
                text.take(part)?;
            }
            Err(error) => match error.kind() {
                ErrorKind::Interrupted => (),
                ErrorKind::OutOfMemory => return Err(VcdFault::Memory),
                _ => return Err(VcdFault::Read),
            },
        }
    }
    Err(VcdFault::Read)
}

/// Whether a byte stands between words.
fn is_blank(c: u8) -> bool {
    c == b' ' || c == b'\t' || c == b'\n' || c == b'\r'
}

impl Text<'_> {
    /// Takes the next part of the text.
    fn take(&mut self, part: &[u8]) -> Result<(), VcdFault> {
        let mut start = 0;
        for (index, c) in part.iter().enumerate() {
            if is_blank(*c) {
                let word = part.get(start..index).unwrap_or(&[]);
                if self.begun.is_empty() {
                    match self.dump.take(word) {
                        Ok(()) => (),
                        Err(stop) => return Err(self.fault_of(stop)),
                    }
                } else {
                    self.end_word(word)?;
                }
                start = index + 1;
                if *c == b'\n' {
                    self.dump.number = self.dump.number.saturating_add(1);
                }
            }
        }
        self.begun
            .extend_from_slice(part.get(start..).unwrap_or(&[]))?;
        Ok(())
    }

    /// Takes the word that was begun, if one was, and of which this is the rest.
    #[inline(never)]
    fn end_word(&mut self, rest: &[u8]) -> Result<(), VcdFault> {
        self.begun.extend_from_slice(rest)?;
        let taken = self.dump.take(self.begun.as_slice());
        self.begun.clear();
        match taken {
            Ok(()) => Ok(()),
            Err(stop) => Err(self.fault_of(stop)),
        }
    }

    /// Why there are no rows, if the reading stops for this: the levels before it may be refused.
    fn fault_of(&self, stop: Stop) -> VcdFault {
        match (stop, self.dump.lines().refusal()) {
            (Stop::Memory, _) | (_, None) => stop.at(self.dump.number),
            (_, Some(refusal)) => VcdFault::Line(refusal),
        }
    }

    /// Takes the end of the text after its last byte.
    fn end(mut self, last: u8) -> Result<Lines, VcdFault> {
        self.end_word(&[])?;
        if last != b'\n' {
            self.dump.number = self.dump.number.saturating_add(1);
        }
        if let Err(stop) = self.dump.end() {
            return Err(self.fault_of(stop));
        }
        if let Some(refusal) = self.dump.lines().refusal() {
            return Err(VcdFault::Line(refusal));
        }
        Ok(self.dump.into_lines())
    }
}
