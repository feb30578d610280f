//! The records of a trace, from its reader.

use super::fault::{FormFault, SigrokFault};
use super::line::LineReader;
use super::pair::{Pair, form, next_pair};
use super::record::{after_begin, after_end};
use mdb_import_shared::{Imported, Options};
use mdb_words::Line;
use std::alloc::Global;
use std::io::{BufRead, Error, ErrorKind};

/// Both lines as they are read.
#[derive(Drop)]
pub(crate) struct Both {
    /// That of the controller.
    pub(crate) controller: LineReader,
    /// That of the devices.
    pub(crate) devices: LineReader,
    /// What is reported of them: what was passed over.
    pub(crate) told: Imported,
}

/// Both lines of the trace that a reader has left.
pub(crate) fn read_trace<B: BufRead>(
    alloc: Global,
    options: &Options,
    reader: &mut B,
) -> Result<Both, SigrokFault> {
    let mut held = Vec::new(alloc);
    append_line(reader, &mut held)?;
    if after_begin(held.as_slice()).is_none() {
        return Err(form(0, FormFault::NoTrace));
    }
    let mut both = Both {
        controller: LineReader::new(alloc, Line::Controller),
        devices: LineReader::new(alloc, Line::Peripheral),
        told: Imported::new(),
    };
    let number = both.take_all(options, reader, &mut held)?;
    read_two(reader, &mut held)?;
    expect_end(held.as_slice(), number)?;
    both.controller.end(options.skip_damaged, &mut both.told)?;
    both.devices.end(options.skip_damaged, &mut both.told)?;
    Ok(both)
}

impl Both {
    /// Takes all pairs of records of a trace, and answers the number of the record that would come
    /// next.
    fn take_all<B: BufRead>(
        &mut self,
        options: &Options,
        reader: &mut B,
        held: &mut Vec<u8>,
    ) -> Result<u64, SigrokFault> {
        let mut number: u64 = 1;
        for _ in 0..u64::MAX {
            let more = match self.take_shown(options, reader, number)? {
                Some(more) => more,
                None => {
                    read_two(reader, held)?;
                    self.take_held(options, held.as_slice(), number)?
                }
            };
            number = number.saturating_add(2);
            if !more {
                return Ok(number);
            }
        }
        // Their rows would fit no memory.
        Err(SigrokFault::Memory)
    }

    /// Takes the next two records, whose lines these are, and answers whether more follow.
    fn take_held(
        &mut self,
        options: &Options,
        text: &[u8],
        number: u64,
    ) -> Result<bool, SigrokFault> {
        match next_pair(options.swap, text, number) {
            Ok(pair) => {
                self.take(options.skip_damaged, &pair)?;
                Ok(pair.more)
            }
            Err(fault) => Err(fault),
        }
    }

    /// Takes the next two records, if the reader shows their lines and something after them, and
    /// answers whether more follow. If not, or if they can't be read, it takes nothing.
    #[inline(always)]
    fn take_shown<B: BufRead>(
        &mut self,
        options: &Options,
        reader: &mut B,
        number: u64,
    ) -> Result<Option<bool>, SigrokFault> {
        let text = match reader.fill_buf() {
            Ok(text) => text,
            Err(error) if error.kind() == ErrorKind::Interrupted => return Ok(None),
            Err(error) => return Err(fault_of_reading(&error)),
        };
        let Ok(pair) = next_pair(options.swap, text, number) else {
            return Ok(None);
        };
        if pair.rest.is_empty() {
            return Ok(None);
        }
        let length = text.len().saturating_sub(pair.rest.len());
        let more = pair.more;
        self.take(options.skip_damaged, &pair)?;
        reader.consume(length);
        Ok(Some(more))
    }

    /// Takes what was seen on a line. With `skip` damaged words are left out.
    #[inline(always)]
    fn take(&mut self, skip: bool, pair: &Pair<'_>) -> Result<(), SigrokFault> {
        match pair.line {
            Line::Controller => self.controller.take(skip, pair, &mut self.told),
            Line::Peripheral => self.devices.take(skip, pair, &mut self.told),
        }
    }
}

/// Whether a text is the line that ends a trace, and nothing else.
fn expect_end(text: &[u8], number: u64) -> Result<(), SigrokFault> {
    let fault = match after_end(text) {
        Some([]) => return Ok(()),
        Some(_) => FormFault::AfterEnd,
        None if text.is_empty() => FormFault::Cut,
        None => FormFault::NoEnd,
    };
    Err(form(number, fault))
}

/// Reads the next two lines in place of what is held. At the end of the trace there are fewer.
fn read_two<B: BufRead>(reader: &mut B, held: &mut Vec<u8>) -> Result<(), SigrokFault> {
    held.clear();
    append_line(reader, held)?;
    append_line(reader, held)
}

/// Appends the next line to what is held.
fn append_line<B: BufRead>(reader: &mut B, held: &mut Vec<u8>) -> Result<(), SigrokFault> {
    match reader.read_until(b'\n', held) {
        Ok(_) => Ok(()),
        Err(error) => Err(fault_of_reading(&error)),
    }
}

/// Why a trace can't be read from its reader.
fn fault_of_reading(error: &Error) -> SigrokFault {
    if error.kind() == ErrorKind::OutOfMemory {
        SigrokFault::Memory
    } else {
        SigrokFault::Read
    }
}
