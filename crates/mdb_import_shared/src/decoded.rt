//! A reader of text that may be in UTF-16.

ghost use Rattle.std.specs.Prelude.{◌≡◌, ◌≤◌};
ghost use Rattle.arrayvec.specs.ArrayVec.{array_vec_len};

use arrayvec::ArrayVec;
use std::io::{Error, ErrorKind, Read, Result};

/// What is known of the encoding of a text.
#[derive(Clone, Copy)]
pub(crate) enum Mode {
    /// Nothing yet: its first two bytes tell it, of which one may be held.
    Start {
        /// The first byte of the text, once it was read.
        held: Option<u8>,
    },
    /// Its bytes are the text.
    Plain,
    /// UTF-16.
    Wide {
        /// Whether the high byte of a unit comes first.
        high_first: bool,
        /// The first byte of a unit, once it was read.
        held: Option<u8>,
        /// The last unit that was read, if it wasn't given yet: it may be the first half of a sign.
        last: Option<u16>,
    },
}

/// How far a text is decoded.
#[derive(Drop)]
pub(crate) struct Decoding {
    mode: Mode,
    // Bytes that are decoded and not given yet.
    ready: ArrayVec<u8, 8>,
}

impl Decoding {
    /// Before the first byte.
    fn new() -> Decoding {
        Decoding {
            mode: Mode::Start { held: None },
            ready: ArrayVec::new(),
        }
    }

    /// Takes the next byte.
    fn take(&mut self, byte: u8) {
        match self.mode {
            Mode::Start { held: None } => self.mode = Mode::Start { held: Some(byte) },
            Mode::Start { held: Some(first) } => self.start(first, byte),
            Mode::Plain => self.ready = one_byte(byte),
            Mode::Wide {
                high_first,
                held,
                last,
            } => self.take_wide(high_first, held, last, byte),
        }
    }

    /// Takes the next byte of a text in UTF-16, after these.
    fn take_wide(&mut self, high_first: bool, held: Option<u8>, last: Option<u16>, byte: u8) {
        match held {
            None => {
                self.mode = Mode::Wide {
                    high_first,
                    held: Some(byte),
                    last,
                };
            }
            Some(first) => self.take_unit(high_first, last, unit_of(high_first, first, byte)),
        }
    }

    /// Takes the next unit, after this one, if there is one that wasn't given yet.
    fn take_unit(&mut self, high_first: bool, last: Option<u16>, unit: u16) {
        let mut waiting = Some(unit);
        if let Some(before) = last {
            if is_pair(before, unit) {
                self.ready = bytes_of_sign(before, unit);
                waiting = None;
            } else {
                self.ready = bytes_of_unit(before);
            }
        }
        self.mode = Mode::Wide {
            high_first,
            held: None,
            last: waiting,
        };
    }

    /// Takes the first two bytes of the text.
    fn start(&mut self, first: u8, second: u8) {
        if first == 0xFF && second == 0xFE {
            self.mode = Mode::Wide {
                high_first: false,
                held: None,
                last: None,
            };
        } else if first == 0xFE && second == 0xFF {
            self.mode = Mode::Wide {
                high_first: true,
                held: None,
                last: None,
            };
        } else {
            self.mode = Mode::Plain;
            self.ready = one_byte(first);
            self.ready.push(second);
        }
    }

    /// Takes the end of the text.
    fn end(&mut self) {
        match self.mode {
            Mode::Start { held: Some(first) } => {
                self.ready = one_byte(first);
                self.mode = Mode::Plain;
            }
            Mode::Wide {
                high_first,
                held,
                last,
            } => {
                self.ready = bytes_at_end(last, held);
                self.mode = Mode::Wide {
                    high_first,
                    held: None,
                    last: None,
                };
            }
            _ => {}
        }
    }
}

/// The code unit of two bytes.
fn unit_of(high_first: bool, first: u8, second: u8) -> u16 {
    if high_first {
        u16::from(first) * 256 + u16::from(second)
    } else {
        u16::from(second) * 256 + u16::from(first)
    }
}

/// Whether two code units are the halves of one sign.
fn is_pair(high: u16, low: u16) -> bool {
    (0xD800 <= high && high < 0xDC00) && (0xDC00 <= low && low < 0xE000)
}

/// The bytes in UTF-8 of the sign of two halves.
fn bytes_of_sign(high: u16, low: u16) -> ArrayVec<u8, 8> {
    let sign = 0x1_0000 + u32::from(high % 1024) * 1024 + u32::from(low % 1024);
    let mut bytes = ArrayVec::new();
    bytes.push((0xF0 + sign / 0x4_0000) as u8);
    bytes.push((0x80 + sign / 0x1000 % 64) as u8);
    bytes.push((0x80 + sign / 64 % 64) as u8);
    bytes.push((0x80 + sign % 64) as u8);
    bytes
}

/// The bytes of the last unit, if it wasn't given yet, and of a last byte that is alone, if there
/// is one.
fn bytes_at_end(last: Option<u16>, held: Option<u8>) -> ArrayVec<u8, 8> {
    let mut bytes = match last {
        Some(unit) => bytes_of_unit(unit),
        None => ArrayVec::new(),
    };
    if held.is_some() {
        bytes.push(0xEF);
        bytes.push(0xBF);
        bytes.push(0xBD);
    }
    bytes
}

/// A byte alone.
fn one_byte(byte: u8) -> ArrayVec<u8, 8>
    ensures { array_vec_len result ≡ 1 }
{
    let mut bytes = ArrayVec::new();
    bytes.push(byte);
    bytes
}

/// The bytes of a code unit in UTF-8.
fn bytes_of_unit(unit: u16) -> ArrayVec<u8, 8>
    ensures { array_vec_len result ≤ 3 }
{
    let mut bytes = ArrayVec::new();
    if unit < 0x80 {
        bytes.push(unit as u8);
    } else if unit < 0x800 {
        bytes.push((0xC0 + unit / 64) as u8);
        bytes.push((0x80 + unit % 64) as u8);
    } else {
        bytes.push((0xE0 + unit / 4096) as u8);
        bytes.push((0x80 + unit / 64 % 64) as u8);
        bytes.push((0x80 + unit % 64) as u8);
    }
    bytes
}

/// The text of a reader, from UTF-16 where it begins with such a byte order mark.
#[derive(Drop)]
pub struct Decoded<R> {
    inner: R,
    decoding: Decoding,
}

impl<R> Decoded<R> {
    /// The text of `inner`, of which nothing was read before.
    pub fn new(inner: R) -> Decoded<R> {
        Decoded {
            inner,
            decoding: Decoding::new(),
        }
    }
}

/// Reads one byte; `None` at the end.
fn read_one<R: Read>(reader: &mut R) -> Result<Option<u8>> {
    let mut one = [0];
    if reader.read(&mut one)? == 0 {
        Ok(None)
    } else {
        Ok(Some(one[0]))
    }
}

impl<R: Read> Read for Decoded<R> {
    ghost use Rattle.std.specs.Prelude.{None};

    ghost remaining = { λ s. None };

    fn read(&mut self, buf: &mut [u8]) -> Result<usize> {
        if buf.is_empty() {
            return Ok(0);
        }
        for _ in 0..u64::MAX {
            if !self.decoding.ready.is_empty() {
                buf[0] = self.decoding.ready.remove(0);
                return Ok(1);
            }
            if matches!(self.decoding.mode, Mode::Plain) {
                return self.inner.read(buf);
            }
            match read_one(&mut self.inner)? {
                Some(byte) => self.decoding.take(byte),
                None => {
                    self.decoding.end();
                    if self.decoding.ready.is_empty() {
                        return Ok(0);
                    }
                }
            }
        }
        Err(Error::from(ErrorKind::Other))
    }
}
