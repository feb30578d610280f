//! The front of what is read.

use arrayvec::ArrayVec;
use mdb_import_shared::{FRONT, Kind, kind_of};
use std::io::{ErrorKind, Read, Result};

/// A reader that keeps the front of what it gives.
#[derive(Drop)]
pub(crate) struct Fronted<R> {
    inner: R,
    front: ArrayVec<u8, FRONT>,
}

impl<R: Read> Fronted<R> {
    /// The text of `inner`, of which nothing was read before.
    pub(crate) fn new(inner: R) -> Fronted<R> {
        Fronted {
            inner,
            front: ArrayVec::new(),
        }
    }

    /// What another command reads, by the front, if it isn't of a kind that this one reads. It
    /// reads on as far as the front isn't known.
    pub(crate) fn other_kind(&mut self, own: Kind) -> Option<Kind> {
        let mut byte = [0];
        for _ in self.front.len()..FRONT {
            match self.inner.read(&mut byte) {
                Ok(0) => break,
                Ok(_) => self.keep(&byte),
                Err(error) if error.kind() == ErrorKind::Interrupted => {}
                Err(_) => break,
            }
        }
        match (own, kind_of(self.front.as_slice())?) {
            (_, Kind::Export) | (Kind::Log, Kind::Rows) => None,
            (_, kind) if kind == own => None,
            (_, kind) => Some(kind),
        }
    }

    /// Keeps what belongs to the front of bytes that were read.
    fn keep(&mut self, bytes: &[u8]) {
        let room = FRONT.saturating_sub(self.front.len()).min(bytes.len());
        let _ = self.front.try_extend_from_slice(&bytes[..room]);
    }
}

impl<R: Read> Read for Fronted<R> {
    ghost use Rattle.std.specs.Prelude.{None};

    ghost remaining = { λ s. None };

    fn read(&mut self, buf: &mut [u8]) -> Result<usize> {
        let count = self.inner.read(buf)?;
        if self.front.len() < FRONT {
            self.keep(&buf[..count.min(buf.len())]);
        }
        Ok(count)
    }
}
