//! A reader of which is counted what was read.

ghost use Rattle.std.specs.Io.{ReadsAtMost};
ghost use Rattle.std.specs.Io.KnownBytes.{ReadConsumes};

use super::progress::Progress;
use std::fs::Files;
use std::io::{IsTerminal, Read, Result, Write};
use std::marker::Model;
use std::time::Clock;

/// A reader of which is counted what was read. In clauses it is the reader within it.
#[derive(Drop)]
pub struct Counted<'a, R, S, T> {
    pub(crate) inner: R,
    pub(crate) progress: &'a Progress<S, T>,
}

impl<'a, R, S, T> Model for Counted<'a, R, S, T> {
    ghost Value = { R };

    ghost view = { λ counted. counted.inner };
}

impl<'a, R: Read, S: Clock + Files, T: Write + IsTerminal + Copy> Read for Counted<'a, R, S, T> {
    ghost remaining = { R.remaining };

    fn read(&mut self, buf: &mut [u8]) -> Result<usize> {
        let count = self.inner.read(buf)?;
        self.progress.note(&buf[..count]);
        Ok(count)
    }
}
