//! A writer that takes the line away first.

use super::progress::Progress;
use std::fs::Files;
use std::io::{IsTerminal, Result, Write};
use std::marker::Model;
use std::time::Clock;

/// A writer that takes the line away before it writes. In clauses it is the writer within it.
#[derive(Drop)]
pub struct Clearing<'a, W, S, T> {
    pub(crate) inner: W,
    /// Of whose line; `None` where what is written leaves the line as it is.
    pub(crate) progress: Option<&'a Progress<S, T>>,
}

impl<'a, W, S, T> Model for Clearing<'a, W, S, T> {
    ghost Value = { W };

    ghost view = { λ clearing. clearing.inner };
}

impl<'a, W: Write, S: Clock + Files, T: Write + IsTerminal + Copy> Write for Clearing<'a, W, S, T> {
    ghost contents = { W.contents };

    fn write(&mut self, buf: &[u8]) -> Result<usize> {
        if let Some(progress) = self.progress {
            progress.end();
        }
        self.inner.write(buf)
    }

    fn flush(&mut self) -> Result<()> {
        self.inner.flush()
    }
}
