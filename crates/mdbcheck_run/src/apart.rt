//! A reader of a type of its own.

use std::io::{Read, Result};
use std::marker::Model;

/// A reader that reads what the reader within it does. In clauses it is that reader.
///
/// Its type is its own, and so is what is compiled for it: reading records of marks and reading
/// records of rows are then two, and the compiler can inline each into its one caller.
#[derive(Drop)]
pub(crate) struct Apart<R> {
    /// The reader within it.
    pub(crate) inner: R,
}

impl<R> Model for Apart<R> {
    ghost Value = { R };

    ghost view = { λ apart. apart.inner };
}

impl<R: Read> Read for Apart<R> {
    ghost remaining = { R.remaining };

    #[inline(always)]
    fn read(&mut self, buf: &mut [u8]) -> Result<usize> {
        self.inner.read(buf)
    }
}
