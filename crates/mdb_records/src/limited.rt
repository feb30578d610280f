// A reader up to a limit.

ghost use Rattle.std.specs.Prelude.{◌≡◌, ◌≤◌, ◌-◌, ◌+◌, ◌^◌, ◌↔◌, ◌⊎◌, min, None, Some, IfErr};
ghost use Rattle.std.specs.Prelude.{IfOk, IsSome, IsTrue, OnErr};
ghost use Rattle.std.specs.Io.{ReadsAtMost};
ghost use Rattle.std.specs.Io.KnownBytes.{ReadConsumes};
ghost use Rattle.std.specs.IoError.{error_kind};

use std::io::{Error, ErrorKind, Read, Result};

/// The bytes of a reader up to a limit. Past it every read fails, so the limit is no end of the
/// text.
#[derive(Drop)]
pub(crate) struct Limited<R> {
    inner: R,
    // The most bytes that are given.
    limit: u64,
    // How many of them may still be given.
    left: u64,
    // The first byte past the limit, once it was read.
    held: Option<u8>,
    // How the last read of `inner` that failed did so.
    failed: Option<ErrorKind>,
    ghost within: { left ≤ limit },
    ghost spent: { IsSome held → left ≡ 0 },
}

impl<R> Limited<R> {
    /// A reader of `inner` up to `limit` bytes.
    pub(crate) fn new(inner: R, limit: u64) -> Limited<R>
        ensures inner { result.inner ≡ inner }
        ensures limit { result.limit ≡ limit }
        ensures left { result.left ≡ limit }
        ensures held { result.held ≡ None }
        ensures failed { result.failed ≡ None }
    {
        Limited {
            inner,
            limit,
            left: limit,
            held: None,
            failed: None,
        }
    }

    /// Whether a byte past the limit was read.
    pub(crate) fn is_past(&self) -> bool
        ensures { IsTrue result ↔ IsSome self.now.held }
    {
        self.held.is_some()
    }

    /// How many bytes were given.
    pub(crate) fn given(&self) -> u64
        ensures count { result ≡ self.now.limit - self.now.left }
        ensures most { result ≤ self.now.limit }
    {
        self.limit - self.left
    }

    /// How the last read of the reader that failed did so.
    pub(crate) fn failed(&self) -> Option<ErrorKind>
        ensures { result ≡ self.now.failed }
    {
        self.failed
    }
}

// The error of a text that goes on past the limit.
fn past_the_limit() -> Error
    ensures { error_kind result ≡ ErrorKind.InvalidData }
{
    Error::from(ErrorKind::InvalidData)
}

// Reads of a reader, and keeps how that failed, if it did.
fn ask<R: Read>(reader: &mut R, failed: &mut Option<ErrorKind>, buf: &mut [u8]) -> Result<usize>
    ensures bound { ReadsAtMost result buf.new }
    ensures bytes { ReadConsumes (R.remaining reader.old) (R.remaining reader.new) result buf.new }
    ensures failed { IfErr result (λ e. failed.new ≡ Some (error_kind e)) }
{
    match reader.read(buf) {
        Ok(count) => Ok(count),
        Err(e) => {
            *failed = Some(e.kind());
            Err(e)
        }
    }
}

impl<R: Read> Read for Limited<R> {
    ghost use Rattle.mdb_records.specs.Mark.{given_of};

    ghost remaining = { λ s. given_of (R.remaining s.inner) s.left s.held };

    fn read(&mut self, buf: &mut [u8]) -> Result<usize>
        ensures bound { ReadsAtMost result buf.new }
        ensures bytes { ReadConsumes
            (given_of (R.remaining self.old.inner) self.old.left self.old.held)
            (given_of (R.remaining self.new.inner) self.new.left self.new.held) result buf.new }
        ensures limit { self.new.limit ≡ self.old.limit }
        // What is given is counted, and nothing else is.
        ensures given { IfOk result (λ count. self.old.left ≡ self.new.left + count) }
        ensures failed { OnErr result (self.new.left ≡ self.old.left) }
        // Past the limit a read fails for that alone.
        ensures past { IsSome self.new.held → IfErr result
            (λ e. error_kind e ≡ ErrorKind.InvalidData) }
        // Up to it one fails as `failed` says, and for nothing else. That the reader failed so is
        // not said: `failed` is a field that `ask` sets, and no clause of `Read` says why it fails.
        ensures cause { IfErr result
            (λ e. IsSome self.new.held ⊎ (self.new.failed ≡ Some (error_kind e))) }
    {
        if buf.is_empty() {
            return Ok(0);
        }
        if self.held.is_some() {
            return Err(past_the_limit());
        }
        if self.left == 0 {
            let mut next = [0];
            if ask(&mut self.inner, &mut self.failed, &mut next)? == 0 {
                return Ok(0);
            }
            self.held = Some(next[0]);
            return Err(past_the_limit());
        }
        let room = self.left.min(buf.len() as u64) as usize;
        let given = ask(&mut self.inner, &mut self.failed, &mut buf[..room])?;
        self.left -= given as u64;
        Ok(given)
    }
}
