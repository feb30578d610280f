//! Output that never waits for input.

ghost use Rattle.std.specs.Prelude.{◌≡◌, ◌≤◌};
ghost use Rattle.std.specs.Io.{WritesAtMost};
ghost use Rattle.mdb_progress.specs.declared.live.TheConstants.{ROOM};

use std::cell::RefCell;
use std::io::{Error, ErrorKind, Read, Result, Write};
use std::marker::Model;

/// The most bytes that are gathered.
const ROOM: usize = 8_192;

/// The status of a program whose output nobody reads any more: what a shell reports of one that
/// `SIGPIPE` ended.
const BROKEN_PIPE: u8 = 141;

/// The status of a program whose output can't be written.
const NOT_WRITTEN: u8 = 2;

/// The output of a program. It gathers what is written. All of it is written out before the program
/// reads input for which it may have to wait, and before it tells its user something.
///
/// After a write that failed nothing more is written. No clause sees what is gathered, since a cell
/// holds it.
#[derive(Drop)]
pub struct Live<W> {
    gathered: RefCell<Gathered<W>>,
}

impl<W: Write> Live<W> {
    /// The output that goes to this writer.
    pub fn new(writer: W) -> Live<W> {
        Live {
            gathered: RefCell::new(Gathered {
                writer,
                bytes: [0; ROOM],
                used: 0,
                failed: None,
            }),
        }
    }

    /// The same reader. Before each of its reads, what was gathered is written out. If that fails,
    /// so does the read.
    pub fn reader<R: Read>(&self, inner: R) -> Awaited<'_, R, W>
        ensures { result ≡ inner }
    {
        Awaited {
            inner,
            output: self,
        }
    }

    /// A writer beside the output. Before each of its writes, what was gathered is written out. If
    /// that fails it writes nothing, since [`Live::end`] tells it.
    pub fn beside<E: Write>(&self, inner: E) -> Beside<'_, E, W> {
        Beside {
            inner,
            output: self,
        }
    }

    /// Writes out the rest, and answers the status of a program of this name: the given one if all
    /// was written. If not, one line tells it, but not where the output is a pipe that nobody reads
    /// any more.
    pub fn end<E: Write>(&self, status: u8, name: &str, err: &mut E) -> u8 {
        let Err(error) = self.write_out() else {
            return status;
        };
        if error.kind() == ErrorKind::BrokenPipe {
            return BROKEN_PIPE;
        }
        let _ = writeln!(err, "{name}: the output can't be written");
        NOT_WRITTEN
    }

    /// Writes out what was gathered.
    fn write_out(&self) -> Result<()> {
        match self.gathered.try_borrow_mut() {
            Ok(mut gathered) => gathered.write_out(),
            Err(_) => Err(Error::from(ErrorKind::Other)),
        }
    }
}

impl<W: Write> Write for &Live<W> {
    #[inline(always)]
    fn write(&mut self, buf: &[u8]) -> Result<usize> {
        match self.gathered.try_borrow_mut() {
            Ok(mut gathered) => gathered.take(buf),
            Err(_) => Err(Error::from(ErrorKind::Other)),
        }
    }

    fn flush(&mut self) -> Result<()> {
        self.write_out()
    }
}

/// Bytes that wait for a writer.
#[derive(Drop)]
struct Gathered<W> {
    writer: W,
    bytes: [u8; ROOM],
    /// So many of the bytes wait.
    used: usize,
    /// How the first write that failed did so.
    failed: Option<ErrorKind>,
    ghost within: { used ≤ ROOM },
}

impl<W: Write> Gathered<W> {
    /// Takes a front of a text, and tells its length.
    #[inline(always)]
    fn take(&mut self, text: &[u8]) -> Result<usize>
        ensures bound { WritesAtMost result text.now }
    {
        if text.len() > ROOM - self.used {
            self.write_out()?;
        }
        let count = text.len().min(ROOM - self.used);
        let end = self.used + count;
        self.bytes[self.used..end].copy_from_slice(&text[..count]);
        self.used = end;
        Ok(count)
    }

    /// Writes out what waits.
    #[inline(never)]
    fn write_out(&mut self) -> Result<()> {
        if let Some(kind) = self.failed {
            return Err(Error::from(kind));
        }
        let written = self.writer.write_all(&self.bytes[..self.used]);
        self.used = 0;
        self.failed = written.as_ref().err().map(Error::kind);
        written
    }
}

/// A reader before whose reads a program's output is written out. In clauses it is the reader
/// within it.
#[derive(Drop)]
pub struct Awaited<'a, R, W> {
    inner: R,
    output: &'a Live<W>,
}

impl<'a, R, W> Model for Awaited<'a, R, W> {
    ghost Value = { R };

    ghost view = { λ awaited. awaited.inner };
}

impl<'a, R: Read, W: Write> Read for Awaited<'a, R, W> {
    ghost remaining = { R.remaining };

    fn read(&mut self, buf: &mut [u8]) -> Result<usize> {
        self.output.write_out()?;
        self.inner.read(buf)
    }
}

/// A writer beside a program's output.
#[derive(Drop)]
pub struct Beside<'a, E, W> {
    inner: E,
    output: &'a Live<W>,
}

impl<'a, E: Write, W: Write> Write for Beside<'a, E, W> {
    fn write(&mut self, buf: &[u8]) -> Result<usize> {
        match self.output.write_out() {
            Ok(()) => self.inner.write(buf),
            Err(_) => Ok(buf.len()),
        }
    }

    fn flush(&mut self) -> Result<()> {
        self.inner.flush()
    }
}
