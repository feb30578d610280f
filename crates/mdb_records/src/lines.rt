// The bytes of a reader, from which records are taken that stand on a line of their own.

ghost use Rattle.std.specs.Prelude.{All, ◌≡◌, ◌≤◌, ◌<◌, ◌-◌, ◌+◌, ◌++◌, ◌∷◌, [], false, length};
ghost use Rattle.std.specs.Prelude.{take, drop, IfOk, IfErr, OnOk, IsFalse, Ok, ◌⊎◌};
ghost use Rattle.std.specs.Io.{ReadsAtMost};
ghost use Rattle.std.specs.Io.KnownBytes.{IsAtEnd, Keeps, ReadConsumes};
ghost use Rattle.mdb_records.specs.Parts.{AreWithin, parted};
ghost use Rattle.mdb_records.specs.Plain.{BeginsLow};

use super::limited::Limited;
use super::plain::{Front, plain_record};
use super::{ReadFault, see_bytes};
use std::io::{Read, Result as IoResult};

// As many bytes as `csv` asks for at once.
const BUFFER: usize = 8192;

/// What the bytes that were read begin with.
#[derive(Clone, Copy)]
enum Step {
    /// A record on a line of its own, which was taken.
    Record,
    /// The front of a line, whose end was not read yet, or nothing.
    Unended,
    /// What only csv reads.
    Other,
}

/// The bytes that a limited reader gives. Its first records may be taken line by line, as long as
/// no field is quoted and each line ends in LF alone. What is left is read as any reader's.
#[derive(Drop)]
pub(crate) struct Lines<R> {
    source: Limited<R>,
    buffer: [u8; BUFFER],
    // The line that was taken last begins here.
    start: usize,
    // What was read and not yet taken stands from here ..
    at: usize,
    // .. up to here.
    filled: usize,
    // A line was taken, whose end is still to be read before the rest.
    begun: bool,
    ghost starts: { start ≤ filled },
    ghost rise: { at ≤ filled },
    ghost fits: { filled ≤ 8192 },
}

impl<R> Lines<R> {
    ghost use Rattle.mdb_records.specs.Lines.{line, unread};

    /// The bytes of `source`.
    pub(crate) fn new(source: Limited<R>) -> Lines<R>
        ensures source { result.source ≡ source }
        ensures unread { unread result ≡ [] }
        ensures begun { result.begun ≡ false }
    {
        Lines {
            source,
            buffer: [0; BUFFER],
            start: 0,
            at: 0,
            filled: 0,
            begun: false,
        }
    }

    /// The reader underneath.
    pub(crate) fn source(&self) -> &Limited<R>
        ensures { result.now ≡ self.now.source }
    {
        &self.source
    }

    /// How many bytes were read and not yet taken.
    #[inline(always)]
    pub(crate) fn unread_count(&self) -> usize
        ensures { result ≡ self.now.filled - self.now.at }
    {
        self.filled - self.at
    }

    /// The line that was taken last, and what was read after it.
    #[inline(always)]
    pub(crate) fn line(&self) -> &[u8]
        ensures { result.now ≡ line self.now }
    {
        &self.buffer[self.start..self.filled]
    }

    // Moves what is unread to the front of the buffer.
    fn move_to_front(&mut self)
        ensures unread { unread self.new ≡ unread self.old }
        ensures at { self.new.at ≡ 0 }
        ensures filled { self.new.filled ≡ self.old.filled - self.old.at }
        ensures source { self.new.source ≡ self.old.source }
        ensures begun { self.new.begun ≡ self.old.begun }
        ensures fits { self.new.filled ≤ length self.new.buffer }
    {
        self.buffer.copy_within(self.at..self.filled, 0);
        self.filled -= self.at;
        self.start = 0;
        self.at = 0;
    }
}

// Whether a text begins with a byte above ASCII, as a byte order mark does.
fn begins_high(text: &[u8]) -> bool
    ensures { IsFalse result → BeginsLow text.now }
{
    !text.is_empty() && text[0] >= 128
}

impl<R: Read> Lines<R> {
    ghost use Rattle.mdb_records.specs.Lines.{HasFailed, Steps, Tells, limited_remaining, line, lines_given};

    /// Takes the next record, if it stands on a line of its own, and answers whether there is one:
    /// its fields are those parts of [`Lines::line`] that end at `ends`. It answers `None` where
    /// only csv can tell. Nothing is said of what is left after a fault.
    #[inline(always)]
    pub(crate) fn advance(&mut self, ends: &mut Vec<usize>) -> Result<Option<bool>, ReadFault>
        ensures bytes { OnOk result (All (λ b. b < 256) (line self.new)) }
        ensures told { IfOk result (λ told. Tells told (lines_given R.remaining self.old)
            (lines_given R.remaining self.new) (parted 0 ends.new.items (line self.new))) }
        ensures within { AreWithin ends.new.items (length (line self.new)) }
        ensures fault { IfErr result (λ fault.
            fault ≡ ReadFault.Read → HasFailed self.new.source) }
    {
        let told = match self.take(ends)? {
            Step::Record => Some(true),
            Step::Unended => self.advance_by_reading(ends)?,
            Step::Other => None,
        };
        see_bytes(self.line());
        Ok(told)
    }

    // Takes the record that the bytes that were read begin with, if it is there whole.
    #[inline(always)]
    fn take(&mut self, ends: &mut Vec<usize>) -> Result<Step, ReadFault>
        ensures fault { IfErr result (λ fault. fault ≡ ReadFault.Memory) }
        ensures steps { IfOk result (λ step. Steps step (lines_given R.remaining self.old)
            (lines_given R.remaining self.new) (parted 0 ends.new.items (line self.new))) }
        ensures within { AreWithin ends.new.items (length (line self.new)) }
        ensures none { (result ≡ Ok Step.Record) ⊎ (ends.new.items ≡ []) }
    {
        let text = &self.buffer[self.at..self.filled];
        if !self.begun && begins_high(text) {
            ends.clear();
            return Ok(Step::Other);
        }
        let step = match plain_record(text, ends) {
            Ok(Front::Line(count)) => {
                self.start = self.at;
                self.at += count;
                self.begun = true;
                return Ok(Step::Record);
            }
            Ok(Front::Unended) => Ok(Step::Unended),
            Ok(Front::Other) => Ok(Step::Other),
            Err(_) => Err(ReadFault::Memory),
        };
        ends.clear();
        step
    }

    // The next record, where more has to be read first.
    #[inline(never)]
    #[tactic(auto, using(crate::proofs::PartFacts::none_within))]
    fn advance_by_reading(&mut self, ends: &mut Vec<usize>) -> Result<Option<bool>, ReadFault>
        ensures fault { IfErr result (λ fault.
            fault ≡ ReadFault.Read → HasFailed self.new.source) }
        ensures told { IfOk result (λ told. Tells told (lines_given R.remaining self.old)
            (lines_given R.remaining self.new) (parted 0 ends.new.items (line self.new))) }
        ensures within { AreWithin ends.new.items (length (line self.new)) }
    {
        ends.clear();
        'reads: for _ in 0..BUFFER {
            if self.unread_count() == BUFFER {
                return Ok(None);
            }
            if self.fill()? == 0 {
                let is_end = self.unread_count() == 0;
                return Ok(if is_end { Some(false) } else { None });
            }
            match self.take(ends)? {
                Step::Record => return Ok(Some(true)),
                Step::Unended => {}
                Step::Other => return Ok(None),
            }
        }
        Ok(None)
    }

    // Reads more bytes, and answers how many: none at the end.
    fn fill(&mut self) -> Result<usize, ReadFault>
        requires { self.old.filled - self.old.at < BUFFER }
        ensures keeps { OnOk result
            (Keeps (lines_given R.remaining self.old) (lines_given R.remaining self.new)) }
        ensures end { IfOk result (λ count. count ≡ 0
            → IsAtEnd (limited_remaining R.remaining self.new.source)) }
        ensures fault { IfErr result (λ fault. (fault ≡ ReadFault.Read)
            × HasFailed self.new.source) }
    {
        self.move_to_front();
        match self.source.read(&mut self.buffer[self.filled..]) {
            Ok(count) => {
                self.filled += count;
                Ok(count)
            }
            Err(_) => Err(ReadFault::Read),
        }
    }
}

impl<R: Read> Read for Lines<R> {
    ghost use Rattle.mdb_records.specs.Lines.{lines_remaining};

    ghost remaining = { λ s. lines_remaining R.remaining s };

    fn read(&mut self, buf: &mut [u8]) -> IoResult<usize>
        ensures bound { ReadsAtMost result buf.new }
        ensures bytes { ReadConsumes (lines_remaining R.remaining self.old)
            (lines_remaining R.remaining self.new) result buf.new }
    {
        if buf.is_empty() {
            return Ok(0);
        }
        if self.begun {
            self.begun = false;
            buf[0] = b'\n';
            return Ok(1);
        }
        if self.unread_count() == 0 {
            return self.source.read(buf);
        }
        let count = self.unread_count().min(buf.len());
        buf[..count].copy_from_slice(&self.buffer[self.at..self.at + count]);
        self.at += count;
        Ok(count)
    }
}
