//! Recordings, readers and writers that the tests of `check` and `show` share.

use std::alloc::Global;
use std::io;
use std::io::{ErrorKind, Read, Write};

/// A changer's RESET and ACK, a POLL, the answer that it was reset, and the controller's ACK.
pub(crate) const ROWS: &[u8] = b"1000,M,108\n2200,M,008\n4200,S,100\n24200,M,10B\n\
25400,M,00B\n27400,S,00B\n28600,S,10B\n30600,M,000\n";

/// `ROWS` up to a reply whose sum is wrong.
pub(crate) const WRONG_SUM: &[u8] =
    b"1000,M,108\n2200,M,008\n4200,S,100\n24200,M,10B\n25400,M,00B\n27400,S,00B\n28600,S,10C\n";

/// A row that cannot be, and the front of a record that isn't read whole at once.
const CUT_SHORT: &[u8] =
    b"1,S,100\n22222222222222222222222222222222222222222222222222222222222222222222222222222222";

/// Ten rows of eight bytes, the first of them one that cannot be.
const AT_ONCE: &[u8] =
    b"1,S,100\n1,M,000\n2,M,000\n3,M,000\n4,M,000\n5,M,000\n6,M,000\n7,M,000\n8,M,000\n9,M,000\n";

/// Texts whose first row cannot be, the most bytes that a read gives of them, and whether the third
/// read, which fails, is made.
pub(crate) static ENDED: [(&str, &[u8], usize, bool); 3] = [
    ("small pieces", b"1,S,100\nx\nx\nx\nx\n", 8, false),
    ("many rows", AT_ONCE, 80, false),
    ("a failed read", CUT_SHORT, 100, true),
];

/// Gives a text in pieces, and after it what comes again and again without an end, if anything
/// does. It counts what it gives, and fails at one of its reads alone.
#[derive(Drop)]
pub(crate) struct Pieces<'a> {
    // What is given next.
    next: &'a [u8],
    // What is given again and again after that; nothing: the text ends.
    again: &'a [u8],
    // The most bytes that a read gives.
    most: usize,
    reads: u64,
    // The number of the read that fails, from 1; 0 for none.
    failing: u64,
    kind: ErrorKind,
    pub(crate) given: u64,
}

impl<'a> Pieces<'a> {
    pub(crate) fn new(text: &'a [u8], most: usize) -> Pieces<'a> {
        Pieces::failing(text, most, 0, ErrorKind::Other)
    }

    pub(crate) fn failing(
        text: &'a [u8],
        most: usize,
        failing: u64,
        kind: ErrorKind,
    ) -> Pieces<'a> {
        Pieces {
            next: text,
            again: b"",
            most,
            reads: 0,
            failing,
            kind,
            given: 0,
        }
    }

    /// A front, and after it the same bytes without an end, as many as a read asks for.
    pub(crate) fn endless(front: &'a [u8], again: &'a [u8]) -> Pieces<'a> {
        Pieces {
            next: front,
            again,
            most: usize::MAX,
            reads: 0,
            failing: 0,
            kind: ErrorKind::Other,
            given: 0,
        }
    }

    pub(crate) fn has_failed(&self) -> bool {
        0 < self.failing && self.failing <= self.reads
    }
}

impl<'a> Read for Pieces<'a> {
    fn read(&mut self, buf: &mut [u8]) -> io::Result<usize> {
        self.reads = self.reads.saturating_add(1);
        if self.reads == self.failing {
            return Err(io::Error::from(self.kind));
        }
        if self.next.is_empty() {
            self.next = self.again;
        }
        let count = self.most.min(buf.len()).min(self.next.len());
        let (given, rest) = self.next.split_at(count);
        buf[..count].copy_from_slice(given);
        self.next = rest;
        self.given = self.given.saturating_add(count as u64);
        Ok(count)
    }
}

/// Adds the rows of one poll of a changer, which it acknowledges.
fn add_poll(text: &mut Vec<u8>, number: u64) -> io::Result<()> {
    let at = number.saturating_mul(20_000);
    let second = at.saturating_add(1_200);
    let answer = at.saturating_add(3_200);
    write!(text, "{at},M,10B\n{second},M,00B\n{answer},S,100\n")
}

/// Gives the rows of a controller that polls a changer without end, and counts what it gives.
#[derive(Drop)]
pub(crate) struct Polling {
    polls: u64,
    // The rows of the poll that is under way, and how much of them was given.
    rows: Vec<u8>,
    done: usize,
    pub(crate) given: u64,
}

impl Polling {
    pub(crate) fn new(alloc: Global) -> Polling {
        Polling {
            polls: 0,
            rows: Vec::new(alloc),
            done: 0,
            given: 0,
        }
    }

    /// Makes the rows of the next poll, which the changer acknowledges.
    fn poll(&mut self) -> io::Result<()> {
        self.polls = self.polls.saturating_add(1);
        self.done = 0;
        self.rows.clear();
        add_poll(&mut self.rows, self.polls)
    }
}

impl Read for Polling {
    fn read(&mut self, buf: &mut [u8]) -> io::Result<usize> {
        if self.rows.len() <= self.done {
            self.poll()?;
        }
        let (_, rest) = self.rows.split_at(self.done.min(self.rows.len()));
        let count = buf.len().min(rest.len());
        buf[..count].copy_from_slice(&rest[..count]);
        self.done = self.done.saturating_add(count);
        self.given = self.given.saturating_add(count as u64);
        Ok(count)
    }
}
