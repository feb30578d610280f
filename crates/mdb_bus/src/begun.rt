//! The bytes so far of a block.

ghost use Rattle.std.specs.Prelude.{◌≡◌, ◌≤◌, ◌<◌, [], ◌∷◌, ◌++◌, All, length};
ghost use Rattle.mdb_words.specs.Block.{block_of};
ghost use Rattle.mdb_msgs.specs.Commands.{IsByte};

use mdb_words::{Block, seal};
use std::marker::Model;

/// The most bytes of a block beside its last.
const CONTENT_MAX: usize = 35;

/// The bytes so far of a block that has begun: 1 to 35.
///
/// A clause sees them as a list.
#[derive(Drop)]
pub struct Begun {
    bytes: [u8; CONTENT_MAX],
    count: usize,
}

impl Model for Begun {
    ghost use Rattle.std.specs.Prelude.{List, ℕ, ◌≡◌, ◌≤◌, length, take};
    ghost use Rattle.mdb_bus.specs.declared.begun.TheConstants.{CONTENT_MAX};

    ghost Value = { List ℕ };

    ghost view = { λ b. take b.count b.bytes };

    ghost invariant = { λ b. (1 ≤ b.count) × (b.count ≤ CONTENT_MAX)
        × (length b.bytes ≡ CONTENT_MAX) };
}

impl Begun {
    /// A block that begins with this byte.
    pub(crate) fn with(first: u8) -> Begun
        ensures { result ≡ first ∷ [] }
    {
        let mut bytes = [0; CONTENT_MAX];
        bytes[0] = first;
        Begun { bytes, count: 1 }
    }

    /// Adds the next byte.
    pub(crate) fn push(&mut self, byte: u8)
        requires { length self.old < CONTENT_MAX }
        ensures { self.new ≡ self.old ++ byte ∷ [] }
    {
        self.bytes[self.count] = byte;
        self.count += 1;
    }

    /// Becomes a block that begins with this byte.
    pub(crate) fn restart(&mut self, first: u8)
        ensures { self.new ≡ first ∷ [] }
    {
        self.bytes[0] = first;
        self.count = 1;
    }

    /// The bytes.
    pub(crate) fn as_slice(&self) -> &[u8]
        ensures bytes { result.now ≡ self.now }
        ensures some { 1 ≤ length self.now }
        ensures few { length self.now ≤ CONTENT_MAX }
        ensures are_bytes { All IsByte self.now }
    {
        let bytes = &self.bytes[..self.count];
        see_bytes(bytes);
        bytes
    }

    /// The same bytes once more.
    pub(crate) fn copy(&self) -> Begun
        ensures { result ≡ self.now }
    {
        Begun {
            bytes: self.bytes,
            count: self.count,
        }
    }

    /// The block that ends with their sum.
    pub(crate) fn sealed(&self) -> Block
        ensures { result ≡ block_of self.now }
    {
        seal(self.as_slice()).unwrap()
    }
}

/// Each element of the slice is a byte, as its type says.
fn see_bytes(_bytes: &[u8])
    ensures { All IsByte _bytes.now }
{}
