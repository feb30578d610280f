//! Blocks.

ghost use Rattle.std.specs.Prelude.{◌≡◌, ◌+◌, ◌≤◌, ◌<◌, ◌%◌, ◌↔◌, if◌then◌else◌, length, slice_index, sum, IsOk, IfOk, IfErr};
ghost use Rattle.mdb_words.specs.Block.{IsContent, block_of, words_on};
ghost use Rattle.mdb_words.specs.BlockFaults.{IsBlock, IsUnsealFault, IsSealFault};

use super::word::{Line, Word};
use arrayvec::ArrayVec;
use std::marker::Model;

/// The most bytes of a block, its sum included (MDB/ICP 4.3, block format).
const BLOCK_MAX: usize = 36;

/// A block: 2 to 36 bytes, of which the last is the sum of the others modulo 256 (MDB/ICP 4.3,
/// block format).
#[derive(Debug, Drop)]
pub struct Block {
    bytes: ArrayVec<u8, BLOCK_MAX>,
}

impl Model for Block {
    ghost use Rattle.std.specs.Prelude.{List, ℕ};
    ghost use Rattle.mdb_words.specs.BlockFaults.{IsBlock};

    ghost Value = { List ℕ };

    ghost view = { λ b. b.bytes.items };

    ghost invariant = { λ b. IsBlock b.bytes.items };
}

/// Why bytes are no block.
#[derive(Clone, Copy, PartialEq, Eq, Debug)]
pub enum BlockFault {
    /// To seal: no bytes. To unseal: fewer than two bytes.
    Empty,
    /// To seal: more than 35 bytes. To unseal: more than 36 bytes.
    TooLong,
    /// The last byte is not the sum of the others modulo 256.
    BadSum,
}

impl Block {
    /// The bytes, the sum included.
    pub fn bytes(&self) -> &[u8]
        ensures bytes { result.now ≡ self.now }
        ensures block { IsBlock self.now }
    {
        self.bytes.as_slice()
    }

    /// The bytes that the block carries: all but the sum.
    pub fn content(&self) -> &[u8]
        ensures content { IsContent result.now }
        ensures block { self.now ≡ block_of result.now }
    {
        let bytes = self.bytes.as_slice();
        &bytes[..bytes.len() - 1]
    }

    /// The `i`-th word of the block on a line, from 0. The controller marks the first word of a
    /// block, and a peripheral the last.
    #[tactic(auto, using(crate::proofs::BlockWords::peripheral_word))]
    pub fn word(&self, line: Line, i: usize) -> Word
        requires { i < length self.now }
        ensures { result ≡ slice_index (words_on line self.now) i }
    {
        let bytes = self.bytes.as_slice();
        match line {
            Line::Controller => word_of(bytes[i], i == 0),
            Line::Peripheral => word_of(bytes[i], i + 1 == bytes.len()),
        }
    }

    /// A copy of the block.
    pub fn copy(&self) -> Block
        ensures { result ≡ self.now }
    {
        Block {
            bytes: listed(self.bytes.as_slice()),
        }
    }
}

/// The block that carries these bytes, with their sum after them.
///
/// # Errors
///
/// `Empty` if there are no bytes, `TooLong` if there are more than 35.
pub fn seal(content: &[u8]) -> Result<Block, BlockFault>
    ensures exactly { IsOk result ↔ IsContent content.now }
    ensures block { IfOk result (λ block. block ≡ block_of content.now) }
    ensures fault { IfErr result (IsSealFault content.now) }
{
    match content.len() {
        0 => Err(BlockFault::Empty),
        1..BLOCK_MAX => {
            let mut bytes = listed(content);
            bytes.push(sum_of(content));
            Ok(Block { bytes })
        }
        _ => Err(BlockFault::TooLong),
    }
}

/// Checks that these bytes are a block.
///
/// # Errors
///
/// The first of these: `Empty` if there are fewer than two bytes, `TooLong` if there are more than
/// 36, `BadSum` if the last isn't the sum of the others.
pub fn unseal(bytes: &[u8]) -> Result<Block, BlockFault>
    ensures exactly { IsOk result ↔ IsBlock bytes.now }
    ensures block { IfOk result (λ block. block ≡ bytes.now) }
    ensures fault { IfErr result (IsUnsealFault bytes.now) }
{
    match bytes {
        [] | [_] => Err(BlockFault::Empty),
        _ if bytes.len() > BLOCK_MAX => Err(BlockFault::TooLong),
        [data @ .., sum] if sum_of(data) == *sum => Ok(Block {
            bytes: listed(bytes),
        }),
        _ => Err(BlockFault::BadSum),
    }
}

/// A byte as a word.
fn word_of(byte: u8, marked: bool) -> Word
    ensures { result ≡ (if marked then 256 + byte else byte) }
{
    let value = if marked {
        256 + u16::from(byte)
    } else {
        u16::from(byte)
    };
    Word::new(value).unwrap()
}

/// The sum of bytes modulo 256, which is the last byte of a block that carries them (MDB/ICP 4.3,
/// block format).
pub fn sum_of(bytes: &[u8]) -> u8
    ensures { result ≡ sum bytes.now % 256 }
{
    bytes.iter().fold(0, |sum, byte| sum.wrapping_add(*byte))
}

/// Bytes as a list of their own.
fn listed(bytes: &[u8]) -> ArrayVec<u8, BLOCK_MAX>
    requires { length bytes.now ≤ BLOCK_MAX }
    ensures { result.items ≡ bytes.now }
{
    let mut list = ArrayVec::new();
    list.try_extend_from_slice(bytes).unwrap();
    list
}
