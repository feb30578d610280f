//! The length of a controller's block, from its first bytes.

ghost use Rattle.std.specs.Prelude.{◌≡◌, ◌<◌, length};
ghost use Rattle.mdb_msgs.specs.Needs.{begins_options, bill_need, changer_need, needed, reader_need};
ghost use Rattle.mdb_msgs.specs.OpenBlocks.{needed_without};

use crate::device_set::DeviceSet;
use crate::first_needs::FIRST;
use crate::need::Need;

/// What a block that begins with these bytes needs. Only the first two bytes count (MDB/ICP 4.3,
/// commands of the coin changer, the bill validator and the cashless device, as far as this profile
/// follows them).
#[inline(always)]
#[tactic(auto, using(crate::proofs::FirstBytes::first_at, crate::proofs::FirstBytes::stays))]
pub fn need_of(prefix: &[u8]) -> Need
    requires { 0 < length prefix.now }
    ensures { result ≡ needed prefix.now }
{
    let told = FIRST[usize::from(prefix[0] / 8)][usize::from(prefix[0] % 8)];
    match told {
        Need::More => need_by_second(prefix),
        _ => told,
    }
}

/// What a block that begins with these bytes needs, with some devices left out. A block to one of
/// these is foreign by its first byte, no matter what comes after it (this profile).
#[inline(always)]
pub fn need_without(left_out: DeviceSet, prefix: &[u8]) -> Need
    requires { 0 < length prefix.now }
    ensures { result ≡ needed_without left_out prefix.now }
{
    if left_out.has_address(prefix[0]) {
        Need::Foreign
    } else {
        need_of(prefix)
    }
}

/// Whether a block that begins with these bytes is an ENABLE OPTIONS to a cashless reader, 17 04 or
/// 67 04 (MDB/ICP 4.3, cashless device).
#[inline(always)]
pub fn begins_options(prefix: &[u8]) -> bool
    ensures { result ≡ begins_options prefix.now }
{
    matches!(prefix, [0x17 | 0x67, 0x04, ..])
}

/// What a block needs whose first byte leaves it to the second.
fn need_by_second(prefix: &[u8]) -> Need
    requires { 0 < length prefix.now }
    ensures { result ≡ needed prefix.now }
{
    let second = prefix.get(1).copied();
    match prefix[0] {
        first @ 0x08..=0x0F => changer_need(first, second),
        first @ 0x10..=0x17 => reader_need(first % 8, second),
        first @ 0x30..=0x37 => bill_need(first, second),
        first @ 0x60..=0x67 => reader_need(first % 8, second),
        _ => Need::Foreign,
    }
}

/// What a block to the coin changer needs.
fn changer_need(first: u8, second: Option<u8>) -> Need
    ensures { result ≡ changer_need first second }
{
    match (first, second) {
        (0x08, _) => Need::Exactly(2),
        (0x09, _) => Need::Exactly(2),
        (0x0A, _) => Need::Exactly(2),
        (0x0B, _) => Need::Exactly(2),
        (0x0C, _) => Need::Exactly(6),
        (0x0D, _) => Need::Exactly(3),
        (0x0F, None) => Need::More,
        (0x0F, Some(0x00)) => Need::Exactly(3),
        (0x0F, Some(0x01)) => Need::Exactly(7),
        (0x0F, Some(0x02..=0x04)) => Need::Outside,
        (0x0E, _) => Need::Outside,
        _ => Need::Foreign,
    }
}

/// What a block to the bill validator needs.
fn bill_need(first: u8, second: Option<u8>) -> Need
    ensures { result ≡ bill_need first second }
{
    match (first, second) {
        (0x30, _) => Need::Exactly(2),
        (0x31, _) => Need::Exactly(2),
        (0x32, _) => Need::Exactly(4),
        (0x33, _) => Need::Exactly(2),
        (0x34, _) => Need::Exactly(6),
        (0x35, _) => Need::Exactly(3),
        (0x36, _) => Need::Exactly(2),
        (0x37, None) => Need::More,
        (0x37, Some(0x00)) => Need::Exactly(3),
        (0x37, Some(0x01)) => Need::Exactly(7),
        (0x37, Some(0x02)) => Need::Exactly(3),
        _ => Need::Foreign,
    }
}

/// What a block to a cashless reader needs, by the lower three bits of its address byte.
fn reader_need(command: u8, second: Option<u8>) -> Need
    ensures { result ≡ reader_need command second }
{
    match (command, second) {
        (0, _) => Need::Exactly(2),
        (1, None) => Need::More,
        (1, Some(0x00)) => Need::Exactly(7),
        (1, Some(0x01)) => Need::Exactly(7),
        (2, _) => Need::Exactly(2),
        (3, None) => Need::More,
        (3, Some(0x00)) => Need::Exactly(7),
        (3, Some(0x01)) => Need::Exactly(3),
        (3, Some(0x02)) => Need::Exactly(5),
        (3, Some(0x03)) => Need::Exactly(3),
        (3, Some(0x04)) => Need::Exactly(3),
        (3, Some(0x05)) => Need::Exactly(7),
        (4, None) => Need::More,
        (4, Some(0x00)) => Need::Exactly(3),
        (4, Some(0x01)) => Need::Exactly(3),
        (4, Some(0x02)) => Need::Exactly(3),
        (7, None) => Need::More,
        (7, Some(0x00)) => Need::Exactly(32),
        (7, Some(0x04)) => Need::Exactly(7),
        (1 | 3 | 4, Some(_)) => Need::Outside,
        (5, _) => Need::Outside,
        (6, _) => Need::Outside,
        _ => Need::Foreign,
    }
}
