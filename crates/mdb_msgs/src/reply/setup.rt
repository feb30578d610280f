//! The setup tables and statuses of changer and validator (MDB/ICP 4.3, coin changer and bill
//! validator).

ghost use Rattle.std.specs.Prelude.{◌≡◌, ◌≢◌, ◌≤◌, ◌↔◌, length, IsTrue, slice_index, IfOk, IfErr};
ghost use Rattle.mdb_msgs.specs.Setup.{changer_setup_bytes, credit_of, tube_status_bytes, bill_setup_bytes, stacker_bytes, IsStacker};
ghost use Rattle.mdb_msgs.specs.declared.fault.MsgFault.TheVariants.{Message};

use super::list::{Bytes, append, list_of};
use crate::fault::MsgFault;
use crate::two_bytes::{high, low, number};
use arrayvec::ArrayVec;

/// The answer to the changer's SETUP.
#[derive(PartialEq, Eq, Debug, Drop)]
pub struct ChangerSetup {
    /// Z1: the feature level.
    pub level: u8,
    /// Z2-Z3: the country or currency code.
    pub code: u16,
    /// Z4: the scaling factor, in the smallest unit of money.
    pub scaling: u8,
    /// Z5: the decimal places.
    pub decimals: u8,
    /// Z6-Z7: the coin types that go to tubes, the lowest bit type 0.
    pub routing: u16,
    /// Z8 and on: the credits of the types from 0 on that were sent. A type after them has credit
    /// 0; FF is a token.
    pub credits: ArrayVec<u8, 16>,
}

impl ChangerSetup {
    /// The same table again.
    pub fn copy(&self) -> Self
        ensures { result ≡ self.now }
    {
        ChangerSetup {
            level: self.level,
            code: self.code,
            scaling: self.scaling,
            decimals: self.decimals,
            routing: self.routing,
            credits: list_of(self.credits.as_slice()),
        }
    }

    /// The credit of a coin type, in units of the scaling factor: 0 where it wasn't sent, and FF
    /// for a token.
    pub fn credit(&self, coin: u8) -> u8
        ensures { result ≡ credit_of self.now.credits.items coin }
    {
        credit_in(self.credits.as_slice(), coin)
    }

    /// How many bytes it has.
    pub(crate) fn count(&self) -> usize
        ensures { result ≡ length (changer_setup_bytes self.now) }
    {
        7 + self.credits.len()
    }

    /// Its bytes.
    pub(crate) fn bytes(&self) -> Bytes
        ensures { result.items ≡ changer_setup_bytes self.now }
    {
        let mut bytes = list_of(&[
            self.level,
            high(self.code),
            low(self.code),
            self.scaling,
            self.decimals,
            high(self.routing),
            low(self.routing),
        ]);
        append(&mut bytes, self.credits.as_slice());
        bytes
    }
}

/// The answer to TUBE STATUS.
#[derive(PartialEq, Eq, Debug, Drop)]
pub struct TubeStatus {
    /// Z1-Z2: the tubes that are full, the lowest bit type 0.
    pub full: u16,
    /// Z3 and on: the coins in the tubes of the types from 0 on that were sent.
    pub counts: ArrayVec<u8, 16>,
}

impl TubeStatus {
    /// The same status again.
    pub fn copy(&self) -> Self
        ensures { result ≡ self.now }
    {
        TubeStatus {
            full: self.full,
            counts: list_of(self.counts.as_slice()),
        }
    }

    /// How many bytes it has.
    pub(crate) fn count(&self) -> usize
        ensures { result ≡ length (tube_status_bytes self.now) }
    {
        2 + self.counts.len()
    }

    /// Its bytes.
    pub(crate) fn bytes(&self) -> Bytes
        ensures { result.items ≡ tube_status_bytes self.now }
    {
        let mut bytes = list_of(&[high(self.full), low(self.full)]);
        append(&mut bytes, self.counts.as_slice());
        bytes
    }
}

/// The answer to the validator's SETUP.
#[derive(PartialEq, Eq, Debug, Drop)]
pub struct BillSetup {
    /// Z1: the feature level.
    pub level: u8,
    /// Z2-Z3: the country or currency code.
    pub code: u16,
    /// Z4-Z5: the scaling factor, in the smallest unit of money.
    pub scaling: u16,
    /// Z6: the decimal places.
    pub decimals: u8,
    /// Z7-Z8: how many bills the stacker holds.
    pub capacity: u16,
    /// Z9-Z10: the bill types of high security, the lowest bit type 0.
    pub security: u16,
    /// Z11: whether there is an escrow, FF or 00.
    pub escrow: bool,
    /// Z12 and on: the credits of the types from 0 on that were sent. A type after them has credit
    /// 0.
    pub credits: ArrayVec<u8, 16>,
}

impl BillSetup {
    /// The same table again.
    pub fn copy(&self) -> Self
        ensures { result ≡ self.now }
    {
        BillSetup {
            level: self.level,
            code: self.code,
            scaling: self.scaling,
            decimals: self.decimals,
            capacity: self.capacity,
            security: self.security,
            escrow: self.escrow,
            credits: list_of(self.credits.as_slice()),
        }
    }

    /// The credit of a bill type, in units of the scaling factor: 0 where it wasn't sent.
    pub fn credit(&self, bill: u8) -> u8
        ensures { result ≡ credit_of self.now.credits.items bill }
    {
        credit_in(self.credits.as_slice(), bill)
    }

    /// How many bytes it has.
    pub(crate) fn count(&self) -> usize
        ensures { result ≡ length (bill_setup_bytes self.now) }
    {
        11 + self.credits.len()
    }

    /// Its bytes.
    pub(crate) fn bytes(&self) -> Bytes
        ensures { result.items ≡ bill_setup_bytes self.now }
    {
        let mut bytes = list_of(&[
            self.level,
            high(self.code),
            low(self.code),
            high(self.scaling),
            low(self.scaling),
            self.decimals,
            high(self.capacity),
            low(self.capacity),
            high(self.security),
            low(self.security),
            if self.escrow { 0xFF } else { 0x00 },
        ]);
        append(&mut bytes, self.credits.as_slice());
        bytes
    }
}

/// The answer to STACKER.
#[derive(Clone, Copy, PartialEq, Eq, Debug)]
pub struct Stacker {
    /// The top bit of the two bytes: the stacker is full.
    pub full: bool,
    /// The other bits: the bills in the stacker, 0 to 32767.
    pub count: u16,
}

impl Stacker {
    /// Whether the count is in its range.
    pub(crate) fn is_valid(self) -> bool
        ensures { IsTrue result ↔ IsStacker self }
    {
        self.count < 0x8000
    }

    /// Its two bytes.
    pub(crate) fn bytes(self) -> Bytes
        requires { IsStacker self }
        ensures { result.items ≡ stacker_bytes self }
    {
        let number = if self.full {
            0x8000 + self.count
        } else {
            self.count
        };
        list_of(&[high(number), low(number)])
    }
}

/// The credit of a type, 0 where it wasn't sent.
fn credit_in(credits: &[u8], kind: u8) -> u8
    ensures { result ≡ credit_of credits.now kind }
{
    credits.get(usize::from(kind)).copied().unwrap_or(0)
}

/// The changer's SETUP answer of these bytes.
pub(crate) fn read_changer_setup(bytes: &[u8]) -> ChangerSetup
    requires at_least { 7 ≤ length bytes.now }
    requires at_most { length bytes.now ≤ 23 }
    ensures { bytes.now ≡ changer_setup_bytes result }
{
    ChangerSetup {
        level: bytes[0],
        code: number(bytes[1], bytes[2]),
        scaling: bytes[3],
        decimals: bytes[4],
        routing: number(bytes[5], bytes[6]),
        credits: list_of(&bytes[7..]),
    }
}

/// The TUBE STATUS answer of these bytes.
pub(crate) fn read_tube_status(bytes: &[u8]) -> TubeStatus
    requires at_least { 2 ≤ length bytes.now }
    requires at_most { length bytes.now ≤ 18 }
    ensures { bytes.now ≡ tube_status_bytes result }
{
    TubeStatus {
        full: number(bytes[0], bytes[1]),
        counts: list_of(&bytes[2..]),
    }
}

/// The validator's SETUP answer of these bytes, which is none where the byte for the escrow is
/// neither FF nor 00.
pub(crate) fn read_bill_setup(bytes: &[u8]) -> Result<BillSetup, MsgFault>
    requires at_least { 11 ≤ length bytes.now }
    requires at_most { length bytes.now ≤ 27 }
    ensures ok { IfOk result (λ setup. bytes.now ≡ bill_setup_bytes setup) }
    ensures err { IfErr result (λ fault. (fault ≡ Message)
        × (slice_index bytes.now 10 ≢ 0) × (slice_index bytes.now 10 ≢ 255)) }
{
    let escrow = match bytes[10] {
        0xFF => true,
        0x00 => false,
        _ => return Err(MsgFault::Message),
    };
    Ok(BillSetup {
        level: bytes[0],
        code: number(bytes[1], bytes[2]),
        scaling: number(bytes[3], bytes[4]),
        decimals: bytes[5],
        capacity: number(bytes[6], bytes[7]),
        security: number(bytes[8], bytes[9]),
        escrow,
        credits: list_of(&bytes[11..]),
    })
}

/// The STACKER answer of these two bytes.
pub(crate) fn read_stacker(bytes: &[u8]) -> Stacker
    requires { length bytes.now ≡ 2 }
    ensures fields { IsStacker result }
    ensures bytes { bytes.now ≡ stacker_bytes result }
{
    Stacker {
        full: bytes[0] >= 0x80,
        count: number(bytes[0] % 0x80, bytes[1]),
    }
}
