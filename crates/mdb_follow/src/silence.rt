//! What is counted of the controller's commands to a device: its silences, which are how often it
//! left them unanswered for too long.
//!
//! The limits are in microseconds. They count from the start of the last word of the first
//! unanswered command to that of a later one.

ghost use Rattle.std.specs.Prelude.{◌≡◌, ◌<◌, ◌+◌, ◌^◌, ℕ, List};
ghost use Rattle.mdb_follow.specs.Silences.{TimedAsk, with_ask};
ghost use Rattle.mdb_follow.specs.SilencesKept.{AreAtMost, StandsForAsks, silence_in};
ghost use Rattle.mdb_follow.specs.SilenceGrowth as spec;
ghost use Rattle.mdb_follow.specs.SilenceGrowth.{AllGoOn, AreFew, OneGoesOn, SilencesFollow};
ghost use Rattle.mdb_follow.specs.SilenceGrowth.{ask_in, ended, limit_by};

use crate::Report;
use crate::devices::device_place;
use mdb_bus::Act;
use mdb_cashless::KnownByProfile;
use mdb_msgs::{Device, ReaderUnit};
use mdb_words::Time;

/// The longest allowed silence of the changer (MDB/ICP 4.3, coin changer: non-response time).
pub const CHANGER_SILENCE_MAX: u64 = 2_000_000;

/// The longest allowed silence of the validator (MDB/ICP 4.3, bill validator: non-response time).
pub const BILL_SILENCE_MAX: u64 = 5_000_000;

/// The longest allowed silence of a reader that has reported no longer response time (MDB/ICP 4.3,
/// cashless device: non-response time).
pub const READER_SILENCE_MAX: u64 = 5_000_000;

/// A second, the unit of a reader's response time.
pub const MICROS_PER_SECOND: u64 = 1_000_000;

/// What is counted of the controller's commands to a device.
#[derive(Clone, Copy, PartialEq, Eq, Debug)]
pub struct AskCounts {
    /// How often the device left them unanswered for too long.
    pub silences: u64,
}

impl AskCounts {
    /// Nothing was counted.
    pub const NONE: AskCounts = AskCounts { silences: 0 };
}

/// The asks that a device has left without an answer since its last answer or the last break.
#[derive(Clone, Copy, PartialEq, Eq, Debug)]
enum Unanswered {
    /// There is none.
    Nothing,
    /// There are some. The silence is too long once a further one comes after this time.
    Until(u64),
    /// There are some, and they have counted as a silence.
    Counted,
}

/// What is kept of the asks of a device.
#[derive(Clone, Copy, PartialEq, Eq, Debug)]
struct Silence {
    unanswered: Unanswered,
    counts: AskCounts,
}

impl Silence {
    /// After no act.
    const NONE: Silence = Silence {
        unanswered: Unanswered::Nothing,
        counts: AskCounts::NONE,
    };

    /// The device is asked, with so much time to answer if this is the first ask of its list.
    fn ask(&mut self, at: u64, limit: u64)
        requires room { AreAtMost (2 ^ 62) self.old.counts }
        requires at { at < 2 ^ 62 }
        requires limit { limit < 2 ^ 62 }
        ensures stands { (lists : List (List TimedAsk)) → StandsForAsks self.old lists
            → StandsForAsks self.new (with_ask (record { at = at; limit = limit }) lists) }
        ensures few { (most : ℕ) → AreAtMost most self.old.counts
            → AreAtMost (most + 1) self.new.counts }
    {
        match self.unanswered {
            Unanswered::Nothing => self.unanswered = Unanswered::Until(at + limit),
            Unanswered::Until(end) => {
                if end < at {
                    self.unanswered = Unanswered::Counted;
                    self.counts.silences += 1;
                }
            }
            Unanswered::Counted => {}
        }
    }

    /// The device answers, or a break comes.
    fn end(&mut self)
        ensures stands { (lists : List (List TimedAsk)) → StandsForAsks self.old lists
            → StandsForAsks self.new (ended lists) }
        ensures same { self.new.counts ≡ self.old.counts }
    {
        self.unanswered = Unanswered::Nothing;
    }
}

/// What is kept of the asks of all devices.
#[derive(Clone, Copy, PartialEq, Eq, Debug)]
pub struct Silences {
    /// That of each of `Report::DEVICES`.
    of: [Silence; 4],
}

impl Silences {
    /// After no act.
    pub const NONE: Silences = Silences {
        of: [Silence::NONE; 4],
    };

    /// Follows an act whose last word started at a time, with what is known of the two readers
    /// after it.
    #[inline(always)]
    pub fn follow(&mut self, act: &Act, at: Time, first: &KnownByProfile, second: &KnownByProfile)
        requires { AreFew (2 ^ 62) self.old }
        ensures { SilencesFollow self.old act.now at first.now second.now self.new }
    {
        match act {
            Act::Ask(command) => self.ask(command.device(), at, first, second),
            Act::Ack(command) | Act::Nak(command) | Act::Reply(command, _) => {
                self.end(command.device())
            }
            Act::Break(_) => self.end_all(),
            _ => {}
        }
    }

    /// What was counted of the commands to a device.
    pub fn counts(&self, device: Device) -> AskCounts
        ensures { result ≡ (silence_in self.now device).counts }
    {
        self.of[device_place(device)].counts
    }

    /// The controller asks a device, with what is known of the two readers after that.
    fn ask(&mut self, device: Device, at: Time, first: &KnownByProfile, second: &KnownByProfile)
        requires { AreFew (2 ^ 62) self.old }
        ensures { OneGoesOn (λ other. with_ask (ask_in first.now second.now at other)) device
            self.old self.new }
    {
        self.of[device_place(device)].ask(at.value(), limit_in(first, second, device));
    }

    /// A device answers, or a break comes.
    fn end(&mut self, device: Device)
        ensures { OneGoesOn (λ other. ended) device self.old self.new }
    {
        self.of[device_place(device)].end();
    }

    /// A break comes.
    fn end_all(&mut self)
        ensures { AllGoOn (λ device. ended) self.old self.new }
    {
        for device in &Report::DEVICES {
            self.end(*device);
        }
    }
}

/// How long a device may be silent, by what is known of the two readers.
fn limit_in(first: &KnownByProfile, second: &KnownByProfile, device: Device) -> u64
    ensures limit { result ≡ spec.limit_in first.now second.now device }
    ensures small { result < 2 ^ 62 }
{
    match device {
        Device::Changer => CHANGER_SILENCE_MAX,
        Device::Bill => BILL_SILENCE_MAX,
        Device::Reader(unit) => match unit {
            ReaderUnit::First => reader_limit(first),
            ReaderUnit::Second => reader_limit(second),
        },
    }
}

/// How long a reader may be silent, by what it has told.
fn reader_limit(facts: &KnownByProfile) -> u64
    ensures limit { result ≡ limit_by facts.now }
    ensures small { result < 2 ^ 62 }
{
    match facts.response_time() {
        None => READER_SILENCE_MAX,
        Some(seconds) => READER_SILENCE_MAX.max(MICROS_PER_SECOND * u64::from(seconds)),
    }
}
