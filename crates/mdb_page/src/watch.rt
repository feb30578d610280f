//! Silences: devices that left the controller's commands unanswered for too long.
//!
//! `Silences` of `mdb_follow` decides when a silence is too long, as it does for a report. After
//! the first impossible row of a device this list goes on, and a report doesn't.

ghost use Rattle.std.specs.Prelude.{◌≤◌, ◌<◌};
ghost use Rattle.mdb_follow.specs.SilenceGrowth.{AreFew};

use crate::rows::Rows;
use mdb_bus::{Act, Beginning};
use mdb_cashless::{KnownByProfile, ReaderByProfile};
use mdb_follow::{ROWS_MAX, Silences};
use mdb_machine::Pair;
use mdb_msgs::{Device, ReaderUnit};
use mdb_words::Time;

/// The commands to a device that it left unanswered since its last answer or the last break.
#[derive(Clone, Copy)]
pub(crate) struct Unanswered {
    /// The first row of the first one.
    pub(crate) first: u64,
    /// The last row of the last one.
    pub(crate) last: u64,
    /// When the last word of the first one started, in microseconds.
    pub(crate) from: u64,
    /// When the last word of the last one started.
    pub(crate) to: u64,
    /// How many there are.
    pub(crate) asks: u64,
    /// Whether they are a silence.
    is_silence: bool,
}

impl Unanswered {
    /// There is none.
    const NOTHING: Unanswered = Unanswered {
        first: 0,
        last: 0,
        from: 0,
        to: 0,
        asks: 0,
        is_silence: false,
    };

    /// One command more, which has these rows. It may be the one that makes them a silence.
    fn ask(&mut self, rows: &Rows, makes_silence: bool) {
        if self.asks == 0 {
            self.first = rows.first;
            self.from = rows.end;
        }
        self.last = rows.last;
        self.to = rows.end;
        self.asks = self.asks.saturating_add(1);
        self.is_silence |= makes_silence;
    }
}

/// The silences so far, and what is known of the readers.
#[derive(Drop)]
struct Counted {
    first_reader: KnownByProfile,
    second_reader: KnownByProfile,
    silences: Silences,
    /// How many acts were followed.
    acts: u64,
    ghost few: { acts ≤ 100000000 },
    ghost few_silences: { AreFew acts silences },
}

impl Counted {
    /// Those before the first act of a recording that begins so.
    fn start(begins: &Beginning) -> Counted {
        Counted {
            first_reader: ReaderByProfile::<0>::facts_start(begins),
            second_reader: ReaderByProfile::<1>::facts_start(begins),
            silences: Silences::NONE,
            acts: 0,
        }
    }

    /// Follows an act whose last word started at a time.
    fn follow(&mut self, act: &Act, at: Time) {
        ReaderByProfile::<0>::learn(&mut self.first_reader, act);
        ReaderByProfile::<1>::learn(&mut self.second_reader, act);
        // A recording has no more acts than rows.
        if self.acts < ROWS_MAX {
            self.silences
                .follow(act, at, &self.first_reader, &self.second_reader);
            self.acts += 1;
        }
    }

    /// Follows a command to a device, and answers whether it makes those before it a silence.
    fn makes_silence(&mut self, device: Device, act: &Act, at: Time) -> bool {
        let before = self.silences.counts(device).silences;
        self.follow(act, at);
        self.silences.counts(device).silences > before
    }
}

/// What is kept of all devices.
#[derive(Drop)]
pub(crate) struct Watch {
    counted: Counted,
    changer: Unanswered,
    bill: Unanswered,
    first_reader: Unanswered,
    second_reader: Unanswered,
}

impl Watch {
    /// The watch before the first act of a recording that begins so.
    pub(crate) fn start(begins: &Beginning) -> Watch {
        Watch {
            counted: Counted::start(begins),
            changer: Unanswered::NOTHING,
            bill: Unanswered::NOTHING,
            first_reader: Unanswered::NOTHING,
            second_reader: Unanswered::NOTHING,
        }
    }

    /// Follows an act that has these rows, and whose last word started at a time.
    pub(crate) fn follow(&mut self, rows: &Rows, act: &Act, at: Time) {
        match act {
            Act::Ask(command) => {
                let device = command.device();
                let makes_silence = self.counted.makes_silence(device, act, at);
                self.of(device).ask(rows, makes_silence);
            }
            _ => self.counted.follow(act, at),
        }
    }

    /// The silence of a device that an answer, a break or the recording's end ends, if there is
    /// one.
    pub(crate) fn ended(&mut self, device: Device) -> Option<Unanswered> {
        let unanswered = self.of(device);
        let before = *unanswered;
        *unanswered = Unanswered::NOTHING;
        if before.is_silence {
            Some(before)
        } else {
            None
        }
    }

    /// What is kept of a device.
    fn of(&mut self, device: Device) -> &mut Unanswered {
        match device {
            Device::Changer => &mut self.changer,
            Device::Bill => &mut self.bill,
            Device::Reader(ReaderUnit::First) => &mut self.first_reader,
            Device::Reader(ReaderUnit::Second) => &mut self.second_reader,
        }
    }
}
