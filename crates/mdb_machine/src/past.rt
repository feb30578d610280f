//! What counts of the acts so far, for every device.

ghost use Rattle.std.specs.Prelude.{◌≡◌, ◌≤◌, List, [], length, true, false};
ghost use Rattle.std.specs.List.{list_any};
ghost use Rattle.mdb_machine.specs.Past as spec;
ghost use Rattle.mdb_machine.specs.PastValues as past_values;
ghost use Rattle.mdb_machine.specs.declared.kept.Part.{Part};
ghost use Rattle.mdb_machine.specs.PastValues.{IsSummary};

use crate::kept::{KeptMessage, Summary};
use arrayvec::ArrayVec;
use mdb_msgs::{ReaderList, ReaderMsg, Reply};

/// The effect of a command on the device that accepts it (this profile).
#[derive(Clone, Copy, PartialEq, Eq, Debug)]
pub enum Effect {
    /// It puts the device into its power-on state: RESET.
    Reset,
    /// It enables types of coins or bills, the lowest bit type 0.
    Enable(u16),
    /// Neither.
    Other,
}

/// What counts of the acts so far for a device that keeps messages: a running value, which doesn't
/// grow with them.
#[derive(Drop)]
pub struct Past<M: Drop, const CAP: usize> {
    /// Whether a reset message is owed.
    pub reset_owed: bool,
    /// The last kept list that wasn't empty.
    pub last_kept: ArrayVec<M, CAP>,
}

impl<M: KeptMessage + Drop, const CAP: usize> Past<M, CAP> {
    ghost use Rattle.mdb_machine.specs.PastValues.{no_past, past_after, past_in, running_past};

    /// What counts of no act.
    pub fn start() -> Self
        ensures { past_in result ≡ no_past }
    {
        Past {
            reset_owed: true,
            last_kept: ArrayVec::new(),
        }
    }

    /// What is known of no act of a device that runs on as it did before the recording: no reset
    /// message is owed. Its last kept list is unknown and irrelevant.
    pub fn running() -> Self
        ensures { past_in result ≡ running_past }
    {
        Past {
            reset_owed: false,
            last_kept: ArrayVec::new(),
        }
    }

    /// The same again.
    pub fn copy(&self) -> Self
        ensures { result ≡ self.now }
    {
        let mut last_kept = ArrayVec::new();
        let _ = last_kept.try_extend_from_slice(self.last_kept.as_slice());
        Past {
            reset_owed: self.reset_owed,
            last_kept,
        }
    }

    /// The same, with another last kept list.
    pub fn keeping(&self, kept: &[M]) -> Self
        requires { length kept.now ≤ CAP }
        ensures { past_in result ≡ record (past_in self.now) { last_kept = kept.now } }
    {
        let mut last_kept = ArrayVec::new();
        let _ = last_kept.try_extend_from_slice(kept);
        Past {
            reset_owed: self.reset_owed,
            last_kept,
        }
    }

    /// The device is put into its power-on state.
    pub fn power_on(&mut self)
        ensures { past_in self.new ≡ past_after true [] (past_in self.old) }
    {
        self.reset_owed = true;
    }

    /// The device takes a command.
    pub fn take(&mut self, effect: Effect)
        ensures { past_in self.new
            ≡ past_after (spec.resets effect) [] (past_in self.old) }
    {
        if matches!(effect, Effect::Reset) {
            self.power_on();
        }
    }

    /// The device tells messages.
    pub fn keep(&mut self, summary: Summary<M, CAP>)
        ensures { (parts : List (Part M))
            → IsSummary summary.kept.items summary.reset summary.early parts
            → past_in self.new ≡ past_after false parts (past_in self.old) }
    {
        if summary.reset {
            self.reset_owed = false;
        }
        if !summary.kept.is_empty() {
            self.last_kept = summary.kept;
        }
    }
}

/// What a command is to the device that replies to it: it takes it, or says that it doesn't.
pub fn effect_answered(effect: Effect, reply: &Reply) -> Effect
    ensures { result ≡ past_values.effect_answered effect reply.now }
{
    if tells_out_of_sequence(reply) {
        Effect::Other
    } else {
        effect
    }
}

/// Whether a reply says that the command came out of sequence: a reader's 0B, with a status or
/// without one. Its device doesn't take the command then.
pub fn tells_out_of_sequence(reply: &Reply) -> bool
    ensures { result ≡ spec.tells_out_of_sequence reply.now }
{
    match reply {
        Reply::Reader(list) => tell_out_of_sequence(list),
        _ => false,
    }
}

/// Whether one of a reader's messages says so.
// Not inlined, since few replies are asked so.
#[inline(never)]
fn tell_out_of_sequence(list: &ReaderList) -> bool
    ensures { result ≡ list_any spec.is_out_of_sequence list.now.messages }
{
    for message in list.iter() {
        if is_out_of_sequence(message) {
            return true;
        }
    }
    false
}

/// Whether a reader's message says so.
fn is_out_of_sequence(message: ReaderMsg) -> bool
    ensures { result ≡ spec.is_out_of_sequence message }
{
    matches!(
        message,
        ReaderMsg::OutOfSequence | ReaderMsg::OutOfSequenceIn(_)
    )
}
