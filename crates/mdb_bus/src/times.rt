//! The times of a recording by each profile.

ghost use Rattle.std.specs.Prelude.{◌≡◌, ◌<◌, ◌^◌, ℕ, List, IfSome};
ghost use Rattle.mdb_bus.specs.Times as spec;
ghost use Rattle.mdb_bus.specs.Bus.{position_in};
ghost use Rattle.mdb_msgs.specs.declared.command.Command.{Command};
ghost use Rattle.mdb_msgs.specs.declared.reply.Reply.{Reply};
ghost use Rattle.mdb_bus.specs.Positions.{Quiet};
ghost use Rattle.mdb_bus.specs.declared.scope.Profile.TheVariants.{Base};

use super::phase::Phase;
use super::scope::Profile;
use mdb_words::{
    ANSWER_GAP_MAX, BLOCK_GAP_MAX, BREAK_LENGTH_MIN, Event, NEW_BLOCK_GAP_MIN, SETUP_GAP_MIN,
    SHORT_BREAK_MIN, WORD_GAP_MIN,
};

impl Profile {
    /// How long a block of the controller rests in a phase.
    #[inline(always)]
    pub(crate) fn block_rest(self, phase: Phase, last: &Option<Event>) -> u64
        ensures value { (bytes : List ℕ) (command : Command) (reply : Reply)
            → result ≡ spec.block_rest (position_in phase bytes command reply) self last.now }
        ensures small { result < 2 ^ 32 }
    {
        match self {
            Profile::Base => match phase {
                Phase::Quiet => setup_rest(last),
                Phase::Asked => NEW_BLOCK_GAP_MIN,
                Phase::Replied => NEW_BLOCK_GAP_MIN,
                Phase::Returned => NEW_BLOCK_GAP_MIN,
                _ => rest_after(last),
            },
            Profile::Extended => rest_after(last),
        }
    }

    /// How long after a word the next word of its block may come at most, if there is a limit.
    #[inline(always)]
    pub(crate) fn block_most(self) -> Option<u64>
        ensures value { result ≡ spec.block_most self }
        ensures small { IfSome result (λ most. most < 2 ^ 32) }
    {
        match self {
            Profile::Base => Some(BLOCK_GAP_MAX),
            Profile::Extended => None,
        }
    }

    /// How long after the last word of a block the answer may begin at most, if there is a limit.
    #[inline(always)]
    pub(crate) fn answer_most(self) -> Option<u64>
        ensures value { result ≡ spec.answer_most self }
        ensures small { IfSome result (λ most. most < 2 ^ 32) }
    {
        match self {
            Profile::Base => Some(ANSWER_GAP_MAX),
            Profile::Extended => None,
        }
    }

    /// How long a break lasts at least.
    pub(crate) fn break_least(self) -> u64
        ensures { result ≡ spec.break_least self }
    {
        match self {
            Profile::Base => BREAK_LENGTH_MIN,
            Profile::Extended => SHORT_BREAK_MIN,
        }
    }
}

/// How long a block rests by the base profile where nothing is open.
#[inline(always)]
fn setup_rest(last: &Option<Event>) -> u64
    ensures value { result ≡ spec.block_rest Quiet Base last.now }
    ensures small { result < 2 ^ 32 }
{
    match last {
        Some(Event::Break { .. }) => SETUP_GAP_MIN,
        _ => WORD_GAP_MIN,
    }
}

/// How long a row rests after the row before it.
#[inline(always)]
pub(crate) fn rest_after(last: &Option<Event>) -> u64
    ensures value { result ≡ spec.rest_after last.now }
    ensures small { result < 2 ^ 32 }
{
    match last {
        Some(Event::Break { .. }) => 0,
        _ => WORD_GAP_MIN,
    }
}
