//! Kept messages: a device repeats them until it knows that the controller heard them.

ghost use Rattle.std.specs.Prelude.{◌≡◌, ◌+◌, ◌++◌, ◌<◌, ◌≤◌, ◌↔◌, ◌||◌, ◌&&◌, not, IsTrue, IfSome, IfNone, length, map, List, [], ◌∷◌, false, true};
ghost use Rattle.std.specs.Bool.{OnFalse};
ghost use Rattle.std.specs.List.{list_any};
ghost use Rattle.arrayvec.specs.ArrayVec.{array_vec_len};
ghost use Rattle.mdb_machine.specs.Kept as spec;
ghost use Rattle.mdb_machine.specs.declared.kept.Part.{Part};
ghost use Rattle.mdb_machine.specs.Kept.{CanBeRead, IsNew, MayBeRead, HasNews};
ghost use Rattle.mdb_machine.specs.PastValues.{IsSummary};

use crate::choice::Choice;
use arrayvec::ArrayVec;

/// What a message of a reply is to its device, which keeps some of them (this profile).
#[derive(Clone, Copy, PartialEq, Eq, Debug)]
pub enum Part<M> {
    /// The device reports that it was reset.
    Reset,
    /// It is kept, and has this meaning.
    Kept(M),
    /// It is neither.
    Other,
}

/// The meaning of a kept message.
pub trait KeptMessage: Copy + Default {
    /// Whether both say the same.
    fn is(self, other: Self) -> bool
        ensures { IsTrue result ↔ (self ≡ other) };
}

/// The meaning of a kept message, of a device that keeps some of the messages of its replies.
pub trait KeptAmong: KeptMessage + Drop {
    /// A message of its replies.
    type Message: Copy;

    /// What a message is to the device.
    ghost part_of: { Self.Message → Part Self };

    /// What a message is to the device.
    fn part(message: Self::Message) -> Part<Self>
        ensures { result ≡ part_of message };
}

/// What counts of the messages of a reply for what its device keeps.
#[derive(Drop)]
pub struct Summary<M: Drop, const CAP: usize> {
    /// The kept messages.
    pub kept: ArrayVec<M, CAP>,
    /// Whether there is a reset message.
    pub reset: bool,
    /// Whether a kept message stands before the first reset message; without a reset message,
    /// whether there is a kept message.
    pub early: bool,
}

impl<M: KeptMessage + Drop, const CAP: usize> Summary<M, CAP> {
    /// No message.
    pub fn new() -> Self
        ensures summary { IsSummary result.kept.items result.reset result.early [] }
        ensures room { array_vec_len result.kept ≡ 0 }
    {
        Summary {
            kept: ArrayVec::new(),
            reset: false,
            early: false,
        }
    }

    /// One message more.
    pub fn add(&mut self, part: Part<M>)
        requires room { array_vec_len self.old.kept < CAP }
        ensures summary { (parts : List (Part M))
            → IsSummary self.old.kept.items self.old.reset self.old.early parts
            → IsSummary self.new.kept.items self.new.reset self.new.early (parts ++ part ∷ []) }
        ensures room { array_vec_len self.new.kept ≤ array_vec_len self.old.kept + 1 }
    {
        self.put(part);
    }

    /// Puts one message after the others.
    fn put(&mut self, part: Part<M>)
        requires room { array_vec_len self.old.kept < CAP }
        ensures kept { self.new.kept.items ≡ self.old.kept.items ++ spec.kept_of (part ∷ []) }
        ensures room { array_vec_len self.new.kept ≤ array_vec_len self.old.kept + 1 }
        ensures reset { self.new.reset ≡ (self.old.reset || spec.has_reset (part ∷ [])) }
        ensures early { self.new.early
            ≡ (self.old.early || (not self.old.reset && spec.keeps_early (part ∷ []))) }
    {
        match part {
            Part::Reset => self.reset = true,
            Part::Kept(message) => {
                self.early = self.early || !self.reset;
                self.kept.push(message);
            }
            Part::Other => {}
        }
    }

    /// Whether the reply can be read so.
    pub fn may_be_read(&self, choice: Choice) -> bool
        ensures { IsTrue result ↔ CanBeRead choice self.now.reset self.now.early }
    {
        match choice {
            Choice::Plain | Choice::Lost => true,
            Choice::Restart => self.reset && !self.early,
            Choice::Again => false,
        }
    }

    /// Whether its messages may come while a reset message is owed or isn't.
    pub fn may_come(&self, reset_owed: bool) -> bool
        ensures { IsTrue result ↔ (reset_owed ≡ true → self.now.early ≡ false) }
    {
        !reset_owed || !self.early
    }

    /// The kept messages that are new where the reply is read so, a reset message is owed or isn't,
    /// and the device holds these. `None` where it can't tell what it tells.
    pub fn news(&self, is_poll: bool, choice: Choice, reset_owed: bool, held: &[M]) -> Option<&[M]>
        ensures found { IfSome result (λ new. (parts : List (Part M))
            → IsSummary self.now.kept.items self.now.reset self.now.early parts
            → HasNews is_poll choice reset_owed held.now parts new.now) }
        ensures only { IfSome result (λ new. (parts : List (Part M)) (other : List M)
            → IsSummary self.now.kept.items self.now.reset self.now.early parts
            → HasNews is_poll choice reset_owed held.now parts other → other ≡ new.now) }
        ensures none { IfNone result ((parts : List (Part M)) (other : List M)
            → IsSummary self.now.kept.items self.now.reset self.now.early parts
            → HasNews is_poll choice reset_owed held.now parts other → ⊥) }
        ensures few { IfSome result (λ new. length new.now ≤ array_vec_len self.now.kept) }
    {
        if !self.may_be_read(choice) || !self.may_come(reset_owed) {
            return None;
        }
        news_after(is_poll, held, self.kept.as_slice())
    }
}

/// What counts of messages for what their device keeps.
#[inline(always)]
pub fn summary_of<M: KeptAmong, const CAP: usize>(messages: &[M::Message]) -> Summary<M, CAP>
    requires { length messages.now ≤ CAP }
    ensures { IsSummary result.kept.items result.reset result.early
        (map M.part_of messages.now) }
{
    let mut summary = Summary::new();
    for message in messages {
        summary.add(M::part(*message));
    }
    summary
}

/// Whether messages may be read so, by what is quickly seen: none without a reset message tell of a
/// restart. A yes promises nothing: `Summary::news` has the last word.
pub fn may_all_be_read<M: KeptAmong>(choice: Choice, messages: &[M::Message]) -> bool
    ensures { OnFalse result (MayBeRead choice (map M.part_of messages.now) → ⊥) }
{
    if let Choice::Restart = choice {
        tell_reset::<M>(messages)
    } else {
        true
    }
}

/// Whether there is a reset message.
fn tell_reset<M: KeptAmong>(messages: &[M::Message]) -> bool
    ensures { result ≡ list_any (λ message. spec.is_reset (M.part_of message)) messages.now }
{
    messages.iter().any(|message| is_reset(M::part(*message)))
}

/// Whether this is the reset message.
fn is_reset<M: KeptMessage + Drop>(part: Part<M>) -> bool
    ensures { result ≡ spec.is_reset part }
{
    matches!(part, Part::Reset)
}

/// Whether a device still holds what it held, once its reply is read.
pub fn holds_read(choice: Choice, holds: bool) -> bool
    ensures { result ≡ spec.holds_read choice holds }
{
    match choice {
        Choice::Plain | Choice::Lost | Choice::Again => holds,
        Choice::Restart => false,
    }
}

/// What a device holds, of its last kept list.
pub fn held<M>(holds: bool, last: &[M]) -> &[M]
    ensures { result.now ≡ spec.held holds last.now }
{
    if holds { last } else { &[] }
}

/// Whether a device holds after its reply, which has these kept messages.
pub fn holds_after<M>(kept: &[M], holds: bool) -> bool
    ensures { result ≡ spec.holds_after kept.now holds }
{
    holds || !kept.is_empty()
}

/// Whether a device holds after the controller's ACK of a reply with these kept messages.
pub fn holds_acked<M>(choice: Choice, kept: &[M], holds: bool) -> bool
    ensures { result ≡ spec.holds_acked choice kept.now holds }
{
    match choice {
        Choice::Lost => holds,
        Choice::Plain | Choice::Restart | Choice::Again => holds && kept.is_empty(),
    }
}

/// Whether two lists of as many messages are the same.
fn are_same<M: KeptMessage>(one: &[M], other: &[M]) -> bool
    requires { length one.now ≡ length other.now }
    ensures { IsTrue result ↔ (one.now ≡ other.now) }
{
    for i in 0..one.len() {
        if !one[i].is(other[i]) {
            return false;
        }
    }
    true
}

/// The kept messages of a reply that are new, after those that its device holds; `None` where the
/// device can't tell these.
fn news_after<'a, M: KeptMessage>(is_poll: bool, held: &[M], kept: &'a [M]) -> Option<&'a [M]>
    ensures found { IfSome result (λ new. IsNew is_poll held.now kept.now new.now) }
    ensures only { IfSome result (λ new. (other : List M)
        → IsNew is_poll held.now kept.now other → other ≡ new.now) }
    ensures none { IfNone result ((other : List M)
        → IsNew is_poll held.now kept.now other → ⊥) }
{
    if !is_poll && kept.is_empty() {
        return Some(kept);
    }
    if kept.len() < held.len() {
        return None;
    }
    let (front, rest) = kept.split_at(held.len());
    if are_same(front, held) {
        Some(rest)
    } else {
        None
    }
}
