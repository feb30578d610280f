//! The meaning of a reader's messages.

ghost use Rattle.std.specs.Prelude.{◌≡◌, ◌≤◌, length};
ghost use Rattle.std.specs.List.{list_any};
ghost use Rattle.std.specs.Option.{is_some};
ghost use Rattle.mdb_machine.specs.Kept.{is_reset, kept_by};
ghost use Rattle.mdb_machine.specs.PastValues.{IsSummary};
ghost use Rattle.mdb_cashless.specs.ReaderMessages as spec;

use mdb_machine::kept::{KeptMessage, Part, Summary};
use mdb_msgs::{ReaderConfig, ReaderIter, ReaderMsg, Reply};

/// The meaning of a kept message of a cashless reader (MDB/ICP 4.3, cashless device; which messages
/// are kept, this profile). Two such messages are the same if all their bytes are.
#[derive(Clone, Copy, PartialEq, Eq, Debug)]
pub enum ReaderActivity {
    /// 03 of feature levels 2 and 3: a session begins.
    SessionBegunLong {
        /// The funds, in units of the scale factor.
        funds: u16,
        /// The payment media's number.
        media: u32,
        /// The payment type.
        kind: u8,
        /// The payment data.
        details: u16,
    },
    /// 03: a session begins.
    SessionBegun {
        /// The funds, in units of the scale factor.
        funds: u16,
    },
    /// 05: a sale is approved.
    VendApproved {
        /// The amount, in units of the scale factor.
        amount: u16,
    },
    /// 06: a sale is denied.
    VendDenied,
    /// 07: the session has ended.
    SessionEnded,
}

/// What fills the places of a list that no message has yet. All its bytes are 0, as they are of the
/// first variant alone, so that a list is cleared at once.
impl Default for ReaderActivity {
    fn default() -> Self {
        ReaderActivity::SessionBegunLong {
            funds: 0,
            media: 0,
            kind: 0,
            details: 0,
        }
    }
}

impl KeptMessage for ReaderActivity {
    fn is(self, other: Self) -> bool {
        self == other
    }
}

/// What a message is to the reader that keeps some of them.
fn part_of(message: ReaderMsg) -> Part<ReaderActivity>
    ensures { result ≡ spec.part_of message }
{
    match message {
        ReaderMsg::JustReset => Part::Reset,
        ReaderMsg::BeginSession { funds } => Part::Kept(ReaderActivity::SessionBegun { funds }),
        ReaderMsg::BeginSessionLong {
            funds,
            media,
            kind,
            details,
        } => Part::Kept(ReaderActivity::SessionBegunLong {
            funds,
            media,
            kind,
            details,
        }),
        ReaderMsg::VendApproved { amount } => Part::Kept(ReaderActivity::VendApproved { amount }),
        ReaderMsg::VendDenied => Part::Kept(ReaderActivity::VendDenied),
        ReaderMsg::EndSession => Part::Kept(ReaderActivity::SessionEnded),
        _ => Part::Other,
    }
}

/// The messages of a reply of a reader; none of another's.
#[inline(always)]
pub(crate) fn messages_of(reply: &Reply) -> ReaderIter<'_>
    ensures messages { result ≡ spec.messages_of reply.now }
    ensures few { length result ≤ 35 }
{
    match reply {
        Reply::Reader(list) => list.iter(),
        _ => ReaderIter::none(),
    }
}

/// What the messages of a reply say to the reader's facts and steps. It is found while they are
/// read, so that no list is made of them.
#[derive(Drop)]
pub(crate) struct Said {
    /// What counts of them for what the reader keeps.
    pub(crate) summary: Summary<ReaderActivity, 35>,
    /// The last config message.
    pub(crate) config: Option<ReaderConfig>,
    /// The amount of the last approval, in units of the scale factor.
    pub(crate) amount: Option<u16>,
    /// Whether a session begins.
    pub(crate) begins: bool,
    /// Whether the command came out of sequence.
    pub(crate) refused: bool,
}

impl Said {
    ghost use Rattle.std.specs.Prelude.{◌+◌, ◌<◌, ◌||◌, ◌++◌, List, [], ◌∷◌};
    ghost use Rattle.arrayvec.specs.ArrayVec.{array_vec_len};
    ghost use Rattle.mdb_machine.specs.Past.{is_out_of_sequence, or_else};
    ghost use Rattle.mdb_machine.specs.declared.kept.Part.{Part};
    ghost use Rattle.mdb_cashless.specs.declared.reader.messages.ReaderActivity.{ReaderActivity};
    ghost use Rattle.mdb_cashless.specs.inner.ReaderSaid.{IsSaid};

    /// What no message says.
    #[inline(always)]
    pub(crate) fn nothing() -> Said
        ensures said { IsSaid result [] }
        ensures room { array_vec_len result.summary.kept ≡ 0 }
    {
        Said {
            summary: Summary::new(),
            config: None,
            amount: None,
            begins: false,
            refused: false,
        }
    }

    /// Reads messages, of which it has read none.
    // Not inlined, so that the facts and the steps of both readers share it.
    #[inline(never)]
    pub(crate) fn read(&mut self, messages: ReaderIter<'_>)
        requires said { IsSaid self.old [] }
        requires room { array_vec_len self.old.summary.kept ≡ 0 }
        requires few { length messages ≤ 35 }
        ensures { IsSaid self.new messages.entry }
    {
        for message in messages {
            self.add(message);
        }
    }

    /// Reads one message more.
    #[inline(always)]
    fn add(&mut self, message: ReaderMsg)
        requires room { array_vec_len self.old.summary.kept < 35 }
        ensures summary { (parts : List (Part ReaderActivity))
            → IsSummary self.old.summary.kept.items self.old.summary.reset self.old.summary.early
            parts
            → IsSummary self.new.summary.kept.items self.new.summary.reset self.new.summary.early
            (parts ++ spec.part_of message ∷ []) }
        ensures room { array_vec_len self.new.summary.kept
            ≤ array_vec_len self.old.summary.kept + 1 }
        ensures config { self.new.config ≡ or_else (spec.config_in message) self.old.config }
        ensures amount { self.new.amount ≡ or_else (spec.amount_in message) self.old.amount }
        ensures begins { self.new.begins ≡ (spec.begins_session message || self.old.begins) }
        ensures refused { self.new.refused ≡ (is_out_of_sequence message || self.old.refused) }
    {
        self.summary.add(part_of(message));
        match message {
            ReaderMsg::Config {
                scale,
                decimals,
                response,
                ..
            } => {
                self.config = Some(ReaderConfig {
                    scale,
                    decimals,
                    response,
                })
            }
            ReaderMsg::BeginSession { .. } | ReaderMsg::BeginSessionLong { .. } => {
                self.begins = true
            }
            ReaderMsg::VendApproved { amount } => self.amount = Some(amount),
            ReaderMsg::OutOfSequence | ReaderMsg::OutOfSequenceIn(_) => self.refused = true,
            _ => {}
        }
    }
}

/// Whether the reader keeps a message.
pub(crate) fn is_kept(message: ReaderMsg) -> bool
    ensures { result ≡ is_some (kept_by (spec.part_of message)) }
{
    matches!(part_of(message), Part::Kept(_))
}

/// Whether a reply tells of a reset.
// Not inlined, so that the steps of both readers share it.
#[inline(never)]
pub(crate) fn tells_of_reset(reply: &Reply) -> bool
    ensures { result ≡ list_any (λ message. is_reset (spec.part_of message))
        (spec.messages_of reply.now) }
{
    for message in messages_of(reply) {
        if tells_reset(message) {
            return true;
        }
    }
    false
}

/// Whether a message tells of a reset.
fn tells_reset(message: ReaderMsg) -> bool
    ensures { result ≡ is_reset (spec.part_of message) }
{
    matches!(message, ReaderMsg::JustReset)
}
