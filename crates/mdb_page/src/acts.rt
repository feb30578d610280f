//! The acts of a recording, as `show` lists them.

ghost use Rattle.std.specs.Prelude.{◌<◌, ◌≡◌, ◌≤◌, ℕ, List, [], ◌∷◌, length, IfSome, None, Some};
ghost use Rattle.std.specs.List.{list_any};
ghost use Rattle.mdb_words.specs.declared.event.Event.{Event};
ghost use Rattle.mdb_words.specs.Block.{block_of};
ghost use Rattle.mdb_msgs.specs.Commands.{device_of};
ghost use Rattle.mdb_msgs.specs.Reader.{has_long};
ghost use Rattle.mdb_msgs.specs.Replies.{reply_bytes};
ghost use Rattle.mdb_bus.specs.ActLists.{Piece, Whole, events_of, piece_events};
ghost use Rattle.mdb_bus.specs.Pieces.{IsTail, NamesAReply};
ghost use Rattle.mdb_bus.specs.Acts.{IsReply};
ghost use Rattle.mdb_follow.specs.declared.follower.TheConstants.{ROWS_MAX};
ghost use Rattle.mdb_page.specs.Acts.{Shows, ShowsAct, ShowsReply, device_number, has_options, reading_number};
ghost use Rattle.mdb_page.specs.declared.acts.PageAct.{PageAct};
ghost use Rattle.mdb_page.specs.inner.Listing.{AreOf, HasListed, Moves, with_rows};

use crate::rows::{Rows, device_number};
use mdb_bus::Act;
use mdb_msgs::{Command, ReaderList, ReaderMsg, Reply, write_command, write_reply};
use mdb_words::Block;

/// An act on the bus.
#[repr(C)]
#[derive(Clone, Copy)]
pub struct PageAct {
    /// Its first row.
    pub first: u64,
    /// Its last row.
    pub last: u64,
    /// When its first row started, in microseconds.
    pub start: u64,
    /// When its last row started.
    pub end: u64,
    /// How long a break was, in microseconds.
    pub length: u64,
    /// Its kind: 0 ask, 1 ack, 2 nak, 3 reply, 4 vmc-ack, 5 vmc-nak, 6 vmc-ret, 7 repeat, 8
    /// foreign, 9 break, 10 words of a block that is cut.
    pub kind: u8,
    /// The device: 0 none, 1 changer, 2 bill, 3 cashless, 4 cashless-2.
    pub device: u8,
    /// The number of its bytes.
    pub count: u8,
    /// Which messages the bytes of a reader's reply are: 0 those of the base profile, 1 those of
    /// the extended profile at feature level 1, 2 those of feature levels 2 and 3. It is the first
    /// of these that has them all. Else 0.
    pub reading: u8,
    /// Its bytes, at the beginning of this array.
    pub bytes: [u8; 36],
}

const FOREIGN: u8 = 8;

const BREAK: u8 = 9;

const CUT: u8 = 10;

/// The list of the acts: the first ones, and after them the last ones in a ring.
#[derive(Drop)]
pub(crate) struct ActListing {
    /// So many of the first ones stay.
    first: usize,
    /// The place of the next one.
    next: usize,
    /// How many there were.
    count: u64,
}

impl ActListing {
    /// The list before the first act, where so many of the first ones stay.
    pub(crate) fn keeping(first: usize) -> ActListing
        ensures { (acts : List PageAct) → HasListed first acts [] result acts }
    {
        ActListing {
            first,
            next: 0,
            count: 0,
        }
    }

    /// Takes an act, which has these rows.
    pub(crate) fn act(&mut self, acts: &mut [PageAct], rows: &Rows, act: &Act)
        requires { NamesAReply act.now }
        ensures { (first : ℕ) (before : List PageAct) (earlier : List Piece)
            (events : List Event) → HasListed first before earlier self.old acts.old
            → length earlier ≤ ROWS_MAX → AreOf rows.now (length (events_of earlier)) events
            → HasListed first before (Whole act.now events ∷ earlier) self.new acts.new }
    {
        if let Some(place) = self.place(acts.len()) {
            let place = &mut acts[place];
            put_act(place, act);
            put_rows(place, rows);
        }
    }

    /// Takes the words of a block that a break or the end cuts, which have these rows.
    pub(crate) fn cut(&mut self, acts: &mut [PageAct], rows: &Rows)
        ensures { (first : ℕ) (before : List PageAct) (earlier : List Piece) (tail : Piece)
            → HasListed first before earlier self.old acts.old → IsTail tail
            → length earlier ≤ ROWS_MAX
            → AreOf rows.now (length (events_of earlier)) (piece_events tail)
            → HasListed first before (tail ∷ earlier) self.new acts.new }
    {
        if let Some(place) = self.place(acts.len()) {
            let place = &mut acts[place];
            put(place, CUT, 0, 0);
            put_rows(place, rows);
        }
    }

    /// How many there were.
    pub(crate) fn count(&self) -> u64
        ensures { (first : ℕ) (before after : List PageAct) (listed : List Piece)
            → HasListed first before listed self.now after → result ≡ length listed }
    {
        self.count
    }

    /// The place of one more, if there is room for it.
    fn place(&mut self, room: usize) -> Option<usize>
        ensures room { IfSome result (λ place. place < room) }
        ensures moved { Moves room self.old self.new result }
    {
        self.count = self.count.saturating_add(1);
        let place = self.next;
        if place >= room {
            return None;
        }
        let after = place + 1;
        self.next = if after < room { after } else { self.first };
        Some(place)
    }
}

/// Puts the rows of an act.
fn put_rows(place: &mut PageAct, rows: &Rows)
    ensures { place.new ≡ with_rows place.old rows.now }
{
    place.first = rows.first;
    place.last = rows.last;
    place.start = rows.start;
    place.end = rows.end;
}

/// Puts what was done.
fn put_act(place: &mut PageAct, act: &Act)
    requires { NamesAReply act.now }
    ensures { ShowsAct place.new (Some act.now) }
{
    match act {
        Act::Ask(command) => put_block(place, 0, command, &write_command(command)),
        Act::Ack(command) => put_answer(place, 1, command),
        Act::Nak(command) => put_answer(place, 2, command),
        Act::Reply(command, reply) => put_reply(place, 3, command, reply),
        Act::VmcAck(command, _) => put_answer(place, 4, command),
        Act::VmcNak(command, _) => put_answer(place, 5, command),
        Act::VmcRet(command, _) => put_answer(place, 6, command),
        Act::Repeat(command, reply) => put_reply(place, 7, command, reply),
        Act::Foreign => put(place, FOREIGN, 0, 0),
        Act::Break(length) => put(place, BREAK, 0, *length),
    }
}

/// Puts a kind, the number of a device, and how long a break was. There are no bytes.
fn put(place: &mut PageAct, kind: u8, device: u8, length: u64)
    ensures { Shows place.new kind device [] 0 length }
{
    place.kind = kind;
    place.device = device;
    place.count = 0;
    place.reading = 0;
    place.length = length;
}

/// Puts an answer of one byte.
fn put_answer(place: &mut PageAct, kind: u8, command: &Command)
    ensures { Shows place.new kind (device_number (device_of command.now)) [] 0 0 }
{
    put(place, kind, device_number(command.device()), 0);
}

/// Puts a reply.
fn put_reply(place: &mut PageAct, kind: u8, command: &Command, reply: &Reply)
    requires { IsReply command.now reply.now }
    ensures { ShowsReply place.new kind command.now reply.now }
{
    let Ok(block) = write_reply(command, reply) else {
        unreachable!()
    };
    put_block(place, kind, command, &block);
    place.reading = reading_number(reply);
}

/// Puts the block of a command or of a reply to it.
fn put_block(place: &mut PageAct, kind: u8, command: &Command, block: &Block)
    ensures { Shows place.new kind (device_number (device_of command.now)) block.now 0 0 }
{
    put_answer(place, kind, command);
    let bytes = block.bytes();
    place.bytes[..bytes.len()].copy_from_slice(bytes);
    place.count = bytes.len() as u8;
}

/// The number of how a reader's reply is read: 2 for a long reading, and 1 more where
/// identifications have options; of other replies 0.
fn reading_number(reply: &Reply) -> u8
    ensures { result ≡ reading_number reply.now }
{
    match reply {
        Reply::Reader(list) => {
            let long = if have_long(list) { 2 } else { 0 };
            let options = if have_options(list) { 1 } else { 0 };
            long + options
        }
        _ => 0,
    }
}

/// Whether one of the messages is of feature levels 2 and 3 alone.
fn have_long(list: &ReaderList) -> bool
    ensures { result ≡ list_any has_long list.now.messages }
{
    for message in list.iter() {
        match message {
            ReaderMsg::BeginSessionLong { .. }
            | ReaderMsg::OutOfSequenceIn(_)
            | ReaderMsg::TimeAsked => return true,
            _ => {}
        }
    }
    false
}

/// Whether one of the messages is an identification with options.
fn have_options(list: &ReaderList) -> bool
    ensures { result ≡ list_any has_options list.now.messages }
{
    for message in list.iter() {
        if let ReaderMsg::PeripheralIdWithOptions { .. } = message {
            return true;
        }
    }
    false
}
