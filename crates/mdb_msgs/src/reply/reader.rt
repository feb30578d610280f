//! The messages of a reader's answer (MDB/ICP 4.3, cashless device).

ghost use Rattle.std.specs.Prelude.{◌≡◌, ◌≢◌, ◌≤◌, ◌<◌, true, false, [], ◌∷◌, ◌++◌, ◌↔◌, length, replicate, IsTrue, IsSome, IsNone, IsOk, IfSome, IfOk, IfErr, Err};
ghost use Rattle.std.specs.List.{flat_map, list_any};
ghost use Rattle.mdb_msgs.specs.declared.fault.MsgFault.{MsgFault as Fault};
ghost use Rattle.mdb_msgs.specs.declared.fault.MsgFault.TheVariants.{Message};
ghost use Rattle.mdb_msgs.specs.declared.reading.Reading.{Reading as Read};
ghost use Rattle.mdb_msgs.specs.TwoBytes.{two_bytes, four_bytes};
ghost use Rattle.mdb_msgs.specs.Reader.{head_bytes, reader_msg_bytes, reader_list_bytes, is_display, is_id, is_kept, has_long, ids_of, own_ids, reading_of, session_bytes, tells_level, text_of, AreReaderMsgs, IsReaderList, IsTextOf, NoReaderMsg, ReaderStopsAt, wider};
ghost use Rattle.mdb_msgs.specs.ReplyFaults.{IsListFault, IsReaderBlock};
ghost use Rattle.mdb_msgs.specs.ReaderBytes.{foot_bytes, messages_of, no_messages};
ghost use Rattle.mdb_msgs.specs.inner.OneMessage.{IsNextMessage, StandAsMessages};

use super::list::{Bytes, append, list_of};
use crate::fault::MsgFault;
use crate::reading::{Ids, Reading};
use crate::two_bytes::{high, high_half, long_number, low, low_half, number};
use arrayvec::ArrayVec;
use std::marker::Model;

/// A message of a reader's answer.
#[derive(Clone, Copy, PartialEq, Eq, Debug, Default)]
pub enum ReaderMsg {
    /// 00: the reader was reset.
    #[default]
    JustReset,
    /// 01: the reader's setup data.
    Config {
        /// Z2: the feature level.
        level: u8,
        /// Z3-Z4: the country or currency code.
        code: u16,
        /// Z5: the scale factor, in the smallest unit of money.
        scale: u8,
        /// Z6: the decimal places.
        decimals: u8,
        /// Z7: the response time, in seconds.
        response: u8,
        /// Z8: the options.
        options: u8,
    },
    /// 02: a display request. Its text is [`ReaderList::text`].
    Display {
        /// How long the text is to be shown, in tenths of a second.
        time: u8,
    },
    /// 03: a session begins.
    BeginSession {
        /// The funds, in units of the scale factor.
        funds: u16,
    },
    /// 03 of feature levels 2 and 3: a session begins.
    BeginSessionLong {
        /// The funds, in units of the scale factor.
        funds: u16,
        /// The payment media's number.
        media: u32,
        /// The payment type.
        kind: u8,
        /// The payment data.
        details: u16,
    },
    /// 04: the reader asks for the session's end.
    CancelRequest,
    /// 05: a sale is approved.
    VendApproved {
        /// The amount, in units of the scale factor.
        amount: u16,
    },
    /// 06: a sale is denied.
    VendDenied,
    /// 07: the session has ended.
    EndSession,
    /// 08: the reader was cancelled.
    Cancelled,
    /// 09: the peripheral's identification. Its bytes are [`ReaderList::id`].
    PeripheralId,
    /// 09 of the extended profile, where the reading takes 34 bytes: the peripheral's
    /// identification with its options. Its other bytes are [`ReaderList::id`].
    PeripheralIdWithOptions {
        /// The options, Z31-Z34.
        options: u32,
    },
    /// 0A: a malfunction, with its code.
    Malfunction(u8),
    /// 0B: the command came out of sequence.
    OutOfSequence,
    /// 0B of feature levels 2 and 3, where it isn't the last byte: its status.
    OutOfSequenceIn(u8),
    /// 11 of feature levels 2 and 3: the reader asks for time and date.
    TimeAsked,
}

impl ReaderMsg {
    /// Whether the message tells of a session or a sale (03, 05, 06 and 07), and so may stand in
    /// answers to POLL and the five commands of a session alone by the base profile: 12 and 13 00
    /// to 13 04 of the first reader, 62 and 63 00 to 63 04 of the second (this profile).
    fn is_kept(self) -> bool
        ensures { result ≡ is_kept self }
    {
        matches!(
            self,
            ReaderMsg::BeginSession { .. }
                | ReaderMsg::BeginSessionLong { .. }
                | ReaderMsg::VendApproved { .. }
                | ReaderMsg::VendDenied
                | ReaderMsg::EndSession
        )
    }

    /// Whether the message tells of a feature level of `least` or more.
    fn tells_level(self, least: u8) -> bool
        ensures { result ≡ tells_level least self }
    {
        match self {
            ReaderMsg::Config { level, .. } => level >= least,
            _ => false,
        }
    }

    /// Whether the message is one of feature levels 2 and 3 alone.
    fn has_long(self) -> bool
        ensures { result ≡ has_long self }
    {
        matches!(
            self,
            ReaderMsg::BeginSessionLong { .. }
                | ReaderMsg::OutOfSequenceIn(_)
                | ReaderMsg::TimeAsked
        )
    }

    fn is_display(self) -> bool
        ensures { result ≡ is_display self }
    {
        matches!(self, ReaderMsg::Display { .. })
    }

    fn is_id(self) -> bool
        ensures { result ≡ is_id self }
    {
        matches!(
            self,
            ReaderMsg::PeripheralId | ReaderMsg::PeripheralIdWithOptions { .. }
        )
    }

    /// How identifications have to be read at least, where the messages before it ask for `ids`.
    fn widened(self, ids: Ids) -> Ids
        ensures { result ≡ wider ids (ids_of self) }
    {
        match (self, ids) {
            (ReaderMsg::PeripheralIdWithOptions { options }, Ids::Bare | Ids::ByNext) => {
                if high(high_half(options)) == 0 {
                    Ids::ByNext
                } else {
                    Ids::Full
                }
            }
            _ => ids,
        }
    }

    /// Its options, of an identification with options.
    fn foot(self) -> ArrayVec<u8, 4>
        ensures { result.items ≡ foot_bytes self }
    {
        match self {
            ReaderMsg::PeripheralIdWithOptions { options } => list_of(&[
                high(high_half(options)),
                low(high_half(options)),
                high(low_half(options)),
                low(low_half(options)),
            ]),
            _ => ArrayVec::new(),
        }
    }

    /// Its bytes, but for its text and its options.
    fn head(self) -> ArrayVec<u8, 10>
        ensures { result.items ≡ head_bytes self }
    {
        match self {
            ReaderMsg::JustReset => list_of(&[0x00]),
            ReaderMsg::Config {
                level,
                code,
                scale,
                decimals,
                response,
                options,
            } => list_of(&[
                0x01,
                level,
                high(code),
                low(code),
                scale,
                decimals,
                response,
                options,
            ]),
            ReaderMsg::Display { time } => list_of(&[0x02, time]),
            ReaderMsg::BeginSession { funds } => list_of(&[0x03, high(funds), low(funds)]),
            ReaderMsg::BeginSessionLong {
                funds,
                media,
                kind,
                details,
            } => list_of(&[
                0x03,
                high(funds),
                low(funds),
                high(high_half(media)),
                low(high_half(media)),
                high(low_half(media)),
                low(low_half(media)),
                kind,
                high(details),
                low(details),
            ]),
            ReaderMsg::CancelRequest => list_of(&[0x04]),
            ReaderMsg::VendApproved { amount } => list_of(&[0x05, high(amount), low(amount)]),
            ReaderMsg::VendDenied => list_of(&[0x06]),
            ReaderMsg::EndSession => list_of(&[0x07]),
            ReaderMsg::Cancelled => list_of(&[0x08]),
            ReaderMsg::PeripheralId | ReaderMsg::PeripheralIdWithOptions { .. } => {
                list_of(&[0x09])
            }
            ReaderMsg::Malfunction(code) => list_of(&[0x0A, code]),
            ReaderMsg::OutOfSequence => list_of(&[0x0B]),
            ReaderMsg::OutOfSequenceIn(status) => list_of(&[0x0B, status]),
            ReaderMsg::TimeAsked => list_of(&[0x11]),
        }
    }
}

/// A reader's answer: its messages in order, and the two long texts, of which a block holds at most
/// one each. A display request is last (this profile).
///
/// It keeps the bytes of its messages, one after the other, and reads them on request. The reading
/// that it keeps is told by the messages.
#[derive(PartialEq, Eq, Debug, Drop)]
pub struct ReaderList {
    bytes: Bytes,
    reading: Reading,
}

impl Model for ReaderList {
    ghost use Rattle.mdb_msgs.specs.Reader.{ReaderMessages, reader_list_bytes, reading_of};
    ghost use Rattle.mdb_msgs.specs.ReaderBytes.{messages_of, AreMessages};

    ghost Value = { ReaderMessages };

    ghost view = { λ list. messages_of list.reading list.bytes.items };

    ghost invariant = { λ list. AreMessages list.reading list.bytes.items };

    ghost inverse = { λ list. record {
      bytes = record { items = reader_list_bytes list };
      reading = reading_of list.messages;
    } };
}

impl ReaderList {
    /// The list of these messages. `id` has the 29 bytes of the identification, with options or
    /// without, and `text` the text of the message `Display`. Without such a message, `id` is all 0
    /// and `text` is empty.
    ///
    /// # Errors
    ///
    /// The first of these, which are those of `write_reply` in the same order:
    ///
    /// - `Length`: there is no message, or the bytes are more than the 35 that a block carries
    ///   (MDB/ICP 4.3, block format).
    /// - `Message`: no reading has all of the messages, a display request isn't last (this
    ///   profile), a display text has more than 32 bytes, or `id` or `text` is given without its
    ///   message.
    pub fn new(messages: &[ReaderMsg], id: &[u8; 29], text: &[u8]) -> Result<Self, MsgFault>
        ensures exactly { IsOk result ↔ IsReaderBlock
            (record { messages = messages.now; id = id.now; text = text.now }) }
        ensures list { IfOk result (λ list.
            list ≡ record { messages = messages.now; id = id.now; text = text.now }) }
        ensures fault { IfErr result (IsListFault
            (record { messages = messages.now; id = id.now; text = text.now })) }
        ensures refused { (fault : Fault) →
            IsListFault (record { messages = messages.now; id = id.now; text = text.now }) fault →
            result ≡ Err fault }
    {
        let Some(bytes) = bytes_of(messages, id, text) else {
            return Err(MsgFault::Length);
        };
        if bytes.is_empty() {
            return Err(MsgFault::Length);
        }
        read_as(bytes.as_slice(), messages, id, text).ok_or(MsgFault::Message)
    }

    /// Whether it has these messages and texts.
    fn has(&self, messages: &[ReaderMsg], id: &[u8; 29], text: &[u8]) -> bool
        ensures { IsTrue result ↔
            self.now ≡ record { messages = messages.now; id = id.now; text = text.now } }
    {
        if !are_same(self.messages().as_slice(), messages) || self.id() != *id {
            return false;
        }
        self.text() == text
    }

    /// Whether it is the same list as another.
    pub fn is(&self, other: &ReaderList) -> bool
        ensures { IsTrue result ↔ self.now ≡ other.now }
    {
        self.has(other.messages().as_slice(), &other.id(), other.text())
    }

    /// The same list again.
    pub fn copy(&self) -> Self
        ensures { result ≡ self.now }
    {
        ReaderList {
            bytes: list_of(self.bytes.as_slice()),
            reading: self.reading,
        }
    }

    /// The messages in order.
    pub fn messages(&self) -> ArrayVec<ReaderMsg, 35>
        ensures messages { result.items ≡ self.now.messages }
        ensures list { IsReaderList self.now }
    {
        let mut messages = ArrayVec::new();
        let mut rest = self.bytes.as_slice();
        while let Some((message, _, after)) = next_message(self.reading, rest) {
            messages.push(message);
            rest = after;
        }
        messages
    }

    /// The messages in order, read one after the other: no list is made of them.
    #[inline(always)]
    #[tactic(auto, using(crate::proofs::ReaderBytes::few_messages))]
    pub fn iter(&self) -> ReaderIter<'_>
        ensures messages { result ≡ self.now.messages }
        ensures few { length result ≤ 35 }
    {
        ReaderIter {
            reading: self.reading,
            rest: self.bytes.as_slice(),
        }
    }

    /// The 29 bytes of the identification, with options or without, all 0 where there is none.
    pub fn id(&self) -> [u8; 29]
        ensures { result ≡ self.now.id }
    {
        let mut id = [0; 29];
        let mut rest = self.bytes.as_slice();
        while let Some((message, text, after)) = next_message(self.reading, rest) {
            if message.is_id() {
                id.copy_from_slice(text.split_at(29).0);
                return id;
            }
            rest = after;
        }
        id
    }

    /// The text of the message `Display`, empty where there is none.
    pub fn text(&self) -> &[u8]
        ensures { result.now ≡ self.now.text }
    {
        let mut rest = self.bytes.as_slice();
        while let Some((message, text, after)) = next_message(self.reading, rest) {
            if message.is_display() {
                return text;
            }
            rest = after;
        }
        &[]
    }

    /// Whether a config message tells of a feature level of `least` or more (Z2).
    pub fn tells_level(&self, least: u8) -> bool
        ensures { result ≡ list_any (tells_level least) self.now.messages }
    {
        let mut rest = self.bytes.as_slice();
        while let Some((message, _, after)) = next_message(self.reading, rest) {
            if message.tells_level(least) {
                return true;
            }
            rest = after;
        }
        false
    }

    /// Whether a message tells of a session or a sale.
    pub(crate) fn tells_of_sales(&self) -> bool
        ensures { result ≡ list_any is_kept self.now.messages }
    {
        let mut rest = self.bytes.as_slice();
        while let Some((message, _, after)) = next_message(self.reading, rest) {
            if message.is_kept() {
                return true;
            }
            rest = after;
        }
        false
    }

    /// Whether a display request is last, and each text is blank where no message has it: the type
    /// keeps it so.
    pub(crate) fn is_valid(&self) -> bool
        ensures { IsTrue result ↔ IsReaderList self.now }
    {
        // what the type promises of its bytes
        let _ = &self.bytes;
        true
    }

    /// The bytes of the messages, put end to end.
    pub(crate) fn bytes(&self) -> &[u8]
        ensures bytes { result.now ≡ reader_list_bytes self.now }
        ensures fits { length result.now ≤ 35 }
    {
        self.bytes.as_slice()
    }
}

/// The messages of a reader's answer that are still to be read.
#[derive(Debug, Drop)]
pub struct ReaderIter<'a> {
    reading: Reading,
    rest: &'a [u8],
}

impl<'a> Model for ReaderIter<'a> {
    ghost use Rattle.std.specs.Prelude.{List};
    ghost use Rattle.mdb_msgs.specs.declared.reply.reader.ReaderMsg.{ReaderMsg};
    ghost use Rattle.mdb_msgs.specs.ReaderBytes.{messages_of};
    ghost use Rattle.mdb_msgs.specs.inner.OneMessage.{StandAsMessages};

    ghost Value = { List ReaderMsg };

    ghost view = { λ messages. (messages_of messages.reading messages.rest.now).messages };

    ghost invariant = { λ messages. StandAsMessages messages.reading messages.rest.now };
}

impl<'a> ReaderIter<'a> {
    /// No message.
    #[tactic(auto, using(crate::proofs::ReaderBytes::none_stand, crate::proofs::ReaderBytes::nothing_read))]
    pub fn none() -> Self
        ensures { result ≡ [] }
    {
        ReaderIter {
            reading: Reading::BASE,
            rest: &[],
        }
    }
}

impl<'a> Iterator for ReaderIter<'a> {
    ghost use Rattle.std.specs.Iterator.{YieldsFirst, item_count};

    type Item = ReaderMsg;

    ghost next_gives = { YieldsFirst (λ messages. messages) };

    ghost remaining = { item_count (λ messages. messages) };

    #[inline(always)]
    fn next(&mut self) -> Option<ReaderMsg> {
        let (message, _, after) = next_message(self.reading, self.rest)?;
        self.rest = after;
        Some(message)
    }
}

/// The text of a message but for its options: the identification, the text of a display request,
/// and else nothing.
fn text_of<'a>(message: ReaderMsg, id: &'a [u8; 29], text: &'a [u8]) -> &'a [u8]
    ensures { text_of id.now text.now message ≡ result.now ++ foot_bytes message }
{
    match message {
        ReaderMsg::PeripheralId | ReaderMsg::PeripheralIdWithOptions { .. } => id,
        ReaderMsg::Display { .. } => text,
        _ => &[],
    }
}

/// The bytes of messages put end to end, where they are at most 35.
fn bytes_of(messages: &[ReaderMsg], id: &[u8; 29], text: &[u8]) -> Option<Bytes>
    ensures fits { IsSome result ↔
        length (flat_map (reader_msg_bytes id.now text.now) messages.now) ≤ 35 }
    ensures bytes { IfSome result (λ bytes.
        bytes.items ≡ flat_map (reader_msg_bytes id.now text.now) messages.now) }
{
    let mut bytes = Bytes::new();
    for message in messages {
        let head = message.head();
        let text = text_of(*message, id, text);
        let foot = message.foot();
        if bytes.remaining_capacity() < head.len() + text.len() + foot.len() {
            return None;
        }
        append(&mut bytes, head.as_slice());
        append(&mut bytes, text);
        append(&mut bytes, foot.as_slice());
    }
    Some(bytes)
}

/// Whether these are the same messages in the same order.
fn are_same(messages: &[ReaderMsg], others: &[ReaderMsg]) -> bool
    ensures { IsTrue result ↔ messages.now ≡ others.now }
{
    messages == others
}

/// The reading that messages are kept in.
fn reading_of(messages: &[ReaderMsg]) -> Reading
    ensures { result ≡ reading_of messages.now }
{
    Reading {
        is_long: have_long(messages),
        ids: own_ids(messages),
    }
}

/// How identifications have to be read at least for these messages.
#[tactic(auto, using(crate::proofs::Readings::own_next))]
fn own_ids(messages: &[ReaderMsg]) -> Ids
    ensures { result ≡ own_ids messages.now }
{
    let mut ids = Ids::Bare;
    for message in messages {
        ids = message.widened(ids);
    }
    ids
}

/// Whether one of the messages is of feature levels 2 and 3 alone.
fn have_long(messages: &[ReaderMsg]) -> bool
    ensures { result ≡ list_any has_long messages.now }
{
    messages.iter().any(|message| message.has_long())
}

/// The list of these messages and texts, if it is what their bytes are read as.
fn read_as(bytes: &[u8], messages: &[ReaderMsg], id: &[u8; 29], text: &[u8]) -> Option<ReaderList>
    requires few { length bytes.now ≤ 35 }
    requires bytes { bytes.now ≡ flat_map (reader_msg_bytes id.now text.now) messages.now }
    ensures exactly { IsSome result ↔
        IsReaderList (record { messages = messages.now; id = id.now; text = text.now }) }
    ensures list { IfSome result (λ list.
        list ≡ record { messages = messages.now; id = id.now; text = text.now }) }
{
    let list = read_messages(reading_of(messages), bytes).ok()?;
    if list.has(messages, id, text) {
        Some(list)
    } else {
        None
    }
}

/// The number in the first two bytes, and the bytes after it.
#[inline(always)]
fn read_number(bytes: &[u8]) -> Result<(u16, &[u8]), MsgFault>
    ensures ok { IfOk result (λ x. bytes.now ≡ two_bytes x.0 ++ x.1.now) }
    ensures err { IfErr result (λ fault. (fault ≡ Message) × (length bytes.now < 2)) }
{
    match bytes {
        [high, low, rest @ ..] => Ok((number(*high, *low), rest)),
        _ => Err(MsgFault::Message),
    }
}

/// The config message that goes on so after its first byte, and the bytes after it.
#[inline(always)]
fn read_config(further: &[u8]) -> Result<(ReaderMsg, &[u8]), MsgFault>
    ensures bytes { IfOk result (λ x. 1 ∷ further.now ≡ head_bytes x.0 ++ x.1.now) }
    ensures text { IfOk result (λ x. (reading : Read) → IsTextOf reading x.0 [] x.1.now) }
    ensures err { IfErr result (λ fault. (fault ≡ Message) × (length further.now < 7)) }
{
    match further {
        [
            level,
            high,
            low,
            scale,
            decimals,
            response,
            options,
            rest @ ..,
        ] => {
            let config = ReaderMsg::Config {
                level: *level,
                code: number(*high, *low),
                scale: *scale,
                decimals: *decimals,
                response: *response,
                options: *options,
            };
            Ok((config, rest))
        }
        _ => Err(MsgFault::Message),
    }
}

/// The message 03 of a reading that goes on so after its first byte, and the bytes after it.
#[inline(always)]
fn read_session(reading: Reading, further: &[u8]) -> Result<(ReaderMsg, &[u8]), MsgFault>
    ensures bytes { IfOk result (λ x. 3 ∷ further.now ≡ head_bytes x.0 ++ x.1.now) }
    ensures text { IfOk result (λ x. IsTextOf reading x.0 [] x.1.now) }
    ensures err { IfErr result (λ fault. (fault ≡ Message)
        × (length further.now < session_bytes reading)) }
{
    if !reading.is_long {
        let (funds, rest) = read_number(further)?;
        return Ok((ReaderMsg::BeginSession { funds }, rest));
    }
    match further {
        [a, b, c, d, e, f, kind, g, h, rest @ ..] => {
            let session = ReaderMsg::BeginSessionLong {
                funds: number(*a, *b),
                media: long_number(number(*c, *d), number(*e, *f)),
                kind: *kind,
                details: number(*g, *h),
            };
            Ok((session, rest))
        }
        _ => Err(MsgFault::Message),
    }
}

/// The message 0B of a reading that goes on so after its first byte, and the bytes after it.
#[inline(always)]
fn read_out_of_sequence(reading: Reading, further: &[u8]) -> (ReaderMsg, &[u8])
    ensures bytes { 11 ∷ further.now ≡ head_bytes result.0 ++ result.1.now }
    ensures text { IsTextOf reading result.0 [] result.1.now }
{
    match further {
        [status, rest @ ..] if reading.is_long => (ReaderMsg::OutOfSequenceIn(*status), rest),
        _ => (ReaderMsg::OutOfSequence, further),
    }
}

/// The message of a reading that begins with `first`, 0C or above, and goes on with `further`, and
/// the bytes after it.
#[inline(always)]
fn read_above(reading: Reading, first: u8, further: &[u8]) -> Result<(ReaderMsg, &[u8]), MsgFault>
    requires { 12 ≤ first }
    ensures bytes { IfOk result (λ x. first ∷ further.now ≡ head_bytes x.0 ++ x.1.now) }
    ensures text { IfOk result (λ x. IsTextOf reading x.0 [] x.1.now) }
    ensures err { IfErr result (NoReaderMsg reading (first ∷ further.now)) }
{
    if reading.is_long && first == 0x11 {
        Ok((ReaderMsg::TimeAsked, further))
    } else {
        Err(MsgFault::Profile)
    }
}

/// The message of a reading without a text that begins with `first` and goes on with `further`,
/// and the bytes after it.
#[inline(always)]
fn read_short(reading: Reading, first: u8, further: &[u8]) -> Result<(ReaderMsg, &[u8]), MsgFault>
    requires no_display { first ≢ 2 }
    requires no_id { first ≢ 9 }
    ensures bytes { IfOk result (λ x. first ∷ further.now ≡ head_bytes x.0 ++ x.1.now) }
    ensures text { IfOk result (λ x. IsTextOf reading x.0 [] x.1.now) }
    ensures err { IfErr result (NoReaderMsg reading (first ∷ further.now)) }
{
    let message = match first {
        0x00 => ReaderMsg::JustReset,
        0x01 => return read_config(further),
        0x03 => return read_session(reading, further),
        0x04 => ReaderMsg::CancelRequest,
        0x05 => {
            let (amount, rest) = read_number(further)?;
            return Ok((ReaderMsg::VendApproved { amount }, rest));
        }
        0x06 => ReaderMsg::VendDenied,
        0x07 => ReaderMsg::EndSession,
        0x08 => ReaderMsg::Cancelled,
        0x0A => {
            let (code, rest) = further.split_first().ok_or(MsgFault::Message)?;
            return Ok((ReaderMsg::Malfunction(*code), rest));
        }
        0x0B => return Ok(read_out_of_sequence(reading, further)),
        _ => return read_above(reading, first, further),
    };
    Ok((message, further))
}

/// The message 09 of a reading that goes on so after its first byte, its text, and the bytes after
/// it.
#[inline(always)]
fn read_id(reading: Reading, further: &[u8]) -> Result<(ReaderMsg, &[u8], &[u8]), MsgFault>
    ensures bytes { IfOk result (λ x. 9 ∷ further.now ≡ head_bytes x.0 ++ x.1.now ++ x.2.now) }
    ensures text { IfOk result (λ x. IsTextOf reading x.0 x.1.now x.2.now) }
    ensures rest { IfOk result (λ x. length x.2.now ≤ length further.now) }
    ensures err { IfErr result (λ fault. (fault ≡ Message) × (length further.now < 29)) }
{
    if further.len() < 29 {
        return Err(MsgFault::Message);
    }
    let (id, rest) = further.split_at(29);
    match rest {
        [a, b, c, d, ..] if reading.ids.allows(*a) => {
            let options = long_number(number(*a, *b), number(*c, *d));
            let (text, rest) = further.split_at(33);
            Ok((ReaderMsg::PeripheralIdWithOptions { options }, text, rest))
        }
        _ => Ok((ReaderMsg::PeripheralId, id, rest)),
    }
}

/// The message of a reading that begins with `first` and goes on with `further`, its text, and the
/// bytes after it.
#[inline(always)]
fn read_message(
    reading: Reading,
    first: u8,
    further: &[u8],
) -> Result<(ReaderMsg, &[u8], &[u8]), MsgFault>
    ensures bytes { IfOk result (λ x. first ∷ further.now ≡ head_bytes x.0 ++ x.1.now ++ x.2.now) }
    ensures text { IfOk result (λ x. IsTextOf reading x.0 x.1.now x.2.now) }
    ensures rest { IfOk result (λ x. length x.2.now ≤ length further.now) }
    ensures err { IfErr result (NoReaderMsg reading (first ∷ further.now)) }
{
    match first {
        0x02 => match further {
            [time, text @ ..] if text.len() <= 32 => {
                Ok((ReaderMsg::Display { time: *time }, text, &[]))
            }
            _ => Err(MsgFault::Message),
        },
        0x09 => read_id(reading, further),
        _ => {
            let (message, rest) = read_short(reading, first, further)?;
            Ok((message, &[], rest))
        }
    }
}

/// The message at the front of bytes that are messages of a reading, its text, and the bytes after
/// it; `None` where none are left.
#[inline(always)]
fn next_message(reading: Reading, rest: &[u8]) -> Option<(ReaderMsg, &[u8], &[u8])>
    requires { StandAsMessages reading rest.now }
    ensures some { IfSome result (λ x. IsNextMessage reading rest.now x.0 x.1.now x.2.now) }
    ensures none { IsNone result → messages_of reading rest.now ≡ no_messages }
{
    let (first, further) = rest.split_first()?;
    read_message(reading, *first, further).ok()
}

/// The messages of a reading that these bytes are, or the fault of the leftmost that can't be
/// taken.
pub(crate) fn read_messages(reading: Reading, bytes: &[u8]) -> Result<ReaderList, MsgFault>
    requires { length bytes.now ≤ 35 }
    ensures fields { IfOk result IsReaderList }
    ensures reading { IfOk result (λ list. AreReaderMsgs reading list []) }
    ensures bytes { IfOk result (λ list. bytes.now ≡ reader_list_bytes list) }
    ensures err { IfErr result (ReaderStopsAt reading bytes.now) }
{
    let mut rest = bytes;
    let mut is_long = false;
    let mut ids = Ids::Bare;
    while let Some((first, further)) = rest.split_first() {
        let (message, _, after) = read_message(reading, *first, further)?;
        is_long |= message.has_long();
        ids = message.widened(ids);
        rest = after;
    }
    Ok(ReaderList {
        bytes: list_of(bytes),
        reading: Reading { is_long, ids },
    })
}
