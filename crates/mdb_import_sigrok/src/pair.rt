//! What the decoder saw: two records, one where it begins and one where it ends.

use super::fault::{FaultLine, FormFault, OrderFault, SigrokFault};
use super::moment::Moment;
use super::record::{Names, Record, record_of};
use mdb_import_shared::read_hex;
use mdb_words::{Line, Word};

/// What may be seen on a line.
#[derive(Clone, Copy)]
pub(crate) enum What {
    /// The start bit of a word.
    Start,
    /// The nine data bits of a word.
    Data(Word),
    /// The stop bit is low, or the start bit is none.
    FrameError,
    /// A break, once the line is high again.
    BreakEnd,
    /// Something else, and why it can't be there.
    Other(OrderFault),
}

/// Something that was seen on a line, from when to when.
#[derive(Clone, Copy)]
pub(crate) struct Pair<'a> {
    /// The number of its first record.
    pub(crate) number: u64,
    /// On which line.
    pub(crate) line: Line,
    /// What it was.
    pub(crate) what: What,
    /// When it began.
    pub(crate) from: Moment,
    /// When it ended.
    pub(crate) to: Moment,
    /// Whether more of the trace follows.
    pub(crate) more: bool,
    /// The text after it.
    pub(crate) rest: &'a [u8],
}

/// The next two records of a trace, of which the first has this number.
#[inline(always)]
pub(crate) fn next_pair(swap: bool, text: &[u8], number: u64) -> Result<Pair<'_>, SigrokFault> {
    let first = match record_at(text, None, number) {
        Ok(first) => first,
        Err(fault) => return Err(fault),
    };
    if first.ends {
        return Err(unknown(number, &first, OrderFault::EndFirst));
    }
    if !first.names.more && !first.rest.is_empty() {
        return Err(form(number.saturating_add(1), FormFault::NoEnd));
    }
    let second = match record_at(first.rest, Some(first.names), number.saturating_add(1)) {
        Ok(second) => second,
        Err(fault) => return Err(fault),
    };
    if !second.ends || !second.names.are_of(&first.names) {
        return Err(unknown(number, &first, OrderFault::NoSecond));
    }
    let Some((line, row)) = line_of(swap, first.names.tid) else {
        return Err(unknown(number, &first, OrderFault::Kind));
    };
    Ok(Pair {
        number,
        line,
        what: what_of(row, first.names.name),
        from: first.time,
        to: second.time,
        more: second.names.more,
        rest: second.rest,
    })
}

/// The record of this number, which stands on the first line of a text.
#[inline(always)]
fn record_at<'a>(
    text: &'a [u8],
    before: Option<Names<'a>>,
    number: u64,
) -> Result<Record<'a>, SigrokFault> {
    if text.is_empty() {
        return Err(form(number, FormFault::Cut));
    }
    match record_of(text, before) {
        Ok(record) => Ok(record),
        Err(fault) => Err(form(number, fault)),
    }
}

/// A fault of a line.
pub(crate) fn form(number: u64, fault: FormFault) -> SigrokFault {
    SigrokFault::Form { number, fault }
}

/// A fault of a record whose line isn't known.
fn unknown(number: u64, record: &Record<'_>, fault: OrderFault) -> SigrokFault {
    SigrokFault::Order {
        number,
        micros: record.time.time().value(),
        line: FaultLine::Unknown,
        fault,
    }
}

/// The line of `tid`, and what stands after its channel.
#[inline(always)]
fn line_of(swap: bool, tid: &[u8]) -> Option<(Line, &[u8])> {
    let (is_sent, row) = match tid {
        [b'T', b'X', row @ ..] => (!swap, row),
        [b'R', b'X', row @ ..] => (swap, row),
        _ => return None,
    };
    let line = if is_sent {
        Line::Controller
    } else {
        Line::Peripheral
    };
    Some((line, row))
}

/// What was seen, by what stands in `tid` after the channel, and by `name`.
#[inline(always)]
fn what_of(row: &[u8], name: &[u8]) -> What {
    if !row.is_empty() {
        return warning_of(row, name);
    }
    match name {
        [_, _, _] => word_of(name),
        _ if name == b"Start bit".as_slice() => What::Start,
        _ => What::Other(fault_of(name)),
    }
}

/// What was seen that is no bit of a word.
fn warning_of(row: &[u8], name: &[u8]) -> What {
    if row == b" warnings".as_slice() && name == b"Frame error".as_slice() {
        What::FrameError
    } else if row == b" break".as_slice() && name == b"Break condition".as_slice() {
        What::BreakEnd
    } else {
        What::Other(OrderFault::Kind)
    }
}

/// What was seen of a word, of whose name this is known: it has three bytes.
fn word_of(name: &[u8]) -> What {
    if !are_digits(name) {
        return What::Other(OrderFault::Kind);
    }
    match read_hex(name).and_then(Word::new) {
        Some(word) => What::Data(word),
        None => What::Other(OrderFault::LargeWord),
    }
}

/// Why a name of more or fewer bytes is none of a word or its start.
fn fault_of(name: &[u8]) -> OrderFault {
    if name == b"Parity error".as_slice() {
        OrderFault::Parity
    } else if name.is_empty() || !are_digits(name) {
        OrderFault::Kind
    } else {
        OrderFault::WordDigits
    }
}

/// Whether all bytes are hexadecimal digits, the letters great.
fn are_digits(name: &[u8]) -> bool {
    name.iter()
        .all(|it| matches!(*it, b'0'..=b'9' | b'A'..=b'F'))
}
