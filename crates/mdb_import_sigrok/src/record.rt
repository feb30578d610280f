//! The lines of a trace.

use super::fault::FormFault;
use super::moment::Moment;

/// A record: where something begins, or where it ends.
#[derive(Clone, Copy)]
pub(crate) struct Record<'a> {
    /// Whether it is the end.
    pub(crate) ends: bool,
    /// When that was.
    pub(crate) time: Moment,
    /// What it has after its time.
    pub(crate) names: Names<'a>,
    /// The text after it.
    pub(crate) rest: &'a [u8],
}

/// What a record has after its time.
#[derive(Clone, Copy)]
pub(crate) struct Names<'a> {
    /// The line, and some of what was seen.
    pub(crate) tid: &'a [u8],
    /// What was seen.
    pub(crate) name: &'a [u8],
    /// Whether a comma stands after it.
    pub(crate) more: bool,
    // All this as it stands there, with the line's end.
    text: &'a [u8],
    // Whether these are those of the record before it, as they stand there.
    repeats: bool,
}

impl Names<'_> {
    /// Whether these are the line and what was seen of a record before it.
    #[inline(always)]
    pub(crate) fn are_of(&self, before: &Names<'_>) -> bool {
        self.repeats || (self.tid == before.tid && self.name == before.name)
    }
}

/// The record of the first line of a text. Where the same stands after its time as after that of a
/// record before it, this isn't read again.
#[inline(always)]
pub(crate) fn record_of<'a>(
    text: &'a [u8],
    before: Option<Names<'a>>,
) -> Result<Record<'a>, FormFault> {
    let Some((ends, whole, part, behind)) = head_of(text) else {
        return Err(FormFault::NoRecord);
    };
    let Some((names, rest)) = names_behind(behind, before) else {
        return Err(FormFault::NoRecord);
    };
    match Moment::read(whole, part) {
        Ok(time) => Ok(Record {
            ends,
            time,
            names,
            rest,
        }),
        Err(fault) => Err(fault),
    }
}

/// Whether a record is an end, what stands before and after the point of its time, and what after
/// that.
#[inline(always)]
fn head_of(text: &[u8]) -> Option<(bool, &[u8], &[u8], &[u8])> {
    let (ends, behind) = match after(text, b"{\"ph\": \"")? {
        [b'B', behind @ ..] => (false, behind),
        [b'E', behind @ ..] => (true, behind),
        _ => return None,
    };
    let (whole, behind) = up_to(after(behind, b"\", \"ts\": ")?, b'.')?;
    if behind.len() < 6 {
        return None;
    }
    let (part, behind) = behind.split_at(6);
    Some((ends, whole, part, behind))
}

/// What stands after a time, and the text after it.
#[inline(always)]
fn names_behind<'a>(text: &'a [u8], before: Option<Names<'a>>) -> Option<(Names<'a>, &'a [u8])> {
    if let Some(names) = before {
        let length = names.text.len();
        if text.len() >= length {
            let (begin, rest) = text.split_at(length);
            if begin == names.text {
                return Some((
                    Names {
                        repeats: true,
                        ..names
                    },
                    rest,
                ));
            }
        }
    }
    names_of(text)
}

/// The same, where it has to be read.
fn names_of(text: &[u8]) -> Option<(Names<'_>, &[u8])> {
    let (tid, behind) = up_to(after(text, b", \"pid\": \"uart-1\", \"tid\": \"")?, b'"')?;
    let (name, behind) = up_to(after(behind, b", \"name\": \"")?, b'"')?;
    let (more, behind) = match behind {
        [b'}', b',', behind @ ..] => (true, behind),
        [b'}', behind @ ..] => (false, behind),
        _ => return None,
    };
    let rest = next_line(behind)?;
    let length = text.len().saturating_sub(rest.len());
    let names = Names {
        tid,
        name,
        more,
        text: &text[..length],
        repeats: false,
    };
    Some((names, rest))
}

/// What stands after the front of a text; `None` where it begins otherwise. It looks at all bytes
/// of the front, so that the code can take many at once.
#[inline(always)]
fn after<'a, const N: usize>(text: &'a [u8], front: &[u8; N]) -> Option<&'a [u8]> {
    if text.len() < N {
        return None;
    }
    let (begin, rest) = text.split_at(N);
    let mut same = true;
    for (byte, other) in begin.iter().zip(front.iter()) {
        same &= *byte == *other;
    }
    if same { Some(rest) } else { None }
}

/// A text up to the first byte of a value, and what stands after that; `None` where the byte
/// doesn't stand on the line.
#[inline(always)]
fn up_to(text: &[u8], byte: u8) -> Option<(&[u8], &[u8])> {
    for (index, other) in text.iter().enumerate() {
        if *other == byte {
            return Some((&text[..index], &text[index + 1..]));
        }
        if *other == b'\n' {
            return None;
        }
    }
    None
}

/// The text after the end of a line; `None` where the line goes on.
#[inline(always)]
fn next_line(text: &[u8]) -> Option<&[u8]> {
    match text {
        [b'\n', rest @ ..] | [b'\r', b'\n', rest @ ..] => Some(rest),
        [] | [b'\r'] => Some(&[]),
        _ => None,
    }
}

/// The text after the line that begins a trace; `None` where the first line is another one.
pub(crate) fn after_begin(text: &[u8]) -> Option<&[u8]> {
    next_line(after(text, b"{\"traceEvents\": [")?)
}

/// The text after the line that ends a trace; `None` where the first line is another one.
pub(crate) fn after_end(text: &[u8]) -> Option<&[u8]> {
    next_line(after(text, b"]}")?)
}
