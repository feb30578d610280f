//! The words of a line.

use super::fault::MessageFault;
use super::head::{ends_at, mark_at};
use arrayvec::ArrayVec;
use mdb_import_shared::{behind_prefix, read_decimal, read_hex};
use mdb_words::Line;

/// The most words of a message: those of the longest block.
const MOST: usize = 36;

/// How many digits each word of a log has.
#[derive(Clone, Copy, PartialEq, Eq)]
enum Width {
    /// Two: the words are bytes.
    Two,
    /// Three.
    Three,
}

/// The words of a line, as far as they were read.
#[derive(Drop)]
pub(crate) struct Words {
    words: ArrayVec<u16, MOST>,
    // Whether they are decimal numbers.
    is_decimal: bool,
    // How many digits each word of the log has, once there was one.
    width: Option<Width>,
    // Whether the controller's messages show their mode bits, once one decides it.
    controller_shows: Option<bool>,
    // Whether those of peripherals do.
    peripheral_shows: Option<bool>,
    // Whether a mode bit is shown.
    has_mark: bool,
    // Whether a decimal number has three digits, and is no word in hexadecimal ones.
    has_large: bool,
    // Whether a word has another number of digits.
    are_mixed: bool,
    // Whether nothing says what some digits are.
    are_unparted: bool,
    // Whether there are more words than a message may have.
    are_many: bool,
}

impl Words {
    /// Before the first line of a log.
    pub(crate) fn new(is_decimal: bool) -> Words {
        Words {
            words: ArrayVec::new(),
            is_decimal,
            width: None,
            controller_shows: None,
            peripheral_shows: None,
            has_mark: false,
            has_large: false,
            are_mixed: false,
            are_unparted: false,
            are_many: false,
        }
    }

    /// The words that were read last.
    pub(crate) fn as_slice(&self) -> &[u16] {
        self.words.as_slice()
    }

    /// Reads the words of a text, in place of those that were read last.
    pub(crate) fn read(&mut self, text: &[u8]) -> Result<(), MessageFault> {
        self.words.clear();
        self.has_mark = false;
        let mut rest = text;
        for _ in 0..u64::MAX {
            if let Some((_, after)) = mark_at(rest) {
                rest = after;
                continue;
            }
            if rest.is_empty() {
                break;
            }
            rest = self.take(rest)?;
        }
        self.check()
    }

    /// Takes what comes next, and answers what follows it.
    fn take<'a>(&mut self, text: &'a [u8]) -> Result<&'a [u8], MessageFault> {
        let Some((digits, is_marked, rest)) = self.piece_at(text) else {
            return Err(self.no_words());
        };
        if self.is_decimal {
            self.add_decimal(digits, is_marked)?;
        } else {
            self.add_digits(digits, is_marked)?;
        }
        Ok(rest)
    }

    /// The digits that come next, whether a `*` shows their mode bit, and what follows; `None`
    /// where something else comes.
    fn piece_at<'a>(&self, text: &'a [u8]) -> Option<(&'a [u8], bool, &'a [u8])> {
        let (is_before, text) = match text {
            [b'*', text @ ..] => (true, text),
            _ => (false, text),
        };
        let text = match self.is_decimal {
            true => text,
            false => behind_prefix(text).unwrap_or(text),
        };
        let (digits, rest) = text.split_at(text.len().min(digits_in(text)));
        let (is_behind, rest) = match rest {
            [b'*', rest @ ..] => (true, rest),
            _ => (false, rest),
        };
        if digits.is_empty() || !ends_at(rest) || (is_before && is_behind) {
            return None;
        }
        Some((digits, is_before || is_behind, rest))
    }

    /// What is wrong where something else stands than words.
    fn no_words(&self) -> MessageFault {
        match self.is_decimal {
            true => MessageFault::BadDecimals,
            false => MessageFault::BadWords,
        }
    }

    /// Adds the word of decimal digits.
    fn add_decimal(&mut self, digits: &[u8], is_marked: bool) -> Result<(), MessageFault> {
        let mark = if is_marked { 256 } else { 0 };
        match read_decimal(digits) {
            Some(number) if number < 512 - mark => {
                self.has_large = self.has_large || (digits.len() == 3 && number >= 200);
                self.add_word(number | mark);
                Ok(())
            }
            _ => Err(MessageFault::BadDecimals),
        }
    }

    /// Adds the words of hexadecimal digits. Only a byte alone shows its mode bit.
    fn add_digits(&mut self, digits: &[u8], is_marked: bool) -> Result<(), MessageFault> {
        let width = match (digits.len() % 2 == 0, digits.len() % 3 == 0) {
            _ if is_marked && digits.len() != 2 => return Err(MessageFault::BadWords),
            (true, true) => self.width,
            (true, false) => Some(Width::Two),
            (false, true) => Some(Width::Three),
            (false, false) => return Err(MessageFault::BadWords),
        };
        match width {
            Some(width) => self.add(digits, width, is_marked)?,
            None => self.are_unparted = true,
        }
        Ok(())
    }

    /// Adds the words of digits of this width.
    fn add(&mut self, digits: &[u8], width: Width, is_marked: bool) -> Result<(), MessageFault> {
        self.are_mixed = self.are_mixed || *self.width.get_or_insert(width) != width;
        self.has_mark = self.has_mark || is_marked;
        let mark = if is_marked { 0x100 } else { 0 };
        let size = match width {
            Width::Two => 2,
            Width::Three => 3,
        };
        for word in digits.chunks(size) {
            match read_hex(word) {
                Some(word) if word < 512 => self.add_word(word | mark),
                _ => return Err(MessageFault::BadWords),
            }
        }
        Ok(())
    }

    /// Adds a word.
    fn add_word(&mut self, word: u16) {
        let is_full = self.words.try_push(word).is_err();
        self.are_many = self.are_many || is_full;
    }

    /// Refuses words that can't be those of a message.
    fn check(&self) -> Result<(), MessageFault> {
        if self.words.is_empty() && !self.are_unparted {
            Err(self.no_words())
        } else if self.are_mixed {
            Err(MessageFault::OtherDigits)
        } else if self.are_unparted {
            Err(MessageFault::Unparted)
        } else if self.are_many {
            Err(MessageFault::TooMany)
        } else {
            Ok(())
        }
    }

    /// Sets the mode bit of bytes where the bus has it, unless the messages of this line show it:
    /// on the first byte of the controller, but for an answer, and on the last of a peripheral.
    pub(crate) fn mark(&mut self, line: Line) -> Result<(), MessageFault> {
        if self.width != Some(Width::Two) {
            return Ok(());
        }
        let has_mark = self.has_mark;
        let shows = match (line, self.words.as_slice()) {
            (Line::Controller, [0x00 | 0xAA | 0xFF]) => return Ok(()),
            (Line::Controller, _) => *self.controller_shows.get_or_insert(has_mark),
            (Line::Peripheral, _) => *self.peripheral_shows.get_or_insert(has_mark),
        };
        if has_mark && !shows {
            return Err(MessageFault::OtherMarks);
        }
        match (line, self.words.as_mut_slice()) {
            _ if shows => {}
            (Line::Controller, [word, ..]) | (Line::Peripheral, [.., word]) => *word |= 0x100,
            _ => {}
        }
        Ok(())
    }
}

/// Whether what stands in place of words is words in decimal digits, of which one is none in
/// hexadecimal ones.
pub(crate) fn are_likely_decimal(text: &[u8]) -> bool {
    let mut words = Words::new(true);
    words.read(text).is_ok() && words.has_large
}

/// How many hexadecimal digits a text begins with.
fn digits_in(text: &[u8]) -> usize {
    for place in 0..text.len() {
        if !text[place].is_ascii_hexdigit() {
            return place;
        }
    }
    text.len()
}
