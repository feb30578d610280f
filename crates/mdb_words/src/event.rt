//! What a recorder saw: a word or a break, and the row of each.

ghost use Rattle.std.specs.Prelude.{◌≡◌, ◌≢◌, ◌<◌, ◌≤◌, ◌^◌, ◌↔◌, ◌∷◌, length, [], List, ℕ, All, map, IfSome, IfNone, IfOk, IfErr, IsTrue, Ok};
ghost use Rattle.mdb_words.specs.Event.{AtLeast, AtMost, IsGap, start_of, end_of};
ghost use Rattle.mdb_words.specs.Row.{IsRow, break_letter, letter_of};
ghost use Rattle.mdb_words.specs.RowsWritten.{IsFieldByte, joined_by_commas, row_fields};
ghost use Rattle.mdb_words.specs.Refusals.{IsRefusal, Tells};
ghost use Rattle.mdb_words.specs.Digits.{IsDecimal};
ghost use Rattle.mdb_words.specs.declared.word.Line.{Line};

use super::digits::{push_decimal, push_hex_word};
use super::row::RowFault;
use super::time::{Span, Time};
use super::word::{Line, Word};
use arrayvec::ArrayString;

/// A row of a recording: a word or a break (this profile).
#[derive(Clone, Copy, PartialEq, Eq, Debug)]
pub enum Event {
    /// A word: when it started, and on which line.
    Word {
        /// When its first bit started.
        at: Time,
        /// On which line.
        line: Line,
        /// Its nine bits.
        word: Word,
    },
    /// A break: when the controller's line went low, and for how long it stayed low.
    Break {
        /// When it started.
        at: Time,
        /// How long it lasted.
        length: Span,
    },
}

impl Event {
    /// Reads the fields of a row (this profile). A row has three fields:
    ///
    /// - the start in microseconds, 1 to 18 decimal digits;
    /// - `M`, `S` or `B`: a word of the controller, a word of a peripheral, or a break;
    /// - a word as three hexadecimal digits up to 1FF, or the length of a break in microseconds as
    ///   1 to 9 decimal digits.
    ///
    /// # Errors
    ///
    /// The first fault in the order of [`RowFault`].
    #[inline(always)]
    pub fn read(fields: &[&[u8]]) -> Result<Event, RowFault>
        ensures ok { IfOk result (IsRow (map (λ f. f.now) fields.now)) }
        ensures only { (event : Event) →
            IsRow (map (λ f. f.now) fields.now) event → result ≡ Ok event }
        ensures err { IfErr result (IsRefusal (map (λ f. f.now) fields.now)) }
    {
        let &[time, letter, value] = fields else {
            return Err(RowFault::FieldCount);
        };
        let at = Time::read(time).ok_or(RowFault::BadTime)?;
        Event::read_at(at, letter, value)
    }

    /// The event that starts at a time, by the letter and the value of its row.
    #[inline(always)]
    fn read_at(at: Time, letter: &[u8], value: &[u8]) -> Result<Event, RowFault>
        ensures { (time : List ℕ) →
            IsDecimal 18 time at → Tells result (time ∷ letter.now ∷ value.now ∷ []) }
    {
        if let Some(line) = line_of(letter) {
            Event::read_word(at, line, value)
        } else if is_break(letter) {
            Event::read_break(at, value)
        } else {
            Err(RowFault::BadLine)
        }
    }

    /// The word that starts at a time on a line, by the value of its row.
    #[inline(always)]
    fn read_word(at: Time, line: Line, value: &[u8]) -> Result<Event, RowFault>
        ensures { (time : List ℕ) → IsDecimal 18 time at →
            Tells result (time ∷ (letter_of line ∷ []) ∷ value.now ∷ []) }
    {
        let word = Word::read(value).ok_or(RowFault::BadValue)?;
        Ok(Event::Word { at, line, word })
    }

    /// The break that starts at a time, by the value of its row. Breaks are rare, so this is kept
    /// out of the way of words.
    #[inline(never)]
    fn read_break(at: Time, value: &[u8]) -> Result<Event, RowFault>
        ensures { (time : List ℕ) → IsDecimal 18 time at →
            Tells result (time ∷ (break_letter ∷ []) ∷ value.now ∷ []) }
    {
        let length = Span::read(value).ok_or(RowFault::BadValue)?;
        Ok(Event::Break { at, length })
    }

    /// The text of the row (this profile): start, letter and value, with commas between them and no
    /// line feed. Numbers have no leading zeros. A word is always three hexadecimal digits, in
    /// capitals. [`Event::read`] reads the fields of this text as the same event.
    pub fn row_text(&self) -> ArrayString<32>
        ensures text { result.bytes ≡ joined_by_commas (row_fields self.now) }
        ensures row { IsRow (row_fields self.now) self.now }
        ensures apart { All (All IsFieldByte) (row_fields self.now) }
        ensures short { length result.bytes ≤ 30 }
    {
        let mut text = ArrayString::new();
        push_decimal(&mut text, self.start().value());
        match *self {
            Event::Word { line, word, .. } => {
                text.push_str(match line {
                    Line::Controller => ",M,",
                    Line::Peripheral => ",S,",
                });
                push_hex_word(&mut text, word.value());
            }
            Event::Break { length, .. } => {
                text.push_str(",B,");
                push_decimal(&mut text, length.value());
            }
        }
        text
    }

    /// When the event started.
    pub fn start(&self) -> Time
        ensures { result ≡ start_of self.now }
    {
        match *self {
            Event::Word { at, .. } => at,
            Event::Break { at, .. } => at,
        }
    }

    /// From when the gap to a later event is counted, in microseconds: the start of a word, the end
    /// of a break.
    fn end(&self) -> u64
        ensures value { result ≡ end_of self.now }
        ensures range { result < 2 ^ 60 }
    {
        match *self {
            Event::Word { at, .. } => at.value(),
            Event::Break { at, length } => at.value() + length.value(),
        }
    }
}

/// The line that each letter from `M` to `S` tells. Looked up, since which of the two it is can't
/// be foreseen, and a processor loses time where it foresees wrongly.
static LINES: [Option<Line>; 7] = [
    Some(Line::Controller),
    None,
    None,
    None,
    None,
    None,
    Some(Line::Peripheral),
];

/// The line of a row's letter. `None` if the letter is that of no line.
#[inline(always)]
fn line_of(letter: &[u8]) -> Option<Line>
    ensures some { IfSome result (λ line. letter.now ≡ letter_of line ∷ []) }
    ensures none { IfNone result ((line : Line) → letter.now ≢ letter_of line ∷ []) }
{
    match letter {
        [letter @ b'M'..=b'S'] => LINES[usize::from(*letter - b'M')],
        _ => None,
    }
}

/// Whether the letter of a row is that of a break.
#[inline(always)]
fn is_break(letter: &[u8]) -> bool
    ensures { IsTrue result ↔ (letter.now ≡ break_letter ∷ []) }
{
    matches!(letter, [b'B'])
}

/// The microseconds from one event to a later one (this profile). They count from the start of a
/// word, or from the end of a break, to the start of the later event. `None` if the later event
/// starts before that.
pub fn gap_of(earlier: &Event, later: &Event) -> Option<u64>
    ensures some { IfSome result (λ gap. IsGap earlier.now later.now gap) }
    ensures none { IfNone result (start_of later.now < end_of earlier.now) }
{
    later.start().value().checked_sub(earlier.end())
}

/// Whether the later event starts at least `least` microseconds after the earlier one (this
/// profile). They count from the start of a word, or from the end of a break.
pub fn is_at_least(earlier: &Event, later: &Event, least: u64) -> bool
    requires { least < 2 ^ 32 }
    ensures { IsTrue result ↔ AtLeast least earlier.now later.now }
{
    earlier.end() + least <= later.start().value()
}

/// Whether the later event starts at most `most` microseconds after the earlier one (this profile).
/// They count from the start of a word, or from the end of a break. An event that starts before
/// that also counts.
pub fn is_at_most(earlier: &Event, later: &Event, most: u64) -> bool
    requires { most < 2 ^ 32 }
    ensures { IsTrue result ↔ AtMost most earlier.now later.now }
{
    later.start().value() <= earlier.end() + most
}
