// A record at the front of a text that stands on a line of its own, with no quote.

ghost use Rattle.std.specs.Prelude.{◌≡◌, ◌≤◌, ◌==◌, ◌||◌, ◌++◌, ◌∷◌, All, [], false, true, length};
ghost use Rattle.std.specs.Prelude.{ℕ, Ok, take, OnOk, IfOk};
ghost use Rattle.mdb_records.specs.Parts.{AreWithin, parted};
ghost use Rattle.mdb_records.specs.Plain.{HasFront, Means, is_special};

use std::alloc::AllocError;

/// What stands at the front of a text.
#[derive(Clone, Copy)]
pub(crate) enum Front {
    /// A line of so many bytes that is a record, with its end, LF.
    Line(usize),
    /// No end of a line, as far as the text goes.
    Unended,
    /// A quote, CR, or a line with nothing on it.
    Other,
}

/// What a byte is to a record that has come so far.
#[derive(Clone, Copy)]
enum Meaning {
    /// It means itself alone.
    Own,
    /// It ends a field.
    Comma,
    /// It ends a field, and the record with its line.
    LineEnd,
    /// Only csv tells.
    Other,
}

// Whether a byte below a comma means more to csv than itself.
// Not inlined, so that the bytes of most rows are told apart by two comparisons, and not by a jump
// that can't be foreseen.
#[inline(never)]
fn is_special_below_comma(c: u8) -> bool
    ensures { result ≡ (c == 34) || (c == 13) || (c == 10) }
{
    c == b'"' || c == b'\r' || c == b'\n'
}

// What the byte at a place is to the record that begins the text.
#[inline(always)]
fn meaning_of(c: u8, place: usize) -> Meaning
    ensures { Means c place result }
{
    // Most bytes of a table stand above all that mean something to csv.
    if c > b',' {
        Meaning::Own
    } else if c == b',' {
        Meaning::Comma
    } else if c == b'\n' && place > 0 {
        Meaning::LineEnd
    } else if is_special_below_comma(c) {
        Meaning::Other
    } else {
        Meaning::Own
    }
}

// Whether a byte stands above all that mean something to csv.
#[inline(always)]
fn is_above(c: u8) -> bool
    ensures { result ≡ true → is_special c ≡ false }
{
    c > b','
}

// How many of the first bytes of a text are sure to mean themselves alone: eight, or none.
// The eight are compared at once, as a vector.
#[inline(always)]
fn sure_bytes(text: &[u8]) -> usize
    ensures bounds { result ≤ length text.now }
    ensures plain { All (λ c. is_special c ≡ false) (take result text.now) }
{
    let Some([a, b, c, d, e, f, g, h]) = text.first_chunk::<8>() else {
        return 0;
    };
    let first = is_above(*a) & is_above(*b) & is_above(*c) & is_above(*d);
    let last = is_above(*e) & is_above(*f) & is_above(*g) & is_above(*h);
    if first & last { 8 } else { 0 }
}

// Puts the end of a field after those before it.
#[inline(always)]
fn add_end(ends: &mut Vec<usize>, end: usize) -> Result<(), AllocError>
    ensures { OnOk result (ends.new.items ≡ ends.old.items ++ end ∷ []) }
{
    ends.reserve(1)?;
    ends.push_reserved(end);
    Ok(())
}

/// Finds where the fields of the record at the front of a text end, if it is a whole line and csv
/// would find in it what its commas part.
#[inline(always)]
pub(crate) fn plain_record(text: &[u8], ends: &mut Vec<usize>) -> Result<Front, AllocError>
    ensures front { IfOk result (λ front.
        HasFront text.now front (parted 0 ends.new.items text.now)) }
    ensures within { (count : ℕ) → result ≡ Ok (Front.Line count)
        → AreWithin ends.new.items count }
{
    ends.clear();
    let mut end = sure_bytes(text);
    'bytes: while end < text.len() {
        match meaning_of(text[end], end) {
            Meaning::Own => {}
            Meaning::Comma => add_end(ends, end)?,
            Meaning::LineEnd => {
                add_end(ends, end)?;
                return Ok(Front::Line(end + 1));
            }
            Meaning::Other => return Ok(Front::Other),
        }
        end += 1;
    }
    Ok(Front::Unended)
}
