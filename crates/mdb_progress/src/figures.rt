//! What the line says, in numbers and as text.

ghost use Rattle.std.specs.Prelude.{◌≡◌, ◌<◌, ◌≤◌, ◌*◌, ◌/◌, length, min};
ghost use Rattle.memchr.specs.Find.{is_byte, places};

use arrayvec::ArrayString;
use memchr::memchr_iter;
use std::fmt;
use std::fmt::Write;

/// The most bytes of a line, with those that move the cursor.
pub(crate) const LINE: usize = 96;

/// How many line feeds there are.
pub(crate) fn line_feeds(bytes: &[u8]) -> usize
    ensures count { result ≡ length (places (is_byte 10) bytes.now) }
{
    memchr_iter(b'\n', bytes).count()
}

/// How much of the whole a part is, in whole hundredths, cut off and not rounded. A part that is
/// more than the whole is all of it, as where a file grows while it is read.
pub(crate) fn percent_of(part: u64, whole: u64) -> u64
    ensures most { result ≤ 100 }
    ensures share { 0 < whole → result ≡ min 100 (100 * part / whole) }
{
    if whole == 0 {
        return 100;
    }
    (100 * u128::from(part) / u128::from(whole)).min(100) as u64
}

/// The line of a program by this name: how many rows it has read, and how much of its input, where
/// that is known. It rewrites the line that stands there.
///
/// # Errors
///
/// The name is too long.
pub(crate) fn line_of(
    name: &str,
    rows: u64,
    percent: Option<u64>,
) -> Result<ArrayString<LINE>, fmt::Error> {
    let mut line = ArrayString::new();
    write!(line, "\r{name}: {rows} rows read")?;
    if let Some(percent) = percent {
        write!(line, ", {percent}%")?;
    }
    write!(line, "\x1b[K")?;
    Ok(line)
}
