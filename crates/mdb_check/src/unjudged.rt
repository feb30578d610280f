//! Whether a no is judged.

ghost use Rattle.std.specs.Prelude.{◌≡◌};
ghost use Rattle.mdb_check.specs.Unjudged as spec;

use mdb_bus::{Blame, Levels, ReaderLevels, Rule};
use mdb_follow::Offence;
use mdb_msgs::ReaderUnit;

/// The reader of a no that isn't judged, where the recording begins while the machine was running
/// or doesn't, these levels were reported, and the last block of the controller begins with this
/// byte. `None` where the no is judged.
pub(crate) fn unjudged(
    joined: bool,
    reported: Levels,
    offence: Offence,
    begun: Option<u8>,
) -> Option<ReaderUnit>
    ensures { result ≡ spec.unjudged joined reported offence.rule offence.blame begun }
{
    if !joined {
        return None;
    }
    let begun = begun?;
    let unit = reader_of(begun)?;
    let levels = of_reader(unit, reported);
    if !is_of_level_1(levels)
        && depends_on_level(offence.rule, offence.blame, levels.asked, begun)
    {
        Some(unit)
    } else {
        None
    }
}

/// The reader whose block begins with a byte, by its address.
fn reader_of(byte: u8) -> Option<ReaderUnit>
    ensures { result ≡ spec.reader_of byte }
{
    match byte / 8 {
        2 => Some(ReaderUnit::First),
        12 => Some(ReaderUnit::Second),
        _ => None,
    }
}

/// Whether a block that begins with a byte is a SETUP or a VEND of a reader.
fn may_have_amounts(byte: u8) -> bool
    ensures { result ≡ spec.may_have_amounts byte }
{
    byte % 8 == 1 || byte % 8 == 3
}

/// The levels of one reader.
fn of_reader(unit: ReaderUnit, levels: Levels) -> ReaderLevels
    ensures { result ≡ spec.of_reader unit levels }
{
    match unit {
        ReaderUnit::First => levels.first,
        ReaderUnit::Second => levels.second,
    }
}

/// Whether a level is known, and below 2.
fn is_low(level: Option<u8>) -> bool
    ensures { result ≡ spec.is_low level }
{
    match level {
        Some(level) => level < 2,
        None => false,
    }
}

/// Whether a level is known, and at least 2.
fn is_high(level: Option<u8>) -> bool
    ensures { result ≡ spec.is_high level }
{
    match level {
        Some(level) => level >= 2,
        None => false,
    }
}

/// Whether a session with a reader is known to be of level 1.
fn is_of_level_1(levels: ReaderLevels) -> bool
    ensures { result ≡ spec.is_of_level_1 levels }
{
    is_low(levels.asked) || is_low(levels.told)
}

/// Whether a row that breaks a rule may be right at a higher level.
fn depends_on_level(rule: Rule, blame: Blame, level: Option<u8>, begun: u8) -> bool
    ensures { result ≡ spec.depends_on_level rule blame level begun }
{
    let is_controller = matches!(blame, Blame::Controller);
    match rule {
        Rule::Cashless | Rule::Message => true,
        Rule::Answer => !is_controller,
        Rule::Profile => !is_controller && !is_high(level),
        Rule::Sum | Rule::Mode => is_controller && may_have_amounts(begun),
        _ => false,
    }
}
