//! The values of `--setup`.

ghost use Rattle.std.specs.Prelude.{◌<◌, IfSome};

use super::refusal::{Refusal, SetupFault};
use mdb_bus::{Levels, Profile};
use mdb_msgs::{Device, DeviceSet, ReaderUnit, Setups, read_command};
use mdb_words::{Block, BlockFault, unseal, whole_number};
use std::alloc::Global;

/// What the values of `--setup` give.
#[derive(Drop)]
pub(crate) struct Given {
    /// The setup data.
    pub(crate) setups: Setups,
    /// The feature levels (Z2) of the readers whose answer begins with a config message of level 1,
    /// or of level 0, which counts as 1. Other levels aren't among them.
    pub(crate) readers: Levels,
}

/// What these values give by a profile, where these devices are left out.
pub(crate) fn given_by<'a>(
    alloc: Global,
    profile: Profile,
    left_out: DeviceSet,
    texts: &[&'a str],
) -> Result<Given, Refusal<'a>> {
    let mut given = Given {
        setups: Setups::NONE,
        readers: Levels::NONE,
    };
    for text in texts {
        if let Err(fault) = add_value(alloc, profile, left_out, &mut given, text) {
            return Err(Refusal::Setup(text, fault));
        }
    }
    Ok(given)
}

/// Adds what one value more gives.
fn add_value(
    alloc: Global,
    profile: Profile,
    left_out: DeviceSet,
    given: &mut Given,
    text: &str,
) -> Result<(), SetupFault> {
    if let Some((unit, level)) = level_in(profile, text) {
        return add_level(left_out, &mut given.setups, unit, level);
    }
    let (device, bytes) = block_of(alloc, words_in(profile, text))?;
    if left_out.has(device) {
        return Err(SetupFault::LeftOut);
    }
    if is_asked(profile, device, bytes.as_slice()) {
        add_ask(&mut given.setups, device, bytes.as_slice())
    } else {
        add_answer(profile, given, device, bytes.as_slice())
    }
}

/// Adds the level of a reader.
fn add_level(
    left_out: DeviceSet,
    setups: &mut Setups,
    unit: ReaderUnit,
    level: u8,
) -> Result<(), SetupFault> {
    if left_out.has(Device::Reader(unit)) {
        return Err(SetupFault::LeftOut);
    }
    if setups.reader(unit).asked.is_some() {
        return Err(SetupFault::Twice);
    }
    setups.set_level(unit, level);
    Ok(())
}

/// Whether a block of a device is one of the controller to it: by the extended profile each that
/// begins as the controller's SETUP or EXPANSION to a reader. No answer of a reader does.
fn is_asked(profile: Profile, device: Device, bytes: &[u8]) -> bool {
    match (profile, device, bytes) {
        (Profile::Extended, Device::Reader(unit), [first, ..]) => {
            *first == unit.address() + 1 || *first == unit.address() + 7
        }
        _ => false,
    }
}

/// Adds what a device's answer to SETUP reports.
fn add_answer(
    profile: Profile,
    given: &mut Given,
    device: Device,
    bytes: &[u8],
) -> Result<(), SetupFault> {
    if given.setups.has_answer(device) {
        return Err(SetupFault::Twice);
    }
    let answer = sealed(bytes)?;
    let is_extended = profile == Profile::Extended;
    if !given.setups.learn(is_extended, device, &answer) {
        return Err(SetupFault::NoAnswer);
    }
    match (device, bytes) {
        (Device::Reader(ReaderUnit::First), [1, 0 | 1, ..]) => given.readers.first.told = Some(1),
        (Device::Reader(ReaderUnit::Second), [1, 0 | 1, ..]) => given.readers.second.told = Some(1),
        _ => {}
    }
    Ok(())
}

/// Adds what a block of the controller to a reader reports.
fn add_ask(setups: &mut Setups, device: Device, bytes: &[u8]) -> Result<(), SetupFault> {
    let block = sealed(bytes)?;
    let Ok(command) = read_command(&block) else {
        return Err(SetupFault::NoAsk);
    };
    if command.device() != device {
        return Err(SetupFault::NoAsk);
    }
    if command.enables_more() {
        return Err(SetupFault::OtherMoney(device));
    }
    if setups.has_ask(&command) {
        return Err(SetupFault::Twice);
    }
    if setups.learn_ask(&command) {
        Ok(())
    } else {
        Err(SetupFault::NoAsk)
    }
}

/// The block of these bytes.
fn sealed(bytes: &[u8]) -> Result<Block, SetupFault> {
    match unseal(bytes) {
        Ok(block) => Ok(block),
        Err(BlockFault::BadSum) => Err(SetupFault::Sum),
        Err(_) => Err(SetupFault::NoAnswer),
    }
}

/// The reader and the level that a value gives, by the extended profile.
fn level_in(profile: Profile, text: &str) -> Option<(ReaderUnit, u8)> {
    if profile == Profile::Base {
        return None;
    }
    match text {
        "cashless level 1" => Some((ReaderUnit::First, 1)),
        "cashless level 2" => Some((ReaderUnit::First, 2)),
        "cashless level 3" => Some((ReaderUnit::First, 3)),
        "cashless-2 level 1" => Some((ReaderUnit::Second, 1)),
        "cashless-2 level 2" => Some((ReaderUnit::Second, 2)),
        "cashless-2 level 3" => Some((ReaderUnit::Second, 3)),
        _ => None,
    }
}

/// What a value has after the rows and the word of a line of `show`, as far as it has them.
fn words_in(profile: Profile, text: &str) -> &str {
    let line = after_rows(text).unwrap_or(text);
    after_word(profile, line).unwrap_or(text)
}

/// What a line has after the word of a reply, or, by the extended profile, of a command.
fn after_word(profile: Profile, line: &str) -> Option<&str> {
    match (profile, line.strip_prefix("reply ")) {
        (_, Some(words)) => Some(words),
        (Profile::Extended, None) => line.strip_prefix("ask "),
        (Profile::Base, None) => None,
    }
}

/// What stands after the rows in front of a line of `show`.
fn after_rows(text: &str) -> Option<&str> {
    let (rows, line) = text.split_once(' ')?;
    let (first, last) = rows.split_once('-')?;
    if is_row(first) && is_row(last) {
        Some(line)
    } else {
        None
    }
}

/// Whether a word is the number of a row.
fn is_row(word: &str) -> bool {
    whole_number(word.as_bytes()).is_some()
}

/// The device and the bytes that these words name, as `show` writes them.
fn block_of(alloc: Global, text: &str) -> Result<(Device, Vec<u8>), SetupFault> {
    let (word, rest) = text.split_once(' ').ok_or(SetupFault::Form)?;
    let device = Device::named(word).ok_or(SetupFault::Form)?;
    let mut bytes = Vec::new(alloc);
    for glyphs in rest.split(' ') {
        let byte = byte_in(glyphs.as_bytes()).ok_or(SetupFault::Form)?;
        if bytes.push(byte).is_err() {
            return Err(SetupFault::Memory);
        }
    }
    Ok((device, bytes))
}

/// The byte that is written in these two digits.
fn byte_in(glyphs: &[u8]) -> Option<u8> {
    match glyphs {
        [high, low] => Some(digit_in(*high)? * 16 + digit_in(*low)?),
        _ => None,
    }
}

/// The digit below 16 that is written so.
fn digit_in(glyph: u8) -> Option<u8>
    ensures { IfSome result (λ digit. digit < 16) }
{
    match glyph {
        b'0'..=b'9' => Some(glyph - b'0'),
        b'A'..=b'F' => Some(glyph - b'A' + 10),
        _ => None,
    }
}
