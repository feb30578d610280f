//! The options of a check, as the page gives them.

ghost use Rattle.std.specs.Prelude.{◌≡◌, ◌≤◌, ◌↔◌, take, IfNone, IfSome, IsTrue, if◌then◌else◌, true, false};
ghost use Rattle.mdb_words.specs.BlockFaults.{IsBlock};
ghost use Rattle.mdb_bus.specs.declared.scope.Scope.{Scope};
ghost use Rattle.mdb_msgs.specs.Settings.{with_device, nothing_known};
ghost use Rattle.mdb_msgs.specs.declared.setups.Setups.{Setups};
ghost use Rattle.mdb_page.specs.Options.{Adds, AddsAsk, AddsLevel, AddsTold, AreAnswers, AreSetups, AreTold, GivesNone};
ghost use Rattle.mdb_page.specs.Options.{GivesNothing, IsTakenSo, IsTold, TellsNothing, both, devices_of, profile_by, reader_with};

use mdb_bus::{Profile, Scope};
use mdb_msgs::{Device, DeviceSet, ReaderSetup, ReaderUnit, Setups, laws, read_command};
use mdb_words::{Block, unseal};

/// A device's answer to SETUP, or a block of the controller to a reader: a whole block, with its
/// sum at the end.
#[repr(C)]
#[derive(Clone, Copy)]
pub struct PageSetup {
    /// The number of its bytes; 0 if it isn't given.
    pub count: u8,
    /// Its bytes, at the beginning of this array.
    pub bytes: [u8; 36],
}

impl PageSetup {
    /// It isn't given.
    pub const NONE: PageSetup = PageSetup {
        count: 0,
        bytes: [0; 36],
    };
}

/// What is known of a reader's feature level and options, for the extended profile. The level and
/// the block of SETUP config don't go together.
#[repr(C)]
#[derive(Clone, Copy)]
pub struct PageReader {
    /// The feature level that the controller and the reader reported to each other, 1 to 3; 0 if it
    /// isn't given.
    pub level: u8,
    /// The controller's block of SETUP config.
    pub config: PageSetup,
    /// Its block of ENABLE OPTIONS.
    pub options: PageSetup,
}

impl PageReader {
    /// Nothing is known.
    pub const NONE: PageReader = PageReader {
        level: 0,
        config: PageSetup::NONE,
        options: PageSetup::NONE,
    };
}

/// The options of a check.
#[repr(C)]
#[derive(Drop)]
pub struct PageOptions {
    /// Not 0: the recording begins while the machine was running.
    pub joined: u8,
    /// Not 0: the extended profile is followed.
    pub extended: u8,
    /// Not 0: this device is left out. The order is that of a report: the changer, the bill
    /// validator, the cashless reader at 10H, the cashless reader at 60H.
    pub without: [u8; 4],
    /// The devices' answers to SETUP in an earlier recording, in that order.
    pub setups: [PageSetup; 4],
    /// What is known of the two readers, for a recording that begins while the machine was running,
    /// by the extended profile.
    pub readers: [PageReader; 2],
}

impl PageOptions {
    /// From power-on, with all devices, by the base profile.
    pub const POWER_ON: PageOptions = PageOptions {
        joined: 0,
        extended: 0,
        without: [0; 4],
        setups: [PageSetup::NONE; 4],
        readers: [PageReader::NONE; 2],
    };
}

/// The scope that the options name. `None` if an answer to SETUP or a block of the controller is
/// none, if a level is above 3 or stands beside a block that tells one, or if a block enables money
/// of 32 bits or several currencies. `None` too if something is given of a device that is left out,
/// for a recording from power-on, or of a reader's level or options for the base profile.
pub(crate) fn taken_so(options: &PageOptions) -> Option<Scope>
    ensures taken { IfSome result (IsTakenSo options.now) }
    ensures refused { IfNone result ((scope : Scope) → IsTakenSo options.now scope → ⊥) }
{
    let without = left_out(&options.without);
    let profile = profile_asked(options);
    if options.joined == 0 {
        if !gives_none(&options.setups) || !tell_nothing(&options.readers) {
            return None;
        }
        return Some(Scope::from_power_on(profile, without));
    }
    if profile == Profile::Base && !tell_nothing(&options.readers) {
        return None;
    }
    let Some(setups) = setups_of(without, options) else {
        return None;
    };
    Some(Scope::joined_by(profile, setups, without))
}

/// The profile that the options ask for.
pub(crate) fn profile_asked(options: &PageOptions) -> Profile
    ensures { result ≡ profile_by options.now.extended }
{
    if options.extended != 0 {
        Profile::Extended
    } else {
        Profile::Base
    }
}

/// The devices that are marked.
fn left_out(marks: &[u8; 4]) -> DeviceSet
    ensures { result ≡ devices_of marks.now }
{
    let first = with_if(DeviceSet::NONE, Device::Changer, marks[0] != 0);
    let second = with_if(first, Device::Bill, marks[1] != 0);
    let third = with_if(second, Device::Reader(ReaderUnit::First), marks[2] != 0);
    with_if(third, Device::Reader(ReaderUnit::Second), marks[3] != 0)
}

/// A set, with a device more where it is wanted.
fn with_if(set: DeviceSet, device: Device, is_wanted: bool) -> DeviceSet
    ensures { result ≡ (if is_wanted then with_device set device else set) }
{
    if is_wanted { set.with(device) } else { set }
}

/// Whether no answer to SETUP is given.
fn gives_none(answers: &[PageSetup; 4]) -> bool
    ensures { IsTrue result ↔ GivesNone answers.now }
{
    answers[0].count == 0 && answers[1].count == 0 && answers[2].count == 0 && answers[3].count == 0
}

/// Whether nothing is given of a reader's level and options.
fn tells_nothing(reader: &PageReader) -> bool
    ensures { IsTrue result ↔ TellsNothing reader.now }
{
    reader.level == 0 && reader.config.count == 0 && reader.options.count == 0
}

/// Whether nothing is given of the levels and options of both.
fn tell_nothing(readers: &[PageReader; 2]) -> bool
    ensures { IsTrue result ↔ GivesNothing readers.now }
{
    tells_nothing(&readers[0]) && tells_nothing(&readers[1])
}

/// What is known by the answers to SETUP, and by what is given of the readers.
fn setups_of(without: DeviceSet, options: &PageOptions) -> Option<Setups>
    ensures told { IfSome result (AreSetups without options.now) }
    ensures refused { IfNone result ((setups : Setups) → AreSetups without options.now setups → ⊥) }
{
    let Some(answers) = answers_of(options.extended != 0, without, &options.setups) else {
        return None;
    };
    let mut told = Setups::NONE;
    if !add_readers(&mut told, without, &options.readers) {
        return None;
    }
    Some(both(&answers, &told))
}

/// What is known by answers, and by what is told of the readers.
fn both(answers: &Setups, told: &Setups) -> Setups
    ensures { result ≡ both answers.now told.now }
{
    let mut setups = answers.copy();
    setups.first_reader = reader_with(answers.first_reader, told.first_reader);
    setups.second_reader = reader_with(answers.second_reader, told.second_reader);
    setups
}

/// What is known of a reader by its answer, and by what is told of it.
fn reader_with(answer: ReaderSetup, told: ReaderSetup) -> ReaderSetup
    ensures { result ≡ reader_with answer told }
{
    ReaderSetup {
        config: answer.config,
        asked: told.asked,
        told: told.told.or(answer.told),
        features: told.features,
    }
}

/// What is known by the answers to SETUP.
fn answers_of(is_extended: bool, without: DeviceSet, answers: &[PageSetup; 4]) -> Option<Setups>
    ensures told { IfSome result (AreAnswers is_extended without answers.now) }
    ensures refused { IfNone result ((setups : Setups)
        → AreAnswers is_extended without answers.now setups → ⊥) }
{
    let Some(changer) = answer_of(is_extended, without, Device::Changer, &answers[0]) else {
        return None;
    };
    let Some(bill) = answer_of(is_extended, without, Device::Bill, &answers[1]) else {
        return None;
    };
    let first = Device::Reader(ReaderUnit::First);
    let Some(first) = answer_of(is_extended, without, first, &answers[2]) else {
        return None;
    };
    let second = Device::Reader(ReaderUnit::Second);
    let Some(second) = answer_of(is_extended, without, second, &answers[3]) else {
        return None;
    };
    Some(Setups {
        changer: changer.changer,
        bill: bill.bill,
        first_reader: first.first_reader,
        second_reader: second.second_reader,
    })
}

/// What is known by a device's answer to SETUP alone: nothing if there is none. `None` if it may
/// not stand in the options.
fn answer_of(
    is_extended: bool,
    without: DeviceSet,
    device: Device,
    answer: &PageSetup,
) -> Option<Setups>
    ensures told { IfSome result (Adds is_extended without device answer.now nothing_known) }
    ensures refused { IfNone result ((after : Setups)
        → Adds is_extended without device answer.now nothing_known after → ⊥) }
{
    let mut setups = Setups::NONE;
    if add(&mut setups, is_extended, without, device, answer) {
        Some(setups)
    } else {
        None
    }
}

/// Adds what is given of the readers. Returns whether that may stand in the options.
fn add_readers(setups: &mut Setups, without: DeviceSet, readers: &[PageReader; 2]) -> bool
    ensures added { result ≡ true → AreTold without readers.now setups.old setups.new }
    ensures refused { result ≡ false → (after : Setups)
        → AreTold without readers.now setups.old after → ⊥ }
{
    laws::block_has_one_command();
    if !add_reader(setups, without, ReaderUnit::First, &readers[0]) {
        return false;
    }
    add_reader(setups, without, ReaderUnit::Second, &readers[1])
}

/// Adds what a device's answer tells, if there is one. Returns whether that may stand in the
/// options.
fn add(
    setups: &mut Setups,
    is_extended: bool,
    without: DeviceSet,
    device: Device,
    answer: &PageSetup,
) -> bool
    ensures added { result ≡ true
        → Adds is_extended without device answer.now setups.old setups.new }
    ensures refused { result ≡ false → (after : Setups)
        → Adds is_extended without device answer.now setups.old after → ⊥ }
{
    if answer.count == 0 {
        return true;
    }
    if without.has(device) {
        return false;
    }
    match block_in(answer) {
        Some(block) => setups.learn(is_extended, device, &block),
        None => false,
    }
}

/// Adds what is given of a reader's level and options. Returns whether that may stand in the
/// options.
fn add_reader(setups: &mut Setups, without: DeviceSet, unit: ReaderUnit, told: &PageReader) -> bool
    ensures added { result ≡ true → AddsTold without unit told.now setups.old setups.new }
    ensures refused { result ≡ false → (after : Setups)
        → AddsTold without unit told.now setups.old after → ⊥ }
{
    if without.has(Device::Reader(unit)) && !tells_nothing(told) {
        return false;
    }
    add_told(setups, unit, told)
}

/// Adds what is given of the level and options of a reader that isn't left out.
fn add_told(setups: &mut Setups, unit: ReaderUnit, told: &PageReader) -> bool
    ensures added { result ≡ true → IsTold unit told.now setups.old setups.new }
    ensures refused { result ≡ false → (after : Setups)
        → IsTold unit told.now setups.old after → ⊥ }
{
    laws::block_has_one_command();
    if !add_level(setups, unit, told.level) {
        return false;
    }
    if !add_ask(setups, unit, &told.config) {
        return false;
    }
    add_ask(setups, unit, &told.options)
}

/// Adds a reader's level, if it is given. Returns whether it is one.
fn add_level(setups: &mut Setups, unit: ReaderUnit, level: u8) -> bool
    ensures added { result ≡ true → AddsLevel unit level setups.old setups.new }
    ensures refused { result ≡ false → (after : Setups)
        → AddsLevel unit level setups.old after → ⊥ }
{
    if level > 3 {
        return false;
    }
    if level > 0 {
        setups.set_level(unit, level);
    }
    true
}

/// Adds what a block of the controller to a reader tells, if there is one. Returns whether it may
/// stand in the options.
fn add_ask(setups: &mut Setups, unit: ReaderUnit, given: &PageSetup) -> bool
    ensures added { result ≡ true → AddsAsk unit given.now setups.old setups.new }
    ensures refused { result ≡ false → (after : Setups)
        → AddsAsk unit given.now setups.old after → ⊥ }
{
    if given.count == 0 {
        return true;
    }
    let Some(block) = block_in(given) else {
        return false;
    };
    let Ok(command) = read_command(&block) else {
        return false;
    };
    command.device() == Device::Reader(unit)
        && !command.enables_more()
        && !setups.has_ask(&command)
        && setups.learn_ask(&command)
}

/// The block that is given, if its bytes are one.
fn block_in(given: &PageSetup) -> Option<Block>
    ensures fits { IfSome result (λ block. given.now.count ≤ 36) }
    ensures is { IfSome result (λ block. IsBlock block) }
    ensures block { IfSome result (λ block. block ≡ take given.now.count given.now.bytes) }
    ensures none { IfNone result (given.now.count ≤ 36
        → IsBlock (take given.now.count given.now.bytes) → ⊥) }
{
    let Some(bytes) = given.bytes.get(..usize::from(given.count)) else {
        return None;
    };
    unseal(bytes).ok()
}
