//! What a device's answer to SETUP reports of how it is set up, and what the controller's blocks
//! to a reader report of it.

ghost use Rattle.std.specs.Prelude.{◌≡◌, None, Some, true, false, IfSome};
ghost use Rattle.mdb_msgs.specs.SetupData.{IsSetupOf, IsToldAs};
ghost use Rattle.mdb_msgs.specs.ExtendedLevels.{last_level, level_in};
ghost use Rattle.mdb_msgs.specs.ReplyFaults.{SpellsReply};
ghost use Rattle.mdb_msgs.specs.SetupData as spec;
ghost use Rattle.mdb_msgs.specs.declared.reply.Reply.{Reply as Answer};
ghost use Rattle.mdb_msgs.specs.declared.setups.Setups.{Setups};
ghost use Rattle.mdb_msgs.specs.inner.SetupAsked.{setup_of};

use crate::command::{BillCommand, ChangerCommand, Command, Device, ReaderCommand, ReaderUnit};
use crate::reading::Reading;
use crate::reply::reader::{ReaderList, ReaderMsg};
use crate::reply::{Reply, read_reply};
use crate::setups::{ReaderConfig, Setups};
use mdb_words::Block;

impl Setups {
    /// Learns how a device is set up from the block of its answer to SETUP, or of a reader's answer
    /// to SETUP config (MDB/ICP 4.3, coin changer, bill validator and cashless device). Returns
    /// whether the block is such an answer.
    ///
    /// A changer and a validator report their setup tables. A reader reports its scale factor,
    /// decimal places and response time in seconds, and its feature level; of several config
    /// messages, the last counts (this profile). They replace what was known of that device, except
    /// a feature level. What is known of the other devices stays.
    ///
    /// Both profiles read the answer as that of a reader of level 1. If it has a fault so, the
    /// extended one (`is_extended`) reads it as one of levels 2 and 3.
    ///
    /// The return value is `false`, and nothing changes, if the block is no answer to that command,
    /// or if a reader's answer has no config message.
    pub fn learn(&mut self, is_extended: bool, device: Device, answer: &Block) -> bool
        ensures learnt { result ≡ true
            → IsSetupOf is_extended device answer.now self.old self.new }
        ensures only { (after : Setups)
            → IsSetupOf is_extended device answer.now self.old after → result ≡ true }
        ensures kept { result ≡ false → self.new ≡ self.old }
    {
        answer.bytes();
        match read_told(is_extended, &setup_of(device), answer) {
            Some(reply) => {
                let is_answer = self.learn_reply(device, &reply);
                if is_answer {
                    self.learn_level(device, &reply);
                }
                is_answer
            }
            None => false,
        }
    }

    /// Learns how a device is set up from a reply of it, as `learn` does from a block. Returns
    /// whether the reply reports that. If it doesn't, nothing changes.
    pub fn learn_reply(&mut self, device: Device, reply: &Reply) -> bool
        ensures told { result ≡ true → spec.known_with self.old device reply.now ≡ Some self.new }
        ensures untold { result ≡ false → spec.known_with self.old device reply.now ≡ None }
        ensures kept { result ≡ false → self.new ≡ self.old }
    {
        match (device, reply) {
            (Device::Changer, Reply::ChangerSetup(table)) => self.changer = Some(table.copy()),
            (Device::Bill, Reply::BillSetup(table)) => self.bill = Some(table.copy()),
            (Device::Reader(unit), Reply::Reader(list)) => match config_of(list) {
                Some(config) => add_config(self, unit, config),
                None => return false,
            },
            _ => return false,
        }
        true
    }

    /// Learns the feature level that a reader's reply reports, unless one is known.
    fn learn_level(&mut self, device: Device, reply: &Reply)
        ensures { self.new ≡ spec.leveled device reply.now self.old }
    {
        if let (Device::Reader(unit), Reply::Reader(list)) = (device, reply) {
            let mut reader = self.reader(unit);
            reader.told = reader.told.or(last_level(list));
            self.set_reader(unit, reader);
        }
    }

    /// Learns what a command to a reader reports (MDB/ICP 4.3, cashless device): SETUP config the
    /// controller's feature level, ENABLE OPTIONS that its features are known. Returns whether the
    /// command is one of these. If it isn't, nothing changes.
    pub fn learn_ask(&mut self, command: &Command) -> bool
        ensures told { result ≡ true → spec.known_by self.old command.now ≡ Some self.new }
        ensures untold { result ≡ false → spec.known_by self.old command.now ≡ None }
        ensures kept { result ≡ false → self.new ≡ self.old }
    {
        let Command::Reader(unit, asked) = *command else {
            return false;
        };
        let mut reader = self.reader(unit);
        match asked {
            ReaderCommand::SetupConfig { level, .. } => reader.asked = Some(level),
            ReaderCommand::EnableOptions(_) => reader.features = true,
            _ => return false,
        }
        self.set_reader(unit, reader);
        true
    }

    /// Whether what `learn_ask` would learn from a command is known.
    pub fn has_ask(&self, command: &Command) -> bool
        ensures { result ≡ spec.has_ask self.now command.now }
    {
        match *command {
            Command::Reader(unit, ReaderCommand::SetupConfig { .. }) => {
                self.reader(unit).asked.is_some()
            }
            Command::Reader(unit, ReaderCommand::EnableOptions(_)) => self.reader(unit).features,
            _ => false,
        }
    }
}

/// The reply to a command that a told answer is, by the extended profile or by the base one.
fn read_told(is_extended: bool, asked: &Command, answer: &Block) -> Option<Reply>
    ensures found { IfSome result (λ reply. SpellsReply asked.now reply answer.now) }
    ensures told { IfSome result (IsToldAs is_extended asked.now) }
    ensures only { (reply : Answer) → SpellsReply asked.now reply answer.now
        → IsToldAs is_extended asked.now reply → result ≡ Some reply }
{
    if !is_extended {
        return read_reply(Reading::BASE, asked, answer).ok();
    }
    match read_reply(Reading::EARLY, asked, answer) {
        Ok(reply) => Some(reply),
        Err(_) => read_reply(Reading::EARLY_LONG, asked, answer).ok(),
    }
}

/// The command that asks a device how it is set up. What it reports to a reader doesn't matter.
fn setup_of(device: Device) -> Command
    ensures { result ≡ setup_of device }
{
    match device {
        Device::Changer => Command::Changer(ChangerCommand::Setup),
        Device::Bill => Command::Bill(BillCommand::Setup),
        Device::Reader(unit) => {
            let config = ReaderCommand::SetupConfig {
                level: 0,
                columns: 0,
                rows: 0,
                display: 0,
            };
            Command::Reader(unit, config)
        }
    }
}

/// Adds the config of a reader.
fn add_config(setups: &mut Setups, unit: ReaderUnit, config: ReaderConfig)
    ensures { setups.new ≡ spec.with_config setups.old unit config }
{
    match unit {
        ReaderUnit::First => setups.first_reader.config = Some(config),
        ReaderUnit::Second => setups.second_reader.config = Some(config),
    }
}

/// What the last config message of a reader's answer says.
#[tactic(auto, using(crate::proofs::SetupData::or_assoc, crate::proofs::SetupData::or_none))]
fn config_of(list: &ReaderList) -> Option<ReaderConfig>
    ensures { result ≡ spec.last_config list.now.messages }
{
    let mut last = None;
    for message in list.iter() {
        last = config_in(message).or(last);
    }
    last
}

/// The feature level of the last config message of a reader's answer (Z2; MDB/ICP 4.3, cashless
/// device).
#[tactic(auto, using(crate::proofs::SetupData::or_assoc, crate::proofs::SetupData::or_none))]
pub fn last_level(list: &ReaderList) -> Option<u8>
    ensures { result ≡ last_level list.now.messages }
{
    let mut last = None;
    for message in list.iter() {
        last = level_in(message).or(last);
    }
    last
}

/// The feature level that a config message reports (Z2).
fn level_in(message: ReaderMsg) -> Option<u8>
    ensures { result ≡ level_in message }
{
    match message {
        ReaderMsg::Config { level, .. } => Some(level),
        _ => None,
    }
}

/// What a config message says of how the reader is set up.
fn config_in(message: ReaderMsg) -> Option<ReaderConfig>
    ensures { result ≡ spec.config_in message }
{
    match message {
        ReaderMsg::Config {
            scale,
            decimals,
            response,
            ..
        } => Some(ReaderConfig {
            scale,
            decimals,
            response,
        }),
        _ => None,
    }
}
