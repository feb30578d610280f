//! Setup data that are known from elsewhere.

ghost use Rattle.std.specs.Prelude.{◌≡◌};
ghost use Rattle.mdb_msgs.specs.Setups.{config_known, reader_known};
ghost use Rattle.mdb_msgs.specs.Settings.{has_answer, with_level, with_reader};

use super::command::{Device, ReaderUnit};
use super::reply::setup::{BillSetup, ChangerSetup};

/// The setup data of a cashless reader, from its config message (MDB/ICP 4.3, cashless device).
#[derive(Clone, Copy, PartialEq, Eq, Debug)]
pub struct ReaderConfig {
    /// Z5: the scale factor, in the smallest unit of money.
    pub scale: u8,
    /// Z6: the decimal places.
    pub decimals: u8,
    /// Z7: the response time, in seconds.
    pub response: u8,
}

/// What is known from elsewhere of how a cashless reader is set up (this profile).
#[derive(Clone, Copy, PartialEq, Eq, Debug)]
pub struct ReaderSetup {
    /// What counts of its answer to SETUP config.
    pub config: Option<ReaderConfig>,
    /// The feature level that the controller told it last (Y2 of SETUP config). This level, the
    /// next one and the features count by the extended profile alone.
    pub asked: Option<u8>,
    /// The feature level that it told last (Z2 of a config message).
    pub told: Option<u8>,
    /// Whether its features are known (ENABLE OPTIONS).
    pub features: bool,
}

impl ReaderSetup {
    /// Nothing is known.
    pub const NONE: ReaderSetup = ReaderSetup {
        config: None,
        asked: None,
        told: None,
        features: false,
    };
}

/// Setup data that a recording doesn't show: the devices' answers to SETUP in an earlier recording
/// of the same machine (this profile).
#[derive(PartialEq, Eq, Debug, Drop)]
pub struct Setups {
    /// The changer's answer.
    pub changer: Option<ChangerSetup>,
    /// The validator's answer.
    pub bill: Option<BillSetup>,
    /// What is known of the reader at 10H.
    pub first_reader: ReaderSetup,
    /// What is known of the reader at 60H.
    pub second_reader: ReaderSetup,
}

impl Setups {
    /// Nothing is known.
    pub const NONE: Setups = Setups {
        changer: None,
        bill: None,
        first_reader: ReaderSetup::NONE,
        second_reader: ReaderSetup::NONE,
    };

    /// A copy.
    pub fn copy(&self) -> Setups
        ensures { result ≡ self.now }
    {
        Setups {
            changer: self.changer.as_ref().map(|setup| setup.copy()),
            bill: self.bill.as_ref().map(|setup| setup.copy()),
            first_reader: self.first_reader,
            second_reader: self.second_reader,
        }
    }

    /// What is known of a reader.
    pub fn reader(&self, unit: ReaderUnit) -> ReaderSetup
        ensures { result ≡ reader_known self.now unit }
    {
        match unit {
            ReaderUnit::First => self.first_reader,
            ReaderUnit::Second => self.second_reader,
        }
    }

    /// The setup data of a reader, if they are known.
    pub fn config(&self, unit: ReaderUnit) -> Option<ReaderConfig>
        ensures { result ≡ config_known self.now unit }
    {
        self.reader(unit).config
    }

    /// Whether a device's answer to SETUP is known.
    pub fn has_answer(&self, device: Device) -> bool
        ensures { result ≡ has_answer self.now device }
    {
        match device {
            Device::Changer => self.changer.is_some(),
            Device::Bill => self.bill.is_some(),
            Device::Reader(unit) => self.config(unit).is_some(),
        }
    }

    /// Sets the feature level that the controller and a reader reported to each other.
    pub fn set_level(&mut self, unit: ReaderUnit, level: u8)
        ensures { self.new ≡ with_level self.old unit level }
    {
        let mut reader = self.reader(unit);
        reader.asked = Some(level);
        reader.told = Some(level);
        self.set_reader(unit, reader);
    }

    /// Sets what is known of a reader.
    pub(crate) fn set_reader(&mut self, unit: ReaderUnit, reader: ReaderSetup)
        ensures { self.new ≡ with_reader self.old unit reader }
    {
        match unit {
            ReaderUnit::First => self.first_reader = reader,
            ReaderUnit::Second => self.second_reader = reader,
        }
    }
}
