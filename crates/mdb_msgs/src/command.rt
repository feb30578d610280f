//! Commands of the controller, device by device.

ghost use Rattle.std.specs.Prelude.{◌≡◌, ◌↔◌, IfSome, IsTrue, Some};
ghost use Rattle.mdb_msgs.specs.Commands.{EnablesMore, device_of, poll_of, reader_address};
ghost use Rattle.mdb_msgs.specs.Devices.{device_word};

use std::fmt;

/// A peripheral that this profile follows. In MDB/ICP 4.3 the changer is at 08H, cashless device #1
/// at 10H, the validator at 30H, and cashless device #2 at 60H.
#[derive(Clone, Copy, PartialEq, Eq, Debug)]
pub enum Device {
    /// The coin changer, 08H.
    Changer,
    /// The bill validator, 30H.
    Bill,
    /// A cashless reader, 10H or 60H.
    Reader(ReaderUnit),
}

impl Device {
    /// The device's POLL (MDB/ICP 4.3: 0B to the changer, 33 to the validator, 12 and 62 to the
    /// readers).
    #[inline(always)]
    pub fn poll(self) -> Command
        ensures { result ≡ poll_of self }
    {
        let number = match self {
            Device::Changer => 0,
            Device::Bill => 1,
            Device::Reader(ReaderUnit::First) => 2,
            Device::Reader(ReaderUnit::Second) => 3,
        };
        POLLS[number]
    }

    /// The device's word in printed text, for example `changer`.
    pub fn word(self) -> &'static str
        ensures { result.now ≡ device_word self }
    {
        match self {
            Device::Changer => "changer",
            Device::Bill => "bill",
            Device::Reader(ReaderUnit::First) => "cashless",
            Device::Reader(ReaderUnit::Second) => "cashless-2",
        }
    }

    /// The device that has this word. `None` if no device has it.
    pub fn named(word: &str) -> Option<Device>
        ensures found { IfSome result (λ device. word.now ≡ device_word device) }
        ensures only { (device : Device) → word.now ≡ device_word device
            → result ≡ Some device }
    {
        match word {
            "changer" => Some(Device::Changer),
            "bill" => Some(Device::Bill),
            "cashless" => Some(Device::Reader(ReaderUnit::First)),
            "cashless-2" => Some(Device::Reader(ReaderUnit::Second)),
            _ => None,
        }
    }
}

impl fmt::Display for Device {
    ghost output = { λ device. Some (device_word device) };

    fn fmt<W: fmt::Write>(&self, f: &mut fmt::Formatter<W>) -> fmt::Result {
        f.write_str(self.word())
    }
}

/// The POLL of each device, in the order of `Device`. Copied from here, since a command that is
/// made on the spot is written in parts and then read whole, for which a processor waits.
static POLLS: [Command; 4] = [
    Command::Changer(ChangerCommand::Poll),
    Command::Bill(BillCommand::Poll),
    Command::Reader(ReaderUnit::First, ReaderCommand::Poll),
    Command::Reader(ReaderUnit::Second, ReaderCommand::Poll),
];

/// Which of the two cashless readers of MDB/ICP 4.3. Both have the same commands and answers.
#[derive(Clone, Copy, PartialEq, Eq, Debug)]
pub enum ReaderUnit {
    /// Cashless device #1, at 10H.
    First,
    /// Cashless device #2, at 60H.
    Second,
}

impl ReaderUnit {
    /// The reader's address, which is the first byte of its RESET.
    pub fn address(self) -> u8
        ensures { result ≡ reader_address self }
    {
        match self {
            ReaderUnit::First => 0x10,
            ReaderUnit::Second => 0x60,
        }
    }
}

/// A command of the controller. Its fields are whole bytes and two-byte numbers, so every value of
/// this type has a block.
#[derive(Clone, Copy, PartialEq, Eq, Debug)]
pub enum Command {
    /// To the coin changer.
    Changer(ChangerCommand),
    /// To the bill validator.
    Bill(BillCommand),
    /// To a cashless reader.
    Reader(ReaderUnit, ReaderCommand),
}

impl Command {
    /// The device that the command is for.
    pub fn device(&self) -> Device
        ensures { result ≡ device_of self.now }
    {
        match *self {
            Command::Changer(_) => Device::Changer,
            Command::Bill(_) => Device::Bill,
            Command::Reader(unit, _) => Device::Reader(unit),
        }
    }

    /// A copy of the command.
    pub fn copy(&self) -> Command
        ensures { result ≡ self.now }
    {
        *self
    }

    /// Whether this is an ENABLE OPTIONS that asks for what this profile doesn't follow. Its last
    /// byte Y5 has one of these bits: 1, money of 32 bits; 2, several currencies (MDB/ICP 4.3,
    /// cashless device).
    pub fn enables_more(&self) -> bool
        ensures { IsTrue result ↔ EnablesMore self.now }
    {
        match self {
            Command::Reader(_, ReaderCommand::EnableOptions([_, _, _, last])) => {
                *last & 0x02 != 0 || *last & 0x04 != 0
            }
            _ => false,
        }
    }
}

/// A command to the coin changer (MDB/ICP 4.3, coin changer).
#[derive(Clone, Copy, PartialEq, Eq, Debug)]
pub enum ChangerCommand {
    /// RESET, 08.
    Reset,
    /// SETUP, 09.
    Setup,
    /// TUBE STATUS, 0A.
    TubeStatus,
    /// POLL, 0B.
    Poll,
    /// COIN TYPE, 0C.
    CoinType {
        /// Y1-Y2: the coin types that are enabled, the lowest bit type 0.
        enable: u16,
        /// Y3-Y4: the coin types that may be dispensed manually.
        manual: u16,
    },
    /// DISPENSE, 0D, with its byte Y1: the count is the high half, and the coin type the low half.
    Dispense(u8),
    /// EXPANSION identification, 0F 00.
    Identification,
    /// EXPANSION feature enable, 0F 01, with its four bytes.
    Features([u8; 4]),
}

/// A command to the bill validator (MDB/ICP 4.3, bill validator).
#[derive(Clone, Copy, PartialEq, Eq, Debug)]
pub enum BillCommand {
    /// RESET, 30.
    Reset,
    /// SETUP, 31.
    Setup,
    /// SECURITY, 32, with its two bytes.
    Security([u8; 2]),
    /// POLL, 33.
    Poll,
    /// BILL TYPE, 34.
    BillType {
        /// Y1-Y2: the bill types that are enabled, the lowest bit type 0.
        enable: u16,
        /// Y3-Y4: the bill types that are held in escrow.
        escrow: u16,
    },
    /// ESCROW, 35, with its byte Y1: 0 returns the bill, and the lowest bit stacks it.
    Escrow(u8),
    /// STACKER, 36.
    Stacker,
    /// EXPANSION identification, 37 00.
    Identification,
    /// EXPANSION feature enable, 37 01, with its four bytes.
    Features([u8; 4]),
    /// EXPANSION identification with options, 37 02.
    IdentificationWithOptions,
}

/// A command to a cashless reader (MDB/ICP 4.3, cashless device). The bytes given here are those to
/// the reader at 10H. For the reader at 60H, the first byte is greater by 50H.
#[derive(Clone, Copy, PartialEq, Eq, Debug)]
pub enum ReaderCommand {
    /// RESET, 10.
    Reset,
    /// SETUP config data, 11 00: what the controller is and shows.
    SetupConfig {
        /// Y2: its feature level.
        level: u8,
        /// Y3: the columns of its display.
        columns: u8,
        /// Y4: the rows of its display.
        rows: u8,
        /// Y5: the kind of its display.
        display: u8,
    },
    /// SETUP prices, 11 01.
    SetupPrices {
        /// The greatest price, in units of the scale factor.
        maximum: u16,
        /// The least price, in units of the scale factor.
        minimum: u16,
    },
    /// POLL, 12.
    Poll,
    /// VEND REQUEST, 13 00.
    VendRequest {
        /// The price, in units of the scale factor.
        price: u16,
        /// The number of the item.
        item: u16,
    },
    /// VEND CANCEL, 13 01.
    VendCancel,
    /// VEND SUCCESS, 13 02.
    VendSuccess {
        /// The number of the item.
        item: u16,
    },
    /// VEND FAILURE, 13 03.
    VendFailure,
    /// SESSION COMPLETE, 13 04.
    SessionComplete,
    /// CASH SALE, 13 05.
    CashSale {
        /// The price, in units of the scale factor.
        price: u16,
        /// The number of the item.
        item: u16,
    },
    /// READER DISABLE, 14 00.
    Disable,
    /// READER ENABLE, 14 01.
    Enable,
    /// READER CANCEL, 14 02.
    Cancel,
    /// EXPANSION REQUEST ID, 17 00, with its 29 bytes.
    RequestId([u8; 29]),
    /// EXPANSION ENABLE OPTIONS, 17 04, with its four bytes Y2 to Y5. Y5 is the lowest one.
    EnableOptions([u8; 4]),
}
