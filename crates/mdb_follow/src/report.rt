//! The report on possible rows.

ghost use Rattle.std.specs.Prelude.{◌≡◌};
ghost use Rattle.mdb_follow.specs.Report.{device_facts_in};
ghost use Rattle.mdb_follow.specs.SilencesKept.{silence_in};

use crate::account_name::{ACCOUNTS, accounts_of};
use crate::devices::device_place;
use crate::silence::{AskCounts, Silences};
use crate::{Account, AccountName, Cell};
use mdb_bus::Untimely;
use mdb_msgs::{Device, ReaderUnit};

/// What the acts of a recording show of a device, or what is known of it from elsewhere, beside the
/// sums of its accounts.
#[derive(Clone, Copy, PartialEq, Eq, Debug)]
pub struct DeviceFacts {
    /// The decimal places of its money: those that it reported last, or that are known from
    /// elsewhere. `None` if there are none.
    pub decimals: Option<u8>,
    /// How many amounts without a value it reported, or was asked for. An amount has no value if
    /// nothing shows how the device is set up. It is in no sum.
    pub unvalued: u64,
}

/// What is reported of a device, beside its accounts.
#[derive(Clone, Copy, PartialEq, Eq, Debug)]
pub struct DeviceReport {
    /// What its acts show of it.
    pub facts: DeviceFacts,
    /// What was counted of the controller's commands to it.
    pub asks: AskCounts,
}

/// The report on possible rows.
#[derive(Clone, Copy, PartialEq, Eq, Debug)]
pub struct Report {
    /// The number of rows.
    pub rows: u64,
    /// What is reported of each of `Report::DEVICES`, beside its accounts.
    pub devices: [DeviceReport; 4],
    /// How many rows came out of the base profile's times. `None` by the base profile, where such a
    /// row is an offence.
    pub untimely: Option<Untimely>,
    /// The bounds of each of `AccountName::ALL`, in the smallest unit of money.
    pub accounts: [Account; ACCOUNTS],
}

impl Report {
    ghost use Rattle.std.specs.Prelude.{◌≡◌, List, map};
    ghost use Rattle.mdb_msgs.specs.declared.command.Device.{Device};
    ghost use Rattle.mdb_bus.specs.ActLists.{Piece, acts_of};
    ghost use Rattle.mdb_bus.specs.declared.scope.Scope.{Scope};
    ghost use Rattle.mdb_bus.specs.ExtendedTimes.{times_of};
    ghost use Rattle.mdb_follow.specs.declared.account_name.TheConstants.AccountName.{ALL};
    ghost use Rattle.mdb_follow.specs.declared.report.TheConstants.Report.{DEVICES};
    ghost use Rattle.mdb_follow.specs.AccountNames.{account_of};
    ghost use Rattle.mdb_follow.specs.Cells.{account_by, cell_in};
    ghost use Rattle.mdb_follow.specs.Report.{device_decimals, device_report, device_silences};
    ghost use Rattle.mdb_follow.specs.Report.{device_unvalued, report_of, device_facts_in, device_facts_of};
    ghost use Rattle.mdb_follow.specs.Silences.{asks_of};
    ghost use Rattle.mdb_follow.specs.SilencesKept.{AllStandForAsks, silence_in};

    /// The devices, in the order of a report.
    pub const DEVICES: [Device; 4] = [
        Device::Changer,
        Device::Bill,
        Device::Reader(ReaderUnit::First),
        Device::Reader(ReaderUnit::Second),
    ];

    /// The report of so many rows: with the accounts of the devices' cells, what their acts show,
    /// and what was counted of their asks, all in the order of `DEVICES`, and of the rows' times.
    pub fn of(
        rows: u64,
        cells: &[Cell; 4],
        facts: &[DeviceFacts; 4],
        silences: &Silences,
        untimely: Option<Untimely>,
    ) -> Report
        ensures has { result ≡ record {
          rows = rows;
          devices = map (λ device. record {
            facts = device_facts_in facts.now device;
            asks = (silence_in silences.now device).counts;
          }) DEVICES;
          untimely = untimely;
          accounts = map (account_by (cell_in cells.now)) ALL;
        } }
        ensures telling { (scope : Scope) (pieces : List Piece)
            → facts.now
            ≡ map (λ device. device_facts_of scope.begins device (acts_of pieces)) DEVICES
            → AllStandForAsks silences.now (λ device. asks_of scope.begins device pieces)
            → untimely ≡ times_of scope pieces
            → result ≡ report_of scope rows pieces (account_by (cell_in cells.now)) }
    {
        let [changer, bill, first, second] = Report::DEVICES;
        Report {
            rows,
            devices: [
                reported(facts, silences, changer),
                reported(facts, silences, bill),
                reported(facts, silences, first),
                reported(facts, silences, second),
            ],
            untimely,
            accounts: accounts_of(cells),
        }
    }

    /// The bounds of an account.
    pub fn account(&self, name: AccountName) -> Account
        ensures { result ≡ account_of name self.now }
    {
        self.accounts[name.place()]
    }

    /// What is reported of a device, beside its accounts.
    pub fn device(&self, device: Device) -> DeviceReport
        ensures { result ≡ device_report device self.now }
    {
        self.devices[device_place(device)]
    }

    /// The decimal places of a device. `None` if there are none.
    pub fn device_decimals(&self, device: Device) -> Option<u8>
        ensures { result ≡ device_decimals device self.now }
    {
        self.device(device).facts.decimals
    }

    /// How often a device left the controller's commands unanswered for too long.
    pub fn device_silences(&self, device: Device) -> u64
        ensures { result ≡ device_silences device self.now }
    {
        self.device(device).asks.silences
    }

    /// How many amounts without a value a device reported, or was asked for.
    pub fn device_unvalued(&self, device: Device) -> u64
        ensures { result ≡ device_unvalued device self.now }
    {
        self.device(device).facts.unvalued
    }

    /// How often each of `DEVICES` left the controller's commands unanswered for too long.
    pub fn silences(&self) -> [u64; 4]
        ensures { result ≡ map (λ device. device_silences device self.now) DEVICES }
    {
        let [changer, bill, first, second] = Report::DEVICES;
        [
            self.device_silences(changer),
            self.device_silences(bill),
            self.device_silences(first),
            self.device_silences(second),
        ]
    }

    /// How many amounts without a value each of `DEVICES` reported, or was asked for.
    pub fn unvalued(&self) -> [u64; 4]
        ensures { result ≡ map (λ device. device_unvalued device self.now) DEVICES }
    {
        let [changer, bill, first, second] = Report::DEVICES;
        [
            self.device_unvalued(changer),
            self.device_unvalued(bill),
            self.device_unvalued(first),
            self.device_unvalued(second),
        ]
    }
}

/// What is reported of a device, by what there is of all.
fn reported(facts: &[DeviceFacts; 4], silences: &Silences, device: Device) -> DeviceReport
    ensures { result ≡ record {
      facts = device_facts_in facts.now device;
      asks = (silence_in silences.now device).counts;
    } }
{
    DeviceReport {
        facts: facts[device_place(device)],
        asks: silences.counts(device),
    }
}
