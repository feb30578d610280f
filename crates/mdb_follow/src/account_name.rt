//! The accounts of a report, by name.

ghost use Rattle.std.specs.Prelude.{◌≡◌, ◌<◌, Some, map};
ghost use Rattle.mdb_machine.specs.declared.gains.TheConstants.{SLOTS};
ghost use Rattle.mdb_follow.specs.AccountNames.{account_device, account_place, account_slot};
ghost use Rattle.mdb_follow.specs.AccountNames.{account_word};
ghost use Rattle.mdb_follow.specs.Cells.{account_by, cell_in};
ghost use Rattle.mdb_follow.specs.declared.account_name.TheConstants.{ACCOUNTS};
ghost use Rattle.mdb_follow.specs.declared.account_name.TheConstants.AccountName.{ALL};

use crate::devices::device_place;
use crate::{Account, Cell};
use mdb_machine::SLOTS;
use mdb_msgs::{Device, ReaderUnit};
use std::fmt;

/// How many accounts a report has.
pub const ACCOUNTS: usize = 7;

/// The name of an account of a report.
#[derive(Clone, Copy, PartialEq, Eq, Debug)]
pub enum AccountName {
    /// The coins that were put in.
    CoinsIn,
    /// The bills that were put in.
    BillsIn,
    /// The coins that were paid out.
    PaidOut,
    /// The sales that a reader approved.
    Approved(ReaderUnit),
    /// The sales that were made with a reader.
    Sold(ReaderUnit),
}

impl AccountName {
    /// All accounts, in the order of a report.
    pub const ALL: [AccountName; ACCOUNTS] = [
        AccountName::CoinsIn,
        AccountName::BillsIn,
        AccountName::PaidOut,
        AccountName::Approved(ReaderUnit::First),
        AccountName::Sold(ReaderUnit::First),
        AccountName::Approved(ReaderUnit::Second),
        AccountName::Sold(ReaderUnit::Second),
    ];

    /// The account's word in a report, for example `coins-in`.
    pub fn word(self) -> &'static str
        ensures { result.now ≡ account_word self }
    {
        match self {
            AccountName::CoinsIn => "coins-in",
            AccountName::BillsIn => "bills-in",
            AccountName::PaidOut => "paid-out",
            AccountName::Approved(ReaderUnit::First) => "approved",
            AccountName::Sold(ReaderUnit::First) => "sold",
            AccountName::Approved(ReaderUnit::Second) => "approved-2",
            AccountName::Sold(ReaderUnit::Second) => "sold-2",
        }
    }

    /// The device that keeps the account. The controller keeps it too.
    pub fn device(self) -> Device
        ensures { result ≡ account_device self }
    {
        match self {
            AccountName::CoinsIn | AccountName::PaidOut => Device::Changer,
            AccountName::BillsIn => Device::Bill,
            AccountName::Approved(unit) | AccountName::Sold(unit) => Device::Reader(unit),
        }
    }

    /// Its slot among that device's accounts.
    pub fn slot(self) -> usize
        ensures slot { result ≡ account_slot self }
        ensures below { result < SLOTS }
    {
        match self {
            AccountName::CoinsIn | AccountName::BillsIn | AccountName::Approved(_) => 0,
            AccountName::PaidOut | AccountName::Sold(_) => 1,
        }
    }

    /// Its place in a report, from 0.
    pub fn place(self) -> usize
        ensures place { result ≡ account_place self }
        ensures below { result < ACCOUNTS }
    {
        match self {
            AccountName::CoinsIn => 0,
            AccountName::BillsIn => 1,
            AccountName::PaidOut => 2,
            AccountName::Approved(ReaderUnit::First) => 3,
            AccountName::Sold(ReaderUnit::First) => 4,
            AccountName::Approved(ReaderUnit::Second) => 5,
            AccountName::Sold(ReaderUnit::Second) => 6,
        }
    }
}

/// The accounts in the order of `AccountName::ALL`, of the cells of `Report::DEVICES`.
pub(crate) fn accounts_of(cells: &[Cell; 4]) -> [Account; ACCOUNTS]
    ensures { result ≡ map (account_by (cell_in cells.now)) ALL }
{
    [
        account_in(cells, AccountName::CoinsIn),
        account_in(cells, AccountName::BillsIn),
        account_in(cells, AccountName::PaidOut),
        account_in(cells, AccountName::Approved(ReaderUnit::First)),
        account_in(cells, AccountName::Sold(ReaderUnit::First)),
        account_in(cells, AccountName::Approved(ReaderUnit::Second)),
        account_in(cells, AccountName::Sold(ReaderUnit::Second)),
    ]
}

/// The account of a name, of the cells of `Report::DEVICES`.
fn account_in(cells: &[Cell; 4], name: AccountName) -> Account
    ensures { result ≡ account_by (cell_in cells.now) name }
{
    cells[device_place(name.device())].accounts[name.slot()]
}

/// Its word.
impl fmt::Display for AccountName {
    ghost output = { λ account. Some (account_word account) };

    fn fmt<W: fmt::Write>(&self, f: &mut fmt::Formatter<W>) -> fmt::Result {
        f.write_str(self.word())
    }
}
