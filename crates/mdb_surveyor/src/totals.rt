//! The sums of the stretches' ranges.

ghost use Rattle.std.specs.Prelude.{◌≡◌, ◌+◌, ◌^◌, ◌+ℤ◌, ◌≤ℤ◌, neg_ℤ, pos};
ghost use Rattle.std.specs.Option.{ForSome};
ghost use Rattle.mdb_bus.specs.ExtendedTimes.{AreFew};
ghost use Rattle.mdb_follow.specs.Limits.{IsAccountWithin, IsRangeWithin};
ghost use Rattle.mdb_follow.specs.Report.{device_silences, device_unvalued};
ghost use Rattle.mdb_follow.specs.AccountNames.{account_of};
ghost use Rattle.mdb_surveyor.specs.Totals as spec;
ghost use Rattle.mdb_surveyor.specs.Totals.{CanBeAdded, added_account, total_of, total_silences, total_unvalued, with_report};

use mdb_bus::Untimely;
use mdb_follow::{ACCOUNTS, Account, AccountName, Range, Report, device_place};
use mdb_msgs::{Device, ReaderUnit};

/// The sums of the ranges that the stretches of a recording have of each account, and of their
/// counts.
///
/// A sum of ranges goes from the sum of the least values to the sum of the greatest. A device adds
/// nothing in a stretch in which it is left out.
#[derive(Clone, Copy, PartialEq, Eq, Debug)]
pub struct Totals {
    /// How many rows the stretches have.
    pub rows: u64,
    /// The sums of each of `AccountName::ALL`, in the smallest unit of money.
    pub accounts: [Account; ACCOUNTS],
    /// How often each of `Report::DEVICES` left the controller's commands unanswered for too long.
    pub silences: [u64; 4],
    /// How many rows came out of the base profile's times. `None` if no stretch counts them.
    pub untimely: Option<Untimely>,
    /// How many amounts without a value each of `Report::DEVICES` reported, or was asked for.
    pub unvalued: [u64; 4],
}

impl Totals {
    /// Those of no stretch.
    pub const NONE: Totals = Totals {
        rows: 0,
        accounts: [Account::NOTHING; ACCOUNTS],
        silences: [0; 4],
        untimely: None,
        unvalued: [0; 4],
    };

    /// The sums of an account.
    pub fn account(&self, name: AccountName) -> Account
        ensures { result ≡ total_of name self.now }
    {
        self.accounts[name.place()]
    }

    /// How often a device left the controller's commands unanswered for too long.
    pub fn device_silences(&self, device: Device) -> u64
        ensures { result ≡ total_silences device self.now }
    {
        self.silences[device_place(device)]
    }

    /// How many amounts without a value a device reported, or was asked for.
    pub fn device_unvalued(&self, device: Device) -> u64
        ensures { result ≡ total_unvalued device self.now }
    {
        self.unvalued[device_place(device)]
    }

    /// The sums with those of a report more.
    pub(crate) fn with(&self, report: &Report) -> Totals
        requires { CanBeAdded self.now report.now }
        ensures { result ≡ with_report self.now report.now }
    {
        Totals {
            rows: self.rows + report.rows,
            accounts: [
                self.account_with(report, AccountName::CoinsIn),
                self.account_with(report, AccountName::BillsIn),
                self.account_with(report, AccountName::PaidOut),
                self.account_with(report, AccountName::Approved(ReaderUnit::First)),
                self.account_with(report, AccountName::Sold(ReaderUnit::First)),
                self.account_with(report, AccountName::Approved(ReaderUnit::Second)),
                self.account_with(report, AccountName::Sold(ReaderUnit::Second)),
            ],
            silences: [
                self.silences_with(report, Device::Changer),
                self.silences_with(report, Device::Bill),
                self.silences_with(report, Device::Reader(ReaderUnit::First)),
                self.silences_with(report, Device::Reader(ReaderUnit::Second)),
            ],
            untimely: untimely_of_both(self.untimely, report.untimely),
            unvalued: [
                self.unvalued_with(report, Device::Changer),
                self.unvalued_with(report, Device::Bill),
                self.unvalued_with(report, Device::Reader(ReaderUnit::First)),
                self.unvalued_with(report, Device::Reader(ReaderUnit::Second)),
            ],
        }
    }

    /// The sums of an account with that of a report more.
    fn account_with(&self, report: &Report, name: AccountName) -> Account
        requires { CanBeAdded self.now report.now }
        ensures { result ≡ added_account (total_of name self.now) (account_of name report.now) }
    {
        added(&self.account(name), &report.account(name))
    }

    /// A device's silences with those of a report more.
    fn silences_with(&self, report: &Report, device: Device) -> u64
        requires { CanBeAdded self.now report.now }
        ensures { result
            ≡ total_silences device self.now + device_silences device report.now }
    {
        self.device_silences(device) + report.device_silences(device)
    }

    /// A device's amounts without a value with those of a report more.
    fn unvalued_with(&self, report: &Report, device: Device) -> u64
        requires { CanBeAdded self.now report.now }
        ensures { result
            ≡ total_unvalued device self.now + device_unvalued device report.now }
    {
        self.device_unvalued(device) + report.device_unvalued(device)
    }
}

/// How many rows came out of their time in two parts, if either counts them.
fn untimely_of_both(one: Option<Untimely>, other: Option<Untimely>) -> Option<Untimely>
    requires one { ForSome one (AreFew (2 ^ 61)) }
    requires other { ForSome other (AreFew (2 ^ 61)) }
    ensures { result ≡ spec.untimely_of_both one other }
{
    match (one, other) {
        (Some(one), Some(other)) => Some(added_untimely(one, other)),
        (Some(one), None) => Some(one),
        (None, counts) => counts,
    }
}

/// The counts of rows out of their time with further ones.
fn added_untimely(one: Untimely, other: Untimely) -> Untimely
    requires one { AreFew (2 ^ 61) one }
    requires other { AreFew (2 ^ 61) other }
    ensures { result ≡ spec.added_untimely one other }
{
    Untimely {
        controller: one.controller + other.controller,
        changer: one.changer + other.changer,
        bill: one.bill + other.bill,
        cashless: one.cashless + other.cashless,
        cashless2: one.cashless2 + other.cashless2,
    }
}

/// The sums of an account with further ones.
fn added(one: &Account, other: &Account) -> Account
    requires one { IsAccountWithin (2 ^ 61) one.now }
    requires other { IsAccountWithin (2 ^ 61) other.now }
    ensures { result ≡ added_account one.now other.now }
{
    Account {
        device: added_range(one.device, other.device),
        controller: added_range(one.controller, other.controller),
        difference: added_range(one.difference, other.difference),
    }
}

/// The sum of two ranges.
fn added_range(one: Range, other: Range) -> Range
    requires one { IsRangeWithin (2 ^ 61) one }
    requires other { IsRangeWithin (2 ^ 61) other }
    ensures { result ≡ spec.added_range one other }
{
    Range {
        least: sum(one.least, other.least),
        greatest: sum(one.greatest, other.greatest),
    }
}

/// The sum of two numbers that are far from the limits of their type.
fn sum(one: i64, other: i64) -> i64
    requires one_low { neg_ℤ (pos (2 ^ 61)) ≤ℤ one }
    requires one_high { one ≤ℤ pos (2 ^ 61) }
    requires other_low { neg_ℤ (pos (2 ^ 61)) ≤ℤ other }
    requires other_high { other ≤ℤ pos (2 ^ 61) }
    ensures { result ≡ one +ℤ other }
{
    one + other
}
