//! What coins, bills and a reader's amounts are worth: as much as they add to a sum of a report
//! that counts them.

ghost use Rattle.std.specs.Prelude.{◌≡◌, ◌≤◌, ◌*◌, Some, option_map};
ghost use Rattle.mdb_cash.specs.Bill.{bill_value};
ghost use Rattle.mdb_cash.specs.Changer as values;
ghost use Rattle.mdb_cash.specs.Credits as credits;
ghost use Rattle.mdb_cashless.specs.Reader as readers;
ghost use Rattle.mdb_page.specs.inner.News.{worth_of};

use mdb_msgs::{BillSetup, ChangerSetup, ReaderConfig};

/// What something is worth.
#[derive(Clone, Copy, PartialEq, Eq, Debug)]
pub(crate) enum Worth {
    /// It has no amount.
    Nothing,
    /// Nothing shows how the device is set up.
    Unknown,
    /// A known amount.
    Known {
        /// In smallest units of money.
        amount: u64,
        /// The decimal places of the device's amounts.
        decimals: u8,
    },
}

/// What a credit of this byte counts: FF is a token, which has no value.
fn counted(credit: u8) -> u8
    ensures { result ≡ credits.counted credit }
{
    if credit == 0xFF { 0 } else { credit }
}

/// The value of a coin of a type.
fn coin_value(setup: &ChangerSetup, coin: u8) -> u64
    ensures value { result ≡ values.coin_value (Some setup.now) coin }
    ensures small { result ≤ 65025 }
{
    u64::from(setup.scaling) * u64::from(counted(setup.credit(coin)))
}

/// What so many coins of a type are worth.
pub(crate) fn coins(setup: &Option<ChangerSetup>, coin: u8, count: u8) -> Worth
    ensures { result ≡ worth_of (option_map (λ setup. setup.decimals) setup.now)
        (count * values.coin_value setup.now coin) }
{
    match setup {
        None => Worth::Unknown,
        Some(setup) => Worth::Known {
            amount: u64::from(count) * coin_value(setup, coin),
            decimals: setup.decimals,
        },
    }
}

/// What a bill of a type is worth.
pub(crate) fn bill(setup: &Option<BillSetup>, number: u8) -> Worth
    ensures { result ≡ worth_of (option_map (λ setup. setup.decimals) setup.now)
        (bill_value setup.now number) }
{
    match setup {
        None => Worth::Unknown,
        Some(setup) => Worth::Known {
            amount: u64::from(setup.scaling) * u64::from(counted(setup.credit(number))),
            decimals: setup.decimals,
        },
    }
}

/// What an amount of a reader is worth.
pub(crate) fn amount(config: Option<ReaderConfig>, number: u16) -> Worth
    ensures { result ≡ worth_of (option_map (λ config. config.decimals) config)
        (readers.value config number) }
{
    match config {
        None => Worth::Unknown,
        Some(config) => Worth::Known {
            amount: u64::from(config.scale) * u64::from(number),
            decimals: config.decimals,
        },
    }
}
