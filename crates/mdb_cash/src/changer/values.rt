//! What the changer's coins are worth (MDB/ICP 4.3, coin changer).

ghost use Rattle.std.specs.Prelude.{◌≡◌, ◌≤◌};
ghost use Rattle.mdb_cash.specs.Changer as spec;

use super::activity::ChangerActivity;
use crate::credits::counted;
use mdb_msgs::ChangerSetup;

/// The value of a coin type by a setup table, in smallest units of money.
fn coin_value(setup: &Option<ChangerSetup>, coin: u8) -> u64
    ensures value { result ≡ spec.coin_value setup.now coin }
    ensures small { result ≤ 65025 }
{
    match setup {
        None => 0,
        Some(setup) => u64::from(setup.scaling) * u64::from(counted(setup.credit(coin))),
    }
}

/// The value of what Y1 of DISPENSE asks for.
pub(crate) fn dispensed_value(setup: &Option<ChangerSetup>, coins: u8) -> u64
    ensures value { result ≡ spec.dispensed_value setup.now coins }
    ensures small { result ≤ 975375 }
{
    u64::from(coins / 16) * coin_value(setup, coins % 16)
}

/// What a kept message adds to coins-in.
pub(crate) fn deposited(setup: &Option<ChangerSetup>, message: ChangerActivity) -> u64
    ensures value { result ≡ spec.deposited setup.now message }
    ensures small { result ≤ 65025 }
{
    match message {
        ChangerActivity::CashBox(coin) | ChangerActivity::Tube(coin) => coin_value(setup, coin),
        ChangerActivity::Dispensed { .. } => 0,
    }
}

/// What a kept message adds to paid-out.
pub(crate) fn paid_by_hand(setup: &Option<ChangerSetup>, message: ChangerActivity) -> u64
    ensures value { result ≡ spec.paid_by_hand setup.now message }
    ensures small { result ≤ 16581375 }
{
    match message {
        ChangerActivity::Dispensed { count, coin } => u64::from(count) * coin_value(setup, coin),
        _ => 0,
    }
}
