//! What the validator's bills are worth (MDB/ICP 4.3, bill validator).

ghost use Rattle.std.specs.Prelude.{◌≡◌, ◌≤◌};
ghost use Rattle.mdb_cash.specs.Bill as spec;

use super::activity::BillActivity;
use crate::credits::counted;
use mdb_msgs::BillSetup;

/// The value of a bill type by a setup table, in smallest units of money.
fn bill_value(setup: &Option<BillSetup>, bill: u8) -> u64
    ensures value { result ≡ spec.bill_value setup.now bill }
    ensures small { result ≤ 16711425 }
{
    match setup {
        None => 0,
        Some(setup) => u64::from(setup.scaling) * u64::from(counted(setup.credit(bill))),
    }
}

/// What a kept message adds to bills-in, in smallest units of money.
pub(crate) fn stacked(setup: &Option<BillSetup>, message: BillActivity) -> u64
    ensures value { result ≡ spec.stacked setup.now message }
    ensures small { result ≤ 16711425 }
{
    match message {
        BillActivity::Stacked(bill) | BillActivity::Recycled(bill) => bill_value(setup, bill),
        _ => 0,
    }
}
