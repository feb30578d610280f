//! What a reader's amounts are worth (MDB/ICP 4.3, cashless device).

ghost use Rattle.std.specs.Prelude.{◌≡◌, ◌≤◌, ◌<◌, ◌^◌, length};
ghost use Rattle.mdb_cashless.specs.Reader as spec;

use super::messages::ReaderActivity;
use super::view::View;
use mdb_msgs::{ReaderConfig, ReaderMsg};

/// The value of an amount by a config message, in smallest units of money.
pub(crate) fn value(config: Option<ReaderConfig>, amount: u16) -> u64
    ensures value { result ≡ spec.value config amount }
    ensures small { result ≤ 16711425 }
{
    match config {
        None => 0,
        Some(config) => u64::from(config.scale) * u64::from(amount),
    }
}

/// What a new kept message adds to the reader's approved.
fn approved(config: Option<ReaderConfig>, message: ReaderActivity) -> u64
    ensures value { result ≡ spec.approved config message }
    ensures small { result ≤ 16711425 }
{
    match message {
        ReaderActivity::VendApproved { amount } => value(config, amount),
        _ => 0,
    }
}

/// What new kept messages add to the reader's approved.
pub(crate) fn all_approved(config: Option<ReaderConfig>, news: &[ReaderActivity]) -> u64
    requires { length news.now ≤ 35 }
    ensures value { result ≡ spec.all_approved config news.now }
    ensures small { result < 2 ^ 32 }
{
    let mut total = 0;
    for message in news {
        total += approved(config, *message);
    }
    total
}

/// What a heard message adds to the controller's approved.
pub(crate) fn approved_to(config: Option<ReaderConfig>, view: View, message: ReaderMsg) -> u64
    ensures value { result ≡ spec.approved_to config view message }
    ensures small { result ≤ 16711425 }
{
    match message {
        ReaderMsg::VendApproved { amount } if view.awaits() => value(config, amount),
        _ => 0,
    }
}
