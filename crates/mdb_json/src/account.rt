//! Accounts.

ghost use Rattle.std.specs.Prelude.{◌≡◌, IfOk};
ghost use Rattle.serde_json.specs.View.{view};
ghost use Rattle.mdb_follow.specs.AccountNames.{account_in};
ghost use Rattle.mdb_json.specs.Reports as spec;
ghost use Rattle.mdb_json.specs.Reports.{account_data, accounts_data, range_data};

use mdb_follow::{ACCOUNTS, Account, AccountName, Range};
use mdb_msgs::Device;
use serde_json::{Map, Value, json, put};
use std::alloc::{AllocError, Global};

/// The accounts that a device keeps, by their words: those of all, which stand in the order of
/// `AccountName::ALL`.
///
/// # Errors
///
/// Memory was refused.
pub fn accounts_of(
    alloc: Global,
    all: &[Account; ACCOUNTS],
    device: Device,
) -> Result<Value, AllocError>
    ensures { IfOk result (λ value. view value ≡ accounts_data all.now device) }
{
    let mut accounts = Map::new(alloc);
    for name in AccountName::ALL {
        if keeps(device, name) {
            let value = account(alloc, all, name)?;
            put(&mut accounts, alloc, name.word(), value)?;
        }
    }
    Ok(Value::Object(accounts))
}

/// Whether a device keeps an account.
fn keeps(device: Device, name: AccountName) -> bool
    ensures { result ≡ spec.keeps device name }
{
    name.device() == device
}

/// The sums of an account on each side.
fn account(alloc: Global, all: &[Account; ACCOUNTS], name: AccountName) -> Result<Value, AllocError>
    ensures { IfOk result (λ value. view value ≡ account_data (account_in name all.now)) }
{
    let account = all[name.place()];
    json!(in alloc; {
        "device": range(alloc, account.device)?,
        "controller": range(alloc, account.controller)?,
        "difference": range(alloc, account.difference)?
    })
}

/// The least and the greatest of a sum.
fn range(alloc: Global, range: Range) -> Result<Value, AllocError>
    ensures { IfOk result (λ value. view value ≡ range_data range) }
{
    json!(in alloc; {"least": range.least, "greatest": range.greatest})
}
