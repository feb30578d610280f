//! Rows out of their time.

ghost use Rattle.std.specs.Prelude.{◌≡◌, IfOk};
ghost use Rattle.serde_json.specs.View.{view};
ghost use Rattle.mdb_json.specs.Reports.{counts_data, untimely_data};

use mdb_bus::Untimely;
use serde_json::{Value, json};
use std::alloc::{AllocError, Global};

/// How many rows of each sender came out of their time, by its word; null if they aren't counted.
///
/// # Errors
///
/// Memory was refused.
pub fn untimely_value(alloc: Global, counts: &Option<Untimely>) -> Result<Value, AllocError>
    ensures { IfOk result (λ value. view value ≡ untimely_data counts.now) }
{
    match counts {
        Some(counts) => counts_value(alloc, counts),
        None => Ok(Value::Null),
    }
}

/// The counts as a value.
fn counts_value(alloc: Global, counts: &Untimely) -> Result<Value, AllocError>
    ensures { IfOk result (λ value. view value ≡ counts_data counts.now) }
{
    json!(in alloc; {
        "controller": counts.controller,
        "changer": counts.changer,
        "bill": counts.bill,
        "cashless": counts.cashless,
        "cashless-2": counts.cashless2
    })
}
