//! The call.

ghost use Rattle.std.specs.Prelude.{◌≡◌, ◌≢◌, ◌<◌, ◌≤◌, ◌↔◌, ◌++◌, ℕ, List, None, Result, Ok, Err, IfOk, IfSome, drop, length};
ghost use Rattle.std.specs.Bool.{OnFalse, OnTrue};
ghost use Rattle.csv.specs.Reading.{default_config, records, strip_bom};
ghost use Rattle.mdb_follow.specs.declared.follower.TheConstants.{ROWS_MAX};
ghost use Rattle.mdb_text.specs.Text.{report_text};
ghost use Rattle.mdb_text.specs.declared.outcome.Outcome.{Outcome};
ghost use Rattle.mdb_verdict.specs.Headline.{Headline};
ghost use Rattle.mdb_verdict.specs.Telling.{IsOwnAnswer};
ghost use Rattle.mdb_verdict.specs.Verdict.{IsAnswer};
ghost use Rattle.mdb_verdict.specs.declared.fault.RunFault.{RunFault};
ghost use Rattle.mdb_c.specs.Codes as spec;
ghost use Rattle.mdb_c.specs.Given.{IsGiven, IsPut, nothing_told};
ghost use Rattle.mdb_c.specs.Options.{scope_of};
ghost use Rattle.mdb_c.specs.declared.codes.TheConstants.{BAD_OPTIONS, NO_MEMORY, UNREAD};

use crate::codes::{
    BAD_OPTIONS, NO_ROOM, fault_code, fault_number, fault_row, verdict_code, verdict_row,
};
use crate::options::scope_of;
use mdb_check::check_scoped;
use mdb_text::Outcome;
use mdb_verdict::{RunFault, laws};
use std::alloc::Global;

/// What the call reports in addition to its code.
#[repr(C)]
#[derive(Drop)]
pub struct MdbcheckTold {
    /// `YES`: the number of rows. `NO`: the impossible row, from 1. `BAD_ROW`: the record that is
    /// no row, from 1. `NO_ROOM`: that of the verdict. Else 0.
    pub row: u64,
    /// The number of bytes of the report, also if it has no room. 0 if there is no verdict.
    pub length: u64,
    /// `BAD_ROW`: why the record is no row, from 1 in the order of `RowFault`. Else 0.
    pub fault: u64,
}

/// Checks the recording that lies in memory as text, with these options. It puts the text that
/// `mdbcheck check` prints at the beginning of the report's buffer, and leaves the buffer's other
/// bytes as they were. It returns a code:
///
/// - `YES`: all rows are possible;
/// - `NO`: a row is impossible;
/// - `BAD_ROW`: a record is no row;
/// - `TOO_LONG`: there are more rows than a recording may have;
/// - `UNREAD`: the text has more bytes than it may have;
/// - `NO_MEMORY`: memory was refused;
/// - `NO_ROOM`: there is a verdict, and its text has no room;
/// - `BAD_OPTIONS`: a bit is set that is no option.
///
/// With any code but `YES` and `NO` the buffer stays as it was.
#[unsafe(no_mangle)]
pub extern "C" fn mdbcheck_check(
    alloc: Global,
    options: u32,
    text: &[u8],
    report: &mut [u8],
    told: &mut MdbcheckTold,
) -> u32
    ensures answer { IfSome (scope_of options) (λ scope. (answer : Result Outcome RunFault)
        × IsAnswer scope ROWS_MAX (records default_config (strip_bom text.now)) answer
        × IfOk answer (Headline scope ROWS_MAX (records default_config (strip_bom text.now)))
        × IsGiven scope answer report.old result report.new told.new) }
    ensures only { IfSome (scope_of options) (λ scope. (answer : Result Outcome RunFault)
        → IsAnswer scope ROWS_MAX (records default_config (strip_bom text.now)) answer
        → IsOwnAnswer answer → result ≢ UNREAD → result ≢ NO_MEMORY
        → IsGiven scope answer report.old result report.new told.new) }
    ensures bad_options { result ≡ BAD_OPTIONS ↔ (scope_of options ≡ None) }
    ensures refused { scope_of options ≡ None
        → (report.new ≡ report.old) × (told.new ≡ nothing_told) }
{
    laws::texts_have_one_answer();
    let Some(scope) = scope_of(options) else {
        told.row = 0;
        told.length = 0;
        told.fault = 0;
        return BAD_OPTIONS;
    };
    let mut printed = Vec::new(alloc);
    match check_scoped(alloc, &scope, text, &mut printed) {
        Ok(outcome) => give(&outcome, printed.as_slice(), report, told),
        Err(fault) => give_fault(fault, told),
    }
}

/// Gives a verdict, whose text this is.
fn give(outcome: &Outcome, text: &[u8], report: &mut [u8], told: &mut MdbcheckTold) -> u32
    ensures put { IsPut text.now outcome.now report.old result report.new }
    ensures row { told.new.row ≡ spec.verdict_row outcome.now }
    ensures length { told.new.length ≡ length text.now }
    ensures fault { told.new.fault ≡ 0 }
{
    told.row = verdict_row(outcome);
    told.length = text.len() as u64;
    told.fault = 0;
    if put(text, report) {
        verdict_code(outcome)
    } else {
        NO_ROOM
    }
}

/// Tells why there is no verdict.
fn give_fault(fault: RunFault, told: &mut MdbcheckTold) -> u32
    ensures code { result ≡ spec.fault_code fault }
    ensures row { told.new.row ≡ spec.fault_row fault }
    ensures length { told.new.length ≡ 0 }
    ensures fault { told.new.fault ≡ spec.fault_number fault }
{
    told.row = fault_row(fault);
    told.length = 0;
    told.fault = fault_number(fault);
    fault_code(fault)
}

/// Puts a text in front of a buffer, if it has room there, and answers whether it has.
fn put(text: &[u8], buffer: &mut [u8]) -> bool
    ensures whole { OnTrue result (length text.now ≤ length buffer.old) }
    ensures room { OnFalse result (length buffer.old < length text.now) }
    ensures bytes { OnTrue result
        (buffer.new ≡ text.now ++ drop (length text.now) buffer.old) }
    ensures still { OnFalse result (buffer.new ≡ buffer.old) }
{
    if text.len() > buffer.len() {
        return false;
    }
    buffer[..text.len()].copy_from_slice(text);
    true
}
