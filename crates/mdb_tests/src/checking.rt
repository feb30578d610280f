//! What no contract says of `check`: how faults are worded, and what comes before a failed read.

use super::asserts::{check_gives, same, same_at};
use super::streams::{ENDED, Pieces};
use mdb_bus::{Blame, Rule};
use mdb_follow::Offence;
use mdb_text::Outcome;
use mdb_verdict::RunFault;
use mdb_words::RowFault;
use std::io::ErrorKind;

/// An answer without the rest of its report or offence.
pub(crate) fn counted<F: Drop>(answer: Result<Outcome, F>) -> Result<Option<u64>, F> {
    match answer {
        Ok(Outcome::Yes(report)) => Ok(Some(report.rows)),
        Ok(Outcome::No(_)) => Ok(None),
        Err(fault) => Err(fault),
    }
}

/// The answer to a text without a yes, by its offence or fault.
pub(crate) fn ended(end: &Result<Offence, RunFault>) -> Result<Outcome, RunFault> {
    match end {
        Ok(offence) => Ok(Outcome::No(*offence)),
        Err(fault) => Err(*fault),
    }
}

/// The texts of faults.
static FAULTS: [(RunFault, &str); 5] = [
    (
        RunFault::BadRow {
            row: 7,
            fault: RowFault::BadTime,
        },
        "row 7: BadTime",
    ),
    (RunFault::TooLong, "more rows than are allowed"),
    (
        RunFault::Read,
        "the input can't be read, or has more bytes than are allowed",
    ),
    (RunFault::Write, "the output can't be written"),
    (RunFault::Memory, "out of memory"),
];

#[test]
fn texts_of_faults(rt: HostRuntime) {
    for (fault, text) in &FAULTS {
        let told = format!(in rt.alloc(); "{fault}").expect(&rt, "memory");
        same(&rt, told.as_str(), *text);
    }
}

/// The offence of a first row that cannot be.
const FIRST_ROW: Offence = Offence {
    row: 1,
    rule: Rule::Speaker,
    blame: Blame::Other,
};

/// The report on it.
const FIRST_ROW_REPORT: &[u8] = b"verdict no\nrow 1\nrule Speaker\nblame other\n";

/// An offence ends the reading, and comes before a read that fails.
#[test]
fn an_offence_ends_the_reading(rt: HostRuntime) {
    for (case, text, most, has_failed) in &ENDED {
        let mut reader = Pieces::failing(*text, *most, 3, ErrorKind::BrokenPipe);
        let wanted = (Ok(Outcome::No(FIRST_ROW)), FIRST_ROW_REPORT);
        check_gives(&rt, rt.alloc(), *case, &mut reader, wanted);
        same_at(&rt, *case, reader.has_failed(), *has_failed);
    }
}
