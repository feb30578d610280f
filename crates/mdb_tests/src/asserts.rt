//! Comparisons that end a test if something isn't as expected. They are functions, and tables are
//! statics that tests read by reference. The proof of a test grows with its text: each `assert_eq!`
//! in it costs seconds, and so does each entry of a table that is a constant or is made in the
//! test.

use super::streams::Pieces;
use mdb_check::check;
use mdb_text::Outcome;
use mdb_verdict::RunFault;
use std::alloc::Global;
use std::fmt::Debug;
use std::process::Abort;

/// Ends the test where two values differ, and tells both.
pub(crate) fn same<T: PartialEq + Debug + Copy>(rt: &impl Abort, left: T, right: T) {
    assert_eq!(rt; left, right);
}

/// The same of one case of many, which is told too.
pub(crate) fn same_at<T: PartialEq + Debug + Copy, C: Debug + Copy>(
    rt: &impl Abort,
    case: C,
    left: T,
    right: T,
) {
    assert_eq!(rt; left, right, "{case:?}");
}

/// Ends the test where `check` has another answer, or writes something else.
pub(crate) fn check_gives(
    rt: &impl Abort,
    alloc: Global,
    case: &str,
    reader: &mut Pieces,
    wanted: (Result<Outcome, RunFault>, &[u8]),
) {
    let mut out = Vec::new(alloc);
    let answer = check(alloc, reader, &mut out);
    same_at(rt, case, (answer, out.as_slice()), wanted);
}
