//! The first impossible row.

use mdb_bus::{Blame, Rule};

/// The first impossible row, the rule that it breaks, and who is to blame.
#[derive(Clone, Copy, PartialEq, Eq, Debug)]
pub struct Offence {
    /// The row's number, from 1.
    pub row: u64,
    /// The rule.
    pub rule: Rule,
    /// Who is to blame.
    pub blame: Blame,
}
