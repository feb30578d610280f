//! Lines that are low at rest, as a line is that stands upside down.

use super::names::letter_of;
use mdb_words::Line;
use thiserror::Error;

/// What is reported of a line that is low at rest: how its levels would be read upside down.
#[derive(Clone, Copy, PartialEq, Eq, Debug, Error)]
pub enum LowAtRest {
    /// An option has this line read upside down.
    #[error("line {} is low at rest as --invert or --invert-line has it read", letter_of(.0))]
    Turned(Line),
    /// Both lines are low at rest.
    #[error("both lines are low at rest: --invert reads them upside down")]
    Both,
    /// This line alone is.
    #[error("line {} is low at rest: \
         --invert-line {} reads it upside down", letter_of(.0), letter_of(.0))]
    Alone(Line),
}
