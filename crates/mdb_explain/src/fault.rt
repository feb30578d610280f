//! Why a replay has no answer.

ghost use Rattle.std.specs.Prelude.{◌≡◌};

use mdb_verdict::RunFault;
use mdb_writing::WriteFailed;
use thiserror::Error;

/// Why marks and rows have no answer.
#[derive(Clone, Copy, PartialEq, Eq, Debug, Error)]
pub enum MarkedFault {
    /// What may also happen to rows without marks.
    #[error("{0}")]
    Run(RunFault),
    /// A mark stands where none may: its row is 0, doesn't come after the row of the mark before
    /// it, ends no act on which the mark may stand, or isn't there.
    #[error("no such mark may stand at row {row}")]
    Mark {
        /// The row that the mark names, counted from 1.
        row: u64,
    },
}

impl From<RunFault> for MarkedFault {
    ghost use Rattle.std.specs.Prelude.{◌≡◌};
    ghost use Rattle.mdb_explain.specs.declared.fault.MarkedFault.{MarkedFault};

    ghost from_gives = { λ fault told. told ≡ MarkedFault.Run fault };

    fn from(fault: RunFault) -> MarkedFault {
        MarkedFault::Run(fault)
    }
}

impl From<WriteFailed> for MarkedFault {
    ghost use Rattle.std.specs.Prelude.{◌≡◌};
    ghost use Rattle.mdb_verdict.specs.declared.fault.RunFault.{RunFault};
    ghost use Rattle.mdb_explain.specs.declared.fault.MarkedFault.{MarkedFault};

    ghost from_gives = { λ failed told. told ≡ MarkedFault.Run RunFault.Write };

    fn from(failed: WriteFailed) -> MarkedFault {
        MarkedFault::Run(RunFault::from(failed))
    }
}
