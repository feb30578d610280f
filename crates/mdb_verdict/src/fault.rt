//! Why there is no answer.

ghost use Rattle.std.specs.Prelude.{◌≡◌};

use mdb_records::ReadFault;
use mdb_words::RowFault;
use mdb_writing::WriteFailed;
use std::alloc::AllocError;
use thiserror::Error;

/// Why there is no answer.
#[derive(Clone, Copy, PartialEq, Eq, Debug, Error)]
pub enum RunFault {
    /// A record is no row of a recording.
    #[error("row {row}: {fault:?}")]
    BadRow {
        /// The record's number, from 1.
        row: u64,
        /// What is wrong with it.
        fault: RowFault,
    },
    /// The recording has more rows than one may have.
    #[error("more rows than are allowed")]
    TooLong,
    /// The reader failed, or the input has more bytes than one may have.
    #[error("the input can't be read, or has more bytes than are allowed")]
    Read,
    /// The writer failed.
    #[error("the output can't be written")]
    Write,
    /// Memory was refused.
    #[error("out of memory")]
    Memory,
}

impl From<ReadFault> for RunFault {
    ghost use Rattle.std.specs.Prelude.{◌≡◌};
    ghost use Rattle.mdb_verdict.specs.Ending.{run_fault_of};

    ghost from_gives = { λ fault told. told ≡ run_fault_of fault };

    fn from(fault: ReadFault) -> RunFault {
        match fault {
            ReadFault::Read => RunFault::Read,
            ReadFault::Memory => RunFault::Memory,
        }
    }
}

impl From<WriteFailed> for RunFault {
    ghost use Rattle.std.specs.Prelude.{◌≡◌};
    ghost use Rattle.mdb_verdict.specs.declared.fault.RunFault.{RunFault};

    ghost from_gives = { λ failed told. told ≡ RunFault.Write };

    fn from(_: WriteFailed) -> RunFault {
        RunFault::Write
    }
}

impl From<AllocError> for RunFault {
    ghost use Rattle.std.specs.Prelude.{◌≡◌};
    ghost use Rattle.mdb_verdict.specs.declared.fault.RunFault.{RunFault};

    ghost from_gives = { λ refused told. told ≡ RunFault.Memory };

    fn from(_: AllocError) -> RunFault {
        RunFault::Memory
    }
}
