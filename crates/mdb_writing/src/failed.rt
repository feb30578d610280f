//! Why a text isn't written.

use thiserror::Error;

/// The writer failed, or took nothing of what it was given.
#[derive(Clone, Copy, PartialEq, Eq, Debug, Error)]
#[error("the output can't be written")]
pub struct WriteFailed;
