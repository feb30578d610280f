//! Why a command line is refused.

use clap::error::ErrorKind;

/// Why a command line is refused.
#[derive(Clone, Copy)]
pub(crate) enum Refusal {
    /// For what `clap` reports about its words, for an option that is given twice, for a word of
    /// `manual` that is no command, or because memory was refused.
    Words(ErrorKind),
    /// For a value of one of its options.
    Value(ValueFault),
}

/// Why a value is refused.
#[derive(Clone, Copy)]
pub(crate) enum ValueFault {
    /// That of `--unit` is none of `s`, `ms`, `us` and `ns`.
    Unit,
    /// That of `--time-of` is neither `first` nor `last`.
    TimeOf,
    /// That of `--controller` or `--peripheral` is empty, M, S or B, or both have one name.
    Name,
    /// That of `--invert-line` is neither M nor S, nor the name of a line.
    Line,
    /// That of `--break` is no length in microseconds, below 1000000000.
    Length,
    /// That of `--from` or `--until` is no end of a part.
    Time,
}
