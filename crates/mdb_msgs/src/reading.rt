//! What the bytes of an answer to POLL are read as: a reader's, or the validator's.

ghost use Rattle.std.specs.Prelude.{◌≡◌};
ghost use Rattle.mdb_msgs.specs.Readings.{allows, is_extended, may_have_options};

/// Where an identification (09) of a reader has four bytes of options.
#[derive(Clone, Copy, PartialEq, Eq, Debug)]
pub enum Ids {
    /// Nowhere: the base profile.
    Bare,
    /// Where at least 34 bytes are left, and the byte behind the first 30 is 00: a reader of which
    /// a feature level below 3 is known.
    ByNext,
    /// Where at least 34 bytes are left.
    Full,
}

impl Ids {
    /// Whether an identification may have options that begin with this byte, the one behind its
    /// first 30.
    pub(crate) fn allows(self, next: u8) -> bool
        ensures { result ≡ allows self next }
    {
        match self {
            Ids::Bare => false,
            Ids::ByNext => next == 0x00,
            Ids::Full => true,
        }
    }

    /// Whether it has them anywhere.
    fn may_have_options(self) -> bool
        ensures { result ≡ may_have_options self }
    {
        !matches!(self, Ids::Bare)
    }
}

/// Which messages the bytes of an answer are. The validator has those of the base profile, or of
/// the extended one.
#[derive(Clone, Copy, PartialEq, Eq, Debug)]
pub struct Reading {
    /// Whether a reader's messages are those of feature levels 2 and 3: some are longer, and some
    /// are there alone.
    pub is_long: bool,
    /// How an identification is read. The base profile has `Bare` alone, the extended one the
    /// others.
    pub ids: Ids,
}

impl Reading {
    /// That of the base profile.
    pub const BASE: Reading = Reading {
        is_long: false,
        ids: Ids::Bare,
    };

    /// The first of the extended profile where no feature level is known: that of level 1.
    pub const EARLY: Reading = Reading {
        is_long: false,
        ids: Ids::Full,
    };

    /// The second, of bytes that have a fault in the first: that of levels 2 and 3.
    pub const EARLY_LONG: Reading = Reading {
        is_long: true,
        ids: Ids::Full,
    };

    /// Whether the messages are those of the extended profile.
    pub(crate) fn is_extended(self) -> bool
        ensures { result ≡ is_extended self }
    {
        self.ids.may_have_options()
    }
}
