//! The bounds of a sum.

ghost use Rattle.std.specs.Prelude.{◌≡◌, ◌^◌, ℤ, pos, neg_ℤ, ◌≤ℤ◌};
ghost use Rattle.mdb_follow.specs.Cells.{joined_range, moved_range};
ghost use Rattle.mdb_follow.specs.Limits.{IsRangeWithin};

/// The least and the greatest value of a sum, in the smallest unit of money.
#[derive(Clone, Copy, PartialEq, Eq, Debug, Default)]
pub struct Range {
    /// The least.
    pub least: i64,
    /// The greatest.
    pub greatest: i64,
}

impl Range {
    /// From 0 to 0.
    pub const NOTHING: Range = Range {
        least: 0,
        greatest: 0,
    };

    /// The range of the sum with so much added.
    pub(crate) fn moved(self, by: i64) -> Range
        requires within { IsRangeWithin (2 ^ 62) self }
        requires low { neg_ℤ (pos (2 ^ 32)) ≤ℤ by }
        requires high { by ≤ℤ pos (2 ^ 32) }
        ensures { result ≡ moved_range self by }
    {
        Range {
            least: self.least + by,
            greatest: self.greatest + by,
        }
    }

    /// The range of a sum that is in one of two.
    pub(crate) fn joined(self, other: Range) -> Range
        ensures { result ≡ joined_range self other }
    {
        Range {
            least: self.least.min(other.least),
            greatest: self.greatest.max(other.greatest),
        }
    }
}
