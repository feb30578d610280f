//! The part of an export that is asked for.

/// The part of an export that is asked for.
#[derive(Clone, Copy, Debug)]
pub struct Part {
    /// Its first microsecond. `None`: from the beginning.
    pub from: Option<u64>,
    /// Its last microsecond. `None`: to the end.
    pub until: Option<u64>,
}

/// Where a time is.
#[derive(Clone, Copy, PartialEq, Eq)]
pub enum Side {
    /// Before the part.
    Before,
    /// In it.
    Within,
    /// After it.
    After,
}

impl Part {
    /// Where a microsecond is, by the part.
    pub fn side_of(self, at: u64) -> Side {
        if self.from.is_some_and(|first| at < first) {
            Side::Before
        } else if self.until.is_some_and(|last| at > last) {
            Side::After
        } else {
            Side::Within
        }
    }
}
