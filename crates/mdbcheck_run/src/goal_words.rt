//! The goals of `explain` by their words.

use mdb_follow::{AccountName, AccountSide, Bound};

/// The account of this word, if it is one's.
pub(crate) fn account_of(word: &str) -> Option<AccountName> {
    for account in AccountName::ALL {
        if account.word() == word {
            return Some(account);
        }
    }
    None
}

/// The side of this word, if it is one's.
pub(crate) fn side_of(word: &str) -> Option<AccountSide> {
    match word {
        "device" => Some(AccountSide::Device),
        "controller" => Some(AccountSide::Controller),
        "difference" => Some(AccountSide::Difference),
        _ => None,
    }
}

/// The end of a range of this word, if it is one's.
pub(crate) fn bound_of(word: &str) -> Option<Bound> {
    match word {
        "least" => Some(Bound::Least),
        "greatest" => Some(Bound::Greatest),
        _ => None,
    }
}
