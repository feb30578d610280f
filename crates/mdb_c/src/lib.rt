//! The checker for C, and for languages that can call C.
//!
//! The recording lies in memory as text. [`mdbcheck_check`] puts the verdict and its text into
//! memory that the caller provides, and keeps nothing for the next call. `mdbcheck.h`, next to this
//! crate's `src/`, says the same in C.
#![tactic(auto)]

mod call;
mod codes;
mod options;

pub use call::{MdbcheckTold, mdbcheck_check};
pub use codes::{BAD_OPTIONS, BAD_ROW, NO, NO_MEMORY, NO_ROOM, TOO_LONG, UNREAD, YES};
pub use options::{
    EXTENDED, JOINED, WITHOUT_BILL, WITHOUT_CASHLESS, WITHOUT_CASHLESS_2, WITHOUT_CHANGER,
};
