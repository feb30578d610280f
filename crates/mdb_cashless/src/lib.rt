//! What a cashless reader and the controller may do, and the money that moves with it.
//!
//! [`Reader`] is the [`Pair`](mdb_machine::Pair) of a cashless reader, at 10H or at 60H, as in
//! MDB/ICP 4.3, cashless device. [`Approvals`] is that of a reader by the extended profile, which
//! follows what money hangs on. [`ReaderByProfile`] is the one or the other. Amounts in messages
//! are in units of the reader's scale factor. Sums are in the smallest unit of money. Nothing here
//! allocates memory.
#![tactic(auto)]

mod approvals;
mod by_profile;
pub mod laws;
mod reader;

pub use approvals::Approvals;
pub use approvals::facts::ApprovalFacts;
pub use approvals::sale::Sale;
pub use approvals::state::{APPROVAL_STATES, ApprovalState};
pub use by_profile::ReaderByProfile;
pub use by_profile::facts::KnownByProfile;
pub use by_profile::state::{STATES_BY_PROFILE, StateByProfile};
pub use reader::Reader;
pub use reader::device::{DeviceState, Home};
pub use reader::known::ReaderKnown;
pub use reader::messages::ReaderActivity;
pub use reader::state::{READER_STATES, ReaderState};
pub use reader::transaction::{Ended, Transaction};
pub use reader::view::View;
