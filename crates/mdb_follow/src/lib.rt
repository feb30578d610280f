//! The follower of a recording. It keeps every possible state of each device and of the controller,
//! and the exact bounds of the money in each account.
//!
//! Feed a [`Follower`] the rows one by one or in slices. At any row it returns a [`Report`], with
//! an [`Account`] for each [`AccountName`]. For the first impossible row it returns an [`Offence`]:
//! the row's number, the rule that it breaks, and who is to blame.
//!
//! Sums are in the smallest unit of money of their device. [`Report::device_decimals`] has the
//! decimal places of each device. Times are in microseconds. This crate allocates nothing.
#![tactic(auto)]

mod account;
mod account_name;
mod cell;
mod devices;
mod entries;
mod follower;
mod goal;
pub mod laws;
mod offence;
mod owner;
mod range;
mod report;
mod side;
mod sides;
mod silence;
mod table;
mod untimely;

pub use account::Account;
pub use account_name::{ACCOUNTS, AccountName};
pub use cell::Cell;
pub use devices::device_place;
pub use follower::{Follower, ROWS_MAX, sender_of};
pub use goal::{AccountSide, Bound, Goal};
pub use offence::Offence;
pub use owner::{Owner, owner_of};
pub use range::Range;
pub use report::{DeviceFacts, DeviceReport, Report};
pub use silence::{
    AskCounts, BILL_SILENCE_MAX, CHANGER_SILENCE_MAX, MICROS_PER_SECOND, READER_SILENCE_MAX,
    Silences,
};
pub use table::Table;
pub use untimely::{note_untimely, untimely_sender};
