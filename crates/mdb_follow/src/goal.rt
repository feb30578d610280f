//! Goals: the bounds of a report, one by one.

use crate::AccountName;

/// Whose count of an account, or the difference of both (this profile).
#[derive(Clone, Copy, PartialEq, Eq, Debug)]
pub enum AccountSide {
    /// The device's count.
    Device,
    /// The controller's count.
    Controller,
    /// The device's count minus the controller's.
    Difference,
}

/// Which bound.
#[derive(Clone, Copy, PartialEq, Eq, Debug)]
pub enum Bound {
    /// The least.
    Least,
    /// The greatest.
    Greatest,
}

/// A bound of a report (this profile), for example the least of the device's `coins-in`.
#[derive(Clone, Copy, PartialEq, Eq, Debug)]
pub struct Goal {
    /// The account.
    pub account: AccountName,
    /// Its side.
    pub side: AccountSide,
    /// Which bound.
    pub bound: Bound,
}
