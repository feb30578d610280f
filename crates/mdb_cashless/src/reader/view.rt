//! The controller's view of a reader.

ghost use Rattle.std.specs.Prelude.{◌≡◌, ◌<◌};
ghost use Rattle.mdb_cashless.specs.shared.ReaderCodes as codes;
ghost use Rattle.mdb_cashless.specs.ReaderView as spec;

use super::transaction::{Transaction, is_again};
use mdb_msgs::ReaderMsg;

/// The controller's view of a reader's session (this profile).
#[derive(Clone, Copy, PartialEq, Eq, Debug)]
pub enum View {
    /// The controller knows of no session.
    NoSession,
    /// A session has begun.
    Idle,
    /// It requested a sale, and doesn't know yet that the reader accepted the request.
    Asked,
    /// It waits for the reader's decision.
    Waiting,
    /// The sale is approved.
    Approved,
    /// It sent VEND SUCCESS, and doesn't know yet that the reader accepted that.
    SuccessOwed,
    /// It sent VEND FAILURE, and doesn't know yet that the reader accepted that.
    FailureOwed,
    /// It completes the session.
    Ending,
}

impl View {
    /// Its number.
    pub(crate) fn number(self) -> usize
        ensures number { result ≡ codes.view_number self }
        ensures below { result < 8 }
    {
        match self {
            View::NoSession => 0,
            View::Idle => 1,
            View::Asked => 2,
            View::Waiting => 3,
            View::Approved => 4,
            View::SuccessOwed => 5,
            View::FailureOwed => 6,
            View::Ending => 7,
        }
    }

    /// The view of a number.
    pub(crate) fn at(number: usize) -> View
        requires { number < 8 }
        ensures { codes.view_number result ≡ number }
    {
        match number {
            0 => View::NoSession,
            1 => View::Idle,
            2 => View::Asked,
            3 => View::Waiting,
            4 => View::Approved,
            5 => View::SuccessOwed,
            6 => View::FailureOwed,
            _ => View::Ending,
        }
    }

    /// The view after a transaction command that the controller sends in it, where this was the
    /// last one sent; `None` where it may not send it.
    pub(crate) fn sent(self, last: Option<Transaction>, transaction: Transaction) -> Option<View>
        ensures { result ≡ spec.sent last transaction self }
    {
        match (self, transaction) {
            (View::Idle, Transaction::Request { .. }) => Some(View::Asked),
            (View::Idle, Transaction::Complete) => Some(View::Ending),
            (View::Asked, Transaction::Request { .. }) if is_again(last, transaction) => {
                Some(View::Asked)
            }
            (View::Asked | View::Waiting, Transaction::Cancel) => Some(View::Waiting),
            (View::Approved, Transaction::Success { .. }) => Some(View::SuccessOwed),
            (View::Approved, Transaction::Failure) => Some(View::FailureOwed),
            (View::SuccessOwed, Transaction::Success { .. }) if is_again(last, transaction) => {
                Some(View::SuccessOwed)
            }
            (View::FailureOwed, Transaction::Failure) => Some(View::FailureOwed),
            (View::Ending, Transaction::Complete) => Some(View::Ending),
            _ => None,
        }
    }

    /// Whether the approval of a sale was heard that hasn't ended.
    pub(crate) fn has_approved(self) -> bool
        ensures { result ≡ spec.has_approved self }
    {
        matches!(self, View::Approved)
    }

    /// The view after hearing that a transaction command was taken.
    pub(crate) fn taken(self) -> View
        ensures { result ≡ spec.taken self }
    {
        match self {
            View::Asked => View::Waiting,
            View::SuccessOwed | View::FailureOwed => View::Idle,
            _ => self,
        }
    }

    /// Whether the controller awaits the reader's decision on a sale.
    pub(crate) fn awaits(self) -> bool
        ensures { result ≡ spec.awaits self }
    {
        matches!(self, View::Asked | View::Waiting)
    }

    /// The view after hearing a message.
    pub(crate) fn heard(self, message: ReaderMsg) -> View
        ensures { result ≡ spec.heard message self }
    {
        match (self, message) {
            (_, ReaderMsg::JustReset) | (View::Ending, ReaderMsg::EndSession) => View::NoSession,
            (
                View::NoSession,
                ReaderMsg::BeginSession { .. } | ReaderMsg::BeginSessionLong { .. },
            ) => View::Idle,
            (View::Asked | View::Waiting, ReaderMsg::VendApproved { .. }) => View::Approved,
            (View::Asked | View::Waiting, ReaderMsg::VendDenied) => View::Idle,
            _ => self,
        }
    }
}
