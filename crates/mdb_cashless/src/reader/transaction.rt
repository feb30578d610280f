//! The commands of a session.

ghost use Rattle.std.specs.Prelude.{◌≡◌, ◌<◌, ◌^◌};
ghost use Rattle.mdb_machine.specs.SmallGains.{AreSmall};
ghost use Rattle.mdb_cashless.specs.Transactions as spec;
ghost use Rattle.mdb_cashless.specs.ReaderAmounts as reader_amounts;

use mdb_msgs::ReaderCommand;

/// A command of a session, 13 00 to 13 04 or 63 00 to 63 04 (MDB/ICP 4.3, cashless device). CASH
/// SALE is none.
#[derive(Clone, Copy, PartialEq, Eq, Debug)]
pub enum Transaction {
    /// VEND REQUEST.
    Request {
        /// The price, in units of the scale factor.
        price: u16,
        /// The number of the item.
        item: u16,
    },
    /// VEND CANCEL.
    Cancel,
    /// VEND SUCCESS.
    Success {
        /// The number of the item.
        item: u16,
    },
    /// VEND FAILURE.
    Failure,
    /// SESSION COMPLETE.
    Complete,
}

/// What the end of a sale adds to the accounts, in the smallest unit of money.
#[derive(Clone, Copy)]
pub struct Ended {
    /// What the sale is worth, if it was made.
    pub sold: u64,
}

impl Ended {
    /// No sale ends.
    pub(crate) fn nothing() -> Ended
        ensures { result ≡ spec.no_end }
    {
        Ended { sold: 0 }
    }

    /// The amounts by slot: what was approved, and what ended.
    #[inline(always)]
    pub(crate) fn amounts(self, approved: u64) -> [u64; 2]
        ensures amounts { result ≡ spec.amounts approved self }
        ensures small { approved < 2 ^ 32 → AreSmall (spec.amounts 0 self) → AreSmall result }
    {
        [approved, self.sold]
    }
}

impl Transaction {
    /// Whether it ends an approved sale.
    pub(crate) fn ends_sale(self) -> bool
        ensures { result ≡ reader_amounts.ends_sale self }
    {
        matches!(self, Transaction::Success { .. })
    }
}

/// What a command adds to the accounts, where a sale of this value is approved, or none.
#[inline(always)]
pub(crate) fn ended_by(approved: bool, command: ReaderCommand, value: u64) -> Ended
    requires { value < 2 ^ 32 }
    ensures amounts { result ≡ spec.ended_by approved command value }
    ensures small { AreSmall (spec.amounts 0 result) }
{
    match transaction_of(command) {
        Some(Transaction::Success { .. }) if approved => Ended { sold: value },
        _ => Ended::nothing(),
    }
}

/// The command of a session that a command is.
// Inlined, since each command to a reader asks for it several times.
#[inline(always)]
pub(crate) fn transaction_of(command: ReaderCommand) -> Option<Transaction>
    ensures { result ≡ spec.transaction_of command }
{
    match command {
        ReaderCommand::VendRequest { price, item } => Some(Transaction::Request { price, item }),
        ReaderCommand::VendCancel => Some(Transaction::Cancel),
        ReaderCommand::VendSuccess { item } => Some(Transaction::Success { item }),
        ReaderCommand::VendFailure => Some(Transaction::Failure),
        ReaderCommand::SessionComplete => Some(Transaction::Complete),
        _ => None,
    }
}

/// Whether the last transaction is a VEND REQUEST.
pub(crate) fn is_request(last: Option<Transaction>) -> bool
    ensures { result ≡ spec.is_request last }
{
    matches!(last, Some(Transaction::Request { .. }))
}

/// Whether this is the last transaction again.
pub(crate) fn is_again(last: Option<Transaction>, transaction: Transaction) -> bool
    ensures { result ≡ spec.is_again last transaction }
{
    match last {
        None => false,
        Some(last) => last == transaction,
    }
}
