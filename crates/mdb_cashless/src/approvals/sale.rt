//! The sale under way.

ghost use Rattle.std.specs.Prelude.{◌≡◌, ◌<◌, ◌^◌, Some};
ghost use Rattle.mdb_cashless.specs.declared.approvals.sale.Sale.TheVariants.{Awaited};
ghost use Rattle.mdb_cashless.specs.ExtendedFacts as spec;
ghost use Rattle.mdb_cashless.specs.ExtendedReader.{approved_to};
ghost use Rattle.mdb_cashless.specs.inner.Approvals.{is_sale_known};

use crate::reader::values::value;
use mdb_msgs::{ReaderCommand, ReaderConfig, ReaderIter, ReaderMsg};

/// The sale under way between the controller and a reader, as far as it is known (this profile).
#[derive(Clone, Copy, PartialEq, Eq, Debug)]
pub enum Sale {
    /// Nothing is known of it, since the recording begins in mid-session.
    Unknown,
    /// The controller awaits no approval, and no more is known.
    Unawaited,
    /// There is none.
    Nothing,
    /// The controller asked a VEND REQUEST, and awaits its approval.
    Awaited,
    /// It asked one, and doesn't await the approval: it heard a denial, or that the reader was
    /// reset.
    Asked,
    /// It heard the approval.
    Approved {
        /// The amount, in units of the scale factor.
        amount: u16,
    },
    /// It told the reader of the sale, by VEND SUCCESS.
    Sold {
        /// The number of the item.
        item: u16,
    },
}

impl Sale {
    /// The sale after VEND CANCEL.
    fn cancelled(self) -> Sale
        ensures { result ≡ spec.cancelled self }
    {
        match self {
            Sale::Awaited | Sale::Asked | Sale::Unknown => self,
            _ => Sale::Nothing,
        }
    }

    /// The sale after a command that the controller asks.
    pub(crate) fn asked(self, command: ReaderCommand) -> Sale
        ensures { result ≡ spec.sale_asked (Some command) self }
    {
        match command {
            ReaderCommand::VendRequest { .. } => Sale::Awaited,
            ReaderCommand::VendCancel => self.cancelled(),
            ReaderCommand::VendSuccess { item } => Sale::Sold { item },
            ReaderCommand::Reset | ReaderCommand::VendFailure | ReaderCommand::SessionComplete => {
                Sale::Nothing
            }
            _ => self,
        }
    }

    /// The sale where the controller doesn't await an approval.
    fn unawaited(self) -> Sale
        ensures { result ≡ spec.unawaited self }
    {
        match self {
            Sale::Awaited => Sale::Asked,
            Sale::Unknown => Sale::Unawaited,
            _ => self,
        }
    }

    /// The sale after a message that the controller acknowledges.
    fn heard(self, message: ReaderMsg) -> Sale
        ensures { result ≡ spec.sale_heard message self }
    {
        match message {
            ReaderMsg::JustReset | ReaderMsg::VendDenied => self.unawaited(),
            ReaderMsg::VendApproved { amount } => match self {
                Sale::Awaited | Sale::Asked => Sale::Approved { amount },
                _ => self.unawaited(),
            },
            _ => self,
        }
    }

    /// The sale after messages.
    // Not inlined, so that both readers share it.
    #[inline(never)]
    pub(crate) fn all_heard(self, messages: ReaderIter<'_>) -> Sale
        ensures { result ≡ spec.sale_all_heard messages.entry self }
    {
        let mut sale = self;
        for message in messages {
            sale = sale.heard(message);
        }
        sale
    }

    /// What messages add to the controller's approved: an approval that it awaits.
    pub(crate) fn approved(self, config: Option<ReaderConfig>, messages: ReaderIter<'_>) -> u64
        ensures value { result ≡ approved_to config self messages.entry }
        ensures small { result < 2 ^ 32 }
    {
        match self {
            Sale::Awaited => awaited(config, messages),
            _ => 0,
        }
    }

    /// Whether it is known if the sale is made.
    pub(crate) fn is_known(self) -> bool
        ensures { result ≡ is_sale_known self }
    {
        !matches!(self, Sale::Unknown | Sale::Unawaited)
    }
}

/// What messages add to the controller's approved where it awaits an approval: the first 00, 05 or
/// 06 ends that.
fn awaited(config: Option<ReaderConfig>, messages: ReaderIter<'_>) -> u64
    ensures value { result ≡ approved_to config Awaited messages.entry }
    ensures small { result < 2 ^ 32 }
{
    for message in messages {
        match message {
            ReaderMsg::VendApproved { amount } => return value(config, amount),
            ReaderMsg::JustReset | ReaderMsg::VendDenied => return 0,
            _ => {}
        }
    }
    0
}
