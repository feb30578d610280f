//! The meaning of the validator's kept messages.

ghost use Rattle.mdb_cash.specs.BillMessages as spec;

use mdb_machine::kept::{KeptAmong, KeptMessage, Part};
use mdb_msgs::BillMsg;

/// The meaning of a kept message of the validator (MDB/ICP 4.3, bill validator).
#[derive(Clone, Copy, PartialEq, Eq, Debug)]
pub enum BillActivity {
    /// 80 to 8F: a bill of this type was stacked.
    Stacked(u8),
    /// 90 to 9F: a bill of this type is in escrow.
    Escrow(u8),
    /// A0 to AF: a bill of this type was returned.
    Returned(u8),
    /// B0 to BF of the extended profile: a bill of this type went to the recycler.
    Recycled(u8),
}

impl Default for BillActivity {
    fn default() -> Self {
        BillActivity::Stacked(0)
    }
}

impl KeptMessage for BillActivity {
    fn is(self, other: Self) -> bool {
        self == other
    }
}

impl KeptAmong for BillActivity {
    type Message = BillMsg;

    ghost part_of = { spec.part_of };

    fn part(message: BillMsg) -> Part<BillActivity> {
        match message {
            BillMsg::Stacked(bill) => Part::Kept(BillActivity::Stacked(bill)),
            BillMsg::Escrow(bill) => Part::Kept(BillActivity::Escrow(bill)),
            BillMsg::Returned(bill) => Part::Kept(BillActivity::Returned(bill)),
            BillMsg::Recycled(bill) => Part::Kept(BillActivity::Recycled(bill)),
            BillMsg::Reset => Part::Reset,
            _ => Part::Other,
        }
    }
}
