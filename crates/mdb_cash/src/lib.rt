//! What the changer, the validator and the controller may do, and the money that moves with it.
//!
//! [`Changer`] is the [`Pair`](mdb_machine::Pair) of the coin changer, and [`Bill`] that of the
//! bill validator, as in MDB/ICP 4.3. Both are keepers ([`Keeper`](mdb_machine::keeper::Keeper)):
//! they keep what they report until they hear its ACK. Sums are in the smallest unit of money.
//! Nothing here allocates memory.
#![tactic(auto)]

mod bill;
mod changer;
mod credits;
pub mod laws;

pub use bill::{BILL_STATES, Bill, BillActivity, BillKnown, BillState, BillType, Escrow};
pub use changer::{CHANGER_STATES, Changer, ChangerActivity, ChangerKnown, ChangerState};
