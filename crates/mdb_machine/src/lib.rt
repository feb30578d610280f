//! What the machines of all devices share.
//!
//! A [`Pair`] is a device together with the controller's dealings with it. It has a few states,
//! each with a code. For each act it gives the steps that are allowed from a state, and what they
//! add to the sums. A device that keeps messages until it hears their ACK is a
//! [`Keeper`](keeper::Keeper), and what it does of its own is its [`Conduct`](conduct::Conduct), as
//! in MDB/ICP 4.3. Sums are in the smallest unit of money. Nothing here allocates memory.
#![tactic(auto)]

mod choice;
pub mod conduct;
mod gains;
pub mod keeper;
pub mod kept;
pub mod laws;
mod pair;
pub mod past;

pub use choice::{Choice, approves, other_choice};
pub use gains::{Gains, SLOTS, amount_at};
pub use pair::{HasCode, Pair, can_stand_for, coded};
