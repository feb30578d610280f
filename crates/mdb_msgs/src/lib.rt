//! Commands of the controller and replies of the peripherals, as the blocks that carry them.
//!
//! [`read_command`] and [`write_command`] turn a block into a [`Command`] and back. [`read_reply`]
//! and [`write_reply`] do the same for a [`Reply`], which has a meaning only with the command that
//! it answers. [`need_of`] gives the length of a controller's block from its first bytes.
//!
//! The devices are the coin changer (08H), the bill validator (30H) and the two cashless readers
//! (10H, 60H), as in MDB/ICP 4.3. Amounts are in units of the device's scale factor. This crate
//! allocates nothing.
#![tactic(auto)]

mod answer;
mod command;
mod command_reading;
mod command_writing;
mod device_set;
mod fault;
mod first_needs;
pub mod laws;
mod need;
mod needs;
mod reading;
mod reply;
mod setup_data;
mod setups;
mod two_bytes;

pub use answer::DataForm;
pub use command::{BillCommand, ChangerCommand, Command, Device, ReaderCommand, ReaderUnit};
pub use command_reading::{command_of, polled, read_command};
pub use command_writing::write_command;
pub use device_set::DeviceSet;
pub use fault::MsgFault;
pub use need::Need;
pub use needs::{begins_options, need_of, need_without};
pub use reading::{Ids, Reading};
pub use reply::bill::BillMsg;
pub use reply::changer::ChangerMsg;
pub use reply::reader::{ReaderIter, ReaderList, ReaderMsg};
pub use reply::setup::{BillSetup, ChangerSetup, Stacker, TubeStatus};
pub use reply::{Reply, read_reply, reply_of, write_reply};
pub use setup_data::last_level;
pub use setups::{ReaderConfig, ReaderSetup, Setups};
