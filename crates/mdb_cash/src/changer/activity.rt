//! The meaning of the changer's kept messages.

ghost use Rattle.mdb_cash.specs.ChangerMessages as spec;

use mdb_machine::kept::{KeptAmong, KeptMessage, Part};
use mdb_msgs::ChangerMsg;

/// The meaning of a kept message of the changer (MDB/ICP 4.3, coin changer). Two such messages are
/// the same if their first bytes are. The second byte counts the coins that are then in the tube
/// (this profile).
#[derive(Clone, Copy, PartialEq, Eq, Debug)]
pub enum ChangerActivity {
    /// 80 to FF: coins of a type were dispensed by hand.
    Dispensed {
        /// How many.
        count: u8,
        /// Their type.
        coin: u8,
    },
    /// 40 to 4F: a coin of this type was deposited to the cash box.
    CashBox(u8),
    /// 50 to 5F: a coin of this type was deposited to a tube.
    Tube(u8),
}

impl Default for ChangerActivity {
    fn default() -> Self {
        ChangerActivity::CashBox(0)
    }
}

impl KeptMessage for ChangerActivity {
    fn is(self, other: Self) -> bool {
        self == other
    }
}

impl KeptAmong for ChangerActivity {
    type Message = ChangerMsg;

    ghost part_of = { spec.part_of };

    fn part(message: ChangerMsg) -> Part<ChangerActivity> {
        match message {
            ChangerMsg::ManualDispense { count, coin, .. } => {
                Part::Kept(ChangerActivity::Dispensed { count, coin })
            }
            ChangerMsg::CashBox { coin, .. } => Part::Kept(ChangerActivity::CashBox(coin)),
            ChangerMsg::Tube { coin, .. } => Part::Kept(ChangerActivity::Tube(coin)),
            ChangerMsg::Reset => Part::Reset,
            _ => Part::Other,
        }
    }
}
