//! The states of a cashless reader.

ghost use Rattle.std.specs.Prelude.{◌≡◌, ◌<◌, ℕ};
ghost use Rattle.mdb_msgs.specs.declared.command.ReaderCommand.TheVariants as reader;
ghost use Rattle.mdb_cashless.specs.shared.ReaderCodes as codes;
ghost use Rattle.mdb_cashless.specs.ReaderDevice as spec;

use super::messages::ReaderActivity;
use super::transaction::{Transaction, is_request};
use mdb_msgs::ReaderCommand;

/// Where a reader returns to at the end of a session (this profile).
#[derive(Clone, Copy, PartialEq, Eq, Debug)]
pub enum Home {
    /// It was disabled last.
    Disabled,
    /// It was enabled last.
    Enabled,
}

/// A state of a cashless reader (MDB/ICP 4.3, cashless device; the states Approved and Ending, and
/// where it returns to, this profile).
#[derive(Clone, Copy, PartialEq, Eq, Debug)]
pub enum DeviceState {
    /// It waits for SETUP: its power-on state.
    Inactive,
    /// It is set up, and accepts no card.
    Disabled,
    /// It accepts cards.
    Enabled,
    /// In a session: it waits for a request.
    Idle(Home),
    /// In a session: it works on a request.
    Vend(Home),
    /// In a session: it has approved a sale.
    Approved(Home),
    /// The session was completed, and the reader hasn't reported its end yet.
    Ending(Home),
}

impl Home {
    /// Its number.
    fn number(self) -> usize
        ensures number { result ≡ codes.home_number self }
        ensures below { result < 2 }
    {
        match self {
            Home::Disabled => 0,
            Home::Enabled => 1,
        }
    }

    /// The state there.
    fn state(self) -> DeviceState
        ensures { result ≡ spec.returned self }
    {
        match self {
            Home::Disabled => DeviceState::Disabled,
            Home::Enabled => DeviceState::Enabled,
        }
    }
}

impl DeviceState {
    /// Its number.
    pub(crate) fn number(self) -> usize
        ensures number { result ≡ codes.device_number self }
        ensures below { result < 11 }
    {
        match self {
            DeviceState::Inactive => 0,
            DeviceState::Disabled => 1,
            DeviceState::Enabled => 2,
            DeviceState::Idle(home) => 3 + home.number(),
            DeviceState::Vend(home) => 5 + home.number(),
            DeviceState::Approved(home) => 7 + home.number(),
            DeviceState::Ending(home) => 9 + home.number(),
        }
    }

    /// The state of a number.
    pub(crate) fn at(number: usize) -> DeviceState
        requires { number < 11 }
        ensures { codes.device_number result ≡ number }
    {
        match number {
            0 => DeviceState::Inactive,
            1 => DeviceState::Disabled,
            2 => DeviceState::Enabled,
            3 => DeviceState::Idle(Home::Disabled),
            4 => DeviceState::Idle(Home::Enabled),
            5 => DeviceState::Vend(Home::Disabled),
            6 => DeviceState::Vend(Home::Enabled),
            7 => DeviceState::Approved(Home::Disabled),
            8 => DeviceState::Approved(Home::Enabled),
            9 => DeviceState::Ending(Home::Disabled),
            _ => DeviceState::Ending(Home::Enabled),
        }
    }

    /// The state after taking a command.
    pub(crate) fn after(self, command: ReaderCommand) -> DeviceState
        ensures { result ≡ spec.effect command self }
    {
        match (command, self) {
            (ReaderCommand::Reset, _) => DeviceState::Inactive,
            (ReaderCommand::SetupConfig { .. }, DeviceState::Inactive) => DeviceState::Disabled,
            (ReaderCommand::Enable, _) => self.enabled(),
            (ReaderCommand::Disable, _) => self.disabled(),
            (ReaderCommand::VendRequest { .. } | ReaderCommand::VendCancel, _) => self.vending(),
            (
                ReaderCommand::VendSuccess { .. } | ReaderCommand::VendFailure,
                DeviceState::Approved(home),
            ) => DeviceState::Idle(home),
            (ReaderCommand::SessionComplete, _) => self.ending(),
            _ => self,
        }
    }

    /// The state after READER ENABLE.
    fn enabled(self) -> DeviceState
        ensures { result ≡ spec.effect reader.Enable self }
    {
        match self {
            DeviceState::Disabled => DeviceState::Enabled,
            DeviceState::Idle(_) => DeviceState::Idle(Home::Enabled),
            DeviceState::Vend(_) => DeviceState::Vend(Home::Enabled),
            DeviceState::Approved(_) => DeviceState::Approved(Home::Enabled),
            DeviceState::Ending(_) => DeviceState::Ending(Home::Enabled),
            DeviceState::Inactive | DeviceState::Enabled => self,
        }
    }

    /// The state after READER DISABLE.
    fn disabled(self) -> DeviceState
        ensures { result ≡ spec.effect reader.Disable self }
    {
        match self {
            DeviceState::Enabled => DeviceState::Disabled,
            DeviceState::Idle(_) => DeviceState::Idle(Home::Disabled),
            DeviceState::Vend(_) => DeviceState::Vend(Home::Disabled),
            DeviceState::Approved(_) => DeviceState::Approved(Home::Disabled),
            DeviceState::Ending(_) => DeviceState::Ending(Home::Disabled),
            DeviceState::Inactive | DeviceState::Disabled => self,
        }
    }

    /// The state after VEND REQUEST and VEND CANCEL.
    fn vending(self) -> DeviceState
        ensures cancel { result ≡ spec.effect reader.VendCancel self }
        ensures request { (price item : ℕ)
            → result ≡ spec.effect (reader.VendRequest price item) self }
    {
        match self {
            DeviceState::Idle(home) | DeviceState::Vend(home) | DeviceState::Approved(home) =>
                DeviceState::Vend(home),
            _ => self,
        }
    }

    /// The state after SESSION COMPLETE.
    fn ending(self) -> DeviceState
        ensures { result ≡ spec.effect reader.SessionComplete self }
    {
        match self {
            DeviceState::Idle(home)
            | DeviceState::Vend(home)
            | DeviceState::Approved(home)
            | DeviceState::Ending(home) => DeviceState::Ending(home),
            _ => self,
        }
    }

    /// Whether it has approved a sale that hasn't ended.
    pub(crate) fn has_approved(self) -> bool
        ensures { result ≡ spec.has_approved self }
    {
        matches!(self, DeviceState::Approved(_))
    }

    /// The state after a new kept message, where this was the last transaction taken; `None` where
    /// the message is impossible.
    pub(crate) fn told(
        self,
        last: Option<Transaction>,
        message: ReaderActivity,
    ) -> Option<DeviceState>
        ensures { result ≡ spec.told last message self }
    {
        match (message, self) {
            (
                ReaderActivity::SessionBegun { .. } | ReaderActivity::SessionBegunLong { .. },
                DeviceState::Enabled,
            ) => Some(DeviceState::Idle(Home::Enabled)),
            (ReaderActivity::VendApproved { .. }, DeviceState::Vend(home)) if is_request(last) => {
                Some(DeviceState::Approved(home))
            }
            (ReaderActivity::VendDenied, DeviceState::Vend(home)) => Some(DeviceState::Idle(home)),
            (ReaderActivity::SessionEnded, DeviceState::Ending(home)) => Some(home.state()),
            _ => None,
        }
    }
}
