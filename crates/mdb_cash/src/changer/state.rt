//! The states of the changer and the controller.

ghost use Rattle.std.specs.Prelude.{◌≡◌, ◌<◌};
ghost use Rattle.mdb_cash.specs.declared.changer.state.TheConstants.{CHANGER_STATES};

/// How many states there are of the changer and the controller.
pub const CHANGER_STATES: usize = 4;

/// A state of the changer and of the controller's dealings with it (this profile).
#[derive(Clone, Copy, PartialEq, Eq, Debug)]
pub struct ChangerState {
    /// Whether the changer holds kept messages.
    pub holds: bool,
    /// Whether the controller owes a DISPENSE: it sent one, and hasn't received that it was done.
    pub dispense_owed: bool,
}

impl Default for ChangerState {
    /// The state at power-on.
    fn default() -> ChangerState {
        ChangerState::power_on()
    }
}

impl ChangerState {
    ghost use Rattle.mdb_cash.specs.Changer as spec;
    ghost use Rattle.mdb_cash.specs.shared.ChangerCodes.{code_of};

    /// The state at power-on.
    pub(crate) fn power_on() -> ChangerState
        ensures { result ≡ spec.power_on }
    {
        ChangerState {
            holds: false,
            dispense_owed: false,
        }
    }

    /// Its code.
    pub(crate) fn code(self) -> usize
        ensures code { result ≡ code_of self }
        ensures below { result < CHANGER_STATES }
    {
        usize::from(self.holds) + 2 * usize::from(self.dispense_owed)
    }

    /// The state of a code.
    pub(crate) fn at(code: usize) -> ChangerState
        requires { code < CHANGER_STATES }
        ensures { code_of result ≡ code }
    {
        ChangerState {
            holds: code % 2 == 1,
            dispense_owed: code >= 2,
        }
    }
}
