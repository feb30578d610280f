//! The states of a reader and the controller.

ghost use Rattle.std.specs.Prelude.{◌≡◌, ◌<◌};
ghost use Rattle.mdb_cashless.specs.declared.reader.state.TheConstants.{READER_STATES};

use super::device::DeviceState;
use super::view::View;

/// How many states there are of a reader and the controller.
pub const READER_STATES: usize = 176;

/// A state of a cashless reader and of the controller's dealings with it (this profile).
#[derive(Clone, Copy, PartialEq, Eq, Debug)]
pub struct ReaderState {
    /// The reader.
    pub device: DeviceState,
    /// The controller's view of it.
    pub view: View,
    /// Whether the reader holds kept messages.
    pub holds: bool,
}

impl Default for ReaderState {
    /// The state at power-on.
    fn default() -> ReaderState {
        ReaderState::power_on()
    }
}

impl ReaderState {
    ghost use Rattle.mdb_cashless.specs.Reader as spec;
    ghost use Rattle.mdb_cashless.specs.shared.ReaderCodes.{code_of};

    /// The state at power-on.
    pub(crate) fn power_on() -> ReaderState
        ensures { result ≡ spec.power_on }
    {
        ReaderState {
            device: DeviceState::Inactive,
            view: View::NoSession,
            holds: false,
        }
    }

    /// Its code.
    pub(crate) fn code(self) -> usize
        ensures code { result ≡ code_of self }
        ensures below { result < READER_STATES }
    {
        16 * self.device.number() + 2 * self.view.number() + usize::from(self.holds)
    }

    /// The state of a code.
    pub(crate) fn at(code: usize) -> ReaderState
        requires { code < READER_STATES }
        ensures { code_of result ≡ code }
    {
        ReaderState {
            device: DeviceState::at(code / 16),
            view: View::at(code % 16 / 2),
            holds: code % 2 == 1,
        }
    }
}
