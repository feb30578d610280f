//! The states of a reader that follows approvals.

ghost use Rattle.std.specs.Prelude.{◌≡◌, ◌<◌};
ghost use Rattle.mdb_cashless.specs.declared.approvals.state.TheConstants.{APPROVAL_STATES};

/// How many states there are of a reader that follows approvals.
pub const APPROVAL_STATES: usize = 8;

/// What a cashless reader knows of its approvals, by the extended profile.
#[derive(Clone, Copy, PartialEq, Eq, Debug, Default)]
pub struct ApprovalState {
    /// Whether a request may be approved.
    pub asked: bool,
    /// Whether an approval stands that no sale used.
    pub approved: bool,
    /// Whether it may tell its last approvals again.
    pub again: bool,
}

impl ApprovalState {
    ghost use Rattle.mdb_cashless.specs.ExtendedReader as spec;
    ghost use Rattle.mdb_cashless.specs.shared.ApprovalCodes.{code_of};

    /// The state at power-on.
    pub(crate) fn power_on() -> ApprovalState
        ensures { result ≡ spec.power_on }
    {
        ApprovalState {
            asked: false,
            approved: false,
            again: false,
        }
    }

    /// Its code.
    pub(crate) fn code(self) -> usize
        ensures code { result ≡ code_of self }
        ensures below { result < APPROVAL_STATES }
    {
        4 * usize::from(self.asked) + 2 * usize::from(self.approved) + usize::from(self.again)
    }

    /// The state of a code.
    pub(crate) fn at(code: usize) -> ApprovalState
        requires { code < APPROVAL_STATES }
        ensures { code_of result ≡ code }
    {
        ApprovalState {
            asked: code / 4 == 1,
            approved: code % 4 / 2 == 1,
            again: code % 2 == 1,
        }
    }
}
