//! The states of the bill validator and the controller.

ghost use Rattle.std.specs.Prelude.{◌≡◌, ◌<◌, ◌≤◌, ◌↔◌, IfSome, IfNone, IsTrue};

use mdb_machine::Choice;

/// A type of bills, 0 to 15 (MDB/ICP 4.3, bill validator).
#[derive(Clone, Copy, PartialEq, Eq, Debug)]
pub struct BillType {
    number: u8,
    ghost few: { number < 16 },
}

impl BillType {
    /// The type of a number. `None` past 15.
    pub fn new(number: u8) -> Option<BillType>
        ensures some { IfSome result (λ bill. bill.number ≡ number) }
        ensures none { IfNone result (16 ≤ number) }
    {
        if number < 16 {
            Some(BillType { number })
        } else {
            None
        }
    }

    /// Whether both are the same.
    fn is(self, other: BillType) -> bool
        ensures { IsTrue result ↔ (self ≡ other) }
    {
        self == other
    }

    /// Its number.
    pub fn number(self) -> u8
        ensures value { result ≡ self.number }
        ensures below { result < 16 }
    {
        self.number
    }
}

/// What is in the validator's escrow.
#[derive(Clone, Copy, PartialEq, Eq, Debug)]
pub enum Escrow {
    /// Nothing.
    Empty,
    /// A bill of this type.
    Waiting(BillType),
    /// A bill of this type, which the controller has ordered the validator to stack.
    Ordered(BillType),
}

impl Escrow {
    ghost use Rattle.std.specs.Prelude.{◌≡◌, ◌↔◌, ◌<◌, IsTrue};
    ghost use Rattle.mdb_cash.specs.Bill as spec;
    ghost use Rattle.mdb_cash.specs.shared.BillCodes.{escrow_code};
    ghost use Rattle.mdb_cash.specs.declared.bill.state.Escrow.TheVariants.{Empty};

    /// Whether there is nothing in it.
    pub(crate) fn is_empty(self) -> bool
        ensures { IsTrue result ↔ (self ≡ Empty) }
    {
        matches!(self, Escrow::Empty)
    }

    /// Whether a bill of a type may have been stacked.
    pub(crate) fn may_stack(self, bill: BillType) -> bool
        ensures { IsTrue result ↔ spec.MayStack bill self }
    {
        match self {
            Escrow::Empty => true,
            Escrow::Waiting(_) => false,
            Escrow::Ordered(other) => other.is(bill),
        }
    }

    /// Whether a bill of a type may have been returned.
    pub(crate) fn may_return(self, bill: BillType) -> bool
        ensures { IsTrue result ↔ spec.MayReturn bill self }
    {
        match self {
            Escrow::Empty => true,
            Escrow::Waiting(other) | Escrow::Ordered(other) => other.is(bill),
        }
    }

    /// What it is after Y1 of an ESCROW that the validator takes.
    pub(crate) fn ordered(self, order: u8) -> Escrow
        ensures { result ≡ spec.ordered order self }
    {
        match self {
            Escrow::Waiting(bill) if order % 2 == 1 => Escrow::Ordered(bill),
            _ => self,
        }
    }

    /// What it is once a reply is read.
    pub(crate) fn read(self, choice: Choice) -> Escrow
        ensures { result ≡ spec.escrow_read choice self }
    {
        match choice {
            Choice::Plain | Choice::Lost | Choice::Again => self,
            Choice::Restart => Escrow::Empty,
        }
    }

    /// Its code.
    fn code(self) -> usize
        ensures code { result ≡ escrow_code self }
        ensures below { result < 33 }
    {
        match self {
            Escrow::Empty => 0,
            Escrow::Waiting(bill) => 1 + usize::from(bill.number()),
            Escrow::Ordered(bill) => 17 + usize::from(bill.number()),
        }
    }

    /// That of a code.
    fn at(code: u8) -> Escrow
        requires { code < 33 }
        ensures { escrow_code result ≡ code }
    {
        if code == 0 {
            Escrow::Empty
        } else if code < 17 {
            Escrow::Waiting(BillType { number: code - 1 })
        } else {
            Escrow::Ordered(BillType { number: code - 17 })
        }
    }
}

/// How many states there are of the validator and the controller.
pub const BILL_STATES: usize = 66;

/// A state of the validator and of the controller's dealings with it (this profile).
#[derive(Clone, Copy, PartialEq, Eq, Debug)]
pub struct BillState {
    /// What is in the validator's escrow.
    pub escrow: Escrow,
    /// Whether the validator holds kept messages.
    pub holds: bool,
}

impl Default for BillState {
    /// The state at power-on.
    fn default() -> BillState {
        BillState::power_on()
    }
}

impl BillState {
    ghost use Rattle.mdb_cash.specs.declared.bill.state.TheConstants.{BILL_STATES};
    ghost use Rattle.mdb_cash.specs.Bill as spec;
    ghost use Rattle.mdb_cash.specs.shared.BillCodes.{code_of};

    /// The state at power-on.
    pub(crate) fn power_on() -> BillState
        ensures { result ≡ spec.power_on }
    {
        BillState {
            escrow: Escrow::Empty,
            holds: false,
        }
    }

    /// Its code.
    pub(crate) fn code(self) -> usize
        ensures code { result ≡ code_of self }
        ensures below { result < BILL_STATES }
    {
        self.escrow.code() + if self.holds { 33 } else { 0 }
    }

    /// The state of a code.
    pub(crate) fn at(code: usize) -> BillState
        requires { code < BILL_STATES }
        ensures { code_of result ≡ code }
    {
        let holds = code >= 33;
        let escrow = if holds { code - 33 } else { code };
        BillState {
            escrow: Escrow::at(escrow as u8),
            holds,
        }
    }
}
