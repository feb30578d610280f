//! Laws of a device's own acts, and of what counts of the acts so far. Each function's contract is
//! the law.

ghost use Rattle.std.specs.Prelude.{◌≡◌, ◌↔◌, true, List, ◌∷◌};
ghost use Rattle.mdb_msgs.specs.declared.command.Device.{Device};
ghost use Rattle.mdb_bus.specs.declared.act.Act.{Act};
ghost use Rattle.mdb_bus.specs.LeavingOut.{has_part};
ghost use Rattle.mdb_machine.specs.Pair.{IsActOf, own_acts};

/// A device's own acts are those in which it has a part, in their order; and the test that picks
/// them says of each act whether it has.
pub fn own_acts_are_those_that_a_device_has_a_part_in()
    ensures own { (device : Device) (act : Act) (acts : List Act) → IsActOf device act
        → own_acts device (act ∷ acts) ≡ act ∷ own_acts device acts }
    ensures other { (device : Device) (act : Act) (acts : List Act) → (IsActOf device act → ⊥)
        → own_acts device (act ∷ acts) ≡ own_acts device acts }
    ensures test { (device : Device) (act : Act)
        → (has_part device act ≡ true) ↔ IsActOf device act }
{}
