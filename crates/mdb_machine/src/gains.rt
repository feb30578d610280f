//! What a step adds to the sums.

ghost use Rattle.std.specs.Prelude.{◌≡◌};
ghost use Rattle.mdb_machine.specs.Gains as spec;
ghost use Rattle.mdb_machine.specs.SmallGains as small_gains;

/// How many accounts a pair has at most. Each has a slot of its own, from 0.
pub const SLOTS: usize = 2;

/// What a step adds to the sums of a pair's accounts, in the smallest unit of money (this profile).
#[derive(Clone, Copy, PartialEq, Eq, Debug, Default)]
pub struct Gains {
    /// What the device counts, for each account by its slot.
    pub device: [u64; SLOTS],
    /// What the controller counts, for each account by its slot.
    pub controller: [u64; SLOTS],
}

impl Gains {
    /// Nothing.
    pub fn none() -> Gains
        ensures { result ≡ spec.no_gains }
    {
        Gains {
            device: [0; SLOTS],
            controller: [0; SLOTS],
        }
    }

    /// So much for the device: amounts in the order of the slots, and nothing in the slots after
    /// them.
    #[inline(always)]
    pub fn of_device(amounts: &[u64]) -> Gains
        ensures gains { result ≡ spec.device_gains (spec.in_slots amounts.now) }
        ensures small { small_gains.AreSmall amounts.now → small_gains.IsSmall result }
    {
        Gains {
            device: by_slot(amounts),
            controller: [0; SLOTS],
        }
    }

    /// So much for the controller: amounts in the order of the slots, and nothing in the slots
    /// after them.
    #[inline(always)]
    pub fn of_controller(amounts: &[u64]) -> Gains
        ensures gains { result ≡ spec.controller_gains (spec.in_slots amounts.now) }
        ensures small { small_gains.AreSmall amounts.now → small_gains.IsSmall result }
    {
        Gains {
            device: [0; SLOTS],
            controller: by_slot(amounts),
        }
    }
}

/// The amounts of all slots.
#[inline(always)]
fn by_slot(amounts: &[u64]) -> [u64; SLOTS]
    ensures amounts { result ≡ spec.by_slot (spec.in_slots amounts.now) }
    ensures small { small_gains.AreSmall amounts.now → small_gains.AreSmall result }
{
    [amount_at(amounts, 0), amount_at(amounts, 1)]
}

/// The amount in a slot, of amounts in the order of the slots: nothing after them.
#[inline(always)]
pub fn amount_at(amounts: &[u64], slot: usize) -> u64
    ensures { result ≡ spec.in_slots amounts.now slot }
{
    if slot < amounts.len() {
        amounts[slot]
    } else {
        0
    }
}
