//! The best ways of each device and the controller, for a goal.

ghost use Rattle.std.specs.Prelude.{◌≡◌, ◌+◌, ◌^◌, ℕ, List, [], ◌∷◌, ◌++◌, Contains, IfOk, length};
ghost use Rattle.std.specs.Bool.{OnFalse, OnTrue};
ghost use Rattle.mdb_words.specs.declared.event.Event.{Event};
ghost use Rattle.mdb_msgs.specs.declared.command.Device.{Device};
ghost use Rattle.mdb_bus.specs.declared.act.Act.{Act};
ghost use Rattle.mdb_bus.specs.declared.scope.Profile.{Profile};
ghost use Rattle.mdb_bus.specs.ActLists.{Piece, Whole, events_of};
ghost use Rattle.mdb_follow.specs.declared.goal.Goal.{Goal};
ghost use Rattle.mdb_run_search.specs.inner.AllPaths.{AreAllFacts, AreAllPaths, AreAllWithin};
ghost use Rattle.mdb_run_search.specs.inner.AllPaths.{AreFactsOf, ArePathsOf, AreWithinOf};
ghost use Rattle.mdb_run_search.specs.inner.AllPaths.{OneLeadsPaths};
ghost use Rattle.mdb_run_search.specs.declared.explain.best.Best.{Best};
ghost use Rattle.mdb_run_search.specs.inner.AllPaths.{AreBestMarks, HasNoWay, HasWay, paths_in};
ghost use Rattle.mdb_run_search.specs.inner.AllPaths.{weight_for};
ghost use Rattle.mdb_run_search.specs.inner.Paths.{IsBestOf};
ghost use Rattle.mdb_run_search.specs.inner.Chains.{KeepChains};

use super::best::{Best, Weight};
use super::chains::Chains;
use super::paths::{self, Paths};
use crate::Mark;
use mdb_bus::{Act, Profile};
use mdb_cash::{BILL_STATES, Bill, BillKnown, CHANGER_STATES, Changer, ChangerKnown};
use mdb_cashless::{KnownByProfile, ReaderByProfile, STATES_BY_PROFILE};
use mdb_follow::{Goal, Owner, Report, owner_of};
use mdb_msgs::{Device, ReaderUnit};
use std::alloc::{AllocError, Global};

/// The reader at 10H.
type FirstReader = ReaderByProfile<0>;

/// The reader at 60H.
type SecondReader = ReaderByProfile<1>;

/// The best ways of each device and the controller, in a recording that begins at power-on, with
/// the chains of their marks. The size of each is the number of states.
#[derive(Drop)]
pub(crate) struct AllPaths {
    chains: Chains,
    changer: Paths<ChangerKnown, CHANGER_STATES>,
    bill: Paths<BillKnown, BILL_STATES>,
    first_reader: Paths<KnownByProfile, STATES_BY_PROFILE>,
    second_reader: Paths<KnownByProfile, STATES_BY_PROFILE>,
}

/// What the gains of a device count for a goal: nothing, where the goal is of another device.
fn weight_of(goal: &Goal, device: Device) -> Weight
    ensures { result ≡ weight_for goal.now device }
{
    if goal.account.device() == device {
        Weight::Account(goal.account.slot(), goal.side, goal.bound)
    } else {
        Weight::Nothing
    }
}

impl AllPaths {
    /// The paths through no act, by a profile.
    ///
    /// # Errors
    ///
    /// Memory was refused.
    pub(crate) fn start(alloc: Global, profile: Profile) -> Result<AllPaths, AllocError>
        ensures stands { IfOk result (λ all. (goal : Goal) → AreAllPaths profile goal [] all) }
        ensures within { IfOk result (AreAllWithin 0) }
    {
        let changer = paths::start::<Changer, _>(alloc, profile)?;
        let bill = paths::start::<Bill, _>(alloc, profile)?;
        let first_reader = paths::start::<FirstReader, _>(alloc, profile)?;
        let second_reader = paths::start::<SecondReader, _>(alloc, profile)?;
        Ok(AllPaths {
            chains: Chains::new(alloc),
            changer,
            bill,
            first_reader,
            second_reader,
        })
    }

    /// Leads the paths of each device over an act that ends at a row. Those without a part in it
    /// stay as they are. Where no way of some device leads over it, it answers `false`.
    ///
    /// # Errors
    ///
    /// Memory was refused.
    #[inline(always)]
    pub(crate) fn lead(&mut self, goal: &Goal, act: &Act, row: u64) -> Result<bool, AllocError>
        requires stands { (profile : Profile) × (acts : List Act)
            × AreAllFacts profile acts self.old }
        requires within { AreAllWithin (2 ^ 62) self.old }
        ensures led { IfOk result (λ goes. OnTrue goes ((profile : Profile) (pieces : List Piece)
            (events : List Event) → row ≡ length (events_of pieces ++ events)
            → AreAllPaths profile goal.now pieces self.old
            → AreAllPaths profile goal.now (Whole act.now events ∷ pieces) self.new)) }
        ensures none { IfOk result (λ goes. OnFalse goes ((profile : Profile) (pieces : List Piece)
            → AreAllPaths profile goal.now pieces self.old
            → (device : Device) × HasNoWay profile pieces act.now device)) }
        ensures within { IfOk result (λ goes. OnTrue goes ((limit : ℕ)
            → AreAllWithin limit self.old → AreAllWithin (limit + 2 ^ 32) self.new)) }
        ensures kept { KeepChains self.old.chains.links.items self.new.chains.links.items }
    {
        match owner_of(act) {
            Owner::One(device) => self.lead_one(device, goal, act, row),
            Owner::All => self.lead_all(goal, act, row),
            Owner::Nobody => Ok(true),
        }
    }

    /// Leads the paths of each device over an act that ends at a row, whosever the act is.
    ///
    /// # Errors
    ///
    /// Memory was refused.
    #[inline(never)]
    fn lead_all(&mut self, goal: &Goal, act: &Act, row: u64) -> Result<bool, AllocError>
        requires stands { (profile : Profile) × (acts : List Act)
            × AreAllFacts profile acts self.old }
        requires within { AreAllWithin (2 ^ 62) self.old }
        ensures led { IfOk result (λ goes. OnTrue goes ((profile : Profile) (pieces : List Piece)
            (events : List Event) → row ≡ length (events_of pieces ++ events)
            → AreAllPaths profile goal.now pieces self.old
            → AreAllPaths profile goal.now (Whole act.now events ∷ pieces) self.new)) }
        ensures none { IfOk result (λ goes. OnFalse goes ((profile : Profile) (pieces : List Piece)
            → AreAllPaths profile goal.now pieces self.old
            → (device : Device) × HasNoWay profile pieces act.now device)) }
        ensures within { IfOk result (λ goes. OnTrue goes ((limit : ℕ)
            → AreAllWithin limit self.old → AreAllWithin (limit + 2 ^ 32) self.new)) }
        ensures kept { KeepChains self.old.chains.links.items self.new.chains.links.items }
    {
        for device in &Report::DEVICES {
            if !self.lead_one(*device, goal, act, row)? {
                return Ok(false);
            }
        }
        Ok(true)
    }

    /// Leads the paths of a device over an act that ends at a row, and leaves those of the others.
    /// Where no way leads over it, it answers `false`.
    ///
    /// # Errors
    ///
    /// Memory was refused.
    #[inline(always)]
    fn lead_one(
        &mut self,
        device: Device,
        goal: &Goal,
        act: &Act,
        row: u64,
    ) -> Result<bool, AllocError>
        requires stands { (profile : Profile) × (acts : List Act)
            × AreFactsOf profile acts self.old device }
        requires within { AreWithinOf (2 ^ 62) self.old device }
        ensures led { IfOk result (λ goes.
            OnTrue goes (OneLeadsPaths device goal.now act.now row self.old self.new)) }
        ensures none { IfOk result (λ goes. OnFalse goes ((profile : Profile) (pieces : List Piece)
            → ArePathsOf profile goal.now pieces self.old device
            → HasNoWay profile pieces act.now device)) }
        ensures kept { KeepChains self.old.chains.links.items self.new.chains.links.items }
    {
        let weight = weight_of(goal, device);
        let chains = &mut self.chains;
        match device {
            Device::Changer => {
                paths::lead::<Changer, _>(&mut self.changer, chains, &weight, act, row)
            }
            Device::Bill => paths::lead::<Bill, _>(&mut self.bill, chains, &weight, act, row),
            Device::Reader(unit) => match unit {
                ReaderUnit::First => {
                    let paths = &mut self.first_reader;
                    paths::lead::<FirstReader, _>(paths, chains, &weight, act, row)
                }
                ReaderUnit::Second => {
                    let paths = &mut self.second_reader;
                    paths::lead::<SecondReader, _>(paths, chains, &weight, act, row)
                }
            },
        }
    }

    /// The best entry of a device's paths, whatever its state is.
    fn best(&self, device: Device) -> Best
        ensures { (entry : ℕ × Best) → Contains (paths_in self.now device).entries.items entry
            → IsBestOf (paths_in self.now device).entries.items result }
    {
        match device {
            Device::Changer => paths::best_of(&self.changer),
            Device::Bill => paths::best_of(&self.bill),
            Device::Reader(unit) => match unit {
                ReaderUnit::First => paths::best_of(&self.first_reader),
                ReaderUnit::Second => paths::best_of(&self.second_reader),
            },
        }
    }

    /// The marks of a best way of a device that has one, with their rows, the oldest first.
    ///
    /// # Errors
    ///
    /// Memory was refused.
    pub(crate) fn marks(
        &self,
        alloc: Global,
        device: Device,
    ) -> Result<Vec<(u64, Mark)>, AllocError>
        requires { (profile : Profile) × (goal : Goal) × (pieces : List Piece)
            × AreAllPaths profile goal pieces self.now × HasWay profile pieces device }
        ensures { IfOk result (λ marks. (profile : Profile) (goal : Goal) (pieces : List Piece)
            → AreAllPaths profile goal pieces self.now → HasWay profile pieces device
            → AreBestMarks profile goal pieces device marks.items) }
    {
        let best = self.best(device);
        self.chains.read(alloc, best.chain)
    }
}
