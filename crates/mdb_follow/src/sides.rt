//! The sides of a recording: each device and the controller.

ghost use Rattle.std.specs.Prelude.{◌≡◌, ◌^◌, ℕ, List, [], map, IfOk, IfErr, OnErr};
ghost use Rattle.mdb_msgs.specs.declared.command.Device.{Device};
ghost use Rattle.mdb_bus.specs.declared.act.Act.{Act};
ghost use Rattle.mdb_bus.specs.declared.scope.Beginning.{Beginning};
ghost use Rattle.mdb_follow.specs.declared.report.TheConstants.Report.{DEVICES};
ghost use Rattle.mdb_follow.specs.Arrivals.{Arrives};
ghost use Rattle.mdb_follow.specs.Cells.{cell_in, IsCell};
ghost use Rattle.mdb_follow.specs.Limits.{IsCellWithin};
ghost use Rattle.mdb_follow.specs.Machines.{machine_of};
ghost use Rattle.mdb_follow.specs.Report.{device_facts_in, device_facts_of};
ghost use Rattle.mdb_follow.specs.Tables.{ArrivesAnywhere};
ghost use Rattle.mdb_follow.specs.Sides.{AreSides, side_in};
ghost use Rattle.mdb_follow.specs.inner.SidesLed.{AreWithin, IsWithin, OneFollows, SidesFollow};
ghost use Rattle.mdb_follow.specs.inner.SidesLed.{SidesStay, SidesStop, Stops};

use crate::owner::{Owner, owner_of};
use crate::side::{self, Side};
use crate::{Cell, DeviceFacts, Report};
use mdb_bus::{Act, Beginning, Rule};
use mdb_cash::{BILL_STATES, Bill, BillKnown, CHANGER_STATES, Changer, ChangerKnown};
use mdb_cashless::{KnownByProfile, ReaderByProfile, STATES_BY_PROFILE};
use mdb_msgs::{Device, ReaderUnit};

/// The reader at 10H.
type FirstReader = ReaderByProfile<0>;

/// The reader at 60H.
type SecondReader = ReaderByProfile<1>;

/// The sides that are followed, each a device and the controller. The size of each is the number of
/// states.
#[derive(Drop)]
pub(crate) struct Sides {
    changer: Side<ChangerKnown, CHANGER_STATES>,
    bill: Side<BillKnown, BILL_STATES>,
    pub(crate) first_reader: Side<KnownByProfile, STATES_BY_PROFILE>,
    pub(crate) second_reader: Side<KnownByProfile, STATES_BY_PROFILE>,
}

impl Sides {
    /// The sides after no act, of a recording that begins so.
    pub(crate) fn start(begins: &Beginning) -> Sides
        ensures stands { AreSides begins.now result [] }
        ensures within { AreWithin 0 result }
    {
        Sides {
            changer: side::start::<Changer, _>(begins),
            bill: side::start::<Bill, _>(begins),
            first_reader: side::start::<FirstReader, _>(begins),
            second_reader: side::start::<SecondReader, _>(begins),
        }
    }

    /// Leads each side over an act: those of the devices that have a part in it, as it leaves the
    /// others.
    ///
    /// # Errors
    ///
    /// The rule of a side that has no step by it. Then all are what they were, where they stand for
    /// acts.
    // Only a break is led over more sides than one, and each has a step by it.
    #[inline(always)]
    pub(crate) fn lead(&mut self, act: &Act) -> Result<(), Rule>
        requires { AreWithin (2 ^ 62) self.old }
        ensures followed { IfOk result (λ _. SidesFollow self.old act.now self.new) }
        ensures stopped { IfErr result (SidesStop self.old act.now) }
        ensures stay { OnErr result (SidesStay self.old self.new) }
    {
        match owner_of(act) {
            Owner::One(device) => self.lead_one(device, act),
            Owner::All => self.lead_all(act),
            Owner::Nobody => Ok(()),
        }
    }

    /// Leads each side over an act, whosever it is.
    ///
    /// # Errors
    ///
    /// The rule of a side that has no step by it.
    #[inline(never)]
    fn lead_all(&mut self, act: &Act) -> Result<(), Rule>
        requires { AreWithin (2 ^ 62) self.old }
        ensures followed { IfOk result (λ _. SidesFollow self.old act.now self.new) }
        ensures stopped { IfErr result (SidesStop self.old act.now) }
    {
        for device in &Report::DEVICES {
            self.lead_one(*device, act)?;
        }
        Ok(())
    }

    /// Leads the side of a device over an act, and leaves the others.
    ///
    /// # Errors
    ///
    /// The rule of the device, where its side has no step by it. Then nothing changes.
    #[inline(always)]
    fn lead_one(&mut self, device: Device, act: &Act) -> Result<(), Rule>
        requires { IsWithin device (2 ^ 62) self.old }
        ensures followed { IfOk result (λ _. OneFollows device self.old act.now self.new) }
        ensures stopped { IfErr result (Stops device self.old act.now) }
        ensures same { OnErr result (self.new ≡ self.old) }
    {
        match device {
            Device::Changer => side::lead::<Changer, _>(&mut self.changer, act, Rule::Changer),
            Device::Bill => side::lead::<Bill, _>(&mut self.bill, act, Rule::Bill),
            Device::Reader(unit) => match unit {
                ReaderUnit::First => {
                    side::lead::<FirstReader, _>(&mut self.first_reader, act, Rule::Cashless)
                }
                ReaderUnit::Second => {
                    side::lead::<SecondReader, _>(&mut self.second_reader, act, Rule::Cashless)
                }
            },
        }
    }

    /// What the acts so far show of each of `Report::DEVICES`.
    pub(crate) fn facts(&self) -> [DeviceFacts; 4]
        ensures facts { (begins : Beginning) (acts : List Act) → AreSides begins self.now acts
            → result ≡ map (λ device. device_facts_of begins device acts) DEVICES }
        ensures kept { (device : Device)
            → (device_facts_in result device).unvalued ≡ (side_in self.now device).unvalued }
    {
        [
            DeviceFacts {
                decimals: self.changer.facts.decimals(),
                unvalued: self.changer.unvalued,
            },
            DeviceFacts {
                decimals: self.bill.facts.decimals(),
                unvalued: self.bill.unvalued,
            },
            DeviceFacts {
                decimals: self.first_reader.facts.decimals(),
                unvalued: self.first_reader.unvalued,
            },
            DeviceFacts {
                decimals: self.second_reader.facts.decimals(),
                unvalued: self.second_reader.unvalued,
            },
        ]
    }

    /// What the sums of the accounts of each of `Report::DEVICES` may be, whatever its state is.
    pub(crate) fn cells(&self) -> [Cell; 4]
        ensures exact { (begins : Beginning) (acts : List Act) → AreSides begins self.now acts
            → (device : Device) → IsCell (ArrivesAnywhere (Arrives (machine_of begins device) acts))
            (cell_in result device) }
        ensures within { (limit : ℕ) (device : Device) → IsWithin device limit self.now
            → IsCellWithin limit (cell_in result device) }
    {
        [
            side::ranges::<Changer, _>(&self.changer),
            side::ranges::<Bill, _>(&self.bill),
            side::ranges::<FirstReader, _>(&self.first_reader),
            side::ranges::<SecondReader, _>(&self.second_reader),
        ]
    }
}
