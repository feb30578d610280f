//! The tracks of a recording: each device and the controller, as a replay follows them.

ghost use Rattle.std.specs.Prelude.{◌≡◌, ◌^◌, List, [], IfErr, IfOk};
ghost use Rattle.mdb_bus.specs.declared.act.Act.{Act};
ghost use Rattle.mdb_bus.specs.declared.scope.Beginning.TheVariants.{PowerOn};
ghost use Rattle.mdb_bus.specs.declared.scope.Profile.{Profile};
ghost use Rattle.mdb_follow.specs.Choosing.{Choices};
ghost use Rattle.std.specs.Prelude.{map};
ghost use Rattle.mdb_msgs.specs.declared.command.Device.{Device};
ghost use Rattle.mdb_follow.specs.declared.report.TheConstants.Report.{DEVICES};
ghost use Rattle.mdb_follow.specs.Cells.{cell_in};
ghost use Rattle.mdb_follow.specs.Report.{device_facts_of};
ghost use Rattle.mdb_run_search.specs.Tracks.{AreTracks, track_in};
ghost use Rattle.mdb_run_search.specs.inner.TracksLed.{AreTracksWithin, IsTrackWithin};
ghost use Rattle.mdb_run_search.specs.inner.TracksLed.{OneLeads, TrackStops, TracksLead};
ghost use Rattle.mdb_run_search.specs.inner.TracksLed.{TracksStop};

use crate::track::{self, Track};
use mdb_bus::{Act, Profile, Rule};
use mdb_cash::{Bill, BillKnown, BillState, Changer, ChangerKnown, ChangerState};
use mdb_cashless::{KnownByProfile, ReaderByProfile, StateByProfile};
use mdb_follow::{Cell, DeviceFacts, Owner, Report, owner_of};
use mdb_machine::Choice;
use mdb_msgs::{Device, ReaderUnit};

/// The tracks of the devices, in the order of a report.
#[derive(Drop)]
pub(crate) struct Tracks {
    pub(crate) changer: Track<ChangerKnown, ChangerState>,
    pub(crate) bill: Track<BillKnown, BillState>,
    pub(crate) first_reader: Track<KnownByProfile, StateByProfile>,
    pub(crate) second_reader: Track<KnownByProfile, StateByProfile>,
}

impl Tracks {
    /// The tracks after no act, from power-on, by a profile.
    pub(crate) fn start(profile: Profile) -> Tracks
        ensures stands { AreTracks profile result [] tt }
        ensures within { AreTracksWithin 0 result }
    {
        Tracks {
            changer: track::start::<Changer>(profile),
            bill: track::start::<Bill>(profile),
            first_reader: track::start::<ReaderByProfile<0>>(profile),
            second_reader: track::start::<ReaderByProfile<1>>(profile),
        }
    }

    /// Leads each track over an act under a choice: those of the devices that have a part in it, as
    /// it leaves the others.
    ///
    /// # Errors
    ///
    /// The rule of a device that has no step by it.
    #[inline(always)]
    pub(crate) fn lead(&mut self, act: &Act, choice: Choice) -> Result<(), Rule>
        requires { AreTracksWithin (2 ^ 62) self.old }
        ensures led { IfOk result (λ _. TracksLead self.old act.now choice self.new) }
        ensures stopped { IfErr result (TracksStop self.old act.now choice) }
    {
        match owner_of(act) {
            Owner::One(device) => self.lead_one(device, act, choice),
            Owner::All => self.lead_all(act, choice),
            Owner::Nobody => Ok(()),
        }
    }

    /// Leads each track over an act under a choice, whosever the act is.
    ///
    /// # Errors
    ///
    /// The rule of a device that has no step by it.
    #[inline(never)]
    fn lead_all(&mut self, act: &Act, choice: Choice) -> Result<(), Rule>
        requires { AreTracksWithin (2 ^ 62) self.old }
        ensures led { IfOk result (λ _. TracksLead self.old act.now choice self.new) }
        ensures stopped { IfErr result (TracksStop self.old act.now choice) }
    {
        for device in &Report::DEVICES {
            self.lead_one(*device, act, choice)?;
        }
        Ok(())
    }

    /// Leads the track of a device over an act under a choice, and leaves the others.
    ///
    /// # Errors
    ///
    /// The rule of the device, where it has no step by it.
    #[inline(always)]
    fn lead_one(&mut self, device: Device, act: &Act, choice: Choice) -> Result<(), Rule>
        requires { IsTrackWithin (2 ^ 62) (track_in self.old device) }
        ensures led { IfOk result (λ _. OneLeads device self.old act.now choice self.new) }
        ensures stopped { IfErr result (TrackStops device self.old act.now choice) }
    {
        match device {
            Device::Changer => {
                track::lead::<Changer>(&mut self.changer, act, choice, Rule::Changer)
            }
            Device::Bill => track::lead::<Bill>(&mut self.bill, act, choice, Rule::Bill),
            Device::Reader(unit) => match unit {
                ReaderUnit::First => {
                    track::lead::<ReaderByProfile<0>>(
                        &mut self.first_reader,
                        act,
                        choice,
                        Rule::Cashless,
                    )
                }
                ReaderUnit::Second => {
                    track::lead::<ReaderByProfile<1>>(
                        &mut self.second_reader,
                        act,
                        choice,
                        Rule::Cashless,
                    )
                }
            },
        }
    }

    /// What the acts so far show of each of `Report::DEVICES`.
    pub(crate) fn facts(&self) -> [DeviceFacts; 4]
        ensures { (profile : Profile) (acts : List Act) (chosen : Choices acts)
            → AreTracks profile self.now acts chosen
            → result ≡ map (λ device. device_facts_of (PowerOn profile) device acts) DEVICES }
    {
        [
            DeviceFacts {
                decimals: self.changer.facts.decimals(),
                unvalued: self.changer.unvalued,
            },
            DeviceFacts {
                decimals: self.bill.facts.decimals(),
                unvalued: self.bill.unvalued,
            },
            DeviceFacts {
                decimals: self.first_reader.facts.decimals(),
                unvalued: self.first_reader.unvalued,
            },
            DeviceFacts {
                decimals: self.second_reader.facts.decimals(),
                unvalued: self.second_reader.unvalued,
            },
        ]
    }

    /// The sums of the accounts of each of `Report::DEVICES`, as ranges of one value.
    pub(crate) fn cells(&self) -> [Cell; 4]
        ensures { (device : Device) → cell_in result device ≡ (track_in self.now device).cell }
    {
        [
            self.changer.cell,
            self.bill.cell,
            self.first_reader.cell,
            self.second_reader.cell,
        ]
    }
}
