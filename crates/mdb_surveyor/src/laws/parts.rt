//! Laws of the parts of a survey: of its faults, and of the stretches between them.

ghost use Rattle.std.specs.Prelude.{◌≡◌, ◌+◌, ◌++◌, ◌⊎◌, ◌↔◌, ℕ, List, [], All, Option, Some, length};
ghost use Rattle.mdb_words.specs.declared.event.Event.{Event};
ghost use Rattle.mdb_msgs.specs.declared.command.Device.{Device};
ghost use Rattle.mdb_msgs.specs.declared.command.ReaderUnit.{ReaderUnit};
ghost use Rattle.mdb_bus.specs.declared.act.Act.{Act};
ghost use Rattle.mdb_bus.specs.declared.scope.Beginning.{Beginning};
ghost use Rattle.mdb_bus.specs.declared.scope.Profile.TheVariants.{Base, Extended};
ghost use Rattle.mdb_bus.specs.declared.scope.Scope.{Scope};
ghost use Rattle.mdb_bus.specs.ActLists.{Piece, acts_of, levels_of};
ghost use Rattle.mdb_bus.specs.LinkFaults.{blame_on};
ghost use Rattle.mdb_bus.specs.Scopes.{IsFollowed, levels_before, profile_of};
ghost use Rattle.mdb_bus.specs.LeavingOut.{IsLeftOut};
ghost use Rattle.mdb_bus.specs.ExtendedMoney.{first_known};
ghost use Rattle.mdb_surveyor.specs.declared.stretch.Ended.{Ended};
ghost use Rattle.mdb_surveyor.specs.declared.stretch.Stretch.{Stretch};
ghost use Rattle.mdb_surveyor.specs.declared.told.Told.{Told};
ghost use Rattle.mdb_follow.specs.declared.offence.Offence.{Offence};
ghost use Rattle.mdb_surveyor.specs.Learning.{AreKnown, AreFeaturesTold};
ghost use Rattle.mdb_surveyor.specs.Features.{features_at};
ghost use Rattle.mdb_surveyor.specs.Parts.{EndBefore, IsReaderAsked, IsReaderBeyond};
ghost use Rattle.mdb_surveyor.specs.Stretches.{IsCutAt, IsSurvey, LeadFrom, StretchStart, scope_after};
ghost use Rattle.mdb_surveyor.specs.Told.{asked_on, level_of, levels_at, setups_of, told_after, told_on};
ghost use Rattle.mdb_surveyor.specs.Unanswered.{IsNeither, IsUnanswered};

use mdb_follow::laws;

/// A survey may be cut at a fault: the rows up to it lead to where the next stretch begins, and the
/// others lead on from there.
#[tactic(auto, using(crate::proofs::Parts::cut_at))]
pub fn surveys_may_be_cut_at_a_fault()
    ensures { (start : StretchStart) (rows : List Event) (later earlier : List Ended)
        (running : List Event) (place : StretchStart)
        → LeadFrom start rows (later ++ earlier) running place
        → IsCutAt start rows later earlier running place }
{}

/// What was cut at a fault may be put together again.
#[tactic(auto, using(crate::proofs::Parts::together))]
pub fn surveys_may_be_put_together()
    ensures { (start cut place : StretchStart) (front rest running : List Event)
        (earlier later : List Ended) → LeadFrom start front earlier [] cut
        → LeadFrom cut rest later running place
        → LeadFrom start (front ++ rest) (later ++ earlier) running place }
{}

/// Nobody is blamed that is left out, be it from the first row or after a fault.
pub fn nobody_left_out_is_blamed()
    ensures { (scope : Scope) (rows : List Event) (ended : List Ended) (last : Stretch)
        → IsSurvey scope rows ended last
        → All (λ it. (device : Device) → it.fault.blame ≡ blame_on (Some device)
        → IsFollowed it.stretch.scope device × IsFollowed scope device) ended }
{
    laws::offences_are_blamed_on_devices_that_are_followed();
}

/// Each row is one of a stretch or a fault, in the order of their numbers.
pub fn rows_are_of_stretches_or_faults()
    ensures { (scope : Scope) (rows : List Event) (ended : List Ended) (last : Stretch)
        → IsSurvey scope rows ended last
        → EndBefore last.first ended × (last.last ≡ length rows)
        × (last.number ≡ length ended + 1) }
{}

/// A device that is left out from the first row is left out at the end. Any other device that is
/// left out at the end is a reader. By the base profile a fault with the rule `Profile` is blamed
/// on it. By the extended profile such a fault ends an ENABLE OPTIONS to it that asks for what
/// isn't followed.
pub fn left_out_are_those_of_the_start_and_readers_beyond_this_profile()
    ensures stays { (scope : Scope) (rows : List Event) (ended : List Ended) (last : Stretch)
        (device : Device) → IsSurvey scope rows ended last → IsLeftOut scope device
        → IsLeftOut last.scope device }
    ensures why { (scope : Scope) (rows : List Event) (ended : List Ended) (last : Stretch)
        (device : Device) → profile_of scope.begins ≡ Base → IsSurvey scope rows ended last
        → IsLeftOut last.scope device → IsLeftOut scope device ⊎ IsReaderBeyond ended device }
    ensures asked { (scope : Scope) (rows : List Event) (ended : List Ended) (last : Stretch)
        (device : Device) → profile_of scope.begins ≡ Extended → IsSurvey scope rows ended last
        → IsLeftOut last.scope device → IsLeftOut scope device ⊎ IsReaderAsked rows ended device }
{}

/// What the rows tell for the next stretch is what was said last: `levels` the levels that the bus
/// reads replies by, and `setups` what the machines of the devices know. By the base profile a
/// level is told on, as `unanswered`, exactly where no config message of its reader came after it.
/// `features` says when a reader's features are told. `handed_on` says what the bus of the next
/// stretch knows by the extended profile: these features, and these levels, but for the
/// controller's where `asked_on` keeps it back.
#[tactic(auto, using(crate::proofs::Learning::levels_later, crate::proofs::Learning::setups_after, crate::proofs::FeaturesTold::told_last, crate::proofs::FeaturesTold::handed_on, crate::proofs::FeaturesTold::begun))]
pub fn what_is_told_is_what_was_said_last()
    ensures levels { (begins : Beginning) (told : Told) (pieces : List Piece)
        → (told_after begins told (acts_of pieces)).levels
        ≡ levels_of (profile_of begins) told.levels pieces }
    ensures setups { (begins : Beginning) (told : Told) (acts : List Act)
        → told.setups ≡ setups_of begins
        → AreKnown begins (told_after begins told acts).setups acts }
    ensures unanswered { (begins : Beginning) (told : Told) (acts : List Act) (unit : ReaderUnit)
        (level : ℕ) → (level_of unit (told_after begins told acts).unanswered ≡ Some level)
        ↔ (IsUnanswered unit level acts
        ⊎ (All (IsNeither unit) acts × (level_of unit told.unanswered ≡ Some level))) }
    ensures features { (begins : Beginning) (told : Told) (acts : List Act) (unit : ReaderUnit)
        → AreFeaturesTold unit acts (features_at unit told.features)
        (features_at unit (told_after begins told acts).features) }
    ensures handed_on { (told : Told) (fault : Offence) (asked : Option ReaderUnit) (scope : Scope)
        → profile_of scope.begins ≡ Extended
        → (first_known (scope_after told fault asked scope).begins ≡ told.features)
        × ((unit : ReaderUnit)
        → levels_at unit (levels_before (scope_after told fault asked scope))
        ≡ record (levels_at unit told.levels) { asked = asked_on (levels_at unit told.levels) }) }
    ensures begun { (told : Told) (fault : Offence) (asked : Option ReaderUnit) (scope : Scope)
        → profile_of scope.begins ≡ Extended
        → (told_on (scope_after told fault asked scope).begins told).levels
        ≡ levels_before (scope_after told fault asked scope) }
{}
