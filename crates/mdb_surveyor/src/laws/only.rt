//! Rows have one survey. Its first fault is the offence of the rows.

ghost use Rattle.std.specs.Prelude.{◌≡◌, ◌≤◌, List, [], Some, length};
ghost use Rattle.mdb_words.specs.declared.event.Event.{Event};
ghost use Rattle.mdb_bus.specs.declared.scope.Scope.{Scope};
ghost use Rattle.mdb_follow.specs.declared.follower.TheConstants.{ROWS_MAX};
ghost use Rattle.mdb_follow.specs.declared.offence.Offence.{Offence};
ghost use Rattle.mdb_follow.specs.FirstOffences.{HasOffence};
ghost use Rattle.mdb_follow.specs.Report.{IsReport};
ghost use Rattle.mdb_surveyor.specs.declared.stretch.Ended.{Ended};
ghost use Rattle.mdb_surveyor.specs.declared.stretch.Stretch.{Stretch};
ghost use Rattle.mdb_surveyor.specs.Stretches.{IsSurvey, first_fault, first_place, stretch_at};

use crate::Surveyor;
use mdb_bus::{Scope, laws as links};
use mdb_follow::laws as runs;
use mdb_words::Event;

/// Rows have one survey: one list of faults, each with the stretch that it ended, and one last
/// stretch.
pub fn rows_have_one_survey()
    ensures { (scope : Scope) (rows : List Event) (one other : List Ended) (last also : Stretch)
        → IsSurvey scope rows one last → IsSurvey scope rows other also
        → (one ≡ other) × (last ≡ also) }
{
    links::transcripts_have_one_act_list();
    runs::fronts_of_reached_rows_are_reached();
    runs::rows_have_one_report();
    runs::rows_have_one_offence();
}

/// A survey with no fault is the report on all rows.
#[tactic(auto, using(crate::proofs::OneSurvey::no_fault))]
pub fn a_survey_with_no_fault_is_the_report()
    ensures { (scope : Scope) (rows : List Event) (last : Stretch) → IsSurvey scope rows [] last
        → IsReport scope rows last.report
        × (last ≡ stretch_at (first_place scope) last.report) }
{}

/// The first fault of a survey is the offence of the rows. If the rows have an offence, it is the
/// first fault of each survey of them.
pub fn the_first_fault_is_the_offence_of_the_rows()
    ensures is { (scope : Scope) (rows : List Event) (ended : List Ended) (last : Stretch)
        (fault : Offence) → IsSurvey scope rows ended last → first_fault ended ≡ Some fault
        → HasOffence scope [] rows fault }
    ensures has { (scope : Scope) (rows : List Event) (ended : List Ended) (last : Stretch)
        (offence : Offence) → IsSurvey scope rows ended last → HasOffence scope [] rows offence
        → first_fault ended ≡ Some offence }
{
    runs::fronts_of_reached_rows_are_reached();
    runs::lists_have_one_offence();
}

/// Any rows have a survey, if they aren't too many for a surveyor: one that is fed them finds it.
pub fn rows_have_a_survey(scope: &Scope, rows: &[Event])
    requires { length rows.now ≤ ROWS_MAX }
    ensures { (ended : List Ended) × (last : Stretch) × IsSurvey scope.now rows.now ended last }
{
    let mut surveyor = Surveyor::scoped(scope);
    for row in rows {
        let _ended = surveyor.feed(*row);
    }
    let _last = surveyor.stretch();
}
