//! Laws of surveys. They follow from the definitions alone. Each function's contract is the law.

ghost use Rattle.std.specs.Prelude.{◌≡◌, ◌+◌, List, []};
ghost use Rattle.mdb_words.specs.declared.event.Event.{Event};
ghost use Rattle.mdb_msgs.specs.declared.command.Device.{Device};
ghost use Rattle.mdb_bus.specs.declared.scope.Scope.{Scope};
ghost use Rattle.mdb_follow.specs.declared.account_name.AccountName.{AccountName};
ghost use Rattle.mdb_follow.specs.declared.report.Report.{Report};
ghost use Rattle.mdb_follow.specs.Report.{IsReport, device_silences, device_unvalued};
ghost use Rattle.mdb_follow.specs.AccountNames.{account_of};
ghost use Rattle.mdb_surveyor.specs.declared.totals.Totals.{Totals};
ghost use Rattle.mdb_surveyor.specs.Stretches.{IsSurvey, first_place, stretch_at};
ghost use Rattle.mdb_surveyor.specs.Totals.{added_account, total_of, total_silences, total_unvalued, with_report};

mod only;
mod parts;

pub use only::{
    a_survey_with_no_fault_is_the_report, rows_have_a_survey, rows_have_one_survey,
    the_first_fault_is_the_offence_of_the_rows,
};
pub use parts::{
    left_out_are_those_of_the_start_and_readers_beyond_this_profile, nobody_left_out_is_blamed,
    rows_are_of_stretches_or_faults, surveys_may_be_cut_at_a_fault, surveys_may_be_put_together,
    what_is_told_is_what_was_said_last,
};

/// Rows that can be have one stretch, with their report, and no fault.
pub fn rows_that_can_be_are_one_stretch()
    ensures { (scope : Scope) (rows : List Event) (report : Report) → IsReport scope rows report
        → IsSurvey scope rows [] (stretch_at (first_place scope) report) }
{}

/// Totals are the sums of the reports that they were made of.
pub fn totals_are_sums()
    ensures accounts { (totals : Totals) (report : Report) (account : AccountName)
        → total_of account (with_report totals report)
        ≡ added_account (total_of account totals) (account_of account report) }
    ensures silences { (totals : Totals) (report : Report) (device : Device)
        → total_silences device (with_report totals report)
        ≡ total_silences device totals + device_silences device report }
    ensures unvalued { (totals : Totals) (report : Report) (device : Device)
        → total_unvalued device (with_report totals report)
        ≡ total_unvalued device totals + device_unvalued device report }
{}
