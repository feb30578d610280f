//! Laws of verdicts. Each function's contract is the law, and its body calls the laws that it
//! rests on.

ghost use Rattle.std.specs.Prelude.{◌≡◌, ℕ, List, Result, Ok, Some};
ghost use Rattle.mdb_msgs.specs.declared.command.Device.{Device};
ghost use Rattle.mdb_bus.specs.LeavingOut.{LeavesOutMore};
ghost use Rattle.mdb_bus.specs.LinkFaults.{blame_on};
ghost use Rattle.mdb_bus.specs.Scopes.{IsFollowed};
ghost use Rattle.mdb_bus.specs.declared.scope.Scope.{Scope};
ghost use Rattle.mdb_follow.specs.LeavingOut.{HasNothingLeftOut, HaveSameFollowed};
ghost use Rattle.mdb_follow.specs.declared.offence.Offence.{Offence};
ghost use Rattle.mdb_follow.specs.declared.report.Report.{Report};
ghost use Rattle.mdb_follow.specs.declared.follower.TheConstants.{ROWS_MAX};
ghost use Rattle.mdb_verdict.specs.declared.verdict.TheConstants.{BYTES_MAX};
ghost use Rattle.mdb_text.specs.declared.outcome.Outcome.{Outcome};
ghost use Rattle.mdb_text.specs.declared.outcome.Outcome.TheVariants.{No, Yes};
ghost use Rattle.mdb_verdict.specs.declared.fault.RunFault.{RunFault};
ghost use Rattle.mdb_verdict.specs.Headline.{Headline};
ghost use Rattle.mdb_verdict.specs.Telling.{IsOwnAnswer};
ghost use Rattle.mdb_verdict.specs.Verdict.{IsAnswer};

use mdb_follow::laws;

/// The headline: what a verdict says, phrase by phrase.
///
/// It is yes where all records are rows that have a run, and only there. No run of them has a sale
/// without its approval, and the report's bounds are as tight as they can be: some run comes to
/// each, and none goes beyond. After a no, the rows have a run up to the one before the row that
/// it names, and no further.
pub fn verdicts_say_the_headline()
    ensures { (scope : Scope) (limit : ℕ) (records : List (List (List ℕ))) (outcome : Outcome)
        → IsAnswer scope limit records (Ok outcome) → Headline scope limit records outcome }
{
    laws::fronts_of_reached_rows_are_reached();
    laws::reports_name_the_accounts_of_runs();
}

/// The records of a text have at most one answer of their own: a yes with its report, a no with its
/// row, rule and blame, the first record that is no row and why, or too many rows.
///
/// So where one of these is the answer, no other one would be right.
pub fn texts_have_one_answer()
    ensures { (scope : Scope) (limit : ℕ) (records : List (List (List ℕ)))
        (a b : Result Outcome RunFault)
        → IsAnswer scope limit records a → IsAnswer scope limit records b → IsOwnAnswer a
        → IsOwnAnswer b → a ≡ b }
{
    laws::fronts_of_reached_rows_are_reached();
    laws::rows_have_one_report();
    laws::rows_have_one_offence();
}

/// A yes stays a yes where further devices are left out, and its report is the same of those that
/// are followed still.
pub fn yeses_stay_without_further_devices()
    ensures { (less more : Scope) (limit : ℕ) (records : List (List (List ℕ))) (one : Report)
        → LeavesOutMore less more → IsAnswer less limit records (Ok (Yes one))
        → (other : Report) × IsAnswer more limit records (Ok (Yes other))
        × HaveSameFollowed more one other }
{
    laws::reports_go_on_without_further_devices();
    laws::sales_follow_their_approvals();
}

/// A device that is left out is never to blame, and a yes has nothing of it.
pub fn answers_have_nothing_of_devices_left_out()
    ensures verdict { (scope : Scope) (limit : ℕ) (records : List (List (List ℕ)))
        (offence : Offence) (device : Device) → IsAnswer scope limit records (Ok (No offence))
        → offence.blame ≡ blame_on (Some device) → IsFollowed scope device }
    ensures nothing { (scope : Scope) (limit : ℕ) (records : List (List (List ℕ)))
        (report : Report) → IsAnswer scope limit records (Ok (Yes report))
        → HasNothingLeftOut scope report }
{
    laws::offences_are_blamed_on_devices_that_are_followed();
    laws::reports_have_nothing_of_devices_left_out();
}

/// The limits of a transcript (this profile).
pub fn limits_are_those_of_this_profile()
    ensures rows { ROWS_MAX ≡ 100000000 }
    ensures bytes { BYTES_MAX ≡ 6400000000 }
{}
