//! Laws of what is shown, in whatever form its lines are. Each function's contract is the law, and
//! its body calls the laws that it rests on.

ghost use Rattle.std.specs.Prelude.{◌≡◌, ◌+◌, ℕ, List, None, Option, Result, Ok, Some, length};
ghost use Rattle.mdb_msgs.specs.declared.command.Device.{Device};
ghost use Rattle.mdb_bus.specs.declared.fault.LinkFault.{LinkFault};
ghost use Rattle.mdb_bus.specs.LeavingOut.{LeavesOutMore};
ghost use Rattle.mdb_bus.specs.LinkFaults.{blame_on};
ghost use Rattle.mdb_bus.specs.Scopes.{IsFollowed, profile_of};
ghost use Rattle.mdb_bus.specs.declared.scope.Scope.{Scope};
ghost use Rattle.mdb_follow.specs.declared.follower.TheConstants.{ROWS_MAX};
ghost use Rattle.mdb_text.specs.declared.outcome.Outcome.{Outcome};
ghost use Rattle.mdb_verdict.specs.declared.fault.RunFault.{RunFault};
ghost use Rattle.mdb_show.specs.Lines.{LineForm};
ghost use Rattle.mdb_show.specs.Show.{IsShowingIn, IsShownToFaultIn};
ghost use Rattle.mdb_show.specs.ShownFault.{IsNoUpTo};
ghost use Rattle.mdb_verdict.specs.Telling.{IsOwnAnswer};
ghost use Rattle.mdb_verdict.specs.Verdict.{IsAnswer};

use mdb_bus::laws as links;

/// The records of a text are shown in at most one way of their own: what is answered, and what is
/// written.
pub fn texts_are_shown_in_one_way()
    ensures { (form : LineForm) (scope : Scope) (records : List (List (List ℕ)))
        (a b : Result (Option LinkFault) RunFault) (s t : List ℕ)
        → IsShowingIn form scope records a s → IsShowingIn form scope records b t → IsOwnAnswer a
        → IsOwnAnswer b → (a ≡ b) × (s ≡ t) }
{
    links::fronts_of_act_lists_have_act_lists();
    links::transcripts_have_one_act_list();
    links::rows_have_one_fault();
    links::rows_that_break_a_rule_end_the_act_list();
}

/// Records that are shown in one form, with whatever answer, are shown in any other with the same
/// answer: so what is told differs in its form alone.
pub fn texts_are_shown_alike_in_all_forms()
    ensures { (form other : LineForm) (scope : Scope) (records : List (List (List ℕ)))
        (answer : Result (Option LinkFault) RunFault) (text : List ℕ)
        → IsShowingIn form scope records answer text
        → (same : List ℕ) × IsShowingIn other scope records answer same }
{}

/// Where the records of a text are shown up to a fault of the link, their verdict is a no: with the
/// row, the rule and the blame of that fault, or with an earlier row, where a device or the
/// controller did what it can't have done: by its rule, or `Early` where the controller was in
/// haste.
pub fn shown_faults_are_those_of_verdicts()
    ensures { (form : LineForm) (scope : Scope) (records : List (List (List ℕ))) (fault : LinkFault)
        (text : List ℕ) (answer : Result Outcome RunFault)
        → (shown : IsShownToFaultIn form scope records fault text)
        → IsAnswer scope ROWS_MAX records answer → IsOwnAnswer answer
        → IsNoUpTo (profile_of scope.begins) (length shown.rows + 1) fault answer }
{
    links::fronts_of_act_lists_have_act_lists();
    links::transcripts_have_one_act_list();
    links::rows_have_one_fault();
    links::rows_that_break_a_rule_end_the_act_list();
}

/// Records that are shown to their end without a fault are shown so where further devices are left
/// out.
pub fn whole_texts_are_shown_whole_without_further_devices()
    ensures { (form : LineForm) (less more : Scope) (records : List (List (List ℕ)))
        (text : List ℕ) → LeavesOutMore less more → IsShowingIn form less records (Ok None) text
        → (other : List ℕ) × IsShowingIn form more records (Ok None) other }
{
    links::pieces_stay_in_order_without_further_devices();
}

/// A device that is left out is never to blame where rows are shown.
pub fn shown_faults_are_blamed_on_devices_that_are_followed()
    ensures { (form : LineForm) (scope : Scope) (records : List (List (List ℕ))) (fault : LinkFault)
        (text : List ℕ) (device : Device) → IsShowingIn form scope records (Ok (Some fault)) text
        → fault.blame ≡ blame_on (Some device) → IsFollowed scope device }
{
    links::faults_are_blamed_on_devices_that_are_followed();
}
