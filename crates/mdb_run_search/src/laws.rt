//! What follows from the definitions of marks, of replays and of explanations.

ghost use Rattle.std.specs.Prelude.{◌≡◌, ◌+◌, ℕ, List, ◌++◌, All, Contains, Option, Some, length};
ghost use Rattle.mdb_words.specs.declared.event.Event.{Event};
ghost use Rattle.mdb_msgs.specs.declared.command.Device.{Device};
ghost use Rattle.mdb_msgs.specs.declared.command.Device.TheVariants as devices;
ghost use Rattle.mdb_msgs.specs.declared.command.ReaderUnit.TheVariants.{First, Second};
ghost use Rattle.mdb_bus.specs.ActLists.{ArePieces, Piece, acts_of, events_of};
ghost use Rattle.mdb_bus.specs.declared.scope.Beginning.TheVariants.{PowerOn};
ghost use Rattle.mdb_bus.specs.Scopes.{profile_of};
ghost use Rattle.mdb_bus.specs.LinkFaults.{blame_on};
ghost use Rattle.mdb_bus.specs.Scopes.{IsFollowed};
ghost use Rattle.mdb_bus.specs.declared.scope.Scope.{Scope};
ghost use Rattle.mdb_follow.specs.Choosing.{Choices};
ghost use Rattle.mdb_follow.specs.Follower.{StandsFor, scope_of};
ghost use Rattle.mdb_follow.specs.declared.goal.Goal.{Goal};
ghost use Rattle.mdb_run_search.specs.declared.mark.Mark.{Mark};
ghost use Rattle.mdb_follow.specs.LeavingOut.{HasNothingLeftOut};
ghost use Rattle.mdb_follow.specs.declared.offence.Offence.{Offence};
ghost use Rattle.mdb_follow.specs.declared.report.Report.{Report};
ghost use Rattle.mdb_run_search.specs.Marks.{MarkedRun, Rise, StandsWithin, marks_of, own_marks};
ghost use Rattle.mdb_follow.specs.Ends.{side_range};
ghost use Rattle.mdb_follow.specs.GoalEnds.{end_of};
ghost use Rattle.mdb_run_search.specs.Goals.{Explains};
ghost use Rattle.mdb_run_search.specs.ReplayFaults.{HasMarkedRun, IsReplayFault, IsReplayOffence, SplitAt};
ghost use Rattle.mdb_run_search.specs.Replays.{IsReplayReport};
ghost use Rattle.mdb_run_search.specs.Replays as replays;
ghost use Rattle.mdb_run_search.specs.declared.replay.Replay.{Replay};
ghost use Rattle.mdb_run_search.specs.declared.replay.ReplayFault.{ReplayFault};
ghost use Rattle.mdb_follow.specs.Report.{IsReport};
ghost use Rattle.mdb_follow.specs.AccountNames.{account_of};
ghost use Rattle.mdb_follow.specs.Runs.{AllSums};

use mdb_bus::laws;
use mdb_cash::laws as cash_laws;
use mdb_cashless::laws as cashless_laws;
use mdb_follow::laws as follow_laws;
use mdb_machine::laws as machine_laws;
use mdb_msgs::laws as message_laws;

/// Marks tell what is chosen of each act: choices with the same marks are the same.
#[tactic(auto, using(crate::proofs::MarkedRuns::marks_tell))]
pub fn marks_tell_what_is_chosen()
    ensures { (scope : Scope) (pieces : List Piece) (one other : Choices (acts_of pieces))
        → ArePieces scope pieces → marks_of pieces one ≡ marks_of pieces other → one ≡ other }
{}

/// Marks stand at rows of their pieces, and these rise: no two marks stand at one row.
#[tactic(auto, using(crate::proofs::MarkedRuns::marks_rise, crate::proofs::MarkedRuns::all_within))]
pub fn marks_rise()
    ensures rise { (scope : Scope) (pieces : List Piece) (chosen : Choices (acts_of pieces))
        → ArePieces scope pieces → Rise (marks_of pieces chosen) }
    ensures within { (scope : Scope) (pieces : List Piece) (chosen : Choices (acts_of pieces))
        → ArePieces scope pieces
        → All (StandsWithin (length (events_of pieces))) (marks_of pieces chosen) }
{}

/// Each mark is of one device: those of the devices are together as many as all, and each of all is
/// among those of some device. The rows of each device's marks rise too, and no two devices have a
/// mark at one row.
#[tactic(auto, using(crate::proofs::OwnMarks::all_together, crate::proofs::OwnMarks::in_own, crate::proofs::OwnMarks::own_rise))]
pub fn marks_are_of_devices()
    ensures count { (pieces : List Piece) (chosen : Choices (acts_of pieces))
        → length (marks_of pieces chosen)
        ≡ length (own_marks devices.Changer pieces chosen)
        + length (own_marks devices.Bill pieces chosen)
        + length (own_marks (devices.Reader First) pieces chosen)
        + length (own_marks (devices.Reader Second) pieces chosen) }
    ensures own { (device : Device) (pieces : List Piece) (chosen : Choices (acts_of pieces))
        (mark : ℕ × Mark) → Contains (own_marks device pieces chosen) mark
        → Contains (marks_of pieces chosen) mark }
    ensures some { (pieces : List Piece) (chosen : Choices (acts_of pieces))
        (mark : ℕ × Mark) → Contains (marks_of pieces chosen) mark
        → (device : Device) × Contains (own_marks device pieces chosen) mark }
    ensures rise { (scope : Scope) (device : Device) (pieces : List Piece)
        (chosen : Choices (acts_of pieces)) → ArePieces scope pieces
        → Rise (own_marks device pieces chosen) }
    ensures apart { (scope : Scope) (pieces : List Piece) (chosen : Choices (acts_of pieces))
        → ArePieces scope pieces → (one other : Device) (mark next : ℕ × Mark)
        → Contains (own_marks one pieces chosen) mark
        → Contains (own_marks other pieces chosen) next → mark.0 ≡ next.0 → one ≡ other }
{
    machine_laws::own_acts_are_those_that_a_device_has_a_part_in();
}

/// The run of a replay is the only one of its rows with its marks: each such run comes to the same
/// sums.
pub fn replays_stand_for_the_only_run_with_their_marks()
    ensures { (replay : Replay) (rows : List Event) (marks : List (ℕ × Mark))
        → replays.StandsFor replay rows marks
        → (sums : AllSums) × MarkedRun (replays.scope_of replay) rows marks sums
        × ((other : AllSums) → MarkedRun (replays.scope_of replay) rows marks other
        → (device : Device) → other device ≡ sums device) }
{
    laws::transcripts_have_one_act_list();
    follow_laws::ways_with_choices_join();
    follow_laws::ways_split_with_choices();
    marks_tell_what_is_chosen();
}

/// A row has one fault in a replay with given marks: one offence, or the one that its mark may not
/// stand there.
pub fn rows_have_one_fault_with_given_marks()
    ensures { (scope : Scope) (rows : List Event) (marks : List (ℕ × Mark)) (row : Event)
        (mark : Option Mark) (a b : ReplayFault) → IsReplayFault scope rows marks row mark a
        → IsReplayFault scope rows marks row mark b → a ≡ b }
{
    laws::transcripts_have_one_act_list();
    laws::rows_have_one_fault();
    laws::rows_that_break_a_rule_end_the_act_list();
    laws::act_lists_go_on_row_by_row();
}

/// Where rows have a run with given marks, any first rows of them have one with the marks that
/// stand there; all other marks stand after them.
pub fn fronts_of_marked_runs_have_the_marks_there()
    ensures { (scope : Scope) (rows more : List Event) (marks : List (ℕ × Mark))
        → HasMarkedRun scope (rows ++ more) marks → SplitAt scope rows marks }
{
    message_laws::first_byte_tells_the_device();
    message_laws::need_leaves_a_command_open();
    message_laws::need_leaves_another_command_open();
    follow_laws::ways_with_choices_join();
}

/// Rows have one report in a replay with given marks.
pub fn rows_have_one_replay_report()
    ensures { (scope : Scope) (rows : List Event) (marks : List (ℕ × Mark)) (a b : Report)
        → IsReplayReport scope rows marks a → IsReplayReport scope rows marks b → a ≡ b }
{
    laws::transcripts_have_one_act_list();
}

/// Rows of a recording from power-on that have a run with given marks have a report in a replay
/// with these.
pub fn rows_with_a_marked_run_have_a_replay_report()
    ensures { (scope : Scope) (rows : List Event) (marks : List (ℕ × Mark))
        → scope.begins ≡ PowerOn (profile_of scope.begins) → HasMarkedRun scope rows marks
        → (report : Report) × IsReplayReport scope rows marks report }
{
    laws::transcripts_have_one_act_list();
    follow_laws::ways_split_with_choices();
    marks_tell_what_is_chosen();
    cash_laws::from_power_on_all_is_known_of_the_changer();
    cash_laws::from_power_on_all_is_known_of_the_validator();
    cashless_laws::from_power_on_all_is_known_of_a_reader();
}

/// No offence of a replay is blamed on a device that is left out.
pub fn replay_offences_are_blamed_on_devices_that_are_followed()
    ensures { (scope : Scope) (rows : List Event) (marks : List (ℕ × Mark)) (row : Event)
        (mark : Option Mark) (offence : Offence) (device : Device)
        → IsReplayOffence scope rows marks row mark offence
        → offence.blame ≡ blame_on (Some device) → IsFollowed scope device }
{
    laws::acts_name_devices_that_are_followed();
    laws::faults_are_blamed_on_devices_that_are_followed();
}

/// A report of a replay has nothing of the devices that are left out, but for decimal places that
/// are known from elsewhere.
pub fn replay_reports_have_nothing_of_devices_left_out()
    ensures { (scope : Scope) (rows : List Event) (marks : List (ℕ × Mark)) (report : Report)
        → IsReplayReport scope rows marks report → HasNothingLeftOut scope report }
{
    laws::acts_name_devices_that_are_followed();
    laws::devices_left_out_have_a_part_in_breaks_alone();
    follow_laws::breaks_tell_nothing_of_a_device();
    follow_laws::runs_add_nothing_of_devices_left_out();
}

/// Where marks explain a goal, the report of a replay with them comes to the end that the report on
/// the rows has: in it both ends of the goal's range are that.
pub fn explained_goals_are_ends_of_reports()
    ensures { (scope : Scope) (rows : List Event) (goal : Goal) (marks : List (ℕ × Mark))
        (checked replayed : Report) → Explains scope rows goal marks
        → IsReport scope rows checked → IsReplayReport scope rows marks replayed
        → ((side_range goal.side (account_of goal.account replayed)).least
        ≡ end_of goal.bound (side_range goal.side (account_of goal.account checked)))
        × ((side_range goal.side (account_of goal.account replayed)).greatest
        ≡ end_of goal.bound (side_range goal.side (account_of goal.account checked))) }
{}
