//! Laws of explanations and of what is replayed. Each function's contract is the law, and its body
//! calls the laws that it rests on.

ghost use Rattle.std.specs.Prelude.{◌≡◌, ◌+◌, ◌*◌, ℕ, List, Result, Ok, length};
ghost use Rattle.std.specs.Prelude.{◌≤◌, All, map};
ghost use Rattle.csv.specs.Reading.{default_config, records as read_records, strip_bom};
ghost use Rattle.mdb_words.specs.declared.event.Event.{Event};
ghost use Rattle.mdb_words.specs.RowsWritten.{row_fields};
ghost use Rattle.mdb_bus.specs.declared.scope.Profile.{Profile};
ghost use Rattle.mdb_bus.specs.Scopes.{from_power_on};
ghost use Rattle.mdb_msgs.specs.declared.device_set.DeviceSet.{DeviceSet};
ghost use Rattle.mdb_bus.specs.declared.scope.Scope.{Scope};
ghost use Rattle.mdb_follow.specs.declared.goal.Goal.{Goal};
ghost use Rattle.mdb_run_search.specs.declared.mark.Mark.{Mark};
ghost use Rattle.mdb_follow.specs.declared.report.Report.{Report};
ghost use Rattle.mdb_follow.specs.declared.follower.TheConstants.{ROWS_MAX};
ghost use Rattle.mdb_verdict.specs.declared.verdict.TheConstants.{BYTES_MAX};
ghost use Rattle.mdb_text.specs.declared.outcome.Outcome.{Outcome};
ghost use Rattle.mdb_text.specs.declared.outcome.Outcome.TheVariants.{Yes};
ghost use Rattle.mdb_verdict.specs.declared.fault.RunFault.{RunFault};
ghost use Rattle.mdb_explain.specs.declared.fault.MarkedFault.{MarkedFault};
ghost use Rattle.mdb_explain.specs.Explain.{ComesTo, IsExplanation, explanation_records, explanation_text, mark_fields};
ghost use Rattle.mdb_verdict.specs.Headline.{HaveRun};
ghost use Rattle.mdb_explain.specs.Replay.{AreMarkRows, IsOwnReplay, IsReplayAnswer, IsReplayed};
ghost use Rattle.mdb_verdict.specs.Telling.{IsOwnAnswer};
ghost use Rattle.mdb_verdict.specs.Verdict.{IsAnswer};
ghost use Rattle.mdb_verdict.specs.Rows.{AreRows};

use mdb_follow::laws as follow_laws;
use mdb_run_search::laws;

/// The records of an input of `replay` have at most one answer of their own: a yes with its report,
/// a no with its row, rule and blame, the first record that is refused and why, too many, or the
/// mark that may not stand where it does.
///
/// So where one of these is the answer, no other one would be right.
pub fn inputs_of_replay_have_one_answer()
    ensures { (scope : Scope) (limit : ℕ) (records : List (List (List ℕ)))
        (a b : Result Outcome MarkedFault)
        → IsReplayAnswer scope limit records a → IsReplayAnswer scope limit records b
        → IsOwnReplay a → IsOwnReplay b → a ≡ b }
{
    laws::fronts_of_marked_runs_have_the_marks_there();
    laws::marks_rise();
    laws::rows_have_one_replay_report();
    laws::rows_have_one_fault_with_given_marks();
}

/// The transcript of an input that is replayed with a yes is one for which `check` says yes: its
/// rows have a run, and with as many rows allowed no other answer of its own would be right.
pub fn replayed_transcripts_are_yeses()
    ensures runs { (scope : Scope) (limit : ℕ) (records : List (List (List ℕ))) (report : Report)
        → (replayed : IsReplayed scope limit records report)
        → HaveRun scope replayed.transcript (length replayed.transcript) }
    ensures yes { (scope : Scope) (limit : ℕ) (records : List (List (List ℕ))) (report : Report)
        (answer : Result Outcome RunFault) → (replayed : IsReplayed scope limit records report)
        → IsAnswer scope limit replayed.transcript answer → IsOwnAnswer answer
        → (checked : Report) × (answer ≡ Ok (Yes checked)) }
{
    follow_laws::fronts_of_reached_rows_are_reached();
}

/// The text of an explanation, read as `csv` reads an input, has the records of its marks and then
/// those of its rows, and no others. They are mark rows and rows of a transcript, and tell just
/// these marks and rows. It is short: a mark takes 14 bytes at most, and a row 31.
pub fn explanations_read_as_their_marks_and_rows()
    ensures reads { (records : List (List (List ℕ))) (rows : List Event)
        (marks : List (ℕ × Mark)) → AreRows records rows → All (λ mark. mark.0 ≤ ROWS_MAX) marks
        → (read_records default_config (strip_bom (explanation_text marks rows))
        ≡ explanation_records marks rows)
        × AreMarkRows (map mark_fields marks) marks × AreRows (map row_fields rows) rows }
    ensures short { (records : List (List (List ℕ))) (rows : List Event)
        (marks : List (ℕ × Mark)) → AreRows records rows → All (λ mark. mark.0 ≤ ROWS_MAX) marks
        → length (explanation_text marks rows) ≤ 14 * length marks + 31 * length rows }
{}

/// What `explain` writes of a recording with a yes is replayed with a yes, and comes to its goal:
/// both ends of that range in the report of the replay are the end that the report of `check` has.
/// And it has no more bytes than an input may have.
pub fn explanations_replay_to_their_goals()
    ensures comes { (profile : Profile) (without : DeviceSet) (goal : Goal)
        (records : List (List (List ℕ))) (text : List ℕ) (checked : Report)
        (answer : Result Outcome MarkedFault)
        → IsAnswer (from_power_on profile without) ROWS_MAX records (Ok (Yes checked))
        → IsExplanation (from_power_on profile without) goal records text
        → IsReplayAnswer (from_power_on profile without) ROWS_MAX
        (read_records default_config (strip_bom text)) answer
        → IsOwnReplay answer → ComesTo goal checked answer }
    ensures within { (profile : Profile) (without : DeviceSet) (goal : Goal)
        (records : List (List (List ℕ))) (text : List ℕ) (checked : Report)
        → IsAnswer (from_power_on profile without) ROWS_MAX records (Ok (Yes checked))
        → IsExplanation (from_power_on profile without) goal records text
        → length text ≤ BYTES_MAX }
{
    laws::marks_rise();
    laws::rows_with_a_marked_run_have_a_replay_report();
    laws::explained_goals_are_ends_of_reports();
    inputs_of_replay_have_one_answer();
    explanations_read_as_their_marks_and_rows();
}
