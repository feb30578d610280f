//! Laws of the ends of recordings. Each function's contract is the law, and its body calls the laws
//! that it rests on.
//!
//! By the base profile each end may be read by itself. By the extended one feature levels tell how
//! a reader's reply is read, and an end may not show them. There an end may be read by itself if it
//! has an act list, told nothing of levels but what was known in front of it.

ghost use Rattle.std.specs.Prelude.{◌≡◌, ℕ, [], ◌∷◌, ◌++◌, List, Result, Ok};
ghost use Rattle.mdb_words.specs.declared.event.Event.{Event};
ghost use Rattle.mdb_msgs.specs.declared.command.Device.{Device};
ghost use Rattle.mdb_msgs.specs.declared.command.Device.TheVariants as devices;
ghost use Rattle.mdb_msgs.specs.declared.command.ReaderUnit.{ReaderUnit};
ghost use Rattle.mdb_msgs.specs.declared.device_set.DeviceSet.{DeviceSet};
ghost use Rattle.mdb_msgs.specs.declared.setups.Setups.{Setups};
ghost use Rattle.mdb_bus.specs.ActLists.{IsActList, Piece, acts_of};
ghost use Rattle.mdb_bus.specs.Pieces.{HasActList};
ghost use Rattle.mdb_bus.specs.LeavingOut.{LeavesOutMore, with_foreign};
ghost use Rattle.mdb_bus.specs.LinkFaults.{IsLinkFault};
ghost use Rattle.mdb_bus.specs.Scopes.{IsFollowed, from_power_on, profile_of};
ghost use Rattle.mdb_bus.specs.JoinedScopes.{joined_by};
ghost use Rattle.mdb_bus.specs.declared.fault.Blame.{Blame};
ghost use Rattle.mdb_bus.specs.declared.fault.Rule.{Rule};
ghost use Rattle.mdb_bus.specs.declared.fault.Rule.TheVariants as rule;
ghost use Rattle.mdb_bus.specs.declared.levels.Levels.{Levels};
ghost use Rattle.mdb_bus.specs.declared.scope.Beginning.{Beginning};
ghost use Rattle.mdb_bus.specs.declared.scope.Beginning.TheVariants.{Joined, PowerOn};
ghost use Rattle.mdb_bus.specs.declared.scope.Profile.{Profile};
ghost use Rattle.mdb_bus.specs.declared.scope.Scope.{Scope};
ghost use Rattle.mdb_follow.specs.AccountNames.{account_device, account_of, sums_of};
ghost use Rattle.mdb_follow.specs.LeavingOut.{IsNotKnown};
ghost use Rattle.mdb_follow.specs.Report.{IsReport, device_unvalued, unvalued_of};
ghost use Rattle.mdb_follow.specs.Runs.{AllSums, IsReached, IsWay, Run};
ghost use Rattle.mdb_follow.specs.declared.account_name.AccountName.{AccountName};
ghost use Rattle.mdb_follow.specs.declared.report.Report.{Report};
ghost use Rattle.mdb_text.specs.declared.outcome.Outcome.{Outcome};
ghost use Rattle.mdb_text.specs.declared.outcome.Outcome.TheVariants.{Yes};
ghost use Rattle.mdb_verdict.specs.declared.fault.RunFault.{RunFault};
ghost use Rattle.mdb_verdict.specs.Telling.{IsOwnAnswer};
ghost use Rattle.mdb_verdict.specs.Verdict.{IsAnswer};
ghost use Rattle.mdb_verdict.specs.Rows.{AreRows};
ghost use Rattle.mdb_late_start.specs.Alone.{IsYesOrByProfile, MayBeReadAlone, TellsLevelsOfFront, TellsRecordsOfFront};
ghost use Rattle.mdb_late_start.specs.Cuts.{BeginAnew, SplitsAt, joined_with};
ghost use Rattle.mdb_late_start.specs.Ends.{AreAlike, CameToWithin, Passes, both_sums};
ghost use Rattle.mdb_late_start.specs.Middle.{HasMiddle};
ghost use Rattle.mdb_late_start.specs.MidSession.{MayJoinLate, TellsOnlyWhatIsSo};
ghost use Rattle.mdb_late_start.specs.Told.{AreToldBy, WereTold, told_later};
ghost use Rattle.mdb_late_start.specs.inner.EndLaws.{EndLaws};

use mdb_bus::laws as links;
use mdb_follow::laws as follow;
use mdb_msgs::laws as messages;

/// The end of a recording that may be read by itself has the acts of the whole, wherever the
/// recording is cut. Checked as a recording that begins while the machine was running, it has the
/// pieces that begin in it, and foreign words before them.
pub fn ends_of_transcripts_have_act_lists()
    ensures { (scope : Scope) (setups : Setups) (front end : List Event) (pieces : List Piece)
        → MayBeReadAlone scope setups front end → IsActList scope pieces (front ++ end)
        → SplitsAt scope setups front end pieces }
{
    messages::first_byte_tells_the_device();
    messages::need_leaves_a_command_open();
    messages::need_leaves_another_command_open();
    links::transcripts_have_one_act_list();
    links::fronts_of_act_lists_have_act_lists();
    links::open_replies_are_read_as_at_any_levels();
}

/// So it has where feature levels are told that the controller had told the readers in front of the
/// cut: of each reader none, or the last one. (By the extended profile setup data tell levels.)
pub fn ends_have_act_lists_with_the_levels_told_in_front()
    ensures { (scope : Scope) (setups : Setups) (levels : Levels) (front end : List Event)
        (pieces : List Piece)
        → IsActList scope pieces (front ++ end) → (cut : SplitsAt scope setups front end pieces)
        → AreToldBy scope cut.before levels
        → IsActList (told_later setups levels scope) (cut.later ++ with_foreign cut.words []) end }
{}

/// If the end of a recording begins anew, the levels told in front of it are those that the act
/// list of the rows there tells.
#[tactic(auto, using(crate::proofs::ToldCuts::told_anew))]
pub fn the_act_list_in_front_tells_the_levels()
    ensures { (scope : Scope) (setups : Setups) (levels : Levels) (front end : List Event)
        (before : List Piece) → MayBeReadAlone scope setups front end
        → HasActList scope (front ++ end) → BeginAnew end
        → IsActList scope before front → AreToldBy scope before levels
        → WereTold scope setups levels front end }
{
    ends_of_transcripts_have_act_lists();
    links::transcripts_have_one_act_list();
}

/// The act list of a recording from power-on is also that of the same rows, checked as a recording
/// that begins while the machine was running, if they may be read by themselves so.
#[tactic(auto, using(crate::proofs::EndRuns::joined_too))]
pub fn act_lists_from_power_on_are_joined_ones()
    ensures { (profile : Profile) (setups : Setups) (without : DeviceSet) (pieces : List Piece)
        (rows : List Event) → MayBeReadAlone (from_power_on profile without) setups [] rows
        → IsActList (from_power_on profile without) pieces rows
        → IsActList (joined_by profile setups without) pieces rows }
{
    ends_of_transcripts_have_act_lists();
}

/// Every step of the changer from power-on is allowed in a recording that begins while it was
/// running, by any profile.
#[tactic(auto, using(crate::proofs::Changer::changer_stays))]
pub fn the_changer_stays_in_mid_session()
    ensures { (begins : Beginning) (setups : Setups)
        → MayJoinLate begins setups devices.Changer }
{}

/// Every step of the validator from power-on is allowed in a recording that begins while it was
/// running, by any profile.
#[tactic(auto, using(crate::proofs::Validator::validator_stays))]
pub fn the_validator_stays_in_mid_session()
    ensures { (begins : Beginning) (setups : Setups)
        → MayJoinLate begins setups devices.Bill }
{}

/// Every step of a reader from power-on is allowed in a recording that begins while it was running,
/// by any profile, whatever is told of its levels.
#[tactic(auto, using(crate::proofs::Readers::stays))]
pub fn a_reader_stays_in_mid_session()
    ensures { (begins : Beginning) (setups : Setups) (unit : ReaderUnit)
        → MayJoinLate begins setups (devices.Reader unit) }
{}

/// What the laws of runs rest on.
#[tactic(auto, using(crate::proofs::Readers::each_stays))]
fn end_laws()
    ensures { EndLaws }
{
    ends_of_transcripts_have_act_lists();
    ends_have_act_lists_with_the_levels_told_in_front();
    the_changer_stays_in_mid_session();
    the_validator_stays_in_mid_session();
    a_reader_stays_in_mid_session();
    links::transcripts_have_one_act_list();
    links::acts_name_replies_of_their_commands();
    follow::ways_split();
    follow::ways_join();
}

/// So each run from power-on is also a run of a recording that begins while the machine was
/// running. It has the same act list and loss, the same choices and the same states. It has the
/// same sums for each device of which nothing is known from elsewhere.
pub fn runs_from_power_on_are_joined_runs()
    ensures { (profile : Profile) (setups : Setups) (without : DeviceSet) (rows : List Event)
        (sums : AllSums) (run : Run (from_power_on profile without) rows sums)
        → MayBeReadAlone (from_power_on profile without) setups [] rows → (more : AllSums)
        × IsActList (joined_by profile setups without) run.pieces rows
        × (way : IsWay (Joined setups profile) run.loss run.pieces run.states more)
        × AreAlike (PowerOn profile) (Joined setups profile) run.loss run.pieces run.states
        run.states sums more run.way way
        × ((device : Device) → IsNotKnown (Joined setups profile) device
        → more device ≡ sums device) }
{
    act_lists_from_power_on_are_joined_ones();
    end_laws();
}

/// Nobody is blamed because a recording begins late. If rows are reached, each end of them that may
/// be read by itself is reached as a recording that begins while the machine was running, wherever
/// it is cut.
pub fn ends_of_reached_rows_are_reached()
    ensures { (scope : Scope) (setups : Setups) (front end : List Event)
        → MayBeReadAlone scope setups front end → IsReached scope (front ++ end)
        → IsReached (joined_with setups scope) end }
{
    end_laws();
}

/// So it is where feature levels are told that the controller had told the readers in front of the
/// cut: of each reader none, or the last one.
pub fn ends_are_reached_with_the_levels_told_in_front()
    ensures { (scope : Scope) (setups : Setups) (levels : Levels) (front end : List Event)
        → MayBeReadAlone scope setups front end → IsReached scope (front ++ end)
        → WereTold scope setups levels front end → IsReached (told_later setups levels scope) end }
{
    end_laws();
}

/// If the end of rows begins anew, each run of the rows passes the end of the rows before it.
#[tactic(auto, using(crate::proofs::EndRuns::passes_front))]
pub fn runs_pass_where_an_end_begins_anew()
    ensures { (scope : Scope) (front end : List Event) (sums : AllSums)
        (run : Run scope (front ++ end) sums) → BeginAnew end
        → Passes scope (front ++ end) sums run front }
{}

/// If an end begins anew, and may be read by itself, each run of the whole rows has a run of the
/// end that gains the same there. It does so in both accounts of each device that leaves no amount
/// without a value in the end. What is known of that device from elsewhere must be how it was set
/// up before the end. The end may be taken with feature levels told that the controller had told
/// the readers in front of it: of each reader none, or the last one.
#[tactic(auto, using(crate::proofs::EndRuns::gained_there))]
pub fn runs_of_ends_gain_it_with_the_levels_told_in_front()
    ensures { (scope : Scope) (setups : Setups) (levels : Levels) (front end : List Event)
        (sums : AllSums) (run : Run scope (front ++ end) sums)
        → MayBeReadAlone scope setups front end → BeginAnew end
        → (passes : Passes scope (front ++ end) sums run front)
        → AreToldBy scope passes.before levels → (gained : AllSums)
        × Run (told_later setups levels scope) end gained
        × ((device : Device) → TellsOnlyWhatIsSo setups scope.begins device (acts_of passes.before)
        → unvalued_of (Joined setups (profile_of scope.begins)) device (acts_of passes.later) ≡ 0
        → sums device ≡ both_sums (passes.sums_then device) (gained device)) }
{
    end_laws();
}

/// So the true sums lie within the bounds. If an end begins anew, and may be read by itself, take
/// what an account gained in it, in any run of the whole rows. It lies within the bounds of the
/// end's report: the device's count, the controller's count, and the difference. This holds for
/// each device that leaves no amount without a value in the end. What is known of that device from
/// elsewhere must be how it was set up before the end. Of the feature levels that the controller
/// had told the readers in front of the end, each reader's last one may be told of it, or none.
pub fn what_came_lies_within_its_bounds_with_the_levels_told_in_front()
    ensures { (scope : Scope) (setups : Setups) (levels : Levels) (front end : List Event)
        (sums : AllSums) (run : Run scope (front ++ end) sums) (report : Report)
        → MayBeReadAlone scope setups front end → BeginAnew end
        → (passes : Passes scope (front ++ end) sums run front)
        → AreToldBy scope passes.before levels
        → IsReport (told_later setups levels scope) end report → (account : AccountName)
        → TellsOnlyWhatIsSo setups scope.begins (account_device account) (acts_of passes.before)
        → device_unvalued (account_device account) report ≡ 0
        → CameToWithin (account_of account report) (sums_of account passes.sums_then)
        (sums_of account sums) }
{
    end_laws();
    follow::reports_name_the_accounts_of_runs();
    follow::reports_name_the_decimals_and_silences_of_devices();
}

/// So they lie within the bounds of a stretch of rows that has the end in it, as `middle`. Before
/// the end stand foreign words, and after it at most words of acts that didn't end. Take what an
/// account gained in the end, in any run of the whole rows. It lies within the bounds of the
/// stretch's report.
pub fn what_came_in_a_stretch_lies_within_its_bounds()
    ensures { (scope : Scope) (setups : Setups) (levels : Levels)
        (front middle rows : List Event) (sums : AllSums)
        (run : Run scope (front ++ middle) sums) (report : Report)
        → MayBeReadAlone scope setups front middle
        → HasMiddle (told_later setups levels scope) rows middle
        → IsReport (told_later setups levels scope) rows report
        → (passes : Passes scope (front ++ middle) sums run front)
        → AreToldBy scope passes.before levels → (account : AccountName)
        → TellsOnlyWhatIsSo setups scope.begins (account_device account) (acts_of passes.before)
        → device_unvalued (account_device account) report ≡ 0
        → CameToWithin (account_of account report) (sums_of account passes.sums_then)
        (sums_of account sums) }
{
    end_laws();
    follow::reports_name_the_accounts_of_runs();
    follow::reports_name_the_decimals_and_silences_of_devices();
    follow::what_is_known_of_a_device_is_of_its_own_acts();
}

/// So they lie where further devices are left out of the stretch, in the accounts of the devices
/// that it follows.
pub fn what_came_lies_within_the_bounds_of_a_stretch_without_further_devices()
    ensures { (scope more : Scope) (setups : Setups) (levels : Levels)
        (front middle rows : List Event) (sums : AllSums)
        (run : Run scope (front ++ middle) sums) (report : Report)
        → MayBeReadAlone scope setups front middle
        → LeavesOutMore (told_later setups levels scope) more
        → HasMiddle more rows middle → IsReport more rows report
        → (passes : Passes scope (front ++ middle) sums run front)
        → AreToldBy scope passes.before levels → (account : AccountName)
        → IsFollowed more (account_device account)
        → TellsOnlyWhatIsSo setups scope.begins (account_device account) (acts_of passes.before)
        → device_unvalued (account_device account) report ≡ 0
        → CameToWithin (account_of account report) (sums_of account passes.sums_then)
        (sums_of account sums) }
{
    end_laws();
    follow::reports_name_the_accounts_of_runs();
    follow::reports_name_the_decimals_and_silences_of_devices();
    follow::runs_go_on_without_further_devices();
    links::act_lists_stay_without_further_devices();
    links::acts_of_followed_devices_stay();
    follow::what_is_known_of_a_device_is_of_its_own_acts();
}

/// If the answer to the records of a text is yes, the answer to each end of them that may be read
/// by itself is yes too. The end is checked as a recording that begins while the machine was
/// running. It may be cut anywhere. By the base profile anything may be known of the devices from
/// elsewhere. Refused reads, writes and memory are excepted.
pub fn ends_of_yeses_are_yeses()
    ensures { (scope : Scope) (setups : Setups) (limit : ℕ) (front end : List (List (List ℕ)))
        (report : Report) (answer : Result Outcome RunFault)
        → ((rows ends : List Event) → AreRows front rows → AreRows end ends
        → MayBeReadAlone scope setups rows ends)
        → IsAnswer scope limit (front ++ end) (Ok (Yes report))
        → IsAnswer (joined_with setups scope) limit end answer → IsOwnAnswer answer
        → (other : Report) × (answer ≡ Ok (Yes other)) }
{
    ends_of_reached_rows_are_reached();
    follow::fronts_of_reached_rows_are_reached();
}

/// So it is where feature levels are told that the controller had told the readers in front of the
/// end: of each reader none, or the last one.
pub fn ends_of_yeses_are_yeses_with_the_levels_told_in_front()
    ensures { (scope : Scope) (setups : Setups) (levels : Levels) (limit : ℕ)
        (front end : List (List (List ℕ))) (report : Report) (answer : Result Outcome RunFault)
        → ((rows ends : List Event) → AreRows front rows → AreRows end ends
        → MayBeReadAlone scope setups rows ends)
        → IsAnswer scope limit (front ++ end) (Ok (Yes report))
        → ((rows ends : List Event) → AreRows front rows → AreRows end ends
        → WereTold scope setups levels rows ends)
        → IsAnswer (told_later setups levels scope) limit end answer → IsOwnAnswer answer
        → (other : Report) × (answer ≡ Ok (Yes other)) }
{
    ends_are_reached_with_the_levels_told_in_front();
    follow::fronts_of_reached_rows_are_reached();
}

/// By the extended profile, too, nobody is blamed because a recording begins late. An end of
/// possible rows may have no act list by itself. Then the first row that breaks a rule of the link
/// breaks `Profile`: it ends a reply that isn't read because the end doesn't show the levels.
pub fn ends_break_no_rule_of_the_link_but_profile()
    ensures { (scope : Scope) (setups : Setups) (front rows more : List Event) (row : Event)
        (pieces : List Piece) (broken : Rule) (blamed : Blame)
        → HasActList scope (front ++ (rows ++ row ∷ more))
        → TellsLevelsOfFront scope setups front (rows ++ row ∷ more)
        → IsActList (joined_with setups scope) pieces rows
        → IsLinkFault (joined_with setups scope) pieces row broken blamed
        → broken ≡ rule.Profile }
{
    messages::first_byte_tells_the_device();
    messages::need_leaves_a_command_open();
    messages::need_leaves_another_command_open();
    links::transcripts_have_one_act_list();
    links::fronts_of_act_lists_have_act_lists();
    links::open_replies_are_read_as_at_any_levels();
    links::rows_that_break_a_rule_end_the_act_list();
}

/// So if the answer to the records of a text is yes, the answer to each end of them is yes, or a no
/// whose rule is `Profile`. Refused reads, writes and memory are excepted.
pub fn ends_of_yeses_are_yeses_or_end_at_profile()
    ensures { (scope : Scope) (setups : Setups) (limit : ℕ) (front end : List (List (List ℕ)))
        (report : Report) (answer : Result Outcome RunFault)
        → TellsRecordsOfFront scope setups front end
        → IsAnswer scope limit (front ++ end) (Ok (Yes report))
        → IsAnswer (joined_with setups scope) limit end answer → IsOwnAnswer answer
        → IsYesOrByProfile answer }
{
    ends_of_reached_rows_are_reached();
    ends_break_no_rule_of_the_link_but_profile();
    follow::fronts_of_reached_rows_are_reached();
}
