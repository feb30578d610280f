//! Laws of runs. They follow from the definitions alone.

ghost use Rattle.std.specs.List.{All};
ghost use Rattle.std.specs.Prelude.{◌≡◌, ◌↔◌, ◌+◌, ℕ, List, [], ◌∷◌, ◌++◌, None, Result, Some};
ghost use Rattle.mdb_words.specs.declared.event.Event.{Event};
ghost use Rattle.mdb_msgs.specs.declared.command.Device.{Device};
ghost use Rattle.mdb_msgs.specs.declared.command.Device.TheVariants as devices;
ghost use Rattle.mdb_bus.specs.declared.act.Act.{Act};
ghost use Rattle.mdb_bus.specs.ActLists.{ArePieces, IsActList, Piece, acts_of};
ghost use Rattle.mdb_bus.specs.declared.fault.Rule.{Rule};
ghost use Rattle.mdb_bus.specs.declared.scope.Beginning.{Beginning};
ghost use Rattle.mdb_bus.specs.declared.scope.Profile.TheVariants.{Base};
ghost use Rattle.mdb_bus.specs.declared.scope.Scope.{Scope};
ghost use Rattle.mdb_bus.specs.LeavingOut.{LeavesOutMore, IsLeftOut};
ghost use Rattle.mdb_bus.specs.LinkFaults.{blame_on};
ghost use Rattle.mdb_bus.specs.Loss.{Loss, LossFits};
ghost use Rattle.mdb_bus.specs.Scopes.{IsFollowed, profile_of};
ghost use Rattle.mdb_machine.specs.Pair.{IsBreak, own_acts};
ghost use Rattle.mdb_follow.specs.AccountNames.{account_of, sums_of};
ghost use Rattle.mdb_follow.specs.Tables.{EachArrives};
ghost use Rattle.mdb_follow.specs.Choosing.{AllFollow, Choices, choices_of};
ghost use Rattle.mdb_follow.specs.ReportedDevices.{reported_of};
ghost use Rattle.mdb_follow.specs.Follower.{StandsFor, scope_of};
ghost use Rattle.mdb_follow.specs.declared.account.Account.{Account};
ghost use Rattle.mdb_follow.specs.declared.account_name.AccountName.{AccountName};
ghost use Rattle.mdb_follow.specs.declared.follower.Follower.{Follower};
ghost use Rattle.mdb_follow.specs.declared.offence.Offence.{Offence};
ghost use Rattle.mdb_follow.specs.declared.report.Report.{Report};
ghost use Rattle.mdb_follow.specs.declared.silence.TheConstants.{BILL_SILENCE_MAX};
ghost use Rattle.mdb_follow.specs.declared.silence.TheConstants.{CHANGER_SILENCE_MAX};
ghost use Rattle.mdb_follow.specs.declared.silence.TheConstants.{MICROS_PER_SECOND};
ghost use Rattle.mdb_follow.specs.declared.silence.TheConstants.{READER_SILENCE_MAX};
ghost use Rattle.mdb_follow.specs.LeavingOut.{AreSumsWithout, HasNothingLeftOut};
ghost use Rattle.mdb_follow.specs.LeavingOut.{HaveSameFollowed, IsNotKnown};
ghost use Rattle.mdb_follow.specs.Offences.{IsOffence, act_fault};
ghost use Rattle.mdb_follow.specs.Senders.{sender_of};
ghost use Rattle.mdb_follow.specs.FirstOffences.{HasOffence};
ghost use Rattle.mdb_follow.specs.AccountRanges.{IsAccount};
ghost use Rattle.mdb_follow.specs.Report.{IsReport, decimals_of, report_of};
ghost use Rattle.mdb_follow.specs.Report.{device_decimals, device_silences, device_unvalued};
ghost use Rattle.mdb_follow.specs.Report.{unvalued_of};
ghost use Rattle.mdb_follow.specs.Runs.{AllSums, IsReached, IsWay, Run, States};
ghost use Rattle.mdb_follow.specs.SameAcks.{HearSameAcks};
ghost use Rattle.mdb_follow.specs.Sales.{SalesFollowApprovals};
ghost use Rattle.mdb_follow.specs.Silences.{silences};
ghost use Rattle.mdb_follow.specs.Slices.{AnswersRows, AnswersInSlices, joined};
ghost use Rattle.mdb_follow.specs.Sums.{no_sums};

use mdb_bus::laws;
use mdb_cash::laws as cash_laws;
use mdb_cashless::laws as cashless_laws;
use mdb_machine::laws as machine_laws;

/// The base profile needs nothing of the extended one (`Extended*.antt`): an act by which a machine
/// has no step breaks the rule of its device, and a report counts no rows out of their time.
pub fn the_base_profile_stands_alone()
    ensures acts { (scope : Scope) (pieces : List Piece) (row : Event) (act : Act) (own : Rule)
        → profile_of scope.begins ≡ Base
        → act_fault scope pieces row act own ≡ record { rule = own; blame = sender_of act } }
    ensures reports { (scope : Scope) (rows : ℕ) (pieces : List Piece)
        (accounts : AccountName → Account) → profile_of scope.begins ≡ Base
        → (report_of scope rows pieces accounts).untimely ≡ None }
{
    laws::the_base_profile_stands_alone();
}

/// A way of all devices is a way of each device.
#[tactic(auto, using(crate::proofs::Joining::split))]
pub fn ways_split()
    ensures { (begins : Beginning) (loss : Loss) (pieces : List Piece) (states : States)
        (sums : AllSums) → IsWay begins loss pieces states sums
        → EachArrives begins (acts_of pieces) states sums }
{}

/// Ways of each device are together a way of all devices, under one loss that fits.
#[tactic(auto, using(crate::proofs::Joining::joined))]
pub fn ways_join()
    ensures { (scope : Scope) (pieces : List Piece) (states : States) (sums : AllSums)
        → ArePieces scope pieces
        → EachArrives scope.begins (acts_of pieces) states sums
        → (loss : Loss) × LossFits loss pieces × IsWay scope.begins loss pieces states sums }
{
    laws::acks_may_be_heard_or_not();
}

/// A way of all devices is a way of each device, with the same choice for each act.
#[tactic(auto, using(crate::proofs::Joining::split_with_choices))]
pub fn ways_split_with_choices()
    ensures { (begins : Beginning) (loss : Loss) (pieces : List Piece) (states : States)
        (sums : AllSums) (way : IsWay begins loss pieces states sums)
        → AllFollow begins (acts_of pieces) (choices_of begins loss pieces states sums way) states
        sums }
{}

/// Ways of each device with the same choices are together a way of all devices with these choices,
/// under one loss that fits.
#[tactic(auto, using(crate::proofs::Joining::joined_with_choices))]
pub fn ways_with_choices_join()
    ensures { (scope : Scope) (pieces : List Piece) (chosen : Choices (acts_of pieces))
        (states : States) (sums : AllSums) → ArePieces scope pieces
        → AllFollow scope.begins (acts_of pieces) chosen states sums
        → (loss : Loss) × LossFits loss pieces
        × (way : IsWay scope.begins loss pieces states sums)
        × (choices_of scope.begins loss pieces states sums way ≡ chosen) }
{
    laws::acks_may_be_heard_or_not();
}

/// Only the loss of an ACK, a device's or the controller's, can change a state or a sum. If the
/// same ACKs were heard, the same ways lead through the pieces, no matter what else was lost.
#[tactic(auto, using(crate::proofs::Joining::ways_alike))]
pub fn only_the_loss_of_an_ack_matters()
    ensures { (begins : Beginning) (one other : Loss) (pieces : List Piece)
        → HearSameAcks one other pieces → (states : States) (sums : AllSums)
        → IsWay begins one pieces states sums ↔ IsWay begins other pieces states sums }
{}

/// If rows are reached, the rows before the last are reached too.
pub fn reached_rows_stay_reached_without_the_last()
    ensures { (scope : Scope) (rows : List Event) (row : Event)
        → IsReached scope (rows ++ row ∷ []) → IsReached scope rows }
{
    laws::act_lists_go_on_row_by_row();
    ways_join();
}

/// If rows are reached, any first rows of them are reached too.
pub fn fronts_of_reached_rows_are_reached()
    ensures { (scope : Scope) (rows more : List Event) → IsReached scope (rows ++ more)
        → IsReached scope rows }
{
    reached_rows_stay_reached_without_the_last();
}

/// Rows have one report: each of its ends is the least or the greatest of all runs.
pub fn rows_have_one_report()
    ensures { (scope : Scope) (rows : List Event) (a b : Report) → IsReport scope rows a
        → IsReport scope rows b → a ≡ b }
{
    laws::transcripts_have_one_act_list();
}

/// The bounds of each account in a report are the exact bounds of its sums in the runs of the rows.
pub fn reports_name_the_accounts_of_runs()
    ensures { (scope : Scope) (rows : List Event) (report : Report) → IsReport scope rows report
        → (account : AccountName)
        → IsAccount (Run scope rows) (sums_of account) (account_of account report) }
{}

/// A report has the following of each device: the decimal places that it has reported in the act
/// list of the rows, or that are known from elsewhere; its silences there; and the amounts without
/// a value there.
pub fn reports_name_the_decimals_and_silences_of_devices()
    ensures decimals { (scope : Scope) (rows : List Event) (report : Report)
        (pieces : List Piece) → IsReport scope rows report → IsActList scope pieces rows
        → (device : Device)
        → device_decimals device report ≡ decimals_of scope.begins device (acts_of pieces) }
    ensures silences { (scope : Scope) (rows : List Event) (report : Report)
        (pieces : List Piece) → IsReport scope rows report → IsActList scope pieces rows
        → (device : Device)
        → device_silences device report ≡ silences scope.begins device pieces }
    ensures unvalued { (scope : Scope) (rows : List Event) (report : Report)
        (pieces : List Piece) → IsReport scope rows report → IsActList scope pieces rows
        → (device : Device)
        → device_unvalued device report ≡ unvalued_of scope.begins device (acts_of pieces) }
{
    laws::transcripts_have_one_act_list();
}

/// A row has one offence: one number, one rule and one blame.
pub fn rows_have_one_offence()
    ensures { (scope : Scope) (rows : List Event) (row : Event) (a b : Offence)
        → IsOffence scope rows row a → IsOffence scope rows row b → a ≡ b }
{
    laws::transcripts_have_one_act_list();
    laws::rows_have_one_fault();
    laws::rows_that_break_a_rule_end_the_act_list();
    laws::act_lists_go_on_row_by_row();
}

/// A list of rows has one offence: no two places in it end at one, so it is that of one row.
pub fn lists_have_one_offence()
    ensures { (scope : Scope) (earlier rows : List Event) (a b : Offence)
        → HasOffence scope earlier rows a → HasOffence scope earlier rows b → a ≡ b }
{
    fronts_of_reached_rows_are_reached();
    rows_have_one_offence();
}

/// No matter how rows are cut into slices, a follower that is fed the slices reports the same as
/// one that is fed the whole. The answer is one: the report on all rows, or the offence of one row.
/// The clauses of `Follower::feed_all` and `Follower::report` say so for slices.
pub fn cuts_change_no_answer()
    ensures whole { (scope : Scope) (earlier : List Event) (slices : List (List Event))
        (answer : Result Report Offence)
        → AnswersInSlices scope earlier slices answer
        ↔ AnswersRows scope earlier (joined slices) answer }
    ensures alike { (scope : Scope) (earlier : List Event) (one other : List (List Event))
        (a b : Result Report Offence) → joined one ≡ joined other
        → AnswersInSlices scope earlier one a → AnswersInSlices scope earlier other b → a ≡ b }
{
    fronts_of_reached_rows_are_reached();
    rows_have_one_report();
    lists_have_one_offence();
}

/// The rows that a follower stands for are reached.
#[tactic(auto, using(crate::proofs::Following::reached_by))]
pub fn followers_stand_for_reached_rows()
    ensures { (follower : Follower) (rows : List Event) → StandsFor follower rows
        → IsReached (scope_of follower) rows }
{
    ways_join();
}

/// In every run of rows, each sale at either reader follows its approval. Before each VEND SUCCESS
/// the controller has requested a sale, the reader has approved one, and the controller has
/// acknowledged that. In a recording that begins while the machine was running, this holds for each
/// VEND SUCCESS before which the controller requests a sale there.
pub fn sales_follow_their_approvals()
    ensures { (scope : Scope) (rows : List Event) → SalesFollowApprovals scope rows }
{
    cashless_laws::views_tell_of_the_sale();
    cashless_laws::views_allow_approved_sales_alone();
    cashless_laws::a_sale_is_told_exactly_where_it_is_approved();
    cashless_laws::sales_of_the_extended_profile_are_approved();
}

/// The limits of silences are the non-response times of MDB/ICP 4.3. Response times are in seconds.
pub fn limits_of_silences_are_those_of_the_standard()
    ensures changer { CHANGER_SILENCE_MAX ≡ 2000000 }
    ensures bill { BILL_SILENCE_MAX ≡ 5000000 }
    ensures reader { READER_SILENCE_MAX ≡ 5000000 }
    ensures second { MICROS_PER_SECOND ≡ 1000000 }
{}

/// What is known of a device, and how many amounts of it have no value, depend on its own acts
/// alone.
#[tactic(auto, using(crate::proofs::OwnKnown::same_known, crate::proofs::OwnKnown::same_unvalued))]
pub fn what_is_known_of_a_device_is_of_its_own_acts()
    ensures known { (begins : Beginning) (device : Device) (acts other : List Act)
        → own_acts device acts ≡ own_acts device other
        → (reported_of device).known begins acts ≡ (reported_of device).known begins other }
    ensures unvalued { (begins : Beginning) (device : Device) (acts other : List Act)
        → own_acts device acts ≡ own_acts device other
        → unvalued_of begins device acts ≡ unvalued_of begins device other }
{
    cash_laws::the_changers_facts_are_of_its_own_acts();
    cash_laws::the_validators_facts_are_of_its_own_acts();
    cashless_laws::a_readers_facts_are_of_its_own_acts();
}

/// Breaks report nothing of a device. Where its own acts are breaks alone, it has no decimal places
/// but those that are known from elsewhere, and no amount of it lacks a value.
#[tactic(auto, using(crate::proofs::OwnKnown::no_decimals, crate::proofs::OwnKnown::no_unvalued))]
pub fn breaks_tell_nothing_of_a_device()
    ensures decimals { (begins : Beginning) (device : Device) (acts : List Act)
        → All IsBreak (own_acts device acts) → IsNotKnown begins device
        → decimals_of begins device acts ≡ None }
    ensures unvalued { (begins : Beginning) (device : Device) (acts : List Act)
        → All IsBreak (own_acts device acts) → unvalued_of begins device acts ≡ 0 }
{
    cash_laws::breaks_tell_nothing_of_the_changer();
    cash_laws::breaks_tell_nothing_of_the_validator();
    cashless_laws::breaks_tell_nothing_of_a_reader();
}

/// Each run gives a run without further devices. The sums of the other devices are the same, and
/// those of the devices left out are 0.
pub fn runs_go_on_without_further_devices()
    ensures { (less more : Scope) (rows : List Event) (sums : AllSums) → LeavesOutMore less more
        → Run less rows sums
        → (other : AllSums) × AreSumsWithout more sums other × Run more rows other }
{
    ways_join();
    laws::act_lists_stay_without_further_devices();
    laws::act_lists_without_further_devices_are_what_is_left();
    laws::acts_of_followed_devices_stay();
    machine_laws::own_acts_are_those_that_a_device_has_a_part_in();
}

/// If rows are reached, each run of them without further devices comes from a run with these
/// devices.
pub fn runs_without_further_devices_come_from_runs()
    ensures { (less more : Scope) (rows : List Event) (other : AllSums) → LeavesOutMore less more
        → IsReached less rows → Run more rows other
        → (sums : AllSums) × AreSumsWithout more sums other × Run less rows sums }
{
    ways_join();
    laws::act_lists_stay_without_further_devices();
    laws::act_lists_without_further_devices_are_what_is_left();
    laws::acts_of_followed_devices_stay();
    machine_laws::own_acts_are_those_that_a_device_has_a_part_in();
}

/// In every run, the sums of a device that is left out are nothing.
pub fn runs_add_nothing_of_devices_left_out()
    ensures { (scope : Scope) (rows : List Event) (sums : AllSums) → Run scope rows sums
        → (device : Device) → IsLeftOut scope device → sums device ≡ no_sums }
{
    laws::devices_left_out_have_a_part_in_breaks_alone();
    machine_laws::own_acts_are_those_that_a_device_has_a_part_in();
}

/// A report without further devices is the same for the devices that both reports follow.
pub fn reports_stay_without_further_devices()
    ensures { (less more : Scope) (rows : List Event) (one other : Report)
        → LeavesOutMore less more → IsReport less rows one → IsReport more rows other
        → HaveSameFollowed more one other }
{
    laws::act_lists_stay_without_further_devices();
    laws::acts_of_followed_devices_stay();
    laws::transcripts_have_one_act_list();
    what_is_known_of_a_device_is_of_its_own_acts();
    runs_go_on_without_further_devices();
    runs_without_further_devices_come_from_runs();
}

/// Rows that have a report have one without further devices. It is the same for the devices that
/// are still followed.
pub fn reports_go_on_without_further_devices()
    ensures { (less more : Scope) (rows : List Event) (one : Report) → LeavesOutMore less more
        → IsReport less rows one
        → (other : Report) × IsReport more rows other × HaveSameFollowed more one other }
{
    laws::act_lists_stay_without_further_devices();
    laws::acts_of_followed_devices_stay();
    laws::transcripts_have_one_act_list();
    what_is_known_of_a_device_is_of_its_own_acts();
    runs_go_on_without_further_devices();
    runs_without_further_devices_come_from_runs();
    runs_add_nothing_of_devices_left_out();
}

/// A report has nothing of the devices that are left out, except decimal places that are known from
/// elsewhere.
pub fn reports_have_nothing_of_devices_left_out()
    ensures { (scope : Scope) (rows : List Event) (report : Report) → IsReport scope rows report
        → HasNothingLeftOut scope report }
{
    laws::acts_name_devices_that_are_followed();
    laws::devices_left_out_have_a_part_in_breaks_alone();
    laws::transcripts_have_one_act_list();
    breaks_tell_nothing_of_a_device();
    runs_add_nothing_of_devices_left_out();
}

/// No offence is blamed on a device that is left out.
pub fn offences_are_blamed_on_devices_that_are_followed()
    ensures { (scope : Scope) (rows : List Event) (row : Event) (offence : Offence)
        (device : Device) → IsOffence scope rows row offence
        → offence.blame ≡ blame_on (Some device) → IsFollowed scope device }
{
    laws::acts_name_devices_that_are_followed();
    laws::faults_are_blamed_on_devices_that_are_followed();
}
