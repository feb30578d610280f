//! Laws of act lists, of loss and of the rules of the link. Each function's contract is the law,
//! and its body calls the laws that it rests on.

ghost use Rattle.std.specs.Prelude.{◌≡◌, List, [], ◌∷◌, ◌++◌, None, Some};
ghost use Rattle.mdb_words.specs.declared.event.Event.{Event};
ghost use Rattle.mdb_msgs.specs.declared.command.Command.{Command};
ghost use Rattle.mdb_msgs.specs.declared.command.Device.{Device};
ghost use Rattle.mdb_msgs.specs.Readings.{base};
ghost use Rattle.mdb_bus.specs.declared.act.Act.{Act};
ghost use Rattle.mdb_bus.specs.declared.fault.Blame.{Blame};
ghost use Rattle.mdb_bus.specs.declared.fault.LinkFault.{LinkFault};
ghost use Rattle.mdb_bus.specs.declared.fault.Rule.{Rule};
ghost use Rattle.mdb_bus.specs.declared.format.Format.TheVariants.{As};
ghost use Rattle.mdb_bus.specs.declared.levels.Levels.{Levels};
ghost use Rattle.mdb_bus.specs.declared.scope.Beginning.{Beginning};
ghost use Rattle.mdb_bus.specs.declared.scope.Profile.TheVariants.{Base};
ghost use Rattle.mdb_bus.specs.declared.scope.Scope.{Scope};
ghost use Rattle.mdb_bus.specs.Pieces.{NamesAReply, GoesOnFrom, HasActList};
ghost use Rattle.mdb_bus.specs.ActLists.{ArePieces, IsActList, Piece, Whole, acts_of, events_of, position_of};
ghost use Rattle.mdb_bus.specs.OpenReplies.{OpenAgrees, OpenLeavesOut};
ghost use Rattle.mdb_bus.specs.ExtendedMoney.{all_known, counted_as, first_known, wide_of};
ghost use Rattle.mdb_bus.specs.Wish.{Wish, HearsFreeAsWished, HearsAsWished, nothing_told};
ghost use Rattle.mdb_bus.specs.shared.Grammar.{Grammar};
ghost use Rattle.mdb_bus.specs.LeavingOut.{LeavesOutMore, acts_with, breaks_among, device_in, leave_out, position_without, IsLeftOut};
ghost use Rattle.mdb_bus.specs.ExtendedHaste.{counted_in, haste_of};
ghost use Rattle.mdb_bus.specs.ExtendedTimes.{times_of};
ghost use Rattle.mdb_bus.specs.Formats.{format_for};
ghost use Rattle.mdb_bus.specs.LinkFaults.{IsLinkFault, RowBreaks, asked_device, blame_of, blame_on, fault_of, situation_of};
ghost use Rattle.mdb_bus.specs.Loss.{Loss, LossFits};
ghost use Rattle.mdb_bus.specs.Scopes.{IsFollowed, profile_of};
ghost use Rattle.mdb_bus.specs.Positions.{Position};

use mdb_msgs::laws as messages;

/// What the grammars of commands and replies promise.
fn grammar()
    ensures { (scope : Scope) → Grammar scope }
{
    messages::block_has_one_command();
    messages::command_has_what_it_needs();
    messages::first_bytes_tell_the_length();
    messages::first_byte_tells_the_device();
    messages::first_two_bytes_tell_enable_options();
    messages::need_leaves_a_command_open();
    messages::need_leaves_another_command_open();
    messages::block_has_one_reply();
    messages::reply_has_no_fault();
    messages::reply_has_its_length();
}

/// If controller and reader haven't reported enough of their levels, a reply of a joined recording
/// is read as at any levels by the extended profile, or is left out.
pub fn open_replies_are_read_as_at_any_levels()
    ensures agrees { OpenAgrees }
    ensures left_out { OpenLeavesOut }
{
    messages::block_has_one_reply();
    messages::reply_has_no_fault();
}

/// The rows of a recording divide into acts in at most one way.
pub fn transcripts_have_one_act_list()
    ensures { (scope : Scope) (rows : List Event) (one other : List Piece)
        → IsActList scope one rows → IsActList scope other rows → one ≡ other }
{
    grammar();
}

/// The first rows of a possible recording are possible too, up to any row.
pub fn fronts_of_act_lists_have_act_lists()
    ensures { (scope : Scope) (rows more : List Event) → HasActList scope (rows ++ more)
        → HasActList scope rows }
{
    grammar();
}

/// With one row more, the act list goes on from the act list of the rows before it. It has one act
/// more if the row ends one.
pub fn act_lists_go_on_row_by_row()
    ensures { (scope : Scope) (rows : List Event) (row : Event) (pieces : List Piece)
        → IsActList scope pieces (rows ++ row ∷ []) → GoesOnFrom scope rows pieces }
{
    grammar();
}

/// An act that repeats a reply, or answers it, names a reply that its command can have.
pub fn acts_name_replies_of_their_commands()
    ensures { (scope : Scope) (act : Act) (events : List Event) (pieces : List Piece)
        → ArePieces scope (Whole act events ∷ pieces) → NamesAReply act }
{}

/// Each act list has a loss that fits, no matter which of its free acts were heard: nothing shows
/// whether a free act was heard.
pub fn free_acts_may_be_heard_or_not()
    ensures { (scope : Scope) (pieces : List Piece) → ArePieces scope pieces → (wish : Wish)
        → (loss : Loss) × LossFits loss pieces × HearsFreeAsWished loss wish nothing_told pieces }
{}

/// Each act list has a loss that fits, no matter which of its ACKs were heard.
pub fn acks_may_be_heard_or_not()
    ensures { (scope : Scope) (pieces : List Piece) → ArePieces scope pieces → (wish : Wish)
        → (loss : Loss) × LossFits loss pieces × HearsAsWished loss wish pieces }
{
    free_acts_may_be_heard_or_not();
}

/// Each act list has a loss that fits.
pub fn act_lists_have_a_fitting_loss()
    ensures { (scope : Scope) (pieces : List Piece) → ArePieces scope pieces
        → (loss : Loss) × LossFits loss pieces }
{
    free_acts_may_be_heard_or_not();
}

/// After pieces, no act list goes on with a row that breaks any rule of the link.
pub fn rows_that_break_a_rule_end_the_act_list()
    ensures { (scope : Scope) (pieces : List Piece) (row : Event) (broken : Rule)
        → ArePieces scope pieces → RowBreaks (situation_of scope pieces) row broken
        → HasActList scope (events_of pieces ++ row ∷ []) → ⊥ }
{
    grammar();
}

/// After pieces, a row has at most one fault.
pub fn rows_have_one_fault()
    ensures { (scope : Scope) (pieces : List Piece) (row : Event) (r s : Rule) (a b : Blame)
        → IsLinkFault scope pieces row r a
        → IsLinkFault scope pieces row s b → (r ≡ s) × (a ≡ b) }
{}

/// Where the features of all readers are known, as from power-on and by the base profile, a row's
/// fault is the first rule that it breaks.
#[tactic(auto, using(crate::proofs::PlainMoney::counts_plainly))]
pub fn first_broken_rules_count_where_options_are_known()
    ensures { (scope : Scope) (pieces : List Piece) (broken : Rule) (position : Position)
        → first_known scope.begins ≡ all_known
        → counted_as broken position (wide_of scope pieces) ≡ broken }
{}

/// The base profile needs nothing of the extended one (`Extended*.antt`): a reply is read in one
/// way, and a row's fault is the first rule that it breaks, blamed on who broke it.
#[tactic(auto, using(crate::proofs::BaseAlone::one_format, crate::proofs::BaseAlone::first_counts, crate::proofs::BaseAlone::no_haste, crate::proofs::BaseAlone::no_times))]
pub fn the_base_profile_stands_alone()
    ensures formats { (begins : Beginning) (levels : Levels) (command : Command)
        → profile_of begins ≡ Base → format_for begins levels command ≡ As base }
    ensures faults { (scope : Scope) (pieces : List Piece) (row : Event) (first : Rule)
        → profile_of scope.begins ≡ Base → fault_of scope pieces row first ≡ record {
          rule = first;
          blame = blame_of (position_of scope pieces) (asked_device pieces) row first;
        } }
    ensures haste { (scope : Scope) (pieces : List Piece) (row : Event) (fault : LinkFault)
        → profile_of scope.begins ≡ Base → counted_in (haste_of scope pieces) row fault ≡ fault }
    ensures times { (scope : Scope) (pieces : List Piece) → profile_of scope.begins ≡ Base
        → times_of scope pieces ≡ None }
{}

/// No act of an act list names a device that is left out.
pub fn acts_name_devices_that_are_followed()
    ensures { (scope : Scope) (act : Act) (events : List Event) (pieces : List Piece)
        (device : Device) → ArePieces scope (Whole act events ∷ pieces)
        → device_in act ≡ Some device → IsFollowed scope device }
{}

/// No fault of the link is blamed on a device that is left out.
pub fn faults_are_blamed_on_devices_that_are_followed()
    ensures { (scope : Scope) (pieces : List Piece) (row : Event) (broken : Rule) (blamed : Blame)
        (device : Device) → ArePieces scope pieces → IsLinkFault scope pieces row broken blamed
        → blamed ≡ blame_on (Some device) → IsFollowed scope device }
{}

/// Pieces in order stay in order if further devices are left out. Each row of a device that is now
/// left out becomes a foreign act. Everything else stays the same, with the same rows. The bus is
/// in the same state, except for foreign traffic after pieces of such a device.
pub fn pieces_stay_in_order_without_further_devices()
    ensures order { (less more : Scope) (pieces : List Piece) → LeavesOutMore less more
        → ArePieces less pieces → ArePieces more (leave_out more pieces) }
    ensures rows { (scope : Scope) (pieces : List Piece)
        → events_of (leave_out scope pieces) ≡ events_of pieces }
    ensures position { (less more : Scope) (pieces : List Piece) → ArePieces less pieces
        → position_of more (leave_out more pieces) ≡ position_without more pieces }
{
    messages::first_byte_tells_the_device();
}

/// So an act list stays one of the same rows if further devices are left out.
pub fn act_lists_stay_without_further_devices()
    ensures { (less more : Scope) (rows : List Event) (pieces : List Piece)
        → LeavesOutMore less more → IsActList less pieces rows
        → IsActList more (leave_out more pieces) rows }
{
    pieces_stay_in_order_without_further_devices();
}

/// If rows have an act list with devices, the act list without them keeps everything else
/// unchanged.
pub fn act_lists_without_further_devices_are_what_is_left()
    ensures { (less more : Scope) (rows : List Event) (pieces other : List Piece)
        → LeavesOutMore less more → IsActList less pieces rows → IsActList more other rows
        → other ≡ leave_out more pieces }
{
    act_lists_stay_without_further_devices();
    transcripts_have_one_act_list();
}

/// A device that is followed keeps its part in the same acts if further devices are left out. A
/// device that is left out has a part in breaks only.
#[tactic(auto, using(crate::proofs::LeftOutActs::own_acts_stay, crate::proofs::LeftOutActs::breaks_left))]
pub fn acts_of_followed_devices_stay()
    ensures followed { (scope : Scope) (pieces : List Piece) (device : Device)
        → IsFollowed scope device
        → acts_with device (acts_of (leave_out scope pieces)) ≡ acts_with device (acts_of pieces) }
    ensures left_out { (scope : Scope) (pieces : List Piece) (device : Device)
        → IsLeftOut scope device
        → acts_with device (acts_of (leave_out scope pieces)) ≡ breaks_among (acts_of pieces) }
{}

/// In an act list, a device that is left out has a part in breaks only.
#[tactic(auto, using(crate::proofs::LeftOutActs::breaks_alone))]
pub fn devices_left_out_have_a_part_in_breaks_alone()
    ensures { (scope : Scope) (pieces : List Piece) (device : Device) → ArePieces scope pieces
        → IsLeftOut scope device
        → acts_with device (acts_of pieces) ≡ breaks_among (acts_of pieces) }
{}
