//! Laws of the readers' machine. Each function's contract is the law.

ghost use Rattle.std.specs.Prelude.{◌≡◌, ◌↔◌, ◌⊎◌, ℕ, Bool, true, List, [], ◌∷◌, All};
ghost use Rattle.mdb_msgs.specs.declared.command.Command.TheVariants as commands;
ghost use Rattle.mdb_msgs.specs.declared.command.Device.TheVariants as devices;
ghost use Rattle.mdb_msgs.specs.declared.command.ReaderCommand.{ReaderCommand};
ghost use Rattle.mdb_msgs.specs.declared.command.ReaderCommand.TheVariants as readers;
ghost use Rattle.mdb_msgs.specs.declared.command.ReaderUnit.{ReaderUnit};
ghost use Rattle.mdb_msgs.specs.declared.reply.Reply.{Reply};
ghost use Rattle.mdb_msgs.specs.declared.setups.Setups.{Setups};
ghost use Rattle.mdb_bus.specs.declared.act.Act.{Act};
ghost use Rattle.mdb_bus.specs.declared.act.Act.TheVariants as acts;
ghost use Rattle.mdb_bus.specs.declared.scope.Beginning.{Beginning};
ghost use Rattle.mdb_bus.specs.declared.scope.Beginning.TheVariants.{PowerOn, Joined};
ghost use Rattle.mdb_bus.specs.declared.scope.Profile.{Profile};
ghost use Rattle.mdb_bus.specs.declared.scope.Profile.TheVariants.{Base};
ghost use Rattle.mdb_bus.specs.Scopes.{profile_of};
ghost use Rattle.mdb_machine.specs.declared.choice.Choice.{Choice};
ghost use Rattle.mdb_machine.specs.declared.gains.Gains.{Gains};
ghost use Rattle.mdb_machine.specs.Pair.{IsBreak, own_acts};
ghost use Rattle.mdb_cashless.specs.declared.reader.state.ReaderState.{ReaderState};
ghost use Rattle.mdb_cashless.specs.declared.reader.transaction.Transaction.{Transaction};
ghost use Rattle.mdb_cashless.specs.declared.approvals.state.ApprovalState.{ApprovalState};
ghost use Rattle.mdb_cashless.specs.declared.by_profile.state.StateByProfile.{StateByProfile};
ghost use Rattle.mdb_cashless.specs.declared.by_profile.state.StateByProfile.TheVariants as states;
ghost use Rattle.mdb_cashless.specs.ByProfile as either;
ghost use Rattle.mdb_cashless.specs.ByProfile.{base_state, machine_in};
ghost use Rattle.mdb_cashless.specs.ByProfileFacts as by_profile;
ghost use Rattle.mdb_cashless.specs.ExtendedReader as extended;
ghost use Rattle.mdb_cashless.specs.ExtendedSales as sales;
ghost use Rattle.mdb_cashless.specs.MidSession.{AckWay, IsSettled, ReplyWay, SendsNone};
ghost use Rattle.mdb_cashless.specs.MidSession.{facts_recorded};
ghost use Rattle.mdb_cashless.specs.Reader.{AskStep, ReaderStep, machine, power_on};
ghost use Rattle.mdb_cashless.specs.ReaderAmounts.{unvalued};
ghost use Rattle.mdb_cashless.specs.ReaderFacts.{AllowsFacts, Facts, known_of};
ghost use Rattle.mdb_cashless.specs.ReaderValues.{facts_of};
ghost use Rattle.mdb_cashless.specs.Sales.{IsApproved, MayBeRequestedBefore, SalesAreApproved};
ghost use Rattle.mdb_cashless.specs.Transactions.{is_same, transaction_of};
ghost use Rattle.mdb_cashless.specs.shared.SaleViews.{AcksLastReply, MayTellOfSale};

/// Two transaction commands are the same where all their fields are.
pub fn transactions_with_the_same_fields_are_the_same()
    ensures { (one other : Transaction) → (is_same one other ≡ true) ↔ (one ≡ other) }
{}

/// What the controller's view tells of the sale under way stays true with each step, where the
/// controller acknowledges no reply but the last; and it is true at the start. In a recording that
/// begins in mid-session the view may tell nothing of a sale that was requested before.
#[tactic(auto, using(crate::proofs::Sales::starts_tell))]
pub fn views_tell_of_the_sale()
    ensures start { (unit : ReaderUnit) (begins : Beginning) (state : ReaderState)
        → (machine unit begins).Starts state → MayTellOfSale begins unit state.view [] }
    ensures steps { (unit : ReaderUnit) (begins : Beginning) (so_far : List Act) (act : Act)
        (choice : Choice) (before after : ReaderState) (gains : Gains)
        → AcksLastReply act so_far → MayTellOfSale begins unit before.view so_far
        → (machine unit begins).Step so_far act choice before after gains
        → MayTellOfSale begins unit after.view (act ∷ so_far) }
{
    transactions_with_the_same_fields_are_the_same();
}

/// The controller asks VEND SUCCESS only for a sale that the acts before it approve, or that may
/// have been requested before the recording.
pub fn views_allow_approved_sales_alone()
    ensures { (unit : ReaderUnit) (begins : Beginning) (so_far : List Act) (item : ℕ)
        (choice : Choice) (before after : ReaderState) (gains : Gains)
        → MayTellOfSale begins unit before.view so_far
        → (machine unit begins).Step so_far
        (acts.Ask (commands.Reader unit (readers.VendSuccess item))) choice before after
        gains → IsApproved unit item so_far ⊎ MayBeRequestedBefore begins unit so_far }
{
    transactions_with_the_same_fields_are_the_same();
}

/// From power-on all is known of a reader: the facts are those that the acts leave, and each step
/// is one after them.
pub fn from_power_on_all_is_known_of_a_reader()
    ensures facts { (unit : ReaderUnit) (profile : Profile) (so_far : List Act) (holds : Bool)
        (facts : Facts)
        → AllowsFacts (known_of (PowerOn profile) unit so_far) holds facts
        ↔ (facts ≡ facts_of unit so_far) }
    ensures steps { (unit : ReaderUnit) (profile : Profile) (so_far : List Act) (act : Act)
        (choice : Choice) (before after : ReaderState) (gains : Gains)
        → (machine unit (PowerOn profile)).Step so_far act choice before after gains
        ↔ ReaderStep unit (facts_of unit so_far) act choice before after gains }
{}

/// The base profile needs nothing of the extended one (`Extended*.antt`): a reader's machine, what
/// is known of it and its amounts without a value are as the base profile alone has them.
pub fn the_base_profile_stands_alone()
    ensures starts { (unit : ReaderUnit) (begins : Beginning) (state : StateByProfile)
        → profile_of begins ≡ Base
        → (either.machine unit begins).Starts state
        ↔ (machine_in base_state (states.Base power_on) (machine unit begins)).Starts state }
    ensures steps { (unit : ReaderUnit) (begins : Beginning) (so_far : List Act) (act : Act)
        (choice : Choice) (before after : StateByProfile) (gains : Gains)
        → profile_of begins ≡ Base
        → (either.machine unit begins).Step so_far act choice before after gains
        ↔ (machine_in base_state (states.Base power_on) (machine unit begins)).Step so_far act
        choice before after gains }
    ensures facts { (begins : Beginning) (unit : ReaderUnit) (so_far : List Act)
        → profile_of begins ≡ Base
        → by_profile.facts_of begins unit so_far
        ≡ by_profile.by_base (known_of begins unit so_far) }
    ensures unvalued { (unit : ReaderUnit) (begins : Beginning) (so_far : List Act)
        → profile_of begins ≡ Base
        → by_profile.unvalued unit begins so_far ≡ unvalued unit begins so_far }
{}

/// By either profile, what is known of a reader after acts, and the amounts without a value that
/// they tell of it, depend on its own acts among them alone.
#[tactic(auto, using(crate::proofs::ByProfileKnown::same_facts))]
pub fn a_readers_facts_are_of_its_own_acts()
    ensures known { (begins : Beginning) (unit : ReaderUnit) (so_far other : List Act)
        → own_acts (devices.Reader unit) so_far ≡ own_acts (devices.Reader unit) other
        → by_profile.facts_of begins unit so_far ≡ by_profile.facts_of begins unit other }
    ensures unvalued { (begins : Beginning) (unit : ReaderUnit) (so_far other : List Act)
        → own_acts (devices.Reader unit) so_far ≡ own_acts (devices.Reader unit) other
        → by_profile.unvalued unit begins so_far ≡ by_profile.unvalued unit begins other }
{}

/// By either profile, where a reader has a part in no acts but breaks, its config message is that
/// of no act, and no amount of it is reported.
#[tactic(auto, using(crate::proofs::ByProfileKnown::no_config))]
pub fn breaks_tell_nothing_of_a_reader()
    ensures config { (begins : Beginning) (unit : ReaderUnit) (so_far : List Act)
        → All IsBreak (own_acts (devices.Reader unit) so_far)
        → by_profile.config_of (by_profile.facts_of begins unit so_far)
        ≡ by_profile.config_of (by_profile.facts_of begins unit []) }
    ensures unvalued { (begins : Beginning) (unit : ReaderUnit) (so_far : List Act)
        → All IsBreak (own_acts (devices.Reader unit) so_far)
        → by_profile.unvalued unit begins so_far ≡ 0 }
{}

/// Where a recording begins in mid-session, a reader has these ways and no other. As long as the
/// acts so far send no transaction command, an ask leads where it does if the last one sent was the
/// command itself (`sent`): that may be sent again, and no other last one allows more. A
/// transaction that the reader takes while it holds messages is the last one again or another, and
/// of a reply's kept messages some, from the first on, are those that it holds (`acked`,
/// `replied`). Any other act leads where it does after the facts that the acts tell (`settled`).
pub fn in_mid_session_a_reader_has_these_ways_alone()
    ensures sent { (unit : ReaderUnit) (setups : Setups) (profile : Profile) (so_far : List Act)
        (command : ReaderCommand) (choice : Choice) (before after : ReaderState) (gains : Gains)
        → SendsNone unit so_far
        → (machine unit (Joined setups profile)).Step so_far
        (acts.Ask (commands.Reader unit command)) choice before after gains
        ↔ AskStep (record (facts_recorded unit setups so_far) { asked = transaction_of command })
        command before after gains }
    ensures acked { (unit : ReaderUnit) (setups : Setups) (profile : Profile) (so_far : List Act)
        (command : ReaderCommand) (choice : Choice) (before after : ReaderState) (gains : Gains)
        → (machine unit (Joined setups profile)).Step so_far
        (acts.Ack (commands.Reader unit command)) choice before after gains
        ↔ AckWay unit so_far (facts_recorded unit setups so_far) command choice before after
        gains }
    ensures replied { (unit : ReaderUnit) (setups : Setups) (profile : Profile) (so_far : List Act)
        (command : ReaderCommand) (reply : Reply) (choice : Choice) (before after : ReaderState)
        (gains : Gains)
        → (machine unit (Joined setups profile)).Step so_far
        (acts.Reply (commands.Reader unit command) reply) choice before after gains
        ↔ ReplyWay unit so_far (facts_recorded unit setups so_far) command reply choice before
        after gains }
    ensures settled { (unit : ReaderUnit) (setups : Setups) (profile : Profile) (so_far : List Act)
        (act : Act) (choice : Choice) (before after : ReaderState) (gains : Gains)
        → IsSettled unit so_far act
        → (machine unit (Joined setups profile)).Step so_far act choice before after gains
        ↔ ReaderStep unit (facts_recorded unit setups so_far) act choice before after gains }
{
    transactions_with_the_same_fields_are_the_same();
}

/// By the extended profile the controller may ask VEND SUCCESS exactly where its sale is approved,
/// or
/// may have been requested before the recording, if each VEND SUCCESS before it was.
pub fn a_sale_is_told_exactly_where_it_is_approved()
    ensures only { (unit : ReaderUnit) (begins : Beginning) (so_far : List Act) (item : ℕ)
        (choice : Choice) (before after : ApprovalState) (gains : Gains)
        → sales.AcksAreOfReplies so_far → sales.SalesAreApproved begins unit so_far
        → (extended.machine unit begins).Step so_far
        (acts.Ask (commands.Reader unit (readers.VendSuccess item))) choice before after gains
        → sales.IsApproved unit item so_far ⊎ MayBeRequestedBefore begins unit so_far }
    ensures each { (unit : ReaderUnit) (begins : Beginning) (so_far : List Act) (item : ℕ)
        (choice : Choice) (before : ApprovalState)
        → sales.IsApproved unit item so_far ⊎ MayBeRequestedBefore begins unit so_far
        → (after : ApprovalState) × (gains : Gains) × (extended.machine unit begins).Step so_far
        (acts.Ask (commands.Reader unit (readers.VendSuccess item))) choice before after gains }
{}

/// A sale that is approved by the extended profile is approved by the base profile's law, too.
/// There the same VEND REQUEST may come again.
pub fn sales_of_the_extended_profile_are_approved()
    ensures one { (unit : ReaderUnit) (item : ℕ) (so_far : List Act)
        → sales.IsApproved unit item so_far → IsApproved unit item so_far }
    ensures all { (begins : Beginning) (unit : ReaderUnit) (so_far : List Act)
        → sales.SalesAreApproved begins unit so_far → SalesAreApproved begins unit so_far }
{}
