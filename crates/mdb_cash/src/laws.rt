//! Laws of the changer and the validator. Each function's contract is the law.

ghost use Rattle.std.specs.Prelude.{◌≡◌, ◌≢◌, ◌⊎◌, ◌↔◌, ℕ, Bool, true, false, List, [], ◌∷◌, All};
ghost use Rattle.mdb_msgs.specs.declared.command.BillCommand.{BillCommand};
ghost use Rattle.mdb_msgs.specs.declared.command.BillCommand.TheVariants as bill_commands;
ghost use Rattle.mdb_msgs.specs.declared.command.ChangerCommand.{ChangerCommand};
ghost use Rattle.mdb_msgs.specs.declared.command.ChangerCommand.TheVariants as changer_commands;
ghost use Rattle.mdb_msgs.specs.declared.command.Command.TheVariants as commands;
ghost use Rattle.mdb_msgs.specs.declared.command.Device.TheVariants as devices;
ghost use Rattle.mdb_msgs.specs.declared.reply.Reply.{Reply};
ghost use Rattle.mdb_msgs.specs.declared.setups.Setups.{Setups};
ghost use Rattle.mdb_bus.specs.declared.act.Act.{Act};
ghost use Rattle.mdb_bus.specs.declared.act.Act.TheVariants as acts;
ghost use Rattle.mdb_bus.specs.declared.scope.Beginning.{Beginning};
ghost use Rattle.mdb_bus.specs.declared.scope.Beginning.TheVariants.{PowerOn, Joined};
ghost use Rattle.mdb_bus.specs.declared.scope.Profile.{Profile};
ghost use Rattle.mdb_bus.specs.declared.scope.Profile.TheVariants.{Base, Extended};
ghost use Rattle.mdb_cash.specs.declared.bill.state.BillState.{BillState};
ghost use Rattle.mdb_cash.specs.declared.changer.state.ChangerState.{ChangerState};
ghost use Rattle.mdb_machine.specs.declared.choice.Choice.{Choice};
ghost use Rattle.mdb_machine.specs.declared.choice.Choice.TheVariants.{Plain};
ghost use Rattle.mdb_machine.specs.declared.gains.Gains.{Gains};
ghost use Rattle.mdb_cash.specs.Bill as bill_machine;
ghost use Rattle.mdb_cash.specs.BillAmounts as bill_amounts;
ghost use Rattle.mdb_cash.specs.BillValues as bill_values;
ghost use Rattle.mdb_cash.specs.BillFacts as bill;
ghost use Rattle.mdb_cash.specs.BillMessages as bill_messages;
ghost use Rattle.mdb_cash.specs.Changer as changer_machine;
ghost use Rattle.mdb_cash.specs.ChangerAmounts as changer_amounts;
ghost use Rattle.mdb_cash.specs.ChangerValues as changer_values;
ghost use Rattle.mdb_cash.specs.Changer.{dispensed_value};
ghost use Rattle.mdb_cash.specs.ChangerFacts as changer;
ghost use Rattle.mdb_cash.specs.ChangerMessages as changer_messages;
ghost use Rattle.mdb_machine.specs.Gains.{Stays, controller_gains, in_slots, no_gains};
ghost use Rattle.mdb_machine.specs.Keeper.{AllowsFacts};
ghost use Rattle.mdb_machine.specs.Kept.{kept_of};
ghost use Rattle.mdb_machine.specs.MidSession.{AsksNone, IsSettled, TellsHeldFirst, TellsNone};
ghost use Rattle.mdb_machine.specs.MidSession.{facts_recorded};
ghost use Rattle.mdb_machine.specs.Pair.{IsBreak, own_acts};

/// What is known of the changer after acts, and the amounts without a value that they tell of it,
/// depend on its own acts among them alone.
#[tactic(auto, using(crate::specs::shared::ChangerWays::same_facts, crate::specs::shared::ChangerWays::same_unvalued))]
pub fn the_changers_facts_are_of_its_own_acts()
    ensures known { (begins : Beginning) (acts other : List Act)
        → own_acts devices.Changer acts ≡ own_acts devices.Changer other
        → changer.known_of begins acts ≡ changer.known_of begins other }
    ensures unvalued { (begins : Beginning) (acts other : List Act)
        → own_acts devices.Changer acts ≡ own_acts devices.Changer other
        → changer_amounts.unvalued begins acts ≡ changer_amounts.unvalued begins other }
{}

/// What is known of the validator after acts, and the amounts without a value that they tell of it,
/// depend on its own acts among them alone.
#[tactic(auto, using(crate::specs::shared::BillWays::same_facts, crate::specs::shared::BillWays::same_unvalued))]
pub fn the_validators_facts_are_of_its_own_acts()
    ensures known { (begins : Beginning) (acts other : List Act)
        → own_acts devices.Bill acts ≡ own_acts devices.Bill other
        → bill.known_of begins acts ≡ bill.known_of begins other }
    ensures unvalued { (begins : Beginning) (acts other : List Act)
        → own_acts devices.Bill acts ≡ own_acts devices.Bill other
        → bill_amounts.unvalued begins acts ≡ bill_amounts.unvalued begins other }
{}

/// Where the changer has a part in no acts but breaks, its setup table is that of no act, and no
/// amount of it is reported.
#[tactic(auto, using(crate::specs::shared::ChangerWays::no_setup, crate::specs::shared::ChangerWays::none_told))]
pub fn breaks_tell_nothing_of_the_changer()
    ensures setup { (begins : Beginning) (acts : List Act)
        → All IsBreak (own_acts devices.Changer acts)
        → (changer.known_of begins acts).setup ≡ (changer.known_of begins []).setup }
    ensures unvalued { (begins : Beginning) (acts : List Act)
        → All IsBreak (own_acts devices.Changer acts) → changer_amounts.unvalued begins acts ≡ 0 }
{}

/// Where the validator has a part in no acts but breaks, its setup table is that of no act, and no
/// amount of it is reported.
#[tactic(auto, using(crate::specs::shared::BillWays::no_setup, crate::specs::shared::BillWays::none_told))]
pub fn breaks_tell_nothing_of_the_validator()
    ensures setup { (begins : Beginning) (acts : List Act)
        → All IsBreak (own_acts devices.Bill acts)
        → (bill.known_of begins acts).setup ≡ (bill.known_of begins []).setup }
    ensures unvalued { (begins : Beginning) (acts : List Act)
        → All IsBreak (own_acts devices.Bill acts) → bill_amounts.unvalued begins acts ≡ 0 }
{}

/// From power-on all is known of the changer: the facts are those that the acts leave, and each
/// step is one after them.
pub fn from_power_on_all_is_known_of_the_changer()
    ensures facts { (profile : Profile) (so_far : List Act) (holds : Bool) (facts : changer.Facts)
        → AllowsFacts (changer.known_of (PowerOn profile) so_far) holds facts
        ↔ (facts ≡ changer_values.facts_of profile so_far) }
    ensures steps { (profile : Profile) (so_far : List Act) (act : Act) (choice : Choice)
        (before after : ChangerState) (gains : Gains)
        → (changer_machine.machine (PowerOn profile)).Step so_far act choice before after gains
        ↔ changer_values.ChangerStep (changer_values.facts_of profile so_far) act choice before
        after gains }
{}

/// From power-on all is known of the validator: the facts are those that the acts leave, and each
/// step is one after them.
pub fn from_power_on_all_is_known_of_the_validator()
    ensures facts { (profile : Profile) (so_far : List Act) (holds : Bool) (facts : bill.Facts)
        → AllowsFacts (bill.known_of (PowerOn profile) so_far) holds facts
        ↔ (facts ≡ bill_values.facts_of profile so_far) }
    ensures steps { (profile : Profile) (so_far : List Act) (act : Act) (choice : Choice)
        (before after : BillState) (gains : Gains)
        → (bill_machine.machine (PowerOn profile)).Step so_far act choice before after gains
        ↔ bill_values.BillStep (bill_values.facts_of profile so_far) act choice before after gains }
{}

/// Each step of the changer and of the validator by the base profile is one by the extended
/// profile: the types that the one enables are enabled by the other.
pub fn by_the_extended_profile_each_step_by_the_base_profile_is_one()
    ensures changer { (so_far : List Act) (act : Act) (choice : Choice)
        (before after : ChangerState) (gains : Gains)
        → (changer_machine.machine (PowerOn Base)).Step so_far act choice before after gains
        → (changer_machine.machine (PowerOn Extended)).Step so_far act choice before after gains }
    ensures changer_joined { (setups : Setups) (so_far : List Act) (act : Act) (choice : Choice)
        (before after : ChangerState) (gains : Gains)
        → (changer_machine.machine (Joined setups Base)).Step so_far act choice before after gains
        → (changer_machine.machine (Joined setups Extended)).Step so_far act choice before after
        gains }
    ensures bill { (so_far : List Act) (act : Act) (choice : Choice) (before after : BillState)
        (gains : Gains)
        → (bill_machine.machine (PowerOn Base)).Step so_far act choice before after gains
        → (bill_machine.machine (PowerOn Extended)).Step so_far act choice before after gains }
    ensures bill_joined { (setups : Setups) (so_far : List Act) (act : Act) (choice : Choice)
        (before after : BillState) (gains : Gains)
        → (bill_machine.machine (Joined setups Base)).Step so_far act choice before after gains
        → (bill_machine.machine (Joined setups Extended)).Step so_far act choice before after
        gains }
{}

/// Where a recording begins in mid-session, the changer has these ways and no other. It replies
/// while it holds messages of before: some of the reply's kept messages, from the first on, are
/// these, and the rest are new (`held`); without a kept message it leaves all as it is (`silent`),
/// and that is no answer to POLL (`poll`). A DISPENSE may be the one that is owed from before, or
/// another (`owed`); where none is owed it is new (`free`). Any other act leads where it does after
/// the facts that the acts tell (`settled`).
pub fn in_mid_session_the_changer_has_these_ways_alone()
    ensures held { (setups : Setups) (profile : Profile) (so_far : List Act)
        (command : ChangerCommand) (reply : Reply) (before after : ChangerState) (gains : Gains)
        → TellsNone changer.tables so_far → before.holds ≡ true
        → kept_of (changer_messages.parts_of reply) ≢ []
        → (changer_machine.machine (Joined setups profile)).Step so_far
        (acts.Reply (commands.Changer command) reply) Plain before after gains
        ↔ ((count : ℕ) × TellsHeldFirst changer_machine.conduct
        (facts_recorded changer.tables setups profile so_far) (changer_messages.parts_of reply)
        count before after gains) }
    ensures poll { (setups : Setups) (profile : Profile) (so_far : List Act) (reply : Reply)
        (before after : ChangerState) (gains : Gains)
        → TellsNone changer.tables so_far → before.holds ≡ true
        → kept_of (changer_messages.parts_of reply) ≡ []
        → (changer_machine.machine (Joined setups profile)).Step so_far
        (acts.Reply (commands.Changer changer_commands.Poll) reply) Plain before after gains → ⊥ }
    ensures silent { (setups : Setups) (profile : Profile) (so_far : List Act)
        (command : ChangerCommand) (reply : Reply) (before after : ChangerState) (gains : Gains)
        → TellsNone changer.tables so_far → before.holds ≡ true
        → changer.is_poll command ≡ false → kept_of (changer_messages.parts_of reply) ≡ []
        → (changer_machine.machine (Joined setups profile)).Step so_far
        (acts.Reply (commands.Changer command) reply) Plain before after gains
        ↔ Stays before after gains }
    ensures owed { (setups : Setups) (profile : Profile) (so_far : List Act) (coins : ℕ)
        (choice : Choice) (before after : ChangerState) (gains : Gains)
        → AsksNone changer.tables so_far → before.dispense_owed ≡ true
        → (changer_machine.machine (Joined setups profile)).Step so_far
        (acts.Ask (commands.Changer (changer_commands.Dispense coins))) choice before after gains
        ↔ (after ≡ before) × ((gains ≡ no_gains) ⊎ (gains ≡ controller_gains (in_slots
        (0 ∷ dispensed_value (facts_recorded changer.tables setups profile so_far).setup coins
        ∷ [])))) }
    ensures free { (setups : Setups) (profile : Profile) (so_far : List Act) (coins : ℕ)
        (choice : Choice) (before after : ChangerState) (gains : Gains)
        → before.dispense_owed ≡ false
        → (changer_machine.machine (Joined setups profile)).Step so_far
        (acts.Ask (commands.Changer (changer_commands.Dispense coins))) choice before after gains
        ↔ (after ≡ record before { dispense_owed = true }) × (gains ≡ controller_gains (in_slots
        (0 ∷ dispensed_value (facts_recorded changer.tables setups profile so_far).setup coins
        ∷ []))) }
    ensures settled { (setups : Setups) (profile : Profile) (so_far : List Act) (act : Act)
        (choice : Choice) (before after : ChangerState) (gains : Gains)
        → IsSettled changer.tables changer_machine.conduct so_far act choice before
        → (changer_machine.machine (Joined setups profile)).Step so_far act choice before after
        gains
        ↔ changer_values.ChangerStep (facts_recorded changer.tables setups profile so_far) act
        choice before after gains }
{}

/// Where a recording begins in mid-session, the validator has these ways and no other. It replies
/// while it holds messages of before: some of the reply's kept messages, from the first on, are
/// these, and the rest are new (`held`); without a kept message it leaves all as it is (`silent`),
/// and that is no answer to POLL (`poll`). Any other act leads where it does after the facts that
/// the acts tell (`settled`).
pub fn in_mid_session_the_validator_has_these_ways_alone()
    ensures held { (setups : Setups) (profile : Profile) (so_far : List Act) (command : BillCommand)
        (reply : Reply) (before after : BillState) (gains : Gains)
        → TellsNone bill.tables so_far → before.holds ≡ true
        → kept_of (bill_messages.parts_of reply) ≢ []
        → (bill_machine.machine (Joined setups profile)).Step so_far
        (acts.Reply (commands.Bill command) reply) Plain before after gains
        ↔ ((count : ℕ) × TellsHeldFirst bill_machine.conduct
        (facts_recorded bill.tables setups profile so_far) (bill_messages.parts_of reply) count
        before after gains) }
    ensures poll { (setups : Setups) (profile : Profile) (so_far : List Act) (reply : Reply)
        (before after : BillState) (gains : Gains)
        → TellsNone bill.tables so_far → before.holds ≡ true
        → kept_of (bill_messages.parts_of reply) ≡ []
        → (bill_machine.machine (Joined setups profile)).Step so_far
        (acts.Reply (commands.Bill bill_commands.Poll) reply) Plain before after gains → ⊥ }
    ensures silent { (setups : Setups) (profile : Profile) (so_far : List Act)
        (command : BillCommand) (reply : Reply) (before after : BillState) (gains : Gains)
        → TellsNone bill.tables so_far → before.holds ≡ true
        → bill.is_poll command ≡ false → kept_of (bill_messages.parts_of reply) ≡ []
        → (bill_machine.machine (Joined setups profile)).Step so_far
        (acts.Reply (commands.Bill command) reply) Plain before after gains
        ↔ Stays before after gains }
    ensures settled { (setups : Setups) (profile : Profile) (so_far : List Act) (act : Act)
        (choice : Choice) (before after : BillState) (gains : Gains)
        → IsSettled bill.tables bill_machine.conduct so_far act choice before
        → (bill_machine.machine (Joined setups profile)).Step so_far act choice before after gains
        ↔ bill_values.BillStep (facts_recorded bill.tables setups profile so_far) act choice before
        after gains }
{}
