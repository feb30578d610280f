//! The bus: which rows may follow which, and the acts that they form.

ghost use Rattle.std.specs.Prelude.{◌≡◌, ◌≢◌, ◌⊎◌, [], ◌∷◌, ◌++◌, ℕ, List, Bool, Some, None, false, true, IfOk, IfErr, IfSome, OnErr, OnOk, OnSome, Err};
ghost use Rattle.std.specs.Option.{IfNone};
ghost use Rattle.mdb_msgs.specs.declared.reply.Reply.{Reply};
ghost use Rattle.mdb_bus.specs.declared.fault.Rule.{Rule};
ghost use Rattle.mdb_bus.specs.Scopes.{power_on, profile_of};
ghost use Rattle.mdb_bus.specs.JoinedScopes.{all_joined};
ghost use Rattle.mdb_bus.specs.ExtendedMoney.{counted_as, wide_at};
ghost use Rattle.mdb_bus.specs.shared.Step.{EachStep};

use super::act::Act;
use super::begun::Begun;
use super::effect::Effect;
use super::effects::effect_of;
use super::fault::{Blame, LinkFault, Rule};
use super::features::{KnownFeatures, amounts_to, asked_with_amounts, reader_asked};
use super::haste::{awaited_after, counted_in, haste_after};
use super::laws;
use super::levels::Levels;
use super::phase::Phase;
use super::place::Place;
use super::scope::{Beginning, Profile, Scope};
use super::spelled::Spelled;
use super::untimely::is_untimely;
use mdb_msgs::{ChangerCommand, Command, Device, DeviceSet, ReaderCommand, Setups};
use mdb_words::{Event, Line};

/// The bus after the rows that it was fed.
///
/// It keeps its present state and no rows, so its size doesn't grow with their number.
#[derive(Drop)]
pub struct Bus {
    scope: Scope,
    place: Place,
    last: Option<Event>,
    levels: Levels,
    features: KnownFeatures,
    asked: Option<Device>,
    /// Whether an answer is awaited while foreign traffic is open. Elsewhere the phase says it.
    awaited: bool,
    haste: bool,
}

impl Bus {
    ghost use Rattle.mdb_msgs.specs.Commands.{device_of};
    ghost use Rattle.mdb_bus.specs.ActLists.{Piece, events_of, levels_after};
    ghost use Rattle.mdb_bus.specs.Pieces.{HasActList};
    ghost use Rattle.mdb_bus.specs.Bus.{GoesOn, StandsFor, awaited_at, ended_act, open_block_of, position_at, scope_of};
    ghost use Rattle.mdb_bus.specs.ExtendedHaste.{counted_in as counted_in_lem, haste_after as haste_after_lem, haste_by, haste_of};
    ghost use Rattle.mdb_bus.specs.LinkFaults.{IsLinkFault, blame_of, fault_at};
    ghost use Rattle.mdb_bus.specs.shared.RulePlaces.{IsFirstByPlace};
    ghost use Rattle.mdb_bus.specs.ExtendedTimes.{sender_by, untimely_sender};
    ghost use Rattle.mdb_bus.specs.inner.Gone.{HasGone, situation_at};
    ghost use Rattle.mdb_bus.specs.shared.Step as step;
    ghost use Rattle.mdb_bus.specs.shared.Leads.{Belongs, Covers, IsAt, IsReadAt, IsTimely, Leads};

    /// The bus before the first row of a recording that begins at power-on or at a break. All
    /// devices are followed.
    pub fn new() -> Bus
        ensures stands { StandsFor result [] }
        ensures scope { scope_of result ≡ power_on }
    {
        Bus::scoped(&Scope::POWER_ON)
    }

    /// The bus before the first row of a recording that begins while the machine was running. All
    /// devices are followed.
    pub fn joined() -> Bus
        ensures stands { StandsFor result [] }
        ensures scope { scope_of result ≡ all_joined }
    {
        Bus::scoped(&Scope::joined(Setups::NONE, DeviceSet::NONE))
    }

    /// The bus before the first row of a recording with this scope.
    pub fn scoped(scope: &Scope) -> Bus
        ensures stands { StandsFor result [] }
        ensures scope { scope_of result ≡ scope.now }
    {
        let phase = match scope.begins {
            Beginning::PowerOn(_) => Phase::Quiet,
            Beginning::Joined(_, _) => Phase::InForeign,
        };
        Bus {
            scope: scope.copy(),
            place: Place {
                phase,
                bytes: Begun::with(0),
                command: Command::Changer(ChangerCommand::Poll),
                last_reply: Spelled::placeholder(),
            },
            last: None,
            levels: scope.levels_before(),
            features: KnownFeatures::before(&scope.begins),
            asked: None,
            awaited: false,
            haste: false,
        }
    }

    /// The bytes so far of the block of the controller in which the rows end; none where they end
    /// in no such block.
    pub fn open_block(&self) -> &[u8]
        ensures { result.now ≡ open_block_of self.now }
    {
        match self.place.phase {
            Phase::InAsk => self.place.bytes.as_slice(),
            _ => &[],
        }
    }

    /// Accepts the next row, and returns the act that ends with it, if one does.
    ///
    /// # Errors
    ///
    /// The fault of a row that can't follow the rows before it: the first rule of the link that it
    /// breaks, and who is to blame. The bus is then unchanged.
    pub fn feed(&mut self, event: Event) -> Result<Option<Act>, LinkFault>
        ensures goes_on { (pieces : List Piece) → StandsFor self.old pieces
            → IfOk result (λ act. GoesOn self.new pieces event act) }
        ensures faults { (pieces : List Piece) → StandsFor self.old pieces
            → IfErr result (λ fault.
            IsLinkFault (scope_of self.old) pieces event fault.rule fault.blame) }
        ensures impossible { (pieces : List Piece) → StandsFor self.old pieces
            → OnErr result (HasActList (scope_of self.old) (events_of pieces ++ event ∷ []) → ⊥) }
        ensures unchanged { OnErr result (self.new ≡ self.old) }
        ensures scope { scope_of self.new ≡ scope_of self.old }
    {
        let mut act = Act::Foreign;
        match self.feed_into(event, &mut act) {
            Ok(true) => Ok(Some(act)),
            Ok(false) => Ok(None),
            Err(fault) => Err(fault),
        }
    }

    /// Takes the next row, and answers whether it ends an act, which it then puts into `act`. Where
    /// it ends none, `act` stays as it was.
    ///
    /// This is `feed` for many rows: an act is large, and most rows end none.
    ///
    /// # Errors
    ///
    /// As `feed`.
    // Inlined, since it is on the path of every row.
    #[inline(always)]
    pub fn feed_into(&mut self, event: Event, act: &mut Act) -> Result<bool, LinkFault>
        ensures goes_on { (pieces : List Piece) → StandsFor self.old pieces
            → IfOk result (λ ended. GoesOn self.new pieces event (ended_act ended act.new)) }
        ensures faults { (pieces : List Piece) → StandsFor self.old pieces
            → IfErr result (λ fault.
            IsLinkFault (scope_of self.old) pieces event fault.rule fault.blame) }
        ensures impossible { (pieces : List Piece) → StandsFor self.old pieces
            → OnErr result (HasActList (scope_of self.old) (events_of pieces ++ event ∷ []) → ⊥) }
        ensures unchanged { OnErr result (self.new ≡ self.old) }
        ensures scope { scope_of self.new ≡ scope_of self.old }
        ensures none { IfOk result (λ ended. ended ≡ false → act.new ≡ act.old) }
        ensures untouched { OnErr result (act.new ≡ act.old) }
    {
        match self.feed_timely(&event, act) {
            Some(ended) => Ok(ended),
            None => self.feed_slowly(&event, act),
        }
    }

    /// Takes the next row as `feed_into` does, if it can be and is in the base profile's times,
    /// while the controller isn't in haste and no foreign answer is awaited. It answers `None` for
    /// any other row, and the bus is then unchanged.
    ///
    /// By each profile nearly all rows are such rows.
    // Inlined, since it is on the path of every row.
    #[inline(always)]
    pub fn feed_timely(&mut self, event: &Event, act: &mut Act) -> Option<bool>
        ensures goes_on { (pieces : List Piece) → StandsFor self.old pieces
            → IfSome result (λ ended.
            GoesOn self.new pieces event.now (ended_act ended act.new)) }
        ensures timely { (pieces : List Piece) → StandsFor self.old pieces
            → OnSome result (untimely_sender (scope_of self.old) pieces event.now ≡ None) }
        ensures unchanged { IfNone result (self.new ≡ self.old) }
        ensures scope { scope_of self.new ≡ scope_of self.old }
        ensures none { IfSome result (λ ended. ended ≡ false → act.new ≡ act.old) }
        ensures untouched { IfNone result (act.new ≡ act.old) }
    {
        // (one test, which is on the path of every row)
        if self.haste | self.awaited {
            return None;
        }
        match self.step(Profile::Base, event, act) {
            Ok(ended) => Some(ended),
            Err(_) => None,
        }
    }

    /// Takes any row as `feed_into` does, for those that `feed_timely` leaves.
    ///
    /// # Errors
    ///
    /// As `feed`.
    // Not inlined, since few rows need it.
    #[inline(never)]
    pub fn feed_slowly(&mut self, event: &Event, act: &mut Act) -> Result<bool, LinkFault>
        ensures goes_on { (pieces : List Piece) → StandsFor self.old pieces
            → IfOk result (λ ended. GoesOn self.new pieces event.now (ended_act ended act.new)) }
        ensures faults { (pieces : List Piece) → StandsFor self.old pieces
            → IfErr result (λ fault.
            IsLinkFault (scope_of self.old) pieces event.now fault.rule fault.blame) }
        ensures impossible { (pieces : List Piece) → StandsFor self.old pieces → OnErr result
            (HasActList (scope_of self.old) (events_of pieces ++ event.now ∷ []) → ⊥) }
        ensures unchanged { OnErr result (self.new ≡ self.old) }
        ensures scope { scope_of self.new ≡ scope_of self.old }
        ensures none { IfOk result (λ ended. ended ≡ false → act.new ≡ act.old) }
        ensures untouched { OnErr result (act.new ≡ act.old) }
    {
        laws::rows_that_break_a_rule_end_the_act_list();
        let times = self.scope.begins.profile();
        let haste = self.haste_after(event);
        match self.step(times, event, act) {
            Ok(ended) => {
                self.haste = haste;
                self.awaited = self.awaits_foreign();
                Ok(ended)
            }
            Err(rule) => Err(self.fault(rule, event)),
        }
    }

    /// Goes a step by a row, if it can be by the times of a profile, and answers whether it ends an
    /// act, which it then puts into `act`. Haste stays as it was.
    #[inline(always)]
    fn step(&mut self, times: Profile, event: &Event, act: &mut Act) -> Result<bool, Rule>
        ensures goes_on { (pieces : List Piece) (kept haste : Bool) → StandsFor self.old pieces
            → Covers times (profile_of self.old.scope.begins)
            → awaited_at (position_at self.new.place) kept
            ≡ awaited_at (position_at self.new.place) self.new.awaited
            → ((next : step.Step) → Leads (situation_at self.old) event.now next
            → haste ≡ haste_by (profile_of self.old.scope.begins) (haste_after_lem
            (awaited_at (position_at self.old.place) self.old.awaited)
            self.old.last event.now self.old.haste))
            → IfOk result (λ ended. GoesOn (record self.new { awaited = kept; haste = haste })
            pieces event.now (ended_act ended act.new)) }
        ensures timely { (pieces : List Piece) → StandsFor self.old pieces → OnOk result
            (IsTimely times (position_at self.old.place) self.old.last event.now) }
        ensures breaks { (pieces : List Piece) → StandsFor self.old pieces
            → times ≡ profile_of self.old.scope.begins
            → IfErr result (IsFirstByPlace (situation_at self.old) event.now) }
        ensures unchanged { OnErr result (self.new ≡ self.old) }
        ensures scope { self.new.scope ≡ self.old.scope }
        ensures haste { self.new.haste ≡ self.old.haste }
        ensures none { IfOk result (λ ended. ended ≡ false → act.new ≡ act.old) }
        ensures untouched { OnErr result (act.new ≡ act.old) }
    {
        match effect_of(times, &self.scope, &self.place, &self.last, event) {
            Ok(effect) => match effect {
                Effect::Reply => self.take_reply(event, act),
                Effect::Foreign => Ok(self.take_foreign(event, act)),
                _ => Ok(self.go(effect, event, act)),
            },
            Err(rule) => Err(rule),
        }
    }

    /// Takes the reply that a row has ended, if it can be read and what it says is
    /// followed, and answers that it ends an act, which it then puts into `act`.
    // Not inlined, so that only rows that end a reply pay for it.
    #[inline(never)]
    fn take_reply(&mut self, event: &Event, act: &mut Act) -> Result<bool, Rule>
        requires { self.old.place.phase ≡ Phase.InReply }
        ensures taken { IfOk result (λ ended. (reply : Reply)
            × IsReadAt self.old.scope.begins (position_at self.old.place)
            self.old.levels (Ok reply)
            × HasGone self.old (step.Reply reply) event.now self.new (ended_act ended act.new)) }
        ensures rule { IfErr result (λ first.
            IsReadAt self.old.scope.begins (position_at self.old.place)
            self.old.levels (Err first)) }
        ensures unchanged { OnErr result (self.new ≡ self.old) }
        ensures ends { IfOk result (λ ended. ended ≡ true) }
        ensures scope { self.new.scope ≡ self.old.scope }
        ensures haste { self.new.haste ≡ self.old.haste }
        ensures untouched { OnErr result (act.new ≡ act.old) }
    {
        self.place.end_reply(&self.scope.begins, self.levels, act)?;
        self.levels.note(self.scope.begins.profile(), act);
        self.features.note(act);
        self.last = Some(*event);
        Ok(true)
    }

    /// Takes a row that opens foreign traffic or goes on with it, and answers that it ends an act,
    /// which it then puts into `act`.
    // Not inlined, so that only foreign rows pay for it.
    #[inline(never)]
    fn take_foreign(&mut self, event: &Event, act: &mut Act) -> bool
        ensures gone { HasGone self.old step.Foreign event.now self.new (ended_act result act.new) }
        ensures none { result ≡ false → act.new ≡ act.old }
        ensures scope { self.new.scope ≡ self.old.scope }
        ensures haste { self.new.haste ≡ self.old.haste }
    {
        self.awaited = awaited_after(event, self.is_awaited());
        self.asked = None;
        self.last = Some(*event);
        self.place.advance(Effect::Foreign, event, act)
    }

    /// Goes a step by any other row, and answers whether it ends an act, which it then puts into
    /// `act`.
    #[inline(always)]
    fn go(&mut self, effect: Effect, event: &Event, act: &mut Act) -> bool
        requires belongs { Belongs self.old.place.phase self.old.place.bytes event.now effect }
        requires reply { effect ≢ Effect.Reply }
        requires foreign { effect ≢ Effect.Foreign }
        ensures gone { EachStep effect event.now (λ next. IsAt (position_at self.old.place) next
            → HasGone self.old next event.now self.new (ended_act result act.new)) }
        ensures none { result ≡ false → act.new ≡ act.old }
        ensures scope { self.new.scope ≡ self.old.scope }
        ensures haste { self.new.haste ≡ self.old.haste }
    {
        let ended = self.place.advance(effect, event, act);
        // After the step, since it was measured to be quicker: so no store stands between effect
        // a row and choosing its step.
        self.last = Some(*event);
        match effect {
            Effect::Ask => self.note_ask(act),
            Effect::Ack => self.features.note(act),
            Effect::Break => {
                self.features.note(act);
                self.asked = None;
            }
            _ => {}
        }
        ended
    }

    /// Whether an answer, or a repeat, is awaited.
    fn is_awaited(&self) -> bool
        ensures { result ≡ awaited_at (position_at self.now.place) self.now.awaited }
    {
        match self.place.phase {
            Phase::InAsk | Phase::Asked | Phase::Returned => true,
            Phase::InForeign => self.awaited,
            Phase::Quiet | Phase::InReply | Phase::Replied | Phase::InRepeat(_) => false,
        }
    }

    /// Whether foreign traffic is open in which an answer is awaited.
    fn awaits_foreign(&self) -> bool
        ensures { awaited_at (position_at self.now.place) result
            ≡ awaited_at (position_at self.now.place) self.now.awaited }
    {
        match self.place.phase {
            Phase::InForeign => self.awaited,
            _ => false,
        }
    }

    /// Whether the controller is in haste after a row: never by the base profile.
    fn haste_after(&self, event: &Event) -> bool
        ensures { result ≡ haste_by (profile_of self.now.scope.begins) (haste_after_lem
            (awaited_at (position_at self.now.place) self.now.awaited)
            self.now.last event.now self.now.haste) }
    {
        match self.scope.begins.profile() {
            Profile::Base => false,
            Profile::Extended => haste_after(self.is_awaited(), &self.last, event, self.haste),
        }
    }

    /// Keeps the levels and the device of an act, if it is an ask.
    #[inline(always)]
    fn note_ask(&mut self, act: &Act)
        ensures scope { self.new.scope ≡ self.old.scope }
        ensures features { self.new.features ≡ self.old.features }
        ensures haste { self.new.haste ≡ self.old.haste }
        ensures levels { (command : Command) → act.now ≡ Act.Ask command
            → self.new.levels ≡ levels_after command self.old.levels }
        ensures asked { (command : Command) → act.now ≡ Act.Ask command
            → self.new.asked ≡ Some (device_of command) }
        ensures last { self.new.last ≡ self.old.last }
        ensures place { self.new.place ≡ self.old.place }
    {
        if let Act::Ask(command) = act {
            if let Command::Reader(_, ReaderCommand::SetupConfig { .. }) = command {
                self.levels = self.levels.after(*command);
            }
            self.asked = Some(command.device());
        }
    }

    /// The fault of a row that breaks this rule first.
    fn fault(&self, rule: Rule, event: &Event) -> LinkFault
        ensures { result ≡ fault_at (position_at self.now.place) self.now.asked
            (wide_at self.now.features self.now.levels) self.now.haste event.now rule }
    {
        let rule = self.counted(rule);
        let blame = self.blame_for(event, rule);
        counted_in(self.haste, event, LinkFault { rule, blame })
    }

    /// Who is to blame for a row, where this rule counts.
    fn blame_for(&self, event: &Event, rule: Rule) -> Blame
        ensures { result ≡ blame_of (position_at self.now.place) self.now.asked event.now rule }
    {
        match *event {
            Event::Word { line, .. } => self.blame(line, rule),
            Event::Break { .. } => Blame::Controller,
        }
    }

    /// The fault that counts for a fault of the last row that was accepted: where the controller is
    /// in haste, its own.
    pub fn counted_in_haste(&self, event: &Event, fault: LinkFault) -> LinkFault
        ensures counted { (pieces : List Piece) → StandsFor self.now pieces
            → result ≡ counted_in_lem (haste_of (scope_of self.now) pieces) event.now fault }
        ensures either { (result ≡ fault) ⊎ (result.rule ≡ Rule.Early) }
    {
        counted_in(self.haste, event, fault)
    }

    /// Who sends a row out of its time, if it is the next and out of the base profile's times.
    #[inline(always)]
    pub fn untimely_sender(&self, event: &Event) -> Option<Blame>
        ensures { (pieces : List Piece) → StandsFor self.now pieces
            → result ≡ untimely_sender (scope_of self.now) pieces event.now }
    {
        if is_untimely(&self.place, &self.last, event) {
            Some(self.sender(event))
        } else {
            None
        }
    }

    /// Who sends a row.
    fn sender(&self, event: &Event) -> Blame
        ensures { result ≡ sender_by self.now.asked event.now }
    {
        match *event {
            Event::Word { line, .. } if line == Line::Peripheral => Blame::on(self.asked),
            _ => Blame::Controller,
        }
    }

    /// The rule that counts for a row that breaks this rule first: `Profile` where what it breaks
    /// may be money of 32 bits.
    fn counted(&self, rule: Rule) -> Rule
        ensures { result ≡ counted_as rule (position_at self.now.place)
            (wide_at self.now.features self.now.levels) }
    {
        let reader = match (rule, self.place.phase) {
            (Rule::Sum, Phase::InAsk) => asked_with_amounts(self.place.bytes.as_slice()),
            (Rule::Mode, Phase::Asked) => amounts_to(self.place.command),
            (Rule::Message, Phase::InReply) => reader_asked(self.place.command),
            _ => return rule,
        };
        if self.features.leave_wide(reader, self.levels) {
            Rule::Profile
        } else {
            rule
        }
    }

    /// Who is to blame for a word on a line.
    fn blame(&self, line: Line, rule: Rule) -> Blame
        ensures { (at word : ℕ)
            → result ≡ blame_of (position_at self.now.place) self.now.asked
            (Event.Word at line word) rule }
    {
        match (line, self.place.phase, rule) {
            (Line::Peripheral, _, _) => Blame::on(self.asked),
            (_, Phase::InReply | Phase::InRepeat(_), Rule::Spacing) => Blame::on(self.asked),
            _ => Blame::Controller,
        }
    }
}
