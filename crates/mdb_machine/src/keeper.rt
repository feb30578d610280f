//! A device that keeps messages, and what is known of it after the acts so far.

ghost use Rattle.std.specs.Prelude.{◌≡◌, ◌≤◌, ◌||◌, List, [], ◌∷◌, None, length, map, option_map};
ghost use Rattle.std.specs.Option.{is_some};
ghost use Rattle.mdb_machine.specs.Enabled.{known_enabled};
ghost use Rattle.mdb_machine.specs.Keeper.{Tables, asked_by, effect_of, parts_by};
ghost use Rattle.mdb_machine.specs.Past.{unless_empty};
ghost use Rattle.mdb_machine.specs.PastValues.{from_power_on, IsSummary};
ghost use Rattle.mdb_machine.specs.Kept.{kept_of};
ghost use Rattle.mdb_machine.specs.inner.Sizes.{TakesFewBytes};

use crate::kept::{KeptAmong, Summary, summary_of};
use crate::past::{Effect, Past, effect_answered};
use mdb_bus::{Act, Beginning, Profile};
use mdb_msgs::{Command, Reply, Setups};

/// A device that keeps messages, by its tables (this profile).
pub trait Keeper {
    /// Its commands.
    type Own: Copy;

    /// Its setup tables.
    type Setup: Drop;

    /// What counts of a command once the controller asks it.
    type Asked: Copy;

    /// What its kept messages say.
    type Kept: KeptAmong;

    /// Its tables.
    ghost tables: { Tables Self.Own Self.Setup Self.Asked Self.Kept };

    /// The command of the device that a command is, if it is one.
    fn own(command: &Command) -> Option<Self::Own>
        ensures { result ≡ tables.own command.now };

    /// Whether a command is POLL.
    fn is_poll(command: Self::Own) -> bool
        ensures { result ≡ tables.is_poll command };

    /// What a command is to the device that takes it.
    fn effect_of(command: Self::Own) -> Effect
        ensures { result ≡ tables.effect_of command };

    /// What counts of a command once it is asked, if something does.
    fn asked_of(command: Self::Own) -> Option<Self::Asked>
        ensures { result ≡ tables.asked_of command };

    /// The setup table of a reply.
    fn setup_of(reply: &Reply) -> Option<Self::Setup>
        ensures { result ≡ tables.setup_of reply.now };

    /// Its setup table that is known from elsewhere.
    fn setup_known(setups: &Setups) -> Option<Self::Setup>
        ensures { result ≡ tables.setup_known setups.now };

    /// The same setup table again.
    fn setup_copy(setup: &Self::Setup) -> Self::Setup
        ensures { result ≡ setup.now };

    /// The decimal places that it tells.
    fn decimals_of(setup: &Self::Setup) -> u8
        ensures { result ≡ tables.decimals_of setup.now };

    /// The messages of a reply.
    fn messages_in(reply: &Reply) -> &[<Self::Kept as KeptAmong>::Message]
        ensures parts { map Self.Kept.part_of result.now ≡ tables.parts_of reply.now }
        ensures few { length result.now ≤ 16 };

    /// What its kept messages say takes few bytes, and so do its setup tables, and what counts of a
    /// command once it is asked.
    ghost few_bytes: { TakesFewBytes Self.Kept.row };

    ghost small_setup: { TakesFewBytes Self.Setup.row };

    ghost small_asked: { TakesFewBytes Self.Asked.row };

    /// What counts of the messages of a reply.
    #[inline(always)]
    final fn summary_of(reply: &Reply) -> Summary<Self::Kept, 16>
        ensures { IsSummary result.kept.items result.reset result.early
            (tables.parts_of reply.now) }
    {
        summary_of(Self::messages_in(reply))
    }
}

/// What counts of the acts so far for a device that keeps messages (this profile): a running value,
/// which doesn't grow with them.
#[derive(Drop)]
pub struct KeeperFacts<K: Keeper> {
    /// The last setup table.
    pub setup: Option<K::Setup>,
    /// What was asked last of what counts.
    pub last_asked: Option<K::Asked>,
    /// The types that are enabled, the lowest bit type 0.
    pub enabled: u16,
    /// The reset message, and the last kept list.
    pub past: Past<K::Kept, 16>,
}

impl<K: Keeper> KeeperFacts<K> {
    ghost use Rattle.mdb_bus.specs.declared.act.Act.{Act};
    ghost use Rattle.mdb_bus.specs.declared.act.Act.TheVariants as acts;
    ghost use Rattle.mdb_machine.specs.Known.{known_before};
    ghost use Rattle.mdb_machine.specs.KeeperValues.{facts_in, facts_taken, facts_told, facts_with};
    ghost use Rattle.mdb_machine.specs.PastValues.{first_past, past_in};
    ghost use Rattle.mdb_machine.specs.shared.Guesses.{guessing};
    ghost use Rattle.mdb_machine.specs.Past.{or_else};

    /// The facts after no act, or what is known of them, where a recording begins so. Unknown facts
    /// are irrelevant.
    pub(crate) fn start(begins: &Beginning) -> Self
        ensures setup { result.setup ≡ known_before K.tables.setup_known begins.now }
        ensures asked { result.last_asked ≡ None }
        ensures enabled { (facts_in result).enabled
            ≡ known_enabled begins.now (effect_of K.tables) [] }
        ensures past { past_in result.past ≡ first_past begins.now }
    {
        match begins {
            Beginning::PowerOn(_) => KeeperFacts {
                setup: None,
                last_asked: None,
                enabled: 0,
                past: Past::start(),
            },
            Beginning::Joined(setups, _) => KeeperFacts {
                setup: K::setup_known(setups),
                last_asked: None,
                enabled: u16::MAX,
                past: Past::running(),
            },
        }
    }

    /// The same facts, with another guess of what was asked last.
    pub(crate) fn asking(&self, asked: Option<K::Asked>) -> Self
        ensures { facts_in result
            ≡ guessing (facts_in self.now) asked self.now.past.last_kept.items }
    {
        KeeperFacts {
            setup: self.setup.as_ref().map(|setup| K::setup_copy(setup)),
            last_asked: asked,
            enabled: self.enabled,
            past: self.past.copy(),
        }
    }

    /// The same facts, with another guess of the last kept list.
    pub(crate) fn keeping(&self, kept: &[K::Kept]) -> Self
        requires { length kept.now ≤ 16 }
        ensures { facts_in result ≡ guessing (facts_in self.now) self.now.last_asked kept.now }
    {
        KeeperFacts {
            setup: self.setup.as_ref().map(|setup| K::setup_copy(setup)),
            last_asked: self.last_asked,
            enabled: self.enabled,
            past: self.past.keeping(kept),
        }
    }

    /// The decimal places of the device's amounts: those of its last setup table, where it has told
    /// one.
    pub fn decimals(&self) -> Option<u8>
        ensures { result ≡ option_map K.tables.decimals_of (facts_in self.now).setup }
    {
        self.setup.as_ref().map(|setup| K::decimals_of(setup))
    }

    /// Whether a type is enabled.
    pub fn is_enabled(&self, kind: u8) -> bool
        ensures { result ≡ (facts_in self.now).enabled kind }
    {
        let mask = self.enabled;
        kind < 16 && (mask >> kind) & 1 == 1
    }

    /// Notes what an act tells, by a profile.
    // Inlined, so that an act of another device costs little more than the look at whose it is.
    #[inline(always)]
    fn note(&mut self, profile: Profile, act: &Act)
        ensures { facts_in self.new ≡ facts_with K.tables profile act.now (facts_in self.old) }
    {
        match act {
            Act::Ask(command) => self.ask(command),
            Act::Ack(command) => self.acknowledge(profile, command),
            Act::Reply(command, reply) => self.reply(profile, command, reply),
            Act::Break(_) => self.take(profile, Effect::Reset),
            _ => {}
        }
    }

    /// The controller asks.
    #[inline(always)]
    fn ask(&mut self, command: &Command)
        ensures { facts_in self.new ≡ record (facts_in self.old) {
          last_asked = or_else (asked_by K.tables (acts.Ask command.now)) self.old.last_asked;
        } }
    {
        if let Some(own) = K::own(command) {
            if let Some(asked) = K::asked_of(own) {
                self.last_asked = Some(asked);
            }
        }
    }

    /// A device acknowledges.
    #[inline(always)]
    fn acknowledge(&mut self, profile: Profile, command: &Command)
        ensures { facts_in self.new
            ≡ facts_with K.tables profile (acts.Ack command.now) (facts_in self.old) }
    {
        if let Some(own) = K::own(command) {
            self.take(profile, K::effect_of(own));
        }
    }

    /// A device replies.
    #[inline(always)]
    fn reply(&mut self, profile: Profile, command: &Command, reply: &Reply)
        ensures { facts_in self.new
            ≡ facts_with K.tables profile (acts.Reply command.now reply.now) (facts_in self.old) }
    {
        if let Some(own) = K::own(command) {
            self.note_reply(profile, own, reply);
        }
    }

    /// The device replies.
    #[inline(never)]
    fn note_reply(&mut self, profile: Profile, command: K::Own, reply: &Reply)
        ensures { facts_in self.new
            ≡ facts_told K.tables profile command reply.now (facts_in self.old) }
    {
        self.note_setup(reply);
        self.take(profile, effect_answered(K::effect_of(command), reply));
        self.past.keep(K::summary_of(reply));
    }

    /// The device takes a command, or a break puts it into its power-on state as RESET does.
    fn take(&mut self, profile: Profile, effect: Effect)
        ensures { facts_in self.new ≡ facts_taken profile effect (facts_in self.old) }
    {
        self.past.take(effect);
        match (effect, profile) {
            (Effect::Reset, Profile::Base) => self.enabled = 0,
            (Effect::Enable(mask), _) => self.enabled |= mask,
            _ => {}
        }
    }

    /// Notes the setup table of a reply.
    fn note_setup(&mut self, reply: &Reply)
        ensures { self.new
            ≡ record self.old { setup = or_else (K.tables.setup_of reply.now) self.old.setup } }
    {
        if let Some(setup) = K::setup_of(reply) {
            self.setup = Some(setup);
        }
    }
}

/// What is known after the acts so far of a device that keeps messages (this profile): a running
/// value, which doesn't grow with them. Unknown facts are irrelevant.
#[derive(Drop)]
pub struct KeeperKnown<K: Keeper> {
    /// The facts.
    pub(crate) facts: KeeperFacts<K>,
    /// The profile that is followed.
    pub profile: Profile,
    /// Whether it is known what was asked last of what counts.
    pub knows_asked: bool,
    /// Whether the last kept list is known.
    pub knows_kept: bool,
}

impl<K: Keeper> KeeperKnown<K> {
    ghost use Rattle.mdb_bus.specs.declared.act.Act.{Act};
    ghost use Rattle.mdb_bus.specs.declared.scope.Beginning.{Beginning};
    ghost use Rattle.mdb_machine.specs.Keeper.{known_of};
    ghost use Rattle.mdb_machine.specs.KeeperValues.{known_in, known_with, settled};

    /// What is known after no act, where a recording begins so.
    pub fn start(begins: &Beginning) -> Self
        ensures { known_in result ≡ known_of K.tables begins.now [] }
    {
        let knows = is_power_on(begins);
        KeeperKnown {
            facts: KeeperFacts::start(begins),
            profile: begins.profile(),
            knows_asked: knows,
            knows_kept: knows,
        }
    }

    /// The decimal places of the device's amounts: those of its last setup table, where one is
    /// known.
    pub fn decimals(&self) -> Option<u8>
        ensures { result ≡ option_map K.tables.decimals_of (known_in self.now).setup }
    {
        self.facts.decimals()
    }

    /// Takes one act more.
    #[inline(always)]
    pub fn learn(&mut self, act: &Act)
        ensures { (begins : Beginning) (acts : List Act)
            → known_in self.old ≡ known_of K.tables begins acts
            → known_in self.new ≡ known_of K.tables begins (act.now ∷ acts) }
    {
        self.note(act);
    }

    /// Notes what an act tells.
    #[inline(always)]
    fn note(&mut self, act: &Act)
        ensures { known_in self.new ≡ known_with K.tables act.now (known_in self.old) }
    {
        let (knows_asked, knows_kept) = self.knows_after(act);
        self.facts.note(self.profile, act);
        self.knows_asked = knows_asked;
        self.knows_kept = knows_kept;
    }

    /// Whether it is known after an act more what was asked last, and the last kept list.
    #[inline(always)]
    fn knows_after(&self, act: &Act) -> (bool, bool)
        ensures asked { result.0
            ≡ (self.now.knows_asked || is_some (asked_by K.tables act.now)) }
        ensures kept { result.1 ≡ (self.now.knows_kept
            || is_some (unless_empty (kept_of (parts_by K.tables act.now)))) }
    {
        if self.knows_asked && self.knows_kept {
            return (true, true);
        }
        let asked = self.knows_asked || asks::<K>(act);
        let kept = self.knows_kept || tells_kept::<K>(act);
        (asked, kept)
    }

    /// Whether a step by an act doesn't depend on what isn't known.
    pub fn settles(&self, act: &Act) -> bool
        ensures { result ≡ settled K.tables self.now.knows_asked self.now.knows_kept act.now }
    {
        match act {
            Act::Ask(_) => self.knows_asked || !asks::<K>(act),
            Act::Reply(command, _) => self.knows_kept || K::own(command).is_none(),
            _ => true,
        }
    }
}

/// Whether a recording begins at power-on.
fn is_power_on(begins: &Beginning) -> bool
    ensures { result ≡ from_power_on begins.now }
{
    match begins {
        Beginning::PowerOn(_) => true,
        Beginning::Joined(_, _) => false,
    }
}

/// Whether the controller asks for something by an act that counts.
fn asks<K: Keeper>(act: &Act) -> bool
    ensures { result ≡ is_some (asked_by K.tables act.now) }
{
    match act {
        Act::Ask(command) => match K::own(command) {
            Some(own) => K::asked_of(own).is_some(),
            None => false,
        },
        _ => false,
    }
}

/// Whether the device tells kept messages by an act.
fn tells_kept<K: Keeper>(act: &Act) -> bool
    ensures { result ≡ is_some (unless_empty (kept_of (parts_by K.tables act.now))) }
{
    match act {
        Act::Reply(command, reply) => match K::own(command) {
            Some(_) => !K::summary_of(reply).kept.is_empty(),
            None => false,
        },
        _ => false,
    }
}
