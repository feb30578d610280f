//! Words of the controller that begin a block, and those that go on with one.

ghost use Rattle.std.specs.Prelude.{◌≡◌, ◌&&◌, ◌↔◌, ◌+◌, ◌<◌, ◌≤◌, ◌^◌, ◌∷◌, [], ℕ, List, false, length, slice_index, IfOk, IsTrue};
ghost use Rattle.mdb_words.specs.declared.event.Event.{Event};
ghost use Rattle.mdb_words.specs.Block.{block_of};
ghost use Rattle.mdb_msgs.specs.declared.command.Command.{Command};
ghost use Rattle.mdb_msgs.specs.declared.need.Need.TheVariants.{Exactly};
ghost use Rattle.mdb_msgs.specs.Commands.{EnablesMore, Spells};
ghost use Rattle.mdb_msgs.specs.Needs.{begins_options, is_to_one_of, needed};
ghost use Rattle.mdb_msgs.specs.OpenBlocks.{IsOpen};
ghost use Rattle.mdb_bus.specs.declared.levels.Levels.{Levels};
ghost use Rattle.mdb_bus.specs.declared.scope.Profile.{Profile as Prof};
ghost use Rattle.mdb_bus.specs.declared.scope.Scope.{Scope};
ghost use Rattle.mdb_bus.specs.Scopes.{leaves_features, profile_of};
ghost use Rattle.mdb_bus.specs.declared.phase.Phase.{Phase};
ghost use Rattle.mdb_bus.specs.ActLists as lists;
ghost use Rattle.mdb_bus.specs.LinkFaults.{OutOfOrder};
ghost use Rattle.mdb_bus.specs.shared.Leads.{Belongs, IsGoingOn, HasEffectBy, IsOpened};

use crate::begun::Begun;
use crate::effect::Effect;
use crate::fault::Rule;
use crate::gaps::{in_block_time, is_sooner_than, word_row};
use crate::phase::Phase;
use crate::scope::{Profile, Scope};
use mdb_msgs::{Need, begins_options, command_of, laws, need_of};
use mdb_words::{Event, Line, Time, Word, sum_of};

/// A word of the controller where a block may begin, at least so long after the row before it.
#[inline(always)]
pub(crate) fn begin_block(
    scope: &Scope,
    last: &Option<Event>,
    at: Time,
    word: Word,
    least: u64,
) -> Result<Effect, Rule>
    requires { least < 2 ^ 32 }
    ensures opened { IsOpened scope.now least last.now (Event.Word at Line.Controller word) word
        result }
    ensures belongs { (here : Phase) (bytes : List ℕ) → (here ≡ Phase.InAsk → ⊥)
        → IfOk result (Belongs here bytes (Event.Word at Line.Controller word)) }
{
    let row = word_row(at, Line::Controller, word);
    if !word.marked() {
        return Err(Rule::Mode);
    }
    if is_sooner_than(last, &row, least) {
        return Err(Rule::Early);
    }
    laws::need_leaves_another_command_open();
    laws::front_of_a_command_is_open();
    laws::first_byte_tells_the_device();
    match scope.first_need(word.byte()) {
        Need::Outside => Err(Rule::Profile),
        Need::Foreign => Ok(Effect::Foreign),
        Need::More | Need::Exactly(_) => Ok(Effect::AskByte),
    }
}

/// A word of the controller inside its block, which is to a device that is followed.
#[inline(always)]
pub(crate) fn go_on_asking(
    times: Profile,
    scope: &Scope,
    bytes: &Begun,
    last: &Option<Event>,
    at: Time,
    word: Word,
) -> Result<Effect, Rule>
    requires in_order { OutOfOrder last.now (Event.Word at Line.Controller word) → ⊥ }
    requires begun { IsOpen bytes.now }
    ensures effect { (levels : Levels)
        → (leaves_features (profile_of scope.now.begins) && begins_options bytes.now) ≡ false
        → is_to_one_of scope.now.without (slice_index bytes.now 0) ≡ false
        → HasEffectBy times (record {
          scope = scope.now;
          position = lists.InAsk bytes.now;
          last = last.now;
          levels = levels;
        })
        (Event.Word at Line.Controller word) result }
    ensures belongs { IfOk result
        (Belongs Phase.InAsk bytes.now (Event.Word at Line.Controller word)) }
{
    let row = word_row(at, Line::Controller, word);
    if word.marked() {
        return Err(Rule::Mode);
    }
    in_block_time(times, last, &row)?;
    laws::front_of_a_command_is_open();
    laws::first_byte_tells_the_device();
    match bytes.as_slice() {
        [first] => second_byte(scope, bytes, *first, word),
        more => further_byte(bytes, more, word),
    }
}

/// The second byte of a block: its sum, a field, or a subcommand, which may make the block foreign.
#[inline(always)]
fn second_byte(scope: &Scope, bytes: &Begun, first: u8, word: Word) -> Result<Effect, Rule>
    requires is { bytes.now ≡ first ∷ [] }
    requires unmarked { word < 256 }
    requires begun { IsOpen bytes.now }
    ensures { IsGoingOn (profile_of scope.now.begins) bytes.now word result }
{
    laws::need_leaves_a_command_open();
    laws::first_two_bytes_tell_enable_options();
    if need_of(&[first]) == Need::Exactly(2) {
        return end_of_ask_effect(bytes, word);
    }
    match scope.begins.profile().need_of(&[first, word.byte()]) {
        Need::Outside => Err(Rule::Profile),
        Need::Foreign => Ok(Effect::Foreign),
        Need::More | Need::Exactly(_) => Ok(Effect::AskByte),
    }
}

/// A byte of a block after its first two.
fn further_byte(bytes: &Begun, so_far: &[u8], word: Word) -> Result<Effect, Rule>
    requires is { bytes.now ≡ so_far.now }
    requires two { 2 ≤ length so_far.now }
    requires unmarked { word < 256 }
    requires begun { IsOpen bytes.now }
    ensures { (profile : Prof) → (leaves_features profile && begins_options bytes.now) ≡ false
        → IsGoingOn profile bytes.now word result }
{
    laws::need_leaves_a_command_open();
    laws::first_two_bytes_tell_enable_options();
    match need_of(so_far) {
        Need::Exactly(length) if so_far.len() + 1 < length => Ok(Effect::AskByte),
        _ => end_of_ask_effect(bytes, word),
    }
}

/// The last word of a command's block.
#[inline(always)]
fn end_of_ask_effect(bytes: &Begun, word: Word) -> Result<Effect, Rule>
    requires unmarked { word < 256 }
    requires last { needed bytes.now ≡ Exactly (length bytes.now + 1) }
    ensures { (profile : Prof) → (leaves_features profile && begins_options bytes.now) ≡ false
        → IsGoingOn profile bytes.now word result }
{
    laws::what_it_needs_is_a_command();
    laws::first_two_bytes_tell_enable_options();
    if word.byte() != sum_of(bytes.as_slice()) {
        return Err(Rule::Sum);
    }
    if enables_more(bytes) {
        return Err(Rule::Profile);
    }
    Ok(Effect::Ask)
}

/// Whether a command's bytes are an ENABLE OPTIONS that asks for what isn't followed.
#[inline(always)]
fn enables_more(bytes: &Begun) -> bool
    requires { (command : Command) × Spells command (block_of bytes.now) }
    ensures { (command : Command) → Spells command (block_of bytes.now)
        → IsTrue result ↔ EnablesMore command }
{
    laws::first_two_bytes_tell_enable_options();
    begins_options(bytes.as_slice()) && asks_for_more(bytes)
}

/// The same, of a command that may be one.
// Not inlined, since no machine sends it often.
#[inline(never)]
fn asks_for_more(bytes: &Begun) -> bool
    requires { (command : Command) × Spells command (block_of bytes.now) }
    ensures { (command : Command) → Spells command (block_of bytes.now)
        → IsTrue result ↔ EnablesMore command }
{
    command_of(bytes.as_slice()).unwrap().enables_more()
}
