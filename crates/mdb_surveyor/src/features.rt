//! Whose features the rows of a stretch tell.

ghost use Rattle.std.specs.Prelude.{◌≡◌};
ghost use Rattle.mdb_msgs.specs.declared.command.ReaderUnit.TheVariants.{First, Second};
ghost use Rattle.mdb_cashless.specs.Units.{own};
ghost use Rattle.mdb_surveyor.specs.Features.{features_after, features_before, told_taking};

use mdb_bus::{Act, Beginning, KnownFeatures};
use mdb_machine::past::tells_out_of_sequence;
use mdb_msgs::{Command, ReaderCommand, ReaderUnit};

/// None.
const NONE: KnownFeatures = KnownFeatures {
    first: false,
    second: false,
};

/// Those before the first row of a stretch that begins so.
pub(crate) fn before(begins: &Beginning) -> KnownFeatures
    ensures { result ≡ features_before begins.now }
{
    match begins {
        Beginning::PowerOn(_) => NONE,
        Beginning::Joined(setups, _) => KnownFeatures {
            first: setups.first_reader.features,
            second: setups.second_reader.features,
        },
    }
}

/// Those after an act.
// Nearly all acts tell nothing, which is seen without a call.
#[inline(always)]
pub(crate) fn after(features: KnownFeatures, act: &Act) -> KnownFeatures
    ensures { result ≡ features_after act.now features }
{
    match act {
        Act::Break(_) => NONE,
        Act::Ack(command) => taking(features, *command),
        Act::Reply(command, reply) if !tells_out_of_sequence(reply) => taking(features, *command),
        _ => features,
    }
}

/// Those after a command that was accepted.
#[inline(always)]
fn taking(features: KnownFeatures, command: Command) -> KnownFeatures
    ensures first { result.first ≡ told_taking (own First command) features.first }
    ensures second { result.second ≡ told_taking (own Second command) features.second }
{
    let Command::Reader(unit, command) = command else {
        return features;
    };
    let told = match command {
        ReaderCommand::Reset => false,
        ReaderCommand::EnableOptions(_) => true,
        _ => return features,
    };
    match unit {
        ReaderUnit::First => KnownFeatures {
            first: told,
            second: features.second,
        },
        ReaderUnit::Second => KnownFeatures {
            first: features.first,
            second: told,
        },
    }
}
