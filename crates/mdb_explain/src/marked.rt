//! The replay of a transcript with given marks.

ghost use Rattle.std.specs.Prelude.{◌≡◌, ◌≢◌, List, ℕ, IfErr, IsSome, None};
ghost use Rattle.mdb_records.specs.ToCome.{IsOverLimit, ToCome, fault_of};
ghost use Rattle.mdb_bus.specs.Scopes.{power_on};
ghost use Rattle.mdb_bus.specs.Scopes as scopes;
ghost use Rattle.mdb_explain.specs.Replay.{HasMarkedCause, IsReplayAnswer};
ghost use Rattle.mdb_text.specs.Text.{report_text};
ghost use Rattle.mdb_verdict.specs.Answers.{Answers, AnswersText, Leaves};
ghost use Rattle.mdb_verdict.specs.Forms.{answer_text};
ghost use Rattle.mdb_verdict.specs.Verdict.{IsNoYes};
ghost use Rattle.mdb_verdict.specs.declared.verdict.TheConstants.{BYTES_MAX};
ghost use Rattle.mdb_follow.specs.declared.follower.TheConstants.{ROWS_MAX};

use super::fault::MarkedFault;
use super::replaying::{ENTRIES_MAX, Replaying};
use mdb_bus::{Profile, Scope};
use mdb_msgs::DeviceSet;
use mdb_records::Records;
use mdb_text::{Form, Outcome};
use mdb_verdict::{BYTES_MAX, Batch, RunFault, answer_in, read_rows, records_of};
use mdb_writing::write_text;
use std::alloc::Global;
use std::io::{Read, Write};

/// Reads marks and then a recording, and follows the run that has these marks. It writes what that
/// run leads to, or why there is none: the text of `check`, in which each range has one value. The
/// recording begins at power-on or at a break, and all devices are followed, by the base profile:
/// this is [`replay_scoped`] of [`Profile::Base`] and [`DeviceSet::NONE`].
///
/// A mark row has three fields: the number of a row of the recording in 1 to 15 digits, `L` or `R`,
/// and `-`. `L` is a mark on an ACK of a device or of the controller: its receiver didn't hear it.
/// `R` is a mark on the last row of a reply that reports a restart. Without a mark an ACK was
/// heard, and there was no restart. The numbers rise, and all mark rows come first. A record with
/// another number of fields, or with another second field, is a row of the recording, as for
/// `check`.
///
/// # Errors
///
/// The first of these, each but `Mark` a [`RunFault`]:
///
/// - `BadRow`: the first record that is neither, with its number among all records. A mark row
///   after a row has the fault `BadLine`.
/// - `TooLong`: more than [`ROWS_MAX`](super::ROWS_MAX) mark rows, or more than as many rows.
/// - `Mark`: a mark whose number is 0 or doesn't rise, a mark on a row where it can't stand, or a
///   mark past the last row.
/// - `Read` and `Memory`: as for `check`.
/// - `Write`: the writer failed. It took a front of the text that there is, and nothing else. With
///   any other error nothing was written.
pub fn replay<R: Read + Drop, W: Write>(
    alloc: Global,
    reader: R,
    writer: &mut W,
) -> Result<Outcome, MarkedFault>
    ensures answers { AnswersText W.contents (IsReplayAnswer power_on ROWS_MAX)
        (report_text power_on) (MarkedFault.Run RunFault.Write) BYTES_MAX
        (R.remaining reader) writer.old writer.new result }
{
    replay_scoped(alloc, Profile::Base, DeviceSet::NONE, reader, writer)
}

/// Does as [`replay`] does by a profile, with these devices left out, as `check_scoped` leaves them
/// out.
///
/// # Errors
///
/// Those of `replay`.
pub fn replay_scoped<R: Read + Drop, W: Write>(
    alloc: Global,
    profile: Profile,
    without: DeviceSet,
    reader: R,
    writer: &mut W,
) -> Result<Outcome, MarkedFault>
    ensures answers { AnswersText W.contents
        (IsReplayAnswer (scopes.from_power_on profile without) ROWS_MAX)
        (report_text (scopes.from_power_on profile without)) (MarkedFault.Run RunFault.Write)
        BYTES_MAX (R.remaining reader) writer.old writer.new result }
{
    let mut records = records_of(alloc, reader, BYTES_MAX);
    replay_records(alloc, Form::Text, profile, without, &mut records, writer)
}

/// Replays the records that are still to come, and writes what that tells in this form. What the
/// records tell of where the reading ended is still to be asked then.
///
/// # Errors
///
/// Those of [`replay`], where the records have their own limit of bytes.
pub fn replay_records<R: Read + Drop, W: Write>(
    alloc: Global,
    form: Form,
    profile: Profile,
    without: DeviceSet,
    records: &mut Records<R>,
    writer: &mut W,
) -> Result<Outcome, MarkedFault>
    ensures answers { (all : List (List (List ℕ))) → ToCome R.remaining records.old all
        → Answers (IsReplayAnswer (scopes.from_power_on profile without) ROWS_MAX all)
        (answer_text form (scopes.from_power_on profile without)) (MarkedFault.Run RunFault.Write)
        (W.contents writer.old) (W.contents writer.new) result }
    ensures leaves { Leaves W.contents (answer_text form (scopes.from_power_on profile without))
        (MarkedFault.Run RunFault.Write) writer.old writer.new result }
    ensures whole { IsOverLimit R.remaining records.old → IsNoYes result }
    ensures heard { IfErr result (HasMarkedCause (fault_of records.new)) }
    ensures met { fault_of records.old ≡ None → IsSome (fault_of records.new) → IsNoYes result }
{
    let outcome = replay_outcome(alloc, profile, without, records)?;
    let Some(text) = answer_in(
        alloc,
        form,
        &Scope::from_power_on(profile, without),
        &outcome,
    ) else {
        return Err(MarkedFault::Run(RunFault::Memory));
    };
    write_text(writer, text.as_slice())?;
    Ok(outcome)
}

/// What the replay of the records that are still to come tells. Nothing is written: this is what
/// [`replay_records`] writes. What the records tell of where the reading ended is still
/// to be asked then.
///
/// # Errors
///
/// Those of [`replay_records`], but for `Write`; `Memory` only where the marks can't be kept or the
/// reading was refused it.
pub fn replay_outcome<R: Read + Drop>(
    alloc: Global,
    profile: Profile,
    without: DeviceSet,
    records: &mut Records<R>,
) -> Result<Outcome, MarkedFault>
    ensures answer { (all : List (List (List ℕ))) → ToCome R.remaining records.old all
        → IsReplayAnswer (scopes.from_power_on profile without) ROWS_MAX all result }
    ensures whole { IsOverLimit R.remaining records.old → IsNoYes result }
    ensures heard { IfErr result (HasMarkedCause (fault_of records.new)) }
    ensures met { fault_of records.old ≡ None → IsSome (fault_of records.new) → IsNoYes result }
    ensures not_write { IfErr result (λ fault. fault ≢ MarkedFault.Run RunFault.Write) }
{
    let mut taker = Replaying::new(alloc, profile, without);
    match read_rows(records, &mut Batch::new(), &mut taker, &mut (), ENTRIES_MAX)? {
        None => taker.finish(),
        // A row that can't be, or else a mark that isn't followed or refused memory.
        Some(stop) => Ok(Outcome::No(stop?)),
    }
}
