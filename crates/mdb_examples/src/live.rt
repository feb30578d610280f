//! A bus that is checked while it runs, word by word.

ghost use Rattle.std.specs.Prelude.{◌≡◌, ◌<◌, ◌≤◌, ◌^◌, ◌∷◌, ◌++◌, [], List, Err, IfErr, IfOk, IsOk};
ghost use Rattle.std.specs.Prelude.{OnErr, Some};
ghost use Rattle.mdb_words.specs.declared.event.Event.{Event};
ghost use Rattle.mdb_follow.specs.AccountNames.{sums_of};
ghost use Rattle.mdb_follow.specs.Ends.{side_value};
ghost use Rattle.mdb_follow.specs.Follower.{HasAccepted, StandsFor, offence_of, rows_of, scope_of};
ghost use Rattle.mdb_follow.specs.Offences.{IsOffence};
ghost use Rattle.mdb_follow.specs.Ranges.{IsRange};
ghost use Rattle.mdb_follow.specs.Runs.{Run};
ghost use Rattle.mdb_follow.specs.declared.offence.Offence.{Offence};

use mdb_follow::{AccountName, AccountSide, Follower, Offence, ROWS_MAX, Range, laws};
use mdb_words::{Event, Line, Time, Word};

/// Why a word isn't taken.
#[derive(Clone, Copy, PartialEq, Eq, Debug)]
pub enum Untaken {
    /// Its start isn't below 10^18 microseconds, or it has more than nine bits.
    OutOfRange,
    /// The recording has as many rows as one may have.
    Full,
    /// It can't follow the words before it.
    Impossible(Offence),
}

/// Takes the next word of a bus: when its start bit began, in microseconds, on which line, and its
/// nine bits.
///
/// # Errors
///
/// Why the word isn't taken. After `Impossible` no further word is; after the others all is as it
/// was.
pub fn take_word(follower: &mut Follower, micros: u64, line: Line, bits: u16) -> Result<(), Untaken>
    ensures taken { (before : List Event) → StandsFor follower.old before
        → IfOk result (λ _. StandsFor follower.new (before ++ Event.Word micros line bits ∷ [])) }
    ensures impossible { (before : List Event) (offence : Offence) → StandsFor follower.old before
        → result ≡ Err (Untaken.Impossible offence)
        → IsOffence (scope_of follower.old) before (Event.Word micros line bits) offence }
    ensures accepted { (before : List Event) (offence : Offence) → StandsFor follower.old before
        → result ≡ Err (Untaken.Impossible offence) → HasAccepted follower.new before }
    ensures noted { (offence : Offence) → result ≡ Err (Untaken.Impossible offence)
        → offence_of follower.new ≡ Some offence }
    ensures repeats { (offence : Offence) → offence_of follower.old ≡ Some offence
        → IsOk result → ⊥ }
    ensures in_range { micros < 10 ^ 18 → bits < 512 → result ≡ Err Untaken.OutOfRange → ⊥ }
    ensures full { result ≡ Err Untaken.Full → ROWS_MAX ≤ rows_of follower.old }
    ensures unchanged { result ≡ Err Untaken.OutOfRange → follower.new ≡ follower.old }
    ensures still { result ≡ Err Untaken.Full → follower.new ≡ follower.old }
    ensures scope { scope_of follower.new ≡ scope_of follower.old }
{
    let at = Time::new(micros).ok_or(Untaken::OutOfRange)?;
    let word = Word::new(bits).ok_or(Untaken::OutOfRange)?;
    if follower.rows() >= ROWS_MAX {
        return Err(Untaken::Full);
    }
    match follower.feed(Event::Word { at, line, word }) {
        Ok(()) => Ok(()),
        Err(offence) => Err(Untaken::Impossible(offence)),
    }
}

/// What an account's device may have moved more than its controller knows of, in the words so far:
/// at least, and at most.
///
/// # Errors
///
/// The offence of a word that can't be.
pub fn difference_of(follower: &Follower, name: AccountName) -> Result<Range, Offence>
    ensures range { (rows : List Event) → StandsFor follower.now rows
        → IfOk result (IsRange (Run (scope_of follower.now) rows)
        (λ sums. side_value AccountSide.Difference (sums_of name sums))) }
    ensures answers { (rows : List Event) → StandsFor follower.now rows → IsOk result }
{
    laws::reports_name_the_accounts_of_runs();
    match follower.report() {
        Ok(report) => Ok(report.account(name).difference),
        Err(offence) => Err(offence),
    }
}
