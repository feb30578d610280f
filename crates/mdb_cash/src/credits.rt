//! What the credits of a setup table count.

ghost use Rattle.std.specs.Prelude.{◌≡◌};
ghost use Rattle.mdb_cash.specs.Credits as spec;

/// What a credit byte counts: FF has no value.
pub(crate) fn counted(credit: u8) -> u8
    ensures { result ≡ spec.counted credit }
{
    if credit == 0xFF { 0 } else { credit }
}
