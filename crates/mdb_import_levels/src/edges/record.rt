//! The records of a table of edges below its header.

ghost use Rattle.std.specs.Prelude.{◌≤◌};

use super::fault::{EdgesFault, FormFault, OrderFault};
use super::header::Columns;
use crate::instant::Instant;
use mdb_import_shared::{Options, Unit, bare, power, read_number};
use mdb_records::Record;
use mdb_words::Line;

/// The levels of both lines from an instant on.
#[derive(Clone, Copy)]
pub(super) struct Moment {
    /// The instant.
    pub(super) at: Instant,
    /// Whether the controller's line is high.
    pub(super) controller: bool,
    /// Whether the peripherals' line is high.
    pub(super) peripheral: bool,
}

/// A field of a record, without the blanks and quotation marks around it; no bytes where there is
/// no such field.
pub(super) fn field_of<'a>(row: &Record<'a>, place: usize) -> &'a [u8] {
    bare(row.get(place).unwrap_or(&[]))
}

/// What the record of a number tells, whose instant isn't before the earliest that it may have.
pub(super) fn read_record(
    options: &Options,
    columns: &Columns,
    number: u64,
    earliest: u128,
    row: &Record<'_>,
) -> Result<Moment, EdgesFault> {
    if row.len() != columns.width {
        let fault = FormFault::FieldCount;
        return Err(EdgesFault::Form { number, fault });
    }
    let at = match instant_of(options.unit.unwrap_or(Unit::Seconds), field_of(row, 0)) {
        Ok(at) => at,
        Err(fault) => return Err(EdgesFault::Form { number, fault }),
    };
    let Some(controller) = level_of(
        options.inverted.controller,
        field_of(row, columns.controller),
    ) else {
        return Err(no_level(number, at, Line::Controller));
    };
    let Some(peripheral) = level_of(
        options.inverted.peripheral,
        field_of(row, columns.peripheral),
    ) else {
        return Err(no_level(number, at, Line::Peripheral));
    };
    if at.parts() < earliest {
        return Err(early(number, at, earliest));
    }
    Ok(Moment {
        at,
        controller,
        peripheral,
    })
}

/// Whether a field tells that the line is high; `None` where it tells no level.
fn level_of(invert: bool, field: &[u8]) -> Option<bool> {
    match field {
        [b'1'] => Some(!invert),
        [b'0'] => Some(invert),
        _ => None,
    }
}

/// The instant that a field tells.
fn instant_of(unit: Unit, field: &[u8]) -> Result<Instant, FormFault> {
    let Some(number) = read_number(field) else {
        return Err(FormFault::BadTime);
    };
    let each = scale_of(unit) * u128::from(power(15 - number.places));
    let Some(parts) = number.count.checked_mul(each) else {
        return Err(FormFault::LongTime);
    };
    Instant::new(parts).ok_or(FormFault::LongTime)
}

/// How many parts of an instant a quadrillionth (10^-15) of a unit is.
fn scale_of(unit: Unit) -> u128
    ensures { result ≤ 3000000000 }
{
    match unit {
        Unit::Seconds => 3_000_000_000,
        Unit::Milliseconds => 3_000_000,
        Unit::Microseconds => 3_000,
        Unit::Nanoseconds => 3,
    }
}

/// The fault of the record of a number that tells no level of a line.
fn no_level(number: u64, at: Instant, line: Line) -> EdgesFault {
    EdgesFault::Level {
        number,
        micros: at.time().value(),
        line,
    }
}

/// The fault of the record of a number that is before the earliest instant that it may have.
fn early(number: u64, at: Instant, earliest: u128) -> EdgesFault {
    EdgesFault::Order {
        number,
        micros: at.time().value(),
        fault: if at.parts() + 1 == earliest {
            OrderFault::SameTime
        } else {
            OrderFault::EarlierTime
        },
    }
}
