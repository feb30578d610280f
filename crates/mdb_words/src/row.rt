//! Why fields are no row.

/// Why the fields of a record are no row (this profile). If there are several faults, the first of
/// this order is reported.
#[derive(Clone, Copy, PartialEq, Eq, Debug)]
pub enum RowFault {
    /// The record hasn't three fields.
    FieldCount,
    /// The first field isn't 1 to 18 decimal digits.
    BadTime,
    /// The second field isn't `M`, `S` or `B`.
    BadLine,
    /// The third field isn't three hexadecimal digits up to 1FF (`M`, `S`) or 1 to 9 decimal digits
    /// (`B`).
    BadValue,
}
