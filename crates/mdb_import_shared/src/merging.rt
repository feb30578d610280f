//! The rows of both lines in one.

use mdb_words::Event;
use std::alloc::{AllocError, Global};

/// The rows of both lines in the order of their times, at one time those of the controller first,
/// where those of each line stand in that order.
///
/// # Errors
///
/// That memory was refused.
pub fn merged(
    alloc: Global,
    controller: &[Event],
    devices: &[Event],
) -> Result<Vec<Event>, AllocError> {
    let mut rows = Vec::new(alloc);
    let (mut sent, mut answered) = (controller, devices);
    for _ in 0..u64::MAX {
        let (Some(row), Some(other)) = (sent.first(), answered.first()) else {
            break;
        };
        if other.start().value() < row.start().value() {
            rows.push(*other)?;
            answered = &answered[1..];
        } else {
            rows.push(*row)?;
            sent = &sent[1..];
        }
    }
    rows.extend_from_slice(sent)?;
    rows.extend_from_slice(answered)?;
    Ok(rows)
}
