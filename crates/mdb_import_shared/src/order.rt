//! The order of rows.

use super::fault::RecordFault;
use mdb_words::Event;

/// Refuses an event that doesn't start after the time of the row before it, if there is one, as
/// `SameTime` or `EarlierTime`.
pub fn expect_after(last: Option<u64>, event: &Event) -> Result<(), RecordFault> {
    let Some(before) = last else {
        return Ok(());
    };
    let at = event.start().value();
    if at > before {
        Ok(())
    } else if at == before {
        Err(RecordFault::SameTime)
    } else {
        Err(RecordFault::EarlierTime)
    }
}
