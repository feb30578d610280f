//! Comments above a header.

use super::fields::bare;
use mdb_records::Record;

/// Whether a record above a header is a comment: its first field begins with `#`, and it isn't a
/// header itself; or with `;`, and it has no other `;`.
pub fn is_comment(record: &Record<'_>, is_header: bool) -> bool {
    match bare(record.get(0).unwrap_or(&[])) {
        [b'#', ..] => !is_header,
        [b';', ..] => count_of(b';', record) == 1,
        _ => false,
    }
}

/// How many such bytes the fields of a record have.
fn count_of(byte: u8, record: &Record<'_>) -> u64 {
    let mut count: u64 = 0;
    for place in 0..record.len() {
        for other in record.get(place).unwrap_or(&[]) {
            if *other == byte {
                count = count.saturating_add(1);
            }
        }
    }
    count
}
