//! What a field means in more than one format.

use mdb_import_shared::is_named;
use mdb_words::Line;

/// The line that a field names: by its letter, or by the name that was given. `None` where it names
/// none.
pub(crate) fn line_named(
    controller: &Option<String>,
    peripheral: &Option<String>,
    field: &[u8],
) -> Option<Line> {
    if is_named(field, b'M', b'm', controller) {
        Some(Line::Controller)
    } else if is_named(field, b'S', b's', peripheral) {
        Some(Line::Peripheral)
    } else {
        None
    }
}

/// Whether a text can be that of titles: it has no decimal digit, and isn't what gzip writes.
pub(crate) fn can_be_titles(text: &[u8]) -> bool {
    !text.starts_with(b"\x1F\x8B") && !text.iter().any(u8::is_ascii_digit)
}
