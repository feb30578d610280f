//! The header of a table of edges.

use super::fault::FormFault;
use super::record::field_of;
use mdb_import_shared::{Options, is_letter, read_number};
use mdb_records::Record;

/// Which columns of a table tell what. The first one tells the times.
#[derive(Clone, Copy)]
pub(super) struct Columns {
    /// How many there are.
    pub(super) width: usize,
    /// That of the controller's line.
    pub(super) controller: usize,
    /// That of the peripherals' line.
    pub(super) peripheral: usize,
}

/// The columns that a header names.
pub(super) fn columns_of(options: &Options, header: &Record<'_>) -> Result<Columns, FormFault> {
    if header.len() == 0 || read_number(field_of(header, 0)).is_some() {
        return Err(FormFault::NoHeader);
    }
    let controller = column_of(&options.controller, b'M', b'm', header);
    let peripheral = column_of(&options.peripheral, b'S', b's', header);
    match (controller, peripheral) {
        (Some(controller), Some(peripheral)) if controller != peripheral => Ok(Columns {
            width: header.len(),
            controller,
            peripheral,
        }),
        _ => Err(FormFault::Columns),
    }
}

/// The only column after the first that has a name or, where none was told, is one of two letters;
/// `None` where no column is, or several are.
fn column_of(told: &Option<String>, capital: u8, small: u8, header: &Record<'_>) -> Option<usize> {
    let mut found = None;
    for place in 1..header.len() {
        let field = field_of(header, place);
        let is_own = match told {
            Some(name) => field == name.as_bytes(),
            None => is_letter(field, capital, small),
        };
        if is_own && found.is_some() {
            return None;
        }
        if is_own {
            found = Some(place);
        }
    }
    found
}
