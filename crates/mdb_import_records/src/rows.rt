//! Our own rows, in the forms that people have them in.

mod fault;
mod importing;
mod record;

pub use fault::ImportFault;
pub use importing::import_records;
