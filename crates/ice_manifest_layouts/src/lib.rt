//! Which field paths are read of a manifest list's rows and of a manifest's entries, and the fields that were
//! found along them in the bytes of the file's objects.
#![tactic(auto)]

mod entry;
mod entry_field;
mod file;
mod row;
mod row_field;
mod wanted;

pub use entry::FoundEntry;
pub use entry_field::{EntryField, FileField};
pub use file::FoundFile;
pub use row::FoundRow;
pub use row_field::{RowField, row_layout};
pub use wanted::entry_layout;
