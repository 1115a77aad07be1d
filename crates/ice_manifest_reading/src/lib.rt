//! Manifest lists and manifests as they are read: their rows and live entries, found by field id, or the first fault.
#![tactic(auto)]

mod collect;
mod columns;
mod counts;
mod data_file;
mod entry;
mod gather;
mod keep;
mod laws;
mod list;
mod manifest;
mod opening;
mod row;
mod shape;
mod status;
mod summaries;
mod tally;
mod tell;
mod tuple;

pub use collect::Asked;
pub use counts::Counts;
pub use data_file::DataFile;
pub use entry::{Entry, EntryView, LentEntry, Live};
pub use gather::Gather;
pub use ice_manifest_fields::{
    FieldFault, Kind, ListFault, ManifestFault, decimals_are_kept_shortest,
};
pub use keep::{Everything, Keep};
pub use laws::{
    absent_fields_are_zero, contents_fit, entries_are_the_live_ones, file_numbers_are_inherited,
    first_faults_are_told, no_refusal_is_memory, numbers_are_inherited, other_fields_are_skipped,
    rows_are_a_set, rows_are_refused_together, snapshots_are_inherited,
};
pub use list::read_list;
pub use manifest::{
    read_after, read_into, read_into_told, read_kept, read_manifest, read_tallied, read_told,
};
pub use row::{ManifestContent, Row};
pub use status::Status;
pub use tally::{Tallied, Tallies, Tally};
pub use tell::{Silent, Tell};
