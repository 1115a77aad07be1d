//! Manifest lists and manifests: reading them, as `ice_manifest_reading` does, and writing new ones.
#![tactic(auto)]

mod adding;
mod file_writing;
mod heading;
mod json;
mod laws;
mod list_writing;
mod manifest_writing;
mod new_file;
mod new_row;
mod partition_names;
mod written_entries;
mod written_schemas;
mod written_types;
mod written_values;

pub use adding::{is_partition_type, is_tuple_of};
pub use heading::Heading;
pub use ice_manifest_reading::{
    Counts, DataFile, Entry, EntryView, Everything, FieldFault, Keep, Kind, ListFault, Live,
    ManifestContent, ManifestFault, Row, Status, contents_fit, decimals_are_kept_shortest,
    entries_are_the_live_ones, file_numbers_are_inherited, first_faults_are_told,
    numbers_are_inherited, other_fields_are_skipped, read_kept, read_list, read_manifest,
    rows_are_a_set, rows_are_refused_together, snapshots_are_inherited,
};
pub use laws::partition_names_tell_fields_apart;
pub use list_writing::write_list;
pub use manifest_writing::write_manifest;
pub use new_file::NewFile;
