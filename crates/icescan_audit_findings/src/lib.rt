//! Audits of tables: what of a snapshot's manifests is not as the manifest list and the table's metadata say, so that a
//! plan of it might lack files.
#![tactic(auto)]

mod basis;
mod columns;
mod counts;
mod deletes;
mod entries;
mod examined;
mod fields;
mod file_key;
mod finding;
mod fingerprints;
mod flaws;
mod header;
mod ids;
mod laws;
mod limits;
mod pairs;
mod places;
mod reaching;
mod repeats;
mod rows;
mod spelling;
mod totals;
mod typed_columns;

pub use basis::{Basis, TypedColumn};
pub use deletes::{push_delete_findings, push_delete_findings_by_workers};
pub use entries::audit_manifest;
pub use file_key::{FileKey, KeptKey};
pub use finding::{ColumnFlaw, Count, EntryFlaw, FieldFlaw, Finding, Flaw, RowFlaw, count_faults};
pub use laws::{
    faultless_files_are_honest, findings_tell_applying, findings_tell_columns,
    findings_tell_counts, findings_tell_coverage, findings_tell_entries, findings_tell_totals,
    limits_tell_coverage, repeats_tell_paths_apart,
};
pub use repeats::{LiveFile, push_repeats, push_repeats_by_workers};
pub use rows::push_row_findings;
pub use totals::{FalseTotal, SaidTotal, Total, false_totals};
pub use typed_columns::TypedColumns;
