//! What became of a table's plan from one snapshot to another: the data files that only one of two plans has, and those
//! to which other delete files apply, as text.
#![tactic(auto)]

mod changes;
mod json_lines;
pub mod laws;
mod lineage;
mod lines;
mod running;
mod same;

pub use changes::{Change, FileChange, file_changes, line_changes};
pub use running::{changes_file, changes_told};
pub use same::is_same_file;
