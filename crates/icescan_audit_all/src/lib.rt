//! Audits of all snapshots of a table over any files: each manifest is read once, however many snapshots share it, and
//! each finding is told once, with the snapshots that it is about.
#![tactic(auto)]

mod audits;
mod copies;
mod filling;
mod kept;
mod laws;
mod lines;
mod listed;
mod manifests;
mod orders;
mod running;
mod wanted;
mod writing;

pub use audits::SnapshotAudit;
pub use laws::no_fault_told_is_none;
pub use lines::Line;
pub use listed::Listed;
pub use running::{audit_all_file, audits_text};
pub use writing::Totals;
