//! Public calls of the program's crates once more, each under the one clause that its wrong implementations turn, so that
//! the gate can try these cheaply.
#![tactic(auto)]

mod answers;
mod audits;
mod texts;

pub use answers::{commit_below, equality_changes, file_fate, is_unchanged, show_below};
pub use audits::{
    audit_by_one, audits_text, delete_findings, false_total, live_files, manifest_findings,
    row_findings,
};
pub use texts::{send_plan, write_all};
