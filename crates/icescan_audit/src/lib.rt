//! Audits of a table's snapshot over any files: every manifest is read, and what is found is written, line by
//! line, as text or as JSON.
#![tactic(auto)]

mod audit;
mod by_workers;
mod handed;
mod json_lines;
mod laws;
mod lines;
mod manifests;
mod running;
mod running_json;
mod subject;
mod summary;

pub use audit::{Audit, Reading, audit_row};
pub use handed::HandedAudit;
pub use icescan_audit_findings::{
    Basis, FalseTotal, Finding, Flaw, LiveFile, SaidTotal, Total, TypedColumn, TypedColumns,
};
pub use json_lines::{put_false_total, put_finding as put_finding_object};
pub use laws::{
    audits_tell_of_deletes, audits_tell_of_files, audits_tell_of_summaries, audits_tell_of_totals,
};
pub use lines::{push_false_total, put_finding};
pub use manifests::{audit_bytes, check_specs, spec_for};
pub use running::{audit_file, run_audit};
pub use running_json::audit_file_json;
pub use subject::{Subject, select_subject, subject_in};
