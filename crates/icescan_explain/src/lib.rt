//! Explanations of plans: what became of each manifest and each live file of a snapshot, line by line, and which
//! predicate of the filter left it out, the first that does so alone.
#![tactic(auto)]

mod applied;
mod blame;
mod by_workers;
mod columns;
mod copies;
mod counts;
mod explained;
mod files;
mod json_lines;
mod laws;
mod lines;
mod lone;
mod manifests;
mod running;
mod tests;
mod verdict;
mod verdict_lines;
mod writing;

pub use explained::explanations_tell_of_plans;
pub use files::{FileTests, file_verdict, file_verdicts};
pub use laws::{fates_are_those_of_scans, left_out_names_a_predicate, named_predicates_say_no};
pub use lone::{LonePredicate, LoneTest};
pub use manifests::Explanation;
pub use running::{explain_file, run_explain};
pub use tests::{FilterTests, SpecTests, row_verdict};
pub use verdict::{Fate, Subject, Verdict};
