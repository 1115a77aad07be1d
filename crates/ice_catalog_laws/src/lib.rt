//! Laws of the machine of scans and commits: what its events do to the states into which manifests are read, how the
//! plans of many workers come of them, and how many commits each of those who commit made. Nothing builds on this
//! crate.
#![tactic(auto)]

mod laws;
pub mod steps;

pub use laws::{
    a_machine_changes_only_where_it_says_so, a_merge_is_merged, a_scan_begins_with_nothing_taken,
    a_take_is_taken, a_tree_is_played, a_tree_takes_its_rows, commits_are_counted,
    finishing_tells_the_outcome,
};
