//! Scans that stay pinned to their version while commits go on, and by its own name all that a table's versions and
//! their book are: what versions are and how commits are prepared on them is in `ice_catalog_versions`, how commits
//! replace the newest version, by one thread or by many, in `ice_catalog_book`.
#![tactic(auto)]

mod event;
mod machine;
mod machine_laws;
mod pinning;
mod scanning;

pub use event::{Event, Reply};
pub use ice_catalog_book::{Book, Catalog, Conflict, Seat};
pub use ice_catalog_changes::{Change, Commit, Ids, PrepareFault};
pub use ice_catalog_versions::{
    Opening, Prepared, Receipt, Version, World, a_commit_is_one_step, a_new_uuid_makes_new_names,
    commits_leave_what_was_there, prepare, the_last_commit_is_taken_off, the_least_fault_is_told,
    versions_stay_covered, what_is_live_after_a_commit,
};
pub use ice_manifest::NewFile;
pub use machine::run_events;
pub use machine_laws::{pinned_plans, pinned_plans_of_commits, pins_stand_apart};
