//! Versions of a table that replay their journals: the files that a version sees, what a commit adds, and how a commit
//! is prepared on a version.
#![tactic(auto)]

mod adding;
mod bases;
mod following;
mod groups;
mod laws;
mod opening;
mod partitioning;
mod paths;
mod prepared;
mod preparing;
mod receipt;
mod refusals;
mod tuples;
mod version;
mod world;

pub use laws::{
    a_commit_is_one_step, a_new_uuid_makes_new_names, commits_leave_what_was_there,
    the_last_commit_is_taken_off, the_least_fault_is_told, versions_stay_covered,
    what_is_live_after_a_commit,
};
pub use opening::Opening;
pub use prepared::Prepared;
pub use preparing::{prepare, prepare_in_place};
pub use receipt::Receipt;
pub use version::Version;
pub use world::World;
