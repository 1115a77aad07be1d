//! Laws of plans: what the plan of a snapshot has, and that what it lacks has no match.
#![tactic(auto)]

mod matches;
mod plans;
mod soundness;

pub use matches::{what_has_a_match_is_planned, what_the_plan_lacks_has_no_match};
pub use plans::{finished_plans, lists_have_each_path_once, snapshot_plans};
