//! Tests of ice_state, ice_state_entries and ice_state_bytes, of what no clause says: that calls succeed where memory
//! is ample, the plan of manifests that another program wrote, and what a refused growth leaves.
#![tactic(auto)]

#[cfg(test)]
mod answers;
#[cfg(test)]
mod bytes;
mod calls;
#[cfg(test)]
mod cases;
mod entry_calls;
#[cfg(test)]
mod plans;
#[cfg(test)]
mod states;

pub use calls::{absorb, into_plan, keeps, lacks_deletes, new, take_apart};
pub use entry_calls::{add, add_kept};
