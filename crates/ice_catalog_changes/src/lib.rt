//! What a commit to a table adds, the names that it takes, and why one can't be made.
#![tactic(auto)]

mod change;
mod fault;

pub use change::{Change, Commit, Ids};
pub use fault::PrepareFault;
