//! Commits to a table: prepared on what its files hold, and put where a store keeps them.
#![tactic(auto)]

mod base;
mod committing;

pub use committing::{commit_to, commits_are_put, prepare_commit, put_commit};
