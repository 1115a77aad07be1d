//! Commits from C: a commit is prepared on what is handed in of a table, and its files are told.
#![tactic(auto)]

mod files;
mod handed;

pub use files::CommitFiles;
pub use handed::HandedCommit;
