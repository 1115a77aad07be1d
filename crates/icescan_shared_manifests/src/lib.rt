//! Manifests that two snapshots share, which need not be read to tell the changes from one to the other.
#![tactic(auto)]

mod both_rows;
mod shared;

pub use both_rows::{BothRows, select_both};
