//! What is lent to C: where it begins, and how many there are.
#![tactic(auto)]

mod lent;

pub use lent::{Bytes, Ids};
