//! Tests of path_arena, of what no clause says: that calls succeed where memory is ample, and what a refused growth leaves.
#![tactic(auto)]

mod calls;
#[cfg(test)]
mod held;
#[cfg(test)]
mod refusals;

pub use calls::{intern, reserve};
