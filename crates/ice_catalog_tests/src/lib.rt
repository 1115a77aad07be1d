//! Tests of ice_desk and ice_catalog, of what no clause says: that calls succeed where memory is ample, what is planned
//! of manifests that another program wrote, that workers work at once and leave nothing that they can read, what a
//! catalog's lock hands out, and that a refused growth changes no reply.
#![tactic(auto)]

mod calls;
#[cfg(test)]
mod desks;
#[cfg(test)]
mod files;
#[cfg(test)]
mod versions;
#[cfg(test)]
mod words;

pub use calls::{open, prepare, run_events};
