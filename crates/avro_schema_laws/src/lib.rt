//! Laws of the faults of Avro schemas. Nothing builds on this crate.
#![tactic(auto)]

pub mod laws;
