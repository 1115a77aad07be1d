//! Tests of avro_schema and avro_file: which trees and which faults schemas' texts give, and files that are read. Calls
//! of both and of avro_file_picked stand here once more, too.
#![tactic(auto)]

mod calls;
#[cfg(test)]
mod cases;
#[cfg(test)]
mod containers;
#[cfg(test)]
mod look;
#[cfg(test)]
mod schemas;

pub use calls::{from_json, next, next_with, open};
