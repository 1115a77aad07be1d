//! Avro schemas: the tree that a schema's JSON text names, or the first fault.
#![tactic(auto)]

mod attributes;
mod fault;
mod full_name;
pub mod laws;
mod names;
mod reading;
mod repeat;
mod schema;
mod texts;

pub use fault::SchemaFault;
pub use schema::{ArrayKind, BytesKind, Field, Schema};
