//! Table metadata as a value: schemas, partition specs, snapshots, branches and tags, and what of a table is asked for.
#![tactic(auto)]

mod columns;
mod commit;
mod fault;
mod from_json;
mod laws;
mod log;
mod members;
mod metadata;
mod next;
mod numbered;
mod schema;
mod schema_text;
mod snapshot;
mod spec;
mod table;
mod tables;
mod types;

pub use commit::{NewSnapshot, Operation};
pub use fault::{Member, MetaFault};
pub use laws::{
    a_commit_adds_its_snapshot, a_commit_keeps_sequence_numbers, a_commit_keeps_the_rest,
    a_commit_says_the_next_table, a_commit_tells_its_time, a_commit_writes_the_canonical_uuid,
    filling_in_says_the_same_table,
};
pub use metadata::{Metadata, Target};
pub use schema::{Column, Schema};
pub use snapshot::{Ref, RefKind, Snapshot};
pub use spec::{PartitionField, Spec};
pub use table::Table;
