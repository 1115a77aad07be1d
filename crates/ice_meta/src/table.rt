//! What table metadata says.

use crate::schema::Schema;
use crate::snapshot::{Ref, Snapshot};
use crate::spec::Spec;
use contract_words::{Items, Text};
use ice_value::SequenceNumber;
use uuid::Uuid;

/// What the metadata of a table says, as far as it is read.
#[derive(Debug, PartialEq, Drop)]
pub struct Table {
    /// The table's own id.
    pub uuid: Uuid,
    /// The path under which the table's files are written.
    pub location: Text,
    /// The number of the last change.
    pub last_sequence_number: SequenceNumber,
    /// When the metadata was written, in milliseconds since 1970-01-01 00:00 UTC.
    pub last_updated_ms: i64,
    /// The highest id that a column was given.
    pub last_column_id: i32,
    /// The schemas, in the order of the file.
    pub schemas: Items<Schema>,
    /// The id of the current schema, which is among them.
    pub current_schema_id: i32,
    /// The partition specs, in the order of the file. Their fields have no source types, which come with a schema.
    pub specs: Items<Spec>,
    /// The id of the spec for new files, which is among them.
    pub default_spec_id: i32,
    /// The highest id that a partition field was given.
    pub last_partition_id: i32,
    /// The id of the current snapshot, whether or not there is one of that id; None where the table has none.
    pub current_snapshot_id: Option<i64>,
    /// The snapshots, in the order of the file.
    pub snapshots: Items<Snapshot>,
    /// The branches and tags, in the order of their names' bytes. A ref `main` is kept as it stands there; the current
    /// snapshot is what counts as `main`.
    pub refs: Items<Ref>,
}
