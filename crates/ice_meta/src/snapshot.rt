//! Snapshots, and the branches and tags that name them.

use crate::numbered::Numbered;
use contract_words::Text;
use ice_value::SequenceNumber;

/// A snapshot: the state of the table after a change.
#[derive(Debug, PartialEq, Drop)]
pub struct Snapshot {
    /// The snapshot's id.
    pub id: i64,
    /// The id of the snapshot that it was made from.
    pub parent_id: Option<i64>,
    /// The number of the change.
    pub sequence_number: SequenceNumber,
    /// When it was made, in milliseconds since 1970-01-01 00:00 UTC.
    pub timestamp_ms: i64,
    /// The path of its manifest list.
    pub manifest_list: Option<Text>,
    /// The operation that its summary names.
    pub operation: Option<Text>,
    /// The id of the schema that was current when it was made.
    pub schema_id: Option<i32>,
}

impl Numbered for Snapshot {
    ghost use Rattle.ice_meta.specs.Tables.{snapshot_id};

    ghost id_of = { snapshot_id };

    fn number(&self) -> i64 {
        self.id
    }
}

/// What names a snapshot.
#[derive(Clone, Copy, Debug, PartialEq, Eq)]
pub enum RefKind {
    /// It moves with each change.
    Branch,
    /// It stays.
    Tag,
}

/// A branch or a tag.
#[derive(Debug, PartialEq, Drop)]
pub struct Ref {
    /// Its name.
    pub name: Text,
    /// The id of the snapshot that it names.
    pub snapshot_id: i64,
    /// Which of the two it is.
    pub kind: RefKind,
}
