//! Why table metadata can't be read, or names no snapshot.

ghost use Rattle.std.specs.Prelude.{◌≡◌};
ghost use Rattle.ice_meta.specs.Members.{member_name};
ghost use Rattle.ice_meta.specs.declared.fault.MetaFault.TheVariants.{Memory};

use contract_words::Text;
use std::alloc::{AllocError, AllocFailed};

/// The members of table metadata that are read, and of what stands in it.
#[derive(Clone, Copy, Debug, PartialEq, Eq)]
pub enum Member {
    CurrentSchemaId,
    CurrentSnapshotId,
    DefaultSpecId,
    Element,
    ElementId,
    FieldId,
    Fields,
    FormatVersion,
    Id,
    Key,
    KeyId,
    LastColumnId,
    LastPartitionId,
    LastSequenceNumber,
    LastUpdatedMs,
    Location,
    ManifestList,
    Name,
    Operation,
    ParentSnapshotId,
    PartitionSpecs,
    Refs,
    Required,
    SchemaId,
    Schemas,
    SequenceNumber,
    SnapshotId,
    Snapshots,
    SourceId,
    SpecId,
    Summary,
    TableUuid,
    TimestampMs,
    Transform,
    Type,
    Value,
    ValueId,
}

impl Member {
    /// The member's name.
    pub fn name(self) -> &'static str
        ensures { result.now ≡ member_name self }
    {
        match self {
            Member::CurrentSchemaId => "current-schema-id",
            Member::CurrentSnapshotId => "current-snapshot-id",
            Member::DefaultSpecId => "default-spec-id",
            Member::Element => "element",
            Member::ElementId => "element-id",
            Member::FieldId => "field-id",
            Member::Fields => "fields",
            Member::FormatVersion => "format-version",
            Member::Id => "id",
            Member::Key => "key",
            Member::KeyId => "key-id",
            Member::LastColumnId => "last-column-id",
            Member::LastPartitionId => "last-partition-id",
            Member::LastSequenceNumber => "last-sequence-number",
            Member::LastUpdatedMs => "last-updated-ms",
            Member::Location => "location",
            Member::ManifestList => "manifest-list",
            Member::Name => "name",
            Member::Operation => "operation",
            Member::ParentSnapshotId => "parent-snapshot-id",
            Member::PartitionSpecs => "partition-specs",
            Member::Refs => "refs",
            Member::Required => "required",
            Member::SchemaId => "schema-id",
            Member::Schemas => "schemas",
            Member::SequenceNumber => "sequence-number",
            Member::SnapshotId => "snapshot-id",
            Member::Snapshots => "snapshots",
            Member::SourceId => "source-id",
            Member::SpecId => "spec-id",
            Member::Summary => "summary",
            Member::TableUuid => "table-uuid",
            Member::TimestampMs => "timestamp-ms",
            Member::Transform => "transform",
            Member::Type => "type",
            Member::Value => "value",
            Member::ValueId => "value-id",
        }
    }
}

/// Why metadata can't be read, or has no snapshot that was asked for. Of several faults it is the first in the order in
/// which the members are read.
#[derive(Debug, PartialEq, Drop)]
pub enum MetaFault {
    /// The bytes are no JSON object in UTF-8.
    NotJson,
    /// The format version is this one, and not 2.
    Version(i64),
    /// A member that is needed is not there.
    Missing(Member),
    /// The value of a member is of another kind, or out of its range.
    WrongKind(Member),
    /// No type has this text.
    UnknownType(Text),
    /// No branch or tag has the name.
    NoSuchRef,
    /// No snapshot has the id.
    NoSuchSnapshot,
    /// The table has no current snapshot.
    NoSnapshot,
    /// This id is given twice where it may be given once.
    IdTwice(i64),
    /// No memory was left.
    Memory,
    /// The member names something that is not there.
    Dangling(Member),
    /// A partition spec has more than 64 fields.
    TooBig,
}

impl From<AllocError> for MetaFault {
    ghost from_gives = { λ _ e. e ≡ Memory };

    fn from(_e: AllocError) -> MetaFault {
        MetaFault::Memory
    }
}

impl<T: Drop> From<AllocFailed<T>> for MetaFault {
    ghost from_gives = { λ _ e. e ≡ Memory };

    fn from(_e: AllocFailed<T>) -> MetaFault {
        MetaFault::Memory
    }
}
