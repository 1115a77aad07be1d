//! Which fields of a manifest's entries are read.

ghost use Rattle.std.specs.Prelude.{◌≡◌, List};
ghost use Rattle.ice_meta.specs.declared.spec.PartitionField.{PartitionField};
ghost use Rattle.ice_manifest_layouts.specs.FieldPaths.{entry_id, file_id, to_entry, to_file, IsNumberOf};

/// The partition values are read behind all fields of entries and files, and of pairs.
pub(crate) const PARTITION_START: usize = 18;

/// A field of an entry.
#[derive(Clone, Copy, Debug, PartialEq, Eq)]
pub enum EntryField {
    Status,
    SnapshotId,
    SequenceNumber,
    FileSequenceNumber,
    DataFile,
}

/// A field of an entry's file.
#[derive(Clone, Copy, Debug, PartialEq, Eq)]
pub enum FileField {
    Content,
    Path,
    Partition,
    RecordCount,
    FileSize,
    ValueCounts,
    NullCounts,
    LowerBounds,
    UpperBounds,
    EqualityIds,
    ReferencedFile,
    Format,
}

impl EntryField {
    /// The number that names the field in every schema.
    pub fn id(self) -> i32
        ensures { result ≡ entry_id self }
    {
        match self {
            EntryField::Status => 0,
            EntryField::SnapshotId => 1,
            EntryField::DataFile => 2,
            EntryField::SequenceNumber => 3,
            EntryField::FileSequenceNumber => 4,
        }
    }

    /// Its place among all that is read.
    pub(crate) fn number(self) -> usize
        ensures { (partition : List PartitionField) → IsNumberOf (to_entry self) result partition }
    {
        match self {
            EntryField::Status => 0,
            EntryField::SnapshotId => 1,
            EntryField::SequenceNumber => 2,
            EntryField::FileSequenceNumber => 3,
            EntryField::DataFile => 4,
        }
    }
}

impl FileField {
    /// The number that names the field in every schema.
    pub fn id(self) -> i32
        ensures { result ≡ file_id self }
    {
        match self {
            FileField::Content => 134,
            FileField::Path => 100,
            FileField::Partition => 102,
            FileField::RecordCount => 103,
            FileField::FileSize => 104,
            FileField::ValueCounts => 109,
            FileField::NullCounts => 110,
            FileField::LowerBounds => 125,
            FileField::UpperBounds => 128,
            FileField::EqualityIds => 135,
            FileField::ReferencedFile => 143,
            FileField::Format => 101,
        }
    }

    /// Its place among all that is read.
    pub(crate) fn number(self) -> usize
        ensures { (partition : List PartitionField) → IsNumberOf (to_file self) result partition }
    {
        match self {
            FileField::Content => 5,
            FileField::Path => 6,
            FileField::Partition => 7,
            FileField::RecordCount => 8,
            FileField::FileSize => 9,
            FileField::ValueCounts => 10,
            FileField::NullCounts => 11,
            FileField::LowerBounds => 12,
            FileField::UpperBounds => 13,
            FileField::EqualityIds => 14,
            FileField::ReferencedFile => 15,
            FileField::Format => 16,
        }
    }
}
