//! Why a manifest list or a manifest can't be read.

ghost use Rattle.std.specs.Prelude.{◌≡◌, IfOk};
ghost use Rattle.ice_manifest_fields.specs.declared.fault.ListFault.TheVariants as list;
ghost use Rattle.ice_manifest_fields.specs.declared.fault.ManifestFault.TheVariants as manifest;

use avro_file::AvroFault;
use contract_words::Text;
use std::alloc::{AllocError, AllocFailed, Global};

/// What is wrong with a field of an id, whichever file it is of.
#[derive(Clone, Copy, Debug, PartialEq, Eq)]
pub enum FieldFault {
    /// The schema has no such field, or an object has null there.
    Missing(i32),
    /// Its type does not fit.
    WrongType(i32),
    /// The number or path in it is out of its range.
    OutOfRange(i32),
    /// A content number is none, or does not fit where it stands.
    BadContent,
    /// A partition value is a float or a double.
    FloatPartition(i32),
}

/// The first fault of a manifest list.
#[derive(Debug, Drop)]
pub enum ListFault {
    /// The container can't be read, or not to its end.
    Avro(AvroFault),
    /// The schema has no field of this id, or a row has null there.
    MissingField(i32),
    /// The field of this id has a type that does not fit.
    WrongFieldType(i32),
    /// The number or path in the field of this id is out of its range.
    OutOfRange(i32),
    /// A content number is neither data nor deletes.
    BadContent,
    /// Two different rows have this path.
    ManifestTwice(Text),
    /// A growth was refused.
    Memory,
    /// There are more than 65,536 different rows.
    TooManyRows,
}

/// The first fault of a manifest.
#[derive(Debug, Drop)]
pub enum ManifestFault {
    /// The container can't be read, or not to its end.
    Avro(AvroFault),
    /// The schema has no field of this id, or an entry has null there.
    MissingField(i32),
    /// The field of this id has a type that does not fit.
    WrongFieldType(i32),
    /// The number or path in the field of this id is out of its range.
    OutOfRange(i32),
    /// A status is none of existing, added and deleted.
    BadStatus,
    /// A content number is none, or does not fit the manifest's row.
    BadContent,
    /// An existing entry has no sequence number of its own, under a row whose number is not 0.
    NoSequence,
    /// The partition field of this id is a float or a double.
    FloatPartition(i32),
    /// A growth was refused.
    Memory,
}

impl From<FieldFault> for ListFault {
    ghost use Rattle.ice_manifest_fields.specs.Naming.{in_list};

    ghost from_gives = { λ f e. e ≡ in_list.of_field f };

    fn from(fault: FieldFault) -> ListFault {
        match fault {
            FieldFault::Missing(id) => ListFault::MissingField(id),
            FieldFault::WrongType(id) => ListFault::WrongFieldType(id),
            FieldFault::OutOfRange(id) => ListFault::OutOfRange(id),
            FieldFault::BadContent => ListFault::BadContent,
            // A list has no partition values.
            FieldFault::FloatPartition(id) => ListFault::WrongFieldType(id),
        }
    }
}

impl From<AvroFault> for ListFault {
    ghost use Rattle.ice_manifest_fields.specs.Naming.{in_list};

    ghost from_gives = { λ f e. e ≡ in_list.of_container f };

    fn from(fault: AvroFault) -> ListFault {
        match fault {
            AvroFault::Memory => ListFault::Memory,
            fault => ListFault::Avro(fault),
        }
    }
}

impl From<AllocError> for ListFault {
    ghost from_gives = { λ _ e. e ≡ list.Memory };

    fn from(_e: AllocError) -> ListFault {
        ListFault::Memory
    }
}

impl<T: Drop> From<AllocFailed<T>> for ListFault {
    ghost from_gives = { λ _ e. e ≡ list.Memory };

    fn from(_e: AllocFailed<T>) -> ListFault {
        ListFault::Memory
    }
}

impl From<FieldFault> for ManifestFault {
    ghost use Rattle.ice_manifest_fields.specs.Naming.{in_manifest};

    ghost from_gives = { λ f e. e ≡ in_manifest.of_field f };

    fn from(fault: FieldFault) -> ManifestFault {
        match fault {
            FieldFault::Missing(id) => ManifestFault::MissingField(id),
            FieldFault::WrongType(id) => ManifestFault::WrongFieldType(id),
            FieldFault::OutOfRange(id) => ManifestFault::OutOfRange(id),
            FieldFault::BadContent => ManifestFault::BadContent,
            FieldFault::FloatPartition(id) => ManifestFault::FloatPartition(id),
        }
    }
}

impl From<AvroFault> for ManifestFault {
    ghost use Rattle.ice_manifest_fields.specs.Naming.{in_manifest};

    ghost from_gives = { λ f e. e ≡ in_manifest.of_container f };

    fn from(fault: AvroFault) -> ManifestFault {
        match fault {
            AvroFault::Memory => ManifestFault::Memory,
            fault => ManifestFault::Avro(fault),
        }
    }
}

impl From<AllocError> for ManifestFault {
    ghost from_gives = { λ _ e. e ≡ manifest.Memory };

    fn from(_e: AllocError) -> ManifestFault {
        ManifestFault::Memory
    }
}

impl<T: Drop> From<AllocFailed<T>> for ManifestFault {
    ghost from_gives = { λ _ e. e ≡ manifest.Memory };

    fn from(_e: AllocFailed<T>) -> ManifestFault {
        ManifestFault::Memory
    }
}

impl ManifestFault {
    /// The same fault.
    pub fn copy(&self, alloc: Global) -> Result<ManifestFault, AllocError>
        ensures { IfOk result (λ copied. copied ≡ self.now) }
    {
        Ok(match self {
            ManifestFault::Avro(fault) => ManifestFault::Avro(fault.copy(alloc)?),
            ManifestFault::MissingField(id) => ManifestFault::MissingField(*id),
            ManifestFault::WrongFieldType(id) => ManifestFault::WrongFieldType(*id),
            ManifestFault::OutOfRange(id) => ManifestFault::OutOfRange(*id),
            ManifestFault::BadStatus => ManifestFault::BadStatus,
            ManifestFault::BadContent => ManifestFault::BadContent,
            ManifestFault::NoSequence => ManifestFault::NoSequence,
            ManifestFault::FloatPartition(id) => ManifestFault::FloatPartition(*id),
            ManifestFault::Memory => ManifestFault::Memory,
        })
    }
}
