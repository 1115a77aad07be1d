//! Why a change file can't be read.

ghost use Rattle.std.specs.Prelude.{◌≡◌};
ghost use Rattle.icescan_text.specs.Changes.{member_name};
ghost use Rattle.icescan_text.specs.declared.change.fault.ChangeFault.TheVariants.{Memory};

use std::alloc::{AllocError, AllocFailed};

/// The members of a change file.
#[derive(Clone, Copy, Debug, PartialEq, Eq)]
pub enum ChangeMember {
    Data,
    Deletes,
    Path,
    Format,
    SpecId,
    Partition,
    RecordCount,
    FileSize,
    Content,
    EqualityIds,
    ReferencedDataFile,
}

impl ChangeMember {
    /// The member's name.
    pub fn name(self) -> &'static str
        ensures { result.now ≡ member_name self }
    {
        match self {
            ChangeMember::Data => "data",
            ChangeMember::Deletes => "deletes",
            ChangeMember::Path => "path",
            ChangeMember::Format => "format",
            ChangeMember::SpecId => "spec-id",
            ChangeMember::Partition => "partition",
            ChangeMember::RecordCount => "record-count",
            ChangeMember::FileSize => "file-size",
            ChangeMember::Content => "content",
            ChangeMember::EqualityIds => "equality-ids",
            ChangeMember::ReferencedDataFile => "referenced-data-file",
        }
    }
}

/// Why a change file can't be read. Of several faults it is the first in the order in which the members are read.
#[derive(Clone, Copy, Debug, PartialEq, Eq)]
pub enum ChangeFault {
    /// The bytes are no JSON object in UTF-8.
    NotJson,
    /// This member is not there, its value is of another kind or out of its range, or an append has delete files.
    Bad(ChangeMember),
    /// A growth was refused.
    Memory,
}

impl From<AllocError> for ChangeFault {
    ghost from_gives = { λ _ e. e ≡ Memory };

    fn from(_e: AllocError) -> ChangeFault {
        ChangeFault::Memory
    }
}

impl<T: Drop> From<AllocFailed<T>> for ChangeFault {
    ghost from_gives = { λ _ e. e ≡ Memory };

    fn from(_e: AllocFailed<T>) -> ChangeFault {
        ChangeFault::Memory
    }
}
