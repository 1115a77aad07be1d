//! Why a folder has no newest metadata.

ghost use Rattle.std.specs.Prelude.{◌≡◌};
ghost use Rattle.ice_meta_files.specs.declared.newest_fault.NewestFault.TheVariants as fault;

use contract_words::Text;
use std::alloc::AllocError;

/// Why a folder has no newest metadata.
#[derive(Debug, PartialEq, Drop)]
pub enum NewestFault {
    /// There is no such folder.
    NoFolder,
    /// No file of the folder has the name of a metadata file.
    NoMetadata,
    /// These two files have the number of the newest metadata.
    TwoOfOneNumber(Text, Text),
    /// The newest metadata is in this compressed file.
    Compressed(Text),
    /// Memory ran out.
    Memory,
}

impl From<AllocError> for NewestFault {
    ghost from_gives = { λ _ e. e ≡ fault.Memory };

    fn from(_e: AllocError) -> NewestFault {
        NewestFault::Memory
    }
}
