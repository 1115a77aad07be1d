//! Why bytes give no section, or a section can't be written.

ghost use Rattle.std.specs.Prelude.{◌≡◌};
ghost use Rattle.ice_state_sections.specs.declared.section_fault.SectionFault.TheVariants.{NoSection, Memory};

use avro_file_parts::Refusal;
use std::alloc::{AllocError, AllocFailed};

/// Why bytes give no section of a row, or what a row gave can't be written.
#[derive(Clone, Copy, Debug, PartialEq, Eq)]
pub enum SectionFault {
    /// The bytes are no section.
    NoSection,
    /// An entry is none that the manifest of the row may have at its place.
    NotOfRow,
    /// A growth was refused.
    Memory,
}

/// Bytes with more behind them.
pub(crate) type Grown = Result<Vec<u8>, SectionFault>;

impl From<Refusal> for SectionFault {
    ghost from_gives = { λ _ e. e ≡ NoSection };

    fn from(_refusal: Refusal) -> SectionFault {
        SectionFault::NoSection
    }
}

impl From<AllocError> for SectionFault {
    ghost from_gives = { λ _ e. e ≡ Memory };

    fn from(_e: AllocError) -> SectionFault {
        SectionFault::Memory
    }
}

impl<T: Drop> From<AllocFailed<T>> for SectionFault {
    ghost from_gives = { λ _ e. e ≡ Memory };

    fn from(_e: AllocFailed<T>) -> SectionFault {
        SectionFault::Memory
    }
}
