//! Why there is no scan, or no plan.

ghost use Rattle.std.specs.Prelude.{◌≡◌};
ghost use Rattle.ice_state.specs.declared.fault.FinishFault.TheVariants as finish;
ghost use Rattle.ice_state.specs.declared.fault.ScanFault.TheVariants as scan;

use contract_words::{Items, Text};
use ice_manifest_reading::ManifestFault;
use std::alloc::{AllocError, AllocFailed};

/// Why there is no scan.
#[derive(Clone, Copy, Debug, PartialEq, Eq)]
pub enum ScanFault {
    /// No spec has this id, which a row names: of the rows that do so, the one with the least path.
    NoSuchSpec(i32),
    /// A growth was refused.
    Memory,
}

/// Why a state gives no plan: the first that stands, in this order, each for the least path.
#[derive(Debug, Drop)]
pub enum FinishFault {
    /// The wanted manifest at this path wasn't taken.
    Missing(Text),
    /// The manifest at this path was taken and can't be read.
    Bad(Text, ManifestFault),
    /// Two kept entries of different origin have this path.
    PathTwice(Items<u8>),
    /// A growth was refused.
    Memory,
}

impl From<AllocError> for ScanFault {
    ghost from_gives = { λ _ e. e ≡ scan.Memory };

    fn from(_e: AllocError) -> ScanFault {
        ScanFault::Memory
    }
}

impl<T: Drop> From<AllocFailed<T>> for ScanFault {
    ghost from_gives = { λ _ e. e ≡ scan.Memory };

    fn from(_e: AllocFailed<T>) -> ScanFault {
        ScanFault::Memory
    }
}

impl From<AllocError> for FinishFault {
    ghost from_gives = { λ _ e. e ≡ finish.Memory };

    fn from(_e: AllocError) -> FinishFault {
        FinishFault::Memory
    }
}

impl<T: Drop> From<AllocFailed<T>> for FinishFault {
    ghost from_gives = { λ _ e. e ≡ finish.Memory };

    fn from(_e: AllocFailed<T>) -> FinishFault {
        FinishFault::Memory
    }
}
