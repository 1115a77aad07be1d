//! Why bytes are no state of a scan, or a state is none of it.

ghost use Rattle.std.specs.Prelude.{◌≡◌};
ghost use Rattle.ice_state_bytes.specs.declared.fault.StateFault.TheVariants.{Memory};

use ice_state_envelopes::EnvelopeFault;
use ice_state_sections::SectionFault;
use std::alloc::{AllocError, AllocFailed};

/// The first fault of a state's bytes, or of a state that is written; or want of memory.
#[derive(Clone, Copy, Debug, PartialEq, Eq)]
pub enum StateFault {
    /// It does not begin as a state does.
    NotAState,
    /// It is a state of another version.
    OtherVersion,
    /// Its digest is not that of its bytes, or a part is cut or out of order.
    Damaged,
    /// It is a state of another scan.
    OtherScan,
    /// It says of a row what no manifest of that row could give.
    NotOfScan,
    /// A growth was refused.
    Memory,
}

impl From<EnvelopeFault> for StateFault {
    ghost use Rattle.ice_state_bytes.specs.Faults.{of_envelope};

    ghost from_gives = { λ f e. e ≡ of_envelope f };

    fn from(fault: EnvelopeFault) -> StateFault {
        match fault {
            EnvelopeFault::NotAState => StateFault::NotAState,
            EnvelopeFault::OtherVersion => StateFault::OtherVersion,
            EnvelopeFault::Damaged => StateFault::Damaged,
            EnvelopeFault::OtherScan => StateFault::OtherScan,
            EnvelopeFault::Memory => StateFault::Memory,
        }
    }
}

impl From<SectionFault> for StateFault {
    ghost use Rattle.ice_state_bytes.specs.Faults.{of_section};

    ghost from_gives = { λ f e. e ≡ of_section f };

    fn from(fault: SectionFault) -> StateFault {
        match fault {
            SectionFault::NoSection | SectionFault::NotOfRow => StateFault::NotOfScan,
            SectionFault::Memory => StateFault::Memory,
        }
    }
}

impl From<AllocError> for StateFault {
    ghost from_gives = { λ _ e. e ≡ Memory };

    fn from(_e: AllocError) -> StateFault {
        StateFault::Memory
    }
}

impl<T: Drop> From<AllocFailed<T>> for StateFault {
    ghost from_gives = { λ _ e. e ≡ Memory };

    fn from(_e: AllocFailed<T>) -> StateFault {
        StateFault::Memory
    }
}
