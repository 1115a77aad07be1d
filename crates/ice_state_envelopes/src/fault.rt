//! Why bytes are no state, or states are not joined.

ghost use Rattle.std.specs.Prelude.{◌≡◌};
ghost use Rattle.ice_state_envelopes.specs.declared.fault.EnvelopeFault.TheVariants.{Memory, Damaged};

use avro_file_parts::Refusal;
use std::alloc::{AllocError, AllocFailed};

/// The first fault of a state's bytes, or want of memory.
#[derive(Clone, Copy, Debug, PartialEq, Eq)]
pub enum EnvelopeFault {
    /// It does not begin as a state does.
    NotAState,
    /// It is a state of another version.
    OtherVersion,
    /// Its digest is not that of its bytes, or a part is cut or out of order.
    Damaged,
    /// Two states are of different scans.
    OtherScan,
    /// A growth was refused.
    Memory,
}

impl From<AllocError> for EnvelopeFault {
    ghost from_gives = { λ _ e. e ≡ Memory };

    fn from(_e: AllocError) -> EnvelopeFault {
        EnvelopeFault::Memory
    }
}

impl<T: Drop> From<AllocFailed<T>> for EnvelopeFault {
    ghost from_gives = { λ _ e. e ≡ Memory };

    fn from(_e: AllocFailed<T>) -> EnvelopeFault {
        EnvelopeFault::Memory
    }
}

impl From<Refusal> for EnvelopeFault {
    ghost from_gives = { λ _ e. e ≡ Damaged };

    fn from(_e: Refusal) -> EnvelopeFault {
        EnvelopeFault::Damaged
    }
}
