//! Why a scan's manifests could not be taken, or planned.

ghost use Rattle.std.specs.Prelude.{◌≡◌};
ghost use Rattle.ice_desk.specs.Faults.{of_finish, of_wanted};
ghost use Rattle.ice_desk.specs.declared.fault.PlanFault.TheVariants as plan;
ghost use Rattle.ice_desk.specs.declared.fault.WantedFault.TheVariants as wanted;

use contract_words::Text;
use ice_state::FinishFault;
use std::alloc::{AllocError, AllocFailed};

/// Why the manifests that a scan wants could not all be taken.
#[derive(Debug, Drop)]
pub enum WantedFault {
    /// There is no file at this path.
    Absent(Text),
    /// The file at this path can't be read.
    Device(Text),
    /// A growth was refused.
    Memory,
}

/// Why workers gave no plan.
#[derive(Debug, Drop)]
pub enum PlanFault {
    /// All manifests were taken, and this keeps them from being a plan. It is never that one is missing, nor want of
    /// memory.
    Finish(FinishFault),
    /// There is no file at this path.
    Absent(Text),
    /// The file at this path can't be read.
    Device(Text),
    /// A growth was refused.
    Memory,
    /// There are to be from 1 to 64 workers.
    Workers,
}

impl From<AllocError> for WantedFault {
    ghost from_gives = { λ _ e. e ≡ wanted.Memory };

    fn from(_e: AllocError) -> WantedFault {
        WantedFault::Memory
    }
}

impl<T: Drop> From<AllocFailed<T>> for WantedFault {
    ghost from_gives = { λ _ e. e ≡ wanted.Memory };

    fn from(_e: AllocFailed<T>) -> WantedFault {
        WantedFault::Memory
    }
}

impl From<AllocError> for PlanFault {
    ghost from_gives = { λ _ e. e ≡ plan.Memory };

    fn from(_e: AllocError) -> PlanFault {
        PlanFault::Memory
    }
}

impl From<WantedFault> for PlanFault {
    ghost from_gives = { λ fault e. e ≡ of_wanted fault };

    fn from(fault: WantedFault) -> PlanFault {
        match fault {
            WantedFault::Absent(path) => PlanFault::Absent(path),
            WantedFault::Device(path) => PlanFault::Device(path),
            WantedFault::Memory => PlanFault::Memory,
        }
    }
}

impl From<FinishFault> for PlanFault {
    ghost from_gives = { λ fault e. e ≡ of_finish fault };

    fn from(fault: FinishFault) -> PlanFault {
        match fault {
            FinishFault::Memory => PlanFault::Memory,
            fault => PlanFault::Finish(fault),
        }
    }
}
