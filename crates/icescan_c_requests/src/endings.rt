//! How calls end.

ghost use Rattle.std.specs.Prelude.{◌≡◌};
ghost use Rattle.icescan_c_requests.specs.Statuses.{status_of};
ghost use Rattle.icescan_c_requests.specs.declared.endings.Refusal.TheVariants as refusal;

use std::alloc::AllocError;

/// Why a call did not do what it was asked.
#[derive(Drop)]
pub enum Refusal {
    /// What was handed in is refused. This is the status with which the program ends then.
    Fault(u8),
    /// Memory ran out.
    Memory,
    /// The handle holds nothing of the kind that the call is for.
    Kind,
    /// There is no such number.
    PastEnd,
    /// A text is no UTF-8.
    Encoding,
    /// The states are of two scans.
    OtherScan,
}

impl From<AllocError> for Refusal {
    ghost from_gives = { λ _ e. e ≡ refusal.Memory };

    fn from(_e: AllocError) -> Refusal {
        Refusal::Memory
    }
}

/// The number by which C is told how a call ended.
pub fn status(ended: Result<(), Refusal>) -> u32
    ensures { result ≡ status_of ended }
{
    match ended {
        Ok(()) => 0,
        Err(Refusal::Fault(status)) => status as u32,
        Err(Refusal::Memory) => 5,
        Err(Refusal::Kind) => 6,
        Err(Refusal::PastEnd) => 7,
        Err(Refusal::Encoding) => 8,
        Err(Refusal::OtherScan) => 9,
    }
}
