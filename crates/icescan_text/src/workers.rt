//! How many workers read.

ghost use Rattle.std.specs.Prelude.{◌≡◌, ◌⊎◌, ◌<◌, ◌≤◌, IfErr, IfOk};

use crate::fault::RunFault;
use ice_desk::MOST_WORKERS;

/// How many workers read, from 1 to 64.
#[derive(Clone, Copy, Debug, PartialEq, Eq)]
pub struct Workers {
    count: usize,
    ghost some: { 0 < count },
    ghost few: { count ≤ 64 },
}

impl Workers {
    /// So many workers. The refusal is `Workers` where there are to be none, or more than 64, and there is no other.
    pub fn of(number: usize) -> Result<Workers, RunFault>
        ensures given { IfOk result (λ workers. (workers.count ≡ number) × (0 < number) × (number ≤ 64)) }
        ensures refused { IfErr result (λ fault. (fault ≡ RunFault.Workers) × ((number ≡ 0) ⊎ (64 < number))) }
    {
        if number == 0 || number > MOST_WORKERS {
            return Err(RunFault::Workers);
        }
        Ok(Workers { count: number })
    }

    /// How many they are.
    pub fn count(self) -> usize
        ensures same { result ≡ self.count }
        ensures some { 0 < result }
        ensures few { result ≤ 64 }
    {
        self.count
    }
}
