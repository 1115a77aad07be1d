//! Why the bytes of a state are refused.

ghost use Rattle.std.specs.Prelude.{◌≡◌, ◌⊎◌};
ghost use Rattle.icescan_shares.specs.Faults.{IsOfState};

use contract_words::Text;
use ice_state_bytes::StateFault;
use icescan_text::{RunFault, StateFlaw};
use std::alloc::Global;

/// The refusal of a state's file for its text; `Memory` where memory ran out.
fn refused_for(alloc: Global, path: &str, flaw: StateFlaw) -> RunFault
    ensures { (result ≡ RunFault.Memory) ⊎ (result ≡ RunFault.State path.now flaw) }
{
    match String::from_str(alloc, path) {
        Ok(path) => RunFault::State(Text::from_string(path), flaw),
        Err(_) => RunFault::Memory,
    }
}

/// The refusal of the state in the file at a path.
pub fn refusal_of(alloc: Global, path: &str, fault: StateFault) -> RunFault
    ensures { IsOfState path.now fault result }
{
    match fault {
        StateFault::NotAState => refused_for(alloc, path, StateFlaw::NotAState),
        StateFault::OtherVersion => refused_for(alloc, path, StateFlaw::OtherVersion),
        StateFault::Damaged => refused_for(alloc, path, StateFlaw::Damaged),
        StateFault::OtherScan => refused_for(alloc, path, StateFlaw::OtherScan),
        StateFault::NotOfScan => refused_for(alloc, path, StateFlaw::NotOfScan),
        StateFault::Memory => RunFault::Memory,
    }
}
