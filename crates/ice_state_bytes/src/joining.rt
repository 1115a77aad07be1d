//! States that are joined as bytes.

ghost use Rattle.std.specs.Prelude.{◌≡◌, ℕ, List, Ok, IfErr, IfOk};
ghost use Rattle.ice_state.specs.Contents.{Content};
ghost use Rattle.ice_state.specs.Scans.{Scanned};
ghost use Rattle.ice_state_bytes.specs.declared.fault.StateFault.TheVariants.{Memory};
ghost use Rattle.ice_state_bytes.specs.States.{Joins, state_at};

use crate::fault::StateFault;
use ice_state_envelopes::Envelope;
use std::alloc::Global;

/// Bytes that are the union of two states of one scan: of a row that both took, what the first has. No scan has to be
/// known, and what the states say of their rows is not looked at. States of two scans are not joined.
pub fn joined_bytes(alloc: Global, one: &[u8], other: &[u8]) -> Result<Vec<u8>, StateFault>
    ensures joined { IfOk result (λ both. Joins one.now other.now both.items) }
    ensures refused { (scan : Scanned) (name : List ℕ) (c d : Content) →
        state_at scan name one.now ≡ Ok c → state_at scan name other.now ≡ Ok d →
        IfErr result (λ fault. fault ≡ Memory) }
{
    let one = Envelope::open(alloc, one)?;
    let other = Envelope::open(alloc, other)?;
    let both = one.join(alloc, &other)?;
    Ok(both.to_bytes(alloc)?)
}
