//! States that are written.

ghost use Rattle.std.specs.Prelude.{◌≡◌, ◌<◌, ◌⊎◌, length, Ok, IfErr, IfOk, slice_index_or, None};
ghost use Rattle.ice_state.specs.Contents.{IsOf};
ghost use Rattle.ice_state.specs.Handing.{handed};
ghost use Rattle.ice_state_envelopes.specs.Envelopes.{parts_at};
ghost use Rattle.ice_state_sections.specs.Sections.{section_at};
ghost use Rattle.ice_state_bytes.specs.declared.fault.StateFault.TheVariants.{Memory, NotOfScan};
ghost use Rattle.ice_state_bytes.specs.Bodies.{AreSaid, IsSaid, sections_of};
ghost use Rattle.ice_state_bytes.specs.Faults.{said};
ghost use Rattle.ice_state_bytes.specs.OfScans.{CouldGive, IsOfScan};
ghost use Rattle.ice_state_bytes.specs.States.{state_at};

use crate::fault::StateFault;
use contract_words::Items;
use ice_manifest_reading::Row;
use ice_meta::Spec;
use ice_state::{Given, Partial, Scan};
use ice_state_envelopes::Envelope;
use ice_state_sections::{bad_section, good_section};
use std::alloc::{AllocError, Global};

/// The body of a section that says what a row gave.
fn body_of_given(
    alloc: Global,
    row: &Row,
    spec: &Spec,
    given: &Given<'_>,
) -> Result<Vec<u8>, StateFault>
    ensures said { IfOk result (λ body. said (section_at row.now spec.now body.items) ≡ Ok (handed given.now)) }
    ensures causes { IfErr result (λ fault. (fault ≡ Memory) ⊎ (fault ≡ NotOfScan)) }
    ensures honest { CouldGive row.now spec.now (handed given.now) → IfErr result (λ fault. fault ≡ Memory) }
{
    match given {
        Given::Good(entries) => Ok(good_section(alloc, row, spec, entries)?),
        Given::Bad(fault) => Ok(bad_section(alloc, fault)?),
    }
}

/// The body of the section of the wanted row `i`, where it was taken.
fn body_of(
    alloc: Global,
    scan: &Scan,
    state: &Partial,
    i: usize,
) -> Result<Option<Items<u8>>, StateFault>
    requires { i < length scan.now.wanted }

    ensures said { IfOk result (IsSaid scan.now i (slice_index_or state.now i None)) }
    ensures causes { IfErr result (λ fault. (fault ≡ Memory) ⊎ (fault ≡ NotOfScan)) }
    ensures honest { IsOfScan scan.now state.now → IfErr result (λ fault. fault ≡ Memory) }
{
    match state.given(i) {
        Ok(Some(given)) => {
            let body = body_of_given(alloc, &scan.wanted()[i], scan.spec(i), &given)?;
            Ok(Some(Items::from_vec(body)))
        }
        Ok(None) => Ok(None),
        Err(_) => Err(StateFault::Memory),
    }
}

/// The bodies of all wanted rows.
fn bodies_of(
    alloc: Global,
    scan: &Scan,
    state: &Partial,
) -> Result<Vec<Option<Items<u8>>>, StateFault>
    requires { IsOf scan.now state.now }

    ensures said { IfOk result (λ bodies. AreSaid scan.now 0 state.now bodies.items) }
    ensures causes { IfErr result (λ fault. (fault ≡ Memory) ⊎ (fault ≡ NotOfScan)) }
    ensures honest { IsOfScan scan.now state.now → IfErr result (λ fault. fault ≡ Memory) }
{
    let mut bodies = Vec::with_capacity(alloc, scan.wanted().len())?;
    'rows: for i in 0..scan.wanted().len() {
        bodies.push(body_of(alloc, scan, state, i)?)?;
    }
    Ok(bodies)
}

/// The envelope of sections with these bodies, as bytes.
fn enveloped(
    alloc: Global,
    name: &[u8; 32],
    bodies: &[Option<Items<u8>>],
) -> Result<Vec<u8>, AllocError>
    ensures { IfOk result (λ bytes. parts_at bytes.items ≡ Ok (record {
      scan = name.now;
      rows = length bodies.now;
      sections = sections_of 0 bodies.now;
    })) }
{
    let mut envelope = Envelope::new(alloc, *name, bodies.len() as u64);
    'rows: for i in 0..bodies.len() {
        if let Some(body) = &bodies[i] {
            envelope.push(i as u64, body.as_slice())?;
        }
    }
    envelope.to_bytes(alloc)
}

/// Bytes that are this state of the scan that has this name. `NotOfScan` only where a row gave what no manifest of it
/// could give: never of what was taken from manifests, or read from bytes.
pub fn state_bytes(
    alloc: Global,
    scan: &Scan,
    name: &[u8; 32],
    state: &Partial,
) -> Result<Vec<u8>, StateFault>
    requires { IsOf scan.now state.now }

    ensures read { IfOk result (λ bytes. state_at scan.now name.now bytes.items ≡ Ok state.now) }
    ensures causes { IfErr result (λ fault. (fault ≡ Memory) ⊎ (fault ≡ NotOfScan)) }
    ensures honest { IsOfScan scan.now state.now → IfErr result (λ fault. fault ≡ Memory) }
{
    let bodies = bodies_of(alloc, scan, state)?;
    Ok(enveloped(alloc, name, &bodies)?)
}
