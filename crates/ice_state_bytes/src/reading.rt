//! States that are read.

ghost use Rattle.std.specs.Prelude.{◌≡◌, ◌<◌, length, map, Ok, IfOk};
ghost use Rattle.contract_words.specs.Outcome.{Gives};
ghost use Rattle.ice_state.specs.Contents.{IsOf};
ghost use Rattle.ice_state_envelopes.specs.Envelopes.{Rise, shown};
ghost use Rattle.ice_state_bytes.specs.declared.fault.StateFault.TheVariants.{Memory};
ghost use Rattle.ice_state_bytes.specs.OfScans.{IsOfScan};
ghost use Rattle.ice_state_bytes.specs.States.{nothing, state_at, with_section, with_sections};

use crate::fault::StateFault;
use ice_state::{Partial, Scan};
use ice_state_envelopes::{Envelope, Section};
use ice_state_sections::section_of;
use std::alloc::Global;

/// Takes the row of a section, with what the section says.
fn put_section(
    alloc: Global,
    scan: &Scan,
    state: &mut Partial,
    section: &Section<'_>,
) -> Result<(), StateFault>
    requires of_scan { IsOf scan.now state.old }
    requires row { section.now.row < length scan.now.wanted }

    ensures of_scan { IsOf scan.now state.new }
    ensures honest { IsOfScan scan.now state.old → IsOfScan scan.now state.new }
    ensures exact { Gives Memory (λ _. state.new) result (with_section scan.now state.old (shown section.now)) }
{
    let i = section.row as usize;
    match section_of(alloc, &scan.wanted()[i], scan.spec(i), section.body)? {
        Ok(entries) => state.put_entries(i, &entries)?,
        Err(fault) => state.put_fault(i, fault),
    }
    Ok(())
}

/// The state that has the rows of these sections.
fn state_of_sections(
    alloc: Global,
    scan: &Scan,
    sections: &[Section<'_>],
) -> Result<Partial, StateFault>
    requires { Rise 0 (length scan.now.wanted) (map shown sections.now) }

    ensures of_scan { IfOk result (IsOf scan.now) }
    ensures honest { IfOk result (IsOfScan scan.now) }
    ensures exact { Gives Memory (λ state. state) result
        (with_sections scan.now (nothing scan.now) (map shown sections.now)) }
{
    let mut state = Partial::empty(alloc, scan)?;
    'sections: for section in sections {
        put_section(alloc, scan, &mut state, section)?;
    }
    Ok(state)
}

/// The state that these bytes are, of the scan that has this name; or why they are none. Any bytes may be read.
pub fn state_of_bytes(
    alloc: Global,
    scan: &Scan,
    name: &[u8; 32],
    bytes: &[u8],
) -> Result<Partial, StateFault>
    ensures of_scan { IfOk result (IsOf scan.now) }
    ensures honest { IfOk result (IsOfScan scan.now) }
    ensures exact { Gives Memory (λ state. state) result (state_at scan.now name.now bytes.now) }
{
    let envelope = Envelope::open(alloc, bytes)?;
    if envelope.scan().as_slice() != name.as_slice()
        || envelope.rows() != scan.wanted().len() as u64
    {
        return Err(StateFault::OtherScan);
    }
    state_of_sections(alloc, scan, envelope.sections())
}
