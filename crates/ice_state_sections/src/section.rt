//! Sections, as they are read and written.

ghost use Rattle.std.specs.Prelude.{◌≡◌, ◌≢◌, map, Ok, Err, IfErr, IfOk};
ghost use Rattle.std.specs.List.{AllByRecursion};
ghost use Rattle.contract_words.specs.Outcome.{Gives};
ghost use Rattle.ice_manifest_reading.specs.Lending.{lent};
ghost use Rattle.ice_manifest_reading.specs.declared.row.Row.{Row};
ghost use Rattle.ice_meta.specs.declared.spec.Spec.{Spec};
ghost use Rattle.ice_state_sections.specs.declared.section_fault.SectionFault.TheVariants.{NotOfRow, Memory};
ghost use Rattle.ice_state_sections.specs.Entries.{AreOfRow, HasShortPaths};
ghost use Rattle.ice_state_sections.specs.Sections.{section_at, found};

use crate::adding::add_number;
use crate::entries::entries_of;
use crate::entry_writing::add_entries;
use crate::fault_writing::add_fault;
use crate::faults::fault_of;
use crate::parts::number_of;
use crate::section_fault::SectionFault;
use ice_manifest_reading::{Entry, LentEntry, ManifestFault, Row};
use ice_meta::Spec;
use std::alloc::{AllocError, Global};

/// What a section says that its row gave.
#[tactic(auto, unfolding(crate::specs::Sections::section_at))]
fn section_in(
    alloc: Global,
    row: &Row,
    spec: &Spec,
    bytes: &[u8],
) -> Result<Result<Vec<Entry>, ManifestFault>, SectionFault>
    ensures { Gives SectionFault.Memory found result (section_at row.now spec.now bytes.now) }
{
    let (kind, rest) = number_of(bytes)?;
    match kind {
        0 => match entries_of(alloc, row, spec, rest) {
            Ok((entries, rest)) => {
                if !rest.is_empty() {
                    return Err(SectionFault::NoSection);
                }
                Ok(Ok(entries))
            }
            Err(fault) => Err(fault),
        },
        1 => {
            let (fault, rest) = fault_of(alloc, rest)?;
            if !rest.is_empty() {
                return Err(SectionFault::NoSection);
            }
            Ok(Err(fault))
        }
        _ => Err(SectionFault::NoSection),
    }
}

/// What a row of this spec gave, by its section: its kept entries, or its manifest's fault.
pub fn section_of(
    alloc: Global,
    row: &Row,
    spec: &Spec,
    bytes: &[u8],
) -> Result<Result<Vec<Entry>, ManifestFault>, SectionFault>
    ensures found { Gives SectionFault.Memory found result (section_at row.now spec.now bytes.now) }
    ensures of_row { IfOk result (λ given. IfOk given (λ entries. AreOfRow row.now spec.now entries.items)) }
    ensures short { IfOk result (λ given. IfOk given (λ entries. AllByRecursion HasShortPaths entries.items)) }
{
    section_in(alloc, row, spec, bytes)
}

/// The section of a row that kept these entries. Entries that the row's manifest can't have are not written.
pub fn good_section(
    alloc: Global,
    row: &Row,
    spec: &Spec,
    entries: &[LentEntry<'_>],
) -> Result<Vec<u8>, SectionFault>
    ensures ok { IfOk result (λ bytes. section_at row.now spec.now bytes.items ≡ Ok (Ok (map lent entries.now))) }
    ensures err { IfErr result (λ e. e ≢ Memory →
        (e ≡ NotOfRow) × ¬ AreOfRow row.now spec.now (map lent entries.now)) }
{
    let bytes = add_number(Vec::new(alloc), 0)?;
    Ok(add_entries(bytes, row, spec, entries)?)
}

/// The section of a row whose manifest has this fault. Want of memory is not written: it is refused for want of memory.
pub fn bad_section(alloc: Global, fault: &ManifestFault) -> Result<Vec<u8>, AllocError>
    ensures { IfOk result (λ bytes. (row : Row) (spec : Spec) →
        section_at row spec bytes.items ≡ Ok (Err fault.now)) }
{
    let bytes = add_number(Vec::new(alloc), 1)?;
    Ok(add_fault(bytes, fault)?)
}
