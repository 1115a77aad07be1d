//! Entries, put last.

ghost use Rattle.std.specs.Prelude.{◌≡◌, ◌≢◌, [], length, map, IfErr, IfOk, IsTrue};
ghost use Rattle.ice_manifest_reading.specs.Lending.{lent};
ghost use Rattle.ice_state_sections.specs.declared.section_fault.SectionFault.TheVariants.{NotOfRow, Memory};
ghost use Rattle.ice_state_sections.specs.Parts.{optional, behind};
ghost use Rattle.ice_state_sections.specs.Files.{file};
ghost use Rattle.ice_state_sections.specs.Entries.{seen, snapshot, sequence, entry_behind, entry as entry_said};
ghost use Rattle.ice_state_sections.specs.Entries.{entries as entries_said, fits as fits_said, AreOfRow};
ghost use Rattle.ice_state_sections.specs.Written.{Adds};

use crate::adding::{add_long, add_number, add_truth};
use crate::before::Before;
use crate::fits::fits;
use crate::section_fault::{Grown, SectionFault};
use crate::value_writing::{add_cells, add_content, add_format, add_ids, add_path, add_referenced};
use ice_manifest_reading::{LentEntry, Row};
use ice_meta::Spec;
use ice_value::SequenceNumber;
use std::alloc::AllocError;

/// Puts a snapshot last, where another is known.
fn add_snapshot(bytes: Vec<u8>, same: i64, snapshot_id: i64) -> Result<Vec<u8>, AllocError>
    ensures { IfOk result (λ all. Adds (snapshot same) snapshot_id bytes.items all.items) }
{
    if snapshot_id == same {
        return Ok(add_truth(bytes, false)?);
    }
    let bytes = add_truth(bytes, true)?;
    Ok(add_long(bytes, snapshot_id)?)
}

fn add_sequence(bytes: Vec<u8>, number: SequenceNumber) -> Result<Vec<u8>, AllocError>
    ensures { IfOk result (λ all. Adds sequence number bytes.items all.items) }
{
    let number = number.get();
    Ok(add_number(bytes, number)?)
}

fn add_added(bytes: Vec<u8>, number: Option<SequenceNumber>) -> Result<Vec<u8>, AllocError>
    ensures { IfOk result (λ all. Adds (optional sequence) number bytes.items all.items) }
{
    match number {
        None => Ok(add_truth(bytes, false)?),
        Some(number) => {
            let bytes = add_truth(bytes, true)?;
            Ok(add_sequence(bytes, number)?)
        }
    }
}

/// Puts the file of an entry last, where a path is known.
fn add_file(bytes: Vec<u8>, known: &[u8], entry: &LentEntry<'_>) -> Result<Vec<u8>, AllocError>
    ensures { IfOk result (λ all.
        Adds (file (length entry.now.tuple.now) known.now) (lent entry.now).file bytes.items all.items) }
{
    let bytes = add_content(bytes, entry.content)?;
    let bytes = add_format(bytes, entry.format)?;
    let bytes = add_path(bytes, known, entry.path)?;
    let bytes = add_cells(bytes, entry.tuple)?;
    let bytes = add_long(bytes, entry.record_count)?;
    let bytes = add_long(bytes, entry.file_size)?;
    let bytes = add_ids(bytes, entry.equality_ids)?;
    Ok(add_referenced(bytes, entry.path, entry.referenced)?)
}

/// Puts an entry last that the manifest of the row may have behind the one before.
fn add_entry(
    bytes: Vec<u8>,
    row: &Row,
    spec: &Spec,
    before: Before<'_>,
    entry: &LentEntry<'_>,
) -> Result<Vec<u8>, AllocError>
    requires { IsTrue (fits_said row.now spec.now (seen before) (lent entry.now)) }
    ensures { IfOk result (λ all.
        Adds (entry_behind row.now spec.now (seen before.entry)) (lent entry.now) bytes.items all.items) }
{
    let bytes = add_number(bytes, entry.position)?;
    let bytes = add_snapshot(bytes, before.snapshot_id, entry.snapshot_id)?;
    let bytes = add_sequence(bytes, entry.sequence_number)?;
    let bytes = add_added(bytes, entry.file_sequence_number)?;
    Ok(add_file(bytes, before.path, entry)?)
}

/// Puts entries last, if the manifest of the row may have them.
fn add_each(bytes: Vec<u8>, row: &Row, spec: &Spec, entries: &[LentEntry<'_>]) -> Grown
    ensures ok { IfOk result (λ all.
        Adds (behind (entry_said row.now spec.now) (length entries.now) []) (map lent entries.now)
        bytes.items all.items) }
    ensures err { IfErr result (λ e. e ≢ Memory →
        (e ≡ NotOfRow) × ¬ AreOfRow row.now spec.now (map lent entries.now)) }
{
    let mut bytes = bytes;
    'entries: for (index, entry) in entries.iter().enumerate() {
        let (front, _) = entries.split_at(index);
        let before = Before::behind_lent(row, front);
        if !fits(row, spec, before, entry) {
            return Err(SectionFault::NotOfRow);
        }
        bytes = add_entry(bytes, row, spec, before, entry)?;
    }
    Ok(bytes)
}

/// Puts entries last, and before them how many there are.
pub(crate) fn add_entries(
    bytes: Vec<u8>,
    row: &Row,
    spec: &Spec,
    entries: &[LentEntry<'_>],
) -> Grown
    ensures ok { IfOk result (λ all.
        Adds (entries_said row.now spec.now) (map lent entries.now) bytes.items all.items) }
    ensures err { IfErr result (λ e. e ≢ Memory →
        (e ≡ NotOfRow) × ¬ AreOfRow row.now spec.now (map lent entries.now)) }
{
    let bytes = add_number(bytes, entries.len() as u64)?;
    Ok(add_each(bytes, row, spec, entries)?)
}
