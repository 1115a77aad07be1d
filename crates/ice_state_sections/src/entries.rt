//! Entries, as they are read.

ghost use Rattle.std.specs.Prelude.{[]};
ghost use Rattle.contract_words.specs.Outcome.{Gives};
ghost use Rattle.avro_file_parts.specs.Exact.{IsRead};
ghost use Rattle.ice_state_sections.specs.Parts.{optional, behind};
ghost use Rattle.ice_state_sections.specs.Entries.{seen, snapshot, sequence, entry_behind, entry as entry_said};
ghost use Rattle.ice_state_sections.specs.Entries.{entries as entries_said};

use crate::before::Before;
use crate::file::file_of;
use crate::fits::fits;
use crate::parts::{long_of, number_of, truth_of};
use crate::section_fault::SectionFault;
use ice_manifest_reading::{Entry, Row};
use ice_meta::Spec;
use ice_value::SequenceNumber;
use std::alloc::Global;

/// The snapshot that is known, or another.
#[tactic(auto, unfolding(crate::specs::Entries::snapshot))]
fn snapshot_of(same: i64, bytes: &[u8]) -> Result<(i64, &[u8]), SectionFault>
    ensures { IsRead (λ x. (x.0, x.1.now)) result (snapshot same bytes.now) }
{
    let (is_other, rest) = truth_of(bytes)?;
    if is_other {
        long_of(rest)
    } else {
        Ok((same, rest))
    }
}

#[tactic(auto, unfolding(crate::specs::Entries::sequence))]
fn sequence_of(bytes: &[u8]) -> Result<(SequenceNumber, &[u8]), SectionFault>
    ensures { IsRead (λ x. (x.0, x.1.now)) result (sequence bytes.now) }
{
    let (number, rest) = number_of(bytes)?;
    match SequenceNumber::new(number) {
        Some(number) => Ok((number, rest)),
        None => Err(SectionFault::NoSection),
    }
}

fn added_of(bytes: &[u8]) -> Result<(Option<SequenceNumber>, &[u8]), SectionFault>
    ensures { IsRead (λ x. (x.0, x.1.now)) result (optional sequence bytes.now) }
{
    let (is_there, rest) = truth_of(bytes)?;
    if !is_there {
        return Ok((None, rest));
    }
    match sequence_of(rest) {
        Ok((number, rest)) => Ok((Some(number), rest)),
        Err(fault) => Err(fault),
    }
}

/// An entry of a row, behind one of which this is known.
#[tactic(auto, unfolding(crate::specs::Entries::entry_behind))]
fn entry_of<'a>(
    alloc: Global,
    row: &Row,
    spec: &Spec,
    before: Before<'_>,
    bytes: &'a [u8],
) -> Result<(Entry, &'a [u8]), SectionFault>
    ensures { Gives SectionFault.Memory (λ x. (x.0, x.1.now)) result
        (entry_behind row.now spec.now (seen before.entry) bytes.now) }
{
    let (position, rest) = number_of(bytes)?;
    let (snapshot_id, rest) = snapshot_of(before.snapshot_id, rest)?;
    match sequence_of(rest) {
        Ok((sequence_number, rest)) => match added_of(rest) {
            Ok((file_sequence_number, rest)) => {
                let values = spec.fields.as_slice().len();
                let (file, rest) = file_of(alloc, values, before.path, rest)?;
                let entry = Entry {
                    position,
                    spec_id: row.spec_id,
                    unpartitioned: spec.is_unpartitioned(),
                    snapshot_id,
                    sequence_number,
                    file_sequence_number,
                    file,
                };
                if !fits(row, spec, before, &entry.lent()) {
                    return Err(SectionFault::NotOfRow);
                }
                Ok((entry, rest))
            }
            Err(fault) => Err(fault),
        },
        Err(fault) => Err(fault),
    }
}

/// So many entries of a row.
fn entries_of_count<'a>(
    alloc: Global,
    row: &Row,
    spec: &Spec,
    count: u64,
    bytes: &'a [u8],
) -> Result<(Vec<Entry>, &'a [u8]), SectionFault>
    ensures { Gives SectionFault.Memory (λ x. (x.0.items, x.1.now)) result
        (behind (entry_said row.now spec.now) count [] bytes.now) }
{
    let mut entries = Vec::new(alloc);
    let mut rest = bytes;
    'entries: for _ in 0..count {
        let before = Before::behind(row, entries.as_slice());
        match entry_of(alloc, row, spec, before, rest) {
            Ok((entry, after)) => {
                entries.push(entry)?;
                rest = after;
            }
            Err(fault) => return Err(fault),
        }
    }
    Ok((entries, rest))
}

/// How many entries, and these.
#[tactic(auto, unfolding(crate::specs::Entries::entries))]
pub(crate) fn entries_of<'a>(
    alloc: Global,
    row: &Row,
    spec: &Spec,
    bytes: &'a [u8],
) -> Result<(Vec<Entry>, &'a [u8]), SectionFault>
    ensures { Gives SectionFault.Memory (λ x. (x.0.items, x.1.now)) result
        (entries_said row.now spec.now bytes.now) }
{
    let (count, rest) = number_of(bytes)?;
    entries_of_count(alloc, row, spec, count, rest)
}
