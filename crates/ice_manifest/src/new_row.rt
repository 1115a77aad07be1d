//! The row of a manifest that a commit adds.

ghost use Rattle.std.specs.Prelude.{◌≡◌, ◌≤◌, ◌^◌, ◌+◌, ◌+ℤ◌, ℕ, pos, map, length, true, not, Option, Some, IfOk};
ghost use Rattle.std.specs.Prelude.{unwrap_or};
ghost use Rattle.std.specs.List.{AllByRecursion, list_any, slice_get};
ghost use Rattle.std.specs.Option.{option_copied, is_some};
ghost use Rattle.ice_value.specs.declared.cell.Cell.TheVariants.{Null};
ghost use Rattle.ice_manifest.specs.declared.new_file.NewFile.{NewFile as FileValue};
ghost use Rattle.ice_manifest.specs.Adding.{AreNewFiles, IsAmount, lent};
ghost use Rattle.ice_manifest.specs.NewRows.{is_null as null_cell, lesser as lesser_of, greater as greater_of};
ghost use Rattle.ice_manifest.specs.NewRows.{unless_null, least as least_value, greatest as greatest_value};
ghost use Rattle.ice_manifest.specs.NewRows.{bound_of as bound_for, summary_of as summary_with, cell_at as cell_in};
ghost use Rattle.ice_manifest.specs.NewRows.{column_of, summaries_from, records_in as records_within};
ghost use Rattle.ice_manifest.specs.NewRows.{new_counts as counts_of, new_row, has_uuid, some_uuid, summaries};

use crate::heading::Heading;
use crate::new_file::NewFile;
use contract_words::{Items, Text};
use ice_manifest_reading::{Counts, Row};
use ice_value::{Cell, ColumnType, SequenceNumber, Summary, write_bound};
use std::alloc::{AllocError, Global};

/// The value at a place of a file's tuple; None where it is null.
fn value_at<'a>(file: &'a NewFile, place: usize) -> Option<&'a Cell>
    ensures same { unwrap_or (option_copied result) Null ≡ cell_in place file.now.tuple }
    ensures value { is_some result ≡ not (null_cell (cell_in place file.now.tuple)) }
{
    match file.tuple.as_slice().get(place) {
        Some(Cell::Null) => None,
        value => value,
    }
}

/// Whether a value at the place is null.
fn has_null(files: &[&NewFile], place: usize) -> bool
    ensures { result ≡ list_any null_cell (column_of place (lent files.now)) }
{
    'files: for file in files {
        if value_at(file, place).is_none() {
            return true;
        }
    }
    false
}

fn lesser<'a>(found: Option<&'a Cell>, value: &'a Cell) -> Option<&'a Cell>
    ensures { option_copied result ≡ lesser_of (option_copied found.entry) value.now }
{
    match found {
        None => Some(value),
        Some(other) => {
            if value.cmp(other).is_lt() {
                Some(value)
            } else {
                Some(other)
            }
        }
    }
}

fn greater<'a>(found: Option<&'a Cell>, value: &'a Cell) -> Option<&'a Cell>
    ensures { option_copied result ≡ greater_of (option_copied found.entry) value.now }
{
    match found {
        None => Some(value),
        Some(other) => {
            if other.cmp(value).is_lt() {
                Some(value)
            } else {
                Some(other)
            }
        }
    }
}

fn lesser_at<'a>(found: Option<&'a Cell>, file: &'a NewFile, place: usize) -> Option<&'a Cell>
    ensures { option_copied result ≡ unless_null lesser_of (option_copied found.entry) (cell_in place file.now.tuple) }
{
    match value_at(file, place) {
        Some(value) => lesser(found, value),
        None => found,
    }
}

fn greater_at<'a>(found: Option<&'a Cell>, file: &'a NewFile, place: usize) -> Option<&'a Cell>
    ensures { option_copied result ≡ unless_null greater_of (option_copied found.entry) (cell_in place file.now.tuple) }
{
    match value_at(file, place) {
        Some(value) => greater(found, value),
        None => found,
    }
}

/// The least value at the place; None where all are null.
fn least<'a>(files: &[&'a NewFile], place: usize) -> Option<&'a Cell>
    ensures { option_copied result ≡ least_value (column_of place (lent files.now)) }
{
    let mut found = None;
    'files: for file in files {
        found = lesser_at(found, file, place);
    }
    found
}

/// The greatest value at the place; None where all are null.
fn greatest<'a>(files: &[&'a NewFile], place: usize) -> Option<&'a Cell>
    ensures { option_copied result ≡ greatest_value (column_of place (lent files.now)) }
{
    let mut found = None;
    'files: for file in files {
        found = greater_at(found, file, place);
    }
    found
}

/// The value as a bound of a field of this type.
fn bound_of(
    alloc: Global,
    column_type: &ColumnType,
    value: Option<&Cell>,
) -> Result<Option<Items<u8>>, AllocError>
    ensures { IfOk result (λ bound. bound ≡ bound_for column_type.now (option_copied value.entry)) }
{
    match (column_type, value) {
        (ColumnType::Uuid, _) | (_, None) => Ok(None),
        (_, Some(value)) => write_bound(alloc, column_type, value),
    }
}

/// The summary of the values at the place, which are of this type.
fn summary_of(
    alloc: Global,
    column_type: &ColumnType,
    place: usize,
    files: &[&NewFile],
) -> Result<Summary, AllocError>
    ensures { IfOk result (λ summary. summary ≡ summary_with column_type.now (column_of place (lent files.now))) }
{
    let contains_null = has_null(files, place);
    let lower = bound_of(alloc, column_type, least(files, place))?;
    let upper = bound_of(alloc, column_type, greatest(files, place))?;
    Summary::new(
        alloc,
        contains_null,
        None,
        lower.as_ref().map(Items::as_slice),
        upper.as_ref().map(Items::as_slice),
    )
}

/// Whether a value at the place is not null.
fn has_value(files: &[&NewFile], place: usize) -> bool
    ensures { result ≡ list_any (λ c. not (null_cell c)) (column_of place (lent files.now)) }
{
    'files: for file in files {
        if value_at(file, place).is_some() {
            return true;
        }
    }
    false
}

/// Whether a uuid that is not null stands at the place, where values are of this type.
fn has_uuid(column_type: &ColumnType, place: usize, files: &[&NewFile]) -> bool
    ensures { result ≡ has_uuid column_type.now (column_of place (lent files.now)) }
{
    match column_type {
        ColumnType::Uuid => has_value(files, place),
        _ => false,
    }
}

/// Whether one does at some place.
fn some_uuid(types: &[ColumnType], files: &[&NewFile]) -> bool
    ensures { result ≡ some_uuid 0 types.now (lent files.now) }
{
    'types: for place in 0..types.len() {
        if has_uuid(&types[place], place, files) {
            return true;
        }
    }
    false
}

/// The summaries of all fields; a uuid among their values has no bounds, and then there are none.
fn summaries_unless_uuid(
    alloc: Global,
    types: &[ColumnType],
    files: &[&NewFile],
) -> Result<Option<Items<Summary>>, AllocError>
    ensures { IfOk result (λ found. found ≡ summaries types.now (lent files.now)) }
{
    if some_uuid(types, files) {
        return Ok(None);
    }
    Ok(Some(summaries_of(alloc, types, files)?))
}

fn summaries_of(
    alloc: Global,
    types: &[ColumnType],
    files: &[&NewFile],
) -> Result<Items<Summary>, AllocError>
    ensures { IfOk result (λ summaries. summaries ≡ summaries_from 0 types.now (lent files.now)) }
{
    let mut summaries = Items::new(alloc);
    'types: for place in 0..types.len() {
        summaries.push(summary_of(alloc, &types[place], place, files)?)?;
    }
    Ok(summaries)
}

/// The records so far and those of one more file.
fn with_records(records: u64, file: &NewFile) -> u64
    requires room { records ≤ 2 ^ 62 }
    requires amount { IsAmount file.now.record_count }
    ensures sum { pos result ≡ pos records +ℤ file.now.record_count }
    ensures few { result ≤ records + 2 ^ 40 }
{
    records + file.record_count as u64
}

/// The records of all files.
fn records_in(files: &[&NewFile]) -> i64
    requires amounts { AllByRecursion (λ (f : FileValue). IsAmount f.record_count) (lent files.now) }
    requires few { length (lent files.now) ≤ 1000000 }
    ensures { result ≡ records_within (lent files.now) }
{
    let mut records = 0u64;
    'files: for file in files {
        records = with_records(records, file);
    }
    records as i64
}

fn new_counts(files: &[&NewFile]) -> Counts
    requires amounts { AllByRecursion (λ (f : FileValue). IsAmount f.record_count) (lent files.now) }
    requires few { length (lent files.now) ≤ 1000000 }
    ensures { result ≡ counts_of (lent files.now) }
{
    Counts {
        added_files: Some(files.len() as i32),
        existing_files: Some(0),
        deleted_files: Some(0),
        added_rows: Some(records_in(files)),
        existing_rows: Some(0),
        deleted_rows: Some(0),
    }
}

impl Heading {
    /// The row of a new manifest of these files under this heading, which lies at this path, has so many bytes, and is
    /// added by a commit of this sequence number.
    #[tactic(auto, unfolding(crate::specs::NewRows::new_row))]
    pub fn new_row(
        &self,
        alloc: Global,
        path: Text,
        length: i64,
        sequence_number: SequenceNumber,
        files: &[&NewFile],
    ) -> Result<Row, AllocError>
        requires { AreNewFiles self.now (lent files.now) }
        ensures { IfOk result (λ row. row ≡ new_row self.now path length sequence_number (lent files.now)) }
    {
        Ok(Row {
            path,
            length,
            spec_id: self.spec.id,
            content: self.content,
            sequence_number,
            min_sequence_number: sequence_number,
            added_snapshot_id: self.snapshot_id,
            counts: new_counts(files),
            partitions: summaries_unless_uuid(alloc, self.types.as_slice(), files)?,
        })
    }
}
