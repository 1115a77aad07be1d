//! Reading a manifest list.

ghost use Rattle.std.specs.Prelude.{◌≡◌, ◌≤◌, ◌++◌, [], ◌∷◌, true, pos, length, option_map, OnOk, IfOk};
ghost use Rattle.std.specs.List.Sorted.{IsStrictlySortedBy};
ghost use Rattle.contract_words.specs.Outcome.{Gives};
ghost use Rattle.avro_file.specs.Files.{ahead, type_of};
ghost use Rattle.avro_file_picked.specs.Finding.{layout_tree, field_paths_of, is_structure};
ghost use Rattle.avro_file_picked.specs.Placing.{IsLayout};
ghost use Rattle.ice_manifest_fields.specs.Fields.{at, there};
ghost use Rattle.ice_manifest_fields.specs.Naming.{in_list, told};
ghost use Rattle.ice_manifest_fields.specs.Schemas.{fields_in};
ghost use Rattle.ice_manifest_layouts.specs.RowsFound.{row_seen, row_field_paths, IsRow};
ghost use Rattle.ice_manifest_reading.specs.Lists.{rows_of, row_of as row_said, row_content as content_in};
ghost use Rattle.ice_manifest_reading.specs.Lists.{content_at as content_said, counts_at as counts_said};
ghost use Rattle.ice_manifest_reading.specs.Lists.{summaries_in};
ghost use Rattle.ice_manifest_reading.specs.Lists.{rows_ahead, path_twice as twice_in, in_order as ordered};
ghost use Rattle.ice_manifest_reading.specs.Lists.{checked as checked_in, path_order};
ghost use Rattle.ice_manifest_reading.specs.Gathering.{AreSame, Gathers};

use crate::counts::Counts;
use crate::row::{LentRow, ManifestContent, Row, kept_summaries};
use crate::summaries::summaries_in_list;
use avro_file::{Container, Objects};
use avro_file_picked::Layout;
use contract_words::{Items, Text};
use ice_manifest_fields::{FieldFault, ListFault, check_row_fields, fields_of};
use ice_manifest_layouts::{FoundRow, RowField, row_layout};
use ice_value::Summary;
use std::alloc::{AllocError, Global};

fn row_content(code: i32) -> Result<ManifestContent, FieldFault>
    ensures { result ≡ content_in code }
{
    match code {
        0 => Ok(ManifestContent::Data),
        1 => Ok(ManifestContent::Deletes),
        _ => Err(FieldFault::BadContent),
    }
}

#[tactic(auto, unfolding(crate::specs::Lists::content_at))]
fn content_at(row: &FoundRow) -> Result<ManifestContent, FieldFault>
    requires { IsRow row.now }
    ensures { result ≡ content_said (row_seen row.now) }
{
    row_content(row.int_or_zero(RowField::Content)?)
}

#[tactic(auto, unfolding(crate::specs::Lists::counts_at))]
fn counts_at(row: &FoundRow) -> Result<Counts, FieldFault>
    requires { IsRow row.now }
    ensures { result ≡ counts_said (row_seen row.now) }
{
    Ok(Counts {
        added_files: row.optional_int(RowField::AddedFiles)?,
        existing_files: row.optional_int(RowField::ExistingFiles)?,
        deleted_files: row.optional_int(RowField::DeletedFiles)?,
        added_rows: row.optional_long(RowField::AddedRows),
        existing_rows: row.optional_long(RowField::ExistingRows),
        deleted_rows: row.optional_long(RowField::DeletedRows),
    })
}

/// The summaries of the row's partition fields, read one by one where they lie; none where the row does not say them.
fn partitions_at(alloc: Global, row: &FoundRow) -> Result<Option<Items<Summary>>, ListFault>
    requires { IsRow row.now }
    ensures { Gives ListFault.Memory (λ x. x) result
        (told in_list (summaries_in (there (at (pos 507) (row_seen row.now))))) }
{
    let Some(found) = row.found(RowField::Partitions) else {
        return Ok(None);
    };
    let guide = row.items_guide(RowField::Partitions);
    Ok(Some(summaries_in_list(alloc, found, guide)?))
}

/// The row that an object says.
#[tactic(auto, unfolding(crate::specs::Lists::row_of))]
fn row_of<'d>(alloc: Global, row: &FoundRow<'_, '_, 'd>) -> Result<LentRow<'d>, ListFault>
    requires { IsRow row.now }
    ensures { Gives ListFault.Memory (λ x. x) result (told in_list (row_said (row_seen row.now))) }
{
    Ok(LentRow {
        path: row.path(RowField::Path)?,
        length: row.long(RowField::Length)?,
        spec_id: row.int(RowField::SpecId)?,
        content: content_at(row)?,
        sequence_number: row.number_or_zero(RowField::SequenceNumber)?,
        min_sequence_number: row.number_or_zero(RowField::MinSequenceNumber)?,
        added_snapshot_id: row.long(RowField::AddedSnapshotId)?,
        counts: counts_at(row)?.kept(alloc)?,
        partitions: kept_summaries(alloc, partitions_at(alloc, row)?)?,
    })
}

/// How many rows a list may have.
const MOST_ROWS: usize = 65536;

/// Puts a row behind the others. Where these have doubled since they were put in order, they are put in order again,
/// equal ones once: so a list of many equal rows takes the memory of few.
fn put_row<'d>(
    rows: &mut Vec<LentRow<'d>>,
    ordered: &mut usize,
    row: LentRow<'d>,
) -> Result<(), AllocError>
    ensures { OnOk result (AreSame (rows.old.items ++ row.entry ∷ []) rows.new.items) }
{
    rows.push(row)?;
    if rows.len() / 2 <= *ordered {
        return Ok(());
    }
    put_in_order(rows)?;
    *ordered = rows.len().max(MOST_ROWS / 2);
    Ok(())
}

/// The rows of all objects that are to come, which are records. Equal ones may be there once.
fn all_rows<'s, 'd>(
    alloc: Global,
    layout: &Layout<'s>,
    mut reader: Objects<'s, 'd>,
) -> Result<Vec<LentRow<'d>>, ListFault>
    requires layout { IsLayout layout.now }
    requires field_paths { field_paths_of layout.now ≡ row_field_paths }
    requires schema { layout_tree layout.now ≡ type_of reader }
    requires records { is_structure (layout_tree layout.now) ≡ true }
    ensures { Gathers (λ rows. rows.items) result
        (rows_ahead (fields_in (layout_tree layout.now)) (ahead reader.entry)) }
{
    let mut places = layout.places(alloc)?;
    let mut rows = Vec::new(alloc);
    let mut ordered = MOST_ROWS / 2;
    'objects: while let Some(object) = layout.next_placed(&mut reader, &mut places)? {
        let row = FoundRow {
            layout,
            places: &places,
            object,
        };
        put_row(&mut rows, &mut ordered, row_of(alloc, &row)?)?;
    }
    Ok(rows)
}

/// Puts the rows in the order of their paths, equal ones once.
fn put_in_order(rows: &mut Vec<LentRow<'_>>) -> Result<(), AllocError>
    ensures { OnOk result (rows.new.items ≡ ordered rows.old.items) }
{
    rows.sort_by(|a, b| a.path().as_bytes().cmp(b.path().as_bytes()))?;
    rows.dedup();
    Ok(())
}

/// The path of two rows of which one stands right behind the other.
fn path_twice<'d>(rows: &[LentRow<'d>]) -> Option<&'d str>
    ensures { option_map (λ path. path.now) result ≡ twice_in rows.now }
{
    let (first, others) = rows.split_first()?;
    let mut last = first;
    'rows: for row in others {
        if row.path() == last.path() {
            return Some(row.path());
        }
        last = row;
    }
    None
}

/// The rows, with copies of their paths.
fn owned(alloc: Global, rows: Vec<LentRow<'_>>) -> Result<Vec<Row>, AllocError>
    ensures { IfOk result (λ owned. owned.items ≡ rows.entry.items) }
{
    let mut owned = Vec::with_capacity(alloc, rows.len())?;
    'rows: for row in rows {
        owned.push(row.owned(alloc)?)?;
    }
    Ok(owned)
}

/// The rows, where no path is there twice and there are not too many.
fn checked(alloc: Global, rows: Vec<LentRow<'_>>) -> Result<Vec<Row>, ListFault>
    ensures { Gives ListFault.Memory (λ rows. rows.items) result (checked_in rows.entry.items) }
{
    if let Some(path) = path_twice(&rows) {
        let path = String::from_str(alloc, path)?;
        return Err(ListFault::ManifestTwice(Text::from_string(path)));
    }
    if rows.len() <= MOST_ROWS {
        Ok(owned(alloc, rows)?)
    } else {
        Err(ListFault::TooManyRows)
    }
}

/// The rows of a manifest list, each once, sorted by the bytes of their paths. Two rows are the same where all fields
/// that are read are equal.
///
/// The fault is the first of these: the file's as it is opened; that of the first field that the schema lacks or has
/// with another type; row by row the file's, or that of the row's first field at fault; after all rows
/// `ManifestTwice`, for the least path that two different rows have, and then `TooManyRows`.
#[tactic(auto, unfolding(crate::specs::Lists::rows_of))]
pub fn read_list(alloc: Global, bytes: &[u8]) -> Result<Vec<Row>, ListFault>
    ensures exact { Gives ListFault.Memory (λ rows. rows.items) result (rows_of bytes.now) }
    // So no two rows have one path.
    ensures distinct { IfOk result (λ rows. IsStrictlySortedBy path_order rows.items) }
    ensures few { IfOk result (λ rows. length rows.items ≤ 65536) }
{
    let container = Container::open(alloc, bytes)?;
    let schema = container.schema();
    check_row_fields(fields_of(schema))?;
    let layout = row_layout(alloc, schema)?;
    let mut rows = all_rows(alloc, &layout, container.objects())?;
    put_in_order(&mut rows)?;
    checked(alloc, rows)
}
