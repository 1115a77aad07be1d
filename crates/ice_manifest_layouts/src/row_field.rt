//! Which fields of a manifest list's rows are read.

ghost use Rattle.std.specs.Prelude.{◌≡◌, ◌++◌, IfOk};
ghost use Rattle.std.specs.Result.{IfErr};
ghost use Rattle.avro_schema.specs.View.{tree};
ghost use Rattle.avro_file_picked.specs.Finding.{layout_tree, field_paths_of};
ghost use Rattle.avro_file_picked.specs.Placing.{IsLayout};
ghost use Rattle.avro_file_picked.specs.Guides.{ids_in};
ghost use Rattle.ice_manifest_layouts.specs.RowsFound.{row_id, to_fields, row_field_paths, IsNumberOf};
ghost use Rattle.ice_manifest_layouts.specs.RowsFound.{row_field_paths as wanted_field_paths};

use avro_file::AvroFault;
use avro_file_picked::Layout;
use avro_schema::Schema;
use ice_manifest_values::push_field_path;
use std::alloc::{AllocError, Global};

/// The fields of the summaries of a row's partition fields. No field path leads to them from a row: they stand among what is
/// wanted so that a guide of the row, where the layout has one, keeps them in the summaries.
const SUMMARY_IDS: [i32; 4] = [509, 518, 510, 511];

/// A field of a manifest list's row.
#[derive(Clone, Copy, Debug, PartialEq, Eq)]
pub enum RowField {
    Path,
    Length,
    SpecId,
    AddedSnapshotId,
    AddedFiles,
    ExistingFiles,
    DeletedFiles,
    Partitions,
    AddedRows,
    ExistingRows,
    DeletedRows,
    SequenceNumber,
    MinSequenceNumber,
    Content,
}

impl RowField {
    /// The number that names the field in every schema.
    pub fn id(self) -> i32
        ensures { result ≡ row_id self }
    {
        match self {
            RowField::Path => 500,
            RowField::Length => 501,
            RowField::SpecId => 502,
            RowField::AddedSnapshotId => 503,
            RowField::AddedFiles => 504,
            RowField::ExistingFiles => 505,
            RowField::DeletedFiles => 506,
            RowField::Partitions => 507,
            RowField::AddedRows => 512,
            RowField::ExistingRows => 513,
            RowField::DeletedRows => 514,
            RowField::SequenceNumber => 515,
            RowField::MinSequenceNumber => 516,
            RowField::Content => 517,
        }
    }

    /// Its place among all that is read.
    pub(crate) fn number(self) -> usize
        ensures { IsNumberOf self result }
    {
        match self {
            RowField::Path => 0,
            RowField::Length => 1,
            RowField::SpecId => 2,
            RowField::AddedSnapshotId => 3,
            RowField::AddedFiles => 4,
            RowField::ExistingFiles => 5,
            RowField::DeletedFiles => 6,
            RowField::Partitions => 7,
            RowField::AddedRows => 8,
            RowField::ExistingRows => 9,
            RowField::DeletedRows => 10,
            RowField::SequenceNumber => 11,
            RowField::MinSequenceNumber => 12,
            RowField::Content => 13,
        }
    }
}

/// The field paths to fields of a row.
fn field_paths_to(alloc: Global, fields: &[RowField]) -> Result<Vec<Vec<i32>>, AllocError>
    ensures { IfOk result (λ field_paths. ids_in field_paths.items ≡ to_fields fields.now) }
{
    let mut field_paths = Vec::with_capacity(alloc, fields.len())?;
    'fields: for field in fields {
        field_paths.push(Vec::from_slice(alloc, &[field.id()])?)?;
    }
    Ok(field_paths)
}

/// The field paths to all that is read of a row.
fn row_field_paths(alloc: Global) -> Result<Vec<Vec<i32>>, AllocError>
    ensures { IfOk result (λ field_paths. ids_in field_paths.items ≡ wanted_field_paths) }
{
    let mut field_paths = field_paths_to(
        alloc,
        &[
            RowField::Path,
            RowField::Length,
            RowField::SpecId,
            RowField::AddedSnapshotId,
            RowField::AddedFiles,
            RowField::ExistingFiles,
            RowField::DeletedFiles,
            RowField::Partitions,
            RowField::AddedRows,
            RowField::ExistingRows,
            RowField::DeletedRows,
            RowField::SequenceNumber,
            RowField::MinSequenceNumber,
            RowField::Content,
        ],
    )?;
    push_field_path(alloc, &SUMMARY_IDS, &mut field_paths)?;
    Ok(field_paths)
}

/// The layout of a manifest list's objects, which have this type, for the values that are read of a row. `Memory` is
/// its only refusal.
pub fn row_layout<'s>(alloc: Global, schema: &'s Schema) -> Result<Layout<'s>, AvroFault>
    ensures schema { IfOk result (λ layout. layout_tree layout ≡ tree schema.now) }
    ensures field_paths { IfOk result (λ layout. field_paths_of layout ≡ row_field_paths) }
    ensures leads { IfOk result IsLayout }
    ensures memory { IfErr result (λ e. e ≡ AvroFault.Memory) }
{
    let field_paths = row_field_paths(alloc)?;
    Layout::new(alloc, schema, &field_paths)
}
