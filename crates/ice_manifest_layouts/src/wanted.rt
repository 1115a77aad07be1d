//! The field paths to what is read of an entry.

ghost use Rattle.std.specs.Prelude.{◌≡◌, [], ◌∷◌, ◌++◌, IfOk};
ghost use Rattle.std.specs.Result.{IfErr};
ghost use Rattle.avro_schema.specs.View.{tree};
ghost use Rattle.avro_file_picked.specs.Finding.{layout_tree, field_paths_of};
ghost use Rattle.avro_file_picked.specs.Placing.{IsLayout};
ghost use Rattle.avro_file_picked.specs.Guides.{ids_in};
ghost use Rattle.ice_manifest_layouts.specs.FieldPaths.{to_entries, to_files, to_cells, wanted_field_paths};

use crate::entry_field::{EntryField, FileField};
use avro_file::AvroFault;
use avro_file_picked::Layout;
use avro_schema::Schema;
use ice_manifest_fields::{LOWER_BOUNDS, NULL_COUNTS, UPPER_BOUNDS, VALUE_COUNTS};
use ice_manifest_values::push_field_path;
use ice_meta::PartitionField;
use std::alloc::{AllocError, Global};

/// The fields of the pairs of a file's maps. No field path leads to them from an entry: they stand among what is wanted so
/// that a guide of the entry, where the layout has one, keeps them in the pairs.
const PAIR_IDS: [i32; 8] = [
    VALUE_COUNTS.key,
    VALUE_COUNTS.said,
    NULL_COUNTS.key,
    NULL_COUNTS.said,
    LOWER_BOUNDS.key,
    LOWER_BOUNDS.said,
    UPPER_BOUNDS.key,
    UPPER_BOUNDS.said,
];

fn push_entry_field_path(
    alloc: Global,
    field: EntryField,
    field_paths: &mut Vec<Vec<i32>>,
) -> Result<(), AllocError>
    ensures { IfOk result (λ _. ids_in field_paths.new.items ≡ ids_in field_paths.old.items ++ to_entries (field ∷ [])) }
{
    push_field_path(alloc, &[field.id()], field_paths)
}

fn push_file_field_path(
    alloc: Global,
    field: FileField,
    field_paths: &mut Vec<Vec<i32>>,
) -> Result<(), AllocError>
    ensures { IfOk result (λ _. ids_in field_paths.new.items ≡ ids_in field_paths.old.items ++ to_files (field ∷ [])) }
{
    push_field_path(alloc, &[EntryField::DataFile.id(), field.id()], field_paths)
}

/// Adds the field paths to the partition values.
fn push_cell_field_paths(
    alloc: Global,
    partition: &[PartitionField],
    field_paths: &mut Vec<Vec<i32>>,
) -> Result<(), AllocError>
    ensures { IfOk result (λ _. ids_in field_paths.new.items ≡ ids_in field_paths.old.items ++ to_cells partition.now) }
{
    let file = EntryField::DataFile.id();
    let tuple = FileField::Partition.id();
    'partition: for field in partition {
        push_field_path(alloc, &[file, tuple, field.field_id], field_paths)?;
    }
    Ok(())
}

/// The field paths to the fields of an entry and of its file, and those of pairs.
fn field_field_paths(alloc: Global) -> Result<Vec<Vec<i32>>, AllocError>
    ensures { IfOk result (λ field_paths. ids_in field_paths.items ≡ wanted_field_paths []) }
{
    let mut field_paths = Vec::new(alloc);
    push_entry_field_path(alloc, EntryField::Status, &mut field_paths)?;
    push_entry_field_path(alloc, EntryField::SnapshotId, &mut field_paths)?;
    push_entry_field_path(alloc, EntryField::SequenceNumber, &mut field_paths)?;
    push_entry_field_path(alloc, EntryField::FileSequenceNumber, &mut field_paths)?;
    push_entry_field_path(alloc, EntryField::DataFile, &mut field_paths)?;
    push_file_field_path(alloc, FileField::Content, &mut field_paths)?;
    push_file_field_path(alloc, FileField::Path, &mut field_paths)?;
    push_file_field_path(alloc, FileField::Partition, &mut field_paths)?;
    push_file_field_path(alloc, FileField::RecordCount, &mut field_paths)?;
    push_file_field_path(alloc, FileField::FileSize, &mut field_paths)?;
    push_file_field_path(alloc, FileField::ValueCounts, &mut field_paths)?;
    push_file_field_path(alloc, FileField::NullCounts, &mut field_paths)?;
    push_file_field_path(alloc, FileField::LowerBounds, &mut field_paths)?;
    push_file_field_path(alloc, FileField::UpperBounds, &mut field_paths)?;
    push_file_field_path(alloc, FileField::EqualityIds, &mut field_paths)?;
    push_file_field_path(alloc, FileField::ReferencedFile, &mut field_paths)?;
    push_file_field_path(alloc, FileField::Format, &mut field_paths)?;
    push_field_path(alloc, &PAIR_IDS, &mut field_paths)?;
    Ok(field_paths)
}

/// The layout of a manifest's objects, which have this type, for the values that are read of an entry where the spec
/// has these partition fields. `Memory` is its only refusal.
pub fn entry_layout<'s>(
    alloc: Global,
    schema: &'s Schema,
    partition: &[PartitionField],
) -> Result<Layout<'s>, AvroFault>
    ensures schema { IfOk result (λ layout. layout_tree layout ≡ tree schema.now) }
    ensures field_paths { IfOk result (λ layout. field_paths_of layout ≡ wanted_field_paths partition.now) }
    ensures leads { IfOk result IsLayout }
    ensures memory { IfErr result (λ e. e ≡ AvroFault.Memory) }
{
    let mut field_paths = field_field_paths(alloc)?;
    push_cell_field_paths(alloc, partition, &mut field_paths)?;
    Layout::new(alloc, schema, &field_paths)
}
