//! The partition values of a file.

ghost use Rattle.std.specs.Prelude.{◌≡◌, [], ◌∷◌, map, Some, IfOk, option_map};
ghost use Rattle.contract_words.specs.Outcome.{Gives};
ghost use Rattle.avro_schema.specs.View.{tree, trees, branches_of as branches_of_trees};
ghost use Rattle.avro_file.specs.Picking.{Picked};
ghost use Rattle.avro_file.specs.View.{view};
ghost use Rattle.avro_file_picked.specs.Finding.{IsMet};
ghost use Rattle.ice_manifest_layouts.specs.Seen.{file_seen, IsFile, tuple_seen, HasTuple};
ghost use Rattle.ice_manifest_fields.specs.Naming.{in_manifest, told};
ghost use Rattle.ice_manifest_fields.specs.Fields.{there};
ghost use Rattle.ice_manifest_fields.specs.Seen.{result_map, fields_seen};
ghost use Rattle.ice_manifest_fields.specs.Schemas.{each_branch, is_cell, each_is_cell};
ghost use Rattle.ice_manifest_reading.specs.ManifestSchemas.{cells_fit, is_tuple};
ghost use Rattle.ice_manifest_fields.specs.Schemas.{type_at as type_said};
ghost use Rattle.ice_manifest_reading.specs.ManifestSchemas.{tuple_in as tuple_within};
ghost use Rattle.ice_manifest_reading.specs.Partitions.{bytes_kind as kind_of_bytes, kept_bytes as bytes_to_keep};
ghost use Rattle.ice_manifest_reading.specs.Partitions.{cell_of as cell_said, cells_of as cells_said};
ghost use Rattle.ice_manifest_reading.specs.Partitions.{tuple_at as tuple_said};

use avro_file::Datum;
use avro_file_picked::Found;
use avro_schema::{BytesKind, Field, Schema};
use contract_words::{Items, Text};
use ice_manifest_fields::{
    FieldFault, Kind, ManifestFault, branches_of, required, shortest, type_at,
};
use ice_manifest_layouts::{FileField, FoundFile};
use ice_meta::PartitionField;
use ice_value::Cell;
use std::alloc::{AllocError, Global};

/// The values of a partition field may be of this type.
fn check_cell(wanted: &PartitionField, schema: &Schema) -> Result<(), FieldFault>
    ensures { result ≡ is_cell wanted.now.field_id (tree schema.now) }
{
    match schema {
        Schema::Null
        | Schema::Boolean
        | Schema::Int
        | Schema::Long
        | Schema::String
        | Schema::Bytes(_)
        | Schema::Fixed(_, _) => Ok(()),
        Schema::Float | Schema::Double => Err(FieldFault::FloatPartition(wanted.field_id)),
        _ => Err(FieldFault::WrongType(wanted.field_id)),
    }
}

fn check_branches(wanted: &PartitionField, branches: &[Schema]) -> Result<(), FieldFault>
    ensures { result ≡ each_branch (is_cell wanted.now.field_id) (branches_of_trees (trees branches.now)) }
{
    'branches: for branch in branches {
        check_cell(wanted, branch)?;
    }
    Ok(())
}

/// The values of a partition field are there, and of a type that they may have.
fn check_cell_at(wanted: &PartitionField, fields: &[Field]) -> Result<(), FieldFault>
    ensures { result ≡ each_is_cell wanted.now.field_id (type_said wanted.now.field_id (fields_seen fields.now)) }
{
    match type_at(fields, wanted.field_id) {
        Some(schema) => check_branches(wanted, branches_of(schema)),
        None => Err(FieldFault::Missing(wanted.field_id)),
    }
}

fn check_cells(partition: &[PartitionField], fields: &[Field]) -> Result<(), FieldFault>
    ensures { result ≡ cells_fit partition.now (fields_seen fields.now) }
{
    'partition: for wanted in partition {
        check_cell_at(wanted, fields)?;
    }
    Ok(())
}

fn check_tuple(partition: &[PartitionField], schema: &Schema) -> Result<(), FieldFault>
    ensures { result ≡ is_tuple partition.now (tree schema.now) }
{
    match schema {
        Schema::Record(fields) => check_cells(partition, fields),
        _ => Ok(()),
    }
}

/// Each of these types that is a record has the partition fields.
pub fn check_tuples(partition: &[PartitionField], branches: &[Schema]) -> Result<(), FieldFault>
    ensures { result ≡ each_branch (is_tuple partition.now) (branches_of_trees (trees branches.now)) }
{
    'branches: for branch in branches {
        check_tuple(partition, branch)?;
    }
    Ok(())
}

/// The type of the record of the partition values, which has to be there where the spec has a field.
#[tactic(auto, unfolding(crate::specs::ManifestSchemas::tuple_in, ice_manifest_fields::specs::Kinds::wanted))]
pub fn tuple_in<'a>(
    partition: &[PartitionField],
    fields: &'a [Field],
) -> Result<Option<&'a Schema>, FieldFault>
    ensures { result_map (option_map (λ s. tree s.now)) result ≡ tuple_within partition.now (fields_seen fields.now) }
{
    if partition.is_empty() {
        return Ok(None);
    }
    Ok(Some(required(fields, Kind::Record, 102)?))
}

/// What the bytes of a type stand for.
fn bytes_kind(schema: &Schema) -> BytesKind
    ensures { result ≡ kind_of_bytes (tree schema.now) }
{
    match schema {
        Schema::Bytes(kind) => *kind,
        Schema::Fixed(_, kind) => *kind,
        _ => BytesKind::Plain,
    }
}

/// A copy of the bytes that a cell keeps.
fn kept_bytes(alloc: Global, kind: BytesKind, bytes: &[u8]) -> Result<Items<u8>, AllocError>
    ensures { IfOk result (λ kept. kept ≡ bytes_to_keep kind bytes.now) }
{
    let kept = match kind {
        BytesKind::Plain => bytes,
        BytesKind::Decimal => shortest(bytes),
    };
    Ok(Items::from_vec(kept.to_vec(alloc)?))
}

/// The cell of a value.
fn cell_of(alloc: Global, schema: &Schema, datum: &Datum) -> Result<Cell, AllocError>
    ensures { IfOk result (λ cell. cell ≡ cell_said (Some (tree schema.now, view datum.now))) }
{
    match datum {
        Datum::Boolean(truth) => Ok(Cell::Bool(*truth)),
        Datum::Int(number) => Ok(Cell::Whole(i64::from(*number))),
        Datum::Long(number) => Ok(Cell::Whole(*number)),
        Datum::String(text) => Ok(Cell::Text(Text::from_string(String::from_str(alloc, text)?))),
        Datum::Bytes(bytes) => {
            let kept = kept_bytes(alloc, bytes_kind(schema), bytes)?;
            Ok(Cell::Bytes(kept))
        }
        Datum::Fixed(bytes) => {
            let kept = kept_bytes(alloc, bytes_kind(schema), bytes)?;
            Ok(Cell::Bytes(kept))
        }
        _ => Ok(Cell::Null),
    }
}

/// The cell of what was found of a partition field. A value of one of its types is no tree, and takes no memory.
fn cell_found(alloc: Global, found: Option<Found>) -> Result<Cell, AllocError>
    ensures { (met : Picked) → IsMet found.entry met → IfOk result (λ cell. cell ≡ cell_said (there met)) }
{
    match found {
        Some(found) => cell_of(alloc, found.schema(), &found.datum(alloc)?),
        None => Ok(Cell::Null),
    }
}

/// The cells of a file, in the order of the partition fields.
fn cells_of(alloc: Global, file: &FoundFile) -> Result<Items<Cell>, AllocError>
    requires file { IsFile file.now }
    requires tuple { HasTuple file.now }
    ensures { IfOk result (λ cells. cells ≡ cells_said file.now.entry.now.partition.now (tuple_seen file.now)) }
{
    let partition = file.entry.partition;
    let mut cells = Items::with_capacity(alloc, partition.len())?;
    'partition: for (index, _wanted) in partition.iter().enumerate() {
        let found = file.found_cell(index);
        cells.push(cell_found(alloc, found)?)?;
    }
    Ok(cells)
}

/// The partition values of a data file, in the order of the spec's fields.
#[tactic(auto, unfolding(crate::specs::Partitions::tuple_at))]
pub fn tuple_at(alloc: Global, file: &FoundFile) -> Result<Items<Cell>, ManifestFault>
    requires { IsFile file.now }
    ensures { Gives ManifestFault.Memory (λ x. x) result
        (told in_manifest (tuple_said file.now.entry.now.partition.now (file_seen file.now))) }
{
    if file.entry.partition.is_empty() {
        return Ok(Items::new(alloc));
    }
    if file.has_tuple() {
        Ok(cells_of(alloc, file)?)
    } else {
        Err(ManifestFault::MissingField(FileField::Partition.id()))
    }
}
