//! The schemas of the manifest lists and manifests that are written.

ghost use Rattle.std.specs.Prelude.{◌≡◌, ◌≤◌, codes, length, IfOk};
ghost use Rattle.std.specs.List.{AllByRecursion};
ghost use Rattle.serde_json.specs.Data.{string};
ghost use Rattle.serde_json.specs.View.{view, items_view};
ghost use Rattle.ice_meta.specs.declared.spec.PartitionField.{PartitionField as DeclaredField};
ghost use Rattle.ice_manifest.specs.Adding.{IsId};
ghost use Rattle.ice_manifest.specs.PartitionNames.{naming_of as naming_for};
ghost use Rattle.ice_manifest.specs.WrittenTypes.{Word, map as map_of, json_of, fields_json, required_json};
ghost use Rattle.ice_manifest.specs.WrittenTypes.{optional_json};
ghost use Rattle.ice_manifest.specs.Writing.{manifest_type as type_of_manifest};
ghost use Rattle.ice_manifest.specs.WrittenSchemas.{summary_type as type_of_summary, count_fields as fields_of_counts};
ghost use Rattle.ice_manifest.specs.WrittenSchemas.{list_type as type_of_row, fixed_name as name_of_fixed};
ghost use Rattle.ice_manifest.specs.WrittenSchemas.{value_type as type_of_value};
ghost use Rattle.ice_manifest.specs.WrittenSchemas.{partition_field_type as field_of_partition};
ghost use Rattle.ice_manifest.specs.WrittenSchemas.{partition_fields as fields_of_partition, pair_type as type_of_pair};
ghost use Rattle.ice_manifest.specs.WrittenSchemas.{column_fields as fields_of_columns, file_type as type_of_file};

use crate::heading::Heading;
use crate::json::text;
use crate::partition_names::{Naming, field_name, naming_of, with_id};
use crate::written_types::{
    fixed, list, logical, map, optional, required, structure, timestamp, uuid,
};
use ice_meta::PartitionField;
use ice_value::ColumnType;
use serde_json::Value;
use std::alloc::{AllocError, Global};

/// A field of a primitive type that has a value.
fn field(alloc: Global, name: &str, id: i32, kind: &str) -> Result<Value, AllocError>
    ensures { IfOk result (λ json. view json ≡ required_json name.now id (string kind.now)) }
{
    required(alloc, name, id, text(alloc, kind)?)
}

/// A field of a primitive type that may be null.
fn nullable(alloc: Global, name: &str, id: i32, kind: &str) -> Result<Value, AllocError>
    ensures { IfOk result (λ json. view json ≡ optional_json name.now id (string kind.now)) }
{
    optional(alloc, name, id, text(alloc, kind)?)
}

/// What a field summary is.
#[tactic(auto, unfolding(crate::specs::WrittenTypes::json_of, crate::specs::WrittenTypes::fields_json))]
fn summary_type(alloc: Global) -> Result<Value, AllocError>
    ensures { IfOk result (λ json. view json ≡ json_of type_of_summary) }
{
    let fields = vec![in alloc;
        field(alloc, "contains_null", 509, "boolean")?,
        nullable(alloc, "contains_nan", 518, "boolean")?,
        nullable(alloc, "lower_bound", 510, "bytes")?,
        nullable(alloc, "upper_bound", 511, "bytes")?,
    ]?;
    structure(alloc, "r508", fields)
}

/// The counts of a row of a manifest list, and the summaries behind them.
#[tactic(auto, unfolding(crate::specs::WrittenTypes::json_of, crate::specs::WrittenTypes::fields_json))]
fn count_fields(alloc: Global) -> Result<Vec<Value>, AllocError>
    ensures { IfOk result (λ fields. items_view fields.items ≡ fields_json fields_of_counts) }
{
    let mut fields = Vec::with_capacity(alloc, 7)?;
    fields.push(nullable(alloc, "added_files_count", 504, "int")?)?;
    fields.push(nullable(alloc, "existing_files_count", 505, "int")?)?;
    fields.push(nullable(alloc, "deleted_files_count", 506, "int")?)?;
    fields.push(nullable(alloc, "added_rows_count", 512, "long")?)?;
    fields.push(nullable(alloc, "existing_rows_count", 513, "long")?)?;
    fields.push(nullable(alloc, "deleted_rows_count", 514, "long")?)?;
    let summaries = list(alloc, 508, summary_type(alloc)?)?;
    fields.push(optional(alloc, "partitions", 507, summaries)?)?;
    Ok(fields)
}

/// What a row of a manifest list is.
#[tactic(auto, unfolding(crate::specs::WrittenTypes::json_of, crate::specs::WrittenTypes::fields_json, crate::specs::WrittenSchemas::list_type))]
pub fn list_type(alloc: Global) -> Result<Value, AllocError>
    ensures { IfOk result (λ json. view json ≡ json_of type_of_row) }
{
    let mut fields = Vec::with_capacity(alloc, 14)?;
    fields.push(field(alloc, "manifest_path", 500, "string")?)?;
    fields.push(field(alloc, "manifest_length", 501, "long")?)?;
    fields.push(field(alloc, "partition_spec_id", 502, "int")?)?;
    fields.push(field(alloc, "content", 517, "int")?)?;
    fields.push(field(alloc, "sequence_number", 515, "long")?)?;
    fields.push(field(alloc, "min_sequence_number", 516, "long")?)?;
    fields.push(field(alloc, "added_snapshot_id", 503, "long")?)?;
    fields.append(&mut count_fields(alloc)?)?;
    structure(alloc, "manifest_file", fields)
}

/// How a partition value of this type is written.
#[tactic(auto, unfolding(crate::specs::WrittenTypes::json_of))]
fn value_type(alloc: Global, id: i32, column_type: &ColumnType) -> Result<Value, AllocError>
    ensures { IfOk result (λ json. view json ≡ json_of (type_of_value id column_type.now)) }
{
    match column_type {
        ColumnType::Boolean => text(alloc, "boolean"),
        ColumnType::Int => text(alloc, "int"),
        ColumnType::Long => text(alloc, "long"),
        ColumnType::Date => logical(alloc, "int", "date"),
        ColumnType::Time => logical(alloc, "long", "time-micros"),
        ColumnType::Timestamp => timestamp(alloc, false),
        ColumnType::Timestamptz => timestamp(alloc, true),
        ColumnType::String => text(alloc, "string"),
        ColumnType::Uuid => uuid(alloc, with_id(alloc, "f", id)?.as_str()),
        ColumnType::Fixed(size) => fixed(alloc, with_id(alloc, "f", id)?.as_str(), *size),
        ColumnType::Float | ColumnType::Double | ColumnType::Binary | ColumnType::Decimal { .. } =>
            { text(alloc, "bytes") }
    }
}

/// A map of a number for each column.
#[tactic(auto, unfolding(crate::specs::WrittenTypes::json_of, crate::specs::WrittenTypes::fields_json))]
fn counts_type(alloc: Global, name: &str, key: i32, said: i32) -> Result<Value, AllocError>
    ensures { IfOk result (λ json. view json ≡ json_of (map_of (type_of_pair name.now key said Word.long))) }
{
    let key = field(alloc, "key", key, "int")?;
    let said = field(alloc, "value", said, "long")?;
    map(alloc, structure(alloc, name, vec![in alloc; key, said]?)?)
}

/// A map of a bound for each column.
#[tactic(auto, unfolding(crate::specs::WrittenTypes::json_of, crate::specs::WrittenTypes::fields_json))]
fn bounds_type(alloc: Global, name: &str, key: i32, said: i32) -> Result<Value, AllocError>
    ensures { IfOk result (λ json. view json ≡ json_of (map_of (type_of_pair name.now key said Word.bytes))) }
{
    let key = field(alloc, "key", key, "int")?;
    let said = field(alloc, "value", said, "bytes")?;
    map(alloc, structure(alloc, name, vec![in alloc; key, said]?)?)
}

/// What is said of the columns of a file, and behind it what deletes say of themselves.
#[tactic(auto, unfolding(crate::specs::WrittenTypes::json_of, crate::specs::WrittenTypes::fields_json))]
fn column_fields(alloc: Global) -> Result<Vec<Value>, AllocError>
    ensures { IfOk result (λ fields. items_view fields.items ≡ fields_json fields_of_columns) }
{
    let mut fields = Vec::with_capacity(alloc, 6)?;
    let value_counts = counts_type(alloc, "k119_v120", 119, 120)?;
    fields.push(optional(alloc, "value_counts", 109, value_counts)?)?;
    let null_value_counts = counts_type(alloc, "k121_v122", 121, 122)?;
    fields.push(optional(alloc, "null_value_counts", 110, null_value_counts)?)?;
    let lower_bounds = bounds_type(alloc, "k126_v127", 126, 127)?;
    fields.push(optional(alloc, "lower_bounds", 125, lower_bounds)?)?;
    let upper_bounds = bounds_type(alloc, "k129_v130", 129, 130)?;
    fields.push(optional(alloc, "upper_bounds", 128, upper_bounds)?)?;
    let equality_ids = list(alloc, 136, text(alloc, "int")?)?;
    fields.push(optional(alloc, "equality_ids", 135, equality_ids)?)?;
    fields.push(nullable(alloc, "referenced_data_file", 143, "string")?)?;
    Ok(fields)
}

/// A partition field, with the type of its values.
#[tactic(auto, using(crate::proofs::Ids::is_id))]
fn partition_field(
    alloc: Global,
    naming: Naming,
    field: &PartitionField,
    column_type: &ColumnType,
) -> Result<Value, AllocError>
    ensures json { IfOk result (λ json. view json ≡ field_of_partition naming field.now column_type.now) }
    ensures id { IfOk result (λ _. IsId field.now.field_id) }
{
    let id = field.field_id;
    let kind = value_type(alloc, id, column_type)?;
    optional(alloc, field_name(alloc, naming, field)?.as_str(), id, kind)
}

/// The partition fields, with the types of their values.
fn partition_fields(
    alloc: Global,
    naming: Naming,
    fields: &[PartitionField],
    types: &[ColumnType],
) -> Result<Vec<Value>, AllocError>
    requires { length types.now ≡ length fields.now }
    ensures json { IfOk result (λ all.
        items_view all.items ≡ fields_json (fields_of_partition naming fields.now types.now)) }
    ensures ids { IfOk result (λ _. AllByRecursion (λ (p : DeclaredField). IsId p.field_id) fields.now) }
{
    let mut all = Vec::new(alloc);
    'fields: for place in 0..fields.len() {
        all.push(partition_field(alloc, naming, &fields[place], &types[place])?)?;
    }
    Ok(all)
}

/// What a data file with these partition fields is.
#[tactic(auto, unfolding(crate::specs::WrittenTypes::json_of, crate::specs::WrittenTypes::fields_json))]
fn file_type(
    alloc: Global,
    partition: &[PartitionField],
    types: &[ColumnType],
) -> Result<Value, AllocError>
    requires { length types.now ≡ length partition.now }
    ensures json { IfOk result (λ json. view json ≡
        json_of (type_of_file (fields_of_partition (naming_for partition.now) partition.now types.now))) }
    ensures ids { IfOk result (λ _. AllByRecursion (λ (p : DeclaredField). IsId p.field_id) partition.now) }
{
    let mut fields = Vec::with_capacity(alloc, 12)?;
    fields.push(field(alloc, "content", 134, "int")?)?;
    fields.push(field(alloc, "file_path", 100, "string")?)?;
    fields.push(field(alloc, "file_format", 101, "string")?)?;
    let naming = naming_of(alloc, partition)?;
    let tuple = structure(
        alloc,
        "r102",
        partition_fields(alloc, naming, partition, types)?,
    )?;
    fields.push(required(alloc, "partition", 102, tuple)?)?;
    fields.push(field(alloc, "record_count", 103, "long")?)?;
    fields.push(field(alloc, "file_size_in_bytes", 104, "long")?)?;
    fields.append(&mut column_fields(alloc)?)?;
    structure(alloc, "r2", fields)
}

/// What an entry of a manifest of this heading is.
#[tactic(auto, unfolding(crate::specs::WrittenTypes::json_of, crate::specs::WrittenTypes::fields_json, crate::specs::WrittenSchemas::entry_type))]
pub fn manifest_type(alloc: Global, heading: &Heading) -> Result<Value, AllocError>
    requires { length heading.now.types ≡ length heading.now.spec.fields }
    ensures json { IfOk result (λ json. view json ≡ json_of (type_of_manifest heading.now)) }
    ensures ids { IfOk result (λ _. AllByRecursion (λ (p : DeclaredField). IsId p.field_id) heading.now.spec.fields) }
{
    let partition = heading.spec.fields.as_slice();
    let mut fields = Vec::with_capacity(alloc, 5)?;
    fields.push(field(alloc, "status", 0, "int")?)?;
    fields.push(nullable(alloc, "snapshot_id", 1, "long")?)?;
    fields.push(nullable(alloc, "sequence_number", 3, "long")?)?;
    fields.push(nullable(alloc, "file_sequence_number", 4, "long")?)?;
    let file = file_type(alloc, partition, heading.types.as_slice())?;
    fields.push(required(alloc, "data_file", 2, file)?)?;
    structure(alloc, "manifest_entry", fields)
}
