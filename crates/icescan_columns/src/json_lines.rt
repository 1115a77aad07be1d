//! A table's columns, and what its metadata says, as lines of JSON.

ghost use Rattle.std.specs.Prelude.{◌≡◌, ◌++◌, IfOk, OnOk, option_map};
ghost use Rattle.std.specs.List.{flat_map};
ghost use Rattle.serde_json.specs.View.{view};
ghost use Rattle.uuid.specs.Text.{hyphenated_text, lower};
ghost use Rattle.ice_filter.specs.Texts.{column_text};
ghost use Rattle.icescan_columns.specs.JsonLines.{column_object, columns_objects, default_json, field_object};
ghost use Rattle.icescan_columns.specs.JsonLines.{kind_word};
ghost use Rattle.icescan_columns.specs.JsonLines.{main_object, other_object, ref_object, refs_objects, schema_json};
ghost use Rattle.icescan_columns.specs.JsonLines.{schema_objects, snapshot_object, spec_json, spec_objects, table_json};
ghost use Rattle.icescan_columns.specs.JsonLines.{table_objects};
ghost use Rattle.icescan_forms.specs.Objects.{object_line, text_if, value_json};
ghost use Rattle.icescan_print.specs.TableTexts.{main_ref};

use crate::names::push_column;
use crate::told::{ToldColumn, told_columns};
use ice_filter::Column as Names;
use ice_meta::{Metadata, PartitionField, Ref, RefKind, Schema, Snapshot, Spec, Table};
use icescan_forms::{ObjectLines, Value};
use icescan_print::main_of;
use serde_json::Value as Json;
use std::alloc::{AllocError, Global};
use uuid::Uuid;

/// A column as a filter writes it, where one can.
fn written_name(alloc: Global, names: &Option<Names>) -> Result<Option<Vec<u8>>, AllocError>
    ensures { IfOk result (λ name. option_map (λ v. v.items) name ≡ option_map column_text names.now) }
{
    match names {
        Some(names) => {
            let mut name = Vec::new(alloc);
            push_column(&mut name, alloc, names)?;
            Ok(Some(name))
        }
        None => Ok(None),
    }
}

fn name_value(name: &Option<Vec<u8>>) -> Value<'_>
    ensures { value_json result ≡ text_if (option_map (λ v. v.items) name.now) }
{
    match name {
        Some(name) => Value::Text(name),
        None => Value::Null,
    }
}

/// Puts a column of the schema of an id last, of which this is the name that a filter writes.
#[tactic(auto, unfolding(crate::specs::JsonLines::column_object))]
fn push_named_column<'a>(
    lines: &mut ObjectLines,
    schema: i32,
    told: &'a ToldColumn,
    name: &'a Option<Vec<u8>>,
) -> Result<(), AllocError>
    requires { option_map (λ v. v.items) name.now ≡ option_map column_text told.now.names }
    ensures { OnOk result (lines.new ≡ lines.old ++ column_object schema told.now) }
{
    lines.push(&[
        ("kind", Value::Text(b"column")),
        ("schema", Value::Int(schema)),
        ("column", Value::Int(told.id)),
        ("type", Value::Text(told.type_word.as_bytes())),
        ("required", Value::Truth(told.required)),
        ("filter", Value::Text(told.compared.word())),
        ("name", name_value(name)),
    ])
}

/// Puts a column of the schema of an id last.
fn push_column_object(
    lines: &mut ObjectLines,
    alloc: Global,
    schema: i32,
    told: &ToldColumn,
) -> Result<(), AllocError>
    ensures { OnOk result (lines.new ≡ lines.old ++ column_object schema told.now) }
{
    let name = written_name(alloc, &told.names)?;
    push_named_column(lines, schema, told, &name)
}

/// Puts columns of the schema of an id last.
fn push_column_objects(
    lines: &mut ObjectLines,
    alloc: Global,
    schema: i32,
    columns: &[ToldColumn],
) -> Result<(), AllocError>
    ensures { OnOk result (lines.new ≡ lines.old ++ flat_map (column_object schema) columns.now) }
{
    'columns: for told in columns {
        push_column_object(lines, alloc, schema, told)?;
    }
    Ok(())
}

/// Puts a schema without its columns last.
fn push_schema(lines: &mut ObjectLines, schema: &Schema) -> Result<(), AllocError>
    ensures { OnOk result (lines.new ≡ lines.old ++ object_line (schema_json schema.now)) }
{
    lines.push(&[
        ("kind", Value::Text(b"schema")),
        ("schema", Value::Int(schema.id)),
        (
            "columns",
            Value::Count(schema.columns.as_slice().len() as u128),
        ),
    ])
}

/// Puts a schema of this metadata last, and its columns.
#[tactic(auto, unfolding(crate::specs::JsonLines::schema_objects))]
fn push_schema_objects(
    lines: &mut ObjectLines,
    alloc: Global,
    metadata: &Json,
    schema: &Schema,
) -> Result<(), AllocError>
    ensures { OnOk result (lines.new ≡ lines.old ++ schema_objects (view metadata.now) schema.now) }
{
    let told = told_columns(alloc, metadata, schema)?;
    push_schema(lines, schema)?;
    push_column_objects(lines, alloc, schema.id, &told)
}

/// Puts schemas of this metadata last, each with its columns.
fn push_schemas(
    lines: &mut ObjectLines,
    alloc: Global,
    metadata: &Json,
    schemas: &[Schema],
) -> Result<(), AllocError>
    ensures { OnOk result (lines.new ≡ lines.old ++ flat_map (schema_objects (view metadata.now)) schemas.now) }
{
    'schemas: for schema in schemas {
        push_schema_objects(lines, alloc, metadata, schema)?;
    }
    Ok(())
}

/// Puts a field of the spec of an id last.
#[tactic(auto, unfolding(crate::specs::JsonLines::field_object))]
fn push_field(lines: &mut ObjectLines, spec: i32, field: &PartitionField) -> Result<(), AllocError>
    ensures { OnOk result (lines.new ≡ lines.old ++ field_object spec field.now) }
{
    lines.push(&[
        ("kind", Value::Text(b"field")),
        ("spec", Value::Int(spec)),
        ("field", Value::Int(field.field_id)),
        ("source", Value::Int(field.source_id)),
        ("transform", Value::Text(field.transform.as_bytes())),
        ("name", Value::Text(field.name.as_bytes())),
    ])
}

/// Puts fields of the spec of an id last.
fn push_fields(
    lines: &mut ObjectLines,
    spec: i32,
    fields: &[PartitionField],
) -> Result<(), AllocError>
    ensures { OnOk result (lines.new ≡ lines.old ++ flat_map (field_object spec) fields.now) }
{
    'fields: for field in fields {
        push_field(lines, spec, field)?;
    }
    Ok(())
}

/// Puts a spec without its fields last.
fn push_spec(lines: &mut ObjectLines, spec: &Spec) -> Result<(), AllocError>
    ensures { OnOk result (lines.new ≡ lines.old ++ object_line (spec_json spec.now)) }
{
    lines.push(&[
        ("kind", Value::Text(b"spec")),
        ("spec", Value::Int(spec.id)),
        ("fields", Value::Count(spec.fields.as_slice().len() as u128)),
    ])
}

/// Puts a spec and its fields last.
#[tactic(auto, unfolding(crate::specs::JsonLines::spec_objects))]
fn push_spec_objects(lines: &mut ObjectLines, spec: &Spec) -> Result<(), AllocError>
    ensures { OnOk result (lines.new ≡ lines.old ++ spec_objects spec.now) }
{
    push_spec(lines, spec)?;
    push_fields(lines, spec.id, spec.fields.as_slice())
}

/// Puts specs last, each with its fields.
fn push_specs(lines: &mut ObjectLines, specs: &[Spec]) -> Result<(), AllocError>
    ensures { OnOk result (lines.new ≡ lines.old ++ flat_map spec_objects specs.now) }
{
    'specs: for spec in specs {
        push_spec_objects(lines, spec)?;
    }
    Ok(())
}

/// Puts the spec of new files last, which has this id.
fn push_default(lines: &mut ObjectLines, id: i32) -> Result<(), AllocError>
    ensures { OnOk result (lines.new ≡ lines.old ++ object_line (default_json id)) }
{
    lines.push(&[
        ("kind", Value::Text(b"default-spec")),
        ("spec", Value::Int(id)),
    ])
}

/// A schema's columns and the partition specs that this metadata says, as lines of JSON.
#[tactic(auto, unfolding(crate::specs::JsonLines::columns_objects))]
pub fn columns_objects(
    alloc: Global,
    metadata: &Metadata,
    schema: &Schema,
) -> Result<Vec<u8>, AllocError>
    ensures { IfOk result (λ text. text.items
        ≡ columns_objects (view metadata.now.json) schema.now metadata.now.table) }
{
    let mut lines = ObjectLines::new(alloc)?;
    push_schema_objects(&mut lines, alloc, metadata.json(), schema)?;
    push_default(&mut lines, metadata.table().default_spec_id)?;
    push_specs(&mut lines, metadata.table().specs.as_slice())?;
    lines.into_text()
}

/// Puts what a table has one of last, whose own id is this text.
fn push_named_table<'a>(
    lines: &mut ObjectLines,
    uuid: &'a str,
    table: &'a Table,
) -> Result<(), AllocError>
    requires { uuid.now ≡ hyphenated_text lower table.now.uuid }
    ensures { OnOk result (lines.new ≡ lines.old ++ object_line (table_json table.now)) }
{
    let number = table.last_sequence_number.get();
    lines.push(&[
        ("kind", Value::Text(b"table")),
        ("table-uuid", Value::Text(uuid.as_bytes())),
        ("location", Value::Text(table.location.as_bytes())),
        ("last-sequence-number", Value::Count(number as u128)),
        ("current-snapshot", Value::id_if(table.current_snapshot_id)),
        ("current-schema", Value::Int(table.current_schema_id)),
        ("default-spec", Value::Int(table.default_spec_id)),
    ])
}

/// Puts what a table has one of last.
fn push_table(lines: &mut ObjectLines, table: &Table) -> Result<(), AllocError>
    ensures { OnOk result (lines.new ≡ lines.old ++ object_line (table_json table.now)) }
{
    let mut digits = Uuid::encode_buffer();
    let uuid = table.uuid.hyphenated().encode_lower(&mut digits);
    push_named_table(lines, uuid, table)
}

/// Puts a snapshot last.
#[tactic(auto, unfolding(crate::specs::JsonLines::snapshot_object))]
fn push_snapshot(lines: &mut ObjectLines, snapshot: &Snapshot) -> Result<(), AllocError>
    ensures { OnOk result (lines.new ≡ lines.old ++ snapshot_object snapshot.now) }
{
    let number = snapshot.sequence_number.get();
    lines.push(&[
        ("kind", Value::Text(b"snapshot")),
        ("snapshot", Value::Long(snapshot.id)),
        ("seq", Value::Count(number as u128)),
        ("at", Value::Long(snapshot.timestamp_ms)),
        ("parent", Value::id_if(snapshot.parent_id)),
        ("operation", Value::text_if(&snapshot.operation)),
        ("list", Value::text_if(&snapshot.manifest_list)),
    ])
}

/// Puts snapshots last.
fn push_snapshots(lines: &mut ObjectLines, snapshots: &[Snapshot]) -> Result<(), AllocError>
    ensures { OnOk result (lines.new ≡ lines.old ++ flat_map snapshot_object snapshots.now) }
{
    'snapshots: for snapshot in snapshots {
        push_snapshot(lines, snapshot)?;
    }
    Ok(())
}

fn kind_word(kind: RefKind) -> &'static [u8]
    ensures { result.now ≡ kind_word kind }
{
    match kind {
        RefKind::Branch => b"branch",
        RefKind::Tag => b"tag",
    }
}

/// Puts a branch or tag last.
#[tactic(auto, unfolding(crate::specs::JsonLines::ref_object))]
fn push_ref(lines: &mut ObjectLines, found: &Ref) -> Result<(), AllocError>
    ensures { OnOk result (lines.new ≡ lines.old ++ ref_object found.now) }
{
    lines.push(&[
        ("kind", Value::Text(b"ref")),
        ("ref", Value::Text(found.name.as_bytes())),
        ("type", Value::Text(kind_word(found.kind))),
        ("snapshot", Value::Long(found.snapshot_id)),
    ])
}

/// Puts the branch `main` last, where there is one.
fn push_main(lines: &mut ObjectLines, main: &Option<Ref>) -> Result<(), AllocError>
    ensures { OnOk result (lines.new ≡ lines.old ++ main_object main.now) }
{
    match main {
        Some(main) => push_ref(lines, main),
        None => Ok(()),
    }
}

/// Puts a branch or tag last, unless it is named `main`.
fn push_other(lines: &mut ObjectLines, found: &Ref) -> Result<(), AllocError>
    ensures { OnOk result (lines.new ≡ lines.old ++ other_object found.now) }
{
    if found.name.as_str() != "main" {
        push_ref(lines, found)
    } else {
        Ok(())
    }
}

/// Puts the branches and tags that are not named `main` last.
fn push_others(lines: &mut ObjectLines, refs: &[Ref]) -> Result<(), AllocError>
    ensures { OnOk result (lines.new ≡ lines.old ++ flat_map other_object refs.now) }
{
    'refs: for found in refs {
        push_other(lines, found)?;
    }
    Ok(())
}

/// Puts the branches and tags last.
#[tactic(auto, unfolding(crate::specs::JsonLines::refs_objects))]
fn push_refs(lines: &mut ObjectLines, alloc: Global, table: &Table) -> Result<(), AllocError>
    ensures { OnOk result (lines.new ≡ lines.old ++ refs_objects table.now) }
{
    let main = main_of(alloc, table.current_snapshot_id)?;
    push_main(lines, &main)?;
    push_others(lines, table.refs.as_slice())
}

/// What a table's metadata says, as lines of JSON.
#[tactic(auto, unfolding(crate::specs::JsonLines::table_objects))]
pub fn table_objects(alloc: Global, metadata: &Json, table: &Table) -> Result<Vec<u8>, AllocError>
    ensures { IfOk result (λ text. text.items ≡ table_objects (view metadata.now) table.now) }
{
    let mut lines = ObjectLines::new(alloc)?;
    push_table(&mut lines, table)?;
    push_schemas(&mut lines, alloc, metadata, table.schemas.as_slice())?;
    push_specs(&mut lines, table.specs.as_slice())?;
    push_snapshots(&mut lines, table.snapshots.as_slice())?;
    push_refs(&mut lines, alloc, table)?;
    lines.into_text()
}
