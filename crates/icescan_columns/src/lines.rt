//! The text of a table's columns and partition fields.

ghost use Rattle.std.specs.Prelude.{◌≡◌, ◌++◌, IfOk, OnOk};
ghost use Rattle.std.specs.List.{flat_map, list_any};
ghost use Rattle.serde_json.specs.View.{view};
ghost use Rattle.icescan_columns.specs.Texts.{answers_text, column_line, columns_text, default_line};
ghost use Rattle.icescan_columns.specs.Texts.{field_line, id_text, is_broken, kind_text, last_text, name_text};
ghost use Rattle.icescan_columns.specs.Texts.{source_text};
ghost use Rattle.icescan_columns.specs.Texts.{spec_text, transform_text, yes_or_no};
ghost use Rattle.icescan_print.specs.TableTexts.{schema_line, spec_line};

use crate::names::push_column;
use crate::told::{ToldColumn, told_columns};
use ice_filter::Column as Names;
use ice_meta::{Metadata, PartitionField, Schema, Spec, Table};
use icescan_forms::{push_int, push_number, push_path};
use icescan_print::put_escaped;
use std::alloc::{AllocError, Global};

/// Whether a name can't end a line as it is.
fn is_broken(name: &[u8]) -> bool
    ensures { result ≡ list_any is_broken name.now }
{
    'bytes: for byte in name {
        if *byte < b' ' || *byte == b'\\' || *byte == 127 {
            return true;
        }
    }
    false
}

/// Puts a name last on its line.
fn push_last(text: &mut Vec<u8>, name: &[u8]) -> Result<(), AllocError>
    ensures { OnOk result (text.new.items ≡ text.old.items ++ last_text name.now) }
{
    if is_broken(name) {
        put_escaped(text, name).map_err(|_| AllocError)
    } else {
        text.extend_from_slice(name)
    }
}

/// Puts a column last on its line, as a filter writes it.
fn push_name(text: &mut Vec<u8>, alloc: Global, names: &Option<Names>) -> Result<(), AllocError>
    ensures { OnOk result (text.new.items ≡ text.old.items ++ name_text names.now) }
{
    match names {
        Some(names) => {
            let mut name = Vec::new(alloc);
            push_column(&mut name, alloc, names)?;
            push_last(text, &name)
        }
        None => text.extend_from_slice(b"-"),
    }
}

fn yes_or_no(truth: bool) -> &'static [u8]
    ensures { result.now ≡ yes_or_no truth }
{
    if truth { b"yes" } else { b"no" }
}

/// Puts a column's id and type last.
#[tactic(auto, unfolding(crate::specs::Texts::kind_text))]
fn push_kind(text: &mut Vec<u8>, told: &ToldColumn) -> Result<(), AllocError>
    ensures { OnOk result (text.new.items ≡ text.old.items ++ kind_text told.now) }
{
    push_int(text, b"column ", told.id)?;
    push_path(text, b" type ", told.type_word.as_bytes())
}

/// Puts last whether a column is required, and how a filter may compare it.
#[tactic(auto, unfolding(crate::specs::Texts::answers_text))]
fn push_answers(text: &mut Vec<u8>, told: &ToldColumn) -> Result<(), AllocError>
    ensures { OnOk result (text.new.items ≡ text.old.items ++ answers_text told.now) }
{
    text.extend_from_slice(b" required ")?;
    text.extend_from_slice(yes_or_no(told.required))?;
    text.extend_from_slice(b" filter ")?;
    text.extend_from_slice(told.compared.word())
}

/// Puts the line of a column last.
#[tactic(auto, unfolding(crate::specs::Texts::column_line))]
fn push_column_line(text: &mut Vec<u8>, alloc: Global, told: &ToldColumn) -> Result<(), AllocError>
    ensures { OnOk result (text.new.items ≡ text.old.items ++ column_line told.now) }
{
    push_kind(text, told)?;
    push_answers(text, told)?;
    text.extend_from_slice(b" name ")?;
    push_name(text, alloc, &told.names)?;
    text.extend_from_slice(b"\n")
}

/// Puts the lines of columns last.
fn push_columns(text: &mut Vec<u8>, alloc: Global, columns: &[ToldColumn]) -> Result<(), AllocError>
    ensures { OnOk result (text.new.items ≡ text.old.items ++ flat_map column_line columns.now) }
{
    'columns: for told in columns {
        push_column_line(text, alloc, told)?;
    }
    Ok(())
}

/// Puts the line of a schema last.
#[tactic(auto, unfolding(icescan_print::specs::TableTexts::schema_line))]
fn push_schema(text: &mut Vec<u8>, schema: &Schema) -> Result<(), AllocError>
    ensures { OnOk result (text.new.items ≡ text.old.items ++ schema_line schema.now) }
{
    push_int(text, b"schema ", schema.id)?;
    push_number(text, b" columns ", schema.columns.as_slice().len())?;
    text.extend_from_slice(b"\n")
}

/// Puts a partition field's id last.
#[tactic(auto, unfolding(crate::specs::Texts::id_text))]
fn push_id(text: &mut Vec<u8>, field: &PartitionField) -> Result<(), AllocError>
    ensures { OnOk result (text.new.items ≡ text.old.items ++ id_text field.now) }
{
    push_int(text, b"field ", field.field_id)
}

/// Puts last the column that a partition field's values come from.
#[tactic(auto, unfolding(crate::specs::Texts::source_text))]
fn push_source(text: &mut Vec<u8>, field: &PartitionField) -> Result<(), AllocError>
    ensures { OnOk result (text.new.items ≡ text.old.items ++ source_text field.now) }
{
    push_int(text, b" source ", field.source_id)
}

/// Puts the transform of a partition field last.
#[tactic(auto, unfolding(crate::specs::Texts::transform_text))]
fn push_transform(text: &mut Vec<u8>, field: &PartitionField) -> Result<(), AllocError>
    ensures { OnOk result (text.new.items ≡ text.old.items ++ transform_text field.now) }
{
    push_path(text, b" transform ", field.transform.as_bytes())
}

/// Puts the line of a partition field last.
#[tactic(auto, unfolding(crate::specs::Texts::field_line))]
fn push_field(text: &mut Vec<u8>, field: &PartitionField) -> Result<(), AllocError>
    ensures { OnOk result (text.new.items ≡ text.old.items ++ field_line field.now) }
{
    push_id(text, field)?;
    push_source(text, field)?;
    push_transform(text, field)?;
    text.extend_from_slice(b" name ")?;
    push_last(text, field.name.as_bytes())?;
    text.extend_from_slice(b"\n")
}

/// Puts the lines of partition fields last.
fn push_fields(text: &mut Vec<u8>, fields: &[PartitionField]) -> Result<(), AllocError>
    ensures { OnOk result (text.new.items ≡ text.old.items ++ flat_map field_line fields.now) }
{
    'fields: for field in fields {
        push_field(text, field)?;
    }
    Ok(())
}

/// Puts the line of a partition spec last.
#[tactic(auto, unfolding(icescan_print::specs::TableTexts::spec_line))]
fn push_spec_line(text: &mut Vec<u8>, spec: &Spec) -> Result<(), AllocError>
    ensures { OnOk result (text.new.items ≡ text.old.items ++ spec_line spec.now) }
{
    push_int(text, b"spec ", spec.id)?;
    push_number(text, b" fields ", spec.fields.as_slice().len())?;
    text.extend_from_slice(b"\n")
}

/// Puts the lines of a partition spec and of its fields last.
#[tactic(auto, unfolding(crate::specs::Texts::spec_text))]
fn push_spec(text: &mut Vec<u8>, spec: &Spec) -> Result<(), AllocError>
    ensures { OnOk result (text.new.items ≡ text.old.items ++ spec_text spec.now) }
{
    push_spec_line(text, spec)?;
    push_fields(text, spec.fields.as_slice())
}

/// Puts the lines of partition specs last.
fn push_specs(text: &mut Vec<u8>, specs: &[Spec]) -> Result<(), AllocError>
    ensures { OnOk result (text.new.items ≡ text.old.items ++ flat_map spec_text specs.now) }
{
    'specs: for spec in specs {
        push_spec(text, spec)?;
    }
    Ok(())
}

/// Puts the line that names the spec of new files last.
#[tactic(auto, unfolding(crate::specs::Texts::default_line))]
fn push_default(text: &mut Vec<u8>, table: &Table) -> Result<(), AllocError>
    ensures { OnOk result (text.new.items ≡ text.old.items ++ default_line table.now) }
{
    push_int(text, b"default-spec ", table.default_spec_id)?;
    text.extend_from_slice(b"\n")
}

/// The text of a schema's columns and of the partition specs that this metadata says.
#[tactic(auto, unfolding(crate::specs::Texts::columns_text))]
pub fn columns_lines(
    alloc: Global,
    metadata: &Metadata,
    schema: &Schema,
) -> Result<Vec<u8>, AllocError>
    ensures { IfOk result (λ text. text.items ≡ columns_text (view metadata.now.json) schema.now metadata.now.table) }
{
    let told = told_columns(alloc, metadata.json(), schema)?;
    let mut text = Vec::new(alloc);
    push_schema(&mut text, schema)?;
    push_columns(&mut text, alloc, &told)?;
    push_default(&mut text, metadata.table())?;
    push_specs(&mut text, metadata.table().specs.as_slice())?;
    Ok(text)
}
