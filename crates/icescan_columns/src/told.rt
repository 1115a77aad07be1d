//! What is told of a schema's columns.

ghost use Rattle.std.specs.Prelude.{◌≡◌, IfOk, map};
ghost use Rattle.serde_json.specs.View.{view};
ghost use Rattle.icescan_columns.specs.JsonTypes.{seen};
ghost use Rattle.icescan_columns.specs.Texts.{compared_word};
ghost use Rattle.icescan_columns.specs.Told.{compared_type, how_compared, told_column, told_columns, type_word};

use crate::json_types::{all_types, is_required, nested_word, schema_in, type_of};
use crate::names::{all_names, names_of};
use crate::type_names::type_text;
use contract_words::Text;
use ice_filter::Column as Names;
use ice_meta::{Column, Schema};
use ice_value::ColumnType;
use serde_json::Value;
use std::alloc::{AllocError, Global};

/// How a filter may compare a column.
#[derive(Clone, Copy, Debug, PartialEq, Eq)]
pub enum Compared {
    /// By each comparison.
    InOrder,
    /// By `=`, `!=`, `in` and `is null` alone.
    ForEquality,
    /// By none.
    Never,
}

impl Compared {
    /// The word that tells it.
    pub fn word(self) -> &'static [u8]
        ensures { result.now ≡ compared_word self }
    {
        match self {
            Compared::InOrder => b"yes",
            Compared::ForEquality => b"equality",
            Compared::Never => b"no",
        }
    }
}

/// What is told of a column.
#[derive(Drop)]
pub struct ToldColumn {
    pub id: i32,
    /// The text of a primitive type, or `struct`, `list` or `map`.
    pub type_word: Text,
    /// It has a value wherever the row, struct, list or map around it has one.
    pub required: bool,
    pub compared: Compared,
    /// The names that lead to it from the row, where it is a field of the row or of structs alone.
    pub names: Option<Names>,
}

/// How a filter may compare values of a type.
fn compared_type(column_type: Option<ColumnType>) -> Compared
    ensures { result ≡ compared_type column_type }
{
    let Some(column_type) = column_type else {
        return Compared::Never;
    };
    match column_type {
        ColumnType::Float | ColumnType::Double | ColumnType::Decimal { .. } => Compared::Never,
        ColumnType::Uuid => Compared::ForEquality,
        _ => Compared::InOrder,
    }
}

/// How a filter may compare a column, to which these names lead.
fn how_compared(names: &Option<Names>, column: &Column) -> Compared
    ensures { result ≡ how_compared names.now column.now }
{
    match names {
        Some(_) => compared_type(column.column_type),
        None => Compared::Never,
    }
}

/// The word for a type.
fn type_word<'a>(
    alloc: Global,
    column_type: Option<ColumnType>,
    found: Option<&'a Value>,
) -> Result<Text, AllocError>
    ensures { IfOk result (λ word. word ≡ type_word column_type (seen found.entry)) }
{
    match column_type {
        Some(column_type) => type_text(alloc, column_type),
        None => Ok(Text::from_string(String::from_str(alloc, nested_word(found))?)),
    }
}

/// What is told of a column, where its schema's JSON and the types and names of the columns before it are known.
fn told_column<'a>(
    alloc: Global,
    schema: Option<&'a Value>,
    types: &[Option<&'a Value>],
    names: &[Option<Names>],
    column: &Column,
) -> Result<ToldColumn, AllocError>
    ensures { IfOk result (λ told. told ≡
        told_column (seen schema.entry) (map seen types.now) names.now column.now) }
{
    let names = names_of(alloc, names, column)?;
    Ok(ToldColumn {
        id: column.id,
        type_word: type_word(alloc, column.column_type, type_of(schema, types, column))?,
        required: is_required(schema, types, column),
        compared: how_compared(&names, column),
        names,
    })
}

/// What is told of the columns of a schema of this metadata.
pub fn told_columns(
    alloc: Global,
    metadata: &Value,
    schema: &Schema,
) -> Result<Vec<ToldColumn>, AllocError>
    ensures { IfOk result (λ told. told.items ≡ told_columns (view metadata.now) schema.now) }
{
    let columns = schema.columns.as_slice();
    let json = schema_in(metadata, schema.id);
    let types = all_types(alloc, json, columns)?;
    let names = all_names(alloc, columns)?;
    let mut told = Vec::new(alloc);
    'columns: for column in columns {
        told.push(told_column(alloc, json, &types, &names, column)?)?;
    }
    Ok(told)
}
