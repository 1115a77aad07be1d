//! Where the columns of a schema stand in the metadata's JSON.

ghost use Rattle.std.specs.Prelude.{◌≡◌, IfOk, map};
ghost use Rattle.serde_json.specs.View.{view, items_view};
ghost use Rattle.icescan_columns.specs.JsonTypes.{all_types, around_in, first_with, has_id, is_flagged, is_required};
ghost use Rattle.icescan_columns.specs.JsonTypes.{item_with, needs_value, nested_word, schema_in, seen};
ghost use Rattle.icescan_columns.specs.JsonTypes.{type_of, type_within};

use ice_meta::Column;
use serde_json::Value;
use std::alloc::{AllocError, Global};

/// Whether a member is this number.
fn has_id(json: &Value, member: &str, id: i32) -> bool
    ensures { result ≡ has_id member.now id (view json.now) }
{
    match json.get(member) {
        Some(number) => match number.as_i64() {
            Some(number) => number == i64::from(id),
            None => false,
        },
        None => false,
    }
}

/// Whether a member is true.
fn is_flagged(json: &Value, member: &str) -> bool
    ensures { result ≡ is_flagged member.now (view json.now) }
{
    match json.get(member) {
        Some(flag) => match flag.as_bool() {
            Some(flag) => flag,
            None => false,
        },
        None => false,
    }
}

/// The first item in which a member is this number.
fn first_with<'a>(items: &'a Vec<Value>, member: &str, id: i32) -> Option<&'a Value>
    ensures { seen result ≡ first_with member.now id (items_view items.now.items) }
{
    'items: for item in items {
        if has_id(item, member, id) {
            return Some(item);
        }
    }
    None
}

/// The first item of an array in which a member is this number.
fn item_with<'a>(json: &'a Value, array: &str, member: &str, id: i32) -> Option<&'a Value>
    ensures { seen result ≡ item_with array.now member.now id (view json.now) }
{
    match json.get(array) {
        Some(Value::Array(items)) => first_with(items, member, id),
        _ => None,
    }
}

/// The schema of this id.
pub fn schema_in<'a>(metadata: &'a Value, id: i32) -> Option<&'a Value>
    ensures { seen result ≡ schema_in id (view metadata.now) }
{
    item_with(metadata, "schemas", "schema-id", id)
}

/// The type of a column, in the row, struct, list or map around it.
fn type_within<'a>(around: &'a Value, column: &Column) -> Option<&'a Value>
    ensures { seen result ≡ type_within column.now (view around.now) }
{
    match &column.name {
        Some(_) => item_with(around, "fields", "id", column.id)?.get("type"),
        None => {
            if has_id(around, "element-id", column.id) {
                around.get("element")
            } else if has_id(around, "key-id", column.id) {
                around.get("key")
            } else {
                around.get("value")
            }
        }
    }
}

/// Whether a column has a value wherever the row, struct, list or map around it has one.
fn needs_value(around: &Value, column: &Column) -> bool
    ensures { result ≡ needs_value column.now (view around.now) }
{
    match &column.name {
        Some(_) => match item_with(around, "fields", "id", column.id) {
            Some(field) => is_flagged(field, "required"),
            None => false,
        },
        None => {
            if has_id(around, "element-id", column.id) {
                is_flagged(around, "element-required")
            } else {
                has_id(around, "key-id", column.id) || is_flagged(around, "value-required")
            }
        }
    }
}

/// The row, or the struct, list or map at a place.
fn around_in<'a>(
    schema: Option<&'a Value>,
    types: &[Option<&'a Value>],
    place: Option<usize>,
) -> Option<&'a Value>
    ensures { seen result
        ≡ around_in (seen schema.entry) (map seen types.now) place }
{
    let Some(place) = place else {
        return schema;
    };
    match types.get(place) {
        Some(found) => *found,
        None => None,
    }
}

/// The type of a column, where those of the columns before it are known.
pub fn type_of<'a>(
    schema: Option<&'a Value>,
    types: &[Option<&'a Value>],
    column: &Column,
) -> Option<&'a Value>
    ensures { seen result
        ≡ type_of (seen schema.entry) (map seen types.now) column.now }
{
    type_within(around_in(schema, types, column.around)?, column)
}

/// Whether a column is required, where the types of the columns before it are known.
pub fn is_required<'a>(
    schema: Option<&'a Value>,
    types: &[Option<&'a Value>],
    column: &Column,
) -> bool
    ensures { result ≡ is_required (seen schema.entry) (map seen types.now) column.now }
{
    match around_in(schema, types, column.around) {
        Some(around) => needs_value(around, column),
        None => false,
    }
}

/// The types of a schema's columns, at the columns' places.
pub fn all_types<'a>(
    alloc: Global,
    schema: Option<&'a Value>,
    columns: &[Column],
) -> Result<Vec<Option<&'a Value>>, AllocError>
    ensures { IfOk result (λ types. map seen types.items
        ≡ all_types (seen schema.entry) columns.now) }
{
    let mut types = Vec::new(alloc);
    'columns: for column in columns {
        let found = type_of(schema, &types, column);
        types.push(found)?;
    }
    Ok(types)
}

/// The word for a type that has columns inside it: `struct`, `list` or `map`.
pub fn nested_word<'a>(found: Option<&'a Value>) -> &'a str
    ensures { result.now ≡ nested_word (seen found.entry) }
{
    let Some(found) = found else {
        return "-";
    };
    match found.get("type") {
        Some(kind) => match kind.as_str() {
            Some(word) => word,
            None => "-",
        },
        None => "-",
    }
}
