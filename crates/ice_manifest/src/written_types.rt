//! Avro schemas that are written, as JSON.

ghost use Rattle.std.specs.Prelude.{◌≡◌, ◌∷◌, [], IfOk};
ghost use Rattle.serde_json.specs.Data.{string};
ghost use Rattle.serde_json.specs.View.{view, items_view};
ghost use Rattle.ice_manifest.specs.WrittenTypes.{typed_json, logical_json, timestamp_json, fixed_json, uuid_json};
ghost use Rattle.ice_manifest.specs.WrittenTypes.{array_json, list_json, map_json, structure_json, required_json};
ghost use Rattle.ice_manifest.specs.WrittenTypes.{or_null as null_or_json, optional_json};

use crate::json::{no_object, set_text, text, whole};
use ice_meta_json::set;
use serde_json::Value;
use std::alloc::{AllocError, Global};

fn typed(alloc: Global, name: &str) -> Result<Value, AllocError>
    ensures { IfOk result (λ json. view json ≡ typed_json name.now) }
{
    set_text(alloc, no_object(alloc), "type", name)
}

/// A primitive type that stands for another.
pub fn logical(alloc: Global, name: &str, logical: &str) -> Result<Value, AllocError>
    ensures { IfOk result (λ json. view json ≡ logical_json name.now logical.now) }
{
    set_text(alloc, typed(alloc, name)?, "logicalType", logical)
}

/// Microseconds, and whether they are adjusted to UTC.
pub fn timestamp(alloc: Global, adjusted: bool) -> Result<Value, AllocError>
    ensures { IfOk result (λ json. view json ≡ timestamp_json adjusted) }
{
    let json = logical(alloc, "long", "timestamp-micros")?;
    set(alloc, json, "adjust-to-utc", Value::from(adjusted))
}

/// So many bytes.
pub fn fixed(alloc: Global, name: &str, size: u32) -> Result<Value, AllocError>
    ensures { IfOk result (λ json. view json ≡ fixed_json name.now size) }
{
    let json = typed(alloc, "fixed")?;
    let json = set(alloc, json, "size", Value::from(size))?;
    set_text(alloc, json, "name", name)
}

/// The 16 bytes of a uuid.
pub fn uuid(alloc: Global, name: &str) -> Result<Value, AllocError>
    ensures { IfOk result (λ json. view json ≡ uuid_json name.now) }
{
    set_text(alloc, fixed(alloc, name, 16)?, "logicalType", "uuid")
}

fn array(alloc: Global, items: Value) -> Result<Value, AllocError>
    ensures { IfOk result (λ json. view json ≡ array_json (view items)) }
{
    set(alloc, typed(alloc, "array")?, "items", items)
}

/// A list, with the field id of its elements.
pub fn list(alloc: Global, element_id: i32, items: Value) -> Result<Value, AllocError>
    ensures { IfOk result (λ json. view json ≡ list_json element_id (view items)) }
{
    set(alloc, array(alloc, items)?, "element-id", whole(element_id))
}

/// A map, as a list of its pairs.
pub fn map(alloc: Global, pairs: Value) -> Result<Value, AllocError>
    ensures { IfOk result (λ json. view json ≡ map_json (view pairs)) }
{
    set_text(alloc, array(alloc, pairs)?, "logicalType", "map")
}

/// A record.
pub fn structure(alloc: Global, name: &str, fields: Vec<Value>) -> Result<Value, AllocError>
    ensures { IfOk result (λ json. view json ≡ structure_json name.now (items_view fields.items)) }
{
    let json = typed(alloc, "record")?;
    let json = set(alloc, json, "fields", Value::from(fields))?;
    set_text(alloc, json, "name", name)
}

/// A field that has a value.
pub fn required(alloc: Global, name: &str, id: i32, kind: Value) -> Result<Value, AllocError>
    ensures { IfOk result (λ json. view json ≡ required_json name.now id (view kind)) }
{
    let json = set(alloc, no_object(alloc), "type", kind)?;
    let json = set(alloc, json, "field-id", whole(id))?;
    set_text(alloc, json, "name", name)
}

/// Null or a type.
fn or_null(alloc: Global, kind: Value) -> Result<Value, AllocError>
    ensures { IfOk result (λ json. view json ≡ null_or_json (view kind)) }
{
    Ok(Value::from(vec![in alloc; text(alloc, "null")?, kind]?))
}

/// A field whose value may be null.
pub fn optional(alloc: Global, name: &str, id: i32, kind: Value) -> Result<Value, AllocError>
    ensures { IfOk result (λ json. view json ≡ optional_json name.now id (view kind)) }
{
    let json = required(alloc, name, id, or_null(alloc, kind)?)?;
    set(alloc, json, "default", Value::Null)
}
