//! Members of JSON objects, and items of arrays.

ghost use Rattle.std.specs.Prelude.{◌≡◌, IfOk};
ghost use Rattle.serde_json.specs.View.{view, items_view};
ghost use Rattle.ice_meta_json.specs.Objects.{inside, set, items_of, one_more};

use serde_json::{Map, Value, push, put};
use std::alloc::{AllocError, Global};

/// A copy of a member's value; null where it is left out.
pub fn inside(json: &Value, name: &str) -> Result<Value, AllocError>
    ensures { IfOk result (λ value. view value ≡ inside name.now (view json.now)) }
{
    match json.get(name) {
        Some(value) => value.clone(),
        None => Ok(Value::Null),
    }
}

/// The object in which a member has this value; what was no object has this member alone.
pub fn set(alloc: Global, json: Value, name: &str, value: Value) -> Result<Value, AllocError>
    ensures { IfOk result (λ object. view object ≡ set name.now (view value) (view json)) }
{
    let mut members = match json {
        Value::Object(members) => members,
        _ => Map::new(alloc),
    };
    put(&mut members, alloc, name, value)?;
    Ok(Value::from(members))
}

/// The items of an array; what is no array has none.
pub fn items_of(alloc: Global, json: Value) -> Vec<Value>
    ensures { items_view result.items ≡ items_of (view json) }
{
    match json {
        Value::Array(items) => items,
        _ => Vec::new(alloc),
    }
}

/// The array with one more item at its end; what was no array has this item alone.
#[tactic(auto, using(crate::proofs::Joined::items_at_end), unfolding(crate::specs::Objects::one_more))]
pub fn one_more(alloc: Global, json: Value, item: Value) -> Result<Value, AllocError>
    ensures { IfOk result (λ array. view array ≡ one_more (view item) (view json)) }
{
    let mut items = items_of(alloc, json);
    push(&mut items, item)?;
    Ok(Value::from(items))
}
