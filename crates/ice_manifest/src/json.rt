//! JSON that is written.

ghost use Rattle.std.specs.Prelude.{◌≡◌, IfOk};
ghost use Rattle.std.specs.Fmt.{signed_decimal};
ghost use Rattle.serde_json.specs.Data.{string};
ghost use Rattle.serde_json.specs.View.{view};
ghost use Rattle.ice_meta_json.specs.Objects.{whole, set, no_object};

use ice_meta_json::set;
use serde_json::{Map, Value};
use std::alloc::{AllocError, Global};

/// A number as JSON.
pub fn whole(number: i32) -> Value
    ensures { view result ≡ whole number }
{
    Value::from(number)
}

/// A text as JSON.
pub fn text(alloc: Global, text: &str) -> Result<Value, AllocError>
    ensures { IfOk result (λ json. view json ≡ string text.now) }
{
    Value::try_from_str(alloc, text)
}

/// The object without members.
pub fn no_object(alloc: Global) -> Value
    ensures { view result ≡ no_object }
{
    Value::from(Map::new(alloc))
}

/// The object in which a member has this text.
pub fn set_text(alloc: Global, json: Value, name: &str, value: &str) -> Result<Value, AllocError>
    ensures { IfOk result (λ object. view object ≡ set name.now (string value.now) (view json)) }
{
    set(alloc, json, name, text(alloc, value)?)
}
