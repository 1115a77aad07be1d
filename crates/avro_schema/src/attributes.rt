//! What an object's attributes say.

ghost use Rattle.std.specs.Prelude.{◌≡◌, codes, option_map, Option};
ghost use Rattle.serde_json.specs.View.{view, items_view};
ghost use Rattle.avro_schema.specs.View.{tree};
ghost use Rattle.avro_schema.specs.Attributes.{text_in, name_in, is_object, is_text, all_items, items_in, symbols_in};
ghost use Rattle.avro_schema.specs.Attributes.{number_in, id_of, id_in, array_kind, bytes_kind, size_of, size_in};
ghost use Rattle.avro_schema.specs.Attributes.{plain, kind_of};

use crate::schema::{ArrayKind, BytesKind, Schema};
use serde_json::Value;

/// What the type of an object says that it is.
#[derive(Clone, Copy, Debug, PartialEq, Eq)]
pub enum Kind {
    Array,
    Map,
    Record,
    Enum,
    Fixed,
    Bytes,
    /// Another type without parts, or a name.
    Word,
}

/// The type of this name that has no parts.
pub fn plain_of(name: &str) -> Option<Schema>
    ensures { option_map tree result ≡ plain name.now }
{
    match name {
        "null" => Some(Schema::Null),
        "boolean" => Some(Schema::Boolean),
        "int" => Some(Schema::Int),
        "long" => Some(Schema::Long),
        "float" => Some(Schema::Float),
        "double" => Some(Schema::Double),
        "bytes" => Some(Schema::Bytes(BytesKind::Plain)),
        "string" => Some(Schema::String),
        _ => None,
    }
}

/// What a type text says.
pub fn kind_from(name: &str) -> Kind
    ensures { result ≡ kind_of name.now }
{
    match name {
        "array" => Kind::Array,
        "map" => Kind::Map,
        "record" => Kind::Record,
        "enum" => Kind::Enum,
        "fixed" => Kind::Fixed,
        "bytes" => Kind::Bytes,
        _ => Kind::Word,
    }
}

/// The text at a key of an object.
pub fn text_at<'a>(json: &'a Value, key: &str) -> Option<&'a str>
    ensures { option_map (λ t. t.now) result ≡ text_in key.now (view json.now) }
{
    json.get(key)?.as_str()
}

/// The name that an object gives, unless it is empty.
pub fn name_of<'a>(json: &'a Value) -> Option<&'a str>
    ensures { option_map (λ t. t.now) result ≡ name_in (view json.now) }
{
    let name = text_at(json, "name")?;
    if name.is_empty() { None } else { Some(name) }
}

/// Whether each item is an object.
fn all_objects(items: &Vec<Value>) -> bool
    ensures { result ≡ all_items is_object (items_view items.now.items) }
{
    'items: for item in items {
        if !item.is_object() {
            return false;
        }
    }
    true
}

/// Whether each item is a text.
fn all_texts(items: &Vec<Value>) -> bool
    ensures { result ≡ all_items is_text (items_view items.now.items) }
{
    'items: for item in items {
        if !item.is_string() {
            return false;
        }
    }
    true
}

/// The objects that a record's fields are.
pub fn fields_in<'a>(json: &'a Value) -> Option<&'a Vec<Value>>
    ensures { option_map (λ v. items_view v.now.items) result ≡ items_in is_object (codes "fields") (view json.now) }
{
    let items = json.get("fields")?.as_array()?;
    if all_objects(items) {
        Some(items)
    } else {
        None
    }
}

/// How many symbols an enum has.
#[tactic(auto, using(crate::proofs::Walks::items_count))]
pub fn symbol_count(json: &Value) -> Option<usize>
    ensures { result ≡ symbols_in (view json.now) }
{
    let items = json.get("symbols")?.as_array()?;
    if all_texts(items) {
        Some(items.len())
    } else {
        None
    }
}

/// The whole number of 64 bits at a key of an object.
fn number_at(json: &Value, key: &str) -> Option<i64>
    ensures { result ≡ number_in key.now (view json.now) }
{
    json.get(key)?.as_i64()
}

/// The id that a number is, where it has 32 bits.
fn id_from(number: i64) -> Option<i32>
    ensures { result ≡ id_of number }
{
    if number < -2147483648 || number > 2147483647 {
        None
    } else {
        Some(number as i32)
    }
}

/// The size that a number is, where it is none below zero and has 32 bits.
fn size_from(number: i64) -> Option<u32>
    ensures { result ≡ size_of number }
{
    if number < 0 || number > 2147483647 {
        None
    } else {
        Some(number as u32)
    }
}

/// The id at a key, where it is a 32-bit whole number.
pub fn id_at(json: &Value, key: &str) -> Option<i32>
    ensures { result ≡ id_in key.now (view json.now) }
{
    id_from(number_at(json, key)?)
}

/// What an array's items are.
pub fn array_kind_of(json: &Value) -> ArrayKind
    ensures { result ≡ array_kind (view json.now) }
{
    match text_at(json, "logicalType") {
        Some("map") => ArrayKind::Map,
        _ => ArrayKind::List,
    }
}

/// What bytes of any or of a fixed length are.
pub fn bytes_kind_of(json: &Value) -> BytesKind
    ensures { result ≡ bytes_kind (view json.now) }
{
    match text_at(json, "logicalType") {
        Some("decimal") => BytesKind::Decimal,
        _ => BytesKind::Plain,
    }
}

/// The size of a fixed.
pub fn fixed_size(json: &Value) -> Option<u32>
    ensures { result ≡ size_in (view json.now) }
{
    size_from(number_at(json, "size")?)
}
