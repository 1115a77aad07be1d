//! The text of a schema, with the members that are read alone.

ghost use Rattle.std.specs.Prelude.{◌≡◌, IfOk, option_map, unwrap_or};
ghost use Rattle.serde_json.specs.Data.{null};
ghost use Rattle.serde_json.specs.View.{view, items_view};
ghost use Rattle.ice_meta_json.specs.Objects.{no_object};
ghost use Rattle.ice_meta.specs.SchemaTexts.{text_of as text_in, number_of as number_in, flag_of as flag_in};
ghost use Rattle.ice_meta.specs.SchemaTexts.{type_of as type_with, type_at as type_in, with as with_member};
ghost use Rattle.ice_meta.specs.SchemaTexts.{field_of as field_in, each_field as each_in, fields_of as fields_in};
ghost use Rattle.ice_meta.specs.SchemaTexts.{struct_of as struct_in, list_of as list_in, map_of as map_in};
ghost use Rattle.ice_meta.specs.SchemaTexts.{object_of as object_in, nested_in, schema_json as json_of_schema};
ghost use Rattle.ice_meta.specs.SchemaTexts.{schema_text as text_for, has_number as has_number_of};
ghost use Rattle.ice_meta.specs.SchemaTexts.{first_with as first_of, schema_in};

use crate::columns::MOST_LEVELS;
use crate::fault::Member;
use contract_words::Text;
use ice_meta_json::set;
use serde_json::{Map, Value, push};
use std::alloc::{AllocError, Global};

/// The object without members.
fn no_object(alloc: Global) -> Value
    ensures { view result ≡ no_object }
{
    Value::from(Map::new(alloc))
}

/// The object in which a member has this value.
fn with(alloc: Global, json: Value, member: Member, value: Value) -> Result<Value, AllocError>
    ensures { IfOk result (λ object. view object ≡ with_member member (view value) (view json)) }
{
    set(alloc, json, member.name(), value)
}

/// The text of a member; null where it has none.
fn text_of(alloc: Global, json: &Value, member: Member) -> Result<Value, AllocError>
    ensures { IfOk result (λ text. view text ≡ text_in member (view json.now)) }
{
    match json.get(member.name()) {
        Some(value) => match value.as_str() {
            Some(text) => Value::try_from_str(alloc, text),
            None => Ok(Value::Null),
        },
        None => Ok(Value::Null),
    }
}

/// The whole number of a member; null where it has none.
fn number_of(json: &Value, member: Member) -> Value
    ensures { view result ≡ number_in member (view json.now) }
{
    match json.get(member.name()) {
        Some(value) => match value.as_i64() {
            Some(number) => Value::from(number),
            None => Value::Null,
        },
        None => Value::Null,
    }
}

/// The truth of a member; null where it has none.
fn flag_of(json: &Value, member: Member) -> Value
    ensures { view result ≡ flag_in member (view json.now) }
{
    match json.get(member.name()) {
        Some(value) => match value.as_bool() {
            Some(flag) => Value::from(flag),
            None => Value::Null,
        },
        None => Value::Null,
    }
}

/// A type.
#[cycle(texts)]
fn type_of(alloc: Global, json: &Value, levels: u32) -> Result<Value, AllocError>
    ensures { IfOk result (λ kind. view kind ≡ type_with (nested_in levels) (view json.now)) }
{
    match json {
        Value::String(text) => Value::try_from_str(alloc, text.as_str()),
        Value::Object(_) => nested_of(alloc, json, levels),
        _ => Ok(Value::Null),
    }
}

/// The type of a member; null where it has none.
#[cycle(texts)]
fn type_at(alloc: Global, json: &Value, member: Member, levels: u32) -> Result<Value, AllocError>
    ensures { IfOk result (λ kind. view kind ≡ type_in (nested_in levels) member (view json.now)) }
{
    match json.get(member.name()) {
        Some(value) => type_of(alloc, value, levels),
        None => Ok(Value::Null),
    }
}

/// A field of a struct, or of the row.
#[cycle(texts)]
fn field_of(alloc: Global, json: &Value, levels: u32) -> Result<Value, AllocError>
    ensures { IfOk result (λ field. view field ≡ field_in (nested_in levels) (view json.now)) }
{
    let field = no_object(alloc);
    let kind = type_at(alloc, json, Member::Type, levels)?;
    let field = with(alloc, field, Member::Type, kind)?;
    let field = with(
        alloc,
        field,
        Member::Required,
        flag_of(json, Member::Required),
    )?;
    let name = text_of(alloc, json, Member::Name)?;
    let field = with(alloc, field, Member::Name, name)?;
    with(alloc, field, Member::Id, number_of(json, Member::Id))
}

#[cycle(texts)]
fn each_field(alloc: Global, items: &Vec<Value>, levels: u32) -> Result<Vec<Value>, AllocError>
    ensures { IfOk result (λ fields. items_view fields.items ≡
        each_in (nested_in levels) (items_view items.now.items)) }
{
    let mut fields = Vec::new(alloc);
    'fields: for item in items {
        push(&mut fields, field_of(alloc, item, levels)?)?;
    }
    Ok(fields)
}

/// The fields of a struct, or of the row.
#[cycle(texts)]
fn fields_of(alloc: Global, json: &Value, levels: u32) -> Result<Value, AllocError>
    ensures { IfOk result (λ fields. view fields ≡ fields_in (nested_in levels) (view json.now)) }
{
    match json.get(Member::Fields.name()) {
        Some(Value::Array(items)) => Ok(Value::from(each_field(alloc, items, levels)?)),
        _ => Ok(Value::from(Vec::new(alloc))),
    }
}

#[cycle(texts)]
fn struct_of(alloc: Global, json: &Value, levels: u32) -> Result<Value, AllocError>
    ensures { IfOk result (λ kind. view kind ≡ struct_in (nested_in levels) (view json.now)) }
{
    let fields = fields_of(alloc, json, levels)?;
    let kind = with(alloc, no_object(alloc), Member::Fields, fields)?;
    let name = text_of(alloc, json, Member::Type)?;
    with(alloc, kind, Member::Type, name)
}

#[cycle(texts)]
fn list_of(alloc: Global, json: &Value, levels: u32) -> Result<Value, AllocError>
    ensures { IfOk result (λ kind. view kind ≡ list_in (nested_in levels) (view json.now)) }
{
    let element = type_at(alloc, json, Member::Element, levels)?;
    let kind = with(alloc, no_object(alloc), Member::Element, element)?;
    let id = number_of(json, Member::ElementId);
    let kind = with(alloc, kind, Member::ElementId, id)?;
    let name = text_of(alloc, json, Member::Type)?;
    with(alloc, kind, Member::Type, name)
}

#[cycle(texts)]
fn map_of(alloc: Global, json: &Value, levels: u32) -> Result<Value, AllocError>
    ensures { IfOk result (λ kind. view kind ≡ map_in (nested_in levels) (view json.now)) }
{
    let value = type_at(alloc, json, Member::Value, levels)?;
    let kind = with(alloc, no_object(alloc), Member::Value, value)?;
    let kind = with(
        alloc,
        kind,
        Member::ValueId,
        number_of(json, Member::ValueId),
    )?;
    let key = type_at(alloc, json, Member::Key, levels)?;
    let kind = with(alloc, kind, Member::Key, key)?;
    let kind = with(alloc, kind, Member::KeyId, number_of(json, Member::KeyId))?;
    let name = text_of(alloc, json, Member::Type)?;
    with(alloc, kind, Member::Type, name)
}

/// A struct, a list or a map; those inside it have so many levels at most.
#[cycle(texts)]
fn object_of(alloc: Global, json: &Value, levels: u32) -> Result<Value, AllocError>
    ensures { IfOk result (λ kind. view kind ≡ object_in (nested_in levels) (view json.now)) }
{
    let Some(kind) = json.get(Member::Type.name()) else {
        return Ok(Value::Null);
    };
    let Some(name) = kind.as_str() else {
        return Ok(Value::Null);
    };
    match name {
        "struct" => struct_of(alloc, json, levels),
        "list" => list_of(alloc, json, levels),
        "map" => map_of(alloc, json, levels),
        _ => Ok(Value::Null),
    }
}

/// A struct, a list or a map that has so many levels at most.
#[cycle(texts)]
fn nested_of(alloc: Global, json: &Value, levels: u32) -> Result<Value, AllocError>
    ensures { IfOk result (λ kind. view kind ≡ nested_in levels (view json.now)) }
{
    if levels == 0 {
        return Ok(Value::Null);
    }
    object_of(alloc, json, levels - 1)
}

/// The JSON of a schema, with the members that are read alone.
#[tactic(auto, unfolding(crate::specs::SchemaTexts::schema_json))]
fn schema_json(alloc: Global, json: &Value) -> Result<Value, AllocError>
    ensures { IfOk result (λ schema. view schema ≡ json_of_schema (view json.now)) }
{
    let fields = fields_of(alloc, json, MOST_LEVELS)?;
    let schema = with(alloc, no_object(alloc), Member::Fields, fields)?;
    let schema = with(
        alloc,
        schema,
        Member::SchemaId,
        number_of(json, Member::SchemaId),
    )?;
    let name = text_of(alloc, json, Member::Type)?;
    with(alloc, schema, Member::Type, name)
}

/// Its text.
fn schema_text(alloc: Global, json: &Value) -> Result<Text, AllocError>
    ensures { IfOk result (λ text. text ≡ text_for (view json.now)) }
{
    Ok(Text::from_string(schema_json(alloc, json)?.to_string(alloc)?))
}

fn has_number(json: &Value, id: i32) -> bool
    ensures { result ≡ has_number_of id (view json.now) }
{
    match json.get(Member::SchemaId.name()) {
        Some(number) => match number.as_i64() {
            Some(number) => number == i64::from(id),
            None => false,
        },
        None => false,
    }
}

fn first_with(items: &Vec<Value>, id: i32) -> Option<&Value>
    ensures { unwrap_or (option_map (λ value. view value.now) result) null ≡ first_of id (items_view items.now.items) }
{
    'items: for item in items {
        if has_number(item, id) {
            return Some(item);
        }
    }
    None
}

/// The text of the schema of this id, which the metadata has.
#[tactic(auto, unfolding(crate::specs::SchemaTexts::schema_in))]
pub fn text_of_schema(alloc: Global, json: &Value, id: i32) -> Result<Text, AllocError>
    ensures { IfOk result (λ text. text ≡ text_for (schema_in id (view json.now))) }
{
    match json.get(Member::Schemas.name()) {
        Some(Value::Array(items)) => match first_with(items, id) {
            Some(schema) => schema_text(alloc, schema),
            None => schema_text(alloc, &Value::Null),
        },
        _ => schema_text(alloc, &Value::Null),
    }
}
