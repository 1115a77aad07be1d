//! Schemas from their JSON.

ghost use Rattle.std.specs.Prelude.{◌≡◌, None, Some, option_map, IfOk};
ghost use Rattle.contract_words.specs.Outcome.{Gives};
ghost use Rattle.serde_json.specs.View.{view, items_view};
ghost use Rattle.ice_meta.specs.Reading.{each_into};
ghost use Rattle.ice_meta.specs.Schemas.{type_in, within, added, field_at, fields_at, list_at, map_at, of_name};
ghost use Rattle.ice_meta.specs.Schemas.{object_at, inside, if_struct};

use crate::fault::{Member, MetaFault};
use crate::from_json::FromJson;
use crate::members::{flag_at, int_at, kept, kept_text_at, objects_at, text_at, there};
use crate::numbered::once;
use crate::schema::{Column, Schema};
use crate::types::primitive;
use contract_words::{Items, Text};
use ice_value::ColumnType;
use serde_json::Value;
use std::alloc::Global;

/// How many levels a type may have: JSON nests no deeper.
pub const MOST_LEVELS: u32 = 127;

/// The type that a value is: a primitive one, or one with columns inside it.
fn type_from(alloc: Global, json: &Value, member: Member) -> Result<Option<ColumnType>, MetaFault>
    ensures { Gives MetaFault.Memory (λ column_type. column_type) result (type_in member (view json.now)) }
{
    match json {
        Value::String(text) => match primitive(text.as_str()) {
            Some(column_type) => Ok(Some(column_type)),
            None => Err(MetaFault::UnknownType(kept(alloc, text.as_str())?)),
        },
        Value::Object(_) => Ok(None),
        _ => Err(MetaFault::WrongKind(member)),
    }
}

/// One more column, whose type is at a member, and those inside it.
#[cycle(columns)]
#[tactic(auto, unfolding(crate::specs::Schemas::added))]
fn added(
    alloc: Global,
    json: &Value,
    member: Member,
    levels: u32,
    around: Option<usize>,
    name: Option<Text>,
    id: i32,
    columns: Items<Column>,
) -> Result<Items<Column>, MetaFault>
    ensures { Gives MetaFault.Memory (λ columns. columns) result
        (added (inside levels) around name id member (view json.now) columns) }
{
    let whole = there(json, member)?;
    let column_type = type_from(alloc, whole, member)?;
    let mut columns = columns;
    let place = columns.as_slice().len();
    columns.push(Column {
        id,
        around,
        name,
        column_type,
    })?;
    match column_type {
        Some(_) => Ok(columns),
        None => inside_of(alloc, whole, levels, place, columns),
    }
}

/// A field, and the columns inside it.
#[cycle(columns)]
#[tactic(auto, unfolding(crate::specs::Schemas::field_at))]
fn field_of(
    alloc: Global,
    json: &Value,
    levels: u32,
    around: Option<usize>,
    columns: Items<Column>,
) -> Result<Items<Column>, MetaFault>
    ensures { Gives MetaFault.Memory (λ columns. columns) result
        (field_at (inside levels) around (view json.now) columns) }
{
    let id = int_at(json, Member::Id)?;
    let name = kept_text_at(alloc, json, Member::Name)?;
    flag_at(json, Member::Required)?;
    added(
        alloc,
        json,
        Member::Type,
        levels,
        around,
        Some(name),
        id,
        columns,
    )
}

/// The fields of a struct, or of the row, in their order.
#[cycle(columns)]
fn each_field(
    alloc: Global,
    items: &Vec<Value>,
    levels: u32,
    around: Option<usize>,
    columns: Items<Column>,
) -> Result<Items<Column>, MetaFault>
    ensures { Gives MetaFault.Memory (λ columns. columns) result
        (each_into (field_at (inside levels) around) (items_view items.now.items) columns) }
{
    let mut now = columns;
    'fields: for item in items {
        now = field_of(alloc, item, levels, around, now)?;
    }
    Ok(now)
}

/// The fields of a struct, or of the row.
#[cycle(columns)]
#[tactic(auto, unfolding(crate::specs::Schemas::fields_at))]
fn fields_of(
    alloc: Global,
    json: &Value,
    levels: u32,
    around: Option<usize>,
    columns: Items<Column>,
) -> Result<Items<Column>, MetaFault>
    ensures { Gives MetaFault.Memory (λ columns. columns) result
        (fields_at (inside levels) around (view json.now) columns) }
{
    let items = objects_at(json, Member::Fields)?;
    each_field(alloc, items, levels, around, columns)
}

/// The element of a list.
#[cycle(columns)]
#[tactic(auto, unfolding(crate::specs::Schemas::list_at))]
fn list_of(
    alloc: Global,
    json: &Value,
    levels: u32,
    place: usize,
    columns: Items<Column>,
) -> Result<Items<Column>, MetaFault>
    ensures { Gives MetaFault.Memory (λ columns. columns) result
        (list_at (inside levels) place (view json.now) columns) }
{
    let id = int_at(json, Member::ElementId)?;
    added(
        alloc,
        json,
        Member::Element,
        levels,
        Some(place),
        None,
        id,
        columns,
    )
}

/// The key and the value of a map.
#[cycle(columns)]
#[tactic(auto, unfolding(crate::specs::Schemas::map_at))]
fn map_of(
    alloc: Global,
    json: &Value,
    levels: u32,
    place: usize,
    columns: Items<Column>,
) -> Result<Items<Column>, MetaFault>
    ensures { Gives MetaFault.Memory (λ columns. columns) result
        (map_at (inside levels) place (view json.now) columns) }
{
    let key_id = int_at(json, Member::KeyId)?;
    let columns = added(
        alloc,
        json,
        Member::Key,
        levels,
        Some(place),
        None,
        key_id,
        columns,
    )?;
    let value_id = int_at(json, Member::ValueId)?;
    added(
        alloc,
        json,
        Member::Value,
        levels,
        Some(place),
        None,
        value_id,
        columns,
    )
}

/// The columns inside a struct, a list or a map.
#[cycle(columns)]
#[tactic(auto, unfolding(crate::specs::Schemas::object_at))]
fn object_of(
    alloc: Global,
    json: &Value,
    levels: u32,
    place: usize,
    columns: Items<Column>,
) -> Result<Items<Column>, MetaFault>
    ensures { Gives MetaFault.Memory (λ columns. columns) result
        (object_at (inside levels) place (view json.now) columns) }
{
    match text_at(json, Member::Type)? {
        "struct" => fields_of(alloc, json, levels, Some(place), columns),
        "list" => list_of(alloc, json, levels, place, columns),
        "map" => map_of(alloc, json, levels, place, columns),
        text => Err(MetaFault::UnknownType(kept(alloc, text)?)),
    }
}

/// The columns inside a type that has so many levels at most.
#[cycle(columns)]
fn inside_of(
    alloc: Global,
    json: &Value,
    levels: u32,
    place: usize,
    columns: Items<Column>,
) -> Result<Items<Column>, MetaFault>
    ensures { Gives MetaFault.Memory (λ columns. columns) result (inside levels place (view json.now) columns) }
{
    if levels == 0 {
        return Err(MetaFault::TooBig);
    }
    object_of(alloc, json, levels - 1, place, columns)
}

/// Stops where a schema is no struct.
fn check_struct(alloc: Global, text: &str) -> Result<(), MetaFault>
    ensures { Gives MetaFault.Memory (λ _. text.now) result (if_struct text.now) }
{
    match text {
        "struct" => Ok(()),
        _ => Err(MetaFault::UnknownType(kept(alloc, text)?)),
    }
}

impl FromJson for Schema {
    ghost use Rattle.ice_meta.specs.Schemas.{schema_of};

    ghost said = { schema_of };

    #[tactic(auto, unfolding(crate::specs::Schemas::schema_of))]
    fn from_json(alloc: Global, json: &Value) -> Result<Schema, MetaFault> {
        check_struct(alloc, text_at(json, Member::Type)?)?;
        let id = int_at(json, Member::SchemaId)?;
        let columns = fields_of(alloc, json, MOST_LEVELS, None, Items::new(alloc))?;
        Ok(Schema {
            id,
            columns: once(alloc, columns)?,
        })
    }
}
