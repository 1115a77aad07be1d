//! The walk over a schema's JSON.

ghost use Rattle.std.specs.Prelude.{◌≡◌, [], codes};
ghost use Rattle.serde_json.specs.View.{view, items_view};
ghost use Rattle.avro_schema.specs.Attributes.{text_in};
ghost use Rattle.avro_schema.specs.Joined.{joined};
ghost use Rattle.avro_schema.specs.Names.{or_around};
ghost use Rattle.contract_words.specs.Outcome.{Gives};
ghost use Rattle.avro_schema.specs.View.{tree, trees, parts};
ghost use Rattle.avro_schema.specs.Reading.{fresh, defines, branches_at, field_at, fields_at, record_at, array_at};
ghost use Rattle.avro_schema.specs.Reading.{map_at, enum_at, fixed_at, object_at, text_at as tree_of_word, union_at};
ghost use Rattle.avro_schema.specs.Reading.{node_at, tree_at};
ghost use Rattle.avro_schema.specs.Met.{met, Reads};
ghost use Rattle.avro_schema.specs.declared.reading.Role.TheVariants.{Branch, Elsewhere};

use crate::attributes::{
    Kind, array_kind_of, bytes_kind_of, fields_in, fixed_size, id_at, kind_from, name_of,
    symbol_count, text_at,
};
use crate::fault::SchemaFault;
use crate::full_name::FullName;
use crate::names::{Read, Seen, define, full_name, inner_space, named_at, set};
use crate::repeat::copy;
use crate::schema::{Field, Schema};
use serde_json::Value;
use std::sync::Arc;

/// What a type is in the one around it.
#[derive(Clone, Copy, Debug, PartialEq, Eq)]
pub enum Role {
    /// It is a branch of a union.
    Branch,
    Elsewhere,
}

/// The tree of a type, where so many levels may come.
#[cycle(schema)]
pub fn schema_of<'a>(
    json: &'a Value,
    levels: u32,
    role: Role,
    space: &'a [u8],
    seen: Seen<'a>,
) -> Read<'a>
    ensures { Reads result (tree_at levels role space.now (view json.now) (met seen.entry)) }
{
    if levels == 0 {
        return Err(SchemaFault::TooBig);
    }
    if seen.left == 0 {
        return Err(SchemaFault::TooBig);
    }
    let Seen { alloc, names, left } = seen;
    let now = Seen {
        alloc,
        names,
        left: left - 1,
    };
    node_of(json, levels - 1, role, space, now)
}

/// The tree of a type that was counted, where so many levels may be below it.
#[cycle(schema)]
#[tactic(auto, unfolding(crate::specs::Reading::node_at))]
fn node_of<'a>(json: &'a Value, most: u32, role: Role, space: &'a [u8], seen: Seen<'a>) -> Read<'a>
    ensures { Reads result (node_at (tree_at most) most role space.now (view json.now) (met seen.entry)) }
{
    match json {
        Value::String(text) => word_of(text.as_str(), most, space, seen),
        Value::Array(items) => union_of(items, most, role, space, seen),
        Value::Object(_) => object_of(json, most, space, seen),
        _ => Err(SchemaFault::UnknownType),
    }
}

/// The tree of a text that stands alone.
#[tactic(auto, unfolding(crate::specs::Reading::text_at))]
fn word_of<'a>(text: &'a str, most: u32, space: &'a [u8], seen: Seen<'a>) -> Read<'a>
    ensures { Reads result (tree_of_word most space.now text.now (met seen.entry)) }
{
    match kind_from(text) {
        Kind::Bytes | Kind::Word => named_at(text, most, space, seen),
        _ => Err(SchemaFault::UnknownType),
    }
}

/// The tree of a union, which is no branch of one.
#[cycle(schema)]
#[tactic(auto, unfolding(crate::specs::Reading::union_at))]
fn union_of<'a>(
    items: &'a Vec<Value>,
    most: u32,
    role: Role,
    space: &'a [u8],
    seen: Seen<'a>,
) -> Read<'a>
    ensures { Reads result (union_at (tree_at most) role space.now (items_view items.now.items) (met seen.entry)) }
{
    match role {
        Role::Branch => Err(SchemaFault::UnknownType),
        Role::Elsewhere => {
            let (branches, seen) = branches_of(items, most, space, seen)?;
            Ok((Schema::Union(Arc::new(seen.alloc, branches)?), seen))
        }
    }
}

/// The trees of a union's branches.
#[cycle(schema)]
fn branches_of<'a>(
    items: &'a Vec<Value>,
    most: u32,
    space: &'a [u8],
    seen: Seen<'a>,
) -> Result<(Vec<Schema>, Seen<'a>), SchemaFault>
    ensures { Gives SchemaFault.Memory (λ x. (trees x.0.items, met x.1)) result
        (branches_at (tree_at most Branch space.now) [] (items_view items.now.items) (met seen.entry)) }
{
    let mut branches = Vec::new(seen.alloc);
    let mut now = seen;
    'branches: for item in items {
        let (schema, after) = schema_of(item, most, Role::Branch, space, now)?;
        branches.push(schema)?;
        now = after;
    }
    Ok((branches, now))
}

/// The tree of an object, by what its type text says.
#[cycle(schema)]
#[tactic(auto, unfolding(crate::specs::Reading::object_at))]
fn object_of<'a>(json: &'a Value, most: u32, space: &'a [u8], seen: Seen<'a>) -> Read<'a>
    ensures { Reads result (object_at (tree_at most) most space.now (view json.now) (met seen.entry)) }
{
    let Some(text) = text_at(json, "type") else {
        return Err(SchemaFault::UnknownType);
    };
    match kind_from(text) {
        Kind::Array => array_of(json, most, space, seen),
        Kind::Map => map_of(json, most, space, seen),
        Kind::Record => record_of(json, most, space, seen),
        Kind::Enum => enum_of(json, space, seen),
        Kind::Fixed => fixed_of(json, space, seen),
        Kind::Bytes => Ok((Schema::Bytes(bytes_kind_of(json)), seen)),
        Kind::Word => named_at(text, most, space, seen),
    }
}

/// The tree of an array.
#[cycle(schema)]
#[tactic(auto, unfolding(crate::specs::Reading::array_at))]
fn array_of<'a>(json: &'a Value, most: u32, space: &'a [u8], seen: Seen<'a>) -> Read<'a>
    ensures { Reads result (array_at (tree_at most) space.now (view json.now) (met seen.entry)) }
{
    let Some(items) = json.get("items") else {
        return Err(SchemaFault::UnknownType);
    };
    let (schema, seen) = schema_of(items, most, Role::Elsewhere, space, seen)?;
    Ok((
        Schema::Array(
            Arc::new(seen.alloc, schema)?,
            id_at(json, "element-id"),
            array_kind_of(json),
        ),
        seen,
    ))
}

/// The tree of a map.
#[cycle(schema)]
#[tactic(auto, unfolding(crate::specs::Reading::map_at))]
fn map_of<'a>(json: &'a Value, most: u32, space: &'a [u8], seen: Seen<'a>) -> Read<'a>
    ensures { Reads result (map_at (tree_at most) space.now (view json.now) (met seen.entry)) }
{
    let Some(values) = json.get("values") else {
        return Err(SchemaFault::UnknownType);
    };
    let (schema, seen) = schema_of(values, most, Role::Elsewhere, space, seen)?;
    Ok((Schema::Map(Arc::new(seen.alloc, schema)?), seen))
}

/// The namespace that an object gives, or the one around it.
fn own_space<'a>(json: &'a Value, space: &'a [u8]) -> &'a [u8]
    ensures { result.now ≡ or_around (text_in (codes "namespace") (view json.now)) space.now }
{
    match text_at(json, "namespace") {
        Some(own) => own.as_bytes(),
        None => space,
    }
}

/// The full name that an object defines.
fn defined_name<'a>(json: &'a Value, name: &'a str, space: &'a [u8]) -> FullName<'a>
    ensures { joined result ≡ defines space.now name.now (view json.now) }
{
    full_name(own_space(json, space), name.as_bytes())
}

/// The tree of an enum, whose name is new.
#[tactic(auto, unfolding(crate::specs::Reading::enum_at))]
fn enum_of<'a>(json: &'a Value, space: &'a [u8], seen: Seen<'a>) -> Read<'a>
    ensures { Reads result (enum_at space.now (view json.now) (met seen.entry)) }
{
    let Some(name) = name_of(json) else {
        return Err(SchemaFault::UnknownType);
    };
    let Some(count) = symbol_count(json) else {
        return Err(SchemaFault::UnknownType);
    };
    let whole = defined_name(json, name, space);
    let now = define(whole, Some(Schema::Enum(count)), seen)?;
    Ok((Schema::Enum(count), now))
}

/// The tree of a fixed, whose name is new.
#[tactic(auto, unfolding(crate::specs::Reading::fixed_at))]
fn fixed_of<'a>(json: &'a Value, space: &'a [u8], seen: Seen<'a>) -> Read<'a>
    ensures { Reads result (fixed_at space.now (view json.now) (met seen.entry)) }
{
    let Some(name) = name_of(json) else {
        return Err(SchemaFault::UnknownType);
    };
    let Some(size) = fixed_size(json) else {
        return Err(SchemaFault::UnknownType);
    };
    let whole = defined_name(json, name, space);
    let kind = bytes_kind_of(json);
    let now = define(whole, Some(Schema::Fixed(size, kind)), seen)?;
    Ok((Schema::Fixed(size, kind), now))
}

/// The tree of a record, whose name is open while its fields are read in its namespace.
#[cycle(schema)]
#[tactic(auto, unfolding(crate::specs::Reading::record_at))]
fn record_of<'a>(json: &'a Value, most: u32, space: &'a [u8], seen: Seen<'a>) -> Read<'a>
    ensures { Reads result (record_at (tree_at most) space.now (view json.now) (met seen.entry)) }
{
    let Some(name) = name_of(json) else {
        return Err(SchemaFault::UnknownType);
    };
    let Some(items) = fields_in(json) else {
        return Err(SchemaFault::UnknownType);
    };
    let whole = defined_name(json, name, space);
    let opened = define(whole, None, seen)?;
    let inner = inner_space(own_space(json, space), name.as_bytes());
    let (fields, after) = fields_of(items, most, inner, opened)?;
    let schema = Schema::Record(Arc::new(after.alloc, fields)?);
    let kept = copy(&schema)?;
    let closed = set(whole, Some(kept), after)?;
    Ok((schema, closed))
}

/// The fields of a record.
#[cycle(schema)]
fn fields_of<'a>(
    items: &'a Vec<Value>,
    most: u32,
    space: &'a [u8],
    seen: Seen<'a>,
) -> Result<(Vec<Field>, Seen<'a>), SchemaFault>
    ensures { Gives SchemaFault.Memory (λ x. (parts x.0.items, met x.1)) result
        (fields_at (tree_at most Elsewhere space.now) [] (items_view items.now.items) (met seen.entry)) }
{
    let mut fields = Vec::new(seen.alloc);
    let mut now = seen;
    'fields: for item in items {
        let (field, after) = field_of(item, &fields, most, space, now)?;
        fields.push(field)?;
        now = after;
    }
    Ok((fields, now))
}

/// An id that no field before has.
fn fresh_id(id: Option<i32>, front: &Vec<Field>) -> Result<Option<i32>, SchemaFault>
    ensures { Gives SchemaFault.Memory (λ x. x) result (fresh id (parts front.now.items)) }
{
    let Some(wanted) = id else {
        return Ok(None);
    };
    'fields: for field in front {
        if field.id == Some(wanted) {
            return Err(SchemaFault::FieldTwice(wanted));
        }
    }
    Ok(Some(wanted))
}

/// A field behind those in front.
#[cycle(schema)]
#[tactic(auto, unfolding(crate::specs::Reading::field_at))]
fn field_of<'a>(
    json: &'a Value,
    front: &Vec<Field>,
    most: u32,
    space: &'a [u8],
    seen: Seen<'a>,
) -> Result<(Field, Seen<'a>), SchemaFault>
    ensures { Gives SchemaFault.Memory (λ x. ((x.0.id, tree x.0.schema), met x.1)) result
        (field_at (tree_at most Elsewhere space.now) (parts front.now.items) (view json.now) (met seen.entry)) }
{
    if name_of(json).is_none() {
        return Err(SchemaFault::UnknownType);
    }
    let Some(inner) = json.get("type") else {
        return Err(SchemaFault::UnknownType);
    };
    let id = fresh_id(id_at(json, "field-id"), front)?;
    let (schema, after) = schema_of(inner, most, Role::Elsewhere, space, seen)?;
    Ok((Field { id, schema }, after))
}
