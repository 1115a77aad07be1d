//! A type as field paths go through it, for objects that have unions on the field paths.

ghost use Rattle.std.specs.Prelude.{◌≡◌, ◌||◌, ℤ, List, None, Some, IfOk};
ghost use Rattle.avro_schema.specs.Tree.{Tree, Fields, no_fields, field};
ghost use Rattle.avro_schema.specs.View.{tree, trees, parts as field_parts, fields_of as field_trees};
ghost use Rattle.avro_schema.specs.View.{branches_of as branch_trees};
ghost use Rattle.avro_file_parts.specs.Place.{position_of};
ghost use Rattle.avro_file_parts.specs.Parts.{Position};
ghost use Rattle.avro_file.specs.Alike.{EndAlike};
ghost use Rattle.avro_file.specs.Spelling.{takes_bytes as takes_some};
ghost use Rattle.avro_file.specs.Value.{Value, values_of};
ghost use Rattle.avro_file.specs.Reading.{datum_at, fields_at};
ghost use Rattle.avro_file.specs.Blocks.{StandsAt};
ghost use Rattle.avro_file.specs.Picking.{pick, field_value, unless_absent};
ghost use Rattle.avro_file_picked.specs.Finding.{IsMet, within};
ghost use Rattle.avro_file_picked.specs.Guides.{ids_in, is_on as is_id_on, asks as is_asked, kept, as_fields, guided};
ghost use Rattle.avro_file_picked.specs.Guides.{seen};
ghost use Rattle.avro_file_picked.specs.Guides.{IsGuideOf, all_seen, id_guided, type_guided, IsGuide, AreParts};
ghost use Rattle.avro_file_picked.specs.Guides.{AreAsked};
ghost use Rattle.avro_file_picked.specs.Guides.{GuidesTo, HasItems, GuidesItems, IsGuided};

use crate::found::{Found, MAX_ITEMS, branches_of, is_null, is_record, items_of};
use avro_file::{end_of, lean_schema, natural, takes_bytes};
use avro_file_parts::{Place, Refusal, long_of};
use avro_schema::{Field, Schema};
use std::alloc::{AllocError, Global};

/// A type as field paths go through it, with the id of the field that has it.
///
/// Where a field path goes on behind a union, it is walked anew in each object. By the type alone such a walk would pass all
/// fields that stand before the wanted one, and those of each item in them, also where they take no bytes: thousands
/// of steps for one byte. By a guide each step passes a byte, or a field that one of the field paths asks for.
#[derive(Debug, Drop)]
pub struct Guide<'s> {
    id: Option<i32>,
    schema: &'s Schema,
    /// Its values end where those of the type do.
    passing: Schema,
    /// Of a union its branches, and of an array its items. Of a record its fields, but for those that take no bytes and
    /// that no field path asks for.
    parts: Vec<Guide<'s>>,
}

/// An object, which was checked, and a guide of its type. It lends both.
#[derive(Clone, Copy, Debug)]
pub struct GuidedObject<'e, 's, 'a> {
    pub(crate) guide: &'e Guide<'s>,
    pub(crate) bytes: &'a [u8],
}

/// Whether the id is on the field path.
fn is_on(field_path: &[i32], id: i32) -> bool
    ensures { result ≡ is_id_on field_path.now (Some id) }
{
    'field_path: for passed in field_path {
        if id == *passed {
            return true;
        }
    }
    false
}

/// Whether the id is on one of the field paths.
fn asks(field_paths: &[Vec<i32>], id: i32) -> bool
    ensures { result ≡ is_asked (ids_in field_paths.now) (Some id) }
{
    'field_paths: for field_path in field_paths {
        if is_on(field_path, id) {
            return true;
        }
    }
    false
}

/// Whether a field with this id, if it has one, takes bytes or is one that a field path asks for.
fn is_kept(field: &Field, field_paths: &[Vec<i32>]) -> bool
    ensures { result ≡ (takes_some (tree field.now.schema) || is_asked (ids_in field_paths.now) field.now.id) }
{
    if takes_bytes(&field.schema) {
        return true;
    }
    match field.id {
        Some(id) => asks(field_paths, id),
        None => false,
    }
}

/// A guide of a type that has these parts.
fn with_parts<'s>(
    alloc: Global,
    id: Option<i32>,
    schema: &'s Schema,
    parts: Vec<Guide<'s>>,
) -> Result<Guide<'s>, AllocError>
    ensures { IfOk result (λ guide. (passing : Tree) × EndAlike passing (tree schema.now)
        × (seen guide ≡ guided id (tree schema.now) passing (all_seen parts.entry.items))) }
{
    let passing = lean_schema(alloc, schema)?;
    Ok(Guide {
        id,
        schema,
        passing,
        parts,
    })
}

/// The guide of a type for these field paths.
#[cycle(guide)]
pub fn guide_of<'s>(
    alloc: Global,
    id: Option<i32>,
    schema: &'s Schema,
    field_paths: &[Vec<i32>],
) -> Result<Guide<'s>, AllocError>
    ensures id { IfOk result (λ guide. id_guided (seen guide) ≡ id) }
    ensures schema { IfOk result (λ guide. type_guided (seen guide) ≡ tree schema.now) }
    ensures guide { IfOk result (λ guide. IsGuide (ids_in field_paths.now) (seen guide)) }
{
    match schema {
        Schema::Record(fields) => {
            let parts = field_guides(alloc, fields, field_paths)?;
            with_parts(alloc, id, schema, parts)
        }
        Schema::Union(branches) => {
            let parts = branch_guides(alloc, branches, field_paths)?;
            with_parts(alloc, id, schema, parts)
        }
        Schema::Array(items, _, _) => {
            let parts = item_guides(alloc, items, field_paths)?;
            with_parts(alloc, id, schema, parts)
        }
        Schema::Null
        | Schema::Boolean
        | Schema::Int
        | Schema::Long
        | Schema::Enum(_)
        | Schema::Float
        | Schema::Double
        | Schema::Bytes(_)
        | Schema::String
        | Schema::Fixed(_, _)
        | Schema::Map(_) => with_parts(alloc, id, schema, Vec::new(alloc)),
    }
}

/// The guides of the fields that take bytes or that a field path asks for.
#[cycle(guide)]
fn field_guides<'s>(
    alloc: Global,
    fields: &'s [Field],
    field_paths: &[Vec<i32>],
) -> Result<Vec<Guide<'s>>, AllocError>
    ensures { IfOk result (λ guides. AreParts (ids_in field_paths.now) (all_seen guides.items)
        (kept (ids_in field_paths.now) (field_trees (field_parts fields.now)))) }
{
    let mut guides = Vec::new(alloc);
    'fields: for field in fields {
        if is_kept(field, field_paths) {
            guides.push(guide_of(alloc, field.id, &field.schema, field_paths)?)?;
        }
    }
    Ok(guides)
}

/// The guides of all branches.
#[cycle(guide)]
fn branch_guides<'s>(
    alloc: Global,
    branches: &'s [Schema],
    field_paths: &[Vec<i32>],
) -> Result<Vec<Guide<'s>>, AllocError>
    ensures { IfOk result (λ guides. AreParts (ids_in field_paths.now) (all_seen guides.items)
        (as_fields (branch_trees (trees branches.now)))) }
{
    let mut guides = Vec::new(alloc);
    'branches: for branch in branches {
        guides.push(guide_of(alloc, None, branch, field_paths)?)?;
    }
    Ok(guides)
}

/// The guide of an array's items.
#[cycle(guide)]
fn item_guides<'s>(
    alloc: Global,
    items: &'s Schema,
    field_paths: &[Vec<i32>],
) -> Result<Vec<Guide<'s>>, AllocError>
    ensures { IfOk result (λ guides. AreParts (ids_in field_paths.now) (all_seen guides.items)
        (field None (tree items.now) no_fields)) }
{
    let mut guides = Vec::with_capacity(alloc, 1)?;
    guides.push(guide_of(alloc, None, items, field_paths)?)?;
    Ok(guides)
}

/// The guide and the place of what stands where the field path leads from a value of the guide's type at the place.
#[cycle(guided)]
fn place_by<'e, 's, 'a>(
    guide: &'e Guide<'s>,
    field_path: &[i32],
    place: Place<'a>,
) -> Result<Option<(&'e Guide<'s>, Place<'a>)>, Refusal>
    ensures { (field_paths : List (List ℤ)) (v : Value) (after : Position) → IsGuide field_paths (seen guide.now)
        → AreAsked field_paths field_path.now → datum_at (type_guided (seen guide.now)) (position_of place.entry) ≡ Ok (v, after)
        → GuidesTo field_paths place.entry.left (pick field_path.now (type_guided (seen guide.now), v)) result }
{
    let Some(_) = branches_of(guide.schema) else {
        return place_inside(guide, field_path, place);
    };
    let (position, rest) = long_of(place.bytes)?;
    let Some(position) = natural(position) else {
        return Err(Refusal::BadUnion);
    };
    if position >= guide.parts.len() {
        return Err(Refusal::BadUnion);
    }
    let place = Place {
        bytes: rest,
        left: place.left,
    };
    place_inside(&guide.parts[position], field_path, place)
}

/// The same from the branch that a union chose, or from a value that is no union's.
#[cycle(guided)]
fn place_inside<'e, 's, 'a>(
    guide: &'e Guide<'s>,
    field_path: &[i32],
    place: Place<'a>,
) -> Result<Option<(&'e Guide<'s>, Place<'a>)>, Refusal>
    ensures { (field_paths : List (List ℤ)) (v : Value) (after : Position) → IsGuide field_paths (seen guide.now)
        → AreAsked field_paths field_path.now → datum_at (type_guided (seen guide.now)) (position_of place.entry) ≡ Ok (v, after)
        → GuidesTo field_paths place.entry.left (within field_path.now (type_guided (seen guide.now), v)) result }
{
    match field_path.split_first() {
        Some((id, rest)) => if is_record(guide.schema) {
            place_past(&guide.parts, *id, rest, place)
        } else {
            Ok(None)
        },
        None if is_null(guide.schema) => Ok(None),
        None => Ok(Some((guide, place))),
    }
}

/// The same from the field with this id on, where the guides are those of a record's fields, which begin at the place.
#[cycle(guided)]
fn place_past<'e, 's, 'a>(
    guides: &'e [Guide<'s>],
    id: i32,
    field_path: &[i32],
    place: Place<'a>,
) -> Result<Option<(&'e Guide<'s>, Place<'a>)>, Refusal>
    ensures { (field_paths : List (List ℤ)) (fs : Fields) (vs : List Value) (after : Position)
        → AreParts field_paths (all_seen guides.now) fs → AreAsked field_paths field_path.now
        → fields_at fs (position_of place.entry) ≡ Ok (vs, after)
        → GuidesTo field_paths place.entry.left (unless_absent (pick field_path.now) (field_value id fs (values_of vs))) result }
{
    let mut here = place;
    'guides: for guide in guides {
        if guide.id == Some(id) {
            return place_by(guide, field_path, here);
        }
        here = end_of(&guide.passing, here)?;
    }
    Ok(None)
}

impl<'s> Guide<'s> {
    /// The guide of a type for field paths, which each begin at its values.
    pub fn new(
        alloc: Global,
        schema: &'s Schema,
        field_paths: &[Vec<i32>],
    ) -> Result<Guide<'s>, AllocError>
        ensures { IfOk result (IsGuideOf (ids_in field_paths.now) (tree schema.now)) }
    {
        guide_of(alloc, None, schema, field_paths)
    }

    /// A schema whose values end where those of the type do, or meet the same fault there.
    pub fn passing(&self) -> &Schema
        ensures { (field_paths : List (List ℤ)) (t : Tree) → IsGuideOf field_paths t self.now → EndAlike (tree result.now) t }
    {
        &self.passing
    }

    /// What stands where one of the field paths leads from the value at the front of the bytes, which was checked; none where
    /// a field on it is absent, or a null is met.
    pub fn found<'a>(&self, field_path: &[i32], bytes: &'a [u8]) -> Option<Found<'s, 'a>>
        ensures { (field_paths : List (List ℤ)) (t : Tree) (v : Value) → IsGuideOf field_paths t self.now → AreAsked field_paths field_path.now
            → StandsAt t bytes.now v → IsMet result (pick field_path.now (t, v)) }
    {
        found_by(self, field_path, bytes)
    }
}

/// The guide of the items, where the type is an array.
fn items_part<'e, 's>(guide: &'e Guide<'s>) -> Option<&'e Guide<'s>>
    ensures { (field_paths : List (List ℤ)) → IsGuide field_paths (seen guide.now) →
        HasItems field_paths (type_guided (seen guide.now)) result }
{
    match items_of(guide.schema) {
        Some(_) => guide.parts.first(),
        None => None,
    }
}

impl<'e, 's, 'a> GuidedObject<'e, 's, 'a> {
    /// The guide of the items of the list that stands where one of the field paths leads from the object; none where no list
    /// stands there.
    pub fn items_guide(&self, field_path: &[i32]) -> Option<&'e Guide<'s>>
        ensures { (field_paths : List (List ℤ)) (t : Tree) (v : Value) → IsGuided field_paths t v self.now → AreAsked field_paths field_path.now
            → GuidesItems field_paths result (pick field_path.now (t, v)) }
    {
        let place = Place {
            bytes: self.bytes,
            left: MAX_ITEMS,
        };
        match place_by(self.guide, field_path, place) {
            Ok(Some((list, _))) => items_part(list),
            Ok(None) => None,
            // It was checked, so that reading does not fail.
            Err(_) => None,
        }
    }
}

/// What stands where the field path leads from the value of the guide's type at the front of the bytes, which was checked.
#[inline(never)]
pub fn found_by<'s, 'a>(
    guide: &Guide<'s>,
    field_path: &[i32],
    bytes: &'a [u8],
) -> Option<Found<'s, 'a>>
    ensures { (field_paths : List (List ℤ)) (v : Value) → IsGuide field_paths (seen guide.now) → AreAsked field_paths field_path.now
        → StandsAt (type_guided (seen guide.now)) bytes.now v
        → IsMet result (pick field_path.now (type_guided (seen guide.now), v)) }
{
    let place = Place {
        bytes,
        left: MAX_ITEMS,
    };
    match place_by(guide, field_path, place) {
        Ok(Some((guide, place))) => Some(Found {
            schema: guide.schema,
            bytes: place.bytes,
        }),
        Ok(None) => None,
        // It was checked, so that reading does not fail.
        Err(_) => None,
    }
}
