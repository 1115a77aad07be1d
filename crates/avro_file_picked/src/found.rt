//! Where a value stands to which a field path leads.

ghost use Rattle.std.specs.Prelude.{◌≡◌, ◌<◌, List, [], length, drop, pos, Ok, IfOk, IfSome, option_map};
ghost use Rattle.avro_file_parts.specs.Number.{long_at};
ghost use Rattle.avro_schema.specs.View.{tree, trees, parts, fields_of as field_trees, branches_of as branch_trees};
ghost use Rattle.avro_file_parts.specs.Place.{position_of};
ghost use Rattle.avro_file_parts.specs.Parts.{Position};
ghost use Rattle.avro_file.specs.Value.{Value, values_of};
ghost use Rattle.avro_file.specs.View.{view};
ghost use Rattle.avro_file.specs.Reading.{datum_at, fields_at};
ghost use Rattle.avro_file.specs.Picking.{pick, field_value, unless_absent};
ghost use Rattle.avro_file.specs.Blocks.{StandsAt};
ghost use Rattle.avro_file_picked.specs.Finding.{IsMet};
ghost use Rattle.avro_file_picked.specs.Finding.{within, branches_in, fields_in, items_in, is_structure, has_null_only};
ghost use Rattle.avro_file_picked.specs.Finding.{LeadsTo};

use avro_file::{Datum, Object, datum_of, end_of, natural};
use avro_file_parts::{Place, Refusal, long_of};
use avro_schema::{Field, Schema};
use std::alloc::{AllocError, Global};

/// The most items that the arrays and maps of one object may have.
pub const MAX_ITEMS: u64 = 16_777_216;

/// A value in an object, which was checked whole. It lends the file's bytes and owns nothing.
#[derive(Clone, Copy, Debug)]
pub struct Found<'s, 'a> {
    pub(crate) schema: &'s Schema,
    pub(crate) bytes: &'a [u8],
}

impl<'s, 'a> Found<'s, 'a> {
    ghost use Rattle.avro_file_picked.specs.Picked.{picked};
    ghost use Rattle.avro_file_picked.specs.Finding.{Shows};
    ghost use Rattle.avro_file.specs.Files.{Shows as ShowsObject};

    /// What stands where the field path leads from the object; none where a field on it is absent, or a null is
    /// met. Nothing is built. Of a union it is the value of the branch that was chosen, with that branch's type.
    pub fn on_field_path(object: Object<'s, 'a>, field_path: &[i32]) -> Option<Found<'s, 'a>>
        ensures { (v : Value) → ShowsObject object.entry v →
            IsMet result (pick field_path.now (tree object.entry.schema.now, v)) }
    {
        found_on_field_path(object.schema(), field_path, object.bytes())
    }

    /// The same as a tree, which is built now.
    pub fn datum_on_field_path(
        alloc: Global,
        object: Object<'s, 'a>,
        field_path: &[i32],
    ) -> Result<Option<Datum<'a>>, AllocError>
        ensures { (v : Value) → ShowsObject object.entry v →
            IfOk result (λ datum. option_map view datum ≡ picked (tree object.entry.schema.now) v field_path.now) }
    {
        match Found::on_field_path(object, field_path) {
            Some(found) => Ok(Some(found.datum(alloc)?)),
            None => Ok(None),
        }
    }

    /// Its type.
    pub fn schema(self) -> &'s Schema
        ensures { result.now ≡ self.entry.schema.now }
    {
        self.schema
    }

    /// The bytes at whose front it stands.
    pub fn bytes(self) -> &'a [u8]
        ensures { result.now ≡ self.entry.bytes.now }
    {
        self.bytes
    }

    /// The value as a tree, which is built now. Its texts and bytes are those of the file.
    pub fn datum(self, alloc: Global) -> Result<Datum<'a>, AllocError>
        ensures { (v : Value) → Shows self.entry v → IfOk result (λ datum. view datum ≡ v) }
    {
        let place = Place {
            bytes: self.bytes,
            left: MAX_ITEMS,
        };
        match datum_of(alloc, self.schema, place) {
            Ok((datum, _)) => Ok(datum),
            // It was checked, so that only memory can lack.
            Err(_) => Err(AllocError),
        }
    }
}

/// What stands where the field path leads from the value of the schema at the front of the bytes, which was checked.
#[inline(never)]
pub fn found_on_field_path<'s, 'a>(
    schema: &'s Schema,
    field_path: &[i32],
    bytes: &'a [u8],
) -> Option<Found<'s, 'a>>
    ensures { (v : Value) → StandsAt (tree schema.now) bytes.now v → IsMet result (pick field_path.now (tree schema.now, v)) }
{
    let place = Place {
        bytes,
        left: MAX_ITEMS,
    };
    match place_on_field_path(schema, field_path, place) {
        Ok(Some((schema, place))) => Some(Found {
            schema,
            bytes: place.bytes,
        }),
        Ok(None) => None,
        // It was checked, so that reading does not fail.
        Err(_) => None,
    }
}

/// Whether the values of the schema are null.
pub fn is_null(schema: &Schema) -> bool
    ensures { result ≡ has_null_only (tree schema.now) }
{
    match schema {
        Schema::Null => true,
        _ => false,
    }
}

/// Whether the values of the schema are records.
pub fn is_record(schema: &Schema) -> bool
    ensures { result ≡ is_structure (tree schema.now) }
{
    match schema {
        Schema::Record(_) => true,
        _ => false,
    }
}

/// The branches of a union.
pub fn branches_of(schema: &Schema) -> Option<&[Schema]>
    ensures { option_map (λ bs. branch_trees (trees bs.now)) result ≡ branches_in (tree schema.now) }
{
    match schema {
        Schema::Union(branches) => Some(branches),
        _ => None,
    }
}

/// The type of an array's items.
pub fn items_of(schema: &Schema) -> Option<&Schema>
    ensures { option_map (λ items. tree items.now) result ≡ items_in (tree schema.now) }
{
    match schema {
        Schema::Array(items, _, _) => Some(items),
        _ => None,
    }
}

/// The fields of a record. Any other type has none.
pub fn fields_of(schema: &Schema) -> &[Field]
    ensures { field_trees (parts result.now) ≡ fields_in (tree schema.now) }
{
    match schema {
        Schema::Record(fields) => fields,
        _ => &[],
    }
}

/// The position of the branch that a union chose, where it has one byte, as nearly all have.
#[inline(always)]
fn short_position(bytes: &[u8]) -> Option<usize>
    ensures { IfSome result (λ n. (0 < length bytes.now) × (long_at bytes.now ≡ Ok (pos n, drop 1 bytes.now))) }
{
    match bytes {
        [first, ..] if *first < 128 && *first % 2 == 0 => Some(usize::from(*first / 2)),
        _ => None,
    }
}

/// The value of a type at the front of the bytes, unless it is null.
#[inline(always)]
fn found_unless_null<'s, 'a>(schema: &'s Schema, bytes: &'a [u8]) -> Option<Found<'s, 'a>>
    ensures { (v : Value) → StandsAt (tree schema.now) bytes.now v →
        IsMet result (within [] (tree schema.now, v)) }
{
    if is_null(schema) {
        None
    } else {
        Some(Found { schema, bytes })
    }
}

/// The value of the schema at the front of the bytes, which was checked; none where it is null. Of a union it is that
/// of the branch that was chosen.
#[inline(always)]
pub fn found_here<'s, 'a>(schema: &'s Schema, bytes: &'a [u8]) -> Option<Found<'s, 'a>>
    ensures { (v : Value) → StandsAt (tree schema.now) bytes.now v → IsMet result (pick [] (tree schema.now, v)) }
{
    let Some(branches) = branches_of(schema) else {
        return found_unless_null(schema, bytes);
    };
    match short_position(bytes) {
        Some(position) if position < branches.len() => found_unless_null(
            &branches[position],
            &bytes[1..],
        ),
        _ => found_on_field_path(schema, &[], bytes),
    }
}

/// The type and the place of what stands where the field path leads from a value of the schema at the place.
#[cycle(field_path)]
fn place_on_field_path<'s, 'a>(
    schema: &'s Schema,
    field_path: &[i32],
    place: Place<'a>,
) -> Result<Option<(&'s Schema, Place<'a>)>, Refusal>
    ensures { (v : Value) (after : Position) → datum_at (tree schema.now) (position_of place.entry) ≡ Ok (v, after) →
        LeadsTo place.entry.left (pick field_path.now (tree schema.now, v)) result }
{
    let Some(branches) = branches_of(schema) else {
        return place_within(schema, field_path, place);
    };
    let (position, rest) = long_of(place.bytes)?;
    let Some(position) = natural(position) else {
        return Err(Refusal::BadUnion);
    };
    if position >= branches.len() {
        return Err(Refusal::BadUnion);
    }
    let place = Place {
        bytes: rest,
        left: place.left,
    };
    place_within(&branches[position], field_path, place)
}

/// The same from the branch that a union chose, or from a value that is no union's.
#[cycle(field_path)]
fn place_within<'s, 'a>(
    schema: &'s Schema,
    field_path: &[i32],
    place: Place<'a>,
) -> Result<Option<(&'s Schema, Place<'a>)>, Refusal>
    ensures { (v : Value) (after : Position) → datum_at (tree schema.now) (position_of place.entry) ≡ Ok (v, after) →
        LeadsTo place.entry.left (within field_path.now (tree schema.now, v)) result }
{
    match field_path.split_first() {
        Some((id, rest)) => place_below(fields_of(schema), *id, rest, place),
        None if is_null(schema) => Ok(None),
        None => Ok(Some((schema, place))),
    }
}

/// The same from the field with this id on, where the fields are those of a record at the place.
#[cycle(field_path)]
fn place_below<'s, 'a>(
    fields: &'s [Field],
    id: i32,
    field_path: &[i32],
    place: Place<'a>,
) -> Result<Option<(&'s Schema, Place<'a>)>, Refusal>
    ensures { (vs : List Value) (after : Position) →
        fields_at (field_trees (parts fields.now)) (position_of place.entry) ≡ Ok (vs, after) →
        LeadsTo place.entry.left
        (unless_absent (pick field_path.now) (field_value id (field_trees (parts fields.now)) (values_of vs))) result }
{
    let mut here = place;
    'fields: for field in fields {
        if field.id == Some(id) {
            return place_on_field_path(&field.schema, field_path, here);
        }
        here = end_of(&field.schema, here)?;
    }
    Ok(None)
}
