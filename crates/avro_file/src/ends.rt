//! Where values end. They are read as for a datum, with the same first fault, and nothing is built.

ghost use Rattle.std.specs.Prelude.{◌≡◌, ◌≤◌, ℕ, suc, List, length, Ok};
ghost use Rattle.avro_schema.specs.View.{tree, trees, parts, fields_of, branches_of};
ghost use Rattle.avro_file_parts.specs.Exact.{IsRead};
ghost use Rattle.avro_file_parts.specs.Place.{position_of};
ghost use Rattle.avro_file_parts.specs.Parts.{behind};
ghost use Rattle.avro_file.specs.Reading.{IsScalar, IsRunOfBytes, values_at, blocks_at, entry_at, datum_at};
ghost use Rattle.avro_file.specs.Reading.{fields_at, branch_at, chosen_by};
ghost use Rattle.avro_file.specs.Spelling.{takes_bytes as takes_some, some_takes_bytes as one_takes_some};

use crate::decode::natural;
use avro_file_parts::{
    Place, Refusal, boolean_of, bytes_of, count_of, int_of, long_of, run_of_len, symbol_of, text_of,
};
use avro_schema::{Field, Schema};

/// Whether each value of the schema takes a byte at least.
#[cycle(takes)]
#[tactic(auto, unfolding(crate::specs::Spelling::takes_bytes))]
pub fn takes_bytes(schema: &Schema) -> bool
    ensures { result ≡ takes_some (tree schema.now) }
{
    match schema {
        Schema::Null => false,
        Schema::Fixed(len, _) => *len > 0,
        Schema::Record(fields) => one_takes_bytes(fields),
        _ => true,
    }
}

/// Whether a value of one of the fields takes a byte.
#[cycle(takes)]
fn one_takes_bytes(fields: &Vec<Field>) -> bool
    ensures { result ≡ one_takes_some (fields_of (parts fields.now.items)) }
{
    'fields: for field in fields {
        if takes_bytes(&field.schema) {
            return true;
        }
    }
    false
}

/// What follows a number, a truth value or nothing.
#[tactic(auto, unfolding(crate::specs::Reading::datum_at))]
fn behind_scalar<'a>(schema: &Schema, bytes: &'a [u8]) -> Result<&'a [u8], Refusal>
    requires { IsScalar (tree schema.now) }
    ensures { (left : ℕ) → IsRead (λ rest. record { bytes = rest.now; left = left }) result
        (behind (datum_at (tree schema.now) (record { bytes = bytes.now; left = left }))) }
{
    match schema {
        Schema::Null => Ok(bytes),
        Schema::Boolean => Ok(boolean_of(bytes)?.1),
        Schema::Int => Ok(int_of(bytes)?.1),
        Schema::Long => Ok(long_of(bytes)?.1),
        Schema::Enum(count) => Ok(symbol_of(*count, bytes)?.1),
        _ => unreachable!(),
    }
}

/// What follows a run of bytes.
#[tactic(auto, unfolding(crate::specs::Reading::datum_at))]
fn behind_run<'a>(schema: &Schema, bytes: &'a [u8]) -> Result<&'a [u8], Refusal>
    requires { IsRunOfBytes (tree schema.now) }
    ensures { (left : ℕ) → IsRead (λ rest. record { bytes = rest.now; left = left }) result
        (behind (datum_at (tree schema.now) (record { bytes = bytes.now; left = left }))) }
{
    match schema {
        Schema::Float => Ok(run_of_len(4, bytes)?.1),
        Schema::Double => Ok(run_of_len(8, bytes)?.1),
        Schema::Bytes(_) => Ok(bytes_of(bytes)?.1),
        Schema::String => Ok(text_of(bytes)?.1),
        Schema::Fixed(len, _) => Ok(run_of_len(u64::from(*len), bytes)?.1),
        _ => unreachable!(),
    }
}

/// Where the value at the front of the bytes ends.
#[cycle(end)]
#[tactic(auto, unfolding(crate::specs::Reading::datum_at))]
pub fn end_of<'a>(schema: &Schema, place: Place<'a>) -> Result<Place<'a>, Refusal>
    ensures { IsRead position_of result (behind (datum_at (tree schema.now) (position_of place.entry))) }
{
    let left = place.left;
    match schema {
        Schema::Null | Schema::Boolean | Schema::Int | Schema::Long | Schema::Enum(_) => {
            let bytes = behind_scalar(schema, place.bytes)?;
            Ok(Place { bytes, left })
        }
        Schema::Float | Schema::Double | Schema::Bytes(_) | Schema::String | Schema::Fixed(_, _) =>
            {
                let bytes = behind_run(schema, place.bytes)?;
                Ok(Place { bytes, left })
            }
        Schema::Record(fields) => end_of_fields(fields, place),
        Schema::Array(items, _, _) => end_of_items(items, place),
        Schema::Map(values) => end_of_entries(values, place),
        Schema::Union(branches) => {
            let (position, bytes) = long_of(place.bytes)?;
            end_of_branch(branches, position, Place { bytes, left })
        }
    }
}

/// Where a value of the branch at this position ends.
#[cycle(end)]
fn end_of_branch<'a>(
    branches: &[Schema],
    position: i64,
    place: Place<'a>,
) -> Result<Place<'a>, Refusal>
    ensures { IsRead position_of result
        (behind (chosen_by (branch_at (branches_of (trees branches.now))) position (position_of place.entry))) }
{
    let Some(position) = natural(position) else {
        return Err(Refusal::BadUnion);
    };
    if position >= branches.len() {
        return Err(Refusal::BadUnion);
    }
    end_of(&branches[position], place)
}

/// Where the fields of a record end.
#[cycle(end)]
fn end_of_fields<'a>(fields: &[Field], place: Place<'a>) -> Result<Place<'a>, Refusal>
    ensures { IsRead position_of result (behind (fields_at (fields_of (parts fields.now)) (position_of place.entry))) }
{
    let mut here = place;
    'fields: for field in fields {
        here = end_of(&field.schema, here)?;
    }
    Ok(here)
}

/// Where the blocks of an array end.
#[cycle(end)]
fn end_of_items<'a>(schema: &Schema, place: Place<'a>) -> Result<Place<'a>, Refusal>
    ensures { IsRead position_of result (behind (blocks_at (datum_at (tree schema.now))
        (suc (length (position_of place.entry).bytes)) (position_of place.entry))) }
{
    let mut here = place;
    'each_block: loop {
        let (count, after) = count_of(here)?;
        if count == 0 {
            return Ok(after);
        }
        here = end_of_some(schema, count, after)?;
    }
}

/// Where so many items end. Those that take no bytes end where they begin.
#[cycle(end)]
fn end_of_some<'a>(schema: &Schema, count: u64, place: Place<'a>) -> Result<Place<'a>, Refusal>
    ensures { IsRead position_of result
        (behind (values_at (datum_at (tree schema.now)) count (position_of place.entry))) }
{
    if !takes_bytes(schema) {
        return Ok(place);
    }
    let mut here = place;
    'items: for _ in 0..count {
        here = end_of(schema, here)?;
    }
    Ok(here)
}

/// Where the blocks of a map end.
#[cycle(end)]
fn end_of_entries<'a>(schema: &Schema, place: Place<'a>) -> Result<Place<'a>, Refusal>
    ensures { IsRead position_of result (behind (blocks_at (entry_at (datum_at (tree schema.now)))
        (suc (length (position_of place.entry).bytes)) (position_of place.entry))) }
{
    let mut here = place;
    'each_block: loop {
        let (count, after) = count_of(here)?;
        if count == 0 {
            return Ok(after);
        }
        here = end_of_some_entries(schema, count, after)?;
    }
}

/// Where so many entries end.
#[cycle(end)]
fn end_of_some_entries<'a>(
    schema: &Schema,
    count: u64,
    place: Place<'a>,
) -> Result<Place<'a>, Refusal>
    ensures { IsRead position_of result
        (behind (values_at (entry_at (datum_at (tree schema.now))) count (position_of place.entry))) }
{
    let mut here = place;
    'items: for _ in 0..count {
        let (_, rest) = text_of(here.bytes)?;
        here = end_of(
            schema,
            Place {
                bytes: rest,
                left: here.left,
            },
        )?;
    }
    Ok(here)
}
