//! Values of every schema.

ghost use Rattle.std.specs.Prelude.{◌≡◌, ◌≤◌, ℕ, ℤ, Option, suc, List, length, Ok, IfOk, map, MatchOption, pos, ◌<ℤ◌};
ghost use Rattle.std.specs.Prelude.{false};
ghost use Rattle.contract_words.specs.Outcome.{Gives};
ghost use Rattle.avro_file_parts.specs.Exact.{IsRead};
ghost use Rattle.avro_schema.specs.declared.schema.ArrayKind.{ArrayKind};
ghost use Rattle.avro_schema.specs.Tree.{array};
ghost use Rattle.avro_schema.specs.View.{tree, trees, parts, fields_of, branches_of};
ghost use Rattle.avro_file.specs.View.{view, views, entry_views};
ghost use Rattle.avro_file_parts.specs.Place.{position_of};
ghost use Rattle.avro_file.specs.Reading.{IsScalar, IsRunOfBytes, with_front, values_at, blocks_at, entry_at};
ghost use Rattle.avro_file.specs.Reading.{datum_at, fields_at, branch_at, chosen_by};
ghost use Rattle.avro_file.specs.Spelling.{takes_bytes as takes_some};

use crate::datum::{Datum, ItemCount};
use crate::ends::takes_bytes;
use crate::pairs::{Second, bytes_pairs_of, long_pairs_of, second_of_pair};
use crate::repeated::nulls_of;
use avro_file_parts::{
    Place, Refusal, boolean_of, bytes_of, count_of, int_of, long_of, run_of_len, symbol_of, text_of,
};
use avro_schema::{Field, Schema};
use std::alloc::Global;

/// The value at the front of the bytes, which is a number, a truth value or nothing.
#[tactic(auto, unfolding(crate::specs::Reading::datum_at))]
fn scalar_datum_of<'a>(schema: &Schema, bytes: &'a [u8]) -> Result<(Datum<'a>, &'a [u8]), Refusal>
    requires { IsScalar (tree schema.now) }
    ensures { (left : ℕ) → IsRead (λ x. (view x.0, record { bytes = x.1.now; left = left })) result
        (datum_at (tree schema.now) (record { bytes = bytes.now; left = left })) }
{
    match schema {
        Schema::Null => Ok((Datum::Null, bytes)),
        Schema::Boolean => {
            let (truth, rest) = boolean_of(bytes)?;
            Ok((Datum::Boolean(truth), rest))
        }
        Schema::Int => {
            let (number, rest) = int_of(bytes)?;
            Ok((Datum::Int(number), rest))
        }
        Schema::Long => {
            let (number, rest) = long_of(bytes)?;
            Ok((Datum::Long(number), rest))
        }
        Schema::Enum(count) => {
            let (position, rest) = symbol_of(*count, bytes)?;
            Ok((Datum::Enum(position), rest))
        }
        _ => unreachable!(),
    }
}

/// The value at the front of the bytes, which is a run of bytes.
#[tactic(auto, unfolding(crate::specs::Reading::datum_at))]
fn run_datum_of<'a>(schema: &Schema, bytes: &'a [u8]) -> Result<(Datum<'a>, &'a [u8]), Refusal>
    requires { IsRunOfBytes (tree schema.now) }
    ensures { (left : ℕ) → IsRead (λ x. (view x.0, record { bytes = x.1.now; left = left })) result
        (datum_at (tree schema.now) (record { bytes = bytes.now; left = left })) }
{
    match schema {
        Schema::Float => {
            let (run, rest) = run_of_len(4, bytes)?;
            Ok((Datum::Float(run), rest))
        }
        Schema::Double => {
            let (run, rest) = run_of_len(8, bytes)?;
            Ok((Datum::Double(run), rest))
        }
        Schema::Bytes(_) => {
            let (run, rest) = bytes_of(bytes)?;
            Ok((Datum::Bytes(run), rest))
        }
        Schema::String => {
            let (text, rest) = text_of(bytes)?;
            Ok((Datum::String(text), rest))
        }
        Schema::Fixed(len, _) => {
            let (run, rest) = run_of_len(u64::from(*len), bytes)?;
            Ok((Datum::Fixed(run), rest))
        }
        _ => unreachable!(),
    }
}

/// The value at the front of the bytes.
#[cycle(datum)]
#[tactic(auto, unfolding(crate::specs::Reading::datum_at))]
pub fn datum_of<'a>(
    alloc: Global,
    schema: &Schema,
    place: Place<'a>,
) -> Result<(Datum<'a>, Place<'a>), Refusal>
    ensures { Gives Refusal.Memory (λ x. (view x.0, position_of x.1)) result
        (datum_at (tree schema.now) (position_of place.entry)) }
{
    let left = place.left;
    match schema {
        Schema::Null | Schema::Boolean | Schema::Int | Schema::Long | Schema::Enum(_) => {
            let (datum, bytes) = scalar_datum_of(schema, place.bytes)?;
            Ok((datum, Place { bytes, left }))
        }
        Schema::Float | Schema::Double | Schema::Bytes(_) | Schema::String | Schema::Fixed(_, _) =>
            {
                let (datum, bytes) = run_datum_of(schema, place.bytes)?;
                Ok((datum, Place { bytes, left }))
            }
        Schema::Record(fields) => {
            let (values, place) = record_of(alloc, fields, place)?;
            Ok((Datum::Record(values), place))
        }
        Schema::Array(items, _, _) => array_datum_of(alloc, items, place),
        Schema::Map(values) => {
            let (entries, place) = map_of(alloc, values, place)?;
            Ok((Datum::Map(entries), place))
        }
        Schema::Union(branches) => {
            let (position, bytes) = long_of(place.bytes)?;
            union_of(alloc, branches, position, Place { bytes, left })
        }
    }
}

/// The number, unless it is negative.
pub fn natural(number: i64) -> Option<usize>
    ensures { MatchOption result (number <ℤ pos 0) (λ n. number ≡ pos n) }
{
    if number < 0 {
        None
    } else {
        Some(number as usize)
    }
}

/// A value of the branch at this position.
#[cycle(datum)]
fn union_of<'a>(
    alloc: Global,
    branches: &[Schema],
    position: i64,
    place: Place<'a>,
) -> Result<(Datum<'a>, Place<'a>), Refusal>
    ensures { Gives Refusal.Memory (λ x. (view x.0, position_of x.1)) result
        (chosen_by (branch_at (branches_of (trees branches.now))) position (position_of place.entry)) }
{
    let Some(position) = natural(position) else {
        return Err(Refusal::BadUnion);
    };
    if position >= branches.len() {
        return Err(Refusal::BadUnion);
    }
    let (value, place) = datum_of(alloc, &branches[position], place)?;
    match value {
        Datum::Null => Ok((Datum::NullBranch(position), place)),
        some => Ok((Datum::Union(position, Box::new(alloc, some)?), place)),
    }
}

/// The fields of a record, one after the other.
#[cycle(datum)]
fn record_of<'a>(
    alloc: Global,
    fields: &[Field],
    place: Place<'a>,
) -> Result<(Vec<Datum<'a>>, Place<'a>), Refusal>
    ensures { Gives Refusal.Memory (λ x. (views x.0.items, position_of x.1)) result
        (fields_at (fields_of (parts fields.now)) (position_of place.entry)) }
{
    let mut values = Vec::with_capacity(alloc, fields.len())?;
    let mut here = place;
    'fields: for field in fields {
        let (value, after) = datum_of(alloc, &field.schema, here)?;
        values.push(value)?;
        here = after;
    }
    Ok((values, here))
}

/// An array. Pairs of an int and a long or bytes, and items that take no bytes, are kept without a datum for each.
#[cycle(datum)]
#[tactic(auto, unfolding(crate::specs::Reading::datum_at))]
fn array_datum_of<'a>(
    alloc: Global,
    schema: &Schema,
    place: Place<'a>,
) -> Result<(Datum<'a>, Place<'a>), Refusal>
    ensures { (id : Option ℤ) (kind : ArrayKind) → Gives Refusal.Memory (λ x. (view x.0, position_of x.1)) result
        (datum_at (array (tree schema.now) id kind) (position_of place.entry)) }
{
    match second_of_pair(schema) {
        Some(Second::Long) => {
            let (pairs, place) = long_pairs_of(alloc, place)?;
            Ok((Datum::LongPairs(pairs), place))
        }
        Some(Second::Bytes) => {
            let (pairs, place) = bytes_pairs_of(alloc, place)?;
            Ok((Datum::BytesPairs(pairs), place))
        }
        None if !takes_bytes(schema) => repeated_of(alloc, schema, place),
        None => {
            let (values, place) = array_of(alloc, schema, place)?;
            Ok((Datum::Array(values), place))
        }
    }
}

/// An array whose items take no bytes: one of them is kept, and how many there are. A number that is no long is refused
/// as want of memory.
#[cycle(datum)]
fn repeated_of<'a>(
    alloc: Global,
    schema: &Schema,
    place: Place<'a>,
) -> Result<(Datum<'a>, Place<'a>), Refusal>
    requires { takes_some (tree schema.now) ≡ false }
    ensures { (id : Option ℤ) (kind : ArrayKind) → Gives Refusal.Memory (λ x. (view x.0, position_of x.1)) result
        (datum_at (array (tree schema.now) id kind) (position_of place.entry)) }
{
    let (count, after) = nulls_of(place)?;
    if count == 0 {
        return Ok((Datum::Array(Vec::new(alloc)), after));
    }
    let (item, _) = datum_of(alloc, schema, after)?;
    let Some(count) = ItemCount::new(count) else {
        return Err(Refusal::Memory);
    };
    Ok((Datum::Repeated(count, Box::new(alloc, item)?), after))
}

/// The blocks of an array, up to the one that is empty.
#[cycle(datum)]
fn array_of<'a>(
    alloc: Global,
    schema: &Schema,
    place: Place<'a>,
) -> Result<(Vec<Datum<'a>>, Place<'a>), Refusal>
    ensures { Gives Refusal.Memory (λ x. (views x.0.items, position_of x.1)) result
        (blocks_at (datum_at (tree schema.now)) (suc (length (position_of place.entry).bytes))
        (position_of place.entry)) }
{
    let mut values = Vec::new(alloc);
    let mut here = place;
    'each_block: loop {
        let (count, after) = count_of(here)?;
        if count == 0 {
            return Ok((values, after));
        }
        let (more, after) = items_of(alloc, schema, count, values, after)?;
        values = more;
        here = after;
    }
}

/// So many items, added to the values.
#[cycle(datum)]
fn items_of<'a>(
    alloc: Global,
    schema: &Schema,
    count: u64,
    values: Vec<Datum<'a>>,
    place: Place<'a>,
) -> Result<(Vec<Datum<'a>>, Place<'a>), Refusal>
    ensures { Gives Refusal.Memory (λ x. (views x.0.items, position_of x.1)) result
        (with_front (views values.entry.items)
        (values_at (datum_at (tree schema.now)) count (position_of place.entry))) }
{
    let mut values = values;
    let mut here = place;
    'items: for _ in 0..count {
        let (value, after) = datum_of(alloc, schema, here)?;
        values.push(value)?;
        here = after;
    }
    Ok((values, here))
}

/// The blocks of a map, up to the one that is empty.
#[cycle(datum)]
fn map_of<'a>(
    alloc: Global,
    schema: &Schema,
    place: Place<'a>,
) -> Result<(Vec<(&'a str, Datum<'a>)>, Place<'a>), Refusal>
    ensures { Gives Refusal.Memory (λ x. (entry_views x.0.items, position_of x.1)) result
        (blocks_at (entry_at (datum_at (tree schema.now))) (suc (length (position_of place.entry).bytes))
        (position_of place.entry)) }
{
    let mut values = Vec::new(alloc);
    let mut here = place;
    'each_block: loop {
        let (count, after) = count_of(here)?;
        if count == 0 {
            return Ok((values, after));
        }
        let (more, after) = entries_of(alloc, schema, count, values, after)?;
        values = more;
        here = after;
    }
}

/// So many entries, added to the values.
#[cycle(datum)]
fn entries_of<'a>(
    alloc: Global,
    schema: &Schema,
    count: u64,
    values: Vec<(&'a str, Datum<'a>)>,
    place: Place<'a>,
) -> Result<(Vec<(&'a str, Datum<'a>)>, Place<'a>), Refusal>
    ensures { Gives Refusal.Memory (λ x. (entry_views x.0.items, position_of x.1)) result
        (with_front (entry_views values.entry.items)
        (values_at (entry_at (datum_at (tree schema.now))) count (position_of place.entry))) }
{
    let mut values = values;
    let mut here = place;
    'items: for _ in 0..count {
        let (key, rest) = text_of(here.bytes)?;
        let (value, after) = datum_of(
            alloc,
            schema,
            Place {
                bytes: rest,
                left: here.left,
            },
        )?;
        values.push((key, value))?;
        here = after;
    }
    Ok((values, here))
}
