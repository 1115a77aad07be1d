//! Arrays of records of an int and a long, or of an int and bytes, as Iceberg writes a map from column ids.

ghost use Rattle.std.specs.Prelude.{◌≡◌, ◌≤◌, suc, List, length, map, IfSome};
ghost use Rattle.contract_words.specs.Outcome.{Gives};
ghost use Rattle.avro_schema.specs.Tree.{long, octets};
ghost use Rattle.avro_schema.specs.View.{tree};
ghost use Rattle.avro_schema.specs.declared.schema.BytesKind.TheVariants.{Plain};
ghost use Rattle.avro_file_parts.specs.Place.{position_of};
ghost use Rattle.avro_file.specs.Reading.{with_front, values_at, blocks_at, datum_at};
ghost use Rattle.avro_file.specs.View.{long_pairs, bytes_pairs};
ghost use Rattle.avro_file.specs.Pairs.{pair, IsPair};

use crate::short::{bytes_of, count_of, int_of, long_of};
use avro_file_parts::{Place, Refusal};
use avro_schema::{Field, Schema};
use std::alloc::Global;

/// What stands behind the int of a pair.
#[derive(Clone, Copy, Debug)]
pub enum Second {
    Long,
    Bytes,
}

/// What stands behind the int, where the schema is a record of an int and a long or bytes.
pub fn second_of_pair(schema: &Schema) -> Option<Second>
    ensures { IfSome result (IsPair (tree schema.now)) }
{
    let Schema::Record(fields) = schema else {
        return None;
    };
    let [first, second] = fields.as_slice() else {
        return None;
    };
    match (&first.schema, &second.schema) {
        (Schema::Int, Schema::Long) => Some(Second::Long),
        (Schema::Int, Schema::Bytes(_)) => Some(Second::Bytes),
        _ => None,
    }
}

/// The blocks of an array of ints and longs, up to the one that is empty.
pub fn long_pairs_of<'a>(
    alloc: Global,
    place: Place<'a>,
) -> Result<(Vec<(i32, i64)>, Place<'a>), Refusal>
    ensures { Gives Refusal.Memory (λ x. (long_pairs x.0.items, position_of x.1)) result
        (blocks_at (datum_at (pair long)) (suc (length (position_of place.entry).bytes)) (position_of place.entry)) }
{
    let mut pairs = Vec::new(alloc);
    let mut here = place;
    'each_block: loop {
        let (count, after) = count_of(here)?;
        if count == 0 {
            return Ok((pairs, after));
        }
        let (more, after) = some_long_pairs_of(count, pairs, after)?;
        pairs = more;
        here = after;
    }
}

/// So many ints and longs, added to the pairs.
fn some_long_pairs_of<'a>(
    count: u64,
    pairs: Vec<(i32, i64)>,
    place: Place<'a>,
) -> Result<(Vec<(i32, i64)>, Place<'a>), Refusal>
    ensures { Gives Refusal.Memory (λ x. (long_pairs x.0.items, position_of x.1)) result
        (with_front (long_pairs pairs.items) (values_at (datum_at (pair long)) count (position_of place.entry))) }
{
    let mut pairs = pairs;
    let mut here = place;
    pairs.reserve(count as usize)?;
    'items: for _ in 0..count {
        let (key, rest) = int_of(here.bytes)?;
        let (value, rest) = long_of(rest)?;
        pairs.push((key, value))?;
        here = Place {
            bytes: rest,
            left: here.left,
        };
    }
    Ok((pairs, here))
}

/// The blocks of an array of ints and bytes, up to the one that is empty.
pub fn bytes_pairs_of<'a>(
    alloc: Global,
    place: Place<'a>,
) -> Result<(Vec<(i32, &'a [u8])>, Place<'a>), Refusal>
    ensures { Gives Refusal.Memory (λ x. (bytes_pairs x.0.items, position_of x.1)) result
        (blocks_at (datum_at (pair (octets Plain))) (suc (length (position_of place.entry).bytes))
        (position_of place.entry)) }
{
    let mut pairs = Vec::new(alloc);
    let mut here = place;
    'each_block: loop {
        let (count, after) = count_of(here)?;
        if count == 0 {
            return Ok((pairs, after));
        }
        let (more, after) = some_bytes_pairs_of(count, pairs, after)?;
        pairs = more;
        here = after;
    }
}

/// So many ints and bytes, added to the pairs.
fn some_bytes_pairs_of<'a>(
    count: u64,
    pairs: Vec<(i32, &'a [u8])>,
    place: Place<'a>,
) -> Result<(Vec<(i32, &'a [u8])>, Place<'a>), Refusal>
    ensures { Gives Refusal.Memory (λ x. (bytes_pairs x.0.items, position_of x.1)) result
        (with_front (bytes_pairs pairs.entry.items)
        (values_at (datum_at (pair (octets Plain))) count (position_of place.entry))) }
{
    let mut pairs = pairs;
    let mut here = place;
    pairs.reserve(count as usize)?;
    'items: for _ in 0..count {
        let (key, rest) = int_of(here.bytes)?;
        let (value, rest) = bytes_of(rest)?;
        pairs.push((key, value))?;
        here = Place {
            bytes: rest,
            left: here.left,
        };
    }
    Ok((pairs, here))
}
