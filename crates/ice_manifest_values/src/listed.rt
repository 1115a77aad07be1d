//! Maps of columns that are arrays of pairs of an int and a long, or of an int and bytes: such a map is read into one
//! list, quicker than pair by pair.

ghost use Rattle.std.specs.Prelude.{◌≡◌, true, Ok, Some, IfOk, IfSome};
ghost use Rattle.avro_schema.specs.View.{tree};
ghost use Rattle.avro_file.specs.Picking.{Picked};
ghost use Rattle.avro_file.specs.declared.pairs.Second.TheVariants.{Long, Bytes};
ghost use Rattle.avro_file_picked.specs.Finding.{IsMet};
ghost use Rattle.ice_value.specs.Pairs.{counts_said, bounds_said};
ghost use Rattle.ice_manifest_fields.specs.Fields.{there};
ghost use Rattle.ice_manifest_fields.specs.Places.{lies_as_pairs};
ghost use Rattle.ice_manifest_fields.specs.declared.columns.ColumnMap.{ColumnMap};
ghost use Rattle.ice_manifest_values.specs.Met.{counts_in, bounds_in};
ghost use Rattle.ice_manifest_values.specs.MapsRead.{ListsPairs};

use crate::standing::MAX_ITEMS;
use avro_file::{Second, bytes_pairs_of, long_pairs_of, second_of_pair};
use avro_file_parts::Place;
use avro_file_picked::Found;
use avro_schema::Schema;
use ice_manifest_fields::{ColumnMap, see_keys};
use std::alloc::{AllocError, Global};

/// Whether a pair's first field is the map's key, and its second, which is the last, what the map says.
fn names_pair(pair: &Schema, map: ColumnMap) -> bool
    ensures { result ≡ true → lies_as_pairs map (tree pair.now) ≡ true }
{
    let Schema::Record(fields) = pair else {
        return false;
    };
    let [first, second] = fields.as_slice() else {
        return false;
    };
    if map.key == map.said {
        return false;
    }
    first.id == Some(map.key) && second.id == Some(map.said)
}

/// What a map says of its columns, where it is an array of pairs whose first field is the key.
fn second_of_map(schema: &Schema, map: ColumnMap) -> Option<Second>
    ensures { IfSome result (λ second. ListsPairs map second (tree schema.now)) }
{
    match schema {
        Schema::Array(items, _, _) if names_pair(items, map) => second_of_pair(items),
        _ => None,
    }
}

/// Whether a map is an array of pairs of its key and of a long.
pub(crate) fn lists_longs(schema: &Schema, map: ColumnMap) -> bool
    ensures { result ≡ true → ListsPairs map Long (tree schema.now) }
{
    match second_of_map(schema, map) {
        Some(Second::Long) => true,
        _ => false,
    }
}

/// Whether a map is an array of pairs of its key and of bytes.
pub(crate) fn lists_bytes(schema: &Schema, map: ColumnMap) -> bool
    ensures { result ≡ true → ListsPairs map Bytes (tree schema.now) }
{
    match second_of_map(schema, map) {
        Some(Second::Bytes) => true,
        _ => false,
    }
}

/// The pairs of an array of ints and longs that was found.
pub(crate) fn listed_longs(
    alloc: Global,
    found: Found<'_, '_>,
) -> Result<Vec<(i32, i64)>, AllocError>
    ensures { (map : ColumnMap) (met : Picked) → ListsPairs map Long (tree found.entry.schema.now)
        → IsMet (Some found.entry) met
        → IfOk result (λ counts. counts_in map (there met) ≡ Ok (counts_said counts.items)) }
{
    let place = Place {
        bytes: found.bytes(),
        left: MAX_ITEMS,
    };
    match long_pairs_of(alloc, place) {
        Ok((pairs, _)) => {
            see_keys(pairs.as_slice());
            Ok(pairs)
        }
        // It was checked, so that only memory can lack.
        Err(_) => Err(AllocError),
    }
}

/// The pairs of an array of ints and bytes that was found.
pub(crate) fn listed_bytes<'d>(
    alloc: Global,
    found: Found<'_, 'd>,
) -> Result<Vec<(i32, &'d [u8])>, AllocError>
    ensures { (map : ColumnMap) (met : Picked) → ListsPairs map Bytes (tree found.entry.schema.now)
        → IsMet (Some found.entry) met
        → IfOk result (λ bounds. bounds_in map (there met) ≡ Ok (bounds_said bounds.items)) }
{
    let place = Place {
        bytes: found.bytes(),
        left: MAX_ITEMS,
    };
    match bytes_pairs_of(alloc, place) {
        Ok((pairs, _)) => {
            see_keys(pairs.as_slice());
            Ok(pairs)
        }
        // It was checked, so that only memory can lack.
        Err(_) => Err(AllocError),
    }
}
