//! What a data file says of its columns.

ghost use Rattle.std.specs.Prelude.{◌≡◌, All};
ghost use Rattle.avro_schema.specs.View.{tree, trees, branches_of as branches_of_trees};
ghost use Rattle.ice_manifest_fields.specs.Seen.{fields_seen};
ghost use Rattle.ice_manifest_fields.specs.Places.{IsKey};
ghost use Rattle.ice_manifest_fields.specs.Schemas.{each_branch, pair_fields, is_pair, lists_pairs, map_fits};
ghost use Rattle.ice_manifest_fields.specs.Schemas.{column_fields as fields_of_columns};

use crate::fault::FieldFault;
use crate::kind::Kind;
use crate::shape::{branches_of, has_items, items_of as types_of_items, optional, required};
use avro_schema::{Field, Schema};

/// A map from column ids, which is written as an array of pairs: its field id, those of a pair's key and of what the
/// pair says of the column, and what this has to be.
#[derive(Clone, Copy, Debug)]
pub struct ColumnMap {
    pub id: i32,
    pub key: i32,
    pub said: i32,
    pub kind: Kind,
}

/// How many values each column has, null ones among them.
pub const VALUE_COUNTS: ColumnMap = ColumnMap {
    id: 109,
    key: 119,
    said: 120,
    kind: Kind::Whole,
};

/// How many values of each column are null.
pub const NULL_COUNTS: ColumnMap = ColumnMap {
    id: 110,
    key: 121,
    said: 122,
    kind: Kind::Whole,
};

/// No value of the column is below its lower bound.
pub const LOWER_BOUNDS: ColumnMap = ColumnMap {
    id: 125,
    key: 126,
    said: 127,
    kind: Kind::Binary,
};

/// No value of the column is above its upper bound.
pub const UPPER_BOUNDS: ColumnMap = ColumnMap {
    id: 128,
    key: 129,
    said: 130,
    kind: Kind::Binary,
};

#[tactic(auto, unfolding(crate::specs::Schemas::pair_fields, crate::specs::Kinds::wanted))]
fn check_pair_fields(fields: &[Field], map: ColumnMap) -> Result<(), FieldFault>
    ensures { result ≡ pair_fields map (fields_seen fields.now) }
{
    required(fields, Kind::Whole, map.key)?;
    required(fields, map.kind, map.said)?;
    Ok(())
}

fn check_pair(schema: &Schema, map: ColumnMap) -> Result<(), FieldFault>
    ensures { result ≡ is_pair map (tree schema.now) }
{
    match schema {
        Schema::Record(fields) => check_pair_fields(fields, map),
        _ => Ok(()),
    }
}

fn check_pairs(branches: &[Schema], map: ColumnMap) -> Result<(), FieldFault>
    ensures { result ≡ each_branch (is_pair map) (branches_of_trees (trees branches.now)) }
{
    'branches: for branch in branches {
        check_pair(branch, map)?;
    }
    Ok(())
}

/// An array has pairs as items.
#[tactic(auto, unfolding(crate::specs::Kinds::wanted))]
fn check_list(schema: &Schema, map: ColumnMap) -> Result<(), FieldFault>
    ensures { result ≡ lists_pairs map (tree schema.now) }
{
    if has_items(Kind::Record, schema) {
        check_pairs(types_of_items(schema), map)
    } else {
        Err(FieldFault::WrongType(map.id))
    }
}

fn check_lists(branches: &[Schema], map: ColumnMap) -> Result<(), FieldFault>
    ensures { result ≡ each_branch (lists_pairs map) (branches_of_trees (trees branches.now)) }
{
    'branches: for branch in branches {
        check_list(branch, map)?;
    }
    Ok(())
}

/// The map at a field fits, if it is there.
#[tactic(auto, unfolding(crate::specs::Schemas::map_fits, crate::specs::Kinds::wanted))]
fn check_map(fields: &[Field], map: ColumnMap) -> Result<(), FieldFault>
    ensures { result ≡ map_fits map (fields_seen fields.now) }
{
    match optional(fields, Kind::Array, map.id)? {
        Some(schema) => check_lists(branches_of(schema), map),
        None => Ok(()),
    }
}

/// The counts and bounds of columns fit, where they are there.
#[tactic(auto, unfolding(crate::specs::Schemas::column_fields, crate::specs::Kinds::wanted))]
pub fn check_column_fields(fields: &[Field]) -> Result<(), FieldFault>
    ensures { result ≡ fields_of_columns (fields_seen fields.now) }
{
    check_map(fields, VALUE_COUNTS)?;
    check_map(fields, NULL_COUNTS)?;
    check_map(fields, LOWER_BOUNDS)?;
    check_map(fields, UPPER_BOUNDS)
}

/// The key of a pair is a number of 32 bits.
fn see_key<T>(pair: &(i32, T))
    ensures { IsKey pair.now }
{
    let _key = pair.0;
}

/// The keys of pairs are numbers of 32 bits. That is for a proof to see, and nothing is done when it runs.
pub fn see_keys<T>(pairs: &[(i32, T)])
    ensures { All IsKey pairs.now }
{
    'pairs: for pair in pairs {
        see_key(pair);
    }
}
