//! Which types a map of columns may have so that none of its pairs can be at fault.

ghost use Rattle.std.specs.Prelude.{◌≡◌, Some};
ghost use Rattle.avro_schema.specs.View.{tree};
ghost use Rattle.ice_manifest_values.specs.SoundMaps.{is_small as small_said, is_said as column_said};
ghost use Rattle.ice_manifest_values.specs.SoundMaps.{is_sound_pair as pair_sound, is_sound as map_sound};

use avro_schema::Schema;
use ice_manifest_fields::{ColumnMap, Kind, fields_of, type_at};

/// Whether the values of the type are numbers of 32 bits.
fn is_small(schema: &Schema) -> bool
    ensures { result ≡ small_said (Some (tree schema.now)) }
{
    match schema {
        Schema::Int => true,
        _ => false,
    }
}

/// Whether the values of the type are what a map of this kind says of columns.
fn is_said(kind: Kind, schema: &Schema) -> bool
    ensures { result ≡ column_said kind (Some (tree schema.now)) }
{
    match (kind, schema) {
        (Kind::Whole, Schema::Int) => true,
        (Kind::Whole, Schema::Long) => true,
        (Kind::Binary, Schema::Bytes(_)) => true,
        _ => false,
    }
}

/// Whether each pair of the type has its key and what it says.
fn is_sound_pair(schema: &Schema, map: ColumnMap) -> bool
    ensures { result ≡ pair_sound map (tree schema.now) }
{
    let fields = fields_of(schema);
    match (type_at(fields, map.key), type_at(fields, map.said)) {
        (Some(key), Some(said)) => is_small(key) && is_said(map.kind, said),
        _ => false,
    }
}

/// Whether no map of the type has a pair at fault.
pub(crate) fn is_sound(schema: &Schema, map: ColumnMap) -> bool
    ensures { result ≡ map_sound map (tree schema.now) }
{
    match schema {
        Schema::Array(items, _, _) => is_sound_pair(items, map),
        _ => false,
    }
}
