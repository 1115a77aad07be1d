//! Values that stand at the front of bytes, and what is found within them. Nothing is built.

ghost use Rattle.std.specs.Prelude.{◌≡◌, [], option_map};
ghost use Rattle.avro_schema.specs.View.{tree, trees, branches_of as branch_trees};
ghost use Rattle.avro_file.specs.Value.{Value};
ghost use Rattle.avro_file.specs.Blocks.{StandsAt};
ghost use Rattle.avro_file.specs.Picking.{pick};
ghost use Rattle.avro_file_picked.specs.Finding.{branches_in, within};
ghost use Rattle.ice_manifest_fields.specs.Fields.{there, record_of as record_there};
ghost use Rattle.ice_manifest_values.specs.InPlace.{Stands, IsThere, IsRecord};

use avro_file::natural;
use avro_file_parts::long_of;
use avro_schema::{Field, Schema};

/// The most items that the arrays and maps of one object may have.
pub(crate) const MAX_ITEMS: u64 = 16_777_216;

/// A value of this type at the front of the bytes, which was checked whole. It lends the file's bytes and owns nothing.
#[derive(Clone, Copy, Debug)]
pub struct Standing<'s, 'a> {
    pub schema: &'s Schema,
    pub bytes: &'a [u8],
}

/// The branches of a union.
fn union_of(schema: &Schema) -> Option<&[Schema]>
    ensures { option_map (λ bs. branch_trees (trees bs.now)) result ≡ branches_in (tree schema.now) }
{
    match schema {
        Schema::Union(branches) => Some(branches),
        _ => None,
    }
}

/// The value, unless it is null.
fn unless_null<'s, 'a>(schema: &'s Schema, bytes: &'a [u8]) -> Option<Standing<'s, 'a>>
    ensures { (v : Value) → StandsAt (tree schema.now) bytes.now v →
        IsThere result (there (within [] (tree schema.now, v))) }
{
    match schema {
        Schema::Null => None,
        _ => Some(Standing { schema, bytes }),
    }
}

/// The value itself, of a union that of the branch that it chose; none where it is null.
fn itself<'s, 'a>(schema: &'s Schema, bytes: &'a [u8]) -> Option<Standing<'s, 'a>>
    ensures { (v : Value) → StandsAt (tree schema.now) bytes.now v →
        IsThere result (there (pick [] (tree schema.now, v))) }
{
    let Some(branches) = union_of(schema) else {
        return unless_null(schema, bytes);
    };
    // It was checked, so that reading does not fail.
    let Ok((position, bytes)) = long_of(bytes) else {
        return None;
    };
    let position = natural(position)?;
    if position >= branches.len() {
        return None;
    }
    unless_null(&branches[position], bytes)
}

impl<'s, 'a> Standing<'s, 'a> {
    /// The value itself, of a union that of the branch that it chose; none where it is null.
    pub fn itself(&self) -> Option<Standing<'s, 'a>>
        ensures { (v : Value) → Stands self.now v → IsThere result (there (pick [] (tree self.now.schema.now, v))) }
    {
        itself(self.schema, self.bytes)
    }

    /// The fields of a record, and the bytes at whose front they stand; none where the value is null or no record.
    pub fn record(&self) -> Option<(&'s [Field], &'a [u8])>
        ensures { (v : Value) → Stands self.now v →
            IsRecord result (record_there (there (pick [] (tree self.now.schema.now, v)))) }
    {
        let found = self.itself()?;
        match found.schema {
            Schema::Record(fields) => Some((fields, found.bytes)),
            _ => None,
        }
    }
}
