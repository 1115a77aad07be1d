//! Which types a field may have.

ghost use Rattle.std.specs.Prelude.{◌≡◌, ◌||◌};
ghost use Rattle.avro_schema.specs.View.{tree, trees, branches_of};
ghost use Rattle.ice_manifest_fields.specs.Types.{each_is as each_branch, some_is as some_branch, fits as fits_wanted};
ghost use Rattle.ice_manifest_fields.specs.Types.{is_null as is_null_type};
ghost use Rattle.ice_manifest_fields.specs.Kinds.{wanted};

use avro_schema::{ArrayKind, Schema};

/// What a field has to be.
#[derive(Clone, Copy, Debug, PartialEq, Eq)]
pub enum Kind {
    /// A whole number, whatever its width.
    Whole,
    /// A boolean.
    Truth,
    Text,
    Binary,
    /// A list, and no map.
    List,
    /// A list or a map by numbers.
    Array,
    Record,
}

#[tactic(auto, unfolding(crate::specs::Kinds::wanted))]
fn is_of(kind: Kind, schema: &Schema) -> bool
    ensures { result ≡ wanted kind (tree schema.now) }
{
    match (kind, schema) {
        (Kind::Whole, Schema::Int) => true,
        (Kind::Whole, Schema::Long) => true,
        (Kind::Truth, Schema::Boolean) => true,
        (Kind::Text, Schema::String) => true,
        (Kind::Binary, Schema::Bytes(_)) => true,
        (Kind::List, Schema::Array(_, _, ArrayKind::List)) => true,
        (Kind::Array, Schema::Array(_, _, _)) => true,
        (Kind::Record, Schema::Record(_)) => true,
        _ => false,
    }
}

fn is_null(schema: &Schema) -> bool
    ensures { result ≡ is_null_type (tree schema.now) }
{
    match schema {
        Schema::Null => true,
        _ => false,
    }
}

fn null_or(kind: Kind, schema: &Schema) -> bool
    ensures { result ≡ (is_null_type (tree schema.now) || wanted kind (tree schema.now)) }
{
    is_null(schema) || is_of(kind, schema)
}

fn each_is(kind: Kind, branches: &[Schema]) -> bool
    ensures { result ≡ each_branch (wanted kind) (branches_of (trees branches.now)) }
{
    'branches: for branch in branches {
        if !null_or(kind, branch) {
            return false;
        }
    }
    true
}

fn some_is(kind: Kind, branches: &[Schema]) -> bool
    ensures { result ≡ some_branch (wanted kind) (branches_of (trees branches.now)) }
{
    'branches: for branch in branches {
        if is_of(kind, branch) {
            return true;
        }
    }
    false
}

/// Whether a field of this kind may have the type: one of the kind's own types, or a union of them and null.
#[tactic(auto, unfolding(crate::specs::Types::fits))]
pub fn fits(kind: Kind, schema: &Schema) -> bool
    ensures { result ≡ fits_wanted (wanted kind) (tree schema.now) }
{
    match schema {
        Schema::Union(branches) => each_is(kind, branches) && some_is(kind, branches),
        _ => is_of(kind, schema),
    }
}
