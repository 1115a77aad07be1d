//! Which types the fields of a schema have, and which a row of a manifest list must have.

ghost use Rattle.std.specs.Prelude.{◌≡◌, [], ◌∷◌, option_map, Some};
ghost use Rattle.avro_schema.specs.View.{tree, trees, branches_of as branches_of_trees};
ghost use Rattle.ice_manifest_fields.specs.Kinds.{wanted};
ghost use Rattle.ice_manifest_fields.specs.Seen.{result_map, fields_seen};
ghost use Rattle.ice_manifest_fields.specs.Schemas.{type_at as type_said, required as required_type};
ghost use Rattle.ice_manifest_fields.specs.Schemas.{optional as optional_type, has_items as has_items_wanted, items_in};
ghost use Rattle.ice_manifest_fields.specs.Schemas.{branches_in, each_branch, lists_wholes as list_of_wholes};
ghost use Rattle.ice_manifest_fields.specs.Schemas.{summary_fields as fields_of_summary, is_summary};
ghost use Rattle.ice_manifest_fields.specs.Schemas.{lists_summaries as list_of_summaries, ids_fit, fields_in};
ghost use Rattle.ice_manifest_fields.specs.Schemas.{count_fields as fields_of_counts, row_fields as fields_of_row};

use crate::fault::FieldFault;
use crate::kind::{Kind, fits};
use avro_schema::{Field, Schema};

/// The fields of a record. Any other type has none.
pub fn fields_of(schema: &Schema) -> &[Field]
    ensures { fields_seen result.now ≡ fields_in (tree schema.now) }
{
    match schema {
        Schema::Record(fields) => fields,
        _ => &[],
    }
}

/// The type of the field with this id.
pub fn type_at(fields: &[Field], id: i32) -> Option<&Schema>
    ensures { option_map (λ s. tree s.now) result ≡ type_said id (fields_seen fields.now) }
{
    'fields: for field in fields {
        if field.id == Some(id) {
            return Some(&field.schema);
        }
    }
    None
}

/// The type of the field with this id, which has to be there and to be of the kind.
#[tactic(auto, unfolding(crate::specs::Schemas::required))]
pub fn required(fields: &[Field], kind: Kind, id: i32) -> Result<&Schema, FieldFault>
    ensures { result_map (λ s. tree s.now) result ≡ required_type (wanted kind) id (fields_seen fields.now) }
{
    let Some(schema) = type_at(fields, id) else {
        return Err(FieldFault::Missing(id));
    };
    if fits(kind, schema) {
        Ok(schema)
    } else {
        Err(FieldFault::WrongType(id))
    }
}

/// The type of the field with this id, which has to be of the kind if it is there.
#[tactic(auto, unfolding(crate::specs::Schemas::optional))]
pub fn optional(fields: &[Field], kind: Kind, id: i32) -> Result<Option<&Schema>, FieldFault>
    ensures { result_map (option_map (λ s. tree s.now)) result ≡
        optional_type (wanted kind) id (fields_seen fields.now) }
{
    let Some(schema) = type_at(fields, id) else {
        return Ok(None);
    };
    if fits(kind, schema) {
        Ok(Some(schema))
    } else {
        Err(FieldFault::WrongType(id))
    }
}

/// The branches of a union. Any other type is its own one branch.
pub fn branches_of(schema: &Schema) -> &[Schema]
    ensures { branches_of_trees (trees result.now) ≡ branches_in (tree schema.now) }
{
    match schema {
        Schema::Union(branches) => branches,
        _ => std::slice::from_ref(schema),
    }
}

/// Whether the items of a list are of the kind.
pub fn has_items(kind: Kind, schema: &Schema) -> bool
    ensures { result ≡ has_items_wanted (wanted kind) (tree schema.now) }
{
    match schema {
        Schema::Array(items, _, _) => fits(kind, items),
        _ => true,
    }
}

/// The types of the items of a list. Any other type has none.
pub fn items_of(schema: &Schema) -> &[Schema]
    ensures { branches_of_trees (trees result.now) ≡ items_in (tree schema.now) }
{
    match schema {
        Schema::Array(items, _, _) => branches_of(items),
        _ => &[],
    }
}

/// A list has whole numbers as items.
#[tactic(auto, unfolding(crate::specs::Kinds::wanted))]
fn check_wholes(schema: &Schema) -> Result<(), FieldFault>
    ensures { result ≡ list_of_wholes (tree schema.now) }
{
    if has_items(Kind::Whole, schema) {
        Ok(())
    } else {
        Err(FieldFault::WrongType(136))
    }
}

fn check_lists_of_wholes(branches: &[Schema]) -> Result<(), FieldFault>
    ensures { result ≡ each_branch list_of_wholes (branches_of_trees (trees branches.now)) }
{
    'branches: for branch in branches {
        check_wholes(branch)?;
    }
    Ok(())
}

/// The equality ids fit, if they are there.
#[tactic(auto, unfolding(crate::specs::Schemas::ids_fit, crate::specs::Kinds::wanted))]
pub fn check_ids(fields: &[Field]) -> Result<(), FieldFault>
    ensures { result ≡ ids_fit (fields_seen fields.now) }
{
    match optional(fields, Kind::List, 135)? {
        Some(ids) => check_lists_of_wholes(branches_of(ids)),
        None => Ok(()),
    }
}

#[tactic(auto, unfolding(crate::specs::Schemas::summary_fields, crate::specs::Kinds::wanted))]
fn check_summary_fields(fields: &[Field]) -> Result<(), FieldFault>
    ensures { result ≡ fields_of_summary (fields_seen fields.now) }
{
    required(fields, Kind::Truth, 509)?;
    optional(fields, Kind::Truth, 518)?;
    optional(fields, Kind::Binary, 510)?;
    optional(fields, Kind::Binary, 511)?;
    Ok(())
}

fn check_summary(schema: &Schema) -> Result<(), FieldFault>
    ensures { result ≡ is_summary (tree schema.now) }
{
    match schema {
        Schema::Record(fields) => check_summary_fields(fields),
        _ => Ok(()),
    }
}

fn check_summaries(branches: &[Schema]) -> Result<(), FieldFault>
    ensures { result ≡ each_branch is_summary (branches_of_trees (trees branches.now)) }
{
    'branches: for branch in branches {
        check_summary(branch)?;
    }
    Ok(())
}

/// A list has summaries as items.
#[tactic(auto, unfolding(crate::specs::Kinds::wanted))]
fn check_list_of_summaries(schema: &Schema) -> Result<(), FieldFault>
    ensures { result ≡ list_of_summaries (tree schema.now) }
{
    if has_items(Kind::Record, schema) {
        check_summaries(items_of(schema))
    } else {
        Err(FieldFault::WrongType(508))
    }
}

fn check_lists_of_summaries(branches: &[Schema]) -> Result<(), FieldFault>
    ensures { result ≡ each_branch list_of_summaries (branches_of_trees (trees branches.now)) }
{
    'branches: for branch in branches {
        check_list_of_summaries(branch)?;
    }
    Ok(())
}

#[tactic(auto, unfolding(crate::specs::Schemas::count_fields, crate::specs::Kinds::wanted))]
fn check_count_fields(fields: &[Field]) -> Result<(), FieldFault>
    ensures { result ≡ fields_of_counts (fields_seen fields.now) }
{
    optional(fields, Kind::Whole, 504)?;
    optional(fields, Kind::Whole, 505)?;
    optional(fields, Kind::Whole, 506)?;
    optional(fields, Kind::Whole, 512)?;
    optional(fields, Kind::Whole, 513)?;
    optional(fields, Kind::Whole, 514)?;
    Ok(())
}

/// The fields of a manifest list's row are there and fit; or the first fault. One of version 1 has no field for its
/// content and its numbers.
#[tactic(auto, unfolding(crate::specs::Schemas::row_fields, crate::specs::Kinds::wanted))]
pub fn check_row_fields(fields: &[Field]) -> Result<(), FieldFault>
    ensures { result ≡ fields_of_row (fields_seen fields.now) }
{
    required(fields, Kind::Text, 500)?;
    required(fields, Kind::Whole, 501)?;
    required(fields, Kind::Whole, 502)?;
    optional(fields, Kind::Whole, 517)?;
    optional(fields, Kind::Whole, 515)?;
    optional(fields, Kind::Whole, 516)?;
    required(fields, Kind::Whole, 503)?;
    check_count_fields(fields)?;
    match optional(fields, Kind::List, 507)? {
        Some(partitions) => check_lists_of_summaries(branches_of(partitions)),
        None => Ok(()),
    }
}
