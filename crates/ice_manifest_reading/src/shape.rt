//! Which fields the schema of a manifest must have, and of which types.

ghost use Rattle.std.specs.Prelude.{◌≡◌, Some};
ghost use Rattle.avro_schema.specs.View.{tree, trees, branches_of as branches_of_trees};
ghost use Rattle.ice_manifest_fields.specs.Seen.{fields_seen};
ghost use Rattle.ice_manifest_fields.specs.Schemas.{each_branch};
ghost use Rattle.ice_manifest_reading.specs.ManifestSchemas.{file_fields as fields_of_file, is_file};
ghost use Rattle.ice_manifest_reading.specs.ManifestSchemas.{entry_fields as fields_of_entry};

use crate::tuple::{check_tuples, tuple_in};
use avro_schema::{Field, Schema};
use ice_manifest_fields::{
    FieldFault, Kind, branches_of, check_column_fields, check_ids, optional, required,
};
use ice_meta::{PartitionField, Spec};

#[tactic(auto, unfolding(crate::specs::ManifestSchemas::file_fields, ice_manifest_fields::specs::Kinds::wanted))]
fn check_file_fields(partition: &[PartitionField], fields: &[Field]) -> Result<(), FieldFault>
    ensures { result ≡ fields_of_file partition.now (fields_seen fields.now) }
{
    optional(fields, Kind::Whole, 134)?;
    required(fields, Kind::Text, 100)?;
    let tuple = tuple_in(partition, fields)?;
    required(fields, Kind::Whole, 103)?;
    required(fields, Kind::Whole, 104)?;
    check_column_fields(fields)?;
    check_ids(fields)?;
    optional(fields, Kind::Text, 143)?;
    match tuple {
        Some(tuple) => check_tuples(partition, branches_of(tuple)),
        None => Ok(()),
    }
}

fn check_file(partition: &[PartitionField], schema: &Schema) -> Result<(), FieldFault>
    ensures { result ≡ is_file partition.now (tree schema.now) }
{
    match schema {
        Schema::Record(fields) => check_file_fields(partition, fields),
        _ => Ok(()),
    }
}

fn check_files(partition: &[PartitionField], branches: &[Schema]) -> Result<(), FieldFault>
    ensures { result ≡ each_branch (is_file partition.now) (branches_of_trees (trees branches.now)) }
{
    'branches: for branch in branches {
        check_file(partition, branch)?;
    }
    Ok(())
}

/// The fields of an entry of a manifest of this spec are there and fit; or the first fault.
#[tactic(auto, unfolding(crate::specs::ManifestSchemas::entry_fields, ice_manifest_fields::specs::Kinds::wanted))]
pub fn check_entry_fields(spec: &Spec, fields: &[Field]) -> Result<(), FieldFault>
    ensures { result ≡ fields_of_entry spec.now (fields_seen fields.now) }
{
    required(fields, Kind::Whole, 0)?;
    optional(fields, Kind::Whole, 1)?;
    optional(fields, Kind::Whole, 3)?;
    optional(fields, Kind::Whole, 4)?;
    let file = required(fields, Kind::Record, 2)?;
    check_files(spec.fields.as_slice(), branches_of(file))
}
