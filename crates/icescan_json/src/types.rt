//! The types of partition values.

ghost use Rattle.std.specs.Prelude.{◌≡◌, IfOk, map};
ghost use Rattle.ice_project.specs.Fields.{transform_named};
ghost use Rattle.icescan_json.specs.Types.{field_type, spec_types, types_of, value_type};

use contract_words::Items;
use ice_meta::{PartitionField, Spec};
use ice_project::transform_named;
use ice_transform::Transform;
use ice_value::ColumnType;
use std::alloc::{AllocError, Global};

/// What is known of a partition spec: its id, and the types of its values.
#[derive(Debug, Drop)]
pub struct SpecTypes {
    pub id: i32,
    /// In the order of the spec's fields; none where the column or the transform is unknown.
    pub types: Items<Option<ColumnType>>,
}

/// The type of a transform's values. Days are dates.
fn value_type(transform: &Transform, source: &ColumnType) -> Option<ColumnType>
    ensures { result ≡ value_type transform.now source.now }
{
    match transform.result_type(source) {
        Some(_) if matches!(transform, Transform::Day) => Some(ColumnType::Date),
        found => found,
    }
}

fn field_type(alloc: Global, field: &PartitionField) -> Result<Option<ColumnType>, AllocError>
    ensures { IfOk result (λ found. found ≡ field_type field.now) }
{
    let transform = transform_named(alloc, field.transform.as_str())?;
    match &field.source_type {
        Some(source) => Ok(value_type(&transform, source)),
        None => Ok(None),
    }
}

fn field_types(
    alloc: Global,
    fields: &[PartitionField],
) -> Result<Items<Option<ColumnType>>, AllocError>
    ensures { IfOk result (λ types. types ≡ map field_type fields.now) }
{
    let mut types = Items::with_capacity(alloc, fields.len())?;
    'fields: for field in fields {
        types.push(field_type(alloc, field)?)?;
    }
    Ok(types)
}

fn spec_types(alloc: Global, spec: &Spec) -> Result<SpecTypes, AllocError>
    ensures { IfOk result (λ types. types ≡ spec_types spec.now) }
{
    Ok(SpecTypes {
        id: spec.id,
        types: field_types(alloc, spec.fields.as_slice())?,
    })
}

/// What is known of specs, which have the types of their source columns.
pub fn types_of_specs(alloc: Global, specs: &[Spec]) -> Result<Vec<SpecTypes>, AllocError>
    ensures { IfOk result (λ types. types.items ≡ map spec_types specs.now) }
{
    let mut types = Vec::with_capacity(alloc, specs.len())?;
    'specs: for spec in specs {
        types.push(spec_types(alloc, spec)?)?;
    }
    Ok(types)
}

/// The types of the values of the spec of this id; none where it is unknown.
pub fn types_of(types: &[SpecTypes], id: i32) -> &[Option<ColumnType>]
    ensures { result.now ≡ types_of types.now id }
{
    'specs: for spec in types {
        if spec.id == id {
            return spec.types.as_slice();
        }
    }
    &[]
}
