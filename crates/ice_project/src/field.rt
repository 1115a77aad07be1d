//! Partition fields with their transforms read.

ghost use Rattle.std.specs.Prelude.{◌≡◌, List, IfOk, map};
ghost use Rattle.ice_project.specs.Fields.{transform_named, field_of};

use contract_words::Items;
use ice_meta::PartitionField;
use ice_transform::{Transform, texts_of_transforms};
use ice_value::ColumnType;
use std::alloc::{AllocError, Global};

/// A partition field: where its values come from.
#[derive(Debug, PartialEq, Drop)]
pub struct Field {
    /// The id of the column.
    pub source_id: i32,
    /// The type of the column.
    pub source_type: Option<ColumnType>,
    /// How the values are made.
    pub transform: Transform,
}

/// The transform of this name. Any name is one: that of no known transform is kept.
pub fn transform_named(alloc: Global, text: &str) -> Result<Transform, AllocError>
    ensures { IfOk result (λ transform. transform ≡ transform_named text.now) }
{
    texts_of_transforms();
    Transform::parse(alloc, text)
}

/// The field with its transform read.
fn read_field(alloc: Global, field: &PartitionField) -> Result<Field, AllocError>
    ensures { IfOk result (λ read. read ≡ field_of field.now) }
{
    Ok(Field {
        source_id: field.source_id,
        source_type: field.source_type,
        transform: transform_named(alloc, field.transform.as_str())?,
    })
}

/// The fields with their transforms read.
pub fn read_fields(alloc: Global, fields: &[PartitionField]) -> Result<Items<Field>, AllocError>
    ensures { IfOk result (λ read. read ≡ map field_of fields.now) }
{
    let mut read = Items::with_capacity(alloc, fields.len())?;
    'fields: for field in fields {
        read.push(read_field(alloc, field)?)?;
    }
    Ok(read)
}
