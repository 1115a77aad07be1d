//! Copies of partition specs.

ghost use Rattle.std.specs.Prelude.{◌≡◌, IfOk};

use contract_words::Items;
use ice_meta::{PartitionField, Spec};
use std::alloc::{AllocError, Global};

/// The same field.
fn copied_field(alloc: Global, field: &PartitionField) -> Result<PartitionField, AllocError>
    ensures { IfOk result (λ copied. copied ≡ field.now) }
{
    Ok(PartitionField {
        source_id: field.source_id,
        field_id: field.field_id,
        name: field.name.copy(alloc)?,
        transform: field.transform.copy(alloc)?,
        source_type: field.source_type,
    })
}

/// The same spec.
pub fn copied_spec(alloc: Global, spec: &Spec) -> Result<Spec, AllocError>
    ensures { IfOk result (λ copied. copied ≡ spec.now) }
{
    let of_spec = spec.fields.as_slice();
    let mut fields = Items::new(alloc);
    'fields: for field in of_spec {
        fields.push(copied_field(alloc, field)?)?;
    }
    Ok(Spec {
        id: spec.id,
        fields,
    })
}

/// The same specs.
pub fn copied_specs(alloc: Global, specs: &[Spec]) -> Result<Items<Spec>, AllocError>
    ensures { IfOk result (λ copied. copied ≡ specs.now) }
{
    let mut copied = Items::with_capacity(alloc, specs.len())?;
    'specs: for spec in specs {
        copied.push(copied_spec(alloc, spec)?)?;
    }
    Ok(copied)
}
