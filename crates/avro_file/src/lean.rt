//! Schemas that spare a reader the fields without bytes.

ghost use Rattle.std.specs.Prelude.{IfOk};
ghost use Rattle.avro_schema.specs.View.{tree, trees, parts, fields_of, branches_of};
ghost use Rattle.avro_file.specs.Alike.{EndAlike, FieldsEndAlike, BranchesEndAlike};

use crate::ends::takes_bytes;
use avro_schema::{Field, Schema};
use std::alloc::{AllocError, Global};
use std::sync::Arc;

/// A schema whose values end where those of the given one do, or meet the same fault there. Its records lack the fields
/// that take no bytes, however many they are, so that each step over a value passes some bytes. `Err` is want of
/// memory.
#[cycle(lean)]
pub fn lean_schema(alloc: Global, schema: &Schema) -> Result<Schema, AllocError>
    ensures { IfOk result (λ lean. EndAlike (tree lean) (tree schema.now)) }
{
    match schema {
        Schema::Record(fields) => Ok(Schema::Record(Arc::new(alloc, lean_fields(alloc, fields)?)?)),
        Schema::Array(items, id, kind) => {
            let items = lean_schema(alloc, items)?;
            Ok(Schema::Array(Arc::new(alloc, items)?, *id, *kind))
        }
        Schema::Map(values) => Ok(Schema::Map(Arc::new(alloc, lean_schema(alloc, values)?)?)),
        Schema::Union(branches) => {
            let branches = lean_branches(alloc, branches)?;
            Ok(Schema::Union(Arc::new(alloc, branches)?))
        }
        _ => schema.share(),
    }
}

/// The fields that take bytes.
#[cycle(lean)]
fn lean_fields(alloc: Global, fields: &[Field]) -> Result<Vec<Field>, AllocError>
    ensures { IfOk result (λ kept. FieldsEndAlike (fields_of (parts kept.items)) (fields_of (parts fields.now))) }
{
    let mut kept = Vec::new(alloc);
    'fields: for field in fields {
        if !takes_bytes(&field.schema) {
            continue 'fields;
        }
        let schema = lean_schema(alloc, &field.schema)?;
        kept.push(Field {
            id: field.id,
            schema,
        })?;
    }
    Ok(kept)
}

/// All branches, each without its fields that take no bytes.
#[cycle(lean)]
fn lean_branches(alloc: Global, branches: &[Schema]) -> Result<Vec<Schema>, AllocError>
    ensures { IfOk result (λ kept.
        BranchesEndAlike (branches_of (trees kept.items)) (branches_of (trees branches.now))) }
{
    let mut kept = Vec::new(alloc);
    'branches: for branch in branches {
        kept.push(lean_schema(alloc, branch)?)?;
    }
    Ok(kept)
}
