//! What it takes to let a tree stand once more: its nodes, its levels, and a share in it.

ghost use Rattle.std.specs.Prelude.{◌≡◌, nat_lt, IfOk};
ghost use Rattle.avro_schema.specs.Size.{left_after, below, nodes, in_fields, in_branches, height, depth};
ghost use Rattle.avro_schema.specs.Size.{deepest_field, deepest_branch};
ghost use Rattle.avro_schema.specs.View.{tree, trees, parts, fields_of, branches_of};

use crate::schema::{Field, Schema};
use std::alloc::AllocError;
use std::sync::Arc;

/// The same tree once more, which shares what is below its root.
pub fn copy(schema: &Schema) -> Result<Schema, AllocError>
    ensures { IfOk result (λ s. tree s ≡ tree schema.now) }
{
    match schema {
        Schema::Null => Ok(Schema::Null),
        Schema::Boolean => Ok(Schema::Boolean),
        Schema::Int => Ok(Schema::Int),
        Schema::Long => Ok(Schema::Long),
        Schema::Float => Ok(Schema::Float),
        Schema::Double => Ok(Schema::Double),
        Schema::Bytes(kind) => Ok(Schema::Bytes(*kind)),
        Schema::String => Ok(Schema::String),
        Schema::Fixed(size, kind) => Ok(Schema::Fixed(*size, *kind)),
        Schema::Enum(count) => Ok(Schema::Enum(*count)),
        Schema::Record(fields) => Ok(Schema::Record(Arc::clone(fields)?)),
        Schema::Array(items, id, kind) => Ok(Schema::Array(Arc::clone(items)?, *id, *kind)),
        Schema::Map(values) => Ok(Schema::Map(Arc::clone(values)?)),
        Schema::Union(branches) => Ok(Schema::Union(Arc::clone(branches)?)),
    }
}

/// How many of the nodes that may still come are left after those below this one.
#[cycle(nodes)]
#[tactic(auto, unfolding(crate::specs::Size::below))]
pub fn spend_below(schema: &Schema, left: u32) -> Option<u32>
    ensures { result ≡ left_after left (below (tree schema.now)) }
{
    match schema {
        Schema::Record(fields) => spend_fields(fields, left),
        Schema::Array(items, _, _) => spend(items, left),
        Schema::Map(values) => spend(values, left),
        Schema::Union(branches) => spend_branches(branches, left),
        _ => Some(left),
    }
}

/// How many are left after this one and those below it.
#[cycle(nodes)]
fn spend(schema: &Schema, left: u32) -> Option<u32>
    ensures { result ≡ left_after left (nodes (tree schema.now)) }
{
    if left == 0 {
        return None;
    }
    spend_below(schema, left - 1)
}

/// How many are left after the fields' types and all below them.
#[cycle(nodes)]
fn spend_fields(fields: &Vec<Field>, left: u32) -> Option<u32>
    ensures { result ≡ left_after left (in_fields (fields_of (parts fields.now.items))) }
{
    let mut now = left;
    'fields: for field in fields {
        now = spend(&field.schema, now)?;
    }
    Some(now)
}

/// How many are left after the branches and all below them.
#[cycle(nodes)]
fn spend_branches(branches: &Vec<Schema>, left: u32) -> Option<u32>
    ensures { result ≡ left_after left (in_branches (branches_of (trees branches.now.items))) }
{
    let mut now = left;
    'branches: for branch in branches {
        now = spend(branch, now)?;
    }
    Some(now)
}

/// Whether more levels are below this node than there may be.
#[cycle(levels)]
#[tactic(auto, unfolding(crate::specs::Size::height))]
pub fn is_higher(schema: &Schema, most: u32) -> bool
    ensures { result ≡ nat_lt most (height (tree schema.now)) }
{
    match schema {
        Schema::Record(fields) => any_field_deeper(fields, most),
        Schema::Array(items, _, _) => is_deeper(items, most),
        Schema::Map(values) => is_deeper(values, most),
        Schema::Union(branches) => any_branch_deeper(branches, most),
        _ => false,
    }
}

/// Whether this node and those below it take more levels than there may be.
#[cycle(levels)]
fn is_deeper(schema: &Schema, most: u32) -> bool
    ensures { result ≡ nat_lt most (depth (tree schema.now)) }
{
    if most == 0 {
        return true;
    }
    is_higher(schema, most - 1)
}

/// Whether a field's type takes more levels than there may be.
#[cycle(levels)]
fn any_field_deeper(fields: &Vec<Field>, most: u32) -> bool
    ensures { result ≡ nat_lt most (deepest_field (fields_of (parts fields.now.items))) }
{
    'fields: for field in fields {
        if is_deeper(&field.schema, most) {
            return true;
        }
    }
    false
}

/// Whether a branch takes more levels than there may be.
#[cycle(levels)]
fn any_branch_deeper(branches: &Vec<Schema>, most: u32) -> bool
    ensures { result ≡ nat_lt most (deepest_branch (branches_of (trees branches.now.items))) }
{
    'branches: for branch in branches {
        if is_deeper(branch, most) {
            return true;
        }
    }
    false
}

impl Schema {
    /// The same tree once more, which shares what is below its root. This takes no memory, and is refused only where
    /// 2^63 others share it.
    pub fn share(&self) -> Result<Schema, AllocError>
        ensures { IfOk result (λ shared. tree shared ≡ tree self.now) }
    {
        copy(self)
    }
}
