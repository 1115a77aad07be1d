//! A type as a row of types, and where the values of an object begin.

ghost use Rattle.std.specs.Prelude.{◌≡◌, ◌≤◌, ◌<◌, ◌+◌, ◌++◌, ◌∷◌, ◌^◌, ℕ, List, [], length, map, IfSome, IfOk};
ghost use Rattle.avro_schema.specs.Tree.{Tree};
ghost use Rattle.avro_schema.specs.View.{tree, parts, fields_of as field_trees};
ghost use Rattle.avro_file.specs.Blocks.{max_items};
ghost use Rattle.avro_file.specs.Ending.{EndsCounted};
ghost use Rattle.avro_file.specs.Reading.{datum_at};
ghost use Rattle.avro_file_picked.specs.Rows.{row, row_of, trees_of, AreAlike, Stand, IsLead, IsLeadBelow};

use crate::found::{MAX_ITEMS, branches_of, fields_of, is_record};
use avro_file::{end_of, lean_schema, value_end};
use avro_file_parts::Place;
use avro_schema::{Field, Schema};
use std::alloc::{AllocError, Global};

/// One type of a row, as a schema whose values end where those of the type do.
#[derive(Debug, Drop)]
pub struct Step {
    pub schema: Schema,
}

/// Where a field path leads in a row: to the value of this type that begins at a step's place. So many of its ids are passed
/// then.
#[derive(Clone, Copy, Debug)]
pub struct Lead<'s> {
    pub schema: &'s Schema,
    pub step: usize,
    pub passed: usize,
}

/// Adds a step for a type.
fn push_step(alloc: Global, schema: &Schema, steps: &mut Vec<Step>) -> Result<(), AllocError>
    ensures { IfOk result (λ _. (ts : List Tree) → AreAlike (trees_of steps.old.items) ts →
        AreAlike (trees_of steps.new.items) (ts ++ tree schema.now ∷ [])) }
{
    steps.push(Step {
        schema: lean_schema(alloc, schema)?,
    })?;
    Ok(())
}

/// Adds the row of a type.
#[cycle(steps)]
fn push_row(alloc: Global, schema: &Schema, steps: &mut Vec<Step>) -> Result<(), AllocError>
    ensures { IfOk result (λ _. (ts : List Tree) → AreAlike (trees_of steps.old.items) ts →
        AreAlike (trees_of steps.new.items) (ts ++ row (tree schema.now))) }
{
    match schema {
        Schema::Record(fields) => push_fields(alloc, fields, steps),
        Schema::Null => Ok(()),
        Schema::Fixed(len, _) => {
            if *len == 0 {
                return Ok(());
            }
            push_step(alloc, schema, steps)
        }
        Schema::Boolean
        | Schema::Int
        | Schema::Long
        | Schema::Enum(_)
        | Schema::Float
        | Schema::Double
        | Schema::Bytes(_)
        | Schema::String
        | Schema::Array(_, _, _)
        | Schema::Map(_)
        | Schema::Union(_) => push_step(alloc, schema, steps),
    }
}

/// Adds the rows of a record's fields.
#[cycle(steps)]
fn push_fields(alloc: Global, fields: &[Field], steps: &mut Vec<Step>) -> Result<(), AllocError>
    ensures { IfOk result (λ _. (ts : List Tree) → AreAlike (trees_of steps.old.items) ts →
        AreAlike (trees_of steps.new.items) (ts ++ row_of (field_trees (parts fields.now)))) }
{
    'fields: for field in fields {
        push_row(alloc, &field.schema, steps)?;
    }
    Ok(())
}

/// The row of a type.
pub fn steps_of(alloc: Global, schema: &Schema) -> Result<Vec<Step>, AllocError>
    ensures alike { IfOk result (λ steps. AreAlike (trees_of steps.items) (row (tree schema.now))) }
    ensures many { IfOk result (λ steps. length steps.items ≡ length (row (tree schema.now))) }
{
    let mut steps = Vec::new(alloc);
    push_row(alloc, schema, &mut steps)?;
    Ok(steps)
}

/// How many steps the row of a type has.
#[cycle(count)]
fn row_len(schema: &Schema) -> usize
    requires { length (row (tree schema.now)) < 2 ^ 63 }
    ensures { result ≡ length (row (tree schema.now)) }
{
    match schema {
        Schema::Record(fields) => fields_len(fields),
        Schema::Null => 0,
        Schema::Fixed(len, _) => if *len == 0 { 0 } else { 1 },
        Schema::Boolean
        | Schema::Int
        | Schema::Long
        | Schema::Enum(_)
        | Schema::Float
        | Schema::Double
        | Schema::Bytes(_)
        | Schema::String
        | Schema::Array(_, _, _)
        | Schema::Map(_)
        | Schema::Union(_) => 1,
    }
}

/// How many steps the rows of a record's fields have.
#[cycle(count)]
fn fields_len(fields: &[Field]) -> usize
    requires { length (row_of (field_trees (parts fields.now))) < 2 ^ 63 }
    ensures { result ≡ length (row_of (field_trees (parts fields.now))) }
{
    let mut count = 0;
    'fields: for field in fields {
        count += row_len(&field.schema);
    }
    count
}

/// Where a value ends, at once where it is null or a number of one group.
#[inline(always)]
fn plain_end(schema: &Schema, bytes: &[u8], at: usize, left: &mut u64) -> Option<usize>
    requires { at ≤ length bytes.now }
    ensures { IfSome result (λ end. EndsCounted (datum_at (tree schema.now)) bytes.now at left.old end left.new) }
{
    match schema {
        Schema::Null => Some(at),
        Schema::Int if at < bytes.len() && bytes[at] < 128 => Some(at + 1),
        Schema::Long if at < bytes.len() && bytes[at] < 128 => Some(at + 1),
        _ => value_end(schema, bytes, at, left),
    }
}

/// Where a value ends, and how many items are left then. A union's position has one group but where it is odd.
#[inline(always)]
fn step_end(schema: &Schema, bytes: &[u8], at: usize, left: &mut u64) -> Option<usize>
    requires { at ≤ length bytes.now }
    ensures { IfSome result (λ end. EndsCounted (datum_at (tree schema.now)) bytes.now at left.old end left.new) }
{
    let Some(branches) = branches_of(schema) else {
        return plain_end(schema, bytes, at, left);
    };
    if at < bytes.len() && bytes[at] < 128 && bytes[at] % 2 == 0 {
        let position = usize::from(bytes[at] / 2);
        if position < branches.len() {
            return plain_end(&branches[position], bytes, at + 1, left);
        }
    }
    value_end(schema, bytes, at, left)
}

/// Where a value ends, by the exact reader; none where it meets a fault.
#[inline(never)]
fn exact_end(schema: &Schema, bytes: &[u8], at: usize, left: &mut u64) -> Option<usize>
    requires { at ≤ length bytes.now }
    ensures { IfSome result (λ end. EndsCounted (datum_at (tree schema.now)) bytes.now at left.old end left.new) }
{
    let place = Place {
        bytes: &bytes[at..],
        left: *left,
    };
    match end_of(schema, place) {
        Ok(after) => {
            *left = after.left;
            Some(bytes.len() - after.bytes.len())
        }
        Err(_) => None,
    }
}

/// The same, mostly at once; the exact reader has what is odd.
#[inline(always)]
fn passed_end(schema: &Schema, bytes: &[u8], at: usize, left: &mut u64) -> Option<usize>
    requires { at ≤ length bytes.now }
    ensures { IfSome result (λ end. EndsCounted (datum_at (tree schema.now)) bytes.now at left.old end left.new) }
{
    let before = *left;
    match step_end(schema, bytes, at, left) {
        Some(end) => Some(end),
        None => {
            *left = before;
            exact_end(schema, bytes, at, left)
        }
    }
}

/// Where the values of a row begin, one after the other from the front of the bytes, and where the last one ends. It
/// gives no end where a fault is met.
#[inline(never)]
pub fn row_end(steps: &[Step], bytes: &[u8], starts: &mut [usize]) -> Option<usize>
    requires { length starts.old ≡ length steps.now }
    ensures { IfSome result (λ end. (end ≤ length bytes.now)
        × (left : ℕ) × Stand (trees_of steps.now) starts.new bytes.now 0 max_items end left) }
{
    let mut left = MAX_ITEMS;
    let mut here = 0;
    'steps: for (i, step) in steps.iter().enumerate() {
        starts[i] = here;
        here = passed_end(&step.schema, bytes, here, &mut left)?;
    }
    Some(here)
}

/// Where the field path leads in the row of a type, through records alone: it stops at a union with the ids that are left.
/// None where a record has no such field.
#[cycle(lead)]
pub fn lead_of<'s>(schema: &'s Schema, field_path: &[i32]) -> Option<Lead<'s>>
    requires { length (row (tree schema.now)) < 2 ^ 63 }
    ensures lead { IsLead (tree schema.now) field_path.now result }
    ensures within { IfSome result (λ lead. (lead.step ≤ length (row (tree schema.now)))
        × (lead.passed ≤ length field_path.now)) }
{
    let here = Lead {
        schema,
        step: 0,
        passed: 0,
    };
    match field_path.split_first() {
        Some((id, rest)) if is_record(schema) => lead_below(fields_of(schema), *id, rest),
        _ => Some(here),
    }
}

/// The same below the field with this id, in the rows of a record's fields.
#[cycle(lead)]
fn lead_below<'s>(fields: &'s [Field], id: i32, field_path: &[i32]) -> Option<Lead<'s>>
    requires { length (row_of (field_trees (parts fields.now))) < 2 ^ 63 }
    ensures lead { IsLeadBelow (field_trees (parts fields.now)) id field_path.now result }
    ensures within { IfSome result (λ lead. (lead.step ≤ length (row_of (field_trees (parts fields.now))))
        × (lead.passed ≤ length field_path.now + 1)) }
{
    let mut count = 0;
    'fields: for field in fields {
        if field.id == Some(id) {
            let lead = lead_of(&field.schema, field_path)?;
            return Some(Lead {
                schema: lead.schema,
                step: count + lead.step,
                passed: lead.passed + 1,
            });
        }
        count += row_len(&field.schema);
    }
    None
}
