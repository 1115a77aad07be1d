//! The projection of a filter.

ghost use Rattle.std.specs.Prelude.{◌≡◌, IfOk, IfSome};
ghost use Rattle.ice_filter.specs.Trees.{map_part, map_predicates};
ghost use Rattle.ice_project.specs.Projection.{predicate_test, predicate_tests, projected_test, projection, typed_test};

use crate::field::{Field, read_fields};
use crate::part_filter::{FieldTest, PartFilter};
use crate::table::project_test;
use contract_words::{Duplicate, Items};
use ice_filter::{Bound, BoundPredicate, Part, Parts, Test, filters_over_other_predicates};
use ice_meta::Spec;
use ice_transform::Transform;
use ice_value::ColumnType;
use shared_value::Shared;
use std::alloc::{AllocError, Global};

/// The predicate's own test, which is copied where it is asked for first.
fn own_test(
    alloc: Global,
    predicate: &BoundPredicate,
    copied: &mut Option<Shared<Test>>,
) -> Result<Shared<Test>, AllocError>
    requires { IfSome copied.old (λ test. test ≡ predicate.now.test) }
    ensures test { IfOk result (λ test. test ≡ predicate.now.test) }
    ensures copied { IfSome copied.new (λ test. test ≡ predicate.now.test) }
{
    if let Some(test) = copied {
        return test.share();
    }
    let test = Shared::new(alloc, predicate.test.copy(alloc)?)?;
    *copied = Some(test.share()?);
    Ok(test)
}

/// The projection of the predicate's test through a transform. Through identity it is the test itself.
fn test_through(
    alloc: Global,
    transform: &Transform,
    source: &ColumnType,
    predicate: &BoundPredicate,
    copied: &mut Option<Shared<Test>>,
) -> Result<Option<Shared<Test>>, AllocError>
    requires { IfSome copied.old (λ test. test ≡ predicate.now.test) }
    ensures test { IfOk result (λ found. found ≡ projected_test transform.now source.now predicate.now.test) }
    ensures copied { IfSome copied.new (λ test. test ≡ predicate.now.test) }
{
    if matches!(transform, Transform::Identity) {
        return Ok(Some(own_test(alloc, predicate, copied)?));
    }
    match project_test(alloc, transform, source, &predicate.test)? {
        Some(test) => Ok(Some(Shared::new(alloc, test)?)),
        None => Ok(None),
    }
}

/// The predicate's projection through a transform over the type of its column.
fn typed_test(
    alloc: Global,
    position: usize,
    transform: &Transform,
    source: &ColumnType,
    predicate: &BoundPredicate,
    copied: &mut Option<Shared<Test>>,
) -> Result<Option<FieldTest>, AllocError>
    requires { IfSome copied.old (λ test. test ≡ predicate.now.test) }
    ensures test { IfOk result (λ found. found ≡ typed_test position transform.now source.now predicate.now.test) }
    ensures copied { IfSome copied.new (λ test. test ≡ predicate.now.test) }
{
    match transform.result_type(source) {
        Some(value_type) => match test_through(alloc, transform, source, predicate, copied)? {
            Some(test) => Ok(Some(FieldTest {
                position,
                value_type,
                test,
            })),
            None => Ok(None),
        },
        None => Ok(None),
    }
}

/// The predicate's projection through the field at that position, where the field is one of its column.
fn predicate_test(
    alloc: Global,
    position: usize,
    field: &Field,
    predicate: &BoundPredicate,
    copied: &mut Option<Shared<Test>>,
) -> Result<Option<FieldTest>, AllocError>
    requires { IfSome copied.old (λ test. test ≡ predicate.now.test) }
    ensures test { IfOk result (λ found. found ≡ predicate_test position field.now predicate.now) }
    ensures copied { IfSome copied.new (λ test. test ≡ predicate.now.test) }
{
    if field.source_id != predicate.column {
        return Ok(None);
    }
    match field.source_type {
        Some(source) => typed_test(
            alloc,
            position,
            &field.transform,
            &source,
            predicate,
            copied,
        ),
        None => Ok(None),
    }
}

/// The predicate's projection through all fields. Those of identity share one test.
fn predicate_tests(
    alloc: Global,
    fields: &[Field],
    predicate: &BoundPredicate,
) -> Result<Items<FieldTest>, AllocError>
    ensures { IfOk result (λ found. found ≡ predicate_tests 0 fields.now predicate.now) }
{
    let mut found = Items::new(alloc);
    let mut copied = None;
    'fields: for (position, field) in fields.iter().enumerate() {
        if let Some(test) = predicate_test(alloc, position, field, predicate, &mut copied)? {
            found.push(test)?;
        }
    }
    Ok(found)
}

/// The part over the predicate's projection.
fn project_part(
    alloc: Global,
    fields: &[Field],
    part: &Part<BoundPredicate>,
) -> Result<Part<Items<FieldTest>>, AllocError>
    ensures { IfOk result (λ projected. projected ≡ map_part (predicate_tests 0 fields.now) part.now) }
{
    match part {
        Part::True => Ok(Part::True),
        Part::False => Ok(Part::False),
        Part::Predicate(predicate) => Ok(Part::Predicate(predicate_tests(
            alloc, fields, predicate,
        )?)),
        Part::And => Ok(Part::And),
        Part::Or => Ok(Part::Or),
    }
}

/// The parts over their predicates' projections.
fn project_parts(
    alloc: Global,
    fields: &[Field],
    parts: &[Part<BoundPredicate>],
) -> Result<Items<Part<Items<FieldTest>>>, AllocError>
    ensures { IfOk result (λ projected. projected ≡ map_predicates (predicate_tests 0 fields.now) parts.now) }
{
    let mut projected = Items::with_capacity(alloc, parts.len())?;
    'parts: for part in parts {
        projected.push(project_part(alloc, fields, part)?)?;
    }
    Ok(projected)
}

/// The filter over partition values that every file with a row that meets the filter meets. The transforms are read and
/// applied here.
pub fn project(alloc: Global, filter: &Bound, spec: &Spec) -> Result<PartFilter, AllocError>
    ensures { IfOk result (λ part. part ≡ projection filter.now.parts spec.now) }
{
    let fields = read_fields(alloc, spec.fields.as_slice())?;
    let parts = project_parts(alloc, fields.as_slice(), filter.parts.as_slice())?;
    filters_over_other_predicates::<BoundPredicate, Items<FieldTest>>();
    Ok(PartFilter {
        fields: fields.as_slice().len(),
        parts: Parts::from_items(parts),
    })
}
