//! The predicates of a filter and the tests that they come to, each alone.

ghost use Rattle.std.specs.Prelude.{◌≡◌, ◌++◌, IfOk, OnOk, map, slice_get};
ghost use Rattle.icescan_explain.specs.Alone.{lone_predicate, lone_predicates, lone_test, lone_tests, names_of};
ghost use Rattle.icescan_explain.specs.Alone.{only, only_test};

use crate::copies::{copied_field_test, copied_predicate};
use contract_words::{Items, Text};
use ice_filter::{Bound, BoundPredicate, Part, Parts};
use ice_meta::{PartitionField, Spec};
use ice_project::{FieldTest, PartFilter};
use shared_value::Shared;
use std::alloc::{AllocError, Global};

/// A test that a predicate of a filter comes to through a partition field, alone.
#[derive(Debug, Drop)]
pub struct LoneTest {
    /// The field's name.
    pub field: Option<Shared<Text>>,
    /// The filter over partition values that has this test alone.
    pub part: PartFilter,
}

/// A predicate of a filter, alone.
#[derive(Debug, Drop)]
pub struct LonePredicate {
    /// The name of the predicate's column.
    pub column: Option<Shared<Text>>,
    /// The filter that has this predicate alone.
    pub filter: Bound,
}

/// The same name, without a copy.
pub fn shared_name(name: &Option<Shared<Text>>) -> Result<Option<Shared<Text>>, AllocError>
    ensures { IfOk result (λ shared. shared ≡ name.now) }
{
    match name {
        Some(name) => Ok(Some(name.share()?)),
        None => Ok(None),
    }
}

/// The names of partition fields.
fn field_names(alloc: Global, fields: &[PartitionField]) -> Result<Vec<Shared<Text>>, AllocError>
    ensures { IfOk result (λ names. names.items ≡ names_of fields.now) }
{
    let mut names = Vec::with_capacity(alloc, fields.len())?;
    'fields: for field in fields {
        names.push(Shared::new(alloc, field.name.copy(alloc)?)?)?;
    }
    Ok(names)
}

/// The name at a position, where there is one.
fn name_at(names: &[Shared<Text>], position: usize) -> Result<Option<Shared<Text>>, AllocError>
    ensures { IfOk result (λ name. name ≡ slice_get names.now position) }
{
    match names.get(position) {
        Some(name) => Ok(Some(name.share()?)),
        None => Ok(None),
    }
}

/// The filter over the values of so many partition fields that has one test alone.
fn only_test(alloc: Global, fields: usize, test: &FieldTest) -> Result<PartFilter, AllocError>
    ensures { IfOk result (λ part. part ≡ only_test fields test.now) }
{
    let mut tests = Items::new(alloc);
    tests.push(copied_field_test(test)?)?;
    let mut parts = Items::new(alloc);
    parts.push(Part::Predicate(tests))?;
    Ok(PartFilter {
        fields,
        parts: Parts::from_items(parts),
    })
}

/// A test alone. The names are those of the spec's fields.
#[tactic(auto, using(crate::proofs::Names::name_listed))]
fn lone_test(
    alloc: Global,
    spec: &Spec,
    names: &[Shared<Text>],
    fields: usize,
    test: &FieldTest,
) -> Result<LoneTest, AllocError>
    requires { names.now ≡ names_of spec.now.fields }
    ensures { IfOk result (λ lone. lone ≡ lone_test spec.now fields test.now) }
{
    Ok(LoneTest {
        field: name_at(names, test.position)?,
        part: only_test(alloc, fields, test)?,
    })
}

/// Puts tests last, each alone. The names are those of the spec's fields.
fn push_lone_tests(
    alloc: Global,
    lone: &mut Items<LoneTest>,
    spec: &Spec,
    names: &[Shared<Text>],
    fields: usize,
    tests: &[FieldTest],
) -> Result<(), AllocError>
    requires { names.now ≡ names_of spec.now.fields }
    ensures { OnOk result (lone.new ≡ lone.old ++ map (lone_test spec.now fields) tests.now) }
{
    'tests: for test in tests {
        lone.push(lone_test(alloc, spec, names, fields, test)?)?;
    }
    Ok(())
}

/// The tests of a filter's projection through a spec, predicate by predicate, each alone.
pub fn lone_tests(
    alloc: Global,
    spec: &Spec,
    part: &PartFilter,
) -> Result<Items<LoneTest>, AllocError>
    ensures { IfOk result (λ lone. lone ≡ lone_tests spec.now part.now) }
{
    let names = field_names(alloc, spec.fields.as_slice())?;
    let parts = part.parts.as_slice();
    let mut lone = Items::new(alloc);
    'parts: for part_of in parts {
        if let Part::Predicate(tests) = part_of {
            push_lone_tests(
                alloc,
                &mut lone,
                spec,
                &names,
                part.fields,
                tests.as_slice(),
            )?;
        }
    }
    Ok(lone)
}

/// The filter that has one predicate alone.
fn only_predicate(alloc: Global, predicate: &BoundPredicate) -> Result<Bound, AllocError>
    ensures { IfOk result (λ filter. filter.parts ≡ only predicate.now) }
{
    let mut parts = Items::new(alloc);
    parts.push(Part::Predicate(copied_predicate(alloc, predicate)?))?;
    Ok(Bound {
        parts: Parts::from_items(parts),
    })
}

/// The name at a place, where there is one.
fn column_at(alloc: Global, columns: &[Text], at: usize) -> Result<Option<Shared<Text>>, AllocError>
    ensures { IfOk result (λ name. name ≡ slice_get columns.now at) }
{
    match columns.get(at) {
        Some(name) => Ok(Some(Shared::new(alloc, name.copy(alloc)?)?)),
        None => Ok(None),
    }
}

/// A predicate alone.
fn lone_predicate(
    alloc: Global,
    columns: &[Text],
    at: usize,
    predicate: &BoundPredicate,
) -> Result<LonePredicate, AllocError>
    ensures { IfOk result (λ lone. lone ≡ lone_predicate columns.now at predicate.now) }
{
    Ok(LonePredicate {
        column: column_at(alloc, columns, at)?,
        filter: only_predicate(alloc, predicate)?,
    })
}

/// The predicates of a filter, each alone. The names are those of the predicates' columns, in the same order.
pub fn lone_predicates(
    alloc: Global,
    columns: &[Text],
    filter: &Bound,
) -> Result<Items<LonePredicate>, AllocError>
    ensures { IfOk result (λ lone. lone ≡ lone_predicates columns.now 0 filter.now.parts) }
{
    let parts = filter.parts.as_slice();
    let mut lone = Items::new(alloc);
    let mut at = 0;
    'parts: for part in parts {
        if let Part::Predicate(predicate) = part {
            lone.push(lone_predicate(alloc, columns, at, predicate)?)?;
            at += 1;
        }
    }
    Ok(lone)
}
