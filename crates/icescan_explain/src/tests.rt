//! A filter and its projections, with each of their predicates and tests alone.

ghost use Rattle.std.specs.Prelude.{◌≡◌, IfOk, map};
ghost use Rattle.std.specs.Option.{option_copied};
ghost use Rattle.icescan_explain.specs.Asking.{ice_filter_tests, spec_tests, tests_of};
ghost use Rattle.icescan_explain.specs.Fates.{row_fate, row_verdict};

use crate::blame::{blamed_by_row, row_allows};
use crate::copies::copied_filter;
use crate::lone::{LonePredicate, LoneTest, lone_predicates, lone_tests};
use crate::verdict::{Fate, Subject, Verdict};
use contract_words::{Items, Text};
use ice_filter::Bound;
use ice_manifest_reading::Row;
use ice_meta::Spec;
use ice_project::{PartFilter, project};
use icescan_requests::copied_spec;
use std::alloc::{AllocError, Global};

/// A filter through one partition spec.
#[derive(Debug, Drop)]
pub struct SpecTests {
    /// The spec.
    pub spec: Spec,
    /// The filter's projection through it.
    pub part: PartFilter,
    /// The tests of the projection, predicate by predicate, each alone.
    pub lone: Items<LoneTest>,
}

/// A filter, and what is asked of a table's manifests and files for it.
#[derive(Debug, Drop)]
pub struct FilterTests {
    /// The filter.
    pub filter: Bound,
    /// Its predicates in order, each alone.
    pub predicates: Items<LonePredicate>,
    /// The filter through each of the table's partition specs.
    pub specs: Items<SpecTests>,
}

fn spec_tests(alloc: Global, filter: &Bound, spec: &Spec) -> Result<SpecTests, AllocError>
    ensures { IfOk result (λ tests. tests ≡ spec_tests filter.now.parts spec.now) }
{
    let part = project(alloc, filter, spec)?;
    let lone = lone_tests(alloc, spec, &part)?;
    Ok(SpecTests {
        spec: copied_spec(alloc, spec)?,
        part,
        lone,
    })
}

/// The filter through each of the specs.
fn each_spec(alloc: Global, filter: &Bound, specs: &[Spec]) -> Result<Items<SpecTests>, AllocError>
    ensures { IfOk result (λ tests. tests ≡ map (spec_tests filter.now.parts) specs.now) }
{
    let mut tests = Items::new(alloc);
    'specs: for spec in specs {
        tests.push(spec_tests(alloc, filter, spec)?)?;
    }
    Ok(tests)
}

impl FilterTests {
    /// What is asked for a filter of a table with these partition specs. The names are those of the columns of the
    /// filter's predicates, in the same order.
    pub fn new(
        alloc: Global,
        specs: &[Spec],
        filter: &Bound,
        columns: &[Text],
    ) -> Result<FilterTests, AllocError>
        ensures { IfOk result (λ tests. tests ≡ ice_filter_tests specs.now filter.now.parts columns.now) }
    {
        Ok(FilterTests {
            filter: copied_filter(alloc, filter)?,
            predicates: lone_predicates(alloc, columns, filter)?,
            specs: each_spec(alloc, filter, specs)?,
        })
    }

    /// The filter through the spec of a row, where the table has it: the first of those that share the id.
    pub fn of_row(&self, row: &Row) -> Option<&SpecTests>
        ensures { option_copied result ≡ tests_of self.now row.now.spec_id }
    {
        self.specs
            .as_slice()
            .iter()
            .find(|tests| tests.spec.id == row.spec_id)
    }
}

fn row_fate(tests: &SpecTests, row: &Row) -> Result<Fate, AllocError>
    ensures { IfOk result (λ fate. fate ≡ row_fate tests.now row.now) }
{
    if row_allows(&tests.part, row) {
        Ok(Fate::Kept)
    } else {
        Ok(Fate::ByPartition(blamed_by_row(tests.lone.as_slice(), row)?))
    }
}

/// What becomes of the manifest of a row of the spec.
pub fn row_verdict(alloc: Global, tests: &SpecTests, row: &Row) -> Result<Verdict, AllocError>
    ensures { IfOk result (λ verdict. verdict ≡ row_verdict tests.now row.now) }
{
    Ok(Verdict {
        path: Items::from_vec(row.path.as_bytes().to_vec(alloc)?),
        bytes: row.length,
        subject: Subject::Manifest,
        fate: row_fate(tests, row)?,
    })
}
