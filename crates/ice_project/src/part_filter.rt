//! Filters over partition values.

ghost use Rattle.std.specs.Prelude.{◌≡◌, false, List};
ghost use Rattle.ice_filter.specs.Rows.{Row};
ghost use Rattle.ice_filter.specs.declared.bound.BoundPredicate.{BoundPredicate};
ghost use Rattle.ice_filter.specs.declared.parts.Part.{Part};
ghost use Rattle.ice_meta.specs.declared.spec.Spec.{Spec};
ghost use Rattle.ice_project.specs.Fields.{fields_of};
ghost use Rattle.ice_project.specs.Honesty.{IsHonest, NoneMeets};
ghost use Rattle.ice_project.specs.Projection.{projection};
ghost use Rattle.ice_project.specs.Tuples.{part_meets, field_test_met, tests_met};

use crate::laws::soundness;
use crate::tuples::may;
use contract_words::Items;
use ice_filter::{Parts, PredicateTest, Test};
use ice_value::{Cell, ColumnType};
use shared_value::Shared;

/// A test of one of the values of a partition tuple.
#[derive(Debug, PartialEq, Drop)]
pub struct FieldTest {
    /// The place of the value in the tuple.
    pub position: usize,
    /// The type of the value.
    pub value_type: ColumnType,
    /// What is asked of it. That of fields of identity is one.
    pub test: Shared<Test>,
}

impl FieldTest {
    /// Whether the tuple meets the test. A tuple that has no such value does.
    fn is_met(&self, tuple: &[Cell]) -> bool
        ensures { result ≡ field_test_met tuple.now self.now }
    {
        match tuple.get(self.position) {
            Some(cell) => may(self.test.get(), cell),
            None => true,
        }
    }
}

/// A filter over the partition tuples of one spec. Each predicate is the tests that must all be met.
#[derive(Debug, Drop)]
pub struct PartFilter {
    /// How many fields the spec has.
    pub fields: usize,
    /// The filter, part by part.
    pub parts: Parts<Items<FieldTest>>,
}

/// The test of a tuple.
#[derive(Drop)]
struct OfTuple<'a> {
    tuple: &'a [Cell],
}

impl<'a> PredicateTest<Items<FieldTest>> for OfTuple<'a> {
    ghost says = { λ t tests. tests_met t.tuple.now tests };

    fn is_met(&self, tests: &Items<FieldTest>) -> bool {
        tests.as_slice().iter().all(|test| test.is_met(self.tuple))
    }
}

impl PartFilter {
    /// Whether a file with this partition tuple may have a row that meets the filter. It takes no memory.
    pub fn meets(&self, tuple: &[Cell]) -> bool
        ensures test { result ≡ part_meets self.now tuple.now }

        // Where the answer is no, a file with this tuple has no row that meets the filter that was projected.
        ensures sound { (filter : List (Part BoundPredicate)) (spec : Spec) (rows : List Row)
            → self.now ≡ projection filter spec
            → result ≡ false → IsHonest (fields_of spec) tuple.now rows → NoneMeets filter rows }
    {
        soundness();
        self.parts.is_met(&OfTuple { tuple })
    }
}
