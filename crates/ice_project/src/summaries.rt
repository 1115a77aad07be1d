//! Manifests that may have a matching tuple.

ghost use Rattle.std.specs.Prelude.{◌≡◌, true, List};
ghost use Rattle.ice_filter.specs.declared.bound.BoundPredicate.{BoundPredicate};
ghost use Rattle.ice_filter.specs.declared.parts.Part.{Part};
ghost use Rattle.ice_meta.specs.declared.spec.Spec.{Spec};
ghost use Rattle.ice_value.specs.declared.cell.Cell.{Cell};
ghost use Rattle.ice_project.specs.Fields.{fields_of};
ghost use Rattle.ice_project.specs.Projection.{projection};
ghost use Rattle.ice_project.specs.Summaries.{summary_allows, field_test_allowed, tests_allowed, summaries_may};
ghost use Rattle.ice_project.specs.Summaries.{IsCovered};
ghost use Rattle.ice_project.specs.Tuples.{part_meets};

use crate::laws::summary_soundness;
use crate::limits::Limits;
use crate::part_filter::{FieldTest, PartFilter};
use contract_words::Items;
use ice_filter::{PredicateTest, Test};
use ice_value::Summary;

impl FieldTest {
    /// Whether the summary allows a value that meets the test.
    fn is_allowed_by(&self, summary: &Summary) -> bool
        ensures { result ≡ summary_allows self.now summary.now }
    {
        if matches!(self.test.get(), Test::IsNull) {
            summary.contains_null()
        } else {
            let limits = Limits {
                column_type: self.value_type,
                low: summary.lower(),
                high: summary.upper(),
            };
            limits.may_meet(self.test.get())
        }
    }

    /// Whether the field's summary allows a value that meets the test.
    fn is_allowed(&self, summaries: &[Summary]) -> bool
        ensures { result ≡ field_test_allowed summaries.now self.now }
    {
        match summaries.get(self.position) {
            Some(summary) => self.is_allowed_by(summary),
            None => true,
        }
    }
}

/// The test of summaries.
#[derive(Drop)]
struct OfSummaries<'a> {
    summaries: &'a [Summary],
}

impl<'a> PredicateTest<Items<FieldTest>> for OfSummaries<'a> {
    ghost says = { λ t tests. tests_allowed t.summaries.now tests };

    fn is_met(&self, tests: &Items<FieldTest>) -> bool {
        tests
            .as_slice()
            .iter()
            .all(|test| test.is_allowed(self.summaries))
    }
}

/// Whether the summaries allow a tuple that meets the filter.
fn allows(summaries: &[Summary], part: &PartFilter) -> bool
    ensures { result ≡ summaries_may part.now summaries.now }
{
    if summaries.len() == part.fields {
        part.parts.is_met(&OfSummaries { summaries })
    } else {
        true
    }
}

/// Whether a manifest with these summaries may have a file whose tuple meets the filter. Summaries of another number of
/// fields than the filter's spec has say nothing. It takes no memory.
pub fn summary_may(part: &PartFilter, summaries: &[Summary]) -> bool
    ensures test { result ≡ summaries_may part.now summaries.now }

    // Where the summaries are those of a tuple that meets the filter, the answer is yes.
    ensures sound { (filter : List (Part BoundPredicate)) (spec : Spec) (tuple : List Cell)
        → part.now ≡ projection filter spec
        → IsCovered (fields_of spec) summaries.now tuple → part_meets part.now tuple ≡ true → result ≡ true }
{
    summary_soundness();
    allows(summaries, part)
}
