//! The first of some tests that says no.

ghost use Rattle.std.specs.Prelude.{◌≡◌, IfOk};
ghost use Rattle.icescan_explain.specs.Blaming.{blamed_column, blamed_field};
ghost use Rattle.ice_project.specs.Tuples.{part_meets};
ghost use Rattle.ice_state.specs.Pruning.{summaries_allow};

use crate::lone::{LonePredicate, LoneTest, shared_name};
use contract_words::Text;
use ice_manifest_reading::Row;
use ice_project::{PartFilter, bounds_may, summary_may};
use ice_value::{Cell, FileBounds};
use shared_value::Shared;
use std::alloc::AllocError;

/// Whether a row's summaries allow a tuple that meets the filter; a row without summaries allows any.
pub fn row_allows(part: &PartFilter, row: &Row) -> bool
    ensures { result ≡ summaries_allow part.now row.now.partitions }
{
    match &row.partitions {
        Some(summaries) => summary_may(part, summaries.as_slice()),
        None => true,
    }
}

/// The field of the first test that a row's summaries alone say no to.
pub fn blamed_by_row(lone: &[LoneTest], row: &Row) -> Result<Option<Shared<Text>>, AllocError>
    ensures { IfOk result (λ field. field
        ≡ blamed_field lone.now (λ part. summaries_allow part row.now.partitions)) }
{
    'tests: for test in lone {
        if !row_allows(&test.part, row) {
            return shared_name(&test.field);
        }
    }
    Ok(None)
}

/// The field of the first test that partition values alone say no to.
pub fn blamed_by_tuple(
    lone: &[LoneTest],
    tuple: &[Cell],
) -> Result<Option<Shared<Text>>, AllocError>
    ensures { IfOk result (λ field. field ≡ blamed_field lone.now (λ part. part_meets part tuple.now)) }
{
    'tests: for test in lone {
        if !test.part.meets(tuple) {
            return shared_name(&test.field);
        }
    }
    Ok(None)
}

/// The column of the first predicate that counts and bounds alone say no to.
pub fn blamed_by_bounds(
    predicates: &[LonePredicate],
    bounds: &FileBounds<'_, '_>,
) -> Result<Option<Shared<Text>>, AllocError>
    ensures { IfOk result (λ column. column ≡ blamed_column predicates.now bounds.now) }
{
    'predicates: for predicate in predicates {
        if !bounds_may(&predicate.filter, bounds) {
            return shared_name(&predicate.column);
        }
    }
    Ok(None)
}
