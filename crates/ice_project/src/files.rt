//! Files that may have a matching row.

ghost use Rattle.std.specs.Prelude.{◌≡◌, not, false, List};
ghost use Rattle.ice_filter.specs.Rows.{Row};
ghost use Rattle.ice_project.specs.Files.{is_all_null, is_zero, lower_limit, upper_limit, file_allows, file_may};
ghost use Rattle.ice_project.specs.Files.{AreCounted};
ghost use Rattle.ice_project.specs.Limits.{in_bounds};
ghost use Rattle.ice_value.specs.Columns.{count_of};
ghost use Rattle.ice_project.specs.Honesty.{NoneMeets};

use crate::laws::bounds_soundness;
use crate::limits::Limits;
use ice_filter::{Bound, BoundPredicate, PredicateTest, Test};
use ice_value::FileBounds;

/// Whether all values of the column are null.
fn is_all_null(bounds: &FileBounds<'_, '_>, column: i32) -> bool
    ensures { result ≡ is_all_null bounds.now column }
{
    match (bounds.value_count(column), bounds.null_count(column)) {
        (Some(values), Some(nulls)) => values == nulls,
        _ => false,
    }
}

/// Whether the bounds of the predicate's column allow a value that meets it.
fn is_within(bounds: &FileBounds<'_, '_>, predicate: &BoundPredicate) -> bool
    ensures { result ≡ in_bounds predicate.now.test (lower_limit bounds.now predicate.now.column_type predicate.now.column)
        (upper_limit bounds.now predicate.now.column_type predicate.now.column) }
{
    let limits = Limits {
        column_type: predicate.column_type,
        low: bounds.lower_bound(predicate.column),
        high: bounds.upper_bound(predicate.column),
    };
    limits.may_meet(&predicate.test)
}

/// Whether the file may have a null in the column.
fn may_have_null(bounds: &FileBounds<'_, '_>, column: i32) -> bool
    ensures { result ≡ not (is_zero (count_of column bounds.now.null_counts)) }
{
    match bounds.null_count(column) {
        Some(nulls) => nulls != 0,
        None => true,
    }
}

/// The test of a file.
#[derive(Drop)]
struct OfFile<'a> {
    bounds: &'a FileBounds<'a, 'a>,
}

impl<'a> PredicateTest<BoundPredicate> for OfFile<'a> {
    ghost says = { λ t l. file_allows t.bounds.now l };

    fn is_met(&self, predicate: &BoundPredicate) -> bool {
        if matches!(predicate.test, Test::NotAmong(_)) {
            true
        } else if matches!(predicate.test, Test::IsNull) {
            may_have_null(self.bounds, predicate.column)
        } else {
            !is_all_null(self.bounds, predicate.column) && is_within(self.bounds, predicate)
        }
    }
}

/// Whether a file with these counts and bounds may have a row that meets the filter. It takes no memory.
pub fn bounds_may(filter: &Bound, bounds: &FileBounds<'_, '_>) -> bool
    ensures test { result ≡ file_may filter.now.parts bounds.now }

    // Where the answer is no, and the counts and bounds are those of the rows, no row meets the filter.
    ensures sound { (rows : List Row) → result ≡ false → AreCounted bounds.now filter.now.parts rows
        → NoneMeets filter.now.parts rows }
{
    bounds_soundness();
    filter.parts.is_met(&OfFile { bounds })
}
