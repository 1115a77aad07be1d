//! Laws of projections.

ghost use Rattle.std.specs.Prelude.{◌≡◌, true, false, IsTrue, List};
ghost use Rattle.ice_filter.specs.Rows.{Row};
ghost use Rattle.ice_filter.specs.declared.bound.BoundPredicate.{BoundPredicate};
ghost use Rattle.ice_filter.specs.declared.parts.Part.{Part};
ghost use Rattle.ice_filter.specs.Trees.{meaning, tree_of};
ghost use Rattle.ice_meta.specs.Partitioning.{is_unpartitioned};
ghost use Rattle.ice_meta.specs.declared.spec.Spec.{Spec};
ghost use Rattle.ice_value.specs.Cells.{same_tuple};
ghost use Rattle.ice_value.specs.declared.cell.Cell.{Cell};
ghost use Rattle.ice_value.specs.declared.file_bounds.FileBounds.{FileBounds};
ghost use Rattle.ice_value.specs.declared.file_bounds.Summary.{Summary};
ghost use Rattle.ice_project.specs.declared.part_filter.PartFilter.{PartFilter};
ghost use Rattle.ice_project.specs.Fields.{fields_of};
ghost use Rattle.ice_project.specs.Files.{file_may, AreCounted};
ghost use Rattle.ice_project.specs.Honesty.{IsSound, NoneMeets};
ghost use Rattle.ice_project.specs.Projection.{projection};
ghost use Rattle.ice_project.specs.Summaries.{summaries_may, IsCovered};
ghost use Rattle.ice_project.specs.Tuples.{part_meets};

use crate::part_filter::FieldTest;
use contract_words::Items;
use ice_filter::{BoundPredicate, filters_over_other_predicates};
use ice_transform::{
    cut_texts, equal_cells, identity_values, null_values, rising_values, values_of_transforms,
};
use ice_value::{equality_of_cells, order_of_cells};

/// A file whose tuple doesn't meet the projection has no row that meets the filter.
pub fn soundness()
    ensures { (filter : List (Part BoundPredicate)) (spec : Spec) (tuple : List Cell) → IsSound filter spec tuple }
{
    values_of_transforms();
    identity_values();
    null_values();
    equal_cells();
    rising_values();
    cut_texts();
    order_of_cells();
    filters_over_other_predicates::<BoundPredicate, Items<FieldTest>>();
}

/// A manifest whose summaries are those of a tuple that meets the projection isn't left out.
pub fn summary_soundness()
    ensures { (filter : List (Part BoundPredicate)) (spec : Spec) (summaries : List Summary) (tuple : List Cell)
        → IsCovered (fields_of spec) summaries tuple → part_meets (projection filter spec) tuple ≡ true
        → summaries_may (projection filter spec) summaries ≡ true }
{
    order_of_cells();
    filters_over_other_predicates::<BoundPredicate, Items<FieldTest>>();
}

/// A file with these counts and bounds, where they say no, has no row that meets the filter.
pub fn bounds_soundness()
    ensures { (filter : List (Part BoundPredicate)) (file : FileBounds) (rows : List Row) → file_may filter file ≡ false
        → AreCounted file filter rows → NoneMeets filter rows }
{
    order_of_cells();
}

/// Through a spec that partitions nothing, every predicate is met by every tuple. So the projection is met wherever that of
/// the same filter through any spec is: a delete file of such a spec is kept wherever some data file is.
pub fn projections_of_unpartitioned_specs()
    ensures predicates { (filter : List (Part BoundPredicate)) (spec : Spec) (tuple : List Cell) → is_unpartitioned spec ≡ true
        → part_meets (projection filter spec) tuple ≡ meaning (λ (l : BoundPredicate). true) (tree_of filter) }
    ensures open { (filter : List (Part BoundPredicate)) (spec other : Spec) (tuple met : List Cell)
        → is_unpartitioned spec ≡ true
        → part_meets (projection filter other) met ≡ true → part_meets (projection filter spec) tuple ≡ true }
{
    filters_over_other_predicates::<BoundPredicate, Items<FieldTest>>();
}

/// Of one spec, the same tuples meet the same filters: a delete file that needs the spec and tuple of its data file is
/// kept where that data file is.
pub fn projections_of_same_tuples()
    ensures { (part : PartFilter) (tuple other : List Cell) → IsTrue (same_tuple tuple other)
        → part_meets part tuple ≡ part_meets part other }
{
    equality_of_cells();
}
