//! A file that is left out has no match. `ice_project` proves this for its own callers; here it stands as laws.

ghost use Rattle.std.specs.Prelude.{◌≡◌, false, List};
ghost use Rattle.ice_filter.specs.Rows as table;
ghost use Rattle.ice_filter.specs.declared.bound.BoundPredicate.{BoundPredicate};
ghost use Rattle.ice_filter.specs.declared.parts.Part.{Part};
ghost use Rattle.ice_meta.specs.declared.spec.Spec.{Spec};
ghost use Rattle.ice_project.specs.Files.{AreCounted, file_may};
ghost use Rattle.ice_project.specs.Honesty.{IsSound, NoneMeets};
ghost use Rattle.ice_value.specs.declared.cell.Cell.{Cell};
ghost use Rattle.ice_value.specs.declared.file_bounds.FileBounds.{FileBounds};

use contract_words::Items;
use ice_filter::{BoundPredicate, filters_over_other_predicates};
use ice_project::FieldTest;
use ice_transform::{
    cut_texts, equal_cells, identity_values, null_values, rising_values, values_of_transforms,
};
use ice_value::order_of_cells;

/// A file whose partition values don't meet the projection, or whose counts and bounds say no, has no row that meets
/// the filter, where it is honest about its rows.
pub fn left_out_files()
    ensures values { (filter : List (Part BoundPredicate)) (spec : Spec) (tuple : List Cell) →
        IsSound filter spec tuple }
    ensures columns { (filter : List (Part BoundPredicate)) (file : FileBounds) (rows : List table.Row) →
        file_may filter file ≡ false → AreCounted file filter rows → NoneMeets filter rows }
{
    values_of_transforms();
    identity_values();
    null_values();
    equal_cells();
    rising_values();
    cut_texts();
    order_of_cells();
    filters_over_other_predicates::<BoundPredicate, Items<FieldTest>>();
}
