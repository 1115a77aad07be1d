//! Where the columns stand of which a manifest says something of a file, so that others need no look.

ghost use Rattle.std.specs.Prelude.{ℕ, List, IfOk, IfSome, OnOk};
ghost use Rattle.std.specs.Option.{ForSome};
ghost use Rattle.std.specs.List.{Contains};
ghost use Rattle.std.specs.List.Sorted.{IsNonDecreasing};
ghost use Rattle.icescan_audit_findings.specs.Places.{FindsEach, HasFlawed, HasPlaces, HasPlacesOf};
ghost use Rattle.icescan_audit_findings.specs.declared.basis.TypedColumn.{TypedColumn};

use crate::basis::TypedColumn;
use crate::pairs::RisingPairs;
use ice_value::FileBounds;
use std::alloc::{AllocError, Global};

/// The ids of columns, each with the column's place.
fn numbered(alloc: Global, columns: &[TypedColumn]) -> Result<Vec<(i32, usize)>, AllocError>
    ensures { IfOk result (λ places. HasPlaces columns.now places.items) }
{
    let mut places = Vec::with_capacity(alloc, columns.len())?;
    'columns: for i in 0..columns.len() {
        places.push((columns[i].id, i))?;
    }
    Ok(places)
}

/// The same, in the order of the ids.
pub fn places_by_id(alloc: Global, columns: &[TypedColumn]) -> Result<Vec<(i32, usize)>, AllocError>
    ensures { IfOk result (λ places. HasPlaces columns.now places.items) }
{
    let mut places = numbered(alloc, columns)?;
    places.sort_by_key(|place| place.0)?;
    Ok(places)
}

/// The places of columns by their ids, if no two have the same.
pub fn found_by_id<'a>(
    columns: &[TypedColumn],
    places: &'a [(i32, usize)],
) -> Option<RisingPairs<'a, usize>>
    requires { HasPlaces columns.now places.now }
    ensures { ForSome result (λ by_id. FindsEach columns.now by_id.pairs.now) }
{
    RisingPairs::new(places)
}

/// Puts the places of the columns last of which pairs say something.
fn push_places<T>(
    found: &mut Vec<usize>,
    by_id: &RisingPairs<'_, usize>,
    pairs: &[(i32, T)],
) -> Result<(), AllocError>
    ensures kept { OnOk result ((k : ℕ) → Contains found.old.items k → Contains found.new.items k) }
    ensures told { OnOk result (HasPlacesOf by_id.now.pairs.now pairs.now found.new.items) }
{
    let mut places = by_id.anew();
    'pairs: for pair in pairs {
        match places.said_of(pair.0) {
            Some(place) => found.push(place)?,
            None => {}
        }
    }
    Ok(())
}

/// The places of the columns of which something is said that can be wrong, which takes a count or a lower bound. They do
/// not fall, and one may stand more than once.
fn places_said(
    alloc: Global,
    by_id: &RisingPairs<'_, usize>,
    bounds: &FileBounds<'_, '_>,
) -> Result<Vec<usize>, AllocError>
    ensures sorted { IfOk result (λ found. IsNonDecreasing found.items) }
    ensures flawed { (columns : List TypedColumn) → FindsEach columns by_id.now.pairs.now →
        IfOk result (λ found. HasFlawed bounds.now columns found.items) }
{
    let mut found = Vec::new(alloc);
    push_places(&mut found, by_id, bounds.value_counts.pairs())?;
    push_places(&mut found, by_id, bounds.null_counts.pairs())?;
    push_places(&mut found, by_id, bounds.lower_bounds.pairs())?;
    found.sort_unstable();
    Ok(found)
}

/// Whether each map that can tell of something wrong says something of at most so many columns.
fn says_at_most(bounds: &FileBounds<'_, '_>, most: usize) -> bool {
    bounds.value_counts.pairs().len() <= most
        && bounds.null_counts.pairs().len() <= most
        && bounds.lower_bounds.pairs().len() <= most
}

/// These places, if the places are known and each map says something of at most so many columns.
pub fn few_places(
    alloc: Global,
    by_id: &Option<RisingPairs<'_, usize>>,
    bounds: &FileBounds<'_, '_>,
    most: usize,
) -> Result<Option<Vec<usize>>, AllocError>
    ensures sorted { IfOk result (λ few. IfSome few (λ found. IsNonDecreasing found.items)) }
    ensures flawed { (columns : List TypedColumn) → ForSome by_id.now (λ places. FindsEach columns places.pairs.now) →
        IfOk result (λ few. IfSome few (λ found. HasFlawed bounds.now columns found.items)) }
{
    match by_id {
        Some(by_id) if says_at_most(bounds, most) => Ok(Some(places_said(alloc, by_id, bounds)?)),
        _ => Ok(None),
    }
}
