//! What a manifest says of the columns of a file and what can't be.

ghost use Rattle.std.specs.Prelude.{◌≡◌, ◌<◌, ◌≤◌, ◌⊎◌, ◌++◌, ◌&&◌, ◌||◌, not, true, false, is_some, IfOk, IfSome, OnOk};
ghost use Rattle.std.specs.Prelude.{Some, length};
ghost use Rattle.std.specs.Cmp.Lexicographic.{slice_cmp};
ghost use Rattle.std.specs.Option.{ForSome, option_copied};
ghost use Rattle.std.specs.List.Sorted.{IsNonDecreasing};
ghost use Rattle.std.specs.Ordering.{is_gt, nat_cmp};
ghost use Rattle.icescan_audit_findings.specs.ColumnFlaws.{column_flaws, columns_flaws, cross, is_more, is_past};
ghost use Rattle.icescan_audit_findings.specs.ColumnFlaws.{count_flaws_of, is_less_than_none};
ghost use Rattle.ice_project.specs.Files.{same_count};
ghost use Rattle.icescan_audit_findings.specs.ColumnsSaid.{AreMapsOf, AreSaidOf, IsSaidOf, SaysLittle};
ghost use Rattle.icescan_audit_findings.specs.ColumnsSaid.{is_of_bytes};
ghost use Rattle.icescan_audit_findings.specs.Flaws.{flaw_where};
ghost use Rattle.icescan_audit_findings.specs.Ids.{Rises};
ghost use Rattle.icescan_audit_findings.specs.Places.{FindsEach, HasFlawed};
ghost use Rattle.ice_project.specs.Limits.{limit};
ghost use Rattle.ice_value.specs.declared.file_bounds.FileBounds.{FileBounds};

use crate::basis::TypedColumn;
use crate::finding::{ColumnFlaw, Flaw};
use crate::ids::{last_said, place_near};
use crate::pairs::RisingPairs;
use crate::places::few_places;
use ice_value::{ColumnType, FileBounds, compare_bound, read_bound};
use std::alloc::{AllocError, Global};
use std::cmp::Ordering;

/// Where a map whose ids rise says something of fewer than one column in so many, only these are looked at. It takes
/// a search for each of them, and the others take a look each.
const LEAST_FOR_EACH: usize = 16;

/// Where a map's ids do not rise, the same where it says something of at most so many columns: each is searched for from
/// the map's first pair on.
const MOST_SEARCHED: usize = 64;

/// The columns of a schema, and where they stand.
#[derive(Drop)]
pub struct SchemaColumns<'a> {
    pub all: &'a [TypedColumn],
    /// Their ids, if no two have the same, as they rise; else none.
    pub ids: &'a [i32],
    /// Their places by their ids, if no two have the same.
    pub places: Option<RisingPairs<'a, usize>>,
    ghost rises: { Rises ids.now },
    ghost finds: { ForSome places (λ by_id. FindsEach all.now by_id.pairs.now) },
}

/// The maps of the columns of a file, where the ids of the pairs of each rise.
#[derive(Drop)]
struct RisingMaps<'a, 'd> {
    value_counts: RisingPairs<'a, i64>,
    null_counts: RisingPairs<'a, i64>,
    lower_bounds: RisingPairs<'a, &'d [u8]>,
    upper_bounds: RisingPairs<'a, &'d [u8]>,
}

/// What a manifest says of columns of a file, each at the place of its id.
#[derive(Drop)]
struct FileSaid<'d> {
    value_counts: Vec<Option<i64>>,
    null_counts: Vec<Option<i64>>,
    lower_bounds: Vec<Option<&'d [u8]>>,
    upper_bounds: Vec<Option<&'d [u8]>>,
}

/// What a manifest says of a column of a file.
#[derive(Drop)]
struct ColumnSaid<'a> {
    value_count: Option<i64>,
    null_count: Option<i64>,
    lower_bound: Option<&'a [u8]>,
    upper_bound: Option<&'a [u8]>,
}

/// The maps of the columns, if the ids of the pairs of each rise.
fn rising_maps<'a, 'd>(bounds: &'a FileBounds<'_, 'd>) -> Option<RisingMaps<'a, 'd>>
    ensures { IfSome result (AreMapsOf bounds.now) }
{
    Some(RisingMaps {
        value_counts: RisingPairs::new(bounds.value_counts.pairs())?,
        null_counts: RisingPairs::new(bounds.null_counts.pairs())?,
        lower_bounds: RisingPairs::new(bounds.lower_bounds.pairs())?,
        upper_bounds: RisingPairs::new(bounds.upper_bounds.pairs())?,
    })
}

/// What the maps say of a column.
#[inline(always)]
fn column_found<'d>(maps: &mut RisingMaps<'_, 'd>, column: i32) -> ColumnSaid<'d>
    ensures said { (file : FileBounds) → AreMapsOf file maps.old → IsSaidOf file column result }
    ensures same { (file : FileBounds) → AreMapsOf file maps.old → AreMapsOf file maps.new }
{
    ColumnSaid {
        value_count: maps.value_counts.said_of(column),
        null_count: maps.null_counts.said_of(column),
        lower_bound: maps.lower_bounds.said_of(column),
        upper_bound: maps.upper_bounds.said_of(column),
    }
}

/// What the manifest says of the columns of these ids, which rise.
fn file_said<'d>(
    alloc: Global,
    ids: &[i32],
    bounds: &FileBounds<'_, 'd>,
) -> Result<FileSaid<'d>, AllocError>
    requires { Rises ids.now }
    ensures { IfOk result (AreSaidOf bounds.now ids.now) }
{
    Ok(FileSaid {
        value_counts: last_said(alloc, ids, bounds.value_counts.pairs())?,
        null_counts: last_said(alloc, ids, bounds.null_counts.pairs())?,
        lower_bounds: last_said(alloc, ids, bounds.lower_bounds.pairs())?,
        upper_bounds: last_said(alloc, ids, bounds.upper_bounds.pairs())?,
    })
}

/// What the manifest says of a column, whose id may be at this place.
fn column_said<'a>(
    ids: &[i32],
    said: &FileSaid<'a>,
    bounds: &'a FileBounds<'_, '_>,
    near: usize,
    column: i32,
) -> ColumnSaid<'a>
    requires rises { Rises ids.now }
    requires said { AreSaidOf bounds.now ids.now said.now }
    ensures { IsSaidOf bounds.now column result }
{
    match place_near(ids, near, column) {
        Some(place) => ColumnSaid {
            value_count: said.value_counts[place],
            null_count: said.null_counts[place],
            lower_bound: said.lower_bounds[place],
            upper_bound: said.upper_bounds[place],
        },
        None => column_looked_up(bounds, column),
    }
}

/// What the manifest says of a column, looked up in its maps.
fn column_looked_up<'a>(bounds: &'a FileBounds<'_, '_>, column: i32) -> ColumnSaid<'a>
    ensures { IsSaidOf bounds.now column result }
{
    ColumnSaid {
        value_count: bounds.value_count(column),
        null_count: bounds.null_count(column),
        lower_bound: bounds.lower_bound(column),
        upper_bound: bounds.upper_bound(column),
    }
}

/// Whether values of the type are texts or byte strings, which stand in the order of the bytes of their bounds.
fn is_of_bytes(column_type: &ColumnType) -> bool
    ensures { result ≡ is_of_bytes column_type.now }
{
    matches!(
        column_type,
        ColumnType::String | ColumnType::Fixed(_) | ColumnType::Binary
    )
}

/// Whether the first byte tells that the first bytes come before the others.
#[inline(always)]
fn begin_before(low: &[u8], high: &[u8]) -> bool
    ensures { result ≡ true → is_gt (slice_cmp nat_cmp low.now high.now) ≡ false }
{
    match (low, high) {
        ([first, ..], [other, ..]) => first < other,
        _ => false,
    }
}

/// Whether the first bytes come behind the others.
fn is_behind(low: &[u8], high: &[u8]) -> bool
    ensures { result ≡ is_gt (slice_cmp nat_cmp low.now high.now) }
{
    !begin_before(low, high) && matches!(low.cmp(high), Ordering::Greater)
}

/// Whether the bytes of bounds tell that the lower one is not above the upper one, without reading a value.
fn are_in_order(column_type: &ColumnType, low: &[u8], high: &[u8]) -> bool
    ensures { result ≡ (is_of_bytes column_type.now && not (is_gt (slice_cmp nat_cmp low.now high.now))) }
{
    is_of_bytes(column_type) && !is_behind(low, high)
}

/// Whether a lower bound is above an upper one, where both hold a value of the type, as they are read. Bounds of UUIDs
/// are not.
fn is_past_as_read(
    alloc: Global,
    column_type: &ColumnType,
    low: &[u8],
    high: &[u8],
) -> Result<bool, AllocError>
    ensures { IfOk result (λ past. past
        ≡ is_past (limit column_type.now (Some low.now)) (limit column_type.now (Some high.now))) }
{
    if matches!(column_type, ColumnType::Uuid) {
        return Ok(false);
    }
    match read_bound(alloc, column_type, high)? {
        Some(high) => Ok(matches!(
            compare_bound(column_type, low, &high),
            Some(Ordering::Greater)
        )),
        None => Ok(false),
    }
}

/// The same; where their bytes tell it they are not read.
fn is_past(
    alloc: Global,
    column_type: &ColumnType,
    low: &[u8],
    high: &[u8],
) -> Result<bool, AllocError>
    ensures { IfOk result (λ past. past
        ≡ is_past (limit column_type.now (Some low.now)) (limit column_type.now (Some high.now))) }
{
    if are_in_order(column_type, low, high) {
        return Ok(false);
    }
    is_past_as_read(alloc, column_type, low, high)
}

/// Whether a column's lower bound is above its upper one.
fn bounds_cross(
    alloc: Global,
    column_type: &Option<ColumnType>,
    low: Option<&[u8]>,
    high: Option<&[u8]>,
) -> Result<bool, AllocError>
    ensures { IfOk result (λ answer. answer
        ≡ cross column_type.now (option_copied low.entry) (option_copied high.entry)) }
{
    match (column_type, low, high) {
        (Some(column_type), Some(low), Some(high)) => is_past(alloc, column_type, low, high),
        _ => Ok(false),
    }
}

/// Whether more values are null than there are.
fn has_excess(nulls: Option<i64>, values: Option<i64>) -> bool
    ensures { result ≡ is_more nulls values }
{
    match (nulls, values) {
        (Some(nulls), Some(values)) => nulls > values,
        _ => false,
    }
}

/// Whether both numbers are there and the same.
fn is_same_count(a: Option<i64>, b: Option<i64>) -> bool
    ensures { result ≡ same_count a b }
{
    match (a, b) {
        (Some(a), Some(b)) => a == b,
        _ => false,
    }
}

/// Whether the number is there and below 0.
fn is_less_than_none(count: Option<i64>) -> bool
    ensures { result ≡ is_less_than_none count }
{
    match count {
        Some(count) => count < 0,
        None => false,
    }
}

/// Whether the column has fewer than no values or than no nulls.
fn has_negative_counts(said: &ColumnSaid<'_>) -> bool
    ensures { result ≡ (is_less_than_none said.now.value_count || is_less_than_none said.now.null_count) }
{
    is_less_than_none(said.value_count) || is_less_than_none(said.null_count)
}

/// Whether all values of the column are null, and yet there is a bound.
fn has_bounds_of_nulls(said: &ColumnSaid<'_>) -> bool
    ensures { result ≡ (same_count said.now.value_count said.now.null_count
        && (is_some (option_copied said.now.lower_bound) || is_some (option_copied said.now.upper_bound))) }
{
    is_same_count(said.value_count, said.null_count)
        && (said.lower_bound.is_some() || said.upper_bound.is_some())
}

/// Puts last that a column's bounds cross, where they do.
fn push_cross(flaws: &mut Vec<Flaw>, found: bool, column: i32) -> Result<(), AllocError>
    ensures { OnOk result (flaws.new.items ≡ flaws.old.items ++ flaw_where found (Flaw.BoundsCross column)) }
{
    if found {
        flaws.push(Flaw::BoundsCross(column))?;
    }
    Ok(())
}

/// Puts last that a column has more nulls than values, where it has.
fn push_excess(flaws: &mut Vec<Flaw>, found: bool, column: i32) -> Result<(), AllocError>
    ensures { OnOk result (flaws.new.items ≡ flaws.old.items ++ flaw_where found (Flaw.ExcessNulls column)) }
{
    if found {
        flaws.push(Flaw::ExcessNulls(column))?;
    }
    Ok(())
}

/// Puts a flaw of a column last, where it was found.
fn push_of_column(
    flaws: &mut Vec<Flaw>,
    found: bool,
    flaw: ColumnFlaw,
    column: i32,
) -> Result<(), AllocError>
    ensures { OnOk result (flaws.new.items ≡ flaws.old.items ++ flaw_where found (Flaw.OfColumn flaw column)) }
{
    if found {
        flaws.push(Flaw::OfColumn(flaw, column))?;
    }
    Ok(())
}

/// Puts what is wrong with the counts of a column last, that are below 0 or are those of nulls alone beside a bound.
fn push_count_flaws(
    flaws: &mut Vec<Flaw>,
    column: &TypedColumn,
    said: &ColumnSaid<'_>,
) -> Result<(), AllocError>
    ensures { (file : FileBounds) → IsSaidOf file column.now.id said.now → OnOk result (flaws.new.items
        ≡ flaws.old.items ++ count_flaws_of file column.now.id) }
{
    let negative = has_negative_counts(said);
    let of_nulls = has_bounds_of_nulls(said);
    push_of_column(flaws, negative, ColumnFlaw::NegativeCounts, column.id)?;
    push_of_column(flaws, of_nulls, ColumnFlaw::BoundsOfNulls, column.id)
}

/// Puts what is wrong with what is said of a column last.
fn push_column_flaws(
    alloc: Global,
    flaws: &mut Vec<Flaw>,
    column: &TypedColumn,
    said: &ColumnSaid<'_>,
) -> Result<(), AllocError>
    ensures { (file : FileBounds) → IsSaidOf file column.now.id said.now →
        OnOk result (flaws.new.items ≡ flaws.old.items ++ column_flaws file column.now) }
{
    let cross = bounds_cross(
        alloc,
        &column.column_type,
        said.lower_bound,
        said.upper_bound,
    )?;
    let excess = has_excess(said.null_count, said.value_count);
    push_cross(flaws, cross, column.id)?;
    push_excess(flaws, excess, column.id)?;
    push_count_flaws(flaws, column, said)
}

/// Puts what is wrong with what the maps say of the schema's columns last, column by column.
fn push_flaws_found(
    alloc: Global,
    flaws: &mut Vec<Flaw>,
    columns: &[TypedColumn],
    maps: &mut RisingMaps<'_, '_>,
) -> Result<(), AllocError>
    ensures { (file : FileBounds) → AreMapsOf file maps.old →
        OnOk result (flaws.new.items ≡ flaws.old.items ++ columns_flaws file columns.now) }
{
    'columns: for column in columns {
        let of_column = column_found(maps, column.id);
        push_column_flaws(alloc, flaws, column, &of_column)?;
    }
    Ok(())
}

/// Whether the place is in front of this one, or no column is at it.
fn is_passed(columns: &[TypedColumn], from: usize, place: usize) -> bool
    ensures passed { result ≡ true → (place < from) ⊎ (length columns.now ≤ place) }
    ensures ahead { result ≡ false → (from ≤ place) × (place < length columns.now) }
{
    place < from || columns.len() <= place
}

/// The same where something can be wrong only of the columns at these places, which do not fall.
fn push_flaws_found_at(
    alloc: Global,
    flaws: &mut Vec<Flaw>,
    columns: &[TypedColumn],
    places: &[usize],
    maps: &mut RisingMaps<'_, '_>,
) -> Result<(), AllocError>
    requires { IsNonDecreasing places.now }
    ensures { (file : FileBounds) → AreMapsOf file maps.old → HasFlawed file columns.now places.now →
        OnOk result (flaws.new.items ≡ flaws.old.items ++ columns_flaws file columns.now) }
{
    let mut from = 0;
    'places: for place in places {
        if is_passed(columns, from, *place) {
            continue;
        }
        let column = &columns[*place];
        let of_column = column_found(maps, column.id);
        push_column_flaws(alloc, flaws, column, &of_column)?;
        from = *place + 1;
    }
    Ok(())
}

/// The same, also where the ids of a map do not rise: what it says last of each column is put in a list first.
fn push_flaws_listed(
    alloc: Global,
    flaws: &mut Vec<Flaw>,
    columns: &[TypedColumn],
    ids: &[i32],
    bounds: &FileBounds<'_, '_>,
) -> Result<(), AllocError>
    requires { Rises ids.now }
    ensures { OnOk result (flaws.new.items ≡ flaws.old.items ++ columns_flaws bounds.now columns.now) }
{
    let said = file_said(alloc, ids, bounds)?;
    'columns: for i in 0..columns.len() {
        let column = &columns[i];
        let of_column = column_said(ids, &said, bounds, i, column.id);
        push_column_flaws(alloc, flaws, column, &of_column)?;
    }
    Ok(())
}

/// The same where something can be wrong only of the columns at these places, which do not fall.
fn push_flaws_said_at(
    alloc: Global,
    flaws: &mut Vec<Flaw>,
    columns: &[TypedColumn],
    places: &[usize],
    bounds: &FileBounds<'_, '_>,
) -> Result<(), AllocError>
    requires sorted { IsNonDecreasing places.now }
    requires flawed { HasFlawed bounds.now columns.now places.now }
    ensures { OnOk result (flaws.new.items ≡ flaws.old.items ++ columns_flaws bounds.now columns.now) }
{
    let mut from = 0;
    'places: for place in places {
        if is_passed(columns, from, *place) {
            continue;
        }
        let column = &columns[*place];
        let of_column = column_looked_up(bounds, column.id);
        push_column_flaws(alloc, flaws, column, &of_column)?;
        from = *place + 1;
    }
    Ok(())
}

/// Whether what is said of no column can be wrong: that takes a lower bound and an upper one, or a count.
fn says_little(bounds: &FileBounds<'_, '_>) -> bool
    ensures { result ≡ true → SaysLittle bounds.now }
{
    let lacks_bounds = bounds.lower_bounds.pairs().is_empty()
        || bounds.upper_bounds.pairs().is_empty();
    let lacks_counts = bounds.value_counts.pairs().is_empty()
        && bounds.null_counts.pairs().is_empty();
    lacks_bounds && lacks_counts
}

/// Puts what is wrong with what is said of the schema's columns last, column by column, where the ids of each map rise.
fn push_rising_flaws(
    alloc: Global,
    flaws: &mut Vec<Flaw>,
    columns: &SchemaColumns<'_>,
    bounds: &FileBounds<'_, '_>,
    maps: &mut RisingMaps<'_, '_>,
) -> Result<(), AllocError>
    requires { AreMapsOf bounds.now maps.now }
    ensures { OnOk result (flaws.new.items ≡ flaws.old.items ++ columns_flaws bounds.now columns.now.all.now) }
{
    let most = columns.all.len() / LEAST_FOR_EACH;
    match few_places(alloc, &columns.places, bounds, most)? {
        Some(places) => push_flaws_found_at(alloc, flaws, columns.all, &places, maps),
        None => push_flaws_found(alloc, flaws, columns.all, maps),
    }
}

/// The same where they do not.
fn push_other_flaws(
    alloc: Global,
    flaws: &mut Vec<Flaw>,
    columns: &SchemaColumns<'_>,
    bounds: &FileBounds<'_, '_>,
) -> Result<(), AllocError>
    ensures { OnOk result (flaws.new.items ≡ flaws.old.items ++ columns_flaws bounds.now columns.now.all.now) }
{
    match few_places(alloc, &columns.places, bounds, MOST_SEARCHED)? {
        Some(places) => push_flaws_said_at(alloc, flaws, columns.all, &places, bounds),
        None => push_flaws_listed(alloc, flaws, columns.all, columns.ids, bounds),
    }
}

/// Puts what is wrong with what is said of the schema's columns last, column by column.
pub fn push_columns_flaws(
    alloc: Global,
    flaws: &mut Vec<Flaw>,
    columns: &SchemaColumns<'_>,
    bounds: &FileBounds<'_, '_>,
) -> Result<(), AllocError>
    ensures { OnOk result (flaws.new.items ≡ flaws.old.items ++ columns_flaws bounds.now columns.now.all.now) }
{
    if says_little(bounds) {
        return Ok(());
    }
    match rising_maps(bounds) {
        Some(mut maps) => push_rising_flaws(alloc, flaws, columns, bounds, &mut maps),
        None => push_other_flaws(alloc, flaws, columns, bounds),
    }
}
