//! What is wrong with a file's partition values beside what its manifest says of the columns that they come from.

ghost use Rattle.std.specs.Prelude.{◌≡◌, ◌++◌, IfOk, OnOk, map};
ghost use Rattle.std.specs.Option.{option_copied};
ghost use Rattle.ice_project.specs.Limits.{limit};
ghost use Rattle.ice_transform.specs.Values.{is_rising, is_void};
ghost use Rattle.icescan_audit_findings.specs.ColumnFlaws.{has_bound};
ghost use Rattle.icescan_audit_findings.specs.FieldFlaws.{are_one, field_flaws, fields_flaws, has_nulls};
ghost use Rattle.icescan_audit_findings.specs.FieldFlaws.{has_other_nulls, has_values, is_no_bucket, is_outside};
ghost use Rattle.icescan_audit_findings.specs.FieldFlaws.{is_outside_bounds, is_past_buckets};
ghost use Rattle.icescan_audit_findings.specs.FieldFlaws.{source_of, sources_of, type_taken, value_at};
ghost use Rattle.icescan_audit_findings.specs.Flaws.{flaw_where};

use crate::basis::Basis;
use crate::finding::{FieldFlaw, Flaw};
use crate::limits::{is_above, is_below};
use contract_words::Text;
use ice_manifest_reading::Row;
use ice_meta::PartitionField;
use ice_project::transform_named;
use ice_transform::Transform;
use ice_value::{Cell, ColumnType, FileBounds, read_bound};
use shared_value::Shared;
use std::alloc::{AllocError, Global};
use std::cmp::Ordering;

/// A partition field: where its values come from.
#[derive(Debug, Drop)]
pub struct SourceField {
    /// Its name.
    pub name: Shared<Text>,
    /// The id of its column.
    pub column: i32,
    /// The type of its column; None where the transform is unknown or void, or does not take the type.
    pub column_type: Option<ColumnType>,
    /// How the values are made.
    pub transform: Transform,
}

/// Whether the transform is void.
fn is_void(transform: &Transform) -> bool
    ensures { result ≡ is_void transform.now }
{
    matches!(transform, Transform::Void)
}

/// Whether the transform is known and keeps the order of values.
fn is_rising(transform: &Transform) -> bool
    ensures { result ≡ is_rising transform.now }
{
    !matches!(
        transform,
        Transform::Bucket(_) | Transform::Void | Transform::Unknown(_)
    )
}

/// The type of a column, where the transform is known, takes it, and isn't void.
fn type_taken(transform: &Transform, column_type: &Option<ColumnType>) -> Option<ColumnType>
    ensures { result ≡ type_taken transform.now column_type.now }
{
    match column_type {
        Some(column_type) if !is_void(transform) && transform.result_type(column_type).is_some() =>
            { Some(*column_type) }
        _ => None,
    }
}

fn source_of(alloc: Global, field: &PartitionField) -> Result<SourceField, AllocError>
    ensures { IfOk result (λ source. source ≡ source_of field.now) }
{
    let transform = transform_named(alloc, field.transform.as_str())?;
    Ok(SourceField {
        name: Shared::new(alloc, field.name.copy(alloc)?)?,
        column: field.source_id,
        column_type: type_taken(&transform, &field.source_type),
        transform,
    })
}

fn sources_in(alloc: Global, fields: &[PartitionField]) -> Result<Vec<SourceField>, AllocError>
    ensures { IfOk result (λ sources. sources.items ≡ map source_of fields.now) }
{
    let mut sources = Vec::new(alloc);
    'fields: for field in fields {
        sources.push(source_of(alloc, field)?)?;
    }
    Ok(sources)
}

/// The fields of the spec of a row's manifest; none where there is no such spec.
pub fn sources_of(alloc: Global, basis: &Basis, row: &Row) -> Result<Vec<SourceField>, AllocError>
    ensures { IfOk result (λ sources. sources.items ≡ sources_of basis.now row.now) }
{
    match basis.spec_of(row.spec_id) {
        Some(spec) => sources_in(alloc, spec.fields.as_slice()),
        None => Ok(Vec::new(alloc)),
    }
}

/// Whether there is a bound of the column.
fn has_bound(bounds: &FileBounds<'_, '_>, column: i32) -> bool
    ensures { result ≡ has_bound bounds.now column }
{
    bounds.lower_bound(column).is_some() || bounds.upper_bound(column).is_some()
}

/// Whether by its counts or its bounds the column has a value that isn't null.
fn has_values(bounds: &FileBounds<'_, '_>, column: i32) -> bool
    ensures { result ≡ has_values bounds.now column }
{
    match (bounds.value_count(column), bounds.null_count(column)) {
        (Some(values), Some(nulls)) if values != nulls => true,
        (None, Some(0)) => true,
        _ => has_bound(bounds, column),
    }
}

/// Whether by its count the column has nulls.
fn has_nulls(bounds: &FileBounds<'_, '_>, column: i32) -> bool
    ensures { result ≡ has_nulls bounds.now column }
{
    match bounds.null_count(column) {
        Some(nulls) => nulls != 0,
        None => false,
    }
}

/// Whether the value is null and the column has other values, or it isn't and the column has nulls.
fn has_other_nulls(bounds: &FileBounds<'_, '_>, column: i32, value: &Cell) -> bool
    ensures { result ≡ has_other_nulls bounds.now column value.now }
{
    match value {
        Cell::Null => has_values(bounds, column),
        _ => has_nulls(bounds, column),
    }
}

/// The value that a bound's bytes hold; none where they hold none. Bounds of UUIDs are not read.
fn limit_of(
    alloc: Global,
    column_type: &ColumnType,
    bytes: Option<&[u8]>,
) -> Result<Option<Cell>, AllocError>
    ensures { IfOk result (λ bound. bound ≡ limit column_type.now (option_copied bytes.entry)) }
{
    match (column_type, bytes) {
        (ColumnType::Uuid, _) | (_, None) => Ok(None),
        (_, Some(bytes)) => read_bound(alloc, column_type, bytes),
    }
}

/// Whether both bounds are there and the same.
fn are_one(low: &Option<Cell>, high: &Option<Cell>) -> bool
    ensures { result ≡ are_one low.now high.now }
{
    match (low, high) {
        (Some(low), Some(high)) => matches!(low.order(high), Some(Ordering::Equal)),
        _ => false,
    }
}

/// The transform's value of a bound.
fn value_at(
    alloc: Global,
    transform: &Transform,
    column_type: &ColumnType,
    bound: &Option<Cell>,
) -> Result<Option<Cell>, AllocError>
    ensures { IfOk result (λ value. value ≡ value_at transform.now column_type.now bound.now) }
{
    match bound {
        Some(bound) => transform.apply(alloc, column_type, bound),
        None => Ok(None),
    }
}

/// Whether the value isn't one of a value between these bounds, as far as the transform tells.
fn is_outside(
    alloc: Global,
    transform: &Transform,
    column_type: &ColumnType,
    low: &Option<Cell>,
    high: &Option<Cell>,
    value: &Cell,
) -> Result<bool, AllocError>
    ensures { IfOk result (λ outside. outside
        ≡ is_outside transform.now column_type.now low.now high.now value.now) }
{
    if !is_rising(transform) && !are_one(low, high) {
        return Ok(false);
    }
    let least = value_at(alloc, transform, column_type, low)?;
    let most = value_at(alloc, transform, column_type, high)?;
    Ok(!(is_above(&least, value) && is_below(&most, value)))
}

/// Whether the value isn't one of so many buckets, which are numbered from 0.
fn is_past_buckets(number: u32, value: &Cell) -> bool
    ensures { result ≡ is_past_buckets number value.now }
{
    match value {
        Cell::Whole(bucket) => *bucket < 0 || *bucket >= i64::from(number),
        _ => false,
    }
}

/// Whether the transform has buckets, and the value is none of them.
fn is_no_bucket(transform: &Transform, value: &Cell) -> bool
    ensures { result ≡ is_no_bucket transform.now value.now }
{
    match transform {
        Transform::Bucket(buckets) => is_past_buckets(buckets.get(), value),
        _ => false,
    }
}

/// Whether no value between the bounds of the field's column has the value.
fn is_outside_bounds(
    alloc: Global,
    bounds: &FileBounds<'_, '_>,
    field: &SourceField,
    column_type: &ColumnType,
    value: &Cell,
) -> Result<bool, AllocError>
    ensures { IfOk result (λ outside. outside
        ≡ is_outside_bounds bounds.now field.now.transform column_type.now field.now.column value.now) }
{
    if matches!(value, Cell::Null) {
        return Ok(false);
    }
    if is_no_bucket(&field.transform, value) {
        return Ok(true);
    }
    let low = limit_of(alloc, column_type, bounds.lower_bound(field.column))?;
    let high = limit_of(alloc, column_type, bounds.upper_bound(field.column))?;
    is_outside(alloc, &field.transform, column_type, &low, &high, value)
}

/// Puts a flaw of a field last, where it was found.
pub fn push_of_field(
    flaws: &mut Vec<Flaw>,
    found: bool,
    flaw: FieldFlaw,
    name: &Shared<Text>,
) -> Result<(), AllocError>
    ensures { OnOk result (flaws.new.items ≡ flaws.old.items ++ flaw_where found (Flaw.OfField flaw name.now)) }
{
    if found {
        flaws.push(Flaw::OfField(flaw, name.share()?))?;
    }
    Ok(())
}

/// Puts what is wrong with a file's value of a field last.
fn push_field_flaws(
    alloc: Global,
    flaws: &mut Vec<Flaw>,
    bounds: &FileBounds<'_, '_>,
    field: &SourceField,
    value: &Cell,
) -> Result<(), AllocError>
    ensures { OnOk result (flaws.new.items ≡ flaws.old.items ++ field_flaws bounds.now field.now value.now) }
{
    let Some(column_type) = &field.column_type else {
        return Ok(());
    };
    let nulls = has_other_nulls(bounds, field.column, value);
    let outside = is_outside_bounds(alloc, bounds, field, column_type, value)?;
    push_of_field(flaws, nulls, FieldFlaw::OtherNulls, &field.name)?;
    push_of_field(flaws, outside, FieldFlaw::OutsideBounds, &field.name)
}

/// Puts what is wrong with a file's partition values last, field by field.
pub fn push_fields_flaws(
    alloc: Global,
    flaws: &mut Vec<Flaw>,
    bounds: &FileBounds<'_, '_>,
    fields: &[SourceField],
    tuple: &[Cell],
) -> Result<(), AllocError>
    ensures { OnOk result (flaws.new.items ≡ flaws.old.items ++ fields_flaws bounds.now fields.now tuple.now) }
{
    'fields: for i in 0..fields.len().min(tuple.len()) {
        push_field_flaws(alloc, flaws, bounds, &fields[i], &tuple[i])?;
    }
    Ok(())
}
