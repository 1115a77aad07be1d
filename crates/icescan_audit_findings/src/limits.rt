//! What the summaries of a manifest's row let the partition values of its entries be.

ghost use Rattle.std.specs.Prelude.{◌≡◌, IfOk};
ghost use Rattle.std.specs.Option.{option_and_then, option_copied};
ghost use Rattle.ice_project.specs.Fields.{field_of};
ghost use Rattle.ice_project.specs.Limits.{limit};
ghost use Rattle.ice_project.specs.Summaries.{type_of_values};
ghost use Rattle.ice_value.specs.Cells.{is_at_most};
ghost use Rattle.icescan_audit_findings.specs.Coverage.{allows, is_above, is_below, is_bounded, limits_in, limits_of};
ghost use Rattle.icescan_audit_findings.specs.Coverage.{row_limits};

use contract_words::Text;
use ice_manifest_reading::Row;
use ice_meta::{PartitionField, Spec};
use ice_project::transform_named;
use ice_value::{Cell, ColumnType, Summary, read_bound};
use shared_value::Shared;
use std::alloc::{AllocError, Global};
use std::cmp::Ordering;

/// What the summary of a partition field lets the field's values be.
#[derive(Debug, Drop)]
pub struct FieldLimits {
    /// The field's name.
    pub name: Shared<Text>,
    /// Whether a value may be null.
    pub null: bool,
    /// No other value is below it.
    pub low: Option<Cell>,
    /// No other value is above it.
    pub high: Option<Cell>,
    /// Whether the summary has both bounds, as one has of values that aren't all null.
    pub bounded: bool,
}

impl FieldLimits {
    /// Whether the field may have this value.
    pub fn allows(&self, value: &Cell) -> bool
        ensures { result ≡ allows self.now value.now }
    {
        match value {
            Cell::Null => self.null,
            _ => is_above(&self.low, value) && is_below(&self.high, value),
        }
    }

    /// Whether the value is null, or the summary has both bounds.
    pub fn is_bounded(&self, value: &Cell) -> bool
        ensures { result ≡ is_bounded self.now value.now }
    {
        matches!(value, Cell::Null) || self.bounded
    }
}

fn is_at_most(value: &Cell, other: &Cell) -> bool
    ensures { result ≡ is_at_most value.now other.now }
{
    matches!(value.order(other), Some(Ordering::Less | Ordering::Equal))
}

/// Whether a value is of the kind of a lower bound and not below it, where there is one.
pub(crate) fn is_above(low: &Option<Cell>, value: &Cell) -> bool
    ensures { result ≡ is_above low.now value.now }
{
    match low {
        Some(bound) => is_at_most(bound, value),
        None => true,
    }
}

/// Whether a value is of the kind of an upper bound and not above it, where there is one.
pub(crate) fn is_below(high: &Option<Cell>, value: &Cell) -> bool
    ensures { result ≡ is_below high.now value.now }
{
    match high {
        Some(bound) => is_at_most(value, bound),
        None => true,
    }
}

/// The type of a partition field's values, by which its bounds are read.
fn type_of_values(alloc: Global, field: &PartitionField) -> Result<Option<ColumnType>, AllocError>
    ensures { IfOk result (λ values. values ≡ type_of_values (field_of field.now)) }
{
    let transform = transform_named(alloc, field.transform.as_str())?;
    match &field.source_type {
        Some(source) => Ok(transform.result_type(source)),
        None => Ok(None),
    }
}

/// The value that a bound's bytes hold; none where they hold none. Bounds of UUIDs are not read.
fn bound_of(
    alloc: Global,
    values: &Option<ColumnType>,
    bytes: Option<&[u8]>,
) -> Result<Option<Cell>, AllocError>
    ensures { IfOk result (λ bound. bound ≡ option_and_then (λ t. limit t (option_copied bytes.entry)) values.now) }
{
    match (values, bytes) {
        (Some(ColumnType::Uuid), _) => Ok(None),
        (Some(column_type), Some(bytes)) => read_bound(alloc, column_type, bytes),
        _ => Ok(None),
    }
}

fn limits_of(
    alloc: Global,
    field: &PartitionField,
    summary: &Summary,
) -> Result<FieldLimits, AllocError>
    ensures { IfOk result (λ limits. limits ≡ limits_of field.now summary.now) }
{
    let values = type_of_values(alloc, field)?;
    Ok(FieldLimits {
        name: Shared::new(alloc, field.name.copy(alloc)?)?,
        null: summary.contains_null(),
        low: bound_of(alloc, &values, summary.lower())?,
        high: bound_of(alloc, &values, summary.upper())?,
        bounded: summary.lower().is_some() && summary.upper().is_some(),
    })
}

fn limits_in(
    alloc: Global,
    fields: &[PartitionField],
    summaries: &[Summary],
) -> Result<Vec<FieldLimits>, AllocError>
    ensures { IfOk result (λ limits. limits.items ≡ limits_in fields.now summaries.now) }
{
    let mut limits = Vec::new(alloc);
    'fields: for i in 0..fields.len().min(summaries.len()) {
        limits.push(limits_of(alloc, &fields[i], &summaries[i])?)?;
    }
    Ok(limits)
}

/// What a row lets the values of its spec's fields be: anything where it says nothing of them, and where it speaks of
/// another number of fields.
pub fn row_limits(alloc: Global, spec: &Spec, row: &Row) -> Result<Vec<FieldLimits>, AllocError>
    ensures { IfOk result (λ limits. limits.items ≡ row_limits spec.now row.now.partitions) }
{
    let fields = spec.fields.as_slice();
    let Some(summaries) = &row.partitions else {
        return Ok(Vec::new(alloc));
    };
    let summaries = summaries.as_slice();
    if summaries.len() == fields.len() {
        limits_in(alloc, fields, summaries)
    } else {
        Ok(Vec::new(alloc))
    }
}
