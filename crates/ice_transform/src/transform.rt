//! Transforms and their values.

ghost use Rattle.std.specs.Prelude.{◌≡◌, false, pos, if◌then◌else◌, IfErr, IfOk};
ghost use Rattle.std.specs.Option.{option_map, option_and_then};
ghost use Rattle.ice_value.specs.Cells.{KeepsBytes};
ghost use Rattle.ice_value.specs.declared.cell.Cell.{Cell};
ghost use Rattle.ice_value.specs.declared.column_type.ColumnType.{ColumnType};
ghost use Rattle.ice_transform.specs.Floors.{floor_to, int_if};
ghost use Rattle.ice_transform.specs.Murmur.{bucket_of};
ghost use Rattle.ice_transform.specs.Names.{IsNamed, is_name, name_of};
ghost use Rattle.ice_transform.specs.Years.{year_of, month_of};
ghost use Rattle.ice_transform.specs.Values.{value_of, type_of, bucketed, truncated, day_of, hour_of, has_buckets};
ghost use Rattle.ice_transform.specs.Values.{has_days, has_hours, has_truncation};

use crate::calendar::{month_of_day, year_of_day};
use crate::floors::{int_if, truncate, unit_of};
use crate::murmur::bucket_of;
use crate::names::{known, numbered_name, plain_name};
use crate::parameter::Parameter;
use crate::texts::{first_bytes, first_points};
use contract_words::{Duplicate, Items, Text};
use ice_value::{Cell, ColumnType};
use std::alloc::{AllocError, Global};

/// How a partition field's value comes from a column's value.
#[derive(Debug, PartialEq, Drop)]
pub enum Transform {
    /// The value itself.
    Identity,
    /// The remainder of the value's hash by this many buckets.
    Bucket(Parameter),
    /// Numbers rounded down to a multiple of the width, texts and byte strings cut to it.
    Truncate(Parameter),
    /// Years since 1970.
    Year,
    /// Months since January 1970.
    Month,
    /// Days since 1970-01-01.
    Day,
    /// Hours since 1970-01-01 00:00.
    Hour,
    /// Null for every value.
    Void,
    /// Another text, as it came.
    Unknown(Text),
}

/// The value of a cell, where there is one. Only want of memory is refused.
type Applied = Result<Option<Cell>, AllocError>;

const MICROSECONDS_PER_DAY: i64 = 86_400_000_000;

const MICROSECONDS_PER_HOUR: i64 = 3_600_000_000;

impl Transform {
    /// The transform that a partition spec names so: `identity`, `bucket[N]`, `truncate[W]`, `year`, `month`, `day`,
    /// `hour` or `void`, with N and W in decimal digits from 1 to 2147483647. Any other text is kept as `Unknown`,
    /// which takes memory.
    pub fn parse(alloc: Global, text: &str) -> Result<Transform, AllocError>
        ensures named { IfOk result (λ transform. IsNamed transform text.now) }
        ensures memory { IfErr result (λ _. is_name text.now ≡ false) }
    {
        match known(text) {
            Some(transform) => Ok(transform),
            None => Ok(Transform::Unknown(Text::from_string(String::from_str(alloc, text)?))),
        }
    }

    /// The text that names the transform; of an unknown one the text that was kept.
    pub fn text(&self, alloc: Global) -> Result<Text, AllocError>
        ensures { IfOk result (λ text. text ≡ name_of self.now) }
    {
        match self {
            Transform::Identity => plain_name(alloc, "identity"),
            Transform::Bucket(buckets) => numbered_name(alloc, "bucket[", *buckets),
            Transform::Truncate(width) => numbered_name(alloc, "truncate[", *width),
            Transform::Year => plain_name(alloc, "year"),
            Transform::Month => plain_name(alloc, "month"),
            Transform::Day => plain_name(alloc, "day"),
            Transform::Hour => plain_name(alloc, "hour"),
            Transform::Void => plain_name(alloc, "void"),
            Transform::Unknown(text) => text.copy(alloc),
        }
    }

    /// The value of a cell, null for null. `Identity` gives every cell itself, and `Void` null for every cell, whatever
    /// the source type is. Of the others none where the cell isn't of the source type, where the transform is unknown,
    /// where it doesn't take the source type, and where the value would leave the type of its values: a truncated
    /// number below the least one, an hour outside 32 bits, the year or month of a day outside the years -9999 to 9999.
    /// Only a value that is a text or a byte string takes memory.
    pub fn apply(&self, alloc: Global, source: &ColumnType, cell: &Cell) -> Applied
        ensures value { IfOk result (λ value. value ≡ value_of self.now source.now cell.now) }
        ensures memory { IfErr result (λ _. KeepsBytes (value_of self.now source.now cell.now)) }
    {
        match (self, cell) {
            (_, Cell::Null) | (Transform::Void, _) => Ok(Some(Cell::Null)),
            (Transform::Identity, _) => Ok(Some(cell.copied(alloc)?)),
            _ if !cell.is_of(source) => Ok(None),
            (Transform::Bucket(buckets), _) => Ok(bucketed(*buckets, source, cell)),
            (Transform::Truncate(width), _) => truncated(alloc, *width, source, cell),
            (Transform::Year, _) => Ok(whole(year_of(source, cell))),
            (Transform::Month, _) => Ok(whole(month_of(source, cell))),
            (Transform::Day, _) => Ok(whole(day_of(source, cell))),
            (Transform::Hour, _) => Ok(whole(hour_of(source, cell))),
            (Transform::Unknown(_), _) => Ok(None),
        }
    }

    /// The type of the transform's values over this source type; none where the transform is unknown, or doesn't take
    /// the source type.
    pub fn result_type(&self, source: &ColumnType) -> Option<ColumnType>
        ensures { result ≡ type_of self.now source.now }
    {
        match self {
            Transform::Identity => Some(*source),
            Transform::Bucket(_) => int_where(has_buckets(source)),
            Transform::Truncate(_) if has_truncation(source) => Some(*source),
            Transform::Truncate(_) => None,
            Transform::Year | Transform::Month | Transform::Day => int_where(has_days(source)),
            Transform::Hour => int_where(has_hours(source)),
            Transform::Void => Some(ColumnType::Int),
            Transform::Unknown(_) => None,
        }
    }
}

fn int_where(taken: bool) -> Option<ColumnType>
    ensures { result ≡ (if taken then Some ColumnType.Int else None) }
{
    if taken { Some(ColumnType::Int) } else { None }
}

fn has_buckets(source: &ColumnType) -> bool
    ensures { result ≡ has_buckets source.now }
{
    match source {
        ColumnType::Int
        | ColumnType::Long
        | ColumnType::Date
        | ColumnType::Time
        | ColumnType::Timestamp
        | ColumnType::Timestamptz
        | ColumnType::String
        | ColumnType::Uuid
        | ColumnType::Fixed(_)
        | ColumnType::Binary => true,
        ColumnType::Boolean | ColumnType::Float | ColumnType::Double | ColumnType::Decimal { .. } =>
            false,
    }
}

fn has_truncation(source: &ColumnType) -> bool
    ensures { result ≡ has_truncation source.now }
{
    matches!(
        source,
        ColumnType::Int | ColumnType::Long | ColumnType::String | ColumnType::Binary
    )
}

fn has_days(source: &ColumnType) -> bool
    ensures { result ≡ has_days source.now }
{
    matches!(
        source,
        ColumnType::Date | ColumnType::Timestamp | ColumnType::Timestamptz
    )
}

fn has_hours(source: &ColumnType) -> bool
    ensures { result ≡ has_hours source.now }
{
    matches!(source, ColumnType::Timestamp | ColumnType::Timestamptz)
}

fn whole(number: Option<i64>) -> Option<Cell>
    ensures { result ≡ option_map Cell.Whole number }
{
    match number {
        Some(number) => Some(Cell::Whole(number)),
        None => None,
    }
}

/// The bucket of a cell that isn't null.
fn bucketed(buckets: Parameter, source: &ColumnType, cell: &Cell) -> Option<Cell>
    ensures { result ≡ bucketed buckets.number source.now cell.now }
{
    if !has_buckets(source) {
        return None;
    }
    match cell {
        Cell::Whole(number) => Some(bucket_cell(&number.to_le_bytes(), buckets)),
        Cell::Text(text) => Some(bucket_cell(text.as_bytes(), buckets)),
        Cell::Bytes(bytes) => Some(bucket_cell(bytes.as_slice(), buckets)),
        Cell::Null | Cell::Bool(_) => None,
    }
}

fn bucket_cell(bytes: &[u8], buckets: Parameter) -> Cell
    ensures { result ≡ Cell.Whole (pos (bucket_of buckets.number bytes.now)) }
{
    Cell::Whole(bucket_of(bytes, buckets.get()) as i64)
}

/// The number rounded down, or the text or byte string cut.
fn truncated(alloc: Global, width: Parameter, source: &ColumnType, cell: &Cell) -> Applied
    ensures value { IfOk result (λ value. value ≡ truncated width.number source.now cell.now) }
    ensures memory { IfErr result (λ _. KeepsBytes (truncated width.number source.now cell.now)) }
{
    match (source, cell) {
        (ColumnType::Int, Cell::Whole(number)) => Ok(whole(truncated_int(*number, width))),
        (ColumnType::Long, Cell::Whole(number)) => Ok(whole(truncate(*number, width.get()))),
        (ColumnType::String, Cell::Text(text)) => {
            let cut = first_points(text.as_str(), width.get() as usize);
            Ok(Some(Cell::Text(Text::from_string(String::from_str(alloc, cut)?))))
        }
        (ColumnType::Binary, Cell::Bytes(bytes)) => {
            let cut = first_bytes(bytes.as_slice(), width.get() as usize);
            Ok(Some(Cell::Bytes(Items::from_vec(cut.to_vec(alloc)?))))
        }
        _ => Ok(None),
    }
}

fn truncated_int(number: i64, width: Parameter) -> Option<i64>
    ensures { result ≡ int_if (floor_to (pos width.number) number) }
{
    match truncate(number, width.get()) {
        Some(multiple) => int_if(multiple),
        None => None,
    }
}

/// The day number of a date or a time.
fn day_of(source: &ColumnType, cell: &Cell) -> Option<i64>
    ensures { result ≡ day_of source.now cell.now }
{
    match (source, cell) {
        (ColumnType::Date, Cell::Whole(day)) => Some(*day),
        (ColumnType::Timestamp | ColumnType::Timestamptz, Cell::Whole(microseconds)) => Some(
            unit_of(*microseconds, MICROSECONDS_PER_DAY),
        ),
        _ => None,
    }
}

/// The year of a date or a time.
fn year_of(source: &ColumnType, cell: &Cell) -> Option<i64>
    ensures { result ≡ option_and_then year_of (day_of source.now cell.now) }
{
    year_of_day(day_of(source, cell)?)
}

/// The month of a date or a time.
fn month_of(source: &ColumnType, cell: &Cell) -> Option<i64>
    ensures { result ≡ option_and_then month_of (day_of source.now cell.now) }
{
    month_of_day(day_of(source, cell)?)
}

/// The hour of a time, where it fits 32 bits.
fn hour_of(source: &ColumnType, cell: &Cell) -> Option<i64>
    ensures { result ≡ hour_of source.now cell.now }
{
    match (source, cell) {
        (ColumnType::Timestamp | ColumnType::Timestamptz, Cell::Whole(microseconds)) => {
            int_if(unit_of(*microseconds, MICROSECONDS_PER_HOUR))
        }
        _ => None,
    }
}
