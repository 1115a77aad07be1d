//! Numbers that hardly stand for the dates and times that are meant: those of another unit.

use crate::asked::Asked;
use crate::columns::type_in;
use crate::hint::Hint;
use crate::predicates::{literals_of, read_number};
use ice_filter::{Literal, Predicate};
use ice_meta::Schema;
use ice_value::ColumnType;
use std::alloc::{AllocError, Global};

/// The first moment of 1980, and that of 2200, in microseconds since 1970-01-01 00:00 UTC.
const FIRST: i64 = 315_532_800_000_000;

const END: i64 = 7_258_118_400_000_000;

/// How many microseconds a day has.
const DAY: i64 = 86_400_000_000;

/// A number of another unit, and the number to write for it.
#[derive(Clone, Copy)]
struct Meant {
    unit: &'static str,
    number: i64,
}

/// Whether a moment is of the years from 1980 to 2199.
fn is_likely(micros: i64) -> bool {
    micros >= FIRST && micros < END
}

/// The moment of a number in a column of dates or times, where there is one.
fn micros_of(column_type: ColumnType, number: i64) -> Option<i64> {
    match column_type {
        ColumnType::Date => number.checked_mul(DAY),
        _ => Some(number),
    }
}

/// What so many microseconds are in a column of this type.
fn number_of(column_type: ColumnType, micros: i64) -> i64 {
    match column_type {
        ColumnType::Date => micros.div_euclid(DAY),
        _ => micros,
    }
}

/// The unit by which a number is a likely moment, and what it is then.
fn likely_unit(column_type: ColumnType, number: i64) -> Option<Meant> {
    let kinds = [
        ("seconds", number.checked_mul(1_000_000)),
        ("milliseconds", number.checked_mul(1_000)),
        ("microseconds", Some(number)),
        ("nanoseconds", Some(number.div_euclid(1_000))),
        ("days", number.checked_mul(DAY)),
    ];
    for (unit, micros) in kinds {
        if let Some(micros) = micros {
            if is_likely(micros) {
                let number = number_of(column_type, micros);
                return Some(Meant { unit, number });
            }
        }
    }
    None
}

/// What the numbers of a column of this type count; none where it is of another type than dates and times.
fn counted(column_type: ColumnType) -> Option<&'static str> {
    match column_type {
        ColumnType::Date => Some("dates are days since 1970-01-01"),
        ColumnType::Timestamp | ColumnType::Timestamptz => {
            Some("times are microseconds since 1970-01-01 00:00 UTC")
        }
        _ => None,
    }
}

/// How a number was read in a column of this type, where it is no moment of the years from 1980 to 2199.
fn unlikely(
    alloc: Global,
    column_type: ColumnType,
    number: i64,
) -> Result<Option<String>, AllocError> {
    let Some(counted) = counted(column_type) else {
        return Ok(None);
    };
    if micros_of(column_type, number).is_some_and(is_likely) {
        return Ok(None);
    }
    let moment = match read_number(alloc, Some(column_type), number)? {
        Some(text) => text,
        None => String::from_str(alloc, "a time outside the years 0 to 9999")?,
    };
    let mut text = format!(in alloc; "{number} is read as {moment}, since {counted}")?;
    if let Some(meant) = likely_unit(column_type, number) {
        write!(text, "; for {number} {} write {}", meant.unit, meant.number)?;
    }
    Ok(Some(text))
}

/// The first number of a predicate that hardly stands for the time that is meant, and how it was read.
fn unlikely_in(
    alloc: Global,
    predicate: &Predicate,
    schema: &Schema,
) -> Result<Option<String>, AllocError> {
    let Some(column_type) = type_in(alloc, predicate, schema)? else {
        return Ok(None);
    };
    for literal in literals_of(alloc, predicate)? {
        if let Literal::Number(number) = literal {
            if let Some(text) = unlikely(alloc, column_type, *number)? {
                return Ok(Some(text));
            }
        }
    }
    Ok(None)
}

/// Adds the first number of a filter that hardly stands for the time that is meant.
pub fn add_unlikely(hint: &mut Hint, alloc: Global, asked: &Asked<'_>) -> Result<(), AllocError> {
    for predicate in asked.predicates(alloc)? {
        if let Some(text) = unlikely_in(alloc, predicate, asked.schema)? {
            return hint.note(alloc, text);
        }
    }
    Ok(())
}
