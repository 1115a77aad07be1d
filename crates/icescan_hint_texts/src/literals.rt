//! Which constant of a filter its column does not take, and what to write for it.

use crate::asked::Asked;
use crate::columns::{type_in, type_name};
use crate::hint::{Hint, quoted};
use crate::moments::{day_in, micros_in, time_in};
use crate::predicates::{column_text, literal_text, literals_of};
use ice_filter::{FilterFault, Literal, Predicate, bind, parse};
use ice_meta::Schema;
use ice_value::ColumnType;
use std::alloc::{AllocError, Global};

/// Whether the column of a predicate takes a constant.
fn takes(
    alloc: Global,
    predicate: &Predicate,
    literal: &Literal,
    schema: &Schema,
) -> Result<bool, AllocError> {
    let name = column_text(alloc, &predicate.column)?;
    let value = literal_text(alloc, literal)?;
    let text = format!(in alloc; "{name} = {value}")?;
    let Ok(filter) = parse(alloc, text.as_str()) else {
        return Ok(true);
    };
    Ok(!matches!(bind(alloc, &filter, schema), Err(FilterFault::WrongLiteral)))
}

/// The number to write for a text in a column of dates or times.
fn number_for(column_type: ColumnType, literal: &Literal) -> Option<i64> {
    let Literal::Text(text) = literal else {
        return None;
    };
    match column_type {
        ColumnType::Date => day_in(text.as_str()),
        ColumnType::Time => time_in(text.as_str()),
        ColumnType::Timestamp | ColumnType::Timestamptz => micros_in(text.as_str()),
        _ => None,
    }
}

/// What to write for a constant that a column of this type does not take.
fn instead(
    alloc: Global,
    column_type: ColumnType,
    literal: &Literal,
) -> Result<String, AllocError> {
    if let Some(number) = number_for(column_type, literal) {
        return format!(in alloc; "; write {number} for it");
    }
    match (column_type, literal) {
        (ColumnType::Date, _) => format!(in alloc; "; write the days since 1970-01-01"),
        (ColumnType::Time, _) => format!(in alloc; "; write the microseconds since midnight"),
        (ColumnType::Timestamp | ColumnType::Timestamptz, _) => {
            format!(in alloc; "; write the microseconds since 1970-01-01 00:00 UTC")
        }
        (ColumnType::Int, Literal::Number(_)) => {
            format!(in alloc; "; its values are from -2147483648 to 2147483647")
        }
        (ColumnType::Int | ColumnType::Long, _) => format!(in alloc;
            "; write a whole number without quotes"
        ),
        (ColumnType::String, Literal::Number(number)) => format!(in alloc;
            "; write '{number}' for it"
        ),
        (ColumnType::String | ColumnType::Uuid, _) => format!(in alloc;
            "; write a text in single quotes"
        ),
        (ColumnType::Boolean, _) => format!(in alloc; "; write true or false"),
        (ColumnType::Fixed(length), _) => format!(in alloc; "; write {length} bytes as x'..'"),
        (ColumnType::Binary, _) => format!(in alloc; "; write bytes as x'00ff'"),
        _ => Ok(String::new(alloc)),
    }
}

/// Adds the first constant of a predicate that its column does not take, where there is one. The answer says whether.
fn add_wrong(
    hint: &mut Hint,
    alloc: Global,
    predicate: &Predicate,
    column_type: ColumnType,
    schema: &Schema,
) -> Result<bool, AllocError> {
    for literal in literals_of(alloc, predicate)? {
        if !takes(alloc, predicate, literal, schema)? {
            let name = column_text(alloc, &predicate.column)?;
            let name = quoted(alloc, name.as_str())?;
            let value = literal_text(alloc, literal)?;
            let kind = type_name(Some(column_type));
            let instead = instead(alloc, column_type, literal)?;
            hint.here(
                alloc,
                format!(in alloc; "{name} is of type {kind} and does not take {value}{instead}")?,
            )?;
            return Ok(true);
        }
    }
    Ok(false)
}

/// Adds the first constant of a filter that its column does not take.
pub fn add_wrong_literal(
    hint: &mut Hint,
    alloc: Global,
    asked: &Asked<'_>,
) -> Result<(), AllocError> {
    for predicate in asked.predicates(alloc)? {
        if let Some(column_type) = type_in(alloc, predicate, asked.schema)? {
            if add_wrong(hint, alloc, predicate, column_type, asked.schema)? {
                return Ok(());
            }
        }
    }
    Ok(())
}
