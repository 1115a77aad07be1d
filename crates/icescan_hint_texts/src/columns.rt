//! Which columns a filter asks for.

use crate::asked::Asked;
use crate::hint::{Hint, quoted};
use crate::nearest::add_none_named;
use contract_words::Text;
use ice_filter::{Column, Predicate};
use ice_meta::Schema;
use ice_value::ColumnType;
use std::alloc::{AllocError, Global};

/// The name of a column that stands in the one at `around`, of which the names so far are known; none where it has no
/// name, as the element of a list.
fn dotted(
    alloc: Global,
    names: &[Option<String>],
    around: Option<usize>,
    name: &Option<Text>,
) -> Result<Option<String>, AllocError> {
    let Some(name) = name else {
        return Ok(None);
    };
    let Some(around) = around else {
        return Ok(Some(String::from_str(alloc, name.as_str())?));
    };
    match names.get(around) {
        Some(Some(outer)) => Ok(Some(format!(in alloc; "{outer}.{}", name.as_str())?)),
        _ => Ok(None),
    }
}

/// The names of a schema's columns, with those of the structs around them, at the columns' places.
fn names_at_places(alloc: Global, schema: &Schema) -> Result<Vec<Option<String>>, AllocError> {
    let mut names = Vec::new(alloc);
    for column in schema.columns.as_slice() {
        let name = dotted(alloc, names.as_slice(), column.around, &column.name)?;
        names.push(name)?;
    }
    Ok(names)
}

/// The names by which a filter can ask for the columns of a schema.
fn names_of(alloc: Global, schema: &Schema) -> Result<Vec<String>, AllocError> {
    let mut names = Vec::new(alloc);
    for name in names_at_places(alloc, schema)? {
        if let Some(name) = name {
            names.push(name)?;
        }
    }
    Ok(names)
}

/// The names that lead to a column.
pub fn path_of(alloc: Global, column: &Column) -> Result<Vec<Text>, AllocError> {
    let mut names = Vec::new(alloc);
    names.push(column.first.copy(alloc)?)?;
    for name in column.more.as_slice() {
        names.push(name.copy(alloc)?)?;
    }
    Ok(names)
}

/// The names that lead to a column, as one text.
fn asked_name(alloc: Global, column: &Column) -> Result<String, AllocError> {
    let mut text = String::from_str(alloc, column.first.as_str())?;
    for name in column.more.as_slice() {
        text.push('.')?;
        text.push_str(name.as_str())?;
    }
    Ok(text)
}

/// How a type is written.
pub fn type_name(column_type: Option<ColumnType>) -> &'static str {
    match column_type {
        Some(ColumnType::Boolean) => "boolean",
        Some(ColumnType::Int) => "int",
        Some(ColumnType::Long) => "long",
        Some(ColumnType::Float) => "float",
        Some(ColumnType::Double) => "double",
        Some(ColumnType::Date) => "date",
        Some(ColumnType::Time) => "time",
        Some(ColumnType::Timestamp) => "timestamp",
        Some(ColumnType::Timestamptz) => "timestamptz",
        Some(ColumnType::String) => "string",
        Some(ColumnType::Uuid) => "uuid",
        Some(ColumnType::Fixed(_)) => "fixed",
        Some(ColumnType::Binary) => "binary",
        Some(ColumnType::Decimal { .. }) => "decimal",
        None => "struct, list or map",
    }
}

/// Adds that the column of a predicate is none of the schema's, where it is so. The answer says whether it is.
fn add_missing(
    hint: &mut Hint,
    alloc: Global,
    predicate: &Predicate,
    schema: &Schema,
) -> Result<bool, AllocError> {
    let path = path_of(alloc, &predicate.column)?;
    if schema.column(path.as_slice()).is_some() {
        return Ok(false);
    }
    let name = asked_name(alloc, &predicate.column)?;
    let names = names_of(alloc, schema)?;
    add_none_named(hint, alloc, "column", name.as_str(), names.as_slice())?;
    Ok(true)
}

/// Adds which name of the filter is the first that is no column.
pub fn add_first_missing(
    hint: &mut Hint,
    alloc: Global,
    asked: &Asked<'_>,
) -> Result<(), AllocError> {
    for predicate in asked.predicates(alloc)? {
        if add_missing(hint, alloc, predicate, asked.schema)? {
            return Ok(());
        }
    }
    Ok(())
}

/// Adds the type of the column that a predicate asks for.
fn add_type(
    hint: &mut Hint,
    alloc: Global,
    predicate: &Predicate,
    schema: &Schema,
) -> Result<(), AllocError> {
    let path = path_of(alloc, &predicate.column)?;
    let Some(column) = schema.column(path.as_slice()) else {
        return Ok(());
    };
    let name = asked_name(alloc, &predicate.column)?;
    let name = quoted(alloc, name.as_str())?;
    let kind = type_name(column.column_type);
    hint.here(alloc, format!(in alloc; "the type of {name}: {kind}")?)
}

/// Adds the types of the columns that a filter asks for.
pub fn add_types(hint: &mut Hint, alloc: Global, asked: &Asked<'_>) -> Result<(), AllocError> {
    for predicate in asked.predicates(alloc)? {
        add_type(hint, alloc, predicate, asked.schema)?;
    }
    Ok(())
}

/// The type of the column that a predicate asks for.
pub fn type_in(
    alloc: Global,
    predicate: &Predicate,
    schema: &Schema,
) -> Result<Option<ColumnType>, AllocError> {
    let path = path_of(alloc, &predicate.column)?;
    Ok(
        schema
            .column(path.as_slice())
            .and_then(|column| column.column_type),
    )
}
