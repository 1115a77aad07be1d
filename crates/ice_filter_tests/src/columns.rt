//! Filters of one column.

use contract_words::{Items, Text};
use ice_filter::{Bound, FilterFault, bind, parse};
use ice_meta::{Column, Schema};
use ice_value::ColumnType;
use std::alloc::{AllocError, Global};

pub fn text(alloc: Global, text: &str) -> Result<Text, AllocError> {
    Ok(Text::from_string(String::from_str(alloc, text)?))
}

/// The schema of the column `c`, of this type.
fn schema(alloc: Global, column_type: ColumnType) -> Result<Schema, AllocError> {
    let mut columns = Items::new(alloc);
    columns.push(Column {
        id: 1,
        around: None,
        name: Some(text(alloc, "c")?),
        column_type: Some(column_type),
    })?;
    Ok(Schema { id: 0, columns })
}

/// The filter of a text over that schema.
pub fn bound(alloc: Global, column_type: ColumnType, text: &str) -> Result<Bound, FilterFault> {
    match schema(alloc, column_type) {
        Ok(schema) => bind(alloc, &parse(alloc, text)?, &schema),
        Err(AllocError) => Err(FilterFault::Memory),
    }
}
