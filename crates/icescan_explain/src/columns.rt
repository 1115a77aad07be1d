//! The names of the columns of a filter's predicates.

ghost use Rattle.std.specs.Prelude.{◌≡◌, ◌++◌, IfOk, OnOk};
ghost use Rattle.std.specs.List.{flat_map};
ghost use Rattle.icescan_explain.specs.Columns.{column_name, column_names, columns_in, names_in};

use contract_words::{Items, Text};
use ice_filter::{Column, FilterFault, Part, Predicate, parse};
use std::alloc::{AllocError, Global};

/// The names that lead to a column, with dots between them.
fn column_name(alloc: Global, column: &Column) -> Result<Text, AllocError>
    ensures { IfOk result (λ name. name ≡ column_name column.now) }
{
    let more = column.more.as_slice();
    let mut name = String::from_str(alloc, column.first.as_str())?;
    'more: for inner in more {
        name.push('.')?;
        name.push_str(inner.as_str())?;
    }
    Ok(Text::from_string(name))
}

/// The names of the columns of a filter's predicates, in its order.
fn column_names(alloc: Global, parts: &[Part<Predicate>]) -> Result<Vec<Text>, AllocError>
    ensures { IfOk result (λ names. names.items ≡ column_names parts.now) }
{
    let mut names = Vec::new(alloc);
    'parts: for part in parts {
        if let Part::Predicate(predicate) = part {
            names.push(column_name(alloc, &predicate.column)?)?;
        }
    }
    Ok(names)
}

/// The same of a filter's text, where there is one; of a text that is no filter none. The refusal is `Memory`.
pub fn columns_in(alloc: Global, filter: &Option<Text>) -> Result<Vec<Text>, AllocError>
    ensures { IfOk result (λ names. names.items ≡ columns_in filter.now) }
{
    let Some(text) = filter else {
        return Ok(Vec::new(alloc));
    };
    match parse(alloc, text.as_str()) {
        Ok(filter) => column_names(alloc, filter.parts().as_slice()),
        Err(FilterFault::Memory) => Err(AllocError),
        Err(_) => Ok(Vec::new(alloc)),
    }
}
