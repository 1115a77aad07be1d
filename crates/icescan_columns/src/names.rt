//! The names that lead to the columns of a schema.

ghost use Rattle.std.specs.Prelude.{◌≡◌, ◌++◌, IfOk, OnOk};
ghost use Rattle.ice_filter.specs.Texts.{column_text};
ghost use Rattle.icescan_columns.specs.Names.{all_names, names_at, names_of};

use contract_words::{Items, Text};
use ice_filter::{Column as Names, Filter, Part, Predicate, Question};
use ice_meta::Column;
use std::alloc::{AllocError, Global};

/// The same names.
fn copied(alloc: Global, names: &Names) -> Result<Names, AllocError>
    ensures { IfOk result (λ copied. copied ≡ names.now) }
{
    Ok(Names {
        first: names.first.copy(alloc)?,
        more: names.more.copy(alloc)?,
    })
}

/// The names that lead to a field of this name in the struct at a place, or in the row.
fn names_at(
    alloc: Global,
    names: &[Option<Names>],
    around: Option<usize>,
    name: &Text,
) -> Result<Option<Names>, AllocError>
    ensures { IfOk result (λ found. found ≡ names_at names.now around name.now) }
{
    let Some(place) = around else {
        return Ok(Some(Names {
            first: name.copy(alloc)?,
            more: Items::new(alloc),
        }));
    };
    match names.get(place) {
        Some(Some(outer)) => {
            let mut inner = copied(alloc, outer)?;
            inner.more.push(name.copy(alloc)?)?;
            Ok(Some(inner))
        }
        _ => Ok(None),
    }
}

/// The names that lead to a column, where those of the columns before it are known.
pub fn names_of(
    alloc: Global,
    names: &[Option<Names>],
    column: &Column,
) -> Result<Option<Names>, AllocError>
    ensures { IfOk result (λ found. found ≡ names_of names.now column.now) }
{
    match &column.name {
        Some(name) => names_at(alloc, names, column.around, name),
        None => Ok(None),
    }
}

/// The names that lead to each of a schema's columns, at the columns' places.
pub fn all_names(alloc: Global, columns: &[Column]) -> Result<Vec<Option<Names>>, AllocError>
    ensures { IfOk result (λ names. names.items ≡ all_names columns.now) }
{
    let mut names = Vec::new(alloc);
    'columns: for column in columns {
        let found = names_of(alloc, &names, column)?;
        names.push(found)?;
    }
    Ok(names)
}

/// What a filter asks behind a column's name here.
const IS_NULL: usize = 8;

/// Puts a column last, as a filter writes it: the text of the filter `COLUMN is null`, without its last words.
pub fn push_column(text: &mut Vec<u8>, alloc: Global, names: &Names) -> Result<(), AllocError>
    ensures { OnOk result (text.new.items ≡ text.old.items ++ column_text names.now) }
{
    let mut parts = Items::new(alloc);
    parts.push(Part::Predicate(Predicate {
        column: copied(alloc, names)?,
        question: Question::Missing,
    }))?;
    let filter = Filter::from_items(alloc, parts)?;
    let shown = filter.as_str().as_bytes();
    text.extend_from_slice(&shown[..shown.len() - IS_NULL])
}
