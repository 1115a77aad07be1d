//! The data that are written for the entries of manifests.

ghost use Rattle.std.specs.Prelude.{◌≡◌, true, map, length, IfOk, IfSome};
ghost use Rattle.std.specs.List.{AllByRecursion};
ghost use Rattle.avro_file.specs.Value.{small, text as text_value};
ghost use Rattle.avro_file.specs.View.{view, views};
ghost use Rattle.ice_value.specs.Bounds.{is_value};
ghost use Rattle.ice_value.specs.declared.cell.Cell.{Cell as CellValue};
ghost use Rattle.ice_meta.specs.Committing.{IsLong};
ghost use Rattle.ice_manifest.specs.Adding.{IsId, is_null_or_of, is_tuple_of};
ghost use Rattle.ice_manifest.specs.Fitting.{IsShort, IsText, CellFits, FileFits};
ghost use Rattle.ice_manifest.specs.WrittenValues.{whole_value, bytes_value, cell_value, tuple_values, file_content};
ghost use Rattle.ice_manifest.specs.WrittenValues.{if_some, ids_value, column_values, file_value as value_of_file};
ghost use Rattle.ice_manifest.specs.WrittenValues.{entry_value as value_of_entry};

use crate::heading::Heading;
use crate::new_file::NewFile;
use crate::written_values::{int_datum, long_datum, no_value, record, some_value, text_of};
use avro_file::Datum;
use contract_words::Text;
use ice_value::{Cell, ColumnType, FileContent};
use std::alloc::{AllocError, Global};

/// A number, in as many bits as its type has.
#[tactic(auto, using(crate::proofs::Ids::within_int))]
fn whole_datum<'a>(column_type: &ColumnType, number: i64) -> Datum<'a>
    requires { is_value column_type.now (CellValue.Whole number) ≡ true }
    ensures { view result ≡ whole_value column_type.now number }
{
    match column_type {
        ColumnType::Int | ColumnType::Date => Datum::Int(number as i32),
        _ => Datum::Long(number),
    }
}

/// Bytes, of one length or of any.
fn bytes_datum<'a>(column_type: &ColumnType, bytes: &'a [u8]) -> Datum<'a>
    ensures value { view result ≡ bytes_value column_type.now bytes.now }
    ensures fits { IsShort bytes.now }
{
    match column_type {
        ColumnType::Uuid | ColumnType::Fixed(_) => Datum::Fixed(bytes),
        _ => Datum::Bytes(bytes),
    }
}

/// A partition value of this type.
#[tactic(auto, using(crate::proofs::Ids::is_long))]
fn cell_datum<'a>(
    alloc: Global,
    column_type: &ColumnType,
    cell: &'a Cell,
) -> Result<Datum<'a>, AllocError>
    requires { is_null_or_of column_type.now cell.now ≡ true }
    ensures value { IfOk result (λ datum. view datum ≡ cell_value column_type.now cell.now) }
    ensures fits { IfOk result (λ _. CellFits cell.now) }
{
    match cell {
        Cell::Null => Ok(no_value()),
        Cell::Bool(truth) => some_value(alloc, Datum::Boolean(*truth)),
        Cell::Whole(number) => some_value(alloc, whole_datum(column_type, *number)),
        Cell::Text(text) => some_value(alloc, text_of(text)),
        Cell::Bytes(bytes) => some_value(alloc, bytes_datum(column_type, bytes.as_slice())),
    }
}

/// The partition values.
fn tuple_data<'a>(
    alloc: Global,
    types: &[ColumnType],
    tuple: &'a [Cell],
) -> Result<Vec<Datum<'a>>, AllocError>
    requires { is_tuple_of types.now tuple.now ≡ true }
    ensures value { IfOk result (λ all. views all.items ≡ tuple_values types.now tuple.now) }
    ensures fits { IfOk result (λ _. AllByRecursion CellFits tuple.now) }
{
    let mut values = Vec::new(alloc);
    'cells: for place in 0..tuple.len() {
        values.push(cell_datum(alloc, &types[place], &tuple[place])?)?;
    }
    Ok(values)
}

fn some_ids<'a>(alloc: Global, ids: &[i32]) -> Result<Vec<Datum<'a>>, AllocError>
    ensures value { IfOk result (λ all. views all.items ≡ map small ids.now) }
    ensures fits { IfOk result (λ _. AllByRecursion IsId ids.now) }
{
    let mut values = Vec::new(alloc);
    'ids: for id in ids {
        values.push(int_datum(*id))?;
    }
    Ok(values)
}

/// The equality ids; null where there are none.
fn ids_datum<'a>(alloc: Global, ids: &[i32]) -> Result<Datum<'a>, AllocError>
    ensures value { IfOk result (λ datum. view datum ≡ ids_value ids.now) }
    ensures fits { IfOk result (λ _. AllByRecursion IsId ids.now) }
{
    if ids.is_empty() {
        return Ok(no_value());
    }
    some_value(alloc, Datum::Array(some_ids(alloc, ids)?))
}

fn code_of(content: FileContent) -> i32
    ensures { result ≡ file_content content }
{
    match content {
        FileContent::Data => 0,
        FileContent::PositionDeletes => 1,
        FileContent::EqualityDeletes => 2,
    }
}

/// A text; null where there is none.
fn optional_text<'a>(alloc: Global, text: &'a Option<Text>) -> Result<Datum<'a>, AllocError>
    ensures value { IfOk result (λ datum. view datum ≡ if_some text_value text.now) }
    ensures fits { IfOk result (λ _. IfSome text.now IsText) }
{
    match text {
        Some(text) => some_value(alloc, text_of(text)),
        None => Ok(no_value()),
    }
}

/// Nothing is said of the columns. Behind stand the equality ids, and the data file that position deletes are about.
fn column_data<'a>(alloc: Global, file: &'a NewFile) -> Result<Vec<Datum<'a>>, AllocError>
    ensures value { IfOk result (λ all. views all.items ≡ column_values file.now) }
    ensures ids { IfOk result (λ _. AllByRecursion IsId file.now.equality_ids) }
    ensures referenced { IfOk result (λ _. IfSome file.now.referenced IsText) }
{
    let ids = ids_datum(alloc, file.equality_ids.as_slice())?;
    let referenced = optional_text(alloc, &file.referenced)?;
    Ok(vec![in alloc;
        no_value(),
        no_value(),
        no_value(),
        no_value(),
        ids,
        referenced,
    ]?)
}

/// A data file.
fn file_datum<'a>(
    alloc: Global,
    types: &[ColumnType],
    file: &'a NewFile,
) -> Result<Datum<'a>, AllocError>
    requires { is_tuple_of types.now file.now.tuple ≡ true }
    ensures value { IfOk result (λ datum. view datum ≡ value_of_file types.now file.now) }
    ensures fits { IfOk result (λ _. FileFits file.now) }
{
    let partition = record(tuple_data(alloc, types, file.tuple.as_slice())?);
    let mut values = vec![in alloc;
        int_datum(code_of(file.content)),
        text_of(&file.path),
        text_of(&file.format),
        partition,
        long_datum(file.record_count),
        long_datum(file.file_size),
    ]?;
    values.append(&mut column_data(alloc, file)?)?;
    Ok(record(values))
}

/// The entry of a file that is added.
#[tactic(auto, unfolding(crate::specs::WrittenValues::entry_value))]
pub fn entry_datum<'a>(
    alloc: Global,
    heading: &Heading,
    file: &'a NewFile,
) -> Result<Datum<'a>, AllocError>
    requires { is_tuple_of heading.now.types file.now.tuple ≡ true }
    ensures value { IfOk result (λ datum. view datum ≡ value_of_entry heading.now file.now) }
    ensures fits { IfOk result (λ _. FileFits file.now) }
    ensures snapshot { IfOk result (λ _. IsLong heading.now.snapshot_id) }
{
    let snapshot = some_value(alloc, long_datum(heading.snapshot_id))?;
    let file = file_datum(alloc, heading.types.as_slice(), file)?;
    Ok(record(vec![in alloc; int_datum(1), snapshot, no_value(), no_value(), file]?))
}
