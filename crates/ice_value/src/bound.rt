//! Single values in bytes, as lower and upper bounds hold them.

ghost use Rattle.std.specs.Prelude.{◌≡◌, List, ℕ, ◌↔◌, Bool, Some, IfErr, IfOk, IsSome, IsTrue, true};
ghost use Rattle.std.specs.Str.{is_utf8};
ghost use Rattle.std.specs.Option.{option_map};
ghost use Rattle.std.specs.Ordering.{nat_cmp};
ghost use Rattle.std.specs.Cmp.Lexicographic.{slice_cmp};
ghost use Rattle.ice_value.specs.Bounds.{cell_in, order_in, int_in, long_in, widened_in, flag_in, sized_in, is_value};
ghost use Rattle.ice_value.specs.Bounds.{written, Holds};
ghost use Rattle.ice_value.specs.Cells.{KeepsBytes};
ghost use Rattle.ice_value.specs.declared.cell.Cell.{Cell};
ghost use Rattle.ice_value.specs.declared.column_type.ColumnType.{ColumnType};

use crate::cell::Cell;
use crate::column_type::ColumnType;
use contract_words::{Items, Text};
use std::alloc::{AllocError, Global};
use std::cmp::Ordering;

/// The truth of a byte.
fn read_flag(bytes: &[u8]) -> Option<bool>
    ensures { result ≡ flag_in bytes.now }
{
    match bytes {
        [byte] => Some(*byte != 0),
        _ => None,
    }
}

/// The number of 4 bytes, the lowest first.
fn read_int(bytes: &[u8]) -> Option<i64>
    ensures { result ≡ int_in bytes.now }
{
    match bytes.len() {
        4 => Some(i32::from_le_bytes([bytes[0], bytes[1], bytes[2], bytes[3]]) as i64),
        _ => None,
    }
}

/// The number of 8 bytes, the lowest first.
fn read_long(bytes: &[u8]) -> Option<i64>
    ensures { result ≡ long_in bytes.now }
{
    match bytes.len() {
        8 => Some(i64::from_le_bytes([
            bytes[0], bytes[1], bytes[2], bytes[3], bytes[4], bytes[5], bytes[6], bytes[7],
        ])),
        _ => None,
    }
}

/// A number of 8 bytes, or of 4, as a bound holds it that was written before the column's type became long.
fn read_widened(bytes: &[u8]) -> Option<i64>
    ensures { result ≡ widened_in bytes.now }
{
    match bytes.len() {
        4 => read_int(bytes),
        _ => read_long(bytes),
    }
}

/// The text of the bytes, where they are UTF-8.
fn read_text(alloc: Global, bytes: &[u8]) -> Result<Option<Cell>, AllocError>
    ensures held { IfOk result (λ cell. cell ≡ cell_in ColumnType.String bytes.now) }
    ensures memory { IfErr result (λ _. KeepsBytes (cell_in ColumnType.String bytes.now)) }
{
    match std::str::from_utf8(bytes) {
        Ok(text) => Ok(Some(Cell::Text(Text::from_string(String::from_str(alloc, text)?)))),
        Err(_) => Ok(None),
    }
}

/// The bytes, where there are so many.
fn read_sized(alloc: Global, size: usize, bytes: &[u8]) -> Result<Option<Cell>, AllocError>
    ensures held { IfOk result (λ cell. cell ≡ option_map Cell.Bytes (sized_in size bytes.now)) }
    ensures memory { IfErr result (λ _. KeepsBytes (option_map Cell.Bytes (sized_in size bytes.now))) }
{
    if bytes.len() == size {
        Ok(Some(Cell::Bytes(Items::from_vec(bytes.to_vec(alloc)?))))
    } else {
        Ok(None)
    }
}

/// The value of this type that the bytes hold; none where they hold none. Only a text or a byte string takes memory.
pub fn read_bound(
    alloc: Global,
    column_type: &ColumnType,
    bytes: &[u8],
) -> Result<Option<Cell>, AllocError>
    ensures held { IfOk result (λ cell. cell ≡ cell_in column_type.now bytes.now) }
    ensures memory { IfErr result (λ _. KeepsBytes (cell_in column_type.now bytes.now)) }
{
    match column_type {
        ColumnType::Boolean => Ok(read_flag(bytes).map(|truth| Cell::Bool(truth))),
        ColumnType::Int | ColumnType::Date => Ok(read_int(bytes).map(|number| Cell::Whole(number))),
        ColumnType::Long => Ok(read_widened(bytes).map(|number| Cell::Whole(number))),
        ColumnType::Time | ColumnType::Timestamp | ColumnType::Timestamptz => {
            Ok(read_long(bytes).map(|number| Cell::Whole(number)))
        }
        ColumnType::String => read_text(alloc, bytes),
        ColumnType::Uuid => read_sized(alloc, 16, bytes),
        ColumnType::Fixed(size) => read_sized(alloc, *size as usize, bytes),
        ColumnType::Binary => Ok(Some(Cell::Bytes(Items::from_vec(bytes.to_vec(alloc)?)))),
        ColumnType::Float | ColumnType::Double | ColumnType::Decimal { .. } => Ok(None),
    }
}

/// Whether the bytes are UTF-8.
fn is_text(bytes: &[u8]) -> bool
    ensures { result ≡ is_utf8 bytes.now }
{
    match std::str::from_utf8(bytes) {
        Ok(_) => true,
        Err(_) => false,
    }
}

/// The order of the bytes and a text, where the bytes are one.
fn compare_text(bytes: &[u8], text: &Text) -> Option<Ordering>
    ensures { result ≡ order_in ColumnType.String bytes.now (Cell.Text text.now) }
{
    if is_text(bytes) {
        Some(bytes.cmp(text.as_bytes()))
    } else {
        None
    }
}

/// The order of the bytes and the value, where there are so many.
fn compare_sized(size: usize, bytes: &[u8], value: &[u8]) -> Option<Ordering>
    ensures { result ≡ option_map (λ bs. slice_cmp nat_cmp bs value.now) (sized_in size bytes.now) }
{
    if bytes.len() == size {
        Some(bytes.cmp(value))
    } else {
        None
    }
}

/// The order of the value that the bytes hold and the cell. None where the bytes hold no value of this type, and where
/// the cell is null or of another kind. It takes no memory.
pub fn compare_bound(column_type: &ColumnType, bytes: &[u8], cell: &Cell) -> Option<Ordering>
    ensures { result ≡ order_in column_type.now bytes.now cell.now }
{
    match (column_type, cell) {
        (ColumnType::Boolean, Cell::Bool(truth)) => Some(read_flag(bytes)?.cmp(truth)),
        (ColumnType::Int | ColumnType::Date, Cell::Whole(number)) => Some(read_int(bytes)?.cmp(
            number,
        )),
        (ColumnType::Long, Cell::Whole(number)) => Some(read_widened(bytes)?.cmp(number)),
        (ColumnType::Time | ColumnType::Timestamp | ColumnType::Timestamptz, Cell::Whole(number)) =>
            { Some(read_long(bytes)?.cmp(number)) }
        (ColumnType::String, Cell::Text(text)) => compare_text(bytes, text),
        (ColumnType::Uuid, Cell::Bytes(value)) => compare_sized(16, bytes, value.as_slice()),
        (ColumnType::Fixed(size), Cell::Bytes(value)) => compare_sized(
            *size as usize,
            bytes,
            value.as_slice(),
        ),
        (ColumnType::Binary, Cell::Bytes(value)) => Some(bytes.cmp(value.as_slice())),
        _ => None,
    }
}

/// The same bytes as a list.
fn listed(alloc: Global, bytes: &[u8]) -> Result<Option<Items<u8>>, AllocError>
    ensures { IfOk result (λ listed. listed ≡ Some bytes.now) }
{
    Ok(Some(Items::from_vec(bytes.to_vec(alloc)?)))
}

/// The bytes that hold the cell, as `read_bound` reads them; none where the cell isn't a value of this type, or the
/// type has no bounds. That there are none takes no memory.
pub fn write_bound(
    alloc: Global,
    column_type: &ColumnType,
    cell: &Cell,
) -> Result<Option<Items<u8>>, AllocError>
    ensures bytes { IfOk result (λ bytes. bytes ≡ written column_type.now cell.now) }
    ensures memory { IfErr result (λ _. IsSome (written column_type.now cell.now)) }
{
    match (column_type, cell) {
        _ if !cell.is_of(column_type) => Ok(None),
        (ColumnType::Boolean, Cell::Bool(truth)) => listed(alloc, &[*truth as u8]),
        (ColumnType::Int | ColumnType::Date, Cell::Whole(number)) => listed(
            alloc,
            &(*number as i32).to_le_bytes(),
        ),
        (
            ColumnType::Long | ColumnType::Time | ColumnType::Timestamp | ColumnType::Timestamptz,
            Cell::Whole(number),
        ) => listed(alloc, &number.to_le_bytes()),
        (ColumnType::String, Cell::Text(text)) => listed(alloc, text.as_bytes()),
        (ColumnType::Uuid | ColumnType::Fixed(_) | ColumnType::Binary, Cell::Bytes(value)) => {
            listed(alloc, value.as_slice())
        }
        _ => Ok(None),
    }
}

/// What single values in bytes are: bytes are read as the one cell that they hold, if they hold one, and what is
/// written for a value is read as that value.
pub fn single_values()
    ensures read { (t : ColumnType) (c : Cell) (bs : List ℕ) → Holds t c bs ↔ (cell_in t bs ≡ Some c) }
    ensures of_type { (t : ColumnType) (c : Cell) → IsSome (written t c) ↔ (is_value t c ≡ true) }
    ensures read_back { (t : ColumnType) (c : Cell) (bs : List ℕ) → written t c ≡ Some bs → cell_in t bs ≡ Some c }
{}
