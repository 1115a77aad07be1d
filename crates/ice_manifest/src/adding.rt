//! What can be added to a table.

ghost use Rattle.std.specs.Prelude.{◌≡◌};
ghost use Rattle.ice_manifest.specs.Adding.{is_partition_type as type_is_written, is_null_or_of as null_or_of};
ghost use Rattle.ice_manifest.specs.Adding.{is_tuple_of as tuple_is_of};

use ice_value::{Cell, ColumnType};

/// Whether partition values of this type can be written: of each type but float, double and decimal, and fixed ones of
/// at most 2,147,483,647 bytes.
pub fn is_partition_type(column_type: &ColumnType) -> bool
    ensures { result ≡ type_is_written column_type.now }
{
    match column_type {
        ColumnType::Float | ColumnType::Double | ColumnType::Decimal { .. } => false,
        ColumnType::Fixed(size) => *size < 0x8000_0000,
        _ => true,
    }
}

/// Whether the cell is null or a value of the type. There are none of type float, double and decimal.
fn is_null_or_of(column_type: &ColumnType, cell: &Cell) -> bool
    ensures { result ≡ null_or_of column_type.now cell.now }
{
    match (column_type, cell) {
        (_, Cell::Null) => true,
        (ColumnType::Decimal { .. }, _) => false,
        _ => cell.is_of(column_type),
    }
}

/// Whether the tuple has a cell for each type, each null or a value of its type.
pub fn is_tuple_of(types: &[ColumnType], tuple: &[Cell]) -> bool
    ensures { result ≡ tuple_is_of types.now tuple.now }
{
    if types.len() != tuple.len() {
        return false;
    }
    'cells: for place in 0..tuple.len() {
        if !is_null_or_of(&types[place], &tuple[place]) {
            return false;
        }
    }
    true
}
