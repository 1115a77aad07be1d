//! Partition values as C has them.

ghost use Rattle.std.specs.Prelude.{[], pos};
ghost use Rattle.icescan_c_files.specs.Values.{IsValue, IsValueOf};

use crate::value_type::ValueType;
use ice_value::{Cell, ColumnType};
use icescan_c_lent::Bytes;

/// A partition value.
#[repr(C)]
#[derive(Drop)]
pub struct Value {
    /// The bytes of a text or of a byte string; none of another value.
    pub bytes: Bytes,
    /// A whole number; 1 for true; 0 for all else.
    pub whole: i64,
    /// The number of its kind.
    pub kind: u32,
    /// Its type, of which a null has one too.
    pub value_type: ValueType,
}

impl Value {
    /// A value that has no bytes.
    fn number(kind: u32, whole: i64, known: Option<ColumnType>) -> Value
        ensures { IsValue kind whole [] known result }
    {
        Value {
            bytes: Bytes::of(b""),
            whole,
            kind,
            value_type: ValueType::of(known),
        }
    }

    /// A value of bytes.
    fn over(kind: u32, bytes: &[u8], known: Option<ColumnType>) -> Value
        ensures { IsValue kind (pos 0) bytes.now known result }
    {
        Value {
            bytes: Bytes::of(bytes),
            whole: 0,
            kind,
            value_type: ValueType::of(known),
        }
    }

    /// What is lent of a value, and of its type where that is known.
    pub fn of(cell: &Cell, known: Option<ColumnType>) -> Value
        ensures { IsValueOf cell.now known result }
    {
        match cell {
            Cell::Null => Value::number(0, 0, known),
            Cell::Bool(truth) => Value::number(1, if *truth { 1 } else { 0 }, known),
            Cell::Whole(number) => Value::number(2, *number, known),
            Cell::Text(text) => Value::over(3, text.as_bytes(), known),
            Cell::Bytes(bytes) => Value::over(4, bytes.as_slice(), known),
        }
    }
}
