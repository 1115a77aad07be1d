//! The types of partition values as C has them.

ghost use Rattle.std.specs.Prelude.{◌≡◌};
ghost use Rattle.icescan_c_files.specs.Types.{told_type, told_width};

use ice_value::ColumnType;

/// The type of a partition value.
#[repr(C)]
#[derive(Clone, Copy)]
pub struct ValueType {
    /// Its number; 0 where no type is known.
    pub number: u32,
    /// How many digits a decimal has, or bytes a fixed; 0 of another type.
    pub width: u32,
    /// How many digits of a decimal stand behind the point; 0 of another type.
    pub scale: u32,
}

impl ValueType {
    /// A type of so many digits or bytes.
    fn sized(number: u32, width: u32, scale: u32) -> ValueType
        ensures { result ≡ told_width number width scale }
    {
        ValueType {
            number,
            width,
            scale,
        }
    }

    /// What is told of a type that is known, or of none.
    pub fn of(known: Option<ColumnType>) -> ValueType
        ensures { result ≡ told_type known }
    {
        let number = match known {
            None => 0,
            Some(ColumnType::Boolean) => 1,
            Some(ColumnType::Int) => 2,
            Some(ColumnType::Long) => 3,
            Some(ColumnType::Float) => 4,
            Some(ColumnType::Double) => 5,
            Some(ColumnType::Date) => 6,
            Some(ColumnType::Time) => 7,
            Some(ColumnType::Timestamp) => 8,
            Some(ColumnType::Timestamptz) => 9,
            Some(ColumnType::String) => 10,
            Some(ColumnType::Uuid) => 11,
            Some(ColumnType::Fixed(bytes)) => return ValueType::sized(12, bytes, 0),
            Some(ColumnType::Binary) => 13,
            Some(ColumnType::Decimal { precision, scale }) => {
                return ValueType::sized(14, precision, scale);
            }
        };
        ValueType::sized(number, 0, 0)
    }
}
