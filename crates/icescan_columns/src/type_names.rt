//! The texts of primitive types.

ghost use Rattle.std.specs.Prelude.{◌≡◌, ◌++◌, IfOk, codes};
ghost use Rattle.std.specs.Fmt.{decimal};
ghost use Rattle.icescan_columns.specs.TypeNames.{type_text};

use contract_words::Text;
use ice_value::ColumnType;
use std::alloc::{AllocError, Global};

/// A text of its own.
fn plain(alloc: Global, text: &str) -> Result<Text, AllocError>
    ensures { IfOk result (λ copied. copied ≡ text.now) }
{
    Ok(Text::from_string(String::from_str(alloc, text)?))
}

fn fixed_text(alloc: Global, size: u32) -> Result<Text, AllocError>
    ensures { IfOk result (λ text. text ≡ type_text (ColumnType.Fixed size)) }
{
    Ok(Text::from_string(format!(in alloc; "fixed[{size}]")?))
}

fn decimal_text(alloc: Global, precision: u32, scale: u32) -> Result<Text, AllocError>
    ensures { IfOk result (λ text. text ≡ type_text (ColumnType.Decimal precision scale)) }
{
    Ok(Text::from_string(format!(in alloc; "decimal({precision},{scale})")?))
}

/// The text of a type.
pub fn type_text(alloc: Global, column_type: ColumnType) -> Result<Text, AllocError>
    ensures { IfOk result (λ text. text ≡ type_text column_type) }
{
    match column_type {
        ColumnType::Boolean => plain(alloc, "boolean"),
        ColumnType::Int => plain(alloc, "int"),
        ColumnType::Long => plain(alloc, "long"),
        ColumnType::Float => plain(alloc, "float"),
        ColumnType::Double => plain(alloc, "double"),
        ColumnType::Date => plain(alloc, "date"),
        ColumnType::Time => plain(alloc, "time"),
        ColumnType::Timestamp => plain(alloc, "timestamp"),
        ColumnType::Timestamptz => plain(alloc, "timestamptz"),
        ColumnType::String => plain(alloc, "string"),
        ColumnType::Uuid => plain(alloc, "uuid"),
        ColumnType::Fixed(size) => fixed_text(alloc, size),
        ColumnType::Binary => plain(alloc, "binary"),
        ColumnType::Decimal { precision, scale } => decimal_text(alloc, precision, scale),
    }
}
