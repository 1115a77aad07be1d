//! Literals of filters as values of JSON, in texts that are made in memory.

ghost use Rattle.std.specs.Prelude.{◌≡◌, ◌++◌, OnOk};
ghost use Rattle.json.specs.Print.{quoted};
ghost use Rattle.serde_json.specs.Written.{compact_text};
ghost use Rattle.uuid.specs.Text.{parsed as uuid_in};
ghost use Rattle.icescan_json.specs.Expressions.{literal_json, text_json, uuid_or};
ghost use Rattle.icescan_json.specs.Values.{hex_text, whole_json};

use crate::values::{put_hex, put_whole};
use ice_filter::Literal;
use ice_value::ColumnType;
use icescan_forms::ObjectLines;
use std::alloc::AllocError;
use uuid::Uuid;

/// Puts a number last, as a value of a column's type.
fn push_whole(
    text: &mut ObjectLines,
    column_type: Option<ColumnType>,
    number: i64,
) -> Result<(), AllocError>
    ensures { OnOk result (text.new ≡ text.old ++ compact_text (whole_json column_type number)) }
{
    put_whole(&mut text.page, &mut text.text, column_type, number).map_err(|_| AllocError)
}

/// Puts the hexadecimal digits of bytes in quotes last.
fn push_hex(text: &mut ObjectLines, bytes: &[u8]) -> Result<(), AllocError>
    ensures { OnOk result (text.new ≡ text.old ++ quoted (hex_text bytes.now)) }
{
    put_hex(&mut text.page, &mut text.text, bytes).map_err(|_| AllocError)
}

/// Puts the text of a UUID last, in the hyphenated form; or the text as it is, where it is none.
fn push_uuid(text: &mut ObjectLines, literal: &str) -> Result<(), AllocError>
    ensures { OnOk result (text.new ≡ text.old ++ quoted (uuid_or literal.now (uuid_in literal.now))) }
{
    match Uuid::parse_str(literal) {
        Ok(uuid) => {
            let mut digits = Uuid::encode_buffer();
            text.put_text(uuid.hyphenated().encode_lower(&mut digits).as_bytes())
        }
        Err(_) => text.put_text(literal.as_bytes()),
    }
}

/// Puts a text last, as a value of a column's type.
fn push_text(
    text: &mut ObjectLines,
    column_type: Option<ColumnType>,
    literal: &str,
) -> Result<(), AllocError>
    ensures { OnOk result (text.new ≡ text.old ++ compact_text (text_json column_type literal.now)) }
{
    match column_type {
        Some(ColumnType::Uuid) => push_uuid(text, literal),
        _ => text.put_text(literal.as_bytes()),
    }
}

/// Puts a literal last, as a value of a column's type.
pub fn push_literal(
    text: &mut ObjectLines,
    column_type: Option<ColumnType>,
    literal: &Literal,
) -> Result<(), AllocError>
    ensures { OnOk result (text.new ≡ text.old ++ compact_text (literal_json column_type literal.now)) }
{
    match literal {
        Literal::Truth(true) => text.put(b"true"),
        Literal::Truth(false) => text.put(b"false"),
        Literal::Number(number) => push_whole(text, column_type, *number),
        Literal::Text(literal) => push_text(text, column_type, literal.as_str()),
        Literal::Bytes(bytes) => push_hex(text, bytes.as_slice()),
    }
}
