//! Partition values.

ghost use Rattle.std.specs.Prelude.{◌≡◌, ◌<◌, Some};
ghost use Rattle.json.specs.Print.{escape, quoted};
ghost use Rattle.serde_json.specs.Written.{compact_text};
ghost use Rattle.icescan_print.specs.Written.{Sent};
ghost use Rattle.icescan_json.specs.Texts.{cells_text};
ghost use Rattle.icescan_json.specs.Values.{bytes_json, cell_json, hex_text, time_json, type_at};
ghost use Rattle.icescan_json.specs.Values.{uuid_json, whole_json};

use crate::dates::{MICROSECONDS_PER_DAY, put_date, put_time, put_timestamp};
use crate::decimals::{is_decimal, put_decimal_text, unscaled};
use ice_value::{Cell, ColumnType};
use icescan_forms::{comma_before, hex_digit, put_escaped, put_quoted};
use icescan_print::{Page, Sink, SinkFault};
use uuid::Uuid;

/// Sends partition values with commas between them, each with the type at its place.
pub fn put_cells<S: Sink>(
    page: &mut Page,
    sink: &mut S,
    types: &[Option<ColumnType>],
    cells: &[Cell],
) -> Result<(), SinkFault>
    ensures { Sent S.taken S.may_fail sink.old page.old result sink.new page.new (cells_text types.now cells.now) }
{
    for i in 0..cells.len() {
        page.put(sink, comma_before(i))?;
        put_cell(page, sink, type_at(types, i), &cells[i])?;
    }
    Ok(())
}

/// The type at a place, where one is known.
fn type_at(types: &[Option<ColumnType>], i: usize) -> Option<ColumnType>
    ensures { result ≡ type_at types.now i }
{
    match types.get(i) {
        Some(known) => *known,
        None => None,
    }
}

#[tactic(auto, unfolding(crate::specs::Values::cell_json))]
fn put_cell<S: Sink>(
    page: &mut Page,
    sink: &mut S,
    column_type: Option<ColumnType>,
    cell: &Cell,
) -> Result<(), SinkFault>
    ensures { Sent S.taken S.may_fail sink.old page.old result sink.new page.new
        (compact_text (cell_json column_type cell.now)) }
{
    match cell {
        Cell::Null => page.put(sink, b"null"),
        Cell::Bool(true) => page.put(sink, b"true"),
        Cell::Bool(false) => page.put(sink, b"false"),
        Cell::Whole(number) => put_whole(page, sink, column_type, *number),
        Cell::Text(text) => put_quoted(page, sink, text.as_bytes()),
        Cell::Bytes(bytes) => put_bytes(page, sink, column_type, bytes.as_slice()),
    }
}

/// Sends a number as a value of a type.
pub fn put_whole<S: Sink>(
    page: &mut Page,
    sink: &mut S,
    column_type: Option<ColumnType>,
    number: i64,
) -> Result<(), SinkFault>
    ensures { Sent S.taken S.may_fail sink.old page.old result sink.new page.new
        (compact_text (whole_json column_type number)) }
{
    match column_type {
        Some(ColumnType::Date) => put_date(page, sink, number),
        Some(ColumnType::Time) => put_time_or_number(page, sink, number),
        Some(ColumnType::Timestamp) => put_timestamp(page, sink, number, b""),
        Some(ColumnType::Timestamptz) => put_timestamp(page, sink, number, b"+00:00"),
        _ => page.put_number(sink, number),
    }
}

/// Sends a time of the day, or the number where it is none.
fn put_time_or_number<S: Sink>(page: &mut Page, sink: &mut S, number: i64) -> Result<(), SinkFault>
    ensures { Sent S.taken S.may_fail sink.old page.old result sink.new page.new
        (compact_text (time_json number)) }
{
    if 0 <= number && number < MICROSECONDS_PER_DAY {
        put_time(page, sink, number as u64)
    } else {
        page.put_number(sink, number)
    }
}

/// Sends bytes as a value of a type: the text of a UUID or of a decimal, else, or where they are none, their digits.
fn put_bytes<S: Sink>(
    page: &mut Page,
    sink: &mut S,
    column_type: Option<ColumnType>,
    bytes: &[u8],
) -> Result<(), SinkFault>
    ensures { Sent S.taken S.may_fail sink.old page.old result sink.new page.new
        (compact_text (bytes_json column_type bytes.now)) }
{
    match column_type {
        Some(ColumnType::Uuid) => put_uuid(page, sink, bytes),
        Some(ColumnType::Decimal { scale, .. }) => {
            if is_decimal(scale, bytes) {
                put_decimal_text(page, sink, scale, unscaled(bytes))
            } else {
                put_hex(page, sink, bytes)
            }
        }
        _ => put_hex(page, sink, bytes),
    }
}

/// Sends the text of a UUID, or the digits of the bytes where they are none.
fn put_uuid<S: Sink>(page: &mut Page, sink: &mut S, bytes: &[u8]) -> Result<(), SinkFault>
    ensures { Sent S.taken S.may_fail sink.old page.old result sink.new page.new
        (compact_text (uuid_json bytes.now)) }
{
    match Uuid::from_slice(bytes) {
        Ok(uuid) => {
            let mut digits = Uuid::encode_buffer();
            let text = uuid.hyphenated().encode_lower(&mut digits);
            put_quoted(page, sink, text.as_bytes())
        }
        Err(_) => put_hex(page, sink, bytes),
    }
}

/// Sends the hexadecimal digits of bytes in quotes.
pub fn put_hex<S: Sink>(page: &mut Page, sink: &mut S, bytes: &[u8]) -> Result<(), SinkFault>
    ensures { Sent S.taken S.may_fail sink.old page.old result sink.new page.new (quoted (hex_text bytes.now)) }
{
    page.put(sink, b"\"")?;
    put_digits(page, sink, bytes)?;
    page.put(sink, b"\"")
}

fn put_digits<S: Sink>(page: &mut Page, sink: &mut S, bytes: &[u8]) -> Result<(), SinkFault>
    ensures { Sent S.taken S.may_fail sink.old page.old result sink.new page.new (escape (hex_text bytes.now)) }
{
    for byte in bytes {
        put_escaped(page, sink, &[hex_digit(*byte / 16), hex_digit(*byte % 16)])?;
    }
    Ok(())
}
