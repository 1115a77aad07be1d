//! The texts of primitive types.

ghost use Rattle.std.specs.Prelude.{◌≡◌, option_map};
ghost use Rattle.ice_meta.specs.Types.{plain, with_digit, digits_until, number_until, after, behind_space, fixed};
ghost use Rattle.ice_meta.specs.Types.{decimal, primitive};

use ice_value::ColumnType;

/// The type of this name that has no numbers.
#[tactic(auto, unfolding(crate::specs::Types::plain))]
fn plain(text: &str) -> Option<ColumnType>
    ensures { result ≡ plain text.now }
{
    match text {
        "boolean" => Some(ColumnType::Boolean),
        "int" => Some(ColumnType::Int),
        "long" => Some(ColumnType::Long),
        "float" => Some(ColumnType::Float),
        "double" => Some(ColumnType::Double),
        "date" => Some(ColumnType::Date),
        "time" => Some(ColumnType::Time),
        "timestamp" => Some(ColumnType::Timestamp),
        "timestamptz" => Some(ColumnType::Timestamptz),
        "string" => Some(ColumnType::String),
        "uuid" => Some(ColumnType::Uuid),
        "binary" => Some(ColumnType::Binary),
        _ => None,
    }
}

/// The number after one more digit, where it is below 2 ^ 31.
fn with_digit(number: u32, digit: u8) -> Option<u32>
    ensures { result ≡ with_digit number digit }
{
    if digit < b'0' || digit > b'9' {
        return None;
    }
    let next = number as u64 * 10 + (digit - b'0') as u64;
    if next < 0x8000_0000 {
        Some(next as u32)
    } else {
        None
    }
}

/// The number that the bytes write up to the first end, and what follows it.
fn digits_until<'a>(end: u8, bytes: &'a [u8]) -> Option<(u32, &'a [u8])>
    ensures { option_map (λ found. (found.0, found.1.now)) result ≡ digits_until end 0 bytes.now }
{
    let mut number = 0u32;
    let mut rest = bytes;
    'digits: while let [byte, ..] = rest {
        let byte = *byte;
        rest = &rest[1..];
        if byte == end {
            return Some((number, rest));
        }
        number = with_digit(number, byte)?;
    }
    None
}

/// The number of one or more digits up to the first end, and what follows it.
fn number_until<'a>(end: u8, bytes: &'a [u8]) -> Option<(u32, &'a [u8])>
    ensures { option_map (λ found. (found.0, found.1.now)) result ≡ number_until end bytes.now }
{
    match bytes {
        [] => None,
        [byte, ..] if *byte == end => None,
        _ => digits_until(end, bytes),
    }
}

/// What follows the front.
fn after<'a>(front: &[u8], bytes: &'a [u8]) -> Option<&'a [u8]>
    ensures { option_map (λ rest. rest.now) result ≡ after front.now bytes.now }
{
    if bytes.starts_with(front) {
        Some(&bytes[front.len()..])
    } else {
        None
    }
}

/// What follows a space, or all where there is none.
fn behind_space<'a>(bytes: &'a [u8]) -> &'a [u8]
    ensures { result.now ≡ behind_space bytes.now }
{
    match bytes {
        [b' ', rest @ ..] => rest,
        _ => bytes,
    }
}

#[tactic(auto, unfolding(crate::specs::Types::fixed))]
fn fixed(bytes: &[u8]) -> Option<ColumnType>
    ensures { result ≡ fixed bytes.now }
{
    let rest = after(b"fixed[", bytes)?;
    let (size, rest) = number_until(b']', rest)?;
    match rest {
        [] => Some(ColumnType::Fixed(size)),
        _ => None,
    }
}

#[tactic(auto, unfolding(crate::specs::Types::decimal))]
fn decimal(bytes: &[u8]) -> Option<ColumnType>
    ensures { result ≡ decimal bytes.now }
{
    let rest = after(b"decimal(", bytes)?;
    let (precision, rest) = number_until(b',', rest)?;
    let (scale, rest) = number_until(b')', behind_space(rest))?;
    match rest {
        [] => Some(ColumnType::Decimal { precision, scale }),
        _ => None,
    }
}

/// The primitive type of a text.
pub fn primitive(text: &str) -> Option<ColumnType>
    ensures { result ≡ primitive text.now }
{
    match plain(text) {
        Some(column_type) => Some(column_type),
        None => match fixed(text.as_bytes()) {
            Some(column_type) => Some(column_type),
            None => decimal(text.as_bytes()),
        },
    }
}
