//! What the fields of an object hold.

ghost use Rattle.std.specs.Prelude.{◌≡◌, ◌≤◌, IfOk, length};
ghost use Rattle.ice_manifest_fields.specs.Fields.{short_path as short_path_of};
ghost use Rattle.ice_manifest_fields.specs.Fields.{within_32 as within, not_negative as natural};
ghost use Rattle.ice_manifest_fields.specs.Seen.{result_map};

use crate::fault::FieldFault;
use ice_value::SequenceNumber;

/// The number, where it fits 32 bits; else the field of this id is out of its range.
pub fn within_32(number: i64, id: i32) -> Result<i32, FieldFault>
    ensures { result ≡ within id number }
{
    if number < -2147483648 || number > 2147483647 {
        Err(FieldFault::OutOfRange(id))
    } else {
        Ok(number as i32)
    }
}

/// The number, where it is not negative; else the field of this id is out of its range.
pub fn not_negative(number: i64, id: i32) -> Result<SequenceNumber, FieldFault>
    ensures { result ≡ natural id number }
{
    if number < 0 {
        return Err(FieldFault::OutOfRange(id));
    }
    match SequenceNumber::new(number as u64) {
        Some(number) => Ok(number),
        None => Err(FieldFault::OutOfRange(id)),
    }
}

/// The text, where a path may be so long; else the field of this id is out of its range.
pub fn short_path<'d>(text: &'d str, id: i32) -> Result<&'d str, FieldFault>
    ensures said { result_map (λ path. path.now) result ≡ short_path_of id text.now }
    ensures short { IfOk result (λ path. length path.now ≤ 65535) }
{
    if text.len() <= 65535 {
        Ok(text)
    } else {
        Err(FieldFault::OutOfRange(id))
    }
}
