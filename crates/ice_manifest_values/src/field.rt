//! What must or may be found, as the field with an id, which the fault names.

ghost use Rattle.std.specs.Prelude.{◌≡◌, ◌≤◌, length, IfOk, IfSome};
ghost use Rattle.std.specs.Option.{option_copied};
ghost use Rattle.avro_file.specs.Picking.{Picked};
ghost use Rattle.avro_file_picked.specs.Finding.{IsMet};
ghost use Rattle.ice_manifest_fields.specs.Fields.{there, asked};
ghost use Rattle.ice_manifest_fields.specs.Seen.{result_map};
ghost use Rattle.ice_manifest_values.specs.Met.{long_met, int_met, number_met, path_met};
ghost use Rattle.ice_manifest_values.specs.Met.{optional_int_met, optional_number_met, optional_path_met};

use crate::leaf::{text, whole};
use avro_file_picked::Found;
use ice_manifest_fields::{FieldFault, not_negative, short_path, within_32};
use ice_value::SequenceNumber;

/// A whole number of 64 bits. `Missing` where none was found.
pub fn long_asked(found: Option<Found<'_, '_>>, id: i32) -> Result<i64, FieldFault>
    ensures { (met : Picked) → IsMet found.entry met → result ≡ long_met id met }
{
    match whole(found) {
        Some(number) => Ok(number),
        None => Err(FieldFault::Missing(id)),
    }
}

/// A whole number of 32 bits. `Missing` where none was found, `OutOfRange` where it has more bits.
pub fn int_asked(found: Option<Found<'_, '_>>, id: i32) -> Result<i32, FieldFault>
    ensures { (met : Picked) → IsMet found.entry met → result ≡ int_met id met }
{
    within_32(long_asked(found, id)?, id)
}

/// A sequence number. `Missing` where none was found, `OutOfRange` where it is negative.
pub fn number_asked(found: Option<Found<'_, '_>>, id: i32) -> Result<SequenceNumber, FieldFault>
    ensures { (met : Picked) → IsMet found.entry met → result ≡ number_met id met }
{
    not_negative(long_asked(found, id)?, id)
}

/// A path of at most 65,535 bytes, lent from the file. `Missing` where none was found, `OutOfRange` where it is longer.
pub fn path_asked<'a>(found: Option<Found<'_, 'a>>, id: i32) -> Result<&'a str, FieldFault>
    ensures said { (met : Picked) → IsMet found.entry met → result_map (λ path. path.now) result ≡ path_met id met }
    ensures short { IfOk result (λ path. length path.now ≤ 65535) }
{
    let Some(text) = text(found) else {
        return Err(FieldFault::Missing(id));
    };
    short_path(text, id)
}

/// A whole number of 32 bits; none where none was found. `OutOfRange` where it has more bits.
pub fn optional_int(found: Option<Found<'_, '_>>, id: i32) -> Result<Option<i32>, FieldFault>
    ensures { (met : Picked) → IsMet found.entry met → result ≡ optional_int_met id met }
{
    match whole(found) {
        Some(number) => Ok(Some(within_32(number, id)?)),
        None => Ok(None),
    }
}

/// A sequence number; none where none was found. `OutOfRange` where it is negative.
pub fn optional_number(
    found: Option<Found<'_, '_>>,
    id: i32,
) -> Result<Option<SequenceNumber>, FieldFault>
    ensures { (met : Picked) → IsMet found.entry met → result ≡ optional_number_met id met }
{
    match whole(found) {
        Some(number) => Ok(Some(not_negative(number, id)?)),
        None => Ok(None),
    }
}

/// A path of at most 65,535 bytes, lent from the file; none where none was found. `OutOfRange` where it is longer.
pub fn optional_path<'a>(
    found: Option<Found<'_, 'a>>,
    id: i32,
) -> Result<Option<&'a str>, FieldFault>
    ensures said { (met : Picked) → IsMet found.entry met → result_map option_copied result ≡ optional_path_met id met }
    ensures short { IfOk result (λ some. IfSome some (λ path. length path.now ≤ 65535)) }
{
    match text(found) {
        Some(text) => Ok(Some(short_path(text, id)?)),
        None => Ok(None),
    }
}
