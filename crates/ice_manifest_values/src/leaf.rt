//! What a found value is, read from its bytes.

ghost use Rattle.std.specs.Prelude.{◌≡◌, Option, Some};
ghost use Rattle.std.specs.Option.{option_copied};
ghost use Rattle.avro_schema.specs.View.{tree};
ghost use Rattle.avro_file.specs.Value.{Value};
ghost use Rattle.avro_file.specs.Blocks.{StandsAt};
ghost use Rattle.avro_file.specs.Picking.{Typed, Picked};
ghost use Rattle.avro_file_picked.specs.Finding.{IsMet};
ghost use Rattle.ice_manifest_fields.specs.Fields.{there, whole_of, truth_of, text_of, binary_of};
ghost use Rattle.ice_manifest_values.specs.InPlace.{IsThere};

use crate::standing::Standing;
use avro_file_parts::{boolean_of, bytes_of, int_of, long_of, text_of as text_at};
use avro_file_picked::Found;
use avro_schema::Schema;

/// The whole number of either width that stands there; none where anything else does.
fn whole_at(schema: &Schema, bytes: &[u8]) -> Option<i64>
    ensures { (v : Value) → StandsAt (tree schema.now) bytes.now v → result ≡ whole_of (Some (tree schema.now, v)) }
{
    match schema {
        Schema::Int => match int_of(bytes) {
            Ok((number, _)) => Some(i64::from(number)),
            Err(_) => None,
        },
        Schema::Long => match long_of(bytes) {
            Ok((number, _)) => Some(number),
            Err(_) => None,
        },
        _ => None,
    }
}

/// The whole number that was found, of either width; none where nothing or anything else was.
pub fn whole(found: Option<Found<'_, '_>>) -> Option<i64>
    ensures { (met : Picked) → IsMet found.entry met → result ≡ whole_of (there met) }
{
    let found = found?;
    whole_at(found.schema(), found.bytes())
}

/// The whole number that stands there, of either width; none where nothing or anything else does.
pub fn whole_there(found: Option<Standing<'_, '_>>) -> Option<i64>
    ensures { (x : Option Typed) → IsThere found.entry x → result ≡ whole_of x }
{
    let found = found?;
    whole_at(found.schema, found.bytes)
}

/// The truth value that stands there; none where anything else does.
fn truth_at(schema: &Schema, bytes: &[u8]) -> Option<bool>
    ensures { (v : Value) → StandsAt (tree schema.now) bytes.now v → result ≡ truth_of (Some (tree schema.now, v)) }
{
    match schema {
        Schema::Boolean => match boolean_of(bytes) {
            Ok((holds, _)) => Some(holds),
            Err(_) => None,
        },
        _ => None,
    }
}

/// The truth value that was found; none where nothing or anything else was.
pub fn truth(found: Option<Found<'_, '_>>) -> Option<bool>
    ensures { (met : Picked) → IsMet found.entry met → result ≡ truth_of (there met) }
{
    let found = found?;
    truth_at(found.schema(), found.bytes())
}

/// The bytes that stand there, lent from the file; none where anything else does.
fn bytes_at<'a>(schema: &Schema, bytes: &'a [u8]) -> Option<&'a [u8]>
    ensures { (v : Value) → StandsAt (tree schema.now) bytes.now v →
        option_copied result ≡ binary_of (Some (tree schema.now, v)) }
{
    match schema {
        Schema::Bytes(_) => match bytes_of(bytes) {
            Ok((lent, _)) => Some(lent),
            Err(_) => None,
        },
        _ => None,
    }
}

/// The bytes that were found, lent from the file; none where nothing or anything else was.
pub fn binary<'a>(found: Option<Found<'_, 'a>>) -> Option<&'a [u8]>
    ensures { (met : Picked) → IsMet found.entry met → option_copied result ≡ binary_of (there met) }
{
    let found = found?;
    bytes_at(found.schema(), found.bytes())
}

/// The text that was found, lent from the file; none where nothing or anything else was.
pub fn text<'a>(found: Option<Found<'_, 'a>>) -> Option<&'a str>
    ensures { (met : Picked) → IsMet found.entry met → option_copied result ≡ text_of (there met) }
{
    let found = found?;
    match found.schema() {
        Schema::String => match text_at(found.bytes()) {
            Ok((text, _)) => Some(text),
            Err(_) => None,
        },
        _ => None,
    }
}
