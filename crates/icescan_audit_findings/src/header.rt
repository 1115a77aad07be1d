//! The metadata that a manifest says of itself, by their keys.

ghost use Rattle.std.specs.Prelude.{◌≡◌, ◌∷◌, []};
ghost use Rattle.std.specs.Option.{option_copied};
ghost use Rattle.avro_file_parts.specs.Exact.{IsRead};
ghost use Rattle.avro_file_parts.specs.Place.{position_of};
ghost use Rattle.avro_file.specs.Header.{last_under, property_at};
ghost use Rattle.avro_file.specs.Reading.{values_at};
ghost use Rattle.icescan_audit_findings.specs.RowFlaws.{found_at, property_in, property_under};

use avro_file_parts::{Place, Refusal, bytes_of, count_of, text_of};

/// What is found under a key, where one more property comes behind the others.
fn with_property<'a>(
    key: &[u8],
    found: Option<&'a [u8]>,
    name: &[u8],
    value: &'a [u8],
) -> Option<&'a [u8]>
    ensures { option_copied result ≡ last_under key.now (option_copied found.entry) ((name.now, value.now) ∷ []) }
{
    if name == key { Some(value) } else { found }
}

/// What is found under a key, after so many properties more.
fn found_in<'a>(
    key: &[u8],
    count: u64,
    found: Option<&'a [u8]>,
    place: Place<'a>,
) -> Result<(Option<&'a [u8]>, Place<'a>), Refusal>
    ensures { IsRead (λ x. (option_copied x.0, position_of x.1)) result
        (found_at key.now (option_copied found.entry) (values_at property_at count (position_of place.entry))) }
{
    let mut so_far = found;
    let mut here = place;
    'properties: for _ in 0..count {
        let (name, rest) = text_of(here.bytes)?;
        let (value, rest) = bytes_of(rest)?;
        so_far = with_property(key, so_far, name.as_bytes(), value);
        here = Place {
            bytes: rest,
            left: here.left,
        };
    }
    Ok((so_far, here))
}

/// What is under a key of the metadata that these bytes begin with; of several the last counts.
fn property_under<'a>(key: &[u8], bytes: &'a [u8]) -> Result<Option<&'a [u8]>, Refusal>
    ensures { IsRead (λ x. option_copied x) result (property_under key.now bytes.now) }
{
    let mut found = None;
    let mut here = Place {
        bytes,
        left: u64::MAX,
    };
    'each_block: loop {
        let (count, after) = count_of(here)?;
        if count == 0 {
            return Ok(found);
        }
        let (more, after) = found_in(key, count, found, after)?;
        found = more;
        here = after;
    }
}

/// What is under a key of a file's metadata; none where these can't be read.
pub fn property_in<'a>(key: &[u8], file: &'a [u8]) -> Option<&'a [u8]>
    ensures { option_copied result ≡ property_in key.now file.now }
{
    let (_, behind) = file.split_at(file.len().min(4));
    match property_under(key, behind) {
        Ok(found) => found,
        Err(_) => None,
    }
}
