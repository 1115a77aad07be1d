//! The header of a file: its metadata and marker.

ghost use Rattle.std.specs.Prelude.{◌≡◌, List, [], ◌∷◌, length, Ok};
ghost use Rattle.avro_file_parts.specs.Exact.{IsRead};
ghost use Rattle.avro_file_parts.specs.Place.{position_of};
ghost use Rattle.avro_file.specs.Where.{wanted_of, header_of_file};
ghost use Rattle.avro_file.specs.Reading.{values_at};
ghost use Rattle.avro_file.specs.Header.{property_at, wanted_with, wanted_at, metadata_at, header_at};

use avro_file_parts::{Place, Refusal, bytes_of, count_of, run_of_len, text_of};

/// How each file begins.
pub const MAGIC: &[u8] = b"Obj\x01";

/// The key of the schema's text.
pub const SCHEMA: &[u8] = b"avro.schema";

/// The key of the codec's name.
pub const CODEC: &[u8] = b"avro.codec";

/// The codec of blocks that stand as they are.
pub const NO_CODEC: &[u8] = b"null";

/// The metadata that a reader needs.
#[derive(Clone, Copy, Debug)]
pub struct Wanted<'a> {
    pub schema: Option<&'a [u8]>,
    pub codec: Option<&'a [u8]>,
}

/// What is wanted of the metadata, the marker, and the bytes behind it.
#[derive(Clone, Copy, Debug)]
pub struct Header<'a> {
    pub wanted: Wanted<'a>,
    pub sync: &'a [u8],
    pub rest: &'a [u8],
}

/// What is wanted, where one more property comes behind the others.
fn with_property<'a>(wanted: Wanted<'a>, key: &[u8], value: &'a [u8]) -> Wanted<'a>
    ensures { wanted_of result ≡ wanted_with (wanted_of wanted.entry) ((key.now, value.now) ∷ []) }
{
    Wanted {
        schema: if key == SCHEMA {
            Some(value)
        } else {
            wanted.schema
        },
        codec: if key == CODEC {
            Some(value)
        } else {
            wanted.codec
        },
    }
}

/// What is wanted, after so many properties more.
fn properties_of<'a>(
    count: u64,
    wanted: Wanted<'a>,
    place: Place<'a>,
) -> Result<(Wanted<'a>, Place<'a>), Refusal>
    ensures { IsRead (λ x. (wanted_of x.0, position_of x.1)) result
        (wanted_at (wanted_of wanted.entry) (values_at property_at count (position_of place.entry))) }
{
    let mut so_far = wanted;
    let mut here = place;
    'properties: for _ in 0..count {
        let (key, rest) = text_of(here.bytes)?;
        let (value, rest) = bytes_of(rest)?;
        so_far = with_property(so_far, key.as_bytes(), value);
        here = Place {
            bytes: rest,
            left: here.left,
        };
    }
    Ok((so_far, here))
}

/// What is wanted of the metadata, and the bytes behind it.
fn metadata_of(bytes: &[u8]) -> Result<(Wanted<'_>, &[u8]), Refusal>
    ensures { IsRead (λ x. (wanted_of x.0, x.1.now)) result (metadata_at bytes.now) }
{
    let mut wanted = Wanted {
        schema: None,
        codec: None,
    };
    let mut here = Place {
        bytes,
        left: u64::MAX,
    };
    'each_block: loop {
        let (count, after) = count_of(here)?;
        if count == 0 {
            return Ok((wanted, after.bytes));
        }
        let (more, after) = properties_of(count, wanted, after)?;
        wanted = more;
        here = after;
    }
}

/// The header behind the magic number.
#[tactic(auto, unfolding(crate::specs::Header::header_at))]
pub fn header_of(bytes: &[u8]) -> Result<Header<'_>, Refusal>
    ensures { IsRead header_of_file result (header_at bytes.now) }
{
    let (wanted, rest) = metadata_of(bytes)?;
    let (sync, rest) = run_of_len(16, rest)?;
    Ok(Header { wanted, sync, rest })
}
