//! Numbers of one or two groups, as most are, which are read at once.

ghost use Rattle.std.specs.Prelude.{◌≡◌, Ok, IfSome};
ghost use Rattle.avro_file_parts.specs.Exact.{IsRead};
ghost use Rattle.avro_file_parts.specs.Number.{int_at, long_at, signed_of};
ghost use Rattle.avro_file_parts.specs.Parts.{bytes_at, count_at};
ghost use Rattle.avro_file_parts.specs.Place.{position_of};

use avro_file_parts::{Place, Refusal, run_of_len};

/// The number that so many groups of bits stand for, with its sign.
#[inline(always)]
fn signed(number: u16) -> i16
    ensures { result ≡ signed_of number }
{
    let half = (number / 2) as i16;
    if number % 2 == 0 { half } else { -1 - half }
}

/// A number of one or two groups, and the bytes after it; none where it is longer.
#[inline(always)]
fn short_of(bytes: &[u8]) -> Option<(i16, &[u8])>
    ensures int { IfSome result (λ x. int_at bytes.now ≡ Ok (x.0, x.1.now)) }
    ensures long { IfSome result (λ x. long_at bytes.now ≡ Ok (x.0, x.1.now)) }
{
    match bytes {
        [first, rest @ ..] if *first < 128 => Some((signed(u16::from(*first)), rest)),
        [first, second, rest @ ..] if *first >= 128 && *second < 128 => {
            let number = u16::from(*first - 128) + 128 * u16::from(*second);
            Some((signed(number), rest))
        }
        _ => None,
    }
}

/// A whole number of 32 bits, and the bytes after it.
#[inline(always)]
pub(crate) fn int_of(bytes: &[u8]) -> Result<(i32, &[u8]), Refusal>
    ensures { IsRead (λ x. (x.0, x.1.now)) result (int_at bytes.now) }
{
    match short_of(bytes) {
        Some((number, rest)) => Ok((i32::from(number), rest)),
        None => avro_file_parts::int_of(bytes),
    }
}

/// A whole number of 64 bits, and the bytes after it.
#[inline(always)]
pub(crate) fn long_of(bytes: &[u8]) -> Result<(i64, &[u8]), Refusal>
    ensures { IsRead (λ x. (x.0, x.1.now)) result (long_at bytes.now) }
{
    match short_of(bytes) {
        Some((number, rest)) => Ok((i64::from(number), rest)),
        None => avro_file_parts::long_of(bytes),
    }
}

/// A length, and that many bytes.
#[inline(always)]
#[tactic(auto, unfolding(avro_file_parts::specs::Parts::bytes_at))]
pub(crate) fn bytes_of(bytes: &[u8]) -> Result<(&[u8], &[u8]), Refusal>
    ensures { IsRead (λ x. (x.0.now, x.1.now)) result (bytes_at bytes.now) }
{
    let (len, rest) = long_of(bytes)?;
    if len < 0 {
        return Err(Refusal::BadNumber);
    }
    run_of_len(len as u64, rest)
}

/// The count of a block's items.
#[inline(always)]
#[tactic(auto, unfolding(avro_file_parts::specs::Parts::count_at))]
pub(crate) fn count_of(place: Place<'_>) -> Result<(u64, Place<'_>), Refusal>
    ensures { IsRead (λ x. (x.0, position_of x.1)) result (count_at (position_of place.entry)) }
{
    match short_of(place.bytes) {
        Some((count, rest)) if count >= 0 && count as u64 <= place.left => {
            let items = count as u64;
            let left = place.left - items;
            Ok((items, Place { bytes: rest, left }))
        }
        _ => avro_file_parts::count_of(place),
    }
}
