//! Whole numbers.

ghost use Rattle.std.specs.Prelude.{◌≡◌, ◌^◌, ◌<◌, List, length, Ok};
ghost use Rattle.avro_file_parts.specs.Exact.{IsRead};
ghost use Rattle.avro_file_parts.specs.Number.{number_at, long_at, int_at, signed_of};

use crate::refusal::Refusal;

/// What the tenth group counts.
const LAST_PLACE: u64 = 1 << 63;

/// An unsigned number of 64 bits, in at most ten groups, and the bytes after it.
#[inline(never)]
fn longer_unsigned_of(bytes: &[u8]) -> Result<(u64, &[u8]), Refusal>
    ensures { IsRead (λ x. (x.0, x.1.now)) result (number_at (2 ^ 64) bytes.now) }
{
    let mut value: u64 = 0;
    let mut place: u64 = 1;
    let mut rest = bytes;
    'groups: for _ in 0..9u32 {
        let Some((first, after)) = rest.split_first() else {
            return Err(Refusal::Short(bytes.len()));
        };
        let group = *first;
        if group < 128 {
            return Ok((value + place * u64::from(group), after));
        }
        value += place * u64::from(group - 128);
        place *= 128;
        rest = after;
    }
    let Some((last, after)) = rest.split_first() else {
        return Err(Refusal::Short(bytes.len()));
    };
    // nine groups are 63 bits: one bit is left
    if *last > 1 {
        return Err(Refusal::BadNumber);
    }
    Ok((value + LAST_PLACE * u64::from(*last), after))
}

/// The same, at once where it has one group.
#[inline(always)]
pub fn unsigned_of(bytes: &[u8]) -> Result<(u64, &[u8]), Refusal>
    ensures { IsRead (λ x. (x.0, x.1.now)) result (number_at (2 ^ 64) bytes.now) }
{
    match bytes {
        [first, rest @ ..] if *first < 128 => Ok((u64::from(*first), rest)),
        _ => longer_unsigned_of(bytes),
    }
}

fn signed(value: u64) -> i64
    ensures { result ≡ signed_of value }
{
    let half = (value / 2) as i64;
    if value % 2 == 0 { half } else { -half - 1 }
}

/// An unsigned number of 32 bits.
fn unsigned_32_of(bytes: &[u8]) -> Result<(u32, &[u8]), Refusal>
    ensures { IsRead (λ x. (x.0, x.1.now)) result (number_at (2 ^ 32) bytes.now) }
{
    let (value, rest) = unsigned_of(bytes)?;
    if value > u64::from(u32::MAX) {
        return Err(Refusal::BadNumber);
    }
    Ok((value as u32, rest))
}

fn signed_32(value: u32) -> i32
    ensures { result ≡ signed_of value }
{
    let half = (value / 2) as i32;
    if value % 2 == 0 { half } else { -1 - half }
}

/// A whole number of 32 bits, and the bytes after it.
#[tactic(auto, unfolding(crate::specs::Number::int_at))]
pub fn int_of(bytes: &[u8]) -> Result<(i32, &[u8]), Refusal>
    ensures { IsRead (λ x. (x.0, x.1.now)) result (int_at bytes.now) }
{
    let (value, rest) = unsigned_32_of(bytes)?;
    Ok((signed_32(value), rest))
}

/// A whole number of 64 bits, and the bytes after it.
#[tactic(auto, unfolding(crate::specs::Number::long_at))]
pub fn long_of(bytes: &[u8]) -> Result<(i64, &[u8]), Refusal>
    ensures { IsRead (λ x. (x.0, x.1.now)) result (long_at bytes.now) }
{
    let (value, rest) = unsigned_of(bytes)?;
    Ok((signed(value), rest))
}
