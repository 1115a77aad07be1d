//! Numbers and runs of bytes, put last.

ghost use Rattle.std.specs.Prelude.{◌≡◌, ◌++◌, ◌^◌, IfOk};
ghost use Rattle.avro_file_parts.specs.Exact.{IsRead};
ghost use Rattle.avro_file_parts.specs.Number.{number_at, long_at, signed_of};
ghost use Rattle.ice_state_envelopes.specs.Written.{Puts, counted_run_at};

use avro_file_parts::{Refusal, run_of_len, unsigned_of};
use std::alloc::AllocError;

/// Puts a number last, in groups of seven bits.
pub fn push_number(bytes: Vec<u8>, number: u64) -> Result<Vec<u8>, AllocError>
    ensures { IfOk result (λ all. Puts (number_at (2 ^ 64)) number bytes.items all.items) }
{
    let mut bytes = bytes;
    let mut rest = number;
    'groups: while rest >= 128 {
        bytes.push((rest % 128) as u8 + 128)?;
        rest /= 128;
    }
    bytes.push(rest as u8)?;
    Ok(bytes)
}

/// 0, -1, 1, -2, 2 .. as 0, 1, 2, 3, 4 ..
fn unsigned(number: i64) -> u64
    ensures { signed_of result ≡ number }
{
    if number < 0 {
        let below = -(number + 1);
        below as u64 * 2 + 1
    } else {
        number as u64 * 2
    }
}

/// Puts a whole number last.
pub fn push_long(bytes: Vec<u8>, number: i64) -> Result<Vec<u8>, AllocError>
    ensures { IfOk result (λ all. Puts long_at number bytes.items all.items) }
{
    push_number(bytes, unsigned(number))
}

/// Puts bytes last.
pub(crate) fn push_bytes(bytes: Vec<u8>, run: &[u8]) -> Result<Vec<u8>, AllocError>
    ensures { IfOk result (λ all. all.items ≡ bytes.items ++ run.now) }
{
    let mut bytes = bytes;
    bytes.extend_from_slice(run)?;
    Ok(bytes)
}

/// Puts bytes last, and before them how many there are.
pub fn push_run(bytes: Vec<u8>, run: &[u8]) -> Result<Vec<u8>, AllocError>
    ensures { IfOk result (λ all. Puts counted_run_at run.now bytes.items all.items) }
{
    let bytes = push_number(bytes, run.len() as u64)?;
    push_bytes(bytes, run)
}

/// A run of bytes behind its length, and the bytes after it.
#[tactic(auto, unfolding(crate::specs::Written::counted_run_at))]
pub fn counted_run_of(bytes: &[u8]) -> Result<(&[u8], &[u8]), Refusal>
    ensures { IsRead (λ x. (x.0.now, x.1.now)) result (counted_run_at bytes.now) }
{
    let (len, rest) = unsigned_of(bytes)?;
    run_of_len(len, rest)
}
