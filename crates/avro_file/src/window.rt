//! Many numbers at once: where they end is seen in the top bits of 64 bytes.

ghost use Rattle.std.specs.Prelude.{◌≡◌, ◌≢◌, ◌↔◌, ◌≤◌, ◌+◌, ℕ, true, length, slice_range};
ghost use Rattle.std.specs.Str.{IsAscii};
ghost use Rattle.std.specs.Int.{bit_at, trailing_zeros, w64};
ghost use Rattle.avro_schema.specs.Tree.{long};
ghost use Rattle.avro_file.specs.Reading.{values_at, datum_at};
ghost use Rattle.avro_file.specs.Pairs.{pair};
ghost use Rattle.avro_file.specs.Ending.{standing, EndsCounted};
ghost use Rattle.avro_file.specs.Window.{AreLast, AreEnds};

use std::simd::prelude::*;

/// How many bytes are looked at together.
pub(crate) const WINDOW: usize = 64;

/// The bytes of a window that end a number: bit i stands for byte i.
#[inline(always)]
fn last_bytes(bytes: &[u8], at: usize) -> u64
    requires { at + 64 ≤ length bytes.now }
    ensures { AreLast bytes.now at result }
{
    u8x64::from_slice(&bytes[at..])
        .simd_lt(u8x64::splat(128))
        .to_bitmask()
}

/// The same up to the first number of more than four bytes.
#[inline(always)]
fn short_ends(bytes: &[u8], at: usize) -> u64
    requires { at + 64 ≤ length bytes.now }
    ensures { AreEnds bytes.now at 0 result }
{
    let last = last_bytes(bytes, at);
    let two = !last & (!last >> 1);
    let four = two & (two >> 2);
    if four == 0 {
        return last;
    }
    last % (1 << four.trailing_zeros())
}

/// All bits but the lowest.
#[inline(always)]
fn without_first(ends: u64) -> u64
    ensures { (i : ℕ) → (bit_at result i ≡ 1) ↔ ((bit_at ends i ≡ 1) × (i ≢ trailing_zeros w64 ends)) }
{
    ends & ends.wrapping_sub(1)
}

/// How many ints and longs of at most four bytes each end within a window, at most so many, and where they end.
#[inline(always)]
pub(crate) fn window_pairs_end(most: u64, bytes: &[u8], at: usize) -> (u64, usize)
    requires { at + 64 ≤ length bytes.now }
    ensures most { result.0 ≤ most }
    ensures ends { (left : ℕ) →
        EndsCounted (values_at (datum_at (pair long)) result.0) bytes.now at left result.1 left }
{
    let mut ends = short_ends(bytes, at);
    let mut here = at;
    'pairs: for pairs in 0..most {
        let longs = without_first(ends);
        if longs == 0 {
            return (pairs, here);
        }
        here = at + longs.trailing_zeros() as usize + 1;
        ends = without_first(longs);
    }
    (most, here)
}

/// Whether the bytes between two places are ASCII, which is seen where a window over the last of them is within the
/// bytes.
#[inline(always)]
pub(crate) fn is_ascii_run(bytes: &[u8], start: usize, end: usize) -> bool
    requires { (start ≤ end) × (end ≤ length bytes.now) }
    ensures { result ≡ true → IsAscii (slice_range bytes.now start end) }
{
    let mut here = start;
    'windows: while end - here >= WINDOW {
        if last_bytes(bytes, here) != u64::MAX {
            return false;
        }
        here += WINDOW;
    }
    if bytes.len() - here < WINDOW {
        return false;
    }
    !last_bytes(bytes, here) % (1 << (end - here)) == 0
}
