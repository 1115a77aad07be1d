//! Values that hold no others.

ghost use Rattle.std.specs.Prelude.{◌≡◌, ◌^◌, ◌<◌, List, length, Ok, string_bytes};
ghost use Rattle.avro_file_parts.specs.Exact.{IsRead};
ghost use Rattle.avro_file_parts.specs.Parts.{boolean_at, run_at, run_of, bytes_at, string_at, symbol_at};

use crate::number::{int_of, long_of};
use crate::refusal::Refusal;

/// A truth value: one byte, which is 0 or 1.
#[tactic(auto, unfolding(crate::specs::Parts::boolean_at))]
pub fn boolean_of(bytes: &[u8]) -> Result<(bool, &[u8]), Refusal>
    ensures { IsRead (λ x. (x.0, x.1.now)) result (boolean_at bytes.now) }
{
    match bytes {
        [] => Err(Refusal::Short(0)),
        [0, rest @ ..] => Ok((false, rest)),
        [1, rest @ ..] => Ok((true, rest)),
        [_, ..] => Err(Refusal::BadBoolean),
    }
}

/// So many bytes.
#[tactic(auto, unfolding(crate::specs::Parts::run_at))]
pub fn run_of_len(len: u64, bytes: &[u8]) -> Result<(&[u8], &[u8]), Refusal>
    ensures { IsRead (λ x. (x.0.now, x.1.now)) result (run_at len bytes.now) }
{
    if (bytes.len() as u64) < len {
        return Err(Refusal::Short(bytes.len()));
    }
    Ok(bytes.split_at(len as usize))
}

/// A length, and that many bytes.
#[tactic(auto, unfolding(crate::specs::Parts::bytes_at))]
pub fn bytes_of(bytes: &[u8]) -> Result<(&[u8], &[u8]), Refusal>
    ensures { IsRead (λ x. (x.0.now, x.1.now)) result (bytes_at bytes.now) }
{
    let (len, rest) = long_of(bytes)?;
    if len < 0 {
        return Err(Refusal::BadNumber);
    }
    run_of_len(len as u64, rest)
}

/// A text, by its length.
#[tactic(auto, unfolding(crate::specs::Parts::string_at))]
pub fn text_of(bytes: &[u8]) -> Result<(&str, &[u8]), Refusal>
    ensures { IsRead (λ x. (x.0.now, x.1.now)) result (string_at bytes.now) }
{
    let (run, rest) = bytes_of(bytes)?;
    let Ok(text) = str::from_utf8(run) else {
        return Err(Refusal::BadUtf8);
    };
    Ok((text, rest))
}

/// A position among so many symbols.
#[tactic(auto, unfolding(crate::specs::Parts::symbol_at))]
pub fn symbol_of(count: usize, bytes: &[u8]) -> Result<(usize, &[u8]), Refusal>
    ensures { IsRead (λ x. (x.0, x.1.now)) result (symbol_at count bytes.now) }
{
    let (position, rest) = int_of(bytes)?;
    if position < 0 {
        return Err(Refusal::BadNumber);
    }
    let position = position as usize;
    if position >= count {
        return Err(Refusal::BadNumber);
    }
    Ok((position, rest))
}
