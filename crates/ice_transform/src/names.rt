//! The texts that name transforms.

ghost use Rattle.std.specs.Prelude.{◌≡◌, ◌<◌, ◌^◌, ◌++◌, codes, true, false, IfSome, IfNone, IfOk};
ghost use Rattle.std.specs.Fmt.{decimal};
ghost use Rattle.std.specs.Option.{option_map};
ghost use Rattle.ice_transform.specs.Names.{IsNamed, is_name, is_plain_name, with_digit, number_after};
ghost use Rattle.ice_transform.specs.Names.{parameter_before_bracket, parameter_in};
ghost use Rattle.ice_transform.specs.declared.parameter.Parameter.{Parameter};

use crate::parameter::Parameter;
use crate::transform::Transform;
use contract_words::Text;
use std::alloc::{AllocError, Global};

/// The number after one more digit, where it fits.
fn with_digit(number: u32, digit: u8) -> Option<u32>
    ensures { result ≡ with_digit number digit }
{
    if digit < b'0' || digit > b'9' {
        return None;
    }
    number.checked_mul(10)?.checked_add((digit - b'0') as u32)
}

/// The number of the digits, where a closing bracket follows them and ends the bytes.
fn number_of(bytes: &[u8]) -> Option<u32>
    ensures { result ≡ number_after 0 bytes.now }
{
    let mut number = 0u32;
    let mut rest = bytes;
    'digits: while let [digit, _, ..] = rest {
        number = with_digit(number, *digit)?;
        rest = &rest[1..];
    }
    match rest {
        [b']'] => Some(number),
        _ => None,
    }
}

fn parameter_of(bytes: &[u8]) -> Option<Parameter>
    ensures { option_map (λ (parameter : Parameter). parameter.number) result ≡ parameter_before_bracket bytes.now }
{
    match bytes {
        [] | [b'0', ..] => None,
        _ => Parameter::new(number_of(bytes)?),
    }
}

/// The number behind this beginning.
fn parameter_after(front: &[u8], text: &[u8]) -> Option<Parameter>
    ensures { option_map (λ (parameter : Parameter). parameter.number) result ≡ parameter_in front.now text.now }
{
    if text.starts_with(front) {
        parameter_of(&text[front.len()..])
    } else {
        None
    }
}

/// The known transform that has no number.
fn plain(text: &str) -> Option<Transform>
    ensures some { IfSome result (λ transform. IsNamed transform text.now) }
    ensures none { IfNone result (is_plain_name text.now ≡ false) }
{
    if text == "identity" {
        Some(Transform::Identity)
    } else if text == "year" {
        Some(Transform::Year)
    } else if text == "month" {
        Some(Transform::Month)
    } else if text == "day" {
        Some(Transform::Day)
    } else if text == "hour" {
        Some(Transform::Hour)
    } else if text == "void" {
        Some(Transform::Void)
    } else {
        None
    }
}

/// The known transform of the text.
pub fn known(text: &str) -> Option<Transform>
    ensures some { IfSome result (λ transform. IsNamed transform text.now) }
    ensures none { IfNone result (is_name text.now ≡ false) }
{
    if let Some(transform) = plain(text) {
        return Some(transform);
    }
    if let Some(buckets) = parameter_after(b"bucket[", text.as_bytes()) {
        return Some(Transform::Bucket(buckets));
    }
    match parameter_after(b"truncate[", text.as_bytes()) {
        Some(width) => Some(Transform::Truncate(width)),
        None => None,
    }
}

/// The text of a transform without a number.
pub fn plain_name(alloc: Global, name: &str) -> Result<Text, AllocError>
    ensures { IfOk result (λ text. text ≡ name.now) }
{
    Ok(Text::from_string(String::from_str(alloc, name)?))
}

/// The text of a transform with a number.
pub fn numbered_name(alloc: Global, front: &str, parameter: Parameter) -> Result<Text, AllocError>
    ensures { IfOk result (λ text. text ≡ front.now ++ (decimal parameter.number ++ codes "]")) }
{
    let number = parameter.get();
    Ok(Text::from_string(format!(in alloc; "{front}{number}]")?))
}
