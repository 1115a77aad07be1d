//! The bytes that an escaped text stands for.

ghost use Rattle.std.specs.Prelude.{◌≡◌, ◌<◌, ℕ, List, Some, None, length, IfOk, IfSome, IsNone, option_map};
ghost use Rattle.icescan_print.specs.Escaping.{escaped, unescaped, before, digit_value};

use crate::escape::is_escaped;
use std::alloc::{AllocError, Global};

/// The bytes that an escaped text stands for, or none where escaping gives no such text: a byte that has to be escaped
/// stands in it as it is, or another byte stands in it escaped.
pub fn unescape(alloc: Global, text: &[u8]) -> Result<Option<Vec<u8>>, AllocError>
    ensures { IfOk result (λ found. option_map (λ bytes. bytes.items) found ≡ unescaped text.now) }
{
    let mut bytes = Vec::new(alloc);
    let mut rest = text;
    while let Some((byte, after)) = split_byte(rest) {
        bytes.push(byte)?;
        rest = after;
    }
    Ok(if rest.is_empty() { Some(bytes) } else { None })
}

/// A text stands for some bytes exactly where it is those bytes escaped.
pub fn escaping()
    ensures back { (bytes : List ℕ) → unescaped (escaped bytes) ≡ Some bytes }
    ensures only { (text bytes : List ℕ) → unescaped text ≡ Some bytes → text ≡ escaped bytes }
{}

/// The byte that a text begins with, escaped or not, and the rest of the text.
fn split_byte(text: &[u8]) -> Option<(u8, &[u8])>
    ensures found { IfSome result (λ split. unescaped text.now ≡ before (Some split.0) (unescaped split.1.now)) }
    ensures shorter { IfSome result (λ split. length split.1.now < length text.now) }
    ensures none { IsNone result → 0 < length text.now → unescaped text.now ≡ None }
{
    match text {
        [b'\\', b'x', high, low, rest @ ..] => {
            let byte = 16 * hex_value(*high)? + hex_value(*low)?;
            if is_escaped(byte) {
                Some((byte, rest))
            } else {
                None
            }
        }
        [byte, rest @ ..] if !is_escaped(*byte) => Some((*byte, rest)),
        _ => None,
    }
}

/// The number that a hexadecimal digit in lower case stands for.
fn hex_value(digit: u8) -> Option<u8>
    ensures value { result ≡ digit_value digit }
    ensures small { IfSome result (λ n. n < 16) }
{
    match digit {
        b'0'..=b'9' => Some(digit - b'0'),
        b'a'..=b'f' => Some(digit - b'a' + 10),
        _ => None,
    }
}
