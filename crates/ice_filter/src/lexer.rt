//! From bytes to tokens.

ghost use Rattle.std.specs.Prelude.{◌≡◌, ℕ, ◌+◌, ◌^◌, ◌≤◌, ◌<◌, [], true, length, drop, IfOk};
ghost use Rattle.ice_filter.specs.Lexing.{is_digit, is_letter, is_name_byte, is_separator, is_hex, nibble, run_from};
ghost use Rattle.ice_filter.specs.Lexing.{word_of, magnitude_from, number_of, digits_at, quoted_from, hex_from};
ghost use Rattle.ice_filter.specs.Lexing.{word_at, mark_at, second_is, is_quote, text_in, named, text_of, sized_text};
ghost use Rattle.ice_filter.specs.Lexing.{quoted, as_text, as_name, as_bytes, begins_hex, begins_minus};
ghost use Rattle.ice_filter.specs.Reads.{IsFront, IsWithin};

use crate::token::{Comparison, Token};
use contract_words::{Items, Text};
use std::alloc::{AllocError, Global};

/// Spaces, tabs and line ends separate tokens.
pub fn is_separator(byte: u8) -> bool
    ensures { result ≡ is_separator byte }
{
    byte == b' ' || byte == b'\t' || byte == b'\n' || byte == b'\r'
}

fn is_digit(byte: u8) -> bool
    ensures { result ≡ is_digit byte }
{
    byte >= b'0' && byte <= b'9'
}

pub fn is_letter(byte: u8) -> bool
    ensures { result ≡ is_letter byte }
{
    byte >= b'a' && byte <= b'z' || byte >= b'A' && byte <= b'Z' || byte == b'_'
}

fn is_name_byte(byte: u8) -> bool
    ensures { result ≡ is_name_byte byte }
{
    is_letter(byte) || is_digit(byte)
}

/// How many bytes in front can stand in a name.
#[tactic(auto, unfolding(crate::specs::Lexing::run_from))]
pub fn name_length(bytes: &[u8]) -> usize
    ensures found { result ≡ run_from is_name_byte 0 bytes.now }
    ensures within { result ≤ length bytes.now }
{
    let mut count = 0;
    let mut rest = bytes;
    'bytes: while let [byte, ..] = rest {
        if !is_name_byte(*byte) {
            return count;
        }
        count += 1;
        rest = &rest[1..];
    }
    count
}

/// How many bytes in front are digits.
#[tactic(auto, unfolding(crate::specs::Lexing::run_from))]
fn digits_length(bytes: &[u8]) -> usize
    ensures found { result ≡ run_from is_digit 0 bytes.now }
    ensures within { result ≤ length bytes.now }
{
    let mut count = 0;
    let mut rest = bytes;
    'bytes: while let [byte, ..] = rest {
        if !is_digit(*byte) {
            return count;
        }
        count += 1;
        rest = &rest[1..];
    }
    count
}

/// The bytes as a text, where they are one.
fn text_in(alloc: Global, bytes: &[u8]) -> Result<Option<Text>, AllocError>
    ensures { IfOk result (λ text. text ≡ text_in bytes.now) }
{
    match std::str::from_utf8(bytes) {
        Ok(text) => Ok(Some(Text::from_string(String::from_str(alloc, text)?))),
        Err(_) => Ok(None),
    }
}

/// The name, as a token.
fn named(name: Option<Text>) -> Token
    ensures { result ≡ named name }
{
    match name {
        Some(name) => Token::Name(name),
        None => Token::Bad,
    }
}

/// The word that the bytes are, or the name.
#[tactic(auto, unfolding(crate::specs::Lexing::word_of))]
fn word_of(alloc: Global, name: &[u8]) -> Result<Token, AllocError>
    ensures { IfOk result (λ token. token ≡ word_of name.now) }
{
    if name == b"and".as_slice() {
        Ok(Token::And)
    } else if name == b"or".as_slice() {
        Ok(Token::Or)
    } else if name == b"not".as_slice() {
        Ok(Token::Not)
    } else if name == b"in".as_slice() {
        Ok(Token::In)
    } else if name == b"is".as_slice() {
        Ok(Token::Is)
    } else if name == b"null".as_slice() {
        Ok(Token::Null)
    } else if name == b"starts".as_slice() {
        Ok(Token::Starts)
    } else if name == b"with".as_slice() {
        Ok(Token::With)
    } else if name == b"true".as_slice() {
        Ok(Token::Truth(true))
    } else if name == b"false".as_slice() {
        Ok(Token::Truth(false))
    } else {
        Ok(named(text_in(alloc, name)?))
    }
}

/// A name or a word.
fn word_at(alloc: Global, bytes: &[u8]) -> Result<(Token, usize), AllocError>
    ensures found { IfOk result (λ x. x ≡ word_at bytes.now) }
    ensures within { IfOk result (λ x. x.1 ≤ length bytes.now) }
{
    let size = name_length(bytes);
    let token = word_of(alloc, &bytes[..size])?;
    Ok((token, size))
}

/// The number that the digits write, where it is at most 2^63.
#[tactic(auto, unfolding(crate::specs::Lexing::magnitude_from))]
fn magnitude(digits: &[u8]) -> Option<u64>
    ensures { result ≡ magnitude_from 0 digits.now }
{
    let mut number = 0u64;
    let mut rest = digits;
    'digits: while let [digit, ..] = rest {
        let next = number as u128 * 10 + digit.saturating_sub(b'0') as u128;
        if next > 0x8000_0000_0000_0000 {
            return None;
        }
        number = next as u64;
        rest = &rest[1..];
    }
    Some(number)
}

/// The number of 64 bits.
fn number_of(minus: bool, magnitude: Option<u64>) -> Token
    ensures { result ≡ number_of minus magnitude }
{
    match magnitude {
        None => Token::Bad,
        Some(number) => {
            if minus {
                if number > 0x8000_0000_0000_0000 {
                    Token::Bad
                } else {
                    Token::Number((0 - number as i128) as i64)
                }
            } else if number < 0x8000_0000_0000_0000 {
                Token::Number(number as i64)
            } else {
                Token::Bad
            }
        }
    }
}

/// The number whose digits begin here, behind so many bytes.
fn digits_at(minus: bool, before: usize, bytes: &[u8]) -> (Token, usize)
    requires { before + length bytes.now < 2 ^ 64 }
    ensures found { result ≡ digits_at minus before bytes.now }
    ensures within { result.1 ≤ before + length bytes.now }
{
    let size = digits_length(bytes);
    (number_of(minus, magnitude(&bytes[..size])), before + size)
}

/// The bytes behind so many.
pub fn behind(bytes: &[u8], count: usize) -> &[u8]
    requires { count ≤ length bytes.now }
    ensures { result.now ≡ drop count bytes.now }
{
    &bytes[count..]
}

/// What stands before the closing quote, and how many bytes are read with it.
#[tactic(auto, unfolding(crate::specs::Lexing::quoted_from))]
fn unquoted(
    alloc: Global,
    quote: u8,
    bytes: &[u8],
) -> Result<Option<(Items<u8>, usize)>, AllocError>
    requires { length bytes.now + 1 < 2 ^ 64 }
    ensures found { IfOk result (λ x. x ≡ quoted_from quote [] 1 bytes.now) }
    ensures within { IfOk result (λ x. IsWithin x (1 + length bytes.now)) }
{
    let mut text = Items::new(alloc);
    let mut count = 1;
    let mut rest = bytes;
    'bytes: while let [byte, next, ..] = rest {
        if *byte != quote {
            text.push(*byte)?;
            count += 1;
            rest = behind(rest, 1);
        } else if *next == quote {
            text.push(quote)?;
            count += 2;
            rest = behind(rest, 2);
        } else {
            return Ok(Some((text, count + 1)));
        }
    }
    match rest {
        [byte] if *byte == quote => Ok(Some((text, count + 1))),
        _ => Ok(None),
    }
}

fn is_hex(byte: u8) -> bool
    ensures { result ≡ is_hex byte }
{
    is_digit(byte) || byte >= b'a' && byte <= b'f' || byte >= b'A' && byte <= b'F'
}

fn nibble(byte: u8) -> u8
    requires { is_hex byte ≡ true }
    ensures value { result ≡ nibble byte }
    ensures below { result < 16 }
{
    if byte <= b'9' {
        byte - b'0'
    } else if byte <= b'F' {
        byte - b'A' + 10
    } else {
        byte - b'a' + 10
    }
}

/// The bytes that pairs of digits write before the closing quote, and how many bytes are read with it.
#[tactic(auto, unfolding(crate::specs::Lexing::hex_from))]
fn hex(alloc: Global, bytes: &[u8]) -> Result<Option<(Items<u8>, usize)>, AllocError>
    requires { length bytes.now + 2 < 2 ^ 64 }
    ensures found { IfOk result (λ x. x ≡ hex_from [] 2 bytes.now) }
    ensures within { IfOk result (λ x. IsWithin x (2 + length bytes.now)) }
{
    let mut found = Items::new(alloc);
    let mut count = 2;
    let mut rest = bytes;
    'bytes: while let [byte, next, ..] = rest {
        if *byte == b'\'' {
            return Ok(Some((found, count + 1)));
        }
        if !is_hex(*byte) || !is_hex(*next) {
            return Ok(None);
        }
        found.push(nibble(*byte) * 16 + nibble(*next))?;
        count += 2;
        rest = behind(rest, 2);
    }
    match rest {
        [b'\''] => Ok(Some((found, count + 1))),
        _ => Ok(None),
    }
}

/// The token of one or two bytes.
#[tactic(auto, unfolding(crate::specs::Lexing::mark_at))]
fn mark_at(first: u8, bytes: &[u8]) -> (Token, usize)
    requires { 0 < length bytes.now }
    ensures found { result ≡ mark_at first bytes.now }
    ensures within { (0 < result.1) × (result.1 ≤ length bytes.now) }
{
    let equals = bytes.len() > 1 && bytes[1] == b'=';
    match first {
        b'(' => (Token::Open, 1),
        b')' => (Token::Close, 1),
        b',' => (Token::Comma, 1),
        b'.' => (Token::Dot, 1),
        b'=' => (Token::Sign(Comparison::Equal), 1),
        b'<' if equals => (Token::Sign(Comparison::AtMost), 2),
        b'<' => (Token::Sign(Comparison::Less), 1),
        b'>' if equals => (Token::Sign(Comparison::AtLeast), 2),
        b'>' => (Token::Sign(Comparison::Greater), 1),
        b'!' if equals => (Token::Sign(Comparison::NotEqual), 2),
        _ => (Token::Bad, 1),
    }
}

/// Whether the second byte is a single quote.
fn quote_follows(bytes: &[u8]) -> bool
    ensures { result ≡ second_is is_quote bytes.now }
{
    match bytes {
        [_, byte, ..] => *byte == b'\'',
        _ => false,
    }
}

/// Whether the second byte is a digit.
fn digit_follows(bytes: &[u8]) -> bool
    ensures { result ≡ second_is is_digit bytes.now }
{
    match bytes {
        [_, byte, ..] => is_digit(*byte),
        _ => false,
    }
}

/// The text before the closing quote, and how many bytes are read with it.
fn quoted(alloc: Global, quote: u8, bytes: &[u8]) -> Result<Option<(Text, usize)>, AllocError>
    requires { length bytes.now + 1 < 2 ^ 64 }
    ensures found { IfOk result (λ x. x ≡ quoted quote bytes.now) }
    ensures within { IfOk result (λ x. IsWithin x (1 + length bytes.now)) }
{
    text_of(alloc, unquoted(alloc, quote, bytes)?)
}

/// What was read, where it is a text.
fn text_of(
    alloc: Global,
    read: Option<(Items<u8>, usize)>,
) -> Result<Option<(Text, usize)>, AllocError>
    ensures found { IfOk result (λ x. x ≡ text_of read) }
    ensures within { IfOk result (λ x. (most : ℕ) → IsWithin read most → IsWithin x most) }
{
    match read {
        Some((text, size)) => Ok(sized_text(size, text_in(alloc, text.as_slice())?)),
        None => Ok(None),
    }
}

/// The text with how many bytes were read.
fn sized_text(size: usize, text: Option<Text>) -> Option<(Text, usize)>
    ensures { result ≡ sized_text size text }
{
    match text {
        Some(text) => Some((text, size)),
        None => None,
    }
}

/// What was read between single quotes, as a token.
fn as_text(read: Option<(Text, usize)>) -> (Token, usize)
    ensures { result ≡ as_text read }
{
    match read {
        Some((text, size)) => (Token::Text(text), size),
        None => (Token::Bad, 1),
    }
}

/// What was read between double quotes, as a token.
fn as_name(read: Option<(Text, usize)>) -> (Token, usize)
    ensures { result ≡ as_name read }
{
    match read {
        Some((text, size)) => (Token::Name(text), size),
        None => (Token::Bad, 1),
    }
}

/// What was read of hexadecimal digits, as a token.
fn as_bytes(read: Option<(Items<u8>, usize)>) -> (Token, usize)
    ensures { result ≡ as_bytes read }
{
    match read {
        Some((text, size)) => (Token::Bytes(text), size),
        None => (Token::Bad, 1),
    }
}

/// Whether bytes in hexadecimal digits begin here.
fn begins_hex(first: u8, bytes: &[u8]) -> bool
    ensures { result ≡ begins_hex first bytes.now }
{
    first == b'x' && quote_follows(bytes)
}

/// Whether a negative number begins here.
fn begins_minus(first: u8, bytes: &[u8]) -> bool
    ensures { result ≡ begins_minus first bytes.now }
{
    first == b'-' && digit_follows(bytes)
}

/// The token in front, and how many bytes it takes.
#[tactic(auto, using(crate::proofs::Runs::some_in), unfolding(crate::specs::Lexing::front_at))]
pub fn token_at(alloc: Global, bytes: &[u8]) -> Result<(Token, usize), AllocError>
    requires { 0 < length bytes.now }
    ensures found { IfOk result (λ x. IsFront x bytes.now) }
    ensures size { IfOk result (λ x. (0 < x.1) × (x.1 ≤ length bytes.now)) }
{
    let first = bytes[0];
    if begins_hex(first, bytes) {
        Ok(as_bytes(hex(alloc, &bytes[2..])?))
    } else if is_letter(first) {
        word_at(alloc, bytes)
    } else if is_digit(first) {
        Ok(digits_at(false, 0, bytes))
    } else if begins_minus(first, bytes) {
        Ok(digits_at(true, 1, &bytes[1..]))
    } else if first == b'\'' {
        Ok(as_text(quoted(alloc, first, &bytes[1..])?))
    } else if first == b'"' {
        Ok(as_name(quoted(alloc, first, &bytes[1..])?))
    } else {
        Ok(mark_at(first, bytes))
    }
}
