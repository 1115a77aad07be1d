//! Texts within JSON's quotes.

ghost use Rattle.std.specs.Prelude.{◌≡◌, ◌<◌, ◌≤◌, true, false, Ok, Err, Some, None, IfOk, IfErr, length, take, slice_index};
ghost use Rattle.std.specs.Prelude.{if◌then◌else◌, nat_lt};
ghost use Rattle.std.specs.Char.{digit_char};
ghost use Rattle.json.specs.Print.{escape, escape_byte, escape_letter};
ghost use Rattle.json.specs.Run.{is_plain};
ghost use Rattle.icescan_print.specs.Written.{Sent};

use icescan_print::{Page, Sink, SinkFault};

/// Sends a text as it stands within quotes.
pub fn put_escaped<S: Sink>(page: &mut Page, sink: &mut S, bytes: &[u8]) -> Result<(), SinkFault>
    ensures { Sent S.taken S.may_fail sink.old page.old result sink.new page.new (escape bytes.now) }
{
    let mut done = 0;
    while done < bytes.len() {
        done += put_front(page, sink, &bytes[done..])?;
    }
    Ok(())
}

/// Sends the first byte where it has to be escaped, else all bytes before the next such byte, and says how many.
fn put_front<S: Sink>(page: &mut Page, sink: &mut S, bytes: &[u8]) -> Result<usize, SinkFault>
    requires { 0 < length bytes.now }
    ensures some { IfOk result (λ n. 0 < n) }
    ensures within { IfOk result (λ n. n ≤ length bytes.now) }
    ensures ok { IfOk result (λ n. Sent S.taken S.may_fail sink.old page.old (Ok tt) sink.new page.new
        (escape (take n bytes.now))) }
    ensures err { IfErr result (λ e. Sent S.taken S.may_fail sink.old page.old (Err e) sink.new page.new
        (escape bytes.now)) }
{
    if !is_plain(bytes[0]) {
        put_escape(page, sink, bytes[0])?;
        return Ok(1);
    }
    let plain = count_plain(bytes);
    page.put(sink, &bytes[..plain])?;
    Ok(plain)
}

/// How many bytes are looked at together.
const BLOCK: usize = 16;

/// Whether all of the bytes stand as they are. No branch stands between them, so that a processor looks at many at once.
fn are_plain(bytes: &[u8]) -> bool
    ensures { result ≡ true → escape bytes.now ≡ bytes.now }
{
    let mut plain = true;
    'bytes: for i in 0..bytes.len() {
        plain &= is_plain(bytes[i]);
    }
    plain
}

/// How many bytes stand in the blocks before the first in which one has to be escaped.
fn count_plain_blocks(bytes: &[u8]) -> usize
    ensures within { result ≤ length bytes.now }
    ensures plain { escape (take result bytes.now) ≡ take result bytes.now }
{
    let mut count = 0;
    while bytes.len() - count >= BLOCK && are_plain(&bytes[count..count + BLOCK]) {
        count += BLOCK;
    }
    count
}

/// How many bytes stand before the first that has to be escaped.
fn count_plain(bytes: &[u8]) -> usize
    ensures within { result ≤ length bytes.now }
    ensures plain { escape (take result bytes.now) ≡ take result bytes.now }
    ensures stops { result < length bytes.now → is_plain (slice_index bytes.now result) ≡ false }
{
    let mut count = count_plain_blocks(bytes);
    while count < bytes.len() && is_plain(bytes[count]) {
        count += 1;
    }
    count
}

/// Sends a byte escaped.
fn put_escape<S: Sink>(page: &mut Page, sink: &mut S, byte: u8) -> Result<(), SinkFault>
    requires { is_plain byte ≡ false }
    ensures { Sent S.taken S.may_fail sink.old page.old result sink.new page.new (escape_byte byte) }
{
    match escape_letter(byte) {
        Some(letter) => page.put(sink, &[b'\\', letter]),
        None => page.put(
            sink,
            &[
                b'\\',
                b'u',
                b'0',
                b'0',
                hex_digit(byte / 16),
                hex_digit(byte % 16),
            ],
        ),
    }
}

/// Whether a byte stands within quotes as it is.
fn is_plain(byte: u8) -> bool
    ensures { result ≡ is_plain byte }
{
    (b' ' <= byte) & (byte != b'"') & (byte != b'\\')
}

/// The letter of the short escape that a byte has.
fn escape_letter(byte: u8) -> Option<u8>
    ensures { result ≡ (if nat_lt 0 (escape_letter byte) then Some (escape_letter byte) else None) }
{
    match byte {
        b'"' | b'\\' => Some(byte),
        8 => Some(b'b'),
        9 => Some(b't'),
        10 => Some(b'n'),
        12 => Some(b'f'),
        13 => Some(b'r'),
        _ => None,
    }
}

/// A hexadecimal digit, in lower case.
pub fn hex_digit(n: u8) -> u8
    requires { n < 16 }
    ensures { result ≡ digit_char n }
{
    if n < 10 { b'0' + n } else { b'a' - 10 + n }
}
