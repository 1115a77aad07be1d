//! Writing paths and names escaped.

ghost use Rattle.std.specs.Prelude.{◌≡◌, ◌<◌, ◌≤◌, true, false, Ok, Err, IfOk, IfErr, length, take, slice_index};
ghost use Rattle.icescan_print.specs.Escaping.{hex_digit, is_escaped, escaped_byte, escaped};
ghost use Rattle.icescan_print.specs.Written.{Wrote};

use crate::sink::{Sink, SinkFault, write_all};

/// Writes a path or a name, escaped.
pub fn put_escaped<S: Sink>(sink: &mut S, bytes: &[u8]) -> Result<(), SinkFault>
    ensures { Wrote S.taken S.may_fail sink.old result sink.new (escaped bytes.now) }
{
    let mut done = 0;
    while done < bytes.len() {
        done += put_front(sink, &bytes[done..])?;
    }
    Ok(())
}

/// Writes the first byte where it has to be escaped, else all bytes before the next such byte, and says how many.
fn put_front<S: Sink>(sink: &mut S, bytes: &[u8]) -> Result<usize, SinkFault>
    requires { 0 < length bytes.now }
    ensures some { IfOk result (λ n. 0 < n) }
    ensures within { IfOk result (λ n. n ≤ length bytes.now) }
    ensures ok { IfOk result (λ n. Wrote S.taken S.may_fail sink.old (Ok tt) sink.new (escaped (take n bytes.now))) }
    ensures err { IfErr result (λ e. Wrote S.taken S.may_fail sink.old (Err e) sink.new (escaped bytes.now)) }
{
    if is_escaped(bytes[0]) {
        write_all(sink, &digits_of(bytes[0]))?;
        return Ok(1);
    }
    let plain = count_plain(bytes);
    write_all(sink, &bytes[..plain])?;
    Ok(plain)
}

/// How many bytes are looked at together.
const BLOCK: usize = 16;

/// Whether one of the bytes has to be escaped. No branch stands between them, so that a processor looks at many at once.
pub fn has_escaped(bytes: &[u8]) -> bool
    ensures { result ≡ false → escaped bytes.now ≡ bytes.now }
{
    let mut has = false;
    'bytes: for i in 0..bytes.len() {
        has |= is_escaped(bytes[i]);
    }
    has
}

/// How many bytes stand in the blocks before the first in which one has to be escaped.
fn count_plain_blocks(bytes: &[u8]) -> usize
    ensures within { result ≤ length bytes.now }
    ensures plain { escaped (take result bytes.now) ≡ take result bytes.now }
{
    let mut count = 0;
    while bytes.len() - count >= BLOCK && !has_escaped(&bytes[count..count + BLOCK]) {
        count += BLOCK;
    }
    count
}

/// How many bytes stand before the first that has to be escaped.
pub fn count_plain(bytes: &[u8]) -> usize
    ensures within { result ≤ length bytes.now }
    ensures plain { escaped (take result bytes.now) ≡ take result bytes.now }
    ensures stops { result < length bytes.now → is_escaped (slice_index bytes.now result) ≡ true }
{
    let mut count = count_plain_blocks(bytes);
    while count < bytes.len() && !is_escaped(bytes[count]) {
        count += 1;
    }
    count
}

/// The digits by which texts show a byte that has to be escaped.
pub fn digits_of(byte: u8) -> [u8; 4]
    requires { is_escaped byte ≡ true }
    ensures { result ≡ escaped_byte byte }
{
    [b'\\', b'x', hex_digit(byte / 16), hex_digit(byte % 16)]
}

/// Whether texts show this byte by its digits.
pub fn is_escaped(byte: u8) -> bool
    ensures { result ≡ is_escaped byte }
{
    (byte <= b' ') | (byte == b'\\') | (byte == 127)
}

/// A hexadecimal digit, in lower case.
fn hex_digit(n: u8) -> u8
    requires { n < 16 }
    ensures { result ≡ hex_digit n }
{
    if n < 10 { b'0' + n } else { b'a' - 10 + n }
}
