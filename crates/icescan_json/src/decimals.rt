//! Decimals as texts.

ghost use Rattle.std.specs.Prelude.{◌≡◌, ◌<◌, ◌≤◌, length, replicate};
ghost use Rattle.json.specs.Print.{escape, quoted};
ghost use Rattle.icescan_print.specs.Written.{Sent};
ghost use Rattle.icescan_json.specs.Decimals.{decimal_text, is_decimal, minus_if, scaled, sign_byte, unscaled, widened};
ghost use Rattle.icescan_json.specs.Decimals.{with_point};

use icescan_forms::put_escaped;
use icescan_print::{Page, Sink, SinkFault};
use itoa::Buffer;

/// How many digits a decimal has at most.
const MOST_DIGITS: usize = 38;

const ZEROS: [u8; MOST_DIGITS] = [b'0'; MOST_DIGITS];

/// Whether the bytes are those of a decimal that has so many digits behind its point.
pub fn is_decimal(scale: u32, bytes: &[u8]) -> bool
    ensures { result ≡ is_decimal scale bytes.now }
{
    scale <= 38 && 0 < bytes.len() && bytes.len() <= 16
}

/// What stands before the bytes of a number in a longer one.
fn sign_byte(bytes: &[u8]) -> u8
    requires { 0 < length bytes.now }
    ensures { result ≡ sign_byte bytes.now }
{
    if bytes[0] < 128 { 0 } else { 255 }
}

/// 16 bytes of the same number.
fn widened(bytes: &[u8]) -> [u8; 16]
    requires some { 0 < length bytes.now }
    requires few { length bytes.now ≤ 16 }
    ensures { result ≡ widened bytes.now }
{
    let mut all = [sign_byte(bytes); 16];
    all[16 - bytes.len()..].copy_from_slice(bytes);
    all
}

/// The number of some bytes, the highest first, in two's complement.
pub fn unscaled(bytes: &[u8]) -> i128
    requires some { 0 < length bytes.now }
    requires few { length bytes.now ≤ 16 }
    ensures { result ≡ unscaled bytes.now }
{
    u128::from_be_bytes(widened(bytes)).cast_signed()
}

/// So many zeros.
fn zeros(n: usize) -> &'static [u8]
    requires { n ≤ 38 }
    ensures { result.now ≡ replicate n 48 }
{
    &ZEROS[..n]
}

/// Sends digits of which fewer stand behind the point than there are.
fn put_within<S: Sink>(
    page: &mut Page,
    sink: &mut S,
    scale: usize,
    digits: &[u8],
) -> Result<(), SinkFault>
    requires { scale < length digits.now }
    ensures { Sent S.taken S.may_fail sink.old page.old result sink.new page.new
        (escape (with_point scale digits.now)) }
{
    let (whole, behind) = digits.split_at(digits.len() - scale);
    put_escaped(page, sink, whole)?;
    put_escaped(page, sink, b".")?;
    put_escaped(page, sink, behind)
}

/// Sends digits that all stand behind the point, after zeros where there are too few.
fn put_behind<S: Sink>(
    page: &mut Page,
    sink: &mut S,
    scale: usize,
    digits: &[u8],
) -> Result<(), SinkFault>
    requires many { length digits.now ≤ scale }
    requires few { scale ≤ 38 }
    ensures { Sent S.taken S.may_fail sink.old page.old result sink.new page.new
        (escape (with_point scale digits.now)) }
{
    put_escaped(page, sink, b"0.")?;
    put_escaped(page, sink, zeros(scale - digits.len()))?;
    put_escaped(page, sink, digits)
}

/// Sends digits, with a point where any stand behind it.
fn put_scaled<S: Sink>(
    page: &mut Page,
    sink: &mut S,
    scale: usize,
    digits: &[u8],
) -> Result<(), SinkFault>
    requires { scale ≤ 38 }
    ensures { Sent S.taken S.may_fail sink.old page.old result sink.new page.new (escape (scaled scale digits.now)) }
{
    if scale == 0 {
        put_escaped(page, sink, digits)
    } else if scale < digits.len() {
        put_within(page, sink, scale, digits)
    } else {
        put_behind(page, sink, scale, digits)
    }
}

fn minus_if(number: i128) -> &'static [u8]
    ensures { result.now ≡ minus_if number }
{
    if number < 0 { b"-" } else { b"" }
}

/// Sends a decimal in quotes, of so many digits behind the point.
pub fn put_decimal_text<S: Sink>(
    page: &mut Page,
    sink: &mut S,
    scale: u32,
    number: i128,
) -> Result<(), SinkFault>
    requires { scale ≤ 38 }
    ensures { Sent S.taken S.may_fail sink.old page.old result sink.new page.new
        (quoted (decimal_text scale number)) }
{
    let mut buffer = Buffer::new();
    let digits = buffer.format(number.unsigned_abs());
    page.put(sink, b"\"")?;
    put_escaped(page, sink, minus_if(number))?;
    put_scaled(page, sink, scale as usize, digits.as_bytes())?;
    page.put(sink, b"\"")
}
