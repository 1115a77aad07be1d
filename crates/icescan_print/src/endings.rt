//! The ends of lines: names and numbers, made from the last to the first, so that no digit is moved.

ghost use Rattle.std.specs.Prelude.{◌≡◌, ◌+◌, ◌≤◌, ◌++◌, length, drop};
ghost use Rattle.std.specs.Fmt.{signed_decimal};
ghost use Rattle.icescan_print.specs.Pieces.{named_number, named_signed};

use itoa::write_digits;

/// Puts a piece before the text that begins at a place, and says where it begins.
#[inline(always)]
fn put_before(bytes: &mut [u8], end: usize, piece: &[u8]) -> usize
    requires { (length piece.now ≤ end) × (end ≤ length bytes.old) }
    ensures start { result + length piece.now ≡ end }
    ensures text { drop result bytes.new ≡ piece.now ++ drop end bytes.old }
{
    let start = end - piece.len();
    bytes[start..end].copy_from_slice(piece);
    start
}

/// Puts a long in decimal before the text that begins at a place, and says where it begins.
#[inline(always)]
fn put_digits_before(bytes: &mut [u8], end: usize, n: i64) -> usize
    requires { (20 ≤ end) × (end ≤ length bytes.old) }
    ensures within { result ≤ end }
    ensures start { end ≤ result + 20 }
    ensures text { drop result bytes.new ≡ signed_decimal n ++ drop end bytes.old }
{
    let start = write_digits(n.unsigned_abs(), bytes, end);
    if n >= 0 {
        return start;
    }
    bytes[start - 1] = b'-';
    start - 1
}

/// Puts a name and the number that it is about before the text that begins at a place, and says where they begin.
#[inline(always)]
pub(crate) fn put_number_before(bytes: &mut [u8], end: usize, name: &[u8], n: u64) -> usize
    requires { (length name.now + 20 ≤ end) × (end ≤ length bytes.old) }
    ensures within { result ≤ end }
    ensures start { end ≤ result + (length name.now + 20) }
    ensures text { drop result bytes.new ≡ named_number name.now n ++ drop end bytes.old }
{
    let start = write_digits(n, bytes, end);
    put_before(bytes, start, name)
}

/// Puts a name and the long that it is about before the text that begins at a place, and says where they begin.
#[inline(always)]
pub(crate) fn put_long_before(bytes: &mut [u8], end: usize, name: &[u8], n: i64) -> usize
    requires { (length name.now + 20 ≤ end) × (end ≤ length bytes.old) }
    ensures within { result ≤ end }
    ensures start { end ≤ result + (length name.now + 20) }
    ensures text { drop result bytes.new ≡ named_signed name.now n ++ drop end bytes.old }
{
    let start = put_digits_before(bytes, end, n);
    put_before(bytes, start, name)
}

/// Puts a name and the int that it is about before the text that begins at a place, and says where they begin.
#[inline(always)]
pub(crate) fn put_int_before(bytes: &mut [u8], end: usize, name: &[u8], n: i32) -> usize
    requires { (length name.now + 20 ≤ end) × (end ≤ length bytes.old) }
    ensures within { result ≤ end }
    ensures start { end ≤ result + (length name.now + 20) }
    ensures text { drop result bytes.new ≡ named_signed name.now n ++ drop end bytes.old }
{
    put_long_before(bytes, end, name, i64::from(n))
}
