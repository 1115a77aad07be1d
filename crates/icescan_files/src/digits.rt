//! Bytes from hexadecimal digits.

ghost use Rattle.std.specs.Prelude.{◌≡◌, ◌*◌, Ok, Some, length, option_map, IsTrue};
ghost use Rattle.std.specs.List.{list_all};
ghost use Rattle.contract_words.specs.Outcome.{Gives};
ghost use Rattle.hex.specs.Hex.{is_hex_digit};
ghost use Rattle.icescan_files.specs.Bundles.{byte_of, bytes_of};

use icescan_text::RunFault;
use std::alloc::Global;

/// Whether a byte is a digit, in either case.
fn is_digit(byte: u8) -> bool
    ensures { result ≡ is_hex_digit byte }
{
    byte.is_ascii_hexdigit()
}

/// Whether all of these are digits. None of them ends it, so that many are looked at at once.
fn are_digits(bytes: &[u8]) -> bool
    ensures { result ≡ list_all is_hex_digit bytes.now }
{
    let mut all = true;
    'bytes: for byte in bytes {
        all &= is_digit(*byte);
    }
    all
}

/// The byte of two digits, which are worked out at once. Bit 6 of a digit tells that it is a letter, and the low four
/// bits of a letter, in either case, count from 1.
fn byte_of(high: u8, low: u8) -> u8
    requires high { IsTrue (is_hex_digit high) }
    requires low { IsTrue (is_hex_digit low) }
    ensures { Some result ≡ byte_of high low }
{
    let both = high as u16 + low as u16 * 256;
    let values = (both & 0x0f0f) + (both >> 6 & 0x0101) * 9;
    (values % 16 * 16 + values / 256) as u8
}

/// Fills the room with the bytes that digits name.
fn fill(room: &mut [u8], digits: &[u8])
    requires length { length digits.now ≡ 2 * length room.old }
    requires digits { IsTrue (list_all is_hex_digit digits.now) }
    ensures { Some room.new ≡ bytes_of digits.now }
{
    'bytes: for at in 0..room.len() {
        room[at] = byte_of(digits[2 * at], digits[2 * at + 1]);
    }
}

/// The bytes that digits name. A bundle is digits above all, so they are tested, and then worked out, many at once;
/// `hex` tests in which of three ranges each of them lies, and a plan of a bundle took twice as long so.
pub(crate) fn bytes_from(alloc: Global, digits: &[u8]) -> Result<Option<Vec<u8>>, RunFault>
    ensures { Gives RunFault.Memory (option_map (λ v. v.items)) result (Ok (bytes_of digits.now)) }
{
    if digits.len() % 2 != 0 || !are_digits(digits) {
        return Ok(None);
    }
    let mut bytes = vec![in alloc; 0u8; digits.len() / 2]?;
    fill(bytes.as_mut_slice(), digits);
    Ok(Some(bytes))
}
