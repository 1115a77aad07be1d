//! Decimal numbers in bytes.

ghost use Rattle.std.specs.Prelude.{◌≡◌};
ghost use Rattle.ice_manifest_fields.specs.Decimals.{is_redundant as redundant, shortest as shortest_of};

/// Whether a first byte says nothing but the sign, which the next byte says too.
fn is_redundant(first: u8, next: u8) -> bool
    ensures { result ≡ redundant first next }
{
    (first == 0x00 && next < 0x80) || (first == 0xff && !(next < 0x80))
}

/// The bytes of a number in two's complement, the highest byte first, without redundant ones at their front. One byte
/// always stays.
pub fn shortest(bytes: &[u8]) -> &[u8]
    ensures { result.now ≡ shortest_of bytes.now }
{
    let mut rest = bytes;
    'signs: while rest.len() > 1 && is_redundant(rest[0], rest[1]) {
        rest = &rest[1..];
    }
    rest
}
