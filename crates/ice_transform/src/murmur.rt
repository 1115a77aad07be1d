//! Murmur3, x86, 32 bits, seed 0.

ghost use Rattle.std.specs.Prelude.{◌≡◌, ◌<◌};
ghost use Rattle.std.specs.Int.{w32, cast_signed};
ghost use Rattle.ice_transform.specs.Murmur.{hash_after, scrambled, mixed, hash_of, finished, word_of, bucket_of};

fn scramble(word: u32) -> u32
    ensures { result ≡ scrambled word }
{
    word.wrapping_mul(0xcc9e_2d51)
        .rotate_left(15)
        .wrapping_mul(0x1b87_3593)
}

fn mix(hash: u32, word: u32) -> u32
    ensures { result ≡ mixed hash word }
{
    (hash ^ scramble(word))
        .rotate_left(13)
        .wrapping_mul(5)
        .wrapping_add(0xe654_6b64)
}

fn finish(hash: u32) -> u32
    ensures { result ≡ finished hash }
{
    let a = (hash ^ (hash >> 16)).wrapping_mul(0x85eb_ca6b);
    let b = (a ^ (a >> 13)).wrapping_mul(0xc2b2_ae35);
    b ^ (b >> 16)
}

fn word(a: u8, b: u8, c: u8, d: u8) -> u32
    ensures { result ≡ word_of a b c d }
{
    u32::from_le_bytes([a, b, c, d])
}

/// The hash before the last mixing.
fn body(bytes: &[u8]) -> u32
    ensures { result ≡ hash_after 0 bytes.now }
{
    let mut hash = 0u32;
    let mut rest = bytes;
    'words: while let [a, b, c, d, more @ ..] = rest {
        hash = mix(hash, word(*a, *b, *c, *d));
        rest = more;
    }
    match rest {
        [a, b, c, ..] => hash ^ scramble(word(*a, *b, *c, 0)),
        [a, b, ..] => hash ^ scramble(word(*a, *b, 0, 0)),
        [a, ..] => hash ^ scramble(word(*a, 0, 0, 0)),
        [] => hash,
    }
}

/// The hash as 32 bits without a sign.
fn hash_of(bytes: &[u8]) -> u32
    ensures { result ≡ hash_of bytes.now }
{
    let length = (bytes.len() % 0x1_0000_0000) as u32;
    finish(body(bytes) ^ length)
}

/// The hash of the bytes by Murmur3, x86, 32 bits, seed 0.
pub fn murmur3(bytes: &[u8]) -> i32
    ensures { result ≡ cast_signed w32 (hash_of bytes.now) }
{
    hash_of(bytes).cast_signed()
}

/// The bucket of the bytes.
pub fn bucket_of(bytes: &[u8], buckets: u32) -> u32
    requires { 0 < buckets }
    ensures { result ≡ bucket_of buckets bytes.now }
{
    (hash_of(bytes) & 0x7fff_ffff) % buckets
}
