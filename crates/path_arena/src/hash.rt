//! The hash of a string, by eight bytes at a time.

ghost use Rattle.std.specs.Prelude.{◌≡◌, ◌<◌, ◌^◌, length};
ghost use Rattle.path_arena.specs.Hashing.{hash_of, mixed, hash_bytes, hash_words};

const SEED: u64 = 14_695_981_039_346_656_037;

const FACTOR: u64 = 11_400_714_819_323_198_485;

/// Mixes a word in. The product's high half depends on every bit, and its low half gets a share of that.
fn mix(hash: u64, word: u64) -> u64
    ensures { result ≡ mixed hash word }
{
    let product = (hash ^ word).wrapping_mul(FACTOR);
    product ^ (product >> 32)
}

/// Mixes in what is left of a string, byte by byte.
fn mix_bytes(seed: u64, bytes: &[u8]) -> u64
    ensures { result ≡ hash_bytes seed bytes.now }
{
    let mut hash = seed;
    for byte in bytes {
        hash = mix(hash, *byte as u64);
    }
    hash
}

/// Mixes a string in, in words of eight bytes.
fn mix_words(seed: u64, bytes: &[u8]) -> u64
    ensures { result ≡ hash_words seed bytes.now }
{
    let mut hash = seed;
    let mut rest = bytes;
    while let Some(word) = rest.first_chunk::<8>() {
        hash = mix(hash, u64::from_le_bytes(*word));
        rest = rest.split_at(8).1;
    }
    mix_bytes(hash, rest)
}

/// The hash of a string. Paths often differ in a few bytes at their end alone, so these are mixed twice more.
pub(crate) fn hash_string(bytes: &[u8]) -> u32
    ensures { result ≡ hash_of bytes.now }
{
    let hash = mix(mix_words(SEED, bytes), bytes.len() as u64);
    (mix(hash, SEED) >> 32) as u32
}
