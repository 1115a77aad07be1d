//! The bits by which the walk of a string goes down a tree.

ghost use Rattle.std.specs.Prelude.{◌≡◌, ◌<◌, ◌==◌};
ghost use Rattle.std.specs.Int.{bit_at};
ghost use Rattle.path_arena.specs.Hashing.{hash_of};
ghost use Rattle.path_arena.specs.Trees.{turns_right};

/// Whether a bit of a number is set, counted from the lowest on.
fn is_set(number: usize, bit: usize) -> bool
    requires { bit < 64 }
    ensures { result ≡ (bit_at number bit == 1) }
{
    number >> bit & 1 == 1
}

/// Whether the walk of a string turns right at a depth. It asks for the bits of the hash, which mostly part strings at
/// once, then for those of the length, and then for the string's own. So a string of n bytes walks at most 48 + 8 n
/// steps, whatever the other strings are.
pub(crate) fn goes_right(hash: u32, bytes: &[u8], depth: usize) -> bool
    requires { hash ≡ hash_of bytes.now }
    ensures { result ≡ turns_right bytes.now depth }
{
    if depth < 32 {
        return is_set(hash as usize, 31 - depth);
    }
    if depth < 48 {
        return is_set(bytes.len(), depth - 32);
    }
    let bit = depth - 48;
    match bytes.get(bit / 8) {
        Some(byte) => is_set(*byte as usize, bit % 8),
        None => false,
    }
}
