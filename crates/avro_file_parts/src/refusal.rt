//! Why reading stops.

ghost use Rattle.std.specs.Prelude.{◌≡◌};
ghost use Rattle.avro_file_parts.specs.declared.refusal.Refusal.TheVariants.{Memory};

use std::alloc::{AllocError, AllocFailed};

/// The first fault of values and blocks from left to right, or want of memory.
/// It owns nothing, so that it can be kept and given again.
#[derive(Clone, Copy, Debug, PartialEq, Eq)]
pub enum Refusal {
    /// A number or a run of bytes passes the end. It begins where so many bytes were left.
    Short(usize),
    /// A number does not fit, or a length is negative.
    BadNumber,
    /// A union has no such branch.
    BadUnion,
    /// A text is not UTF-8.
    BadUtf8,
    /// A boolean is neither 0 nor 1.
    BadBoolean,
    /// Arrays and maps hold too many items.
    TooManyItems,
    /// A block does not end in the file's marker.
    BadSync,
    /// A block's objects do not fill it, or run past it, or its count or size is negative.
    BlockSize,
    /// A growth was refused.
    Memory,
}

impl From<AllocError> for Refusal {
    ghost from_gives = { λ _ e. e ≡ Memory };

    fn from(_e: AllocError) -> Refusal {
        Refusal::Memory
    }
}

impl<T: Drop> From<AllocFailed<T>> for Refusal {
    ghost from_gives = { λ _ e. e ≡ Memory };

    fn from(_e: AllocFailed<T>) -> Refusal {
        Refusal::Memory
    }
}
