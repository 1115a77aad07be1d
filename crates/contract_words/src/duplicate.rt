//! Copies that may be refused memory.

ghost use Rattle.std.specs.Prelude.{◌≡◌, IfOk};

use std::alloc::{AllocError, Global};

/// What can be copied, and is the same as its copy.
pub trait Duplicate: Drop {
    /// The same value. It is refused for want of memory alone.
    fn copy(&self, alloc: Global) -> Result<Self, AllocError>
        ensures { IfOk result (λ copied. copied ≡ self.now) };

    /// The same values. A type whose copy is its bytes copies them in one piece.
    fn copy_slice(values: &[Self], alloc: Global) -> Result<Vec<Self>, AllocError>
        ensures { IfOk result (λ copied. copied.items ≡ values.now) }
    {
        let mut copied = Vec::with_capacity(alloc, values.len())?;
        'values: for value in values {
            copied.push(value.copy(alloc)?)?;
        }
        Ok(copied)
    }
}

impl Duplicate for u8 {
    fn copy(&self, _alloc: Global) -> Result<u8, AllocError> {
        Ok(*self)
    }

    fn copy_slice(values: &[u8], alloc: Global) -> Result<Vec<u8>, AllocError> {
        values.to_vec(alloc)
    }
}

impl Duplicate for i32 {
    fn copy(&self, _alloc: Global) -> Result<i32, AllocError> {
        Ok(*self)
    }

    fn copy_slice(values: &[i32], alloc: Global) -> Result<Vec<i32>, AllocError> {
        values.to_vec(alloc)
    }
}
