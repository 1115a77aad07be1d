//! What a value looks like, as its `Debug` writes it.

use std::alloc::{AllocError, Global};
use std::fmt::Debug;

/// What a value looks like.
fn shown<T: Debug>(alloc: Global, value: &T) -> Result<String, AllocError> {
    format!(in alloc; "{value:?}")
}

/// Whether a value looks like this.
pub fn looks<T: Debug>(alloc: Global, value: &T, look: &str) -> bool {
    match shown(alloc, value) {
        Ok(text) => text.as_str() == look,
        Err(_) => false,
    }
}
