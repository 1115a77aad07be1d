//! How far a value was read.

/// Where a reader of values stands: the bytes to come, and how many items may still come in arrays and maps.
#[derive(Clone, Copy, Debug)]
pub struct Place<'a> {
    pub bytes: &'a [u8],
    pub left: u64,
}
