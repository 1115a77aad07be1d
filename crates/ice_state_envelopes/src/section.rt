//! Sections: what one row of a scan gave, as bytes.

/// A row of the scan, and the bytes that say what it gave.
#[derive(Clone, Copy, Debug)]
pub struct Section<'a> {
    pub row: u64,
    pub body: &'a [u8],
}
