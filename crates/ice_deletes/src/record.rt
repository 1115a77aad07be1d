//! What the index is told of a file.

use ice_value::{Cell, FileContent};

/// A data file or a delete file, as the rules of applying see it. Its number is its place among the records.
#[derive(Clone, Copy, Debug)]
pub struct Record<'a> {
    /// What the file holds. Data files are found by no lookup.
    pub content: FileContent,
    /// The partition spec of the file.
    pub spec_id: i32,
    /// Whether that spec partitions nothing.
    pub unpartitioned: bool,
    /// The partition values.
    pub tuple: &'a [Cell],
    /// The sequence number, inherited already.
    pub sequence_number: u64,
    /// The path of the one data file that it names, if it names one. It counts for position delete files alone.
    pub referenced: Option<&'a [u8]>,
}
