//! What data files and delete files hold.

/// What a file of a table holds.
#[derive(Clone, Copy, Debug, PartialEq, Eq)]
pub enum FileContent {
    /// Rows.
    Data,
    /// The places of deleted rows in other files.
    PositionDeletes,
    /// Values of rows that are deleted wherever they stand.
    EqualityDeletes,
}
