//! Statuses of manifest entries.

/// What became of an entry's file in its snapshot.
#[derive(Clone, Copy, Debug, PartialEq, Eq)]
pub enum Status {
    Existing,
    Added,
    Deleted,
}
