//! Why a snapshot does not follow another by appends alone.

/// Why a snapshot does not follow another by appends alone.
#[derive(Clone, Copy, Debug, PartialEq, Eq)]
pub enum LineageFault {
    /// The snapshot of this id, after the earlier one, is no append.
    NotAppended(i64),
    /// The earlier snapshot is no ancestor of the later one.
    NotAncestor,
}
