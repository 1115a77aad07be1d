//! Why a change can't be committed.

ghost use Rattle.std.specs.Prelude.{◌≡◌};
ghost use Rattle.ice_catalog_changes.specs.declared.fault.PrepareFault.TheVariants.{Memory};

use contract_words::Text;
use std::alloc::{AllocError, AllocFailed};

/// Why a change can't be committed to a version. Where several reasons stand, the first of the order `Empty`,
/// `SnapshotTaken`, `SequenceEnd`, `PathTwice`, `BadFile`, `NoSuchSpec`, `WrongTuple`, `BaseBad`, `PathTaken`,
/// `TooManyRows`, `OutOfOrder` is answered, with the least of its paths or ids.
#[derive(Debug, PartialEq, Drop)]
pub enum PrepareFault {
    /// The table has a snapshot of the commit's snapshot id, or the id is -1, which stands for none.
    SnapshotTaken,
    /// This path is live in the current snapshot.
    PathTaken(Text),
    /// The change has this path twice.
    PathTwice(Text),
    /// The change has no file.
    Empty,
    /// No partition spec has this id.
    NoSuchSpec(i32),
    /// The partition values of the file at this path don't fit its spec.
    WrongTuple(Text),
    /// The table's last sequence number is the last of all.
    SequenceEnd,
    /// The current snapshot's list or manifest at this path is absent or can't be read.
    BaseBad(Text),
    /// A growth was refused.
    Memory,
    /// The file at this path can't be one of a table, or not of its list in the change.
    BadFile(Text),
    /// The new list, or the change, is too long.
    TooManyRows,
    /// The commit's time is before the newest entry of the table's snapshot log.
    OutOfOrder,
}

impl From<AllocError> for PrepareFault {
    ghost from_gives = { λ _ e. e ≡ Memory };

    fn from(_e: AllocError) -> PrepareFault {
        PrepareFault::Memory
    }
}

impl<T: Drop> From<AllocFailed<T>> for PrepareFault {
    ghost from_gives = { λ _ e. e ≡ Memory };

    fn from(_e: AllocFailed<T>) -> PrepareFault {
        PrepareFault::Memory
    }
}
