//! What a commit is given.

use ice_value::SequenceNumber;

/// What a commit is given once it is made.
#[derive(Clone, Copy, Debug, PartialEq, Eq)]
pub struct Receipt {
    /// The number of the new version: how many commits its journal has.
    pub number: u64,
    /// The id of the new snapshot.
    pub snapshot: i64,
    /// The table's new last sequence number.
    pub sequence: SequenceNumber,
}
