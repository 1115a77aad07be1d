//! Which commit an entry came from.

ghost use Rattle.std.specs.Prelude.{◌≡◌};
ghost use Rattle.ice_manifest_reading.specs.Lending.{lent};
ghost use Rattle.ice_state_entries.specs.CameFrom.{origin_in};

use ice_manifest_reading::LentEntry;
use ice_value::SequenceNumber;
use std::marker::Model;

/// What an entry says of the commits that it came from: the same in nearly all entries of a manifest.
#[derive(Clone, Copy, PartialEq)]
pub(crate) struct Origin {
    pub(crate) snapshot_id: i64,
    pub(crate) sequence_number: SequenceNumber,
    pub(crate) file_sequence_number: Option<SequenceNumber>,
}

impl Model for Origin {
    ghost use Rattle.ice_state_entries.specs.CameFrom.{CameFrom};

    ghost Value = { CameFrom };

    ghost view = { λ o. record {
      snapshot_id = o.snapshot_id;
      sequence_number = o.sequence_number;
      file_sequence_number = o.file_sequence_number;
    } };

    ghost inverse = { λ o. record {
      snapshot_id = o.snapshot_id;
      sequence_number = o.sequence_number;
      file_sequence_number = o.file_sequence_number;
    } };
}

impl Origin {
    /// That of an entry.
    pub(crate) fn new(entry: &LentEntry<'_>) -> Origin
        ensures { result ≡ origin_in (lent entry.now) }
    {
        Origin {
            snapshot_id: entry.snapshot_id,
            sequence_number: entry.sequence_number,
            file_sequence_number: entry.file_sequence_number,
        }
    }
}
