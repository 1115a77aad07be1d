//! What is known of an entry before it is read or written.

ghost use Rattle.std.specs.Prelude.{◌≡◌, map, None};
ghost use Rattle.ice_manifest_reading.specs.Lending.{lent};
ghost use Rattle.ice_state_sections.specs.Entries.{known, known_from, seen};

use ice_manifest_reading::{Entry, LentEntry, Row};

/// What the entry before says of an entry: it lies behind it in its manifest, and has its snapshot or a path like it.
#[derive(Clone, Copy, Debug)]
pub(crate) struct Before<'a> {
    /// None at the first entry.
    pub(crate) position: Option<u64>,
    pub(crate) snapshot_id: i64,
    pub(crate) path: &'a [u8],
}

impl<'a> Before<'a> {
    /// What is known at the first entry of a row.
    fn first(row: &Row) -> Before<'a>
        ensures { seen result ≡ known_from row.now None }
    {
        Before {
            position: None,
            snapshot_id: row.added_snapshot_id,
            path: &[],
        }
    }

    /// What is known behind entries that were read.
    #[tactic(auto, unfolding(crate::specs::Entries::known))]
    pub(crate) fn behind(row: &Row, front: &'a [Entry]) -> Before<'a>
        ensures { seen result ≡ known row.now front.now }
    {
        match front.last() {
            Some(entry) => Before {
                position: Some(entry.position),
                snapshot_id: entry.snapshot_id,
                path: entry.file.path.as_slice(),
            },
            None => Before::first(row),
        }
    }

    /// What is known behind entries that are written.
    #[tactic(auto, unfolding(crate::specs::Entries::known))]
    pub(crate) fn behind_lent(row: &Row, front: &[LentEntry<'a>]) -> Before<'a>
        ensures { seen result ≡ known row.now (map lent front.now) }
    {
        match front.last() {
            Some(entry) => Before {
                position: Some(entry.position),
                snapshot_id: entry.snapshot_id,
                path: entry.path,
            },
            None => Before::first(row),
        }
    }
}
