//! How many entries of each status a manifest has, and how many rows their files.

ghost use Rattle.std.specs.Prelude.{◌≡◌, ◌<◌, ◌+◌, ◌^◌, ℕ, []};
ghost use Rattle.ice_manifest_reading.specs.Counted.{AreWithin, IsWithin, with_entry, with_file};
ghost use Rattle.ice_manifest_reading.specs.Tallying.{tallies_in, tally_of};

use crate::status::Status;

/// Entries of one status, and the rows of the files that they are about.
#[derive(Clone, Copy, Debug, PartialEq, Eq)]
pub struct Tally {
    /// How many entries there are.
    pub files: u64,
    /// How many rows their files have, as the entries say. A file whose entry says no number has none.
    pub rows: i128,
}

/// The entries of a manifest by their status.
#[derive(Clone, Copy, Debug, PartialEq, Eq)]
pub struct Tallies {
    pub added: Tally,
    pub existing: Tally,
    pub deleted: Tally,
}

/// What is told of the live entries of a manifest, and how many entries it has.
#[derive(Drop)]
pub struct Tallied<T> {
    /// What is told of each live entry, in the order of their positions.
    pub told: Vec<T>,
    /// All entries by their status, also deleted ones.
    pub tallies: Tallies,
}

/// What counts of an entry: its status, and how many rows its file has.
#[derive(Clone, Copy, Debug)]
pub(crate) struct Counted {
    pub(crate) status: Status,
    pub(crate) rows: i64,
}

impl Tally {
    /// Of no entry.
    fn none() -> Tally
        ensures { result ≡ tally_of [] }
    {
        Tally { files: 0, rows: 0 }
    }

    /// Counts an entry, whose file has this many rows.
    fn count(&mut self, rows: i64)
        requires { (n : ℕ) × (n + 1 < 2 ^ 64) × IsWithin n self.old }
        ensures { self.new ≡ with_file rows self.old }
    {
        self.files += 1;
        self.rows += rows as i128;
    }
}

impl Tallies {
    /// Of no entry.
    pub(crate) fn none() -> Tallies
        ensures { result ≡ tallies_in [] }
    {
        Tallies {
            added: Tally::none(),
            existing: Tally::none(),
            deleted: Tally::none(),
        }
    }

    /// Counts an entry.
    pub(crate) fn count(&mut self, entry: Counted)
        requires { (n : ℕ) × (n + 1 < 2 ^ 64) × AreWithin n self.old }
        ensures { self.new ≡ with_entry entry self.old }
    {
        match entry.status {
            Status::Added => self.added.count(entry.rows),
            Status::Existing => self.existing.count(entry.rows),
            Status::Deleted => self.deleted.count(entry.rows),
        }
    }
}
