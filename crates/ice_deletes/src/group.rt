//! The four groups of delete files.

ghost use Rattle.std.specs.Prelude.{◌≡◌};
ghost use Rattle.ice_deletes.specs.Keys.{key_of};
ghost use Rattle.ice_deletes.specs.Groups.{is_in};

use crate::record::Record;
use ice_value::FileContent;

/// Delete files that are looked up alike.
#[derive(Clone, Copy, Debug)]
pub enum Group {
    /// Position delete files that name no data file.
    Positions,
    /// Position delete files that name one.
    Referenced,
    /// Equality delete files of specs that partition something.
    Equalities,
    /// Equality delete files of unpartitioned specs, which reach every partition.
    Everywhere,
}

impl Group {
    /// Whether the file is one of these.
    pub fn holds(self, file: &Record) -> bool
        ensures { result ≡ is_in self (key_of file.now) }
    {
        match (self, file.content) {
            (Group::Positions, FileContent::PositionDeletes) => file.referenced.is_none(),
            (Group::Referenced, FileContent::PositionDeletes) => file.referenced.is_some(),
            (Group::Equalities, FileContent::EqualityDeletes) => !file.unpartitioned,
            (Group::Everywhere, FileContent::EqualityDeletes) => file.unpartitioned,
            _ => false,
        }
    }
}
