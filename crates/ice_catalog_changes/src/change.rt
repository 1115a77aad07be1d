//! What a commit adds to a table, and the names that it takes.

ghost use Rattle.std.specs.Prelude.{◌≡◌, IfOk};

use contract_words::Items;
use ice_manifest::NewFile;
use std::alloc::{AllocError, Global};
use uuid::Uuid;

/// The files that a commit adds.
#[derive(Debug, PartialEq, Drop)]
pub struct Change {
    /// The data files.
    pub files: Items<NewFile>,
    /// The delete files.
    pub deletes: Items<NewFile>,
}

/// The names that a commit takes, and its time.
#[derive(Clone, Copy, Debug, PartialEq, Eq)]
pub struct Ids {
    /// The id of the new snapshot.
    pub snapshot: i64,
    /// What the new manifests and the new list are named by.
    pub uuid: Uuid,
    /// When the commit is made, in milliseconds since 1970-01-01 00:00 UTC.
    pub now_ms: i64,
}

/// One commit of a journal.
#[derive(Debug, PartialEq, Drop)]
pub struct Commit {
    pub change: Change,
    pub ids: Ids,
}

impl Change {
    /// The same change.
    pub fn copy(&self, alloc: Global) -> Result<Change, AllocError>
        ensures { IfOk result (λ copied. copied ≡ self.now) }
    {
        Ok(Change {
            files: copies(alloc, self.files.as_slice())?,
            deletes: copies(alloc, self.deletes.as_slice())?,
        })
    }
}

/// The same files.
fn copies(alloc: Global, files: &[NewFile]) -> Result<Items<NewFile>, AllocError>
    ensures { IfOk result (λ copied. copied ≡ files.now) }
{
    let mut copied = Items::with_capacity(alloc, files.len())?;
    'files: for file in files {
        copied.push(file.copy(alloc)?)?;
    }
    Ok(copied)
}
