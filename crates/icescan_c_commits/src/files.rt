//! The files of a commit.

ghost use Rattle.std.specs.Prelude.{◌≡◌, IfOk};
ghost use Rattle.icescan_c_commits.specs.Next.{AreOf, IsNextMetadata};

use contract_words::{Items, Text};
use ice_catalog_versions::Prepared;
use std::alloc::{AllocError, Global};

/// What a commit writes: the files that it adds, each with its path, and the metadata file that names them.
#[derive(Drop)]
pub struct CommitFiles {
    /// The new manifests, and the new manifest list.
    pub added: Items<(Text, Items<u8>)>,
    /// The bytes of the new metadata file.
    pub metadata: Items<u8>,
}

/// The same files.
fn copied_files(
    alloc: Global,
    files: &[(Text, Items<u8>)],
) -> Result<Items<(Text, Items<u8>)>, AllocError>
    ensures { IfOk result (λ copied. copied ≡ files.now) }
{
    let mut copied = Items::new(alloc);
    'files: for file in files {
        copied.push((file.0.copy(alloc)?, file.1.copy(alloc)?))?;
    }
    Ok(copied)
}

/// The bytes of the metadata file after a commit.
fn next_metadata(alloc: Global, commit: &Prepared) -> Result<Items<u8>, AllocError>
    ensures { IfOk result (IsNextMetadata commit.now) }
{
    let bytes = commit.version().metadata().write(alloc)?;
    Ok(Items::from_vec(bytes))
}

impl CommitFiles {
    /// What a commit that is prepared writes.
    pub(crate) fn of(alloc: Global, commit: &Prepared) -> Result<CommitFiles, AllocError>
        ensures { IfOk result (AreOf commit.now) }
    {
        Ok(CommitFiles {
            added: copied_files(alloc, commit.files())?,
            metadata: next_metadata(alloc, commit)?,
        })
    }
}
