//! Commits to tables whose files are handed in, one after the other, by who reads them.

ghost use Rattle.std.specs.Prelude.{◌≡◌, ◌++◌, IfOk, OnOk};
ghost use Rattle.contract_words.specs.Outcome.{Gives};
ghost use Rattle.icescan_c_commits.specs.Handed.{Commits, asked, first_wanted, manifests_in, prepared, took};

use crate::files::CommitFiles;
use contract_words::{Items, Text};
use ice_catalog_changes::{Change, Ids};
use ice_catalog_versions::{Prepared, Version, prepare_in_place};
use ice_manifest_reading::{ListFault, read_list};
use ice_meta::{Metadata, Target};
use icescan_c_requests::HandedFiles;
use icescan_text::{ChangeKind, RunFault, read_change};
use std::alloc::{AllocError, Global};

/// A commit that is asked for, and what is handed in of the table: the manifest list of its current snapshot, if there
/// is one, and then the manifests that this names.
#[derive(Drop)]
pub struct HandedCommit {
    metadata: Items<u8>,
    change: Change,
    ids: Ids,
    /// What is handed in of the table.
    pub files: HandedFiles,
}

/// The path of the manifest list of the current snapshot of the table whose metadata these are the bytes of, if there
/// is one.
#[tactic(auto, unfolding(crate::specs::Handed::first_wanted))]
fn first_wanted(alloc: Global, metadata: &[u8]) -> Result<Items<Text>, RunFault>
    ensures { Gives RunFault.Memory (λ paths. paths) result (first_wanted metadata.now) }
{
    let metadata = Metadata::read(alloc, metadata)?;
    let mut paths = Items::new(alloc);
    if let Ok(list) = metadata.manifest_list(&Target::Main) {
        paths.push(list.copy(alloc)?)?;
    }
    Ok(paths)
}

/// Puts the paths of the manifests last that a manifest list names; none where it can't be read.
fn push_manifests(alloc: Global, paths: &mut Items<Text>, list: &[u8]) -> Result<(), AllocError>
    ensures { OnOk result (paths.new ≡ paths.old ++ manifests_in list.now) }
{
    let rows = match read_list(alloc, list) {
        Ok(rows) => rows,
        Err(ListFault::Memory) => return Err(AllocError),
        Err(_) => return Ok(()),
    };
    'rows: for row in &rows {
        paths.push(row.path.copy(alloc)?)?;
    }
    Ok(())
}

impl HandedCommit {
    /// A commit of the change that this text says, to the table whose metadata these are the bytes of. The refusal is
    /// `Change`, or `Metadata` where they can't be read; or `Memory`.
    #[tactic(auto, unfolding(crate::specs::Handed::asked))]
    pub fn new(
        alloc: Global,
        metadata: &[u8],
        change: &[u8],
        ids: Ids,
    ) -> Result<HandedCommit, RunFault>
        ensures { Gives RunFault.Memory (λ commit. commit) result (asked metadata.now change.now ids) }
    {
        let change = read_change(alloc, change, ChangeKind::RowDelta)?;
        let wanted = first_wanted(alloc, metadata)?;
        Ok(HandedCommit {
            metadata: Items::from_vec(Vec::from_slice(alloc, metadata)?),
            change,
            ids,
            files: HandedFiles::new(alloc, wanted),
        })
    }

    /// The commit with the next file, which has these bytes; itself where each was handed in.
    #[tactic(auto, unfolding(crate::specs::Handed::took))]
    pub fn take(self, alloc: Global, bytes: &[u8]) -> Result<HandedCommit, AllocError>
        ensures { IfOk result (λ commit. commit ≡ took self bytes.now) }
    {
        let HandedCommit {
            metadata,
            change,
            ids,
            mut files,
        } = self;
        if files.take(alloc, bytes)? {
            push_manifests(alloc, &mut files.wanted, bytes)?;
        }
        Ok(HandedCommit {
            metadata,
            change,
            ids,
            files,
        })
    }

    /// The commit, prepared on what was handed in.
    #[tactic(auto, unfolding(crate::specs::Handed::prepared))]
    fn prepared(self, alloc: Global) -> Result<Prepared, RunFault>
        ensures { Gives RunFault.Memory (λ commit. commit) result (prepared self) }
    {
        let HandedCommit {
            metadata,
            change,
            ids,
            files,
        } = self;
        let base = Version::open(alloc, metadata.as_slice(), files.into_kept())?;
        drop(metadata);
        Ok(prepare_in_place(alloc, base, &change, ids)?)
    }

    /// What the commit writes, prepared on what was handed in. A file that was not is taken for one that is not there.
    /// The refusal is `Metadata` where the current snapshot is not there, or `Prepare`; or `Memory`.
    pub fn prepare(self, alloc: Global) -> Result<CommitFiles, RunFault>
        ensures { Commits self result }
    {
        let prepared = self.prepared(alloc)?;
        Ok(CommitFiles::of(alloc, &prepared)?)
    }
}
