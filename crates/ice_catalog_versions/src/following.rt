//! The state after a commit: the next metadata, and the files with those that are added.

ghost use Rattle.std.specs.Prelude.{◌≡◌, IfOk, OnOk};
ghost use Rattle.ice_meta.specs.Committing.{CanFollow, next_metadata};
ghost use Rattle.ice_catalog_versions.specs.Adding.{operation_of, snapshot_of};
ghost use Rattle.ice_catalog_versions.specs.States.{seen, with_files};

use crate::paths::list_path;
use crate::world::World;
use contract_words::{Items, Text};
use ice_catalog_changes::{Change, Ids};
use ice_meta::{Metadata, NewSnapshot, Operation};
use std::alloc::{AllocError, Global};

/// What the change does to the table.
fn operation_of(change: &Change) -> Operation
    ensures { result ≡ operation_of change.now.files change.now.deletes }
{
    if change.deletes.as_slice().is_empty() {
        Operation::Append
    } else if change.files.as_slice().is_empty() {
        Operation::Delete
    } else {
        Operation::Overwrite
    }
}

/// The metadata after the commit, in the room of the metadata before it.
pub fn into_next_metadata(
    alloc: Global,
    metadata: Metadata,
    change: &Change,
    ids: &Ids,
) -> Result<Metadata, AllocError>
    requires { CanFollow metadata.table
        (snapshot_of metadata.table (record { change = change.now; ids = ids.now })) }
    ensures { IfOk result (λ next. seen next ≡ next_metadata (seen metadata)
        (snapshot_of metadata.table (record { change = change.now; ids = ids.now }))) }
{
    let added = NewSnapshot {
        id: ids.snapshot,
        timestamp_ms: ids.now_ms,
        manifest_list: list_path(alloc, metadata.table(), ids)?,
        operation: operation_of(change),
    };
    match metadata.into_next(alloc, &added) {
        Ok(next) => Ok(next),
        // A table that can have the snapshot refuses it when out of memory alone.
        Err(_) => Err(AllocError),
    }
}

/// Gives the path of each file its bytes, whatever it had before.
pub fn put_files(
    alloc: Global,
    world: &mut World,
    files: &[(Text, Items<u8>)],
) -> Result<(), AllocError>
    ensures { OnOk result (world.new ≡ with_files world.old files.now) }
{
    'files: for file in files {
        world.put(file.0.as_str(), file.1.copy(alloc)?.into_vec())?;
    }
    Ok(())
}
