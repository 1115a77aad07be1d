//! The snapshots that stay.

ghost use Rattle.std.specs.Prelude.{◌≡◌, ◌++◌, IfOk, IsErrOf, OnOk};
ghost use Rattle.icescan_parts.specs.Gone.{is_gone, kept, unless};
ghost use Rattle.icescan_text.specs.declared.fault.RunFault.{RunFault};

use contract_words::Text;
use ice_meta::{Metadata, Snapshot, Target};
use icescan_text::RunFault;
use std::alloc::{AllocError, Global};

/// Whether a snapshot is among those that go.
pub fn is_gone(gone: &[i64], id: i64) -> bool
    ensures { result ≡ is_gone gone.now id }
{
    gone.contains(&id)
}

/// Nothing, where the metadata has each of these snapshots; else why it is refused.
pub fn find_all(metadata: &Metadata, gone: &[i64]) -> Result<(), RunFault>
    ensures write { IsErrOf result RunFault.Write → ⊥ }
{
    'gone: for id in gone {
        metadata.resolve(&Target::Snapshot(*id))?;
    }
    Ok(())
}

/// The same text.
fn copy_text(alloc: Global, text: &Option<Text>) -> Result<Option<Text>, AllocError>
    ensures { IfOk result (λ copied. copied ≡ text.now) }
{
    match text {
        Some(text) => Ok(Some(text.copy(alloc)?)),
        None => Ok(None),
    }
}

/// The same snapshot.
fn copy_snapshot(alloc: Global, snapshot: &Snapshot) -> Result<Snapshot, AllocError>
    ensures { IfOk result (λ copied. copied ≡ snapshot.now) }
{
    Ok(Snapshot {
        id: snapshot.id,
        parent_id: snapshot.parent_id,
        sequence_number: snapshot.sequence_number,
        timestamp_ms: snapshot.timestamp_ms,
        manifest_list: copy_text(alloc, &snapshot.manifest_list)?,
        operation: copy_text(alloc, &snapshot.operation)?,
        schema_id: snapshot.schema_id,
    })
}

/// Puts a snapshot last, if it stays.
fn put_kept(
    stay: &mut Vec<Snapshot>,
    alloc: Global,
    gone: &[i64],
    snapshot: &Snapshot,
) -> Result<(), AllocError>
    ensures { OnOk result (stay.new.items ≡ stay.old.items ++ unless (is_gone gone.now snapshot.now.id) snapshot.now) }
{
    if !is_gone(gone, snapshot.id) {
        stay.push(copy_snapshot(alloc, snapshot)?)?;
    }
    Ok(())
}

/// The snapshots that stay.
pub fn kept_snapshots(
    alloc: Global,
    gone: &[i64],
    snapshots: &[Snapshot],
) -> Result<Vec<Snapshot>, AllocError>
    ensures { IfOk result (λ stay. stay.items ≡ kept gone.now snapshots.now) }
{
    let mut stay = Vec::new(alloc);
    'snapshots: for snapshot in snapshots {
        put_kept(&mut stay, alloc, gone, snapshot)?;
    }
    Ok(stay)
}
