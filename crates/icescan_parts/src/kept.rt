//! The lines of the files that a table reaches without some of its snapshots.

ghost use Rattle.std.specs.Prelude.{◌≡◌, IfOk, IsErrOf};
ghost use Rattle.ice_meta.specs.Targets.{described};
ghost use Rattle.icescan_parts.specs.Kept.{AreLinesKept};
ghost use Rattle.icescan_text.specs.declared.fault.RunFault.{RunFault};

use crate::named::own_kept;
use crate::snapshots::kept_snapshots;
use contract_words::Items;
use ice_desk::Files;
use ice_meta::Metadata;
use icescan_reachable::{gather_rows, put_in_order, put_lists, put_manifests};
use icescan_text::RunFault;
use std::alloc::Global;

/// The lines of the files that this metadata reaches, which is at a path, without the snapshots that go.
pub fn lines_kept<F: Files>(
    alloc: Global,
    files: &F,
    gone: &[i64],
    path: &str,
    metadata: &Metadata,
) -> Result<Vec<Items<u8>>, RunFault>
    ensures write { IsErrOf result RunFault.Write → ⊥ }
    ensures given { IfOk result (λ lines. AreLinesKept (F.gives files.now) gone.now path.now
        (described metadata.now.json metadata.now.table) lines.items) }
{
    let all = metadata.table().snapshots.as_slice();
    let snapshots = kept_snapshots(alloc, gone, all)?;
    let mut lines = own_kept(alloc, gone, path.as_bytes(), metadata.json())?;
    put_lists(&mut lines, alloc, &snapshots)?;
    let rows = gather_rows(alloc, files, &snapshots)?;
    put_manifests(alloc, files, &rows, &mut lines)?;
    put_in_order(&mut lines)?;
    Ok(lines)
}
