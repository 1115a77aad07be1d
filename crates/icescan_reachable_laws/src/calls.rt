//! Public calls of `icescan_reachable` once more, each under the one clause that its wrong implementations turn, so
//! that these can be tried cheaply.

ghost use Rattle.std.specs.Prelude.{[], IfOk, OnOk};
ghost use Rattle.icescan_reachable.specs.Given.{AreManifestsBehind, AreRowsBehind};

use contract_words::Items;
use ice_desk::Files;
use ice_manifest_reading::Row;
use ice_meta::Table;
use icescan_reachable::{gather_rows, put_manifests};
use icescan_text::RunFault;
use std::alloc::Global;

/// The rows of the manifest lists of all snapshots of a table.
pub fn rows_of_table<F: Files>(
    alloc: Global,
    files: &F,
    table: &Table,
) -> Result<Vec<Row>, RunFault>
    ensures { IfOk result (λ rows. AreRowsBehind (F.gives files.now) [] table.now.snapshots rows.items) }
{
    let snapshots = table.snapshots.as_slice();
    gather_rows(alloc, files, snapshots)
}

/// Puts last the lines of the manifests of these rows and of the files of their live entries.
pub fn put_files<F: Files>(
    alloc: Global,
    files: &F,
    rows: &[Row],
    lines: &mut Vec<Items<u8>>,
) -> Result<(), RunFault>
    ensures { OnOk result (AreManifestsBehind (F.gives files.now) lines.old.items rows.now lines.new.items) }
{
    put_manifests(alloc, files, rows, lines)
}
