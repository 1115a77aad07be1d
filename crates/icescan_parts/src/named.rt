//! The files that the metadata names itself, but for statistics of snapshots that go.

ghost use Rattle.std.specs.Prelude.{◌≡◌, Some, IfOk, IsErrOf, OnOk};
ghost use Rattle.serde_json.specs.View.{items_view, view};
ghost use Rattle.icescan_parts.specs.Gone.{item_behind, items_kept, names_gone, own_kept, snapshot_in, statistics_kept};
ghost use Rattle.icescan_text.specs.declared.fault.RunFault.{RunFault};

use crate::snapshots::is_gone;
use contract_words::Items;
use icescan_reachable::{FileKind, logged_in, path_in, put_line, unnamed};
use icescan_text::RunFault;
use serde_json::Value;
use std::alloc::Global;

/// The snapshot that an item of an array of statistics names.
fn snapshot_in(item: &Value) -> Option<i64>
    ensures { result ≡ snapshot_in (view item.now) }
{
    item.get("snapshot-id")?.as_i64()
}

/// Whether an item names a snapshot that goes.
fn names_gone(gone: &[i64], item: &Value) -> bool
    ensures { result ≡ names_gone gone.now (view item.now) }
{
    match snapshot_in(item) {
        Some(id) => is_gone(gone, id),
        None => false,
    }
}

/// Puts last the line of the statistics that an item names, if their snapshot stays.
fn put_item(
    lines: &mut Vec<Items<u8>>,
    alloc: Global,
    gone: &[i64],
    item: &Value,
) -> Result<(), RunFault>
    ensures behind { OnOk result (item_behind gone.now lines.old.items (view item.now) ≡ Some lines.new.items) }
    ensures write { IsErrOf result RunFault.Write → ⊥ }
{
    if names_gone(gone, item) {
        return Ok(());
    }
    let path = path_in(item, "statistics-path")?;
    put_line(lines, alloc, FileKind::Statistics, path.as_bytes())?;
    Ok(())
}

/// Puts last the lines of the statistics that items name, of snapshots that stay.
fn put_items(
    lines: &mut Vec<Items<u8>>,
    alloc: Global,
    gone: &[i64],
    items: &Vec<Value>,
) -> Result<(), RunFault>
    ensures behind { OnOk result (items_kept gone.now lines.old.items (items_view items.now.items)
        ≡ Some lines.new.items) }
    ensures write { IsErrOf result RunFault.Write → ⊥ }
{
    'items: for item in items {
        put_item(lines, alloc, gone, item)?;
    }
    Ok(())
}

/// Puts last the lines of the statistics that an array of the metadata names, of snapshots that stay.
fn put_statistics(
    lines: &mut Vec<Items<u8>>,
    alloc: Global,
    gone: &[i64],
    metadata: &Value,
    array: &str,
) -> Result<(), RunFault>
    ensures behind { OnOk result (statistics_kept gone.now array.now (view metadata.now) lines.old.items
        ≡ Some lines.new.items) }
    ensures write { IsErrOf result RunFault.Write → ⊥ }
{
    match metadata.get(array) {
        None | Some(Value::Null) => Ok(()),
        Some(Value::Array(items)) => put_items(lines, alloc, gone, items),
        Some(_) => Err(unnamed()),
    }
}

/// The lines of the metadata at a path and of the files that it names itself, but for statistics of snapshots that go.
#[tactic(auto, unfolding(crate::specs::Gone::own_kept))]
pub fn own_kept(
    alloc: Global,
    gone: &[i64],
    path: &[u8],
    metadata: &Value,
) -> Result<Vec<Items<u8>>, RunFault>
    ensures own { IfOk result (λ lines. own_kept gone.now path.now (view metadata.now) ≡ Some lines.items) }
    ensures write { IsErrOf result RunFault.Write → ⊥ }
{
    let mut lines = logged_in(alloc, path, metadata)?;
    put_statistics(&mut lines, alloc, gone, metadata, "statistics")?;
    put_statistics(&mut lines, alloc, gone, metadata, "partition-statistics")?;
    Ok(lines)
}
