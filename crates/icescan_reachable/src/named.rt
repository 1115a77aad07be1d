//! The files that the metadata names itself: older metadata, and statistics.

ghost use Rattle.std.specs.Prelude.{◌≡◌, ◌≢◌, Some, None, IfErr, IfOk, IsErrOf, OnOk, codes};
ghost use Rattle.serde_json.specs.View.{items_view, view};
ghost use Rattle.icescan_reachable.specs.Named.{items_behind, logged_in, named_behind, own_lines, path_in};
ghost use Rattle.icescan_reachable.specs.Refused.{IsFor, unnamed};

use crate::kind::{FileKind, put_line};
use contract_words::Items;
use ice_meta::{Member, MetaFault};
use icescan_text::RunFault;
use serde_json::Value;
use std::alloc::Global;

/// Why metadata is refused in which an item of an array names no file.
pub fn unnamed() -> RunFault
    ensures write { result ≢ RunFault.Write }
    ensures is { result ≡ unnamed }
{
    RunFault::Metadata(MetaFault::WrongKind(Member::Element))
}

/// The path that an item names by a member.
pub fn path_in<'a>(item: &'a Value, member: &str) -> Result<&'a str, RunFault>
    ensures path { IfOk result (λ path. path_in member.now (view item.now) ≡ Some path.now) }
    ensures write { IsErrOf result RunFault.Write → ⊥ }
    ensures causes { IfErr result (IsFor unnamed (path_in member.now (view item.now) ≡ None)) }
{
    match item.get(member) {
        Some(value) => match value.as_str() {
            Some(path) => Ok(path),
            None => Err(unnamed()),
        },
        None => Err(unnamed()),
    }
}

/// Puts last the lines of the files that items name by a member.
fn put_items(
    lines: &mut Vec<Items<u8>>,
    alloc: Global,
    items: &Vec<Value>,
    member: &str,
    kind: FileKind,
) -> Result<(), RunFault>
    ensures behind { OnOk result (items_behind kind member.now lines.old.items (items_view items.now.items)
        ≡ Some lines.new.items) }
    ensures write { IsErrOf result RunFault.Write → ⊥ }
    ensures causes { IfErr result (IsFor unnamed (items_behind kind member.now lines.old.items
        (items_view items.now.items) ≡ None)) }
{
    'items: for item in items {
        let path = path_in(item, member)?;
        put_line(lines, alloc, kind, path.as_bytes())?;
    }
    Ok(())
}

/// Puts last the lines of the files that the items of an array of the metadata name, where it has that array.
fn put_named(
    lines: &mut Vec<Items<u8>>,
    alloc: Global,
    metadata: &Value,
    array: &str,
    member: &str,
    kind: FileKind,
) -> Result<(), RunFault>
    ensures behind { OnOk result (named_behind array.now member.now kind (view metadata.now) lines.old.items
        ≡ Some lines.new.items) }
    ensures write { IsErrOf result RunFault.Write → ⊥ }
    ensures causes { IfErr result (IsFor unnamed (named_behind array.now member.now kind (view metadata.now)
        lines.old.items ≡ None)) }
{
    match metadata.get(array) {
        None | Some(Value::Null) => Ok(()),
        Some(Value::Array(items)) => put_items(lines, alloc, items, member, kind),
        Some(_) => Err(unnamed()),
    }
}

/// Puts last the lines of the files of statistics that the metadata names.
fn put_statistics(
    lines: &mut Vec<Items<u8>>,
    alloc: Global,
    metadata: &Value,
    array: &str,
) -> Result<(), RunFault>
    ensures behind { OnOk result (named_behind array.now (codes "statistics-path") FileKind.Statistics
        (view metadata.now) lines.old.items ≡ Some lines.new.items) }
    ensures write { IsErrOf result RunFault.Write → ⊥ }
    ensures causes { IfErr result (IsFor unnamed (named_behind array.now (codes "statistics-path") FileKind.Statistics
        (view metadata.now) lines.old.items ≡ None)) }
{
    let kind = FileKind::Statistics;
    put_named(lines, alloc, metadata, array, "statistics-path", kind)
}

/// The lines of the metadata at a path and of the files that its log names.
pub fn logged_in(alloc: Global, path: &[u8], metadata: &Value) -> Result<Vec<Items<u8>>, RunFault>
    ensures own { IfOk result (λ lines. logged_in path.now (view metadata.now) ≡ Some lines.items) }
    ensures write { IsErrOf result RunFault.Write → ⊥ }
    ensures causes { IfErr result (IsFor unnamed (logged_in path.now (view metadata.now) ≡ None)) }
{
    let kind = FileKind::Metadata;
    let mut lines = Vec::new(alloc);
    put_line(&mut lines, alloc, kind, path)?;
    put_named(
        &mut lines,
        alloc,
        metadata,
        "metadata-log",
        "metadata-file",
        kind,
    )?;
    Ok(lines)
}

/// The lines of the metadata at a path and of the files that it names itself.
#[tactic(auto, unfolding(crate::specs::Named::own_lines))]
pub fn own_lines(alloc: Global, path: &[u8], metadata: &Value) -> Result<Vec<Items<u8>>, RunFault>
    ensures own { IfOk result (λ lines. own_lines path.now (view metadata.now) ≡ Some lines.items) }
    ensures write { IsErrOf result RunFault.Write → ⊥ }
    ensures causes { IfErr result (IsFor unnamed (own_lines path.now (view metadata.now) ≡ None)) }
{
    let mut lines = logged_in(alloc, path, metadata)?;
    put_statistics(&mut lines, alloc, metadata, "statistics")?;
    put_statistics(&mut lines, alloc, metadata, "partition-statistics")?;
    Ok(lines)
}
