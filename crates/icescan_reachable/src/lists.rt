//! The manifest lists of snapshots, and their rows.

ghost use Rattle.std.specs.Prelude.{◌≡◌, ◌⊎◌, ◌++◌, [], List, Some, None, IfErr, IfOk, IsErrOf, OnOk};
ghost use Rattle.ice_manifest_reading.specs.Lists.{in_order};
ghost use Rattle.ice_manifest_reading.specs.declared.row.Row.{Row};
ghost use Rattle.icescan_reachable.specs.Given.{AreRowsBehind, lists_behind};
ghost use Rattle.icescan_reachable.specs.Refused.{IsFor, IsOfList, IsOfSnapshot, LacksList, unlisted};
ghost use Rattle.icescan_text.specs.Reads.{AreRowsGiven};

use crate::kind::{FileKind, put_line};
use contract_words::Items;
use ice_desk::Files;
use ice_manifest_reading::{Row, read_list};
use ice_meta::{Member, MetaFault, Snapshot};
use icescan_text::{RunFault, read_file};
use std::alloc::{AllocError, Global};

/// The path of a snapshot's manifest list.
fn list_of(snapshot: &Snapshot) -> Result<&str, RunFault>
    ensures list { IfOk result (λ list. snapshot.now.manifest_list ≡ Some list.now) }
    ensures write { IsErrOf result RunFault.Write → ⊥ }
    ensures causes { IfErr result (IsFor unlisted (snapshot.now.manifest_list ≡ None)) }
{
    match &snapshot.manifest_list {
        Some(list) => Ok(list.as_str()),
        None => Err(RunFault::Metadata(MetaFault::Missing(Member::ManifestList))),
    }
}

/// Puts last the lines of the manifest lists of these snapshots.
pub fn put_lists(
    lines: &mut Vec<Items<u8>>,
    alloc: Global,
    snapshots: &[Snapshot],
) -> Result<(), RunFault>
    ensures behind { OnOk result (lists_behind snapshots.now lines.old.items ≡ Some lines.new.items) }
    ensures write { IsErrOf result RunFault.Write → ⊥ }
    ensures causes { IfErr result (IsFor unlisted (LacksList snapshots.now)) }
{
    'snapshots: for snapshot in snapshots {
        let list = list_of(snapshot)?;
        put_line(lines, alloc, FileKind::List, list.as_bytes())?;
    }
    Ok(())
}

/// Puts rows in the order of their paths, equal ones once.
fn put_in_order(rows: &mut Vec<Row>) -> Result<(), AllocError>
    ensures { OnOk result (rows.new.items ≡ in_order rows.old.items) }
{
    rows.sort_by(|a, b| a.path.as_bytes().cmp(b.path.as_bytes()))?;
    rows.dedup();
    Ok(())
}

/// Puts rows among others, in the order of their paths, equal ones once.
fn put_more(rows: &mut Vec<Row>, mut more: Vec<Row>) -> Result<(), AllocError>
    ensures { OnOk result (rows.new.items ≡ in_order (rows.old.items ++ more.items)) }
{
    rows.append(&mut more)?;
    put_in_order(rows)
}

/// The rows of the manifest list at a path.
fn rows_at<F: Files>(alloc: Global, files: &F, list: &str) -> Result<Vec<Row>, RunFault>
    ensures write { IsErrOf result RunFault.Write → ⊥ }
    ensures given { IfOk result (λ rows. AreRowsGiven (F.gives files.now) list.now rows.items) }
    ensures causes { IfErr result (IsOfList (F.gives files.now) (F.may_fail files.now) list.now) }
{
    let bytes = read_file(alloc, files, list)?;
    Ok(read_list(alloc, &bytes)?)
}

/// Puts the rows of the manifest list at a path among those that there are.
fn put_rows<F: Files>(
    alloc: Global,
    files: &F,
    list: &str,
    rows: &mut Vec<Row>,
) -> Result<(), RunFault>
    ensures write { IsErrOf result RunFault.Write → ⊥ }
    ensures given { OnOk result ((more : List Row) × AreRowsGiven (F.gives files.now) list.now more
        × (rows.new.items ≡ in_order (rows.old.items ++ more))) }
    ensures causes { IfErr result (IsOfList (F.gives files.now) (F.may_fail files.now) list.now) }
{
    let more = rows_at(alloc, files, list)?;
    put_more(rows, more)?;
    Ok(())
}

/// The rows of the manifest lists of these snapshots, in the order of their paths, equal ones once: so each manifest
/// that snapshots share has one row.
pub fn gather_rows<F: Files>(
    alloc: Global,
    files: &F,
    snapshots: &[Snapshot],
) -> Result<Vec<Row>, RunFault>
    ensures write { IsErrOf result RunFault.Write → ⊥ }
    ensures given { IfOk result (λ rows. AreRowsBehind (F.gives files.now) [] snapshots.now rows.items) }
    ensures causes { IfErr result (λ fault. IsFor unlisted (LacksList snapshots.now) fault
        ⊎ IsOfSnapshot (F.gives files.now) (F.may_fail files.now) snapshots.now fault) }
{
    let mut rows = Vec::new(alloc);
    'snapshots: for snapshot in snapshots {
        let list = list_of(snapshot)?;
        put_rows(alloc, files, list, &mut rows)?;
    }
    Ok(rows)
}
