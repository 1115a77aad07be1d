//! The totals that the summary of a snapshot says.

ghost use Rattle.std.specs.Prelude.{◌≡◌, ◌++◌, IfOk, OnOk, Some, option_map};
ghost use Rattle.std.specs.List.{flat_map};
ghost use Rattle.icescan_audit.specs.Summaries.{has_id, number_in, number_said, said_in, summary_among, summary_of};
ghost use Rattle.icescan_audit.specs.Summaries.{total_name, totals_in, totals_under};
ghost use Rattle.ice_meta.specs.Targets.{resolved};
ghost use Rattle.serde_json.specs.View.{items_view, view};

use contract_words::Items;
use ice_meta::{Metadata, Target};
use icescan_audit_findings::{SaidTotal, Total};
use serde_json::Value;
use std::alloc::{AllocError, Global};

/// All totals, in the order in which they are told.
const ALL_TOTALS: [Total; 6] = [
    Total::DataFiles,
    Total::DeleteFiles,
    Total::Records,
    Total::PositionDeletes,
    Total::EqualityDeletes,
    Total::FilesSize,
];

/// What a summary calls a total.
pub fn total_name(total: Total) -> &'static str
    ensures { result.now ≡ total_name total }
{
    match total {
        Total::DataFiles => "total-data-files",
        Total::DeleteFiles => "total-delete-files",
        Total::Records => "total-records",
        Total::PositionDeletes => "total-position-deletes",
        Total::EqualityDeletes => "total-equality-deletes",
        Total::FilesSize => "total-files-size",
    }
}

/// The number that a text writes.
fn number_in(text: &str) -> Option<u64>
    ensures { result ≡ number_in text.now }
{
    match text.parse::<u64>() {
        Ok(number) => Some(number),
        Err(_) => None,
    }
}

/// What a summary says of a total.
fn number_said(summary: &Value, total: Total) -> Option<u64>
    ensures { result ≡ number_said (view summary.now) total }
{
    number_in(summary.get(total_name(total))?.as_str()?)
}

/// Puts last what a summary says of a total, where it says something.
fn push_said(said: &mut Items<SaidTotal>, summary: &Value, total: Total) -> Result<(), AllocError>
    ensures { OnOk result (said.new ≡ said.old ++ said_in (view summary.now) total) }
{
    match number_said(summary, total) {
        Some(number) => said.push(SaidTotal { total, number })?,
        None => {}
    }
    Ok(())
}

/// Puts last what a summary says of these totals.
fn push_all_said(
    said: &mut Items<SaidTotal>,
    summary: &Value,
    which: &[Total],
) -> Result<(), AllocError>
    ensures { OnOk result (said.new ≡ said.old ++ flat_map (said_in (view summary.now)) which.now) }
{
    'totals: for total in which {
        push_said(said, summary, *total)?;
    }
    Ok(())
}

/// The totals that a summary says.
fn all_said(alloc: Global, summary: &Value) -> Result<Items<SaidTotal>, AllocError>
    ensures { IfOk result (λ said. said ≡ totals_in (Some (view summary.now))) }
{
    let mut said = Items::new(alloc);
    push_all_said(&mut said, summary, &ALL_TOTALS)?;
    Ok(said)
}

/// Whether this is the snapshot of the id.
fn has_id(snapshot: &Value, id: i64) -> bool
    ensures { result ≡ has_id id (view snapshot.now) }
{
    let Some(found) = snapshot.get("snapshot-id") else {
        return false;
    };
    match found.as_i64() {
        Some(found) => found == id,
        None => false,
    }
}

/// The summary of the first of these snapshots that has the id.
fn summary_among<'a>(snapshots: &'a Vec<Value>, id: i64) -> Option<&'a Value>
    ensures { option_map (λ v. view v.now) result ≡ summary_among id (items_view snapshots.now.items) }
{
    'snapshots: for snapshot in snapshots {
        if has_id(snapshot, id) {
            return snapshot.get("summary");
        }
    }
    None
}

/// The summary of the snapshot of the id.
fn summary_of<'a>(metadata: &'a Value, id: i64) -> Option<&'a Value>
    ensures { option_map (λ v. view v.now) result ≡ summary_of id (view metadata.now) }
{
    summary_among(metadata.get("snapshots")?.as_array()?, id)
}

/// The totals that are said of the snapshot of the id.
fn totals_of(alloc: Global, metadata: &Value, id: i64) -> Result<Items<SaidTotal>, AllocError>
    ensures { IfOk result (λ said. said ≡ totals_in (summary_of id (view metadata.now))) }
{
    match summary_of(metadata, id) {
        Some(summary) => all_said(alloc, summary),
        None => Ok(Items::new(alloc)),
    }
}

/// The totals that the summary of a snapshot says; none where there is no such snapshot.
pub fn said_totals(
    alloc: Global,
    metadata: &Metadata,
    target: &Target,
) -> Result<Items<SaidTotal>, AllocError>
    ensures { IfOk result (λ said. said
        ≡ totals_under (resolved target.now metadata.now.table) (view metadata.now.json)) }
{
    match metadata.resolve(target) {
        Ok(id) => totals_of(alloc, metadata.json(), id),
        Err(_) => Ok(Items::new(alloc)),
    }
}
