//! How many different manifests the snapshots of a table have.

ghost use Rattle.std.specs.Prelude.{◌≡◌, ◌++◌, None, IfOk, OnOk, option_map};
ghost use Rattle.ice_state.specs.Scans.{by_row_path};
ghost use Rattle.icescan_audit_all.specs.Manifests.{is_other, number_in, number_of_manifests, rows_of};

use crate::audits::SnapshotAudit;
use ice_manifest_reading::Row;
use shared_value::Shared;
use std::alloc::{AllocError, Global};

/// Puts these rows last.
fn push_rows(all: &mut Vec<Shared<Row>>, rows: &[Shared<Row>]) -> Result<(), AllocError>
    ensures { OnOk result (all.new.items ≡ all.old.items ++ rows.now) }
{
    'rows: for row in rows {
        all.push(row.share()?)?;
    }
    Ok(())
}

/// The rows of all these snapshots.
fn rows_of(alloc: Global, audits: &[SnapshotAudit]) -> Result<Vec<Shared<Row>>, AllocError>
    ensures { IfOk result (λ rows. rows.items ≡ rows_of audits.now) }
{
    let mut rows = Vec::new(alloc);
    'audits: for each in audits {
        push_rows(&mut rows, each.rows.get().as_slice())?;
    }
    Ok(rows)
}

fn sort_rows(rows: &mut Vec<Shared<Row>>) -> Result<(), AllocError>
    ensures { OnOk result (rows.new.items ≡ by_row_path rows.old.items) }
{
    rows.sort_by(|a, b| a.get().path.as_bytes().cmp(b.get().path.as_bytes()))?;
    Ok(())
}

/// Whether a row is of another manifest than the one before it.
fn is_other(before: Option<&Row>, row: &Row) -> bool
    ensures { result ≡ is_other (option_map (λ r. r.now) before.entry) row.now }
{
    match before {
        Some(before) => before.path.as_str() != row.path.as_str(),
        None => true,
    }
}

/// How many different manifests rows in the order of their paths have.
fn number_in(rows: &[Shared<Row>]) -> usize
    ensures { result ≡ number_in None rows.now }
{
    let mut number = 0;
    let mut before = None;
    'rows: for shared in rows {
        let row = shared.get();
        if is_other(before, row) {
            number += 1;
        }
        before = Some(row);
    }
    number
}

/// How many different manifests these snapshots have.
pub fn number_of_manifests(alloc: Global, audits: &[SnapshotAudit]) -> Result<usize, AllocError>
    ensures { IfOk result (λ number. number ≡ number_of_manifests audits.now) }
{
    let mut rows = rows_of(alloc, audits)?;
    sort_rows(&mut rows)?;
    Ok(number_in(&rows))
}
