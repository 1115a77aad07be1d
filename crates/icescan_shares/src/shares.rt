//! Shares of the rows that a scan wants, by the bytes of their manifests.

ghost use Rattle.std.specs.Prelude.{◌≡◌, ◌≤◌, ◌<◌, ◌+◌, ◌*◌, IfOk, length};
ghost use Rattle.icescan_shares.specs.Shares.{are_in_share, share_of, total_weight, weight};

use ice_manifest_reading::Row;
use icescan_text::Share;
use std::alloc::{AllocError, Global};

/// The most that a manifest weighs.
const MOST: i64 = 2_147_483_648;

/// What a manifest weighs: its bytes, at least 1 and at most 2,147,483,648.
fn weight(row: &Row) -> u64
    ensures weight { result ≡ weight row.now }
    ensures some { 0 < result }
    ensures few { result ≤ 2147483648 }
{
    if row.length < 1 {
        1
    } else if row.length > MOST {
        MOST as u64
    } else {
        row.length as u64
    }
}

/// What the manifests of these rows weigh together.
fn total_weight(rows: &[Row]) -> u64
    requires { length rows.now ≤ 65536 }
    ensures total { result ≡ total_weight rows.now }
    ensures few { result ≤ 2147483648 * length rows.now }
{
    let mut total = 0;
    'rows: for row in rows {
        total += weight(row);
    }
    total
}

/// The number of the share, of so many, that a manifest is in before which this much of the total weight stands.
fn share_of(count: u64, total: u64, before: u64) -> u64
    requires some { 0 < total }
    requires count { count ≤ 65536 }
    requires before { before ≤ 140737488355328 }
    ensures { result ≡ share_of count total before }
{
    count * before / total + 1
}

/// Which of these rows are in a share.
pub fn rows_of_share(alloc: Global, rows: &[Row], share: Share) -> Result<Vec<bool>, AllocError>
    requires { length rows.now ≤ 65536 }
    ensures { IfOk result (λ marks. marks.items ≡ are_in_share share rows.now) }
{
    let mut marks = Vec::with_capacity(alloc, rows.len())?;
    let total = total_weight(rows);
    let mut before = 0;
    'rows: for row in rows {
        marks.push(share_of(share.count(), total, before) == share.number())?;
        before += weight(row);
    }
    Ok(marks)
}
