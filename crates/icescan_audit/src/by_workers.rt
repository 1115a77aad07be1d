//! The audit of a manifest list's rows by workers.

ghost use Rattle.std.specs.Thread.{IsSync};
ghost use Rattle.icescan_audit.specs.Readings.{ReadsRows};

use crate::audit::{Reading, audit_rows};
use ice_desk::Files;
use ice_manifest_reading::Row;
use icescan_audit_findings::Basis;
use icescan_text::RunFault;
use std::alloc::Global;
use std::thread::{Threads, join};

/// What is read of the manifests of these rows by so many workers, no more than there are rows: by halves of the
/// workers, each half with its share of the rows, which are neighbours, in a thread of its own where one can be started.
/// What the first half reads comes first, and so does its refusal.
pub fn audit_rows_by_workers<R: Threads + Sync, F: Files + Sync>(
    rt: &R,
    alloc: Global,
    files: &F,
    basis: &Basis,
    rows: &[Row],
    workers: usize,
) -> Result<Reading, RunFault>
    ensures { ReadsRows (F.world files.now) (F.may_fail files.now) (F.gives files.now) basis.now rows.now result }
{
    let workers = workers.min(rows.len());
    if workers < 2 {
        return audit_rows(alloc, files, basis, rows);
    }
    let half = workers / 2;
    let other_half = workers - half;
    let each = rows.len().div_ceil(workers);
    let (front, back) = rows.split_at(each.saturating_mul(half).min(rows.len()));
    let (first, others) = join(
        rt,
        || -> Result<Reading, RunFault>
            requires { IsSync R.row × IsSync F.row }
            ensures { ReadsRows (F.world files.entry.now) (F.may_fail files.entry.now) (F.gives files.entry.now)
                basis.entry.now front.entry.now result }
        { audit_rows_by_workers(rt, alloc, files, basis, front, half) },
        || -> Result<Reading, RunFault>
            requires { IsSync R.row × IsSync F.row }
            ensures { ReadsRows (F.world files.entry.now) (F.may_fail files.entry.now) (F.gives files.entry.now)
                basis.entry.now back.entry.now result }
        { audit_rows_by_workers(rt, alloc, files, basis, back, other_half) },
    );
    Ok(first?.joined(others?)?)
}
