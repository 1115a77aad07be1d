//! Paths that are live more than once.

ghost use Rattle.std.specs.Prelude.{◌≡◌, ◌++◌, true, IfOk, OnOk, map};
ghost use Rattle.std.specs.List.{IsDistinct};
ghost use Rattle.contract_words.specs.Sorting.{sorted};
ghost use Rattle.icescan_audit_findings.specs.Repeats.{has_path_of, path_before, repeat_where, repeats};
ghost use Rattle.icescan_audit_findings.specs.Repeats.{repeats_in, spelling_of};

use crate::file_key::KeptKey;
use crate::finding::{Finding, Flaw};
use crate::fingerprints::{are_apart, are_apart_by_workers};
use contract_words::{Items, Text};
use ice_value::FileContent;
use shared_value::Shared;
use std::alloc::{AllocError, Global};
use std::thread::{Threads, join};

/// A live file.
#[derive(Debug, Drop)]
pub struct LiveFile {
    /// Its path.
    pub path: Items<u8>,
    /// The spelling by which it is told from others, where that is another.
    pub spelling: Option<Items<u8>>,
    /// The path of the manifest that has its entry.
    pub manifest: Shared<Text>,
    /// What it holds.
    pub content: FileContent,
    /// How many rows and bytes it has, as its manifest says.
    pub record_count: i64,
    pub file_size: i64,
    /// What delete files go by, where the snapshot has some.
    pub key: KeptKey,
}

impl LiveFile {
    /// The spelling of its path by which it is told from others.
    pub(crate) fn spelling(&self) -> &[u8]
        ensures { result.now ≡ spelling_of self.now }
    {
        match &self.spelling {
            Some(spelling) => spelling.as_slice(),
            None => self.path.as_slice(),
        }
    }
}

/// Puts files in the order of their paths.
fn sort_by_path(files: &mut Vec<LiveFile>) -> Result<(), AllocError>
    ensures { OnOk result (files.new.items ≡ sorted path_before files.old.items) }
{
    files.sort_by(|a, b| a.spelling().cmp(b.spelling()))?;
    Ok(())
}

/// Puts the finding last that a file has the path of another, where it has.
fn push_repeat(
    alloc: Global,
    findings: &mut Items<Finding>,
    other: &LiveFile,
    file: &LiveFile,
) -> Result<(), AllocError>
    ensures { OnOk result (findings.new
        ≡ findings.old ++ repeat_where (has_path_of other.now file.now) file.now) }
{
    if other.spelling() == file.spelling() {
        findings.push(Finding {
            manifest: file.manifest.share()?,
            file: Some(Shared::new(alloc, file.path.copy(alloc)?)?),
            flaw: Flaw::LiveTwice,
        })?;
    }
    Ok(())
}

/// Puts the findings last on files that have the path of the one before.
fn push_repeats_in(
    alloc: Global,
    findings: &mut Items<Finding>,
    files: &[LiveFile],
) -> Result<(), AllocError>
    ensures { OnOk result (findings.new ≡ findings.old ++ repeats_in files.now) }
{
    'files: for i in 1..files.len() {
        push_repeat(alloc, findings, &files[i - 1], &files[i])?;
    }
    Ok(())
}

/// Puts the findings last on files that have the path of another, where not all are known to be apart.
fn push_repeats_unless(
    alloc: Global,
    findings: &mut Items<Finding>,
    apart: bool,
    files: &mut Vec<LiveFile>,
) -> Result<(), AllocError>
    requires { apart ≡ true → IsDistinct has_path_of files.old.items }
    ensures { OnOk result (findings.new ≡ findings.old ++ repeats files.old.items) }
{
    if apart {
        return Ok(());
    }
    sort_by_path(files)?;
    push_repeats_in(alloc, findings, files)
}

/// Lets files go, by so many workers.
fn drop_by_workers<R: Threads + Sync>(rt: &R, files: Vec<LiveFile>, workers: usize) {
    if workers < 2 {
        return;
    }
    let half = workers / 2;
    let other_half = workers - half;
    let mut front = files;
    let Ok(back) = front.split_off(front.len() / 2) else {
        return;
    };
    join(
        rt,
        move || drop_by_workers(rt, front, half),
        move || drop_by_workers(rt, back, other_half),
    );
}

/// Puts the findings last on files that have the path of another, in the same spelling or in another, in the order of
/// these; the first of each path is not told.
pub fn push_repeats(
    alloc: Global,
    findings: &mut Items<Finding>,
    files: Vec<LiveFile>,
) -> Result<(), AllocError>
    ensures { OnOk result (findings.new ≡ findings.old ++ repeats files.items) }
{
    let mut files = files;
    let apart = are_apart(alloc, &files)?;
    push_repeats_unless(alloc, findings, apart, &mut files)
}

/// The same, by so many workers.
pub fn push_repeats_by_workers<R: Threads + Sync>(
    rt: &R,
    alloc: Global,
    findings: &mut Items<Finding>,
    files: Vec<LiveFile>,
    workers: usize,
) -> Result<(), AllocError>
    ensures { OnOk result (findings.new ≡ findings.old ++ repeats files.items) }
{
    let mut files = files;
    let apart = are_apart_by_workers(rt, alloc, &files, workers)?;
    push_repeats_unless(alloc, findings, apart, &mut files)?;
    drop_by_workers(rt, files, workers);
    Ok(())
}
