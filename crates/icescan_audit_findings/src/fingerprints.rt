//! Fingerprints of the spellings of paths: where no two files have one, no two have one path.

ghost use Rattle.std.specs.Prelude.{◌≡◌, true, IfOk, map};
ghost use Rattle.std.specs.List.{IsDistinct};
ghost use Rattle.std.specs.List.Sorted.{IsPermutation};
ghost use Rattle.std.specs.Thread.{IsSync};
ghost use Rattle.icescan_audit_findings.specs.Fingerprints.{AreRising, AreUnlike, fingerprint, fingerprint_of};
ghost use Rattle.icescan_audit_findings.specs.Repeats.{has_path_of};

use crate::repeats::LiveFile;
use std::alloc::{AllocError, Global};
use std::hash::{FoldHasher, Hasher};
use std::thread::{Threads, join};

/// The fingerprint of a spelling.
fn fingerprint(spelling: &[u8]) -> u64
    ensures { result ≡ fingerprint spelling.now }
{
    let mut hasher = FoldHasher::default();
    hasher.write(spelling);
    hasher.finish()
}

/// The fingerprints of files, in order.
fn fingerprints(alloc: Global, files: &[LiveFile]) -> Result<Vec<u64>, AllocError>
    ensures { IfOk result (λ prints. IsPermutation (map fingerprint_of files.now) prints.items) }
{
    let mut prints = Vec::with_capacity(alloc, files.len())?;
    'files: for file in files {
        prints.push(fingerprint(file.spelling()))?;
    }
    prints.sort_unstable();
    Ok(prints)
}

/// The same, by so many workers.
fn fingerprints_by_workers<R: Threads + Sync>(
    rt: &R,
    alloc: Global,
    files: &[LiveFile],
    workers: usize,
) -> Result<Vec<u64>, AllocError>
    ensures { IfOk result (λ prints. IsPermutation (map fingerprint_of files.now) prints.items) }
{
    if workers < 2 {
        return fingerprints(alloc, files);
    }
    let half = workers / 2;
    let other_half = workers - half;
    let (front, back) = files.split_at(files.len() / 2);
    let (first, others) = join(
        rt,
        || -> Result<Vec<u64>, AllocError>
            requires { IsSync R.row }
            ensures { IfOk result (λ prints. IsPermutation (map fingerprint_of front.entry.now) prints.items) }
        { fingerprints_by_workers(rt, alloc, front, half) },
        || -> Result<Vec<u64>, AllocError>
            requires { IsSync R.row }
            ensures { IfOk result (λ prints. IsPermutation (map fingerprint_of back.entry.now) prints.items) }
        { fingerprints_by_workers(rt, alloc, back, other_half) },
    );
    let mut prints = first?;
    let mut others = others?;
    prints.append(&mut others)?;
    // It merges two runs that are in order.
    prints.sort()?;
    Ok(prints)
}

/// Whether each number is above the one before.
fn rise(numbers: &[u64]) -> bool
    ensures { result ≡ true → AreRising numbers.now }
{
    'numbers: for i in 1..numbers.len() {
        if numbers[i] <= numbers[i - 1] {
            return false;
        }
    }
    true
}

/// Whether no two files have one path. Where they have none, it says so almost always, and it takes less time than to
/// put them in order.
pub fn are_apart(alloc: Global, files: &[LiveFile]) -> Result<bool, AllocError>
    ensures { IfOk result (λ apart. apart ≡ true → IsDistinct has_path_of files.now) }
{
    let prints = fingerprints(alloc, files)?;
    Ok(rise(&prints))
}

/// Whether no number is in both of two lists that rise.
fn are_unlike(one: &[u64], other: &[u64]) -> bool
    requires { AreRising one.now × AreRising other.now }
    ensures { result ≡ true → AreUnlike one.now other.now }
{
    let mut i = 0;
    let mut j = 0;
    'numbers: while i < one.len() && j < other.len() {
        if one[i] == other[j] {
            return false;
        }
        if one[i] < other[j] {
            i += 1;
        } else {
            j += 1;
        }
    }
    true
}

/// Whether each of two lists rises, and no number is in both.
fn all_differ(one: &[u64], other: &[u64]) -> bool
    ensures one { result ≡ true → AreRising one.now }
    ensures other { result ≡ true → AreRising other.now }
    ensures unlike { result ≡ true → AreUnlike one.now other.now }
{
    rise(one) && rise(other) && are_unlike(one, other)
}

/// Whether no two files have one path, by so many workers.
pub fn are_apart_by_workers<R: Threads + Sync>(
    rt: &R,
    alloc: Global,
    files: &[LiveFile],
    workers: usize,
) -> Result<bool, AllocError>
    ensures { IfOk result (λ apart. apart ≡ true → IsDistinct has_path_of files.now) }
{
    if workers < 2 {
        return are_apart(alloc, files);
    }
    let half = workers / 2;
    let other_half = workers - half;
    let (front, back) = files.split_at(files.len() / 2);
    let (first, others) = join(
        rt,
        || -> Result<Vec<u64>, AllocError>
            requires { IsSync R.row }
            ensures { IfOk result (λ prints. IsPermutation (map fingerprint_of front.entry.now) prints.items) }
        { fingerprints_by_workers(rt, alloc, front, half) },
        || -> Result<Vec<u64>, AllocError>
            requires { IsSync R.row }
            ensures { IfOk result (λ prints. IsPermutation (map fingerprint_of back.entry.now) prints.items) }
        { fingerprints_by_workers(rt, alloc, back, other_half) },
    );
    let first = first?;
    let others = others?;
    Ok(all_differ(&first, &others))
}
