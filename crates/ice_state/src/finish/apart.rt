//! Whether files share no path with others.

ghost use Rattle.std.specs.Prelude.{◌≡◌, ◌<◌, ◌≤◌, IfSome, IsTrue, length};
ghost use Rattle.std.specs.Thread.{IsSync};
ghost use Rattle.ice_state.specs.Apart.{AreSorted, IsBehind, IsGap, IsInFront, IsRun, path_at, ShareNoPath};
ghost use Rattle.ice_state.specs.Outcomes.{by_path};
ghost use Rattle.ice_state.specs.Segments.{AreKept, entries_at};

use crate::kept::segments::{FileNumber, Segments};
use std::thread::{Threads, join};

/// How many files are worth a thread, at the least.
const WORTH: usize = 2048;

/// Whether files in order share no path with others. Found from the fewer of them, since their paths often stand
/// together between two of the others.
pub fn are_apart(entries: &Segments, files: &[FileNumber], others: &[FileNumber]) -> bool
    requires files { AreKept entries.now files.now }
    requires others { AreKept entries.now others.now }
    requires sorted { by_path (entries_at entries.now files.now) ≡ entries_at entries.now files.now }
    requires sorted_others { by_path (entries_at entries.now others.now) ≡ entries_at entries.now others.now }
    ensures { IsTrue result → ShareNoPath (entries_at entries.now files.now) (entries_at entries.now others.now) }
{
    let stride = stride_of(files.len(), others.len());
    if files.len() < others.len() {
        return are_in_gaps(entries, others, files, stride);
    }
    are_in_gaps(entries, files, others, stride)
}

/// Whether files in order share no path with others, found by so many workers from the fewer of them, since their paths
/// often stand together between two of the others.
pub fn are_apart_by_workers<R: Threads + Sync>(
    rt: &R,
    entries: &Segments,
    files: &[FileNumber],
    others: &[FileNumber],
    workers: usize,
) -> bool
    requires files { AreKept entries.now files.now }
    requires others { AreKept entries.now others.now }
    requires sorted { by_path (entries_at entries.now files.now) ≡ entries_at entries.now files.now }
    requires sorted_others { by_path (entries_at entries.now others.now) ≡ entries_at entries.now others.now }
    ensures { IsTrue result → ShareNoPath (entries_at entries.now files.now) (entries_at entries.now others.now) }
{
    let stride = stride_of(files.len(), others.len());
    if files.len() < others.len() {
        return are_in_gaps_by_workers(rt, entries, others, files, stride, workers);
    }
    are_in_gaps_by_workers(rt, entries, files, others, stride, workers)
}

/// How many of the more files there are from one of the fewer to the next, where these are spread evenly.
fn stride_of(files: usize, others: usize) -> usize {
    files.max(others) / files.min(others).max(1)
}

/// The same as `are_in_gaps` by so many workers, if there are enough paths for each: by halves of the workers, each
/// half with its share of the paths, which are neighbours, in a thread of its own where one can be started.
fn are_in_gaps_by_workers<R: Threads + Sync>(
    rt: &R,
    entries: &Segments,
    files: &[FileNumber],
    some: &[FileNumber],
    stride: usize,
    workers: usize,
) -> bool
    requires files { AreSorted entries.now files.now }
    requires some { AreSorted entries.now some.now }
    ensures { IsTrue result → ShareNoPath (entries_at entries.now files.now) (entries_at entries.now some.now) }
{
    let workers = workers.min(some.len() / WORTH);
    if workers < 2 {
        return are_in_gaps(entries, files, some, stride);
    }
    let half = workers / 2;
    let other_half = workers - half;
    let (front, back) = some.split_at(some.len() / workers * half);
    let (first, second) = join(
        rt,
        || -> bool
            requires { IsSync R.row × AreSorted entries.now files.now × AreSorted entries.now front.now }
            ensures { IsTrue result → ShareNoPath (entries_at entries.entry.now files.entry.now)
                (entries_at entries.entry.now front.entry.now) }
        { are_in_gaps_by_workers(rt, entries, files, front, stride, half) },
        || -> bool
            requires { IsSync R.row × AreSorted entries.now files.now × AreSorted entries.now back.now }
            ensures { IsTrue result → ShareNoPath (entries_at entries.entry.now files.entry.now)
                (entries_at entries.entry.now back.entry.now) }
        { are_in_gaps_by_workers(rt, entries, files, back, stride, other_half) },
    );
    first && second
}

/// Whether none of some paths is one of those of the files, gap by gap, each of which is looked for about so far behind
/// the one before.
fn are_in_gaps(entries: &Segments, files: &[FileNumber], some: &[FileNumber], stride: usize) -> bool
    requires files { AreKept entries.now files.now }
    requires some { AreKept entries.now some.now }
    requires sorted { by_path (entries_at entries.now files.now) ≡ entries_at entries.now files.now }
    requires sorted_some { by_path (entries_at entries.now some.now) ≡ entries_at entries.now some.now }
    ensures { IsTrue result → ShareNoPath (entries_at entries.now files.now) (entries_at entries.now some.now) }
{
    let mut first = 0;
    let mut near = 0;
    'some: while first < some.len() {
        let Some(gap) = gap_of(entries, files, entries.path(some[first]), near, stride) else {
            return false;
        };
        first = end_in_gap(entries, files, some, first, gap);
        near = gap;
    }
    true
}

/// The place of the first file behind a path that none has: looked for first at one place, and then about so far behind
/// it.
fn gap_of(
    entries: &Segments,
    files: &[FileNumber],
    path: &[u8],
    near: usize,
    stride: usize,
) -> Option<usize>
    requires files { AreKept entries.now files.now }
    requires near { near ≤ length files.now }
    ensures { IfSome result (IsGap (entries_at entries.now files.now) path.now) }
{
    let place = place_of(entries, files, path, near, stride);
    if is_gap(entries, files, path, place) {
        return Some(place);
    }
    None
}

/// Where those of some paths end, from one on that stands in a gap, that stand there too: as far as steps that double
/// tell.
fn end_in_gap(
    entries: &Segments,
    files: &[FileNumber],
    some: &[FileNumber],
    first: usize,
    gap: usize,
) -> usize
    requires files { AreKept entries.now files.now }
    requires some { AreKept entries.now some.now }
    requires first { first < length some.now }
    requires gap { IsGap (entries_at entries.now files.now) (path_at (entries_at entries.now some.now) first) gap }
    ensures { IsRun (entries_at entries.now files.now) (entries_at entries.now some.now) first gap result }
{
    let mut end = first + 1;
    let mut step = 1;
    'steps: while step <= some.len() - end
        && is_in_front(entries, files, entries.path(some[end + step - 1]), gap)
    {
        end += step;
        step = step.saturating_mul(2);
    }
    end
}

/// Whether a path stands between the file before a place and the one there.
fn is_gap(entries: &Segments, files: &[FileNumber], path: &[u8], place: usize) -> bool
    requires files { AreKept entries.now files.now }
    requires place { place ≤ length files.now }
    ensures { IsTrue result → IsGap (entries_at entries.now files.now) path.now place }
{
    is_in_front(entries, files, path, place) && is_behind(entries, files, path, place)
}

/// Whether a path stands behind the file before a place, if there is one.
fn is_behind(entries: &Segments, files: &[FileNumber], path: &[u8], place: usize) -> bool
    requires files { AreKept entries.now files.now }
    requires place { place ≤ length files.now }
    ensures { IsTrue result → IsBehind (entries_at entries.now files.now) path.now place }
{
    if place == 0 {
        return true;
    }
    entries.path(files[place - 1]).cmp(path).is_lt()
}

/// Whether a path stands in front of the file at a place, if there is one.
fn is_in_front(entries: &Segments, files: &[FileNumber], path: &[u8], place: usize) -> bool
    requires files { AreKept entries.now files.now }
    requires place { place ≤ length files.now }
    ensures { IsTrue result → IsInFront (entries_at entries.now files.now) path.now place }
{
    if place == files.len() {
        return true;
    }
    path.cmp(entries.path(files[place])).is_lt()
}

/// The place from one on where a path is to be found: by a first step of so many files, and further ones that end twice
/// as far.
fn place_of(
    entries: &Segments,
    files: &[FileNumber],
    path: &[u8],
    near: usize,
    stride: usize,
) -> usize
    requires files { AreKept entries.now files.now }
    requires near { near ≤ length files.now }
    ensures { result ≤ length files.now }
{
    let most = files.len() - near;
    let mut passed = 0;
    let mut step = 0;
    'steps: while step < most && is_in_order(entries.path(files[near + step]), path) {
        passed = step;
        step = step.saturating_mul(2).max(stride).max(1);
    }
    bisected(entries, files, path, near + passed, near + step.min(most))
}

/// Whether a path stands in front of another, told soon: by words of eight bytes, since paths begin alike. What is
/// found by it is tested once more.
fn is_in_order(path: &[u8], other: &[u8]) -> bool {
    let mut rest = path;
    let mut other_rest = other;
    'words: while let Some(word) = rest.first_chunk::<8>() {
        let Some(other_word) = other_rest.first_chunk::<8>() else {
            break;
        };
        let number = u64::from_be_bytes(*word);
        let other_number = u64::from_be_bytes(*other_word);
        if number != other_number {
            return number < other_number;
        }
        rest = rest.split_at(8).1;
        other_rest = other_rest.split_at(8).1;
    }
    rest.cmp(other_rest).is_lt()
}

/// The place from one to another where a path is to be found.
fn bisected(
    entries: &Segments,
    files: &[FileNumber],
    path: &[u8],
    first: usize,
    end: usize,
) -> usize
    requires files { AreKept entries.now files.now }
    requires first { first ≤ end }
    requires end { end ≤ length files.now }
    ensures { result ≤ length files.now }
{
    let mut low = first;
    let mut high = end;
    'places: while low < high {
        let middle = low + (high - low) / 2;
        if is_in_order(entries.path(files[middle]), path) {
            low = middle + 1;
        } else {
            high = middle;
        }
    }
    low
}
