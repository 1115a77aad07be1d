//! Why a change can't be committed, apart from partition values and from what is there already.

ghost use Rattle.std.specs.Prelude.{◌≡◌, ◌+◌, ◌++◌, length, fold, map, OnOk, IfOk};
ghost use Rattle.std.specs.Option.{option_copied};
ghost use Rattle.ice_catalog_versions.specs.Outcome.{Refuses};
ghost use Rattle.ice_catalog_versions.specs.Refusals.{AreSorted, empty, snapshot_taken, sequence_end, first_twice};
ghost use Rattle.ice_catalog_versions.specs.Refusals.{path_before};
ghost use Rattle.ice_catalog_versions.specs.Refusals.{path_of, all_files, sorted_paths, path_twice, is_count, is_for};
ghost use Rattle.ice_catalog_versions.specs.Refusals.{are_ids};
ghost use Rattle.ice_catalog_versions.specs.Refusals.{is_good, is_bad, lesser_path, paths_where, bad_file, too_many};
ghost use Rattle.ice_catalog_versions.specs.Refusals.{may_name, out_of_order};
ghost use Rattle.ice_meta.specs.Logs.{newest_time};
ghost use Rattle.ice_meta.specs.Targets.{described};
ghost use Rattle.contract_words.specs.Sorting.{sorted};

use contract_words::Text;
use ice_catalog_changes::{Change, Ids, PrepareFault};
use ice_manifest::NewFile;
use ice_manifest_reading::ManifestContent;
use ice_meta::Metadata;
use ice_value::FileContent;
use std::alloc::{AllocError, Global};

/// The greatest record count, and the greatest size in bytes, of a file.
const MOST: i64 = 1 << 40;

const MOST_PATH_BYTES: usize = 65_535;

const MOST_EQUALITY_IDS: usize = 1_000;

const MOST_ROWS: usize = 65_536;

const MOST_FILES: usize = 1_000_000;

/// Stops where there is nothing to commit.
pub fn check_not_empty(change: &Change) -> Result<(), PrepareFault>
    ensures { Refuses result (empty change.now.files change.now.deletes) }
{
    if change.files.as_slice().is_empty() && change.deletes.as_slice().is_empty() {
        return Err(PrepareFault::Empty);
    }
    Ok(())
}

/// Stops where the table has a snapshot of the commit's id, or the id stands for none.
pub fn check_snapshot(metadata: &Metadata, ids: &Ids) -> Result<(), PrepareFault>
    ensures { Refuses result (snapshot_taken metadata.now.table ids.now.snapshot) }
{
    if ids.snapshot == -1 || metadata.snapshot(ids.snapshot).is_some() {
        return Err(PrepareFault::SnapshotTaken);
    }
    Ok(())
}

/// Stops where there is no sequence number after the last one.
pub fn check_sequence(metadata: &Metadata) -> Result<(), PrepareFault>
    ensures { Refuses result (sequence_end metadata.now.table) }
{
    if metadata.table().last_sequence_number.get() < i64::MAX as u64 {
        Ok(())
    } else {
        Err(PrepareFault::SequenceEnd)
    }
}

/// Puts the files' paths last.
fn push_paths<'a>(paths: &mut Vec<&'a Text>, files: &'a [NewFile]) -> Result<(), AllocError>
    ensures { OnOk result (map (λ path. path.now) paths.new.items ≡ map (λ path. path.now) paths.old.items
        ++ map path_of files.now) }
{
    'files: for file in files {
        paths.push(&file.path)?;
    }
    Ok(())
}

/// Puts paths in the order of their bytes.
fn sort_paths(paths: &mut Vec<&Text>) -> Result<(), AllocError>
    ensures sorted { OnOk result (map (λ path. path.now) paths.new.items
        ≡ sorted path_before (map (λ path. path.now) paths.old.items)) }
    ensures order { OnOk result (AreSorted paths.new.items) }
{
    paths.sort_by(|a, b| a.as_bytes().cmp(b.as_bytes()))?;
    Ok(())
}

/// The first of sorted paths that its neighbour is equal to.
fn first_twice<'a>(paths: &[&'a Text]) -> Option<&'a Text>
    ensures { option_copied result ≡ first_twice (map (λ path. path.now) paths.now) }
{
    let (first, others) = paths.split_first()?;
    let mut last = first;
    'paths: for path in others {
        if **path == **last {
            return Some(*path);
        }
        last = path;
    }
    None
}

/// The paths of the change in the order of their bytes. It stops where two files have one path.
pub fn distinct_paths<'a>(alloc: Global, change: &'a Change) -> Result<Vec<&'a Text>, PrepareFault>
    ensures refuses { Refuses result (path_twice change.now) }
    ensures paths { IfOk result (λ paths. map (λ path. path.now) paths.items ≡ sorted_paths change.now) }
    ensures order { IfOk result (λ paths. AreSorted paths.items) }
{
    let mut paths = Vec::new(alloc);
    push_paths(&mut paths, change.files.as_slice())?;
    push_paths(&mut paths, change.deletes.as_slice())?;
    sort_paths(&mut paths)?;
    match first_twice(&paths) {
        Some(path) => Err(PrepareFault::PathTwice(path.copy(alloc)?)),
        None => Ok(paths),
    }
}

fn is_count(number: i64) -> bool
    ensures { result ≡ is_count number }
{
    0 <= number && number <= MOST
}

/// Whether files of this content may be in a manifest of that content.
fn is_for(content: ManifestContent, of_file: FileContent) -> bool
    ensures { result ≡ is_for content of_file }
{
    match (content, of_file) {
        (ManifestContent::Data, FileContent::Data) => true,
        (ManifestContent::Deletes, FileContent::PositionDeletes | FileContent::EqualityDeletes) =>
            true,
        _ => false,
    }
}

/// Whether a file of this content may have so many equality ids.
fn are_ids(of_file: FileContent, count: usize) -> bool
    ensures { result ≡ are_ids of_file count }
{
    match of_file {
        FileContent::EqualityDeletes => 0 < count && count <= MOST_EQUALITY_IDS,
        FileContent::Data | FileContent::PositionDeletes => count <= MOST_EQUALITY_IDS,
    }
}

/// Whether a file of this content may name this data file as the one that it is about.
fn may_name(of_file: FileContent, referenced: &Option<Text>) -> bool
    ensures { result ≡ may_name of_file referenced.now }
{
    match (of_file, referenced) {
        (_, None) => true,
        (FileContent::PositionDeletes, Some(path)) => path.as_bytes().len() <= MOST_PATH_BYTES,
        (FileContent::Data | FileContent::EqualityDeletes, Some(_)) => false,
    }
}

fn is_good(content: ManifestContent, file: &NewFile) -> bool
    ensures { result ≡ is_good content file.now }
{
    is_count(file.record_count)
        && is_count(file.file_size)
        && file.path.as_bytes().len() <= MOST_PATH_BYTES
        && is_for(content, file.content)
        && are_ids(file.content, file.equality_ids.as_slice().len())
        && may_name(file.content, &file.referenced)
}

fn is_before(path: &Text, other: &Text) -> bool
    ensures { result ≡ path_before path.now other.now }
{
    path.as_bytes().cmp(other.as_bytes()).is_lt()
}

/// The lesser of a path and the least so far.
pub fn lesser_path<'a>(least: Option<&'a Text>, path: &'a Text) -> Option<&'a Text>
    ensures { option_copied result ≡ lesser_path (option_copied least.entry) path.now }
{
    match least {
        None => Some(path),
        Some(least) => {
            if is_before(path, least) {
                Some(path)
            } else {
                Some(least)
            }
        }
    }
}

/// The least path of a file that is out of its ranges, and of the least so far.
fn least_bad<'a>(
    mut least: Option<&'a Text>,
    content: ManifestContent,
    files: &'a [NewFile],
) -> Option<&'a Text>
    ensures { option_copied result
        ≡ fold lesser_path (option_copied least.entry) (paths_where (is_bad content) files.now) }
{
    'files: for file in files {
        if !is_good(content, file) {
            least = lesser_path(least, &file.path);
        }
    }
    least
}

/// Stops where a number, a path or the content of a file is out of its range.
pub fn check_files(alloc: Global, change: &Change) -> Result<(), PrepareFault>
    ensures { Refuses result (bad_file change.now) }
{
    let least = least_bad(None, ManifestContent::Data, change.files.as_slice());
    let least = least_bad(least, ManifestContent::Deletes, change.deletes.as_slice());
    match least {
        Some(path) => Err(PrepareFault::BadFile(path.copy(alloc)?)),
        None => Ok(()),
    }
}

/// Stops where the new list or the change would be too long.
pub fn check_sizes(rows: usize, files: usize) -> Result<(), PrepareFault>
    ensures { Refuses result (too_many rows files) }
{
    if rows > MOST_ROWS || files > MOST_FILES {
        return Err(PrepareFault::TooManyRows);
    }
    Ok(())
}

/// Stops where the commit would stand in the snapshot log behind an entry of a later time.
pub fn check_time(metadata: &Metadata, ids: &Ids) -> Result<(), PrepareFault>
    ensures { Refuses result
        (out_of_order (newest_time (described metadata.now.json metadata.now.table).json) ids.now.now_ms) }
{
    match metadata.newest_time() {
        Some(newest) if ids.now_ms < newest => Err(PrepareFault::OutOfOrder),
        _ => Ok(()),
    }
}
