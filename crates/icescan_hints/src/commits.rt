//! What of a commit is refused.

use crate::case::Case;
use crate::changes::{add_bad_file, add_fields};
use crate::paths::{add_file_name, add_named};
use crate::tables::add_specs;
use contract_words::{Items, Text};
use ice_catalog_changes::PrepareFault;
use ice_catalog_versions::Prepared;
use ice_desk::Files;
use icescan_files::file_name;
use icescan_hint_texts::{Hint, quoted};
use icescan_text::{ChangeFault, CommitRequest};
use icescan_words::Place;
use std::alloc::{AllocError, Global};

/// How many files of a commit are told at most.
const MOST_FILES: usize = 8;

/// What stands where a file of a commit is to be.
fn found_at<F: Files>(alloc: Global, case: &Case<'_, F>, path: &str, bytes: &[u8]) -> &'static str {
    match case.read(alloc, path) {
        Some(found) if found.as_slice() == bytes => "is there, as this commit writes it",
        Some(_) => "was there already, with other bytes",
        None => "is not there",
    }
}

/// Adds which files of a commit stand at their places.
fn add_files<F: Files>(
    hint: &mut Hint,
    alloc: Global,
    case: &Case<'_, F>,
    files: &[(Text, Items<u8>)],
) -> Result<(), AllocError> {
    for file in files.iter().take(MOST_FILES) {
        let (path, bytes) = file;
        let found = found_at(alloc, case, path.as_str(), bytes.as_slice());
        let name = quoted(alloc, path.as_str())?;
        hint.here(alloc, format!(in alloc; "{name} {found}")?)?;
    }
    Ok(())
}

/// Adds that a commit was made, where its metadata stands at its place.
fn add_made<F: Files>(
    hint: &mut Hint,
    alloc: Global,
    case: &Case<'_, F>,
    out: &Text,
    prepared: &Prepared,
) -> Result<(), AllocError> {
    let metadata = prepared.version().metadata().write(alloc)?;
    match case.read(alloc, out.as_str()) {
        Some(found) if found.as_slice() == metadata.as_slice() => {
            let name = quoted(alloc, out.as_str())?;
            hint.here(
                alloc,
                format!(in alloc; "the commit was made: its metadata stands at {name}")?,
            )
        }
        _ => Ok(()),
    }
}

/// Adds why no file can stand at the path of `--out`, and gives whether that is so.
fn add_outside(
    hint: &mut Hint,
    alloc: Global,
    place: &Place,
    out: &str,
) -> Result<bool, AllocError> {
    if file_name(alloc, place.folder.as_str(), place.prefix.as_str(), out)?.is_some() {
        return Ok(false);
    }
    add_named(hint, alloc, "`--out`", out)?;
    add_file_name(hint, alloc, place, out)?;
    Ok(true)
}

/// Adds what could not be written. Of a commit: why `--out` names no place, or which files stand at their places, and
/// whether it was made, where it could be prepared once more.
pub fn add_unwritten<F: Files>(
    hint: &mut Hint,
    alloc: Global,
    case: &Case<'_, F>,
    again: Option<&Prepared>,
) -> Result<(), AllocError> {
    let (Some(request), Some(_)) = (case.commit(), case.files) else {
        return hint.here(alloc, format!(in alloc; "standard output")?);
    };
    if let Some(place) = case.place() {
        if add_outside(hint, alloc, place, request.out.as_str())? {
            return Ok(());
        }
    }
    let Some(prepared) = again else {
        return Ok(());
    };
    add_files(hint, alloc, case, prepared.files())?;
    add_made(hint, alloc, case, &request.out, prepared)
}

/// Adds the change file, and which of its files is at fault.
pub fn add_change<F: Files>(
    hint: &mut Hint,
    alloc: Global,
    case: &Case<'_, F>,
    fault: ChangeFault,
) -> Result<(), AllocError> {
    add_change_file(hint, alloc, case)?;
    add_bad_file(hint, alloc, case, fault)
}

/// Adds the path of the change file.
fn add_change_file<F: Files>(
    hint: &mut Hint,
    alloc: Global,
    case: &Case<'_, F>,
) -> Result<(), AllocError> {
    let Some(request) = case.commit() else {
        return Ok(());
    };
    add_named(hint, alloc, "the change file", request.change.as_str())
}

/// The time of the newest snapshot.
fn newest_time<F: Files>(alloc: Global, case: &Case<'_, F>) -> Option<i64> {
    let metadata = case.metadata(alloc)?;
    let newest = metadata.newest_time();
    drop(metadata);
    newest
}

/// Adds the commit's time and that of the newest snapshot.
fn add_times<F: Files>(
    hint: &mut Hint,
    alloc: Global,
    case: &Case<'_, F>,
    request: &CommitRequest,
) -> Result<(), AllocError> {
    let now = request.ids.now_ms;
    match newest_time(alloc, case) {
        Some(newest) => hint.here(
            alloc,
            format!(in alloc; "`--now-ms` is {now}, and the newest snapshot is of {newest}")?,
        ),
        None => Ok(()),
    }
}

/// Adds what of a commit can't be made.
pub fn add_commit<F: Files>(
    hint: &mut Hint,
    alloc: Global,
    case: &Case<'_, F>,
    fault: &PrepareFault,
) -> Result<(), AllocError> {
    let Some(request) = case.commit() else {
        return Ok(());
    };
    match fault {
        PrepareFault::SnapshotTaken => {
            let id = request.ids.snapshot;
            hint.here(alloc, format!(in alloc; "`--snapshot-id` is {id}")?)
        }
        PrepareFault::OutOfOrder => add_times(hint, alloc, case, request),
        PrepareFault::NoSuchSpec(_) => add_specs(hint, alloc, case),
        PrepareFault::WrongTuple(path) => {
            add_change_file(hint, alloc, case)?;
            add_fields(hint, alloc, case, path)
        }
        PrepareFault::BaseBad(_) | PrepareFault::SequenceEnd => {
            add_named(hint, alloc, "the metadata", request.metadata.as_str())
        }
        _ => add_change_file(hint, alloc, case),
    }
}
