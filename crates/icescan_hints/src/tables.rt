//! What of a table a refusal of its metadata is about.

use crate::case::Case;
use crate::paths::add_named;
use ice_desk::Files;
use ice_meta::{MetaFault, Metadata, Table, Target};
use icescan_hint_texts::{Hint, add_none_named};
use std::alloc::{AllocError, Global};

/// How many ids are told at most.
const MOST_IDS: usize = 8;

/// The names of a table's branches and tags.
fn ref_names(alloc: Global, table: &Table) -> Result<Vec<String>, AllocError> {
    let mut names = Vec::new(alloc);
    for named in table.refs.as_slice() {
        names.push(String::from_str(alloc, named.name.as_str())?)?;
    }
    Ok(names)
}

/// The ids of a table's last snapshots, as one text.
fn snapshot_ids(alloc: Global, table: &Table) -> Result<String, AllocError> {
    let mut text = String::new(alloc);
    for snapshot in table.snapshots.as_slice().iter().rev().take(MOST_IDS) {
        write!(text, " {}", snapshot.id)?;
    }
    Ok(text)
}

/// The ids of a table's partition specs, as one text.
fn spec_ids(alloc: Global, table: &Table) -> Result<String, AllocError> {
    let mut text = String::new(alloc);
    for spec in table.specs.as_slice().iter().take(MOST_IDS) {
        write!(text, " {}", spec.id)?;
    }
    Ok(text)
}

/// Adds the ids of a table's partition specs.
fn add_spec_ids(hint: &mut Hint, alloc: Global, table: &Table) -> Result<(), AllocError> {
    let ids = spec_ids(alloc, table)?;
    hint.here(
        alloc,
        format!(in alloc; "the partition specs of the table:{ids}")?,
    )
}

/// Adds the ids of the table's partition specs.
pub fn add_specs<F: Files>(
    hint: &mut Hint,
    alloc: Global,
    case: &Case<'_, F>,
) -> Result<(), AllocError> {
    match case.metadata(alloc) {
        Some(metadata) => {
            let added = add_spec_ids(hint, alloc, metadata.table());
            drop(metadata);
            added
        }
        None => Ok(()),
    }
}

/// Adds which snapshot is asked for, and which the table has.
fn add_target(
    hint: &mut Hint,
    alloc: Global,
    target: &Target,
    metadata: &Metadata,
) -> Result<(), AllocError> {
    let table = metadata.table();
    match target {
        Target::Main => Ok(()),
        Target::Ref(name) => {
            let names = ref_names(alloc, table)?;
            add_none_named(
                hint,
                alloc,
                "branch or tag",
                name.as_str(),
                names.as_slice(),
            )
        }
        Target::Snapshot(id) => {
            let ids = snapshot_ids(alloc, table)?;
            hint.here(
                alloc,
                format!(in alloc; "{id} is no snapshot of the table; its last ones:{ids}")?,
            )
        }
    }
}

/// The same, where the metadata can be read.
fn add_asked_target<F: Files>(
    hint: &mut Hint,
    alloc: Global,
    case: &Case<'_, F>,
) -> Result<(), AllocError> {
    let Some(target) = case.target() else {
        return Ok(());
    };
    match case.metadata(alloc) {
        Some(metadata) => {
            let added = add_target(hint, alloc, target, &metadata);
            drop(metadata);
            added
        }
        None => Ok(()),
    }
}

/// Whether bytes begin as gzip writes them.
fn is_gzip(bytes: &[u8]) -> bool {
    bytes.starts_with(&[0x1f, 0x8b])
}

/// Adds that the file at a path is compressed, where it is.
fn add_compression<F: Files>(
    hint: &mut Hint,
    alloc: Global,
    case: &Case<'_, F>,
    path: &str,
) -> Result<(), AllocError> {
    match case.read(alloc, path) {
        Some(bytes) if is_gzip(&bytes) => {
            hint.here(
                alloc,
                format!(in alloc; "the file is compressed by gzip: `gzip -d` gives its text")?,
            )
        }
        _ => Ok(()),
    }
}

/// Adds what of a table's metadata is refused.
pub fn add_metadata<F: Files>(
    hint: &mut Hint,
    alloc: Global,
    case: &Case<'_, F>,
    fault: &MetaFault,
) -> Result<(), AllocError> {
    let Some(path) = case.metadata_path() else {
        return Ok(());
    };
    add_named(hint, alloc, "the metadata", path)?;
    match fault {
        MetaFault::NoSuchRef | MetaFault::NoSuchSnapshot => add_asked_target(hint, alloc, case),
        MetaFault::NotJson => add_compression(hint, alloc, case, path),
        _ => Ok(()),
    }
}
