//! The files of a change by content and spec: one group for each new manifest.

ghost use Rattle.std.specs.Prelude.{◌≡◌, ◌++◌, IfOk, OnOk, filter, map};
ghost use Rattle.ice_manifest.specs.Adding.{lent};
ghost use Rattle.ice_catalog_versions.specs.Groups.{spec_ids, is_of_spec, groups_of, groups};
ghost use Rattle.ice_catalog_versions.specs.Seen.{all_seen};

use ice_catalog_changes::Change;
use ice_manifest::NewFile;
use ice_manifest_reading::ManifestContent;
use std::alloc::{AllocError, Global};

/// The files of one content and one spec, in the order of their change.
#[derive(Drop)]
pub struct Group<'a> {
    pub content: ManifestContent,
    pub spec_id: i32,
    pub files: Vec<&'a NewFile>,
}

/// The ids of the files' specs, each once, in their order.
fn spec_ids(alloc: Global, files: &[NewFile]) -> Result<Vec<i32>, AllocError>
    ensures { IfOk result (λ ids. ids.items ≡ spec_ids files.now) }
{
    let mut ids = Vec::with_capacity(alloc, files.len())?;
    'files: for file in files {
        ids.push(file.spec_id)?;
    }
    ids.sort()?;
    ids.dedup();
    Ok(ids)
}

/// The files of a spec.
fn files_of<'a>(
    alloc: Global,
    files: &'a [NewFile],
    id: i32,
) -> Result<Vec<&'a NewFile>, AllocError>
    ensures { IfOk result (λ found. lent found.items ≡ filter (is_of_spec id) files.now) }
{
    let mut found = Vec::new(alloc);
    'files: for file in files {
        if file.spec_id == id {
            found.push(file)?;
        }
    }
    Ok(found)
}

/// Puts the groups of files of one content last.
fn push_groups<'a>(
    alloc: Global,
    groups: &mut Vec<Group<'a>>,
    content: ManifestContent,
    files: &'a [NewFile],
) -> Result<(), AllocError>
    ensures { OnOk result (all_seen groups.new.items ≡ all_seen groups.old.items ++ groups_of content files.now) }
{
    let ids = spec_ids(alloc, files)?;
    'ids: for id in &ids {
        groups.push(Group {
            content,
            spec_id: *id,
            files: files_of(alloc, files, *id)?,
        })?;
    }
    Ok(())
}

/// The groups of a change, those of data first, then by the ids of their specs.
pub fn groups<'a>(alloc: Global, change: &'a Change) -> Result<Vec<Group<'a>>, AllocError>
    ensures { IfOk result (λ found. all_seen found.items ≡ groups change.now) }
{
    let mut groups = Vec::new(alloc);
    push_groups(
        alloc,
        &mut groups,
        ManifestContent::Data,
        change.files.as_slice(),
    )?;
    push_groups(
        alloc,
        &mut groups,
        ManifestContent::Deletes,
        change.deletes.as_slice(),
    )?;
    Ok(groups)
}
