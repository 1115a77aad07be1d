//! The newest metadata in a folder.

use crate::looks::{Kind, Looks};
use crate::paths::add_named;
use contract_words::Text;
use ice_meta_files::newest_metadata;
use icescan_hint_texts::Hint;
use std::alloc::{AllocError, Global};

/// The name of the metadata with the highest number in a folder.
fn newest_in<L: Looks>(alloc: Global, looks: &L, folder: &str) -> Option<Text> {
    let names = looks.names(alloc, folder)?;
    newest_metadata(alloc, &names, None).ok()
}

/// A path without slashes at its end, and the folder `metadata` in it.
fn inner_path(alloc: Global, path: &str) -> Result<String, AllocError> {
    format!(in alloc; "{}/metadata", path.trim_end_matches('/'))
}

/// Adds which file in a folder that stands at a path is the newest metadata. The answer says whether there is one.
fn add_newest_in<L: Looks>(
    hint: &mut Hint,
    alloc: Global,
    looks: &L,
    folder: &str,
    path: &str,
) -> Result<bool, AllocError> {
    let Some(newest) = newest_in(alloc, looks, folder) else {
        return Ok(false);
    };
    let path = path.trim_end_matches('/');
    let whole = format!(in alloc; "{path}/{}", newest.as_str())?;
    add_named(
        hint,
        alloc,
        "that is a folder; the newest metadata in it",
        whole.as_str(),
    )?;
    Ok(true)
}

/// Adds which file in a folder, or in its folder `metadata`, is the newest metadata.
pub fn add_newest<L: Looks>(
    hint: &mut Hint,
    alloc: Global,
    looks: &L,
    folder: &str,
    path: &str,
) -> Result<(), AllocError> {
    let inner = inner_path(alloc, folder)?;
    let found = if looks.kind(inner.as_str()) == Kind::Folder {
        let path = inner_path(alloc, path)?;
        add_newest_in(hint, alloc, looks, inner.as_str(), path.as_str())?
    } else {
        add_newest_in(hint, alloc, looks, folder, path)?
    };
    if found {
        Ok(())
    } else {
        hint.tell(
            alloc,
            "that is a folder, and no newest metadata is found in it",
        )
    }
}
