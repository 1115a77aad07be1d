//! Why no file is found at a path.

use crate::case::Case;
use crate::looks::{Kind, Looks};
use crate::newest::add_newest;
use contract_words::Text;
use ice_desk::Files;
use ice_meta::Metadata;
use icescan_files::file_name;
use icescan_hint_texts::{Hint, quoted};
use icescan_words::Place;
use std::alloc::{AllocError, Global};

/// The last two segments of a path.
fn tail_of(path: &str) -> &str {
    let Some((front, _)) = path.rsplit_once('/') else {
        return path;
    };
    match front.rsplit_once('/') {
        Some((outer, _)) => path
            .strip_prefix(outer)
            .unwrap_or(path)
            .trim_start_matches('/'),
        None => path,
    }
}

/// What stands behind the folder in a name of the file system; of any other path its last two segments, in which the
/// metadata of most tables lies below the table's location.
fn below_folder<'p>(place: &Place, path: &'p str) -> &'p str {
    match path.strip_prefix(place.folder.as_str().trim_end_matches('/')) {
        Some(rest) if rest.starts_with('/') => rest.trim_start_matches('/'),
        _ => tail_of(path),
    }
}

/// Where the metadata may lie whose path was typed as it is not below the prefix.
fn folded(alloc: Global, place: &Place, path: &str) -> Result<String, AllocError> {
    let prefix = place.prefix.as_str().trim_end_matches('/');
    let rest = below_folder(place, path);
    format!(in alloc; "{prefix}/{rest}")
}

/// The location of the table whose metadata is at a path, where it can be read.
fn location_at<F: Files>(
    alloc: Global,
    case: &Case<'_, F>,
    path: &str,
) -> Result<Option<Text>, AllocError> {
    let Some(bytes) = case.read(alloc, path) else {
        return Ok(None);
    };
    match Metadata::read(alloc, &bytes).ok() {
        Some(metadata) => {
            let location = metadata.table().location.copy(alloc);
            drop(metadata);
            Ok(Some(location?))
        }
        None => Ok(None),
    }
}

/// A path below a table's location, in quotes.
fn quoted_below(alloc: Global, location: &str, rest: &str) -> Result<String, AllocError> {
    let path = format!(in alloc; "{location}/{rest}")?;
    quoted(alloc, path.as_str())
}

/// Adds which words name a file of the table of this location.
fn add_words_below(
    hint: &mut Hint,
    alloc: Global,
    location: &str,
    rest: &str,
) -> Result<(), AllocError> {
    let prefix = quoted(alloc, location)?;
    hint.here(
        alloc,
        format!(in alloc; "paths are those of the table, whose `location` is {prefix}")?,
    )?;
    let path = quoted_below(alloc, location, rest)?;
    hint.here(
        alloc,
        format!(in alloc; "with `--prefix` {prefix} METADATA is {path}")?,
    )
}

/// Adds which words name the metadata that was meant, where there is one.
fn add_right_words<F: Files>(
    hint: &mut Hint,
    alloc: Global,
    case: &Case<'_, F>,
    place: &Place,
    path: &str,
) -> Result<(), AllocError> {
    let found = folded(alloc, place, path)?;
    match location_at(alloc, case, found.as_str())? {
        Some(location) => {
            let location = location.as_str().trim_end_matches('/');
            add_words_below(hint, alloc, location, below_folder(place, path))
        }
        None => Ok(()),
    }
}

/// Adds a table's location, where the prefix is not at its front.
fn add_other_location(
    hint: &mut Hint,
    alloc: Global,
    location: &str,
    prefix: &str,
) -> Result<(), AllocError> {
    if location.starts_with(prefix) {
        return Ok(());
    }
    let location = quoted(alloc, location)?;
    let prefix = quoted(alloc, prefix)?;
    hint.here(
        alloc,
        format!(in alloc; "the table's `location` is {location}, and `--prefix` is {prefix}")?,
    )
}

/// Adds the table's location, where the prefix is not at its front.
fn add_location<F: Files>(
    hint: &mut Hint,
    alloc: Global,
    case: &Case<'_, F>,
    place: &Place,
) -> Result<(), AllocError> {
    match case.metadata(alloc) {
        Some(metadata) => {
            let location = metadata.table().location.as_str();
            let added = add_other_location(hint, alloc, location, place.prefix.as_str());
            drop(metadata);
            added
        }
        None => Ok(()),
    }
}

/// Adds what is at a path.
pub fn add_named(hint: &mut Hint, alloc: Global, what: &str, path: &str) -> Result<(), AllocError> {
    let name = quoted(alloc, path)?;
    hint.here(alloc, format!(in alloc; "{what} is {name}")?)
}

/// Adds which file of the system a path is, or why it is none.
pub fn add_file_name(
    hint: &mut Hint,
    alloc: Global,
    place: &Place,
    path: &str,
) -> Result<(), AllocError> {
    let prefix = place.prefix.as_str();
    match file_name(alloc, place.folder.as_str(), prefix, path)? {
        Some(name) => {
            let name = quoted(alloc, name.as_str())?;
            hint.here(
                alloc,
                format!(in alloc; "the path stands for the file {name}")?,
            )
        }
        None if path.starts_with(prefix) => hint.here(
            alloc,
            format!(in alloc; "the path has a segment `.` or `..` after the prefix")?,
        ),
        None => {
            let path = quoted(alloc, path)?;
            let prefix = quoted(alloc, prefix)?;
            hint.here(
                alloc,
                format!(in alloc; "{path} does not begin with `--prefix` {prefix}")?,
            )
        }
    }
}

/// Adds why no file was found at a path, or could not be read.
pub fn add_path<F: Files>(
    hint: &mut Hint,
    alloc: Global,
    case: &Case<'_, F>,
    path: &str,
) -> Result<(), AllocError> {
    let Some(place) = case.place() else {
        let path = quoted(alloc, path)?;
        return hint.here(
            alloc,
            format!(in alloc; "the bundle on standard input has no line for {path}")?,
        );
    };
    add_file_name(hint, alloc, place, path)?;
    if case.metadata_path() == Some(path) {
        add_right_words(hint, alloc, case, place, path)
    } else {
        add_location(hint, alloc, case, place)
    }
}

/// What is told of a name that no file stands at.
fn kind_text(kind: Kind) -> Option<&'static str> {
    match kind {
        Kind::Folder => Some("that is a folder"),
        Kind::Pipe => Some("that is a pipe or a socket"),
        Kind::Device => Some("that is a device"),
        Kind::Denied => Some("there is no right to read it"),
        Kind::File | Kind::Unknown => None,
    }
}

/// Adds why the file of a name could not be read, where that is seen, and which file a folder may have been meant for.
fn add_kind<L: Looks, F: Files>(
    hint: &mut Hint,
    alloc: Global,
    looks: &L,
    case: &Case<'_, F>,
    name: &str,
    path: &str,
) -> Result<(), AllocError> {
    let kind = looks.kind(name);
    if kind == Kind::Folder && case.metadata_path() == Some(path) {
        return add_newest(hint, alloc, looks, name, path);
    }
    match kind_text(kind) {
        Some(text) => hint.tell(alloc, text),
        None => Ok(()),
    }
}

/// Adds why the file at a path could not be read.
pub fn add_unread<L: Looks, F: Files>(
    hint: &mut Hint,
    alloc: Global,
    looks: &L,
    case: &Case<'_, F>,
    path: &str,
) -> Result<(), AllocError> {
    add_path(hint, alloc, case, path)?;
    let Some(place) = case.place() else {
        return Ok(());
    };
    match file_name(alloc, place.folder.as_str(), place.prefix.as_str(), path)? {
        Some(name) => add_kind(hint, alloc, looks, case, name.as_str(), path),
        None => Ok(()),
    }
}
