//! Files of a folder that are none of those that are known.

ghost use Rattle.std.specs.Prelude.{◌≡◌, ◌++◌, IfOk, OnOk, map};
ghost use Rattle.icescan_paths.specs.Paths.{lent};
ghost use Rattle.icescan_paths.specs.Spelling.{plain};
ghost use Rattle.icescan_paths.specs.Strays.{kind_of, stray_where, strays, strays_beside};

use crate::path_set::PathSet;
use crate::spelling::plain_spelling;
use contract_words::Items;
use std::alloc::{AllocError, Global};

/// A file of a folder.
#[derive(Debug, Drop)]
pub struct AgedFile {
    pub path: Items<u8>,
    /// How many milliseconds ago it was changed.
    pub age_ms: u64,
}

/// What a file is that is none of those that are known.
#[derive(Clone, Copy, Debug, PartialEq, Eq)]
pub enum StrayKind {
    /// It is old, and in no spelling one of them.
    Orphan,
    /// It is too young to tell, or one of them may be spelled so.
    Doubtful,
}

/// A file that is none of those that are known.
#[derive(Debug, Drop)]
pub struct Stray {
    pub kind: StrayKind,
    pub path: Items<u8>,
}

/// Paths that are known, as they stand and in their plain spelling.
#[derive(Drop)]
struct Known<'a> {
    paths: PathSet<'a>,
    plain: PathSet<'a>,
}

/// The plain spellings of paths.
fn plain_spellings(alloc: Global, paths: &[&[u8]]) -> Result<Vec<Items<u8>>, AllocError>
    ensures { IfOk result (λ spelled. spelled.items ≡ map plain (lent paths.now)) }
{
    let mut spelled = Vec::new(alloc);
    'paths: for path in paths {
        spelled.push(plain_spelling(alloc, path)?)?;
    }
    Ok(spelled)
}

/// Paths as slices of their bytes.
fn lent(alloc: Global, paths: &[Items<u8>]) -> Result<Vec<&[u8]>, AllocError>
    ensures { IfOk result (λ slices. lent slices.items ≡ paths.now) }
{
    let mut slices = Vec::new(alloc);
    'paths: for path in paths {
        slices.push(path.as_slice())?;
    }
    Ok(slices)
}

/// What a file is, if it is none of those that are known.
fn kind_of(
    alloc: Global,
    known: &Known<'_>,
    older_than_ms: u64,
    file: &AgedFile,
) -> Result<Option<StrayKind>, AllocError>
    ensures { IfOk result (λ kind. kind ≡ kind_of (lent known.now.paths.paths.items) (lent known.now.plain.paths.items)
        older_than_ms file.now) }
{
    if known.paths.has(file.path.as_slice()) {
        return Ok(None);
    }
    let plain = plain_spelling(alloc, file.path.as_slice())?;
    if known.plain.has(plain.as_slice()) || file.age_ms <= older_than_ms {
        Ok(Some(StrayKind::Doubtful))
    } else {
        Ok(Some(StrayKind::Orphan))
    }
}

/// Puts a file last, if it is none of those that are known.
fn put_stray(
    found: &mut Vec<Stray>,
    alloc: Global,
    known: &Known<'_>,
    older_than_ms: u64,
    file: &AgedFile,
) -> Result<(), AllocError>
    ensures { OnOk result (found.new.items ≡ found.old.items ++ stray_where (kind_of
        (lent known.now.paths.paths.items) (lent known.now.plain.paths.items) older_than_ms file.now) file.now.path) }
{
    if let Some(kind) = kind_of(alloc, known, older_than_ms, file)? {
        found.push(Stray {
            kind,
            path: file.path.copy(alloc)?,
        })?;
    }
    Ok(())
}

/// The files that are none of those that are known.
fn strays_beside(
    alloc: Global,
    known: &Known<'_>,
    older_than_ms: u64,
    files: &[AgedFile],
) -> Result<Vec<Stray>, AllocError>
    ensures { IfOk result (λ found. found.items ≡ strays_beside (lent known.now.paths.paths.items)
        (lent known.now.plain.paths.items) older_than_ms files.now) }
{
    let mut found = Vec::new(alloc);
    'files: for file in files {
        put_stray(&mut found, alloc, known, older_than_ms, file)?;
    }
    Ok(found)
}

/// The files that are none of those whose paths are known: an orphan where a file was changed more than so many
/// milliseconds ago and no known path is another spelling of its path, and doubtful where not.
pub fn strays(
    alloc: Global,
    paths: Vec<&[u8]>,
    older_than_ms: u64,
    files: &[AgedFile],
) -> Result<Vec<Stray>, AllocError>
    ensures { IfOk result (λ found. found.items ≡ strays (lent paths.entry.items) older_than_ms files.now) }
{
    let spelled = plain_spellings(alloc, &paths)?;
    let plain = lent(alloc, &spelled)?;
    let exact = PathSet::new(paths);
    let alike = PathSet::new(plain);
    let known = Known {
        paths: exact,
        plain: alike,
    };
    strays_beside(alloc, &known, older_than_ms, files)
}
