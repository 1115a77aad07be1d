//! The files that no other lines are of.

ghost use Rattle.std.specs.Prelude.{◌≡◌, ◌++◌, IfOk, OnOk, map};
ghost use Rattle.icescan_parts.specs.Alone.{alone, path_of, without_paths};
ghost use Rattle.icescan_parts.specs.Gone.{unless};
ghost use Rattle.icescan_paths.specs.Paths.{has, lent};

use contract_words::Items;
use icescan_paths::PathSet;
use std::alloc::{AllocError, Global};

/// The path in a line, escaped, with what stands behind it.
pub fn path_of(line: &[u8]) -> &[u8]
    ensures { result.now ≡ path_of line.now }
{
    let mut left = line;
    'left: while let [first, rest @ ..] = left {
        if *first == b' ' {
            return rest;
        }
        left = rest;
    }
    left
}

/// The paths in lines.
fn paths_of(alloc: Global, lines: &[Items<u8>]) -> Result<Vec<&[u8]>, AllocError>
    ensures { IfOk result (λ paths. lent paths.items ≡ map path_of lines.now) }
{
    let mut paths = Vec::new(alloc);
    'lines: for line in lines {
        paths.push(path_of(line.as_slice()))?;
    }
    Ok(paths)
}

/// Puts a line last, if its path is none of these.
fn put_alone(
    found: &mut Vec<Items<u8>>,
    alloc: Global,
    paths: &PathSet<'_>,
    line: &Items<u8>,
) -> Result<(), AllocError>
    ensures { OnOk result (found.new.items ≡ found.old.items
        ++ unless (has (lent paths.now.paths.items) (path_of line.now)) line.now) }
{
    if !paths.has(path_of(line.as_slice())) {
        found.push(line.copy(alloc)?)?;
    }
    Ok(())
}

/// The lines whose paths are none of these.
fn without_paths(
    alloc: Global,
    paths: &PathSet<'_>,
    lines: &[Items<u8>],
) -> Result<Vec<Items<u8>>, AllocError>
    ensures { IfOk result (λ found. found.items ≡ without_paths (lent paths.now.paths.items) lines.now) }
{
    let mut found = Vec::new(alloc);
    'lines: for line in lines {
        put_alone(&mut found, alloc, paths, line)?;
    }
    Ok(found)
}

/// The lines whose paths are in none of the other lines.
pub fn alone(
    alloc: Global,
    lines: &[Items<u8>],
    others: &[Items<u8>],
) -> Result<Vec<Items<u8>>, AllocError>
    ensures { IfOk result (λ found. found.items ≡ alone lines.now others.now) }
{
    let paths = PathSet::new(paths_of(alloc, others)?);
    without_paths(alloc, &paths, lines)
}
