//! The paths of files that are reached, and those of the same files below the folder.

ghost use Rattle.std.specs.Prelude.{◌≡◌, ◌++◌, IfOk, OnOk};
ghost use Rattle.icescan_paths.specs.Paths.{lent};

use contract_words::Items;
use std::alloc::{AllocError, Global};

/// What stands behind the prefix in a path that begins with it.
fn behind<'a>(prefix: &[u8], path: &'a [u8]) -> Option<&'a [u8]> {
    if path.len() < prefix.len() {
        return None;
    }
    let (front, rest) = path.split_at(prefix.len());
    if front == prefix { Some(rest) } else { None }
}

/// The path with a slash behind the prefix, of the file that a path behind the prefix names.
fn with_slash(alloc: Global, prefix: &[u8], rest: &[u8]) -> Result<Items<u8>, AllocError> {
    let mut path = Vec::new(alloc);
    path.extend_from_slice(prefix)?;
    path.push(b'/')?;
    path.extend_from_slice(rest)?;
    Ok(Items::from_vec(path))
}

/// The paths with a slash behind the prefix of the files that these paths name. A path names a file by what stands
/// behind the prefix, with a slash at its front or without.
pub fn with_slashes(
    alloc: Global,
    prefix: &str,
    paths: &[Items<u8>],
) -> Result<Vec<Items<u8>>, AllocError> {
    let mut more = Vec::new(alloc);
    for path in paths {
        if let Some(rest) = behind(prefix.as_bytes(), path.as_slice()) {
            more.push(with_slash(alloc, prefix.as_bytes(), rest)?)?;
        }
    }
    Ok(more)
}

/// Puts paths last, as slices of their bytes.
fn put_lent<'a>(slices: &mut Vec<&'a [u8]>, paths: &'a [Items<u8>]) -> Result<(), AllocError>
    ensures { OnOk result (lent slices.new.items ≡ lent slices.old.items ++ paths.now) }
{
    'paths: for path in paths {
        slices.push(path.as_slice())?;
    }
    Ok(())
}

/// Paths, and more of them, as slices of their bytes.
pub fn known_paths<'a>(
    alloc: Global,
    paths: &'a [Items<u8>],
    more: &'a [Items<u8>],
) -> Result<Vec<&'a [u8]>, AllocError>
    ensures { IfOk result (λ known. lent known.items ≡ paths.now ++ more.now) }
{
    let mut known = Vec::new(alloc);
    put_lent(&mut known, paths)?;
    put_lent(&mut known, more)?;
    Ok(known)
}
