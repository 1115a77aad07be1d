//! One spelling for all paths that may name the same file.

ghost use Rattle.std.specs.Prelude.{◌≡◌, IfOk, option_map};
ghost use Rattle.icescan_paths.specs.Spelling.{behind_scheme, is_slash_again, one_scheme, plain, single_slashes};
ghost use Rattle.percent_encoding.specs.Percent.{percent_decode};

use contract_words::Items;
use percent_encoding::percent_decode;
use std::alloc::{AllocError, Global};

/// The bytes of a path with its percent escapes read.
fn without_escapes(alloc: Global, path: &[u8]) -> Result<Vec<u8>, AllocError>
    ensures { IfOk result (λ bytes. bytes.items ≡ percent_decode path.now) }
{
    let mut bytes = Vec::new(alloc);
    percent_decode(path).append_to(&mut bytes)?;
    Ok(bytes)
}

/// A path with one slash in place of each run of slashes.
fn single_slashes(alloc: Global, path: &[u8]) -> Result<Vec<u8>, AllocError>
    ensures { IfOk result (λ bytes. bytes.items ≡ single_slashes path.now) }
{
    let mut bytes = Vec::new(alloc);
    let mut left = path;
    'left: while let [first, rest @ ..] = left {
        if !is_slash_again(*first, rest) {
            bytes.push(*first)?;
        }
        left = rest;
    }
    Ok(bytes)
}

/// Whether a byte is a slash before another one.
fn is_slash_again(first: u8, rest: &[u8]) -> bool
    ensures { result ≡ is_slash_again first rest.now }
{
    match rest {
        [next, ..] => first == b'/' && *next == b'/',
        [] => false,
    }
}

/// What stands behind the scheme `s3a:` or `s3n:`, where a path begins with one of these.
fn behind_scheme(path: &[u8]) -> Option<&[u8]>
    ensures { option_map (λ rest. rest.now) result ≡ behind_scheme path.now }
{
    match path {
        [b's', b'3', b'a', b':', rest @ ..] => Some(rest),
        [b's', b'3', b'n', b':', rest @ ..] => Some(rest),
        _ => None,
    }
}

/// A path with the scheme `s3:` in place of `s3a:` and `s3n:`.
fn one_scheme(alloc: Global, path: &[u8]) -> Result<Items<u8>, AllocError>
    ensures { IfOk result (λ bytes. bytes ≡ one_scheme path.now) }
{
    let mut bytes = Vec::new(alloc);
    match behind_scheme(path) {
        Some(rest) => {
            bytes.extend_from_slice(b"s3:")?;
            bytes.extend_from_slice(rest)?;
        }
        None => bytes.extend_from_slice(path)?,
    }
    Ok(Items::from_vec(bytes))
}

/// A path in the spelling that all of its spellings share: percent escapes are read, a run of slashes is one slash, and
/// the schemes `s3a:` and `s3n:` are `s3:`.
pub fn plain_spelling(alloc: Global, path: &[u8]) -> Result<Items<u8>, AllocError>
    ensures { IfOk result (λ bytes. bytes ≡ plain path.now) }
{
    let read = without_escapes(alloc, path)?;
    let single = single_slashes(alloc, &read)?;
    one_scheme(alloc, &single)
}
