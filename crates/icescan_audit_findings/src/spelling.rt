//! The spellings of paths by which live files are told apart.

ghost use Rattle.std.specs.Prelude.{◌≡◌, ◌++◌, IfOk, OnOk};
ghost use Rattle.icescan_audit_findings.specs.Spelling.{begins_with_slash, has_oddity, is_odd, is_odd_byte};
ghost use Rattle.icescan_audit_findings.specs.Spelling.{is_odd_slash, is_of_object_store, odd_spelling, with_slash};
ghost use Rattle.icescan_audit_findings.specs.Spelling.{with_slashes};

use contract_words::Items;
use icescan_paths::plain_spelling;
use std::alloc::{AllocError, Global};

/// Whether bytes begin with a slash.
fn begins_with_slash(bytes: &[u8]) -> bool
    ensures { result ≡ begins_with_slash bytes.now }
{
    matches!(bytes, [b'/', ..])
}

/// Whether a slash is one of two elsewhere than behind a scheme, or the only one behind a scheme.
fn is_odd_slash(before: u8, behind: &[u8]) -> bool
    ensures { result ≡ is_odd_slash before behind.now }
{
    if begins_with_slash(behind) {
        before != b':'
    } else {
        before == b':'
    }
}

/// Whether a byte, between the one before and those behind it, is an escape's percent sign, or such a slash.
fn is_odd_byte(before: u8, byte: u8, behind: &[u8]) -> bool
    ensures { result ≡ is_odd_byte before byte behind.now }
{
    byte == b'%' || byte == b'/' && is_odd_slash(before, behind)
}

/// Whether a path has such a byte.
fn has_oddity(path: &[u8]) -> bool
    ensures { result ≡ has_oddity 0 path.now }
{
    let mut before = 0;
    let mut left = path;
    'left: while let [byte, behind @ ..] = left {
        if is_odd_byte(before, *byte, behind) {
            return true;
        }
        before = *byte;
        left = behind;
    }
    false
}

/// Whether a path has the scheme `s3a:` or `s3n:`.
fn is_of_object_store(path: &[u8]) -> bool
    ensures { result ≡ is_of_object_store path.now }
{
    match path {
        [b's', b'3', b'a', b':', ..] => true,
        [b's', b'3', b'n', b':', ..] => true,
        _ => false,
    }
}

/// Whether a path may have another spelling that stands for it.
fn is_odd(path: &[u8]) -> bool
    ensures { result ≡ is_odd path.now }
{
    is_of_object_store(path) || has_oddity(path)
}

/// Puts a byte last, and where it is a colon before a slash one more slash.
fn push_with_slash(bytes: &mut Vec<u8>, byte: u8, behind: &[u8]) -> Result<(), AllocError>
    ensures { OnOk result (bytes.new.items ≡ bytes.old.items ++ with_slash byte behind.now) }
{
    bytes.push(byte)?;
    if byte == b':' && begins_with_slash(behind) {
        bytes.push(b'/')?;
    }
    Ok(())
}

/// A path with two slashes behind each colon that stands before one.
fn with_slashes(alloc: Global, path: &[u8]) -> Result<Items<u8>, AllocError>
    ensures { IfOk result (λ bytes. bytes ≡ with_slashes path.now) }
{
    let mut bytes = Vec::new(alloc);
    let mut left = path;
    'left: while let [byte, behind @ ..] = left {
        push_with_slash(&mut bytes, *byte, behind)?;
        left = behind;
    }
    Ok(Items::from_vec(bytes))
}

/// The spelling that stands for all spellings of a path; none where it is the path as it stands.
pub fn odd_spelling(alloc: Global, path: &[u8]) -> Result<Option<Items<u8>>, AllocError>
    ensures { IfOk result (λ spelling. spelling ≡ odd_spelling path.now) }
{
    if !is_odd(path) {
        return Ok(None);
    }
    let plain = plain_spelling(alloc, path)?;
    Ok(Some(with_slashes(alloc, plain.as_slice())?))
}
