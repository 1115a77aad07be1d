//! The words by which other commands are told of a table in a folder.

ghost use Rattle.std.specs.Prelude.{◌≡◌, ◌==◌, IfOk, Some, position, string_bytes};
ghost use Rattle.icescan_locate.specs.Located.{below, first_line, hint_in, metadata_path, words_text};

use ice_meta_files::number_of;
use icescan_text::Separator;
use std::alloc::{AllocError, Global};

/// A name below a path; no second slash where the path ends with one.
pub fn below(alloc: Global, path: &str, name: &str) -> Result<String, AllocError>
    ensures { IfOk result (λ joined. string_bytes joined ≡ below path.now name.now) }
{
    let mut joined = String::from_str(alloc, path)?;
    if !path.as_bytes().ends_with(b"/") {
        joined.push('/')?;
    }
    joined.push_str(name)?;
    Ok(joined)
}

/// The path of the metadata of a name, below a folder or a location.
pub fn metadata_path(alloc: Global, folder: &str, name: &str) -> Result<String, AllocError>
    ensures { IfOk result (λ path. string_bytes path ≡ metadata_path folder.now name.now) }
{
    let mut rest = String::from_str(alloc, "metadata/")?;
    rest.push_str(name)?;
    below(alloc, folder, rest.as_str())
}

/// Where the first line feed is.
fn line_feed(bytes: &[u8]) -> Option<usize>
    ensures { result ≡ position (λ b. b == 10) bytes.now }
{
    bytes.iter().position(|byte| *byte == b'\n')
}

/// The bytes before the first line feed.
fn first_line(bytes: &[u8]) -> &[u8]
    ensures { result.now ≡ first_line bytes.now }
{
    match line_feed(bytes) {
        Some(at) => &bytes[..at],
        None => bytes,
    }
}

/// The number that a hint has.
pub fn hint_of(bytes: &[u8]) -> Option<u32>
    ensures { result ≡ hint_in (Some bytes.now) }
{
    number_of(first_line(bytes))
}

/// The words, set apart so.
pub fn words_text(
    alloc: Global,
    separator: Separator,
    folder: &str,
    location: &str,
    path: &str,
) -> Result<Vec<u8>, AllocError>
    ensures { IfOk result (λ text. text.items ≡ words_text separator folder.now location.now path.now) }
{
    let (between, end) = match separator {
        Separator::Space => (b' ', b'\n'),
        Separator::Nul => (0, 0),
    };
    let mut text = Vec::new(alloc);
    text.extend_from_slice(b"--dir")?;
    text.push(between)?;
    text.extend_from_slice(folder.as_bytes())?;
    text.push(between)?;
    text.extend_from_slice(b"--prefix")?;
    text.push(between)?;
    text.extend_from_slice(location.as_bytes())?;
    text.push(between)?;
    text.extend_from_slice(path.as_bytes())?;
    text.push(end)?;
    Ok(text)
}
