//! The files of a commit as the lines of a bundle.

ghost use Rattle.std.specs.Prelude.{◌≡◌, ◌++◌, OnOk, IfOk};
ghost use Rattle.icescan_commits.specs.Commits.{bundle_lines, file_line, in_order};

use contract_words::{Items, Text};
use icescan_print::put_escaped;
use std::alloc::{AllocError, Global};

/// Puts the line of a file behind a text.
fn put_file_line(
    alloc: Global,
    text: &mut Vec<u8>,
    path: &str,
    bytes: &[u8],
) -> Result<(), AllocError>
    ensures { OnOk result (text.new.items ≡ text.old.items ++ file_line (path.now, bytes.now)) }
{
    let digits = hex::encode(alloc, bytes)?;
    put_escaped(text, path.as_bytes()).map_err(|_| AllocError)?;
    text.push(b' ')?;
    text.extend_from_slice(digits.as_bytes())?;
    text.push(b'\n')?;
    Ok(())
}

/// The lines of the files of a commit, and then that of its metadata.
pub fn commit_lines(
    alloc: Global,
    files: &[(Text, Items<u8>)],
    out: &Text,
    metadata: &[u8],
) -> Result<Vec<u8>, AllocError>
    ensures { IfOk result (λ text. text.items ≡ bundle_lines (in_order files.now out.now metadata.now)) }
{
    let mut text = Vec::new(alloc);
    'files: for file in files {
        let (path, bytes) = file;
        put_file_line(alloc, &mut text, path.as_str(), bytes.as_slice())?;
    }
    put_file_line(alloc, &mut text, out.as_str(), metadata)?;
    Ok(text)
}
